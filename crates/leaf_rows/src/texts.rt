//! The words of texts, and the tags and numbers of values.
ghost use Rattle.std.specs.Prelude.{◌≤◌, length};
ghost use Rattle.ft_base.specs.declared.limits.TheConstants.{MAX_WORD_BYTES};

use crate::answer::Answer;
use crate::arguments::{count_of, list_of_words, rest, word};
use field_text::{number, tags};
use ft_base::{Bytes, ListOf, MAX_WORD_BYTES, NamedList, NoMemory, StopWords, is_separator};
use std::alloc::Global;
use token_text::{TextTokens, tokens};

/// Writes the answer of a call, and tells whether it is of this file.
pub fn put(alloc: Global, call: &str, words: &[Vec<u8>], out: &mut Answer) -> bool {
    let first = word(words, 0);
    match call {
        "tokens" => put_tokens(alloc, first, rest(words, 1), out),
        "many_tokens" => put_many(alloc, count_of(first), out),
        "long_tokens" => put_long(alloc, count_of(first), word(words, 1), out),
        "is_separator" => out.put_truth(first.iter().all(|byte| is_separator(*byte))),
        "value_tags" => put_tags(alloc, words, out),
        "value_number" => out.put_number(number(first)),
        _ => return false,
    }
    true
}

// The tokens of a text, of which none is one of the stop words.
fn found(alloc: Global, text: &[u8], stops: &[Vec<u8>], out: &mut Answer) -> TextTokens {
    if MAX_WORD_BYTES < text.len() {
        return TextTokens::new(alloc);
    }
    let words = list_of_words(alloc, stops, out);
    match cut(alloc, text, words) {
        Ok(found) => found,
        Err(_) => {
            out.fail();
            TextTokens::new(alloc)
        }
    }
}

fn cut(alloc: Global, text: &[u8], words: ListOf<Bytes>) -> Result<TextTokens, NoMemory>
    requires { length text.now ≤ MAX_WORD_BYTES }
{
    let words = NamedList::from_vec(words.into_vec())?;
    tokens(alloc, text, &StopWords { words })
}

// Each token as its place, a colon and its word.
fn put_tokens(alloc: Global, text: &[u8], stops: &[Vec<u8>], out: &mut Answer) {
    let found = found(alloc, text, stops, out);
    if found.len() == 0 {
        out.put(b"none");
    }
    for i in 0..found.len() {
        out.put(b" ");
        out.put_int(i as i64 + 1);
        out.put(b":");
        out.put_word(found.word(i));
    }
}

// Of a text of so many words of one byte, how many tokens it has, and the last one.
fn put_many(alloc: Global, count: usize, out: &mut Answer) {
    let mut text = Vec::new(alloc);
    for _ in 0..count {
        out.note(text.extend_from_slice(b"x "));
    }
    let found = found(alloc, text.as_slice(), &[], out);
    out.put_count(found.len());
    out.put(b" ");
    match found.len().checked_sub(1) {
        Some(last) => out.put_word(found.word(last)),
        None => out.put(b"none"),
    }
}

// Of a text that is so many times a word, how many tokens it has, and how many bytes the last one has.
fn put_long(alloc: Global, count: usize, repeated: &[u8], out: &mut Answer) {
    let mut text = Vec::new(alloc);
    for _ in 0..count {
        out.note(text.extend_from_slice(repeated));
    }
    let found = found(alloc, text.as_slice(), &[], out);
    out.put_count(found.len());
    out.put(b" ");
    match found.len().checked_sub(1) {
        Some(last) => out.put_count(found.word(last).len()),
        None => out.put(b"none"),
    }
}

fn put_tags(alloc: Global, words: &[Vec<u8>], out: &mut Answer) {
    let separator = word(words, 1).first().copied().unwrap_or(0);
    match tags(alloc, word(words, 0), separator, 2 < words.len()) {
        Ok(found) => put_found(found.as_slice(), out),
        Err(_) => out.fail(),
    }
}

fn put_found(tags: &[Bytes], out: &mut Answer) {
    if tags.is_empty() {
        out.put(b"none");
    }
    out.put_words(tags);
}
