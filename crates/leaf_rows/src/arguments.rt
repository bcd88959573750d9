//! What the words of a row stand for.
ghost use Rattle.std.specs.Prelude.{◌↔◌, IsTrue};
ghost use Rattle.ft_base.specs.Spans.{LieIn};

use crate::answer::Answer;
use ft_base::{Bytes, Frame, HashRec, ListOf, Span};
use std::alloc::Global;

/// The word at a place, empty where there is none.
pub fn word(words: &[Vec<u8>], i: usize) -> &[u8] {
    match words.get(i) {
        Some(word) => word.as_slice(),
        None => b"",
    }
}

/// The words from a place on.
pub fn rest(words: &[Vec<u8>], from: usize) -> &[Vec<u8>] {
    &words[from.min(words.len())..]
}

/// The whole number that a word spells, as std reads it.
pub fn number_of(word: &[u8]) -> Option<i64> {
    std::str::from_utf8(word).ok()?.parse::<i64>().ok()
}

/// The same where it is a place or a number of things, and 0 where it is none.
pub fn count_of(word: &[u8]) -> usize {
    number_of(word)
        .and_then(|number| usize::try_from(number).ok())
        .unwrap_or(0)
}

/// The name and the value of `name=value`.
pub fn halves(word: &[u8]) -> (&[u8], &[u8]) {
    let at = word.iter().position(|byte| *byte == b'=');
    let (name, rest) = word.split_at(at.unwrap_or(word.len()).min(word.len()));
    match rest {
        [_, value @ ..] => (name, value),
        [] => (name, rest),
    }
}

/// The hash to which each `field=value` is set in turn.
pub fn hash_of(alloc: Global, pairs: &[Vec<u8>], out: &mut Answer) -> HashRec {
    let mut hash = HashRec::new(alloc);
    for pair in pairs {
        let (field, value) = halves(pair.as_slice());
        let value = out.bytes(alloc, value);
        out.note(hash.set(field, value));
    }
    hash
}

/// Copies of words.
pub fn list_of_words(alloc: Global, words: &[Vec<u8>], out: &mut Answer) -> ListOf<Bytes> {
    let mut list = ListOf::new(alloc);
    for word in words {
        let word = out.bytes(alloc, word.as_slice());
        out.note(list.push(word));
    }
    list
}

/// The words of a command, one behind another. It is none in no case that comes.
pub fn frame_of(alloc: Global, words: &[Vec<u8>], out: &mut Answer) -> Option<Frame> {
    let mut bytes = Vec::new(alloc);
    let mut spans = Vec::new(alloc);
    for word in words {
        let from = bytes.len();
        out.note(bytes.extend_from_slice(word.as_slice()));
        let to = bytes.len();
        out.note(spans.push(Span { from, to }));
    }
    framed(bytes, spans)
}

// Bytes and the spans of words in them; none where one does not lie in them.
fn framed(bytes: Vec<u8>, spans: Vec<Span>) -> Option<Frame> {
    if !lie_in(bytes.as_slice(), spans.as_slice()) {
        return None;
    }
    Some(Frame {
        bytes: Bytes::from_vec(bytes),
        spans: ListOf::from_vec(spans),
    })
}

// Whether each span lies in the bytes.
fn lie_in(bytes: &[u8], spans: &[Span]) -> bool
    ensures { IsTrue result ↔ LieIn bytes.now spans.now }
{
    spans
        .iter()
        .all(|span| span.from <= span.to && span.to <= bytes.len())
}
