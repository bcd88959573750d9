//! Whether the words of a phrase stand close enough together.
ghost use Rattle.std.specs.Prelude.{◌≡◌, ◌<◌, ◌==◌, length, filter, slice_index, IfOk};
ghost use Rattle.std.specs.List.{range_with_len};

use crate::answer::Answer;
use crate::arguments::{number_of, word};
use ft_base::{ListOf, NoMemory};
use phrase_match::within;
use std::alloc::Global;

/// How many texts there are of five words and then three, of the same three words.
const TEXTS: u32 = 6_561;

/// How many choices there are of three of five places.
const CHOICES: usize = 125;

/// Writes the answer of a call, and tells whether it is of this file.
pub fn put(alloc: Global, call: &str, words: &[Vec<u8>], out: &mut Answer) -> bool {
    match call {
        "within" => put_within(alloc, words, out),
        "within_every_choice" => put_alike(alloc, words, out),
        _ => return false,
    }
    true
}

fn put_within(alloc: Global, words: &[Vec<u8>], out: &mut Answer) {
    let document = word(words, 0);
    if document.len() < 1000 {
        let (slop, in_order) = nearness(word(words, 2), word(words, 3));
        match asked(alloc, document, word(words, 1), slop, in_order) {
            Ok(found) => out.put_truth(found),
            Err(_) => out.fail(),
        }
    }
}

// The slop, none where there is any, and whether the words stand in order.
fn nearness(slop: &[u8], order: &[u8]) -> (Option<u32>, bool) {
    let slop = number_of(slop).and_then(|slop| u32::try_from(slop).ok());
    (slop, order == b"in_order".as_slice())
}

// How many texts are answered as by every choice of places, until one is not.
fn put_alike(alloc: Global, words: &[Vec<u8>], out: &mut Answer) {
    let (slop, in_order) = nearness(word(words, 0), word(words, 1));
    let mut count = 0;
    for number in 0..TEXTS {
        if !is_alike(alloc, &text_of(number), slop, in_order) {
            break;
        }
        count = i64::from(number) + 1;
    }
    out.put_int(count);
}

// A text of eight words, by its number.
fn text_of(number: u32) -> [u8; 8] {
    let mut text = [b'a'; 8];
    let mut rest = number;
    for word in text.iter_mut() {
        *word = b'a' + (rest % 3) as u8;
        rest /= 3;
    }
    text
}

// Whether the last three words stand so among the first five if some choice of places says so, and else not.
fn is_alike(alloc: Global, text: &[u8; 8], slop: Option<u32>, in_order: bool) -> bool {
    let most = slop.map_or(usize::MAX, |slop| slop as usize + 2);
    let tried = (0..CHOICES).any(|choice| stands_at(text, choice, most, in_order));
    asked(alloc, &text[..5], &text[5..], slop, in_order) == Ok(tried)
}

// Whether the last three words stand at a choice of places, all different, of which the last is at most so many behind
// the first.
fn stands_at(text: &[u8; 8], choice: usize, most: usize, in_order: bool) -> bool {
    let (a, b, c) = (choice % 5, choice / 5 % 5, choice / 25 % 5);
    let words = (text[a] == text[5]) & (text[b] == text[6]) & (text[c] == text[7]);
    let differ = (a != b) & (b != c) & (a != c);
    let close = a.max(b).max(c) - a.min(b).min(c) <= most;
    words & differ & close & (!in_order | ((a < b) & (b < c)))
}

// Each byte of the document and of the phrase is a word.
fn asked(
    alloc: Global,
    document: &[u8],
    phrase: &[u8],
    slop: Option<u32>,
    in_order: bool,
) -> Result<bool, NoMemory>
    requires { length document.now < 1000 }
{
    let mut lists = ListOf::new(alloc);
    for word in phrase {
        lists.push(places_of(alloc, document, *word)?)?;
    }
    Ok(within(&lists, slop, in_order))
}

// The places of a word in a document.
fn places_of(alloc: Global, document: &[u8], word: u8) -> Result<ListOf<u32>, NoMemory>
    requires { length document.now < 1000 }
    ensures { IfOk result (λ found. found
        ≡ filter (λ place. slice_index document.now place == word)
        (range_with_len 0 (length document.now))) }
{
    let mut found = ListOf::new(alloc);
    for (place, other) in document.iter().enumerate() {
        if *other == word {
            found.push(place as u32)?;
        }
    }
    Ok(found)
}
