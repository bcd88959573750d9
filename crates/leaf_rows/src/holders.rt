//! What holds bytes, items and steps.
ghost use Rattle.std.specs.Prelude.{◌≡◌, ◌<◌};

use crate::answer::Answer;
use crate::arguments::{count_of, rest, word};
use ft_base::{Boxed, Bytes, ListOf, NoMemory, Steps};
use std::alloc::Global;
use std::marker::Brand;
use std::mem::size_of;
use std::sync::ledger::{Blank, Ledger};

/// Writes the answer of a call, and tells whether it is of this file.
pub fn put(alloc: Global, call: &str, words: &[Vec<u8>], out: &mut Answer) -> bool {
    let first = word(words, 0);
    match call {
        "boxed" => put_boxed(alloc, first, out),
        "bytes" => put_bytes(alloc, first, word(words, 1), out),
        "list_of" => put_list(alloc, words, out),
        "steps" => out.put_count(bytes_of_steps()),
        _ => return false,
    }
    true
}

// A word as its box lends it and hands it out.
fn put_boxed(alloc: Global, word: &[u8], out: &mut Answer) {
    let Ok(boxed) = Boxed::new(alloc, out.bytes(alloc, word)) else {
        return out.fail();
    };
    out.put_word(boxed.get().as_slice());
    out.put(b" ");
    out.put_word(boxed.into_inner().as_slice());
}

// Bytes with others pushed, and how many they are as they are handed over.
fn put_bytes(alloc: Global, first: &[u8], more: &[u8], out: &mut Answer) {
    let bytes = pushed(alloc, first, more, out);
    let Ok(copy) = bytes.clone() else {
        return out.fail();
    };
    out.put_word(copy.as_slice());
    out.put(b" ");
    out.put_count(Bytes::from_vec(bytes.into_vec()).len());
}

fn pushed(alloc: Global, first: &[u8], more: &[u8], out: &mut Answer) -> Bytes {
    let mut bytes = if first.is_empty() {
        Bytes::new(alloc)
    } else {
        out.bytes(alloc, first)
    };
    for byte in more {
        out.note(bytes.push(*byte));
    }
    bytes
}

// Numbers with the one at a place changed, and how many they are as they are handed over.
fn put_list(alloc: Global, words: &[Vec<u8>], out: &mut Answer) {
    let mut list = numbers_of(alloc, rest(words, 2), out);
    let place = count_of(word(words, 0));
    if place < list.len() {
        *list.get_mut(place) = count_of(word(words, 1));
    }
    for number in list.as_slice() {
        out.put_count(*number);
        out.put(b" ");
    }
    out.put(b"of ");
    out.put_count(ListOf::from_vec(list.into_vec()).len());
}

fn numbers_of(alloc: Global, words: &[Vec<u8>], out: &mut Answer) -> ListOf<usize> {
    let mut list = ListOf::new(alloc);
    for word in words {
        out.note(list.push(count_of(word.as_slice())));
    }
    list
}

// The bytes that a count of steps takes.
fn bytes_of_steps() -> usize {
    count_twice::<Brand>(Blank::new(1))
}

fn count_twice<L: Ledger>(blank: Blank) -> usize
    requires name { blank.name ≡ L.name }
    requires parts { blank.parts ≡ L.parts }
    requires some { 0 < L.parts }
{
    let mut steps = Steps::<L>::new(blank);
    steps.tick();
    steps.tick();
    size_of::<Steps<L>>()
}
