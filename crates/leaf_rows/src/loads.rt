//! The requests of loads.
ghost use Rattle.std.specs.Prelude.{◌≤◌};

use crate::answer::Answer;
use crate::arguments::{number_of, word};
use load_maker::make;
use std::alloc::Global;

/// Writes the answer of a call, and tells whether it is of this file.
pub fn put(alloc: Global, call: &str, words: &[Vec<u8>], out: &mut Answer) -> bool {
    if call != "make" {
        return false;
    }
    let seed = number_of(word(words, 0)).and_then(|seed| u64::try_from(seed).ok());
    let docs = number_of(word(words, 1)).and_then(|docs| u32::try_from(docs).ok());
    match (seed, docs) {
        (Some(seed), Some(docs)) if 1 <= docs && docs <= 100_000 => put_load(
            alloc, seed, docs, out,
        ),
        _ => out.put(b"no load"),
    }
    true
}

// The bytes of a load in quotes.
fn put_load(alloc: Global, seed: u64, docs: u32, out: &mut Answer)
    requires some { 1 ≤ docs }
    requires few { docs ≤ 100000 }
{
    match make(alloc, seed, docs) {
        Ok(bytes) => out.put_quoted(bytes.as_slice()),
        Err(_) => out.fail(),
    }
}
