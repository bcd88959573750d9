//! Calls of what lists are made of: blocks, posting lists, tables of documents, dictionaries, ranges and plans.

mod blocks;
pub mod dead;
mod names;
mod numbers;
pub mod parts;
pub mod plans;
mod postings;
mod ranges;
mod repairs;
mod scans;
pub mod splices;
mod tables;
mod tags;

use crate::answer::Answer;
use std::alloc::Global;

/// Writes the answer of a call, and tells whether a file has it.
pub fn put(alloc: Global, call: &str, words: &[Vec<u8>], out: &mut Answer) -> bool {
    blocks::put(alloc, call, words, out)
        || postings::put(alloc, call, words, out)
        || tables::put(alloc, call, words, out)
        || names::put(alloc, call, words, out)
        || tags::put(alloc, call, words, out)
        || ranges::put(alloc, call, words, out)
        || splices::put(alloc, call, words, out)
        || plans::put(alloc, call, words, out)
        || scans::put(alloc, call, words, out)
        || parts::put(alloc, call, words, out)
}
