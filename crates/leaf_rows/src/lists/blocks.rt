//! Blocks of a posting list: their bytes, and their ids.
use super::numbers::{int_at, number, number_at, numbers_of, put_found, put_numbers};
use crate::answer::Answer;
use crate::arguments::rest;
use posting_block::{Block, ListOfPlaces, NumHit, Payload, TagHit, TextHit};
use std::alloc::Global;

/// Writes the answer of a call, and tells whether it is of this file.
pub fn put(alloc: Global, call: &str, words: &[Vec<u8>], out: &mut Answer) -> bool {
    match call {
        "spell_numbers" => put_spelled(alloc, words, out),
        "spell_places" => put_places(alloc, words, out),
        "spell_tags" => put_bytes(&tags_of(alloc, words, out), out),
        "block_ids" => put_ids(&tags_of(alloc, words, out), out),
        _ => return false,
    }
    true
}

// Adds an entry where a block has room for it and ends below its id.
fn push<P: Payload>(block: &mut Block<P>, id: u64, hit: &P, out: &mut Answer) {
    if block.len() < 100 && block.last() < id {
        out.note(block.push(id, hit));
    }
}

fn put_bytes<P: Payload>(block: &Block<P>, out: &mut Answer) {
    for byte in block.bytes() {
        put_found(Some(u64::from(*byte)), out);
    }
}

// The bytes of ids with a number each.
fn put_spelled(alloc: Global, words: &[Vec<u8>], out: &mut Answer) {
    let mut block = Block::new(alloc);
    for i in 0..words.len() / 2 {
        let value = int_at(words, 2 * i + 1);
        push(&mut block, number_at(words, 2 * i), &NumHit { value }, out);
    }
    put_bytes(&block, out);
}

// The bytes of an id with the places of a word, by their codes.
fn put_places(alloc: Global, words: &[Vec<u8>], out: &mut Answer) {
    let places = ListOfPlaces::from_vec(numbers_of(alloc, rest(words, 1), out));
    let mut block = Block::new(alloc);
    push(&mut block, number_at(words, 0), &TextHit { places }, out);
    put_bytes(&block, out);
}

// A block of ids alone.
fn tags_of(alloc: Global, words: &[Vec<u8>], out: &mut Answer) -> Block<TagHit> {
    let mut block = Block::new(alloc);
    for word in words {
        push(&mut block, number(word.as_slice()), &TagHit {}, out);
    }
    block
}

// How many ids a block has, and which they are.
fn put_ids(block: &Block<TagHit>, out: &mut Answer) {
    let mut ids = [0; 100];
    let few = block.len();
    let count = block.ids_into(&mut ids);
    out.put_count(count);
    put_numbers(&ids[..few], out);
}
