//! Tables of documents, step by step: `table STEP..`. The steps that ask are answered in their order.
//!
//! `put:ID:NUMBERS` prepares and commits a document, `wait:ID:NUMBERS` only prepares it, `commit:` commits the one that
//! waits, `compact:` gives it up. The numbers stand with commas between them, `none` for one that is missing.
//! `kill:ID` takes a document out and tells whether it was live, `live:ID` tells whether it is. `number:ID:PLACE` gives
//! a document's number at a place, `next:ID` the least live id from there on, `ids:` how many live ids there are, and
//! these, and `bit:ID` whether an id is live by a copy of the bits.
ghost use Rattle.std.specs.Prelude.{◌≡◌, ◌<◌, Some};
ghost use Rattle.std.specs.Option.{option_map};

use super::numbers::{number, parted, put_found, put_numbers, put_truth};
use crate::answer::Answer;
use crate::arguments::{count_of, number_of};
use doc_table::{DocTable, SortingVector};
use ft_base::NoMemory;
use std::alloc::Global;

// A table, its last id, and the id of the document that waits, or 0.
#[derive(Drop)]
struct Documents {
    table: DocTable,
    last: u64,
    waiting: u64,
    ghost known_last: { table.last ≡ last },
    ghost known_waiting: { 0 < waiting → option_map (λ row. row.0) table.ready ≡ Some waiting },
}

/// Writes the answer of a call, and tells whether it is of this file.
pub fn put(alloc: Global, call: &str, words: &[Vec<u8>], out: &mut Answer) -> bool {
    if call != "table" {
        return false;
    }
    put_steps(alloc, words, out);
    true
}

fn put_steps(alloc: Global, words: &[Vec<u8>], out: &mut Answer) {
    let mut documents = Documents {
        table: DocTable::new(alloc),
        last: 0,
        waiting: 0,
    };
    // Where the number before was found: one walk goes through all that are asked for.
    let mut near = 0;
    for word in words {
        step(alloc, word.as_slice(), &mut documents, &mut near, out);
    }
}

fn step(alloc: Global, word: &[u8], documents: &mut Documents, near: &mut usize, out: &mut Answer) {
    let (verb, rest) = parted(word);
    let (id, numbers) = parted(rest);
    let (verb, id) = (std::str::from_utf8(verb).unwrap_or(""), number(id));
    match verb {
        "put" => {
            out.note(prepare(alloc, documents, id, numbers));
            commit(documents);
        }
        "wait" => out.note(prepare(alloc, documents, id, numbers)),
        "commit" => commit(documents),
        "compact" => compact(documents),
        "kill" => put_truth(documents.table.kill(id), out),
        _ => ask(&documents.table, verb, id, count_of(numbers), near, out),
    }
}

fn prepare(
    alloc: Global,
    documents: &mut Documents,
    id: u64,
    numbers: &[u8],
) -> Result<(), NoMemory> {
    if id <= documents.last {
        return Ok(());
    }
    let vector = vector_of(alloc, numbers)?;
    documents.waiting = 0;
    documents.table.prepare(id, vector)?;
    documents.last = id;
    documents.waiting = id;
    Ok(())
}

// The numbers that stand with commas between them; what spells no number is one that is missing.
fn vector_of(alloc: Global, numbers: &[u8]) -> Result<SortingVector, NoMemory> {
    let mut vector = SortingVector::new();
    if numbers.is_empty() {
        return Ok(vector);
    }
    for number in numbers.split(|byte| *byte == b',') {
        vector.push(alloc, number_of(number))?;
    }
    Ok(vector)
}

fn commit(documents: &mut Documents) {
    let id = documents.waiting;
    if 0 < id {
        documents.waiting = 0;
        documents.table.commit(id);
    }
}

fn compact(documents: &mut Documents) {
    documents.waiting = 0;
    documents.table.compact();
}

fn ask(table: &DocTable, verb: &str, id: u64, place: usize, near: &mut usize, out: &mut Answer) {
    match verb {
        "live" => put_truth(table.is_live(id), out),
        "number" => {
            out.put(b" ");
            out.put_number(table.number_near(id, place, near));
        }
        "next" => put_found(table.next_live(id), out),
        "ids" => put_ids(table, out),
        "bit" => put_bit(table, id, out),
        _ => {}
    }
}

fn put_bit(table: &DocTable, id: u64, out: &mut Answer) {
    match table.live_bits() {
        Ok(ids) => put_truth(ids.contains(id), out),
        Err(_) => out.fail(),
    }
}

fn put_ids(table: &DocTable, out: &mut Answer) {
    put_found(Some(table.len() as u64), out);
    match table.live_ids() {
        Ok(ids) => put_numbers(ids.as_slice(), out),
        Err(_) => out.fail(),
    }
}
