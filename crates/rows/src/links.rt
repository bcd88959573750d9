//! Rows of a link of its own: bytes that come in pieces, calls that fail, and what is written until the run ends.
//!
//! Of `~ READ WRITE MOST SIZE TEXT .. | END OUTPUT` the first two words are the read and the write that fails, counted from
//! 1; 0 is none. The link takes so many bytes a write, and gives each text in pieces of so many bytes, or whole where that
//! is 0. `~~` is the same over a link that holds back what is written.
use crate::{Tally, compare_row, script, script_held};
use fs_ports::{ListOfCalls, ListOfPieces, MemLink};
use ft_base::{Bytes, ListOf, NoMemory, read_int};
use ft_server::Exit;
use row_text::{Row, read_row};
use std::alloc::Global;
use std::hash::RandomState;
use std::sync::Wait;

/// What the rows that differ are told under.
const NAME: &[u8] = b"a link";

/// How many words stand before the texts.
const NUMBERS: usize = 4;

/// Runs a row, and compares how the run ends, and all that was written.
pub fn judge<R: Wait>(
    rt: &R,
    alloc: Global,
    hashing: RandomState,
    row: &str,
    held: bool,
    tally: &mut Tally,
) -> Result<(), NoMemory> {
    match read_row(alloc, row.as_bytes())? {
        Some(row) => judge_row(rt, alloc, hashing, &row, held, tally),
        None => Ok(()),
    }
}

fn judge_row<R: Wait>(
    rt: &R,
    alloc: Global,
    hashing: RandomState,
    row: &Row,
    held: bool,
    tally: &mut Tally,
) -> Result<(), NoMemory> {
    let link = link_of(alloc, row.words.as_slice())?;
    let came = if held {
        run_held(rt, alloc, hashing, link)?
    } else {
        run_plain(rt, alloc, hashing, link)?
    };
    compare_row(alloc, NAME, row, came.as_slice(), tally)
}

// How the run ends, and all that was written.
fn run_plain<R: Wait>(
    rt: &R,
    alloc: Global,
    hashing: RandomState,
    link: MemLink,
) -> Result<Vec<Vec<u8>>, NoMemory> {
    let mut link = link;
    let exit = script(rt, alloc, hashing, &[], &mut link);
    lines_of(alloc, name_of(exit), link.output())
}

fn run_held<R: Wait>(
    rt: &R,
    alloc: Global,
    hashing: RandomState,
    link: MemLink,
) -> Result<Vec<Vec<u8>>, NoMemory> {
    let (exit, output) = script_held(rt, alloc, hashing, &[], link)?;
    lines_of(alloc, name_of(exit), output.as_slice())
}

/// The lines of a link's row: how the run ends, and all that was written.
pub fn lines_of(alloc: Global, end: &[u8], output: &[u8]) -> Result<Vec<Vec<u8>>, NoMemory> {
    let mut lines = Vec::new(alloc);
    lines.push(Vec::from_slice(alloc, end)?)?;
    lines.push(Vec::from_slice(alloc, output)?)?;
    Ok(lines)
}

// The link that a row describes.
fn link_of(alloc: Global, words: &[Vec<u8>]) -> Result<MemLink, NoMemory> {
    let pieces = pieces_of(alloc, words)?;
    let reads = calls_of(alloc, number(words, 0))?;
    MemLink::new(
        alloc,
        pieces,
        reads,
        calls_of(alloc, number(words, 1))?,
        number(words, 2) as usize,
    )
}

/// The one call that fails.
pub fn calls_of(alloc: Global, call: u64) -> Result<ListOfCalls, NoMemory> {
    let mut calls = ListOf::new(alloc);
    calls.push(call)?;
    Ok(calls)
}

fn pieces_of(alloc: Global, words: &[Vec<u8>]) -> Result<ListOfPieces, NoMemory> {
    let size = number(words, 3) as usize;
    let mut pieces = ListOf::new(alloc);
    for text in words.iter().skip(NUMBERS) {
        put_pieces(alloc, text.as_slice(), size, &mut pieces)?;
    }
    Ok(pieces)
}

// Appends a text in pieces of so many bytes, or whole.
fn put_pieces(
    alloc: Global,
    text: &[u8],
    size: usize,
    pieces: &mut ListOfPieces,
) -> Result<(), NoMemory> {
    let size = if size == 0 { text.len().max(1) } else { size };
    for piece in text.chunks(size) {
        pieces.push(Bytes::from_slice(alloc, piece)?)?;
    }
    Ok(())
}

/// The number at a place, 0 where there is none.
pub fn number(words: &[Vec<u8>], place: usize) -> u64 {
    let number = words.get(place).and_then(|word| read_int(word.as_slice()));
    u64::try_from(number.unwrap_or(0)).unwrap_or(0)
}

/// An end as a row has it.
pub fn name_of(exit: Exit) -> &'static [u8] {
    match exit {
        Exit::Done => b"Done",
        Exit::CutShort => b"CutShort",
        Exit::Protocol => b"Protocol",
        Exit::Usage => b"Usage",
        Exit::ReadFault => b"ReadFault",
        Exit::WriteFault => b"WriteFault",
        Exit::ByteLimit => b"ByteLimit",
        Exit::NoMemory => b"NoMemory",
        Exit::DoorFault => b"DoorFault",
        Exit::NoThread => b"NoThread",
    }
}
