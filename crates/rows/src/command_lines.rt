//! Rows of command lines: what words ask for, and what a run of them writes.
//!
//! Of `? WORD .. | FORM` the words are those behind the program's name, and the form is the one that they are, with its
//! numbers, or `usage`. Of `$ WRITE MOST WORD .. | END OUTPUT` the first word is the write that fails, counted from 1; 0
//! is none. The link takes so many bytes a write, and has nothing to read.
use crate::links::{calls_of, lines_of, name_of, number};
use crate::{Tally, clock_of, compare_row};
use command_line::{Form, WordFault, read_words};
use fs_ports::{ListOfPieces, MemLink};
use ft_base::{ListOf, NoMemory, put_int};
use ft_server::{Exit, run};
use row_text::{Row, read_row};
use std::alloc::Global;
use std::hash::RandomState;
use std::sync::Wait;

/// What the rows that differ are told under.
const NAME: &[u8] = b"a command line";

/// How many words stand before those of the command line.
const NUMBERS: usize = 2;

/// Runs a row of a form, and compares what its words ask for.
pub fn judge_form(alloc: Global, row: &str, tally: &mut Tally) -> Result<(), NoMemory> {
    match read_row(alloc, row.as_bytes())? {
        Some(row) => judge_words(alloc, &row, tally),
        None => Ok(()),
    }
}

fn judge_words(alloc: Global, row: &Row, tally: &mut Tally) -> Result<(), NoMemory> {
    let words = strings_of(alloc, row.words.as_slice())?;
    let came = told(alloc, read_words(alloc, words.as_slice()))?;
    compare_row(alloc, NAME, row, came.as_slice(), tally)
}

// A form as a row has it: its name and its numbers.
fn told(alloc: Global, asked: Result<Form, WordFault>) -> Result<Vec<Vec<u8>>, NoMemory> {
    match asked {
        Ok(Form::Script) => named(alloc, b"script"),
        Ok(Form::Load { seed, docs }) => with_numbers(alloc, b"load", seed, u64::from(docs)),
        Ok(Form::Serve { port, workers }) => with_numbers(
            alloc,
            b"serve",
            u64::from(port),
            u64::from(workers),
        ),
        Err(WordFault::Usage) => named(alloc, b"usage"),
        Err(WordFault::NoMemory) => named(alloc, b"memory"),
    }
}

fn named(alloc: Global, name: &[u8]) -> Result<Vec<Vec<u8>>, NoMemory> {
    let mut lines = Vec::new(alloc);
    lines.push(Vec::from_slice(alloc, name)?)?;
    Ok(lines)
}

fn with_numbers(
    alloc: Global,
    name: &[u8],
    first: u64,
    second: u64,
) -> Result<Vec<Vec<u8>>, NoMemory> {
    let mut lines = named(alloc, name)?;
    lines.push(spelled(alloc, first)?)?;
    lines.push(spelled(alloc, second)?)?;
    Ok(lines)
}

fn spelled(alloc: Global, number: u64) -> Result<Vec<u8>, NoMemory> {
    let mut out = Vec::new(alloc);
    put_int(&mut out, i64::try_from(number).unwrap_or(-1))?;
    Ok(out)
}

/// Runs a row of a command line, and compares how the run ends, and all that was written.
pub fn judge_run<R: Wait>(
    rt: &R,
    alloc: Global,
    hashing: RandomState,
    row: &str,
    tally: &mut Tally,
) -> Result<(), NoMemory> {
    match read_row(alloc, row.as_bytes())? {
        Some(row) => run_row(rt, alloc, hashing, &row, tally),
        None => Ok(()),
    }
}

fn run_row<R: Wait>(
    rt: &R,
    alloc: Global,
    hashing: RandomState,
    row: &Row,
    tally: &mut Tally,
) -> Result<(), NoMemory> {
    let words = row.words.as_slice();
    let mut link = link_of(alloc, number(words, 0), number(words, 1) as usize)?;
    let exit = run_words(rt, alloc, hashing, words, &mut link)?;
    let came = lines_of(alloc, name_of(exit), link.output())?;
    compare_row(alloc, NAME, row, came.as_slice(), tally)
}

// A link that has nothing to read, and of which this write fails.
fn link_of(alloc: Global, write: u64, most: usize) -> Result<MemLink, NoMemory> {
    let pieces: ListOfPieces = ListOf::new(alloc);
    MemLink::new(
        alloc,
        pieces,
        ListOf::new(alloc),
        calls_of(alloc, write)?,
        most,
    )
}

// Runs the words behind the numbers of a row, and answers how the run ends.
fn run_words<R: Wait>(
    rt: &R,
    alloc: Global,
    hashing: RandomState,
    words: &[Vec<u8>],
    link: &mut MemLink,
) -> Result<Exit, NoMemory> {
    let line = strings_of(alloc, words.get(NUMBERS..).unwrap_or(&[]))?;
    let mut clock = clock_of(alloc, &[])?;
    Ok(run(rt, alloc, hashing, line.as_slice(), link, &mut clock))
}

// Words as texts.
fn strings_of(alloc: Global, words: &[Vec<u8>]) -> Result<Vec<String>, NoMemory> {
    let mut texts = Vec::new(alloc);
    for word in words {
        texts.push(text_of(alloc, word.as_slice())?)?;
    }
    Ok(texts)
}

fn text_of(alloc: Global, word: &[u8]) -> Result<String, NoMemory> {
    String::from_str(alloc, std::str::from_utf8(word).unwrap_or("no text"))
}
