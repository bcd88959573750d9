//! Tests of small calls as rows of data: runs each row of the input, and counts those that differ.
//!
//! A row is `CALL words .. | answer`. Each call has one function, which makes its arguments from the
//! words, calls the real function and writes what it answered in one form. `main` prints each row whose
//! answer differs, and then how many there were. Read `stdin` first, then `values.rt` and `answer.rt`.
#![tactic(auto)]

mod answer;
mod arguments;
mod documents;
mod expressions;
mod holders;
mod lanes;
mod lexemes;
mod lists;
mod loads;
mod phrases;
mod queries;
mod schemas;
mod stored;
mod texts;
mod trees;
mod values;
mod wanted;
mod wire;

use answer::Answer;
use ft_base::NoMemory;
use row_text::{Row, read_row};
use std::alloc::Global;
use std::hash::RandomState;
use std::io;
use std::io::{BufRead, BufReader};

/// How many rows there were, how many of them differed, and what makes the hashes of keys.
#[derive(Drop)]
struct Tally {
    rows: u64,
    differ: u64,
    hashing: RandomState,
}

fn main(rt: HostRuntime) -> io::Result<()> {
    let mut tally = Tally {
        rows: 0,
        differ: 0,
        hashing: RandomState::new(&rt)?,
    };
    judge_all(&rt, &mut tally)?;
    println!(rt; "{} rows, {} differ", tally.rows, tally.differ)
}

/// Runs the rows of all lines of the input.
fn judge_all(rt: &HostRuntime, tally: &mut Tally) -> io::Result<()> {
    for line in BufReader::new(rt.alloc(), rt.reader())?.lines(rt.alloc()) {
        judge(rt, line, tally)?;
    }
    Ok(())
}

/// Runs the row of a line, if it could be read and holds one.
fn judge(rt: &HostRuntime, line: io::Result<String>, tally: &mut Tally) -> io::Result<()> {
    let line = line?;
    match read_row(rt.alloc(), line.as_bytes())? {
        Some(row) => judge_row(rt, line.as_str(), &row, tally),
        None => Ok(()),
    }
}

/// Runs a row, and prints it with what came where that is not what the row wants.
fn judge_row(rt: &HostRuntime, line: &str, row: &Row, tally: &mut Tally) -> io::Result<()> {
    let came = answer_to(rt.alloc(), tally.hashing, row.words.as_slice())?;
    let came = came.as_slice().trim_ascii();
    compare(rt, line, came, row.want.as_slice(), tally)
}

/// Counts a row, and prints it with what came where that is not what is wanted.
fn compare(
    rt: &HostRuntime,
    line: &str,
    came: &[u8],
    want: &[u8],
    tally: &mut Tally,
) -> io::Result<()> {
    tally.rows = tally.rows.saturating_add(1);
    if came == want {
        return Ok(());
    }
    tally.differ = tally.differ.saturating_add(1);
    let came = std::str::from_utf8(came).unwrap_or("no text");
    println!(rt; "{line}\n    came: {came}")
}

/// What the call of a row answers.
fn answer_to(alloc: Global, hashing: RandomState, words: &[Vec<u8>]) -> Result<Vec<u8>, NoMemory> {
    let Some((call, words)) = words.split_first() else {
        return Vec::from_slice(alloc, b"no call");
    };
    let call = std::str::from_utf8(call.as_slice()).unwrap_or("");
    let mut out = Answer::new(alloc);
    if !put(alloc, call, words, &mut out) && !stored::put(alloc, hashing, call, words, &mut out) {
        out.put(b"no such call");
    }
    out.finish()
}

/// Writes the answer of a call, and tells whether a file has it.
fn put(alloc: Global, call: &str, words: &[Vec<u8>], out: &mut Answer) -> bool {
    values::put(call, words, out)
        || holders::put(alloc, call, words, out)
        || texts::put(alloc, call, words, out)
        || phrases::put(alloc, call, words, out)
        || lexemes::put(alloc, call, words, out)
        || queries::put(alloc, call, words, out)
        || schemas::put(alloc, call, words, out)
        || documents::put(alloc, call, words, out)
        || expressions::put(alloc, call, words, out)
        || lists::put(alloc, call, words, out)
        || lanes::put(alloc, call, words, out)
        || loads::put(alloc, call, words, out)
        || wire::put(alloc, call, words, out)
}
