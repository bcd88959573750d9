//! Loops that go by lanes: separators, lowered texts, and numbers in intervals.
ghost use Rattle.std.specs.Prelude.{◌≡◌, IfOk, length};

use crate::answer::Answer;
use crate::arguments::{count_of, number_of, rest, word};
use ft_base::NoMemory;
use lane_kernels::{count_true, first_separator, in_range, lower_into};
use std::alloc::Global;

/// No row asks for more letters, numbers or flags than these.
const MOST: usize = 1_048_576;

/// Writes the answer of a call, and tells whether it is of this file.
pub fn put(alloc: Global, call: &str, words: &[Vec<u8>], out: &mut Answer) -> bool {
    let first = word(words, 0);
    let done = match call {
        "first_separator" => put_separator(first, count_of(word(words, 1)), out),
        "separators_of" => put_separators(alloc, count_of(first).min(MOST), out),
        "separator_bytes" => put_bytes(out),
        "lower_into" => put_lowered(alloc, first, out),
        "in_range" => put_flags(alloc, words, out),
        "range_of" => put_range(alloc, words, out),
        "count_true" => put_count(alloc, count_of(first).min(MOST), word(words, 1), out),
        _ => return false,
    };
    out.note(done);
    true
}

fn put_place(place: usize, out: &mut Answer) {
    out.put_int(place.min(MOST) as i64);
}

// The next separator from a place on, which is the text's length where the text is shorter.
fn put_separator(text: &[u8], from: usize, out: &mut Answer) -> Result<(), NoMemory> {
    put_place(first_separator(text, from.min(text.len())), out);
    Ok(())
}

// For each place of so many letters, and for none, with a separator there: how many starts find it, and how many the end.
fn put_separators(alloc: Global, count: usize, out: &mut Answer) -> Result<(), NoMemory> {
    'places: for place in 0..count {
        let mut text = vec![in alloc; b'x'; count]?;
        text[place] = b'-';
        put_starts(text.as_slice(), place, out);
    }
    let text = vec![in alloc; b'x'; count]?;
    put_starts(text.as_slice(), count, out);
    Ok(())
}

fn put_starts(text: &[u8], place: usize, out: &mut Answer) {
    out.put(b" ");
    put_place(starts_that_find(text, place), out);
    out.put(b"/");
    put_place(starts_that_find(text, text.len()), out);
}

fn starts_that_find(text: &[u8], place: usize) -> usize {
    let mut count: usize = 0;
    'starts: for from in 0..text.len() {
        if first_separator(text, from) == place {
            count = count.saturating_add(1);
        }
    }
    count
}

// Of each of the 256 bytes: 0 where it is a separator, and else 1.
fn put_bytes(out: &mut Answer) -> Result<(), NoMemory> {
    'bytes: for byte in 0..=255u8 {
        put_place(first_separator(&[byte], 0), out);
    }
    Ok(())
}

fn put_lowered(alloc: Global, text: &[u8], out: &mut Answer) -> Result<(), NoMemory> {
    let mut lowered = vec![in alloc; 0u8; text.len()]?;
    lower_into(text, lowered.as_mut_slice());
    out.put_quoted(lowered.as_slice());
    Ok(())
}

fn number(word: &[u8]) -> i64 {
    number_of(word).unwrap_or(0)
}

// A flag for each number behind the two ends.
fn put_flags(alloc: Global, words: &[Vec<u8>], out: &mut Answer) -> Result<(), NoMemory> {
    let mut values = Vec::new(alloc);
    'words: for text in rest(words, 2) {
        values.push(number(text.as_slice()))?;
    }
    let flags = flags_of(alloc, values.as_slice(), words)?;
    'flags: for flag in flags.as_slice() {
        out.put(if *flag { b"1" } else { b"0" });
    }
    Ok(())
}

// How many of so many numbers from 1 on lie between the ends, and whether the first and the last do.
fn put_range(alloc: Global, words: &[Vec<u8>], out: &mut Answer) -> Result<(), NoMemory> {
    let mut values = Vec::new(alloc);
    'numbers: for i in 0..count_of(word(words, 2)).min(MOST) {
        values.push(i as i64 + 1)?;
    }
    let flags = flags_of(alloc, values.as_slice(), words)?;
    put_place(count_true(flags.as_slice()), out);
    put_end(flags.as_slice().first(), out);
    put_end(flags.as_slice().last(), out);
    Ok(())
}

fn put_end(flag: Option<&bool>, out: &mut Answer) {
    out.put(b" ");
    out.put_truth(flag == Some(&true));
}

// Whether each value is from the first word's number to the second's.
fn flags_of(alloc: Global, values: &[i64], words: &[Vec<u8>]) -> Result<Vec<bool>, NoMemory>
    ensures { IfOk result (λ flags. length flags.items ≡ length values.now) }
{
    let mut flags = vec![in alloc; false; values.len()]?;
    in_range(
        values,
        number(word(words, 0)),
        number(word(words, 1)),
        flags.as_mut_slice(),
    );
    Ok(flags)
}

// How many of so many flags are set, where all are, none or the last.
fn put_count(alloc: Global, count: usize, which: &[u8], out: &mut Answer) -> Result<(), NoMemory> {
    let mut flags = vec![in alloc; which == b"all".as_slice(); count]?;
    if which == b"last".as_slice() && 0 < count {
        flags[count - 1] = true;
    }
    put_place(count_true(flags.as_slice()), out);
    Ok(())
}
