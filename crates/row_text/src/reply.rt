//! Replies of RESP2 as lines: those that came, and those that a row wants.
ghost use Rattle.std.specs.Prelude.{◌<◌};

use crate::words::split_words;
use ft_base::{NoMemory, read_int};
use std::alloc::Global;

/// Appends the lines of the reply that begins the bytes, a bulk's bytes as one, and answers what is behind it.
pub fn read_reply<'a>(
    alloc: Global,
    bytes: &'a [u8],
    lines: &mut Vec<Vec<u8>>,
) -> Result<&'a [u8], NoMemory> {
    let mut rest = bytes;
    // How many replies are still to be read.
    let mut due: u64 = 1;
    for _ in 0..bytes.len() {
        if due == 0 || rest.is_empty() {
            break;
        }
        let (more, others) = take_head(alloc, rest, lines)?;
        due = (due - 1).saturating_add(more);
        rest = others;
    }
    Ok(rest)
}

// Appends the first line, and a bulk's bytes, and answers how many replies it says to be in it, and what is behind it.
fn take_head<'a>(
    alloc: Global,
    bytes: &'a [u8],
    lines: &mut Vec<Vec<u8>>,
) -> Result<(u64, &'a [u8]), NoMemory> {
    let (head, rest) = take_line(bytes, line_len(bytes));
    push_line(alloc, head, lines)?;
    let Some((mark, count)) = head.split_first() else {
        return Ok((0, rest));
    };
    match (*mark, number_of(count)) {
        (b'*', Some(count)) => Ok((count, rest)),
        (b'$', Some(len)) => {
            let (bulk, rest) = take_line(rest, usize::try_from(len).unwrap_or(0));
            push_line(alloc, bulk, lines)?;
            Ok((0, rest))
        }
        _ => Ok((0, rest)),
    }
}

fn push_line(alloc: Global, line: &[u8], lines: &mut Vec<Vec<u8>>) -> Result<(), NoMemory> {
    lines.push(Vec::from_slice(alloc, line)?)?;
    Ok(())
}

// How many bytes stand before the first end of a line.
fn line_len(bytes: &[u8]) -> usize {
    bytes
        .iter()
        .position(|byte| *byte == b'\r')
        .unwrap_or(bytes.len())
}

// The number, where it is one and not below 0.
fn number_of(text: &[u8]) -> Option<u64> {
    u64::try_from(read_int(text)?).ok()
}

// A line of so many bytes, and what is behind its end.
fn take_line(bytes: &[u8], len: usize) -> (&[u8], &[u8]) {
    let (line, rest) = bytes.split_at(len.min(bytes.len()));
    match rest {
        [b'\r', b'\n', others @ ..] => (line, others),
        _ => (line, rest),
    }
}

/// The lines of a reply that a row wants. What begins with `+`, `-` or `:` is one line with all its blanks.
pub fn wanted_lines(alloc: Global, want: &[u8]) -> Result<Vec<Vec<u8>>, NoMemory> {
    match want {
        [b'+' | b'-' | b':', ..] => {
            let mut lines = Vec::new(alloc);
            push_line(alloc, want, &mut lines)?;
            Ok(lines)
        }
        _ => split_words(alloc, want),
    }
}

/// Appends lines as a row has them, with a blank between each two.
pub fn put_lines(out: &mut Vec<u8>, lines: &[Vec<u8>]) -> Result<(), NoMemory> {
    for (i, line) in lines.iter().enumerate() {
        if 0 < i {
            out.push(b' ')?;
        }
        put_line(out, line.as_slice(), lines.len() == 1)?;
    }
    Ok(())
}

fn put_line(out: &mut Vec<u8>, line: &[u8], alone: bool) -> Result<(), NoMemory> {
    if is_bare(line, alone) {
        return out.extend_from_slice(line);
    }
    out.push(b'"')?;
    for byte in line {
        put_byte(out, *byte)?;
    }
    out.push(b'"')?;
    Ok(())
}

// Whether a line needs no quotes. A blank needs none in a line that stands alone.
fn is_bare(line: &[u8], alone: bool) -> bool {
    !line.is_empty()
        && line.iter().all(|byte| byte.is_ascii_graphic() && *byte != b'"'
            || alone && *byte == b' ')
}

fn put_byte(out: &mut Vec<u8>, byte: u8) -> Result<(), NoMemory> {
    match byte {
        b'"' | b'\\' => out.extend_from_slice(&[b'\\', byte]),
        b' '..=b'~' => out.extend_from_slice(&[byte]),
        b'\r' => out.extend_from_slice(b"\\r"),
        b'\n' => out.extend_from_slice(b"\\n"),
        _ => out.extend_from_slice(&[b'\\', b'x', digit(byte / 16), digit(byte % 16)]),
    }
}

// The hexadecimal digit of a number.
fn digit(number: u8) -> u8
    requires { number < 16 }
{
    match number {
        0..=9 => b'0' + number,
        _ => b'a' + (number - 10),
    }
}
