//! The names in a reply to FT._LIST, read from its bytes one after another, without memory.
//!
//! They are the words of an array of bulk strings: `*`, the number of its words and a line's end, then for each word `$`, the
//! number of its bytes and a line's end, and those bytes and a line's end.
ghost use Rattle.std.specs.Prelude.{◌≡◌, ◌<◌, ◌∷◌, [], IfSome, MatchOption, length, take, position};
ghost use Rattle.resp_wire.specs.Gives.{Gives};
ghost use Rattle.resp_wire.specs.Wire.{body_at, count_at, end_at, is_return, line_at, word_at, word_with};
ghost use Rattle.worker_pool.specs.Names.{names_in, words_from};

use ft_base::{MAX_WORD_BYTES, read_int};
use resp_wire::{Stop, WireFault};
use std::marker::Model;

/// A number of 64 bits has at most 20 bytes, so a carriage return is sought in this many.
const LINE_BYTES: usize = 21;

/// Names that are not read yet.
#[derive(Drop)]
pub(crate) struct Names<'a> {
    left: u64,
    rest: &'a [u8],
}

impl<'a> Model for Names<'a> {
    ghost use Rattle.std.specs.Prelude.{List, ℕ};
    ghost use Rattle.worker_pool.specs.Names.{words_from};

    ghost Value = { List (List ℕ) };

    ghost view = { λ names. words_from names.left names.rest.now };
}

impl<'a> Names<'a> {
    /// The names in a reply, none where it is no array.
    pub(crate) fn of(reply: &'a [u8]) -> Names<'a>
        ensures { result ≡ names_in reply.now }
    {
        match count(reply) {
            Ok((number, rest)) if number >= 0 => Names {
                left: number as u64,
                rest,
            },
            _ => Names {
                left: 0,
                rest: reply,
            },
        }
    }

    /// The first name and those behind it.
    pub(crate) fn split_first(&self) -> Option<(&'a [u8], Names<'a>)>
        ensures { MatchOption result (self.now ≡ []) (λ x. self.now ≡ x.0.now ∷ x.1) }
    {
        if self.left == 0 {
            return None;
        }
        let left = self.left - 1;
        match word(self.rest) {
            Ok((name, rest)) => Some((name, Names { left, rest })),
            Err(_) => None,
        }
    }
}

/// The bytes after a line's end.
fn line_end(bad: Stop, bytes: &[u8]) -> Result<&[u8], Stop>
    ensures { Gives (λ rest. rest.now) result (end_at bad bytes.now) }
{
    match bytes {
        [b'\r', b'\n', rest @ ..] => Ok(rest),
        [] | [b'\r'] => Err(Stop::More),
        _ => Err(bad),
    }
}

/// Where the carriage return of a line is.
fn return_place(bytes: &[u8]) -> Option<usize>
    ensures place { result ≡ position is_return (take 21 bytes.now) }
    ensures within { IfSome result (λ k. k < length bytes.now) }
{
    let line = &bytes[..bytes.len().min(LINE_BYTES)];
    line.iter().position(|b| *b == b'\r')
}

/// The number of a line behind its mark, and the bytes after it.
#[tactic(auto, unfolding(resp_wire::specs::Wire::line_at))]
fn line(bad: Stop, bytes: &[u8]) -> Result<(i64, &[u8]), Stop>
    ensures { Gives (λ x. (x.0, x.1.now)) result (line_at bad bytes.now) }
{
    let Some(place) = return_place(bytes) else {
        return Err(if bytes.len() < LINE_BYTES {
            Stop::More
        } else {
            bad
        });
    };
    let rest = line_end(bad, &bytes[place..])?;
    match read_int(&bytes[..place]) {
        Some(number) => Ok((number, rest)),
        None => Err(bad),
    }
}

/// That many bytes, and the bytes after their line's end.
#[tactic(auto, unfolding(resp_wire::specs::Wire::body_at))]
fn body(bad: Stop, len: usize, bytes: &[u8]) -> Result<(&[u8], &[u8]), Stop>
    ensures { Gives (λ x. (x.0.now, x.1.now)) result (body_at bad len bytes.now) }
{
    if len > bytes.len() {
        return Err(Stop::More);
    }
    let (word, rest) = bytes.split_at(len);
    let rest = line_end(bad, rest)?;
    Ok((word, rest))
}

/// The bytes of a word behind its length.
fn body_within(bad: Stop, len: i64, bytes: &[u8]) -> Result<(&[u8], &[u8]), Stop>
    ensures { Gives (λ x. (x.0.now, x.1.now)) result (word_with bad MAX_WORD_BYTES len bytes.now) }
{
    if len < 0 {
        return Err(bad);
    }
    let len = len as usize;
    if MAX_WORD_BYTES < len {
        return Err(bad);
    }
    body(bad, len, bytes)
}

/// A word, and the bytes after it.
#[tactic(auto, unfolding(resp_wire::specs::Wire::word_at))]
fn word(bytes: &[u8]) -> Result<(&[u8], &[u8]), Stop>
    ensures { Gives (λ x. (x.0.now, x.1.now)) result (word_at MAX_WORD_BYTES bytes.now) }
{
    let [mark, rest @ ..] = bytes else {
        return Err(Stop::More);
    };
    let left = bytes.len();
    if *mark != b'$' {
        return Err(Stop::Fault {
            kind: WireFault::NoDollar { got: *mark },
            left,
        });
    }
    let bad = Stop::Fault {
        kind: WireFault::BulkLength,
        left,
    };
    let (len, rest) = line(bad, rest)?;
    body_within(bad, len, rest)
}

/// The number of words that the first line of an array announces, and the bytes after it.
#[tactic(auto, unfolding(resp_wire::specs::Wire::count_at))]
fn count(bytes: &[u8]) -> Result<(i64, &[u8]), Stop>
    ensures { Gives (λ x. (x.0, x.1.now)) result (count_at bytes.now) }
{
    let [mark, rest @ ..] = bytes else {
        return Err(Stop::More);
    };
    let bad = Stop::Fault {
        kind: WireFault::MultiLength,
        left: bytes.len(),
    };
    if *mark == b'*' {
        line(bad, rest)
    } else {
        Err(bad)
    }
}
