//! Words of a row that stand for many words, or for a long one.
//!
//! ```text
//! {1..3}      1 2 3                 a word for each number
//! {1..3:x}    1 x 2 x 3 x           and another behind it
//! @f{1..3}    @f1 @f2 @f3           or text around it
//! {3*a b}     a b a b a b           words again and again
//! 1{3*+2}     1+2+2+2               text again and again, where there is some before it
//! ```
use ft_base::{NoMemory, put_int, read_int};
use std::alloc::Global;

/// What a word in braces is made of.
#[derive(Clone, Copy)]
enum Spread<'a> {
    /// The word itself.
    Plain(&'a [u8]),
    /// For each number the text before it, the number and the text behind it; and a word behind that, where there is one.
    Numbers {
        before: &'a [u8],
        first: i64,
        last: i64,
        behind: &'a [u8],
        value: Option<&'a [u8]>,
    },
    /// Words, so many times.
    Words {
        times: usize,
        words: &'a [u8],
    },
    /// One word with a text in it so many times.
    Text {
        before: &'a [u8],
        times: usize,
        text: &'a [u8],
        behind: &'a [u8],
    },
}

/// How many words a word stands for.
pub fn words_of_spread(word: &[u8]) -> usize {
    match spread_of(word) {
        Spread::Numbers {
            first,
            last,
            value,
            ..
        } => {
            let each = if value.is_some() { 2 } else { 1 };
            numbers_from(first, last).saturating_mul(each)
        }
        Spread::Words { times, words } => count_words(words).saturating_mul(times),
        Spread::Plain(_) | Spread::Text { .. } => 1,
    }
}

/// Appends a word, or those that it stands for, as a client sends them.
pub fn put_spread(alloc: Global, out: &mut Vec<u8>, word: &[u8]) -> Result<(), NoMemory> {
    match spread_of(word) {
        Spread::Plain(word) => put_bulk(out, word),
        Spread::Numbers {
            before,
            first,
            last,
            behind,
            value,
        } => {
            for number in first..=last {
                put_number(alloc, out, before, number, behind)?;
                put_value(out, value)?;
            }
            Ok(())
        }
        Spread::Words { times, words } => {
            for _ in 0..times {
                put_words(out, words)?;
            }
            Ok(())
        }
        Spread::Text {
            before,
            times,
            text,
            behind,
        } => put_text(alloc, out, before, times, text, behind),
    }
}

fn spread_of(word: &[u8]) -> Spread<'_> {
    match cut(word) {
        Some((before, inner, behind)) => match times_of(inner) {
            Some((times, words)) if before.is_empty() && behind.is_empty() => {
                Spread::Words { times, words }
            }
            Some((times, text)) => Spread::Text {
                before,
                times,
                text,
                behind,
            },
            None => numbers_of(word, before, inner, behind),
        },
        None => Spread::Plain(word),
    }
}

// What stands before the first brace, between it and the one that ends it, and behind that.
fn cut(word: &[u8]) -> Option<(&[u8], &[u8], &[u8])> {
    let open = word.iter().position(|byte| *byte == b'{')?;
    let (before, rest) = word.split_at(open.min(word.len()));
    let [_, rest @ ..] = rest else {
        return None;
    };
    let close = rest.iter().position(|byte| *byte == b'}')?;
    let (inner, behind) = rest.split_at(close.min(rest.len()));
    match behind {
        [_, behind @ ..] => Some((before, inner, behind)),
        [] => None,
    }
}

// The number before a star, and what is behind it.
fn times_of(inner: &[u8]) -> Option<(usize, &[u8])> {
    let (times, text) = cut_at(inner, b'*')?;
    Some((usize::try_from(read_int(times)?).ok()?, text))
}

fn numbers_of<'a>(
    word: &'a [u8],
    before: &'a [u8],
    inner: &'a [u8],
    behind: &'a [u8],
) -> Spread<'a> {
    let (numbers, value) = match cut_at(inner, b':') {
        Some((numbers, value)) => (numbers, Some(value)),
        None => (inner, None),
    };
    match numbers_in(numbers) {
        Some((first, last)) => Spread::Numbers {
            before,
            first,
            last,
            behind,
            value,
        },
        None => Spread::Plain(word),
    }
}

/// The numbers before two dots and behind them.
pub fn numbers_in(text: &[u8]) -> Option<(i64, i64)> {
    let (first, last) = cut_at(text, b'.')?;
    match last {
        [b'.', last @ ..] => Some((read_int(first)?, read_int(last)?)),
        _ => None,
    }
}

// What stands before the first such byte, and what behind it.
fn cut_at(text: &[u8], mark: u8) -> Option<(&[u8], &[u8])> {
    let place = text.iter().position(|byte| *byte == mark)?;
    match text.split_at(place.min(text.len())) {
        (before, [_, behind @ ..]) => Some((before, behind)),
        _ => None,
    }
}

fn numbers_from(first: i64, last: i64) -> usize {
    usize::try_from(last.saturating_sub(first))
        .unwrap_or(0)
        .saturating_add(1)
}

fn count_words(words: &[u8]) -> usize {
    words.split(|byte| *byte == b' ').count()
}

fn put_words(out: &mut Vec<u8>, words: &[u8]) -> Result<(), NoMemory> {
    for word in words.split(|byte| *byte == b' ') {
        put_bulk(out, word)?;
    }
    Ok(())
}

fn put_number(
    alloc: Global,
    out: &mut Vec<u8>,
    before: &[u8],
    number: i64,
    behind: &[u8],
) -> Result<(), NoMemory> {
    let mut word = Vec::from_slice(alloc, before)?;
    put_int(&mut word, number)?;
    word.extend_from_slice(behind)?;
    put_bulk(out, word.as_slice())
}

fn put_value(out: &mut Vec<u8>, value: Option<&[u8]>) -> Result<(), NoMemory> {
    match value {
        Some(value) => put_bulk(out, value),
        None => Ok(()),
    }
}

fn put_text(
    alloc: Global,
    out: &mut Vec<u8>,
    before: &[u8],
    times: usize,
    text: &[u8],
    behind: &[u8],
) -> Result<(), NoMemory> {
    let mut word = Vec::from_slice(alloc, before)?;
    for _ in 0..times {
        word.extend_from_slice(text)?;
    }
    word.extend_from_slice(behind)?;
    put_bulk(out, word.as_slice())
}

fn put_bulk(out: &mut Vec<u8>, word: &[u8]) -> Result<(), NoMemory> {
    put_count(out, b'$', word.len())?;
    out.extend_from_slice(word)?;
    out.extend_from_slice(b"\r\n")
}

/// Appends a count behind its mark.
pub fn put_count(out: &mut Vec<u8>, mark: u8, count: usize) -> Result<(), NoMemory> {
    out.push(mark)?;
    put_int(out, i64::try_from(count).unwrap_or(0))?;
    out.extend_from_slice(b"\r\n")
}
