//! Rows as they are written, and the words of a text.
ghost use Rattle.std.specs.Prelude.{◌<◌};

use ft_base::NoMemory;
use std::alloc::Global;

/// What parts the words of a row from what is expected.
const BAR: &[u8] = b"|";

/// What a line asks, and what is expected of it.
#[derive(Drop)]
pub struct Row {
    /// The words before the bar.
    pub words: Vec<Vec<u8>>,
    /// All behind the bar, without the blanks at both ends.
    pub want: Vec<u8>,
}

/// The row that a line holds; none where it is blank or a comment (`#` first).
pub fn read_row(alloc: Global, line: &[u8]) -> Result<Option<Row>, NoMemory> {
    let line = line.trim_ascii();
    if line.is_empty() || line[0] == b'#' {
        return Ok(None);
    }
    let mut words = Vec::new(alloc);
    let rest = take_words(alloc, line, BAR, &mut words)?;
    let want = Vec::from_slice(alloc, rest.trim_ascii())?;
    Ok(Some(Row { words, want }))
}

/// Cuts a text at blanks into words; a word with blanks or other bytes stands in quotes.
pub fn split_words(alloc: Global, text: &[u8]) -> Result<Vec<Vec<u8>>, NoMemory> {
    let mut words = Vec::new(alloc);
    let _rest = take_words(alloc, text, &[], &mut words)?;
    Ok(words)
}

// Appends the words of a text up to one that is written as this end, and answers what is behind it.
fn take_words<'a>(
    alloc: Global,
    text: &'a [u8],
    end: &[u8],
    words: &mut Vec<Vec<u8>>,
) -> Result<&'a [u8], NoMemory> {
    let mut rest = text;
    for _ in 0..text.len() {
        let (piece, others) = first_piece(rest);
        rest = others;
        if piece.is_empty() || piece == end {
            break;
        }
        words.push(word_of(alloc, piece)?)?;
    }
    Ok(rest)
}

// The first word of a text as it is written, and what is behind it. It is empty at the text's end.
fn first_piece(text: &[u8]) -> (&[u8], &[u8]) {
    let text = text.trim_ascii_start();
    let end = match text {
        [b'"', ..] => quoted_len(text),
        _ => text
            .iter()
            .position(|byte| byte.is_ascii_whitespace())
            .unwrap_or(text.len()),
    };
    text.split_at(end.min(text.len()))
}

// How many bytes a text has up to the quote that ends the one at its begin, that quote included.
fn quoted_len(text: &[u8]) -> usize {
    let mut escaped = false;
    for i in 1..text.len() {
        if !escaped && text[i] == b'"' {
            return i + 1;
        }
        escaped = !escaped && text[i] == b'\\';
    }
    text.len()
}

// The word that is written so.
fn word_of(alloc: Global, piece: &[u8]) -> Result<Vec<u8>, NoMemory> {
    match piece {
        [b'"', inner @ .., b'"'] => unescaped(alloc, inner),
        _ => Vec::from_slice(alloc, piece),
    }
}

// The bytes of a word in quotes.
fn unescaped(alloc: Global, text: &[u8]) -> Result<Vec<u8>, NoMemory> {
    let mut word = Vec::new(alloc);
    let mut rest = text;
    for _ in 0..text.len() {
        let Some((byte, others)) = first_byte(rest) else {
            break;
        };
        word.push(byte)?;
        rest = others;
    }
    Ok(word)
}

// The first byte of a word in quotes, and what is behind its spelling.
fn first_byte(text: &[u8]) -> Option<(u8, &[u8])> {
    match text {
        [b'\\', b'x', high, low, rest @ ..] => Some((16 * digit(*high) + digit(*low), rest)),
        [b'\\', letter, rest @ ..] => Some((escape(*letter), rest)),
        [byte, rest @ ..] => Some((*byte, rest)),
        [] => None,
    }
}

// The byte that a letter behind a backslash stands for.
fn escape(letter: u8) -> u8 {
    match letter {
        b'n' => b'\n',
        b'r' => b'\r',
        b't' => b'\t',
        other => other,
    }
}

// The value of a hexadecimal digit, and 0 of another byte.
fn digit(byte: u8) -> u8
    ensures { result < 16 }
{
    match byte {
        b'0'..=b'9' => byte - b'0',
        b'a'..=b'f' => byte - b'a' + 10,
        b'A'..=b'F' => byte - b'A' + 10,
        _ => 0,
    }
}
