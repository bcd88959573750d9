//! Numbers and markers in rows.
use crate::answer::Answer;
use crate::arguments::word;
use inverted_list::Marker;
use itoa::Buffer;
use std::alloc::Global;

/// The number that a word spells, and 0 where it spells none.
pub fn number(word: &[u8]) -> u64 {
    let Ok(digits) = std::str::from_utf8(word) else {
        return 0;
    };
    digits.parse::<u64>().unwrap_or(0)
}

/// The number of the word at a place.
pub fn number_at(words: &[Vec<u8>], i: usize) -> u64 {
    number(word(words, i))
}

/// The number that each word spells.
pub fn numbers_of(alloc: Global, words: &[Vec<u8>], out: &mut Answer) -> Vec<u64> {
    let mut numbers = Vec::new(alloc);
    for word in words {
        out.note(numbers.push(number(word.as_slice())));
    }
    numbers
}

/// The signed number of the word at a place, and 0 where it spells none.
pub fn int_at(words: &[Vec<u8>], i: usize) -> i64 {
    crate::arguments::number_of(word(words, i)).unwrap_or(0)
}

/// The number of a field, and 0 where it is none.
pub fn field(word: &[u8]) -> u16 {
    u16::try_from(number(word)).unwrap_or(0)
}

/// What stands before the first colon of a word, and what stands behind it.
pub fn parted(word: &[u8]) -> (&[u8], &[u8]) {
    match word.iter().position(|byte| *byte == b':') {
        Some(at) => (&word[..at], &word[at + 1..]),
        None => (word, b""),
    }
}

/// Writes a number, which may be above those that are signed.
pub fn put_number(number: u64, out: &mut Answer) {
    let mut buffer = Buffer::new();
    out.put(buffer.format(number).as_bytes());
}

/// Writes a number behind a blank, or `none`.
pub fn put_found(number: Option<u64>, out: &mut Answer) {
    out.put(b" ");
    match number {
        Some(number) => put_number(number, out),
        None => out.put(b"none"),
    }
}

/// Writes numbers with a blank before each.
pub fn put_numbers(numbers: &[u64], out: &mut Answer) {
    for number in numbers {
        put_found(Some(*number), out);
    }
}

/// Writes a word behind a blank, or `none`.
pub fn put_name(name: Option<&[u8]>, out: &mut Answer) {
    out.put(b" ");
    match name {
        Some(name) => out.put_word(name),
        None => out.put(b"none"),
    }
}

/// Writes `yes` or `no` behind a blank.
pub fn put_truth(truth: bool, out: &mut Answer) {
    out.put(b" ");
    out.put_truth(truth);
}

/// Writes a marker behind a blank, its event and its number, or `none`.
pub fn put_marker(marker: Option<Marker>, out: &mut Answer) {
    out.put(b" ");
    match marker {
        Some(marker) => {
            put_number(marker.event, out);
            out.put(b".");
            put_number(marker.nth, out);
        }
        None => out.put(b"none"),
    }
}

/// Writes the marker and the number of entries of a list behind a blank, or `none`.
pub fn put_list(list: Option<(Marker, u64)>, out: &mut Answer) {
    let Some((marker, len)) = list else {
        return out.put(b" none");
    };
    put_marker(Some(marker), out);
    out.put(b"x");
    put_number(len, out);
}
