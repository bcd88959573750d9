//! An answer as it is written: each value in one form, a list's items with a blank before each.
use ft_base::{Bytes, NoMemory, put_int};
use std::alloc::Global;

/// The text of an answer. A part for which memory runs out is left out, and `finish` tells it, so that
/// what writes an answer needs no look at each part.
#[derive(Drop)]
pub struct Answer {
    text: Vec<u8>,
    wanting: bool,
}

impl Answer {
    /// No text.
    pub fn new(alloc: Global) -> Answer {
        Answer {
            text: Vec::new(alloc),
            wanting: false,
        }
    }

    /// The text, where memory did not run out.
    pub fn finish(self) -> Result<Vec<u8>, NoMemory> {
        if self.wanting {
            return Err(NoMemory);
        }
        Ok(self.text)
    }

    /// Keeps in mind that memory ran out.
    pub fn fail(&mut self) {
        self.wanting = true;
    }

    /// Keeps in mind whether it did.
    pub fn note<T: Drop, E: Drop>(&mut self, done: Result<T, E>) {
        if done.is_err() {
            self.wanting = true;
        }
    }

    /// A copy of bytes; none of them where memory runs out, which is kept in mind.
    pub fn bytes(&mut self, alloc: Global, bytes: &[u8]) -> Bytes {
        match Bytes::from_slice(alloc, bytes) {
            Ok(bytes) => bytes,
            Err(NoMemory) => {
                self.fail();
                Bytes::new(alloc)
            }
        }
    }

    /// Text as it is.
    pub fn put(&mut self, text: &[u8]) {
        let done = self.text.extend_from_slice(text);
        self.note(done);
    }

    /// A word as it may stand in a row: bare where it has nothing but letters, digits and `_-+.`, else in
    /// quotes.
    pub fn put_word(&mut self, word: &[u8]) {
        if !word.is_empty() && word.iter().all(|byte| is_bare(*byte)) {
            return self.put(word);
        }
        self.put_quoted(word);
    }

    /// A word in quotes.
    pub fn put_quoted(&mut self, word: &[u8]) {
        self.put(b"\"");
        self.put_escaped(word);
        self.put(b"\"");
    }

    /// Bytes as they stand between quotes.
    pub fn put_escaped(&mut self, bytes: &[u8]) {
        for byte in bytes {
            self.put_byte(*byte);
        }
    }

    fn put_byte(&mut self, byte: u8) {
        match byte {
            b'"' | b'\\' => self.put(&[b'\\', byte]),
            b' '..=b'~' => self.put(&[byte]),
            b'\n' => self.put(b"\\n"),
            b'\r' => self.put(b"\\r"),
            b'\t' => self.put(b"\\t"),
            _ => self.put(&[b'\\', b'x', digit(byte / 16), digit(byte % 16)]),
        }
    }

    /// Words with a blank before each.
    pub fn put_words(&mut self, words: &[Bytes]) {
        for word in words {
            self.put(b" ");
            self.put_word(word.as_slice());
        }
    }

    /// `yes` or `no`.
    pub fn put_truth(&mut self, truth: bool) {
        self.put(if truth { b"yes" } else { b"no" });
    }

    /// A whole number.
    pub fn put_int(&mut self, number: i64) {
        let done = put_int(&mut self.text, number);
        self.note(done);
    }

    /// A whole number, or `none`.
    pub fn put_number(&mut self, number: Option<i64>) {
        match number {
            Some(number) => self.put_int(number),
            None => self.put(b"none"),
        }
    }

    /// How many there are of something.
    pub fn put_count(&mut self, count: usize) {
        self.put_number(i64::try_from(count).ok());
    }

    /// A name and a place.
    pub fn put_at(&mut self, name: &[u8], at: usize) {
        self.put(name);
        self.put(b" ");
        self.put_count(at);
    }
}

fn is_bare(byte: u8) -> bool {
    byte.is_ascii_alphanumeric() || matches!(byte, b'_' | b'-' | b'+' | b'.')
}

// The hexadecimal digit of a number below 16.
fn digit(number: u8) -> u8 {
    match number {
        0..=9 => b'0' + number,
        10..=15 => b'a' + (number - 10),
        _ => b'?',
    }
}
