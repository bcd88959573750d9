//! Numbers, names, weights and kinds, as words of commands spell them.
use crate::answer::Answer;
use crate::arguments::{number_of, word};
use ft_base::{FieldKind, is_name, is_weight, read_int};

/// Writes the answer of a call, and tells whether it is of this file.
pub fn put(call: &str, words: &[Vec<u8>], out: &mut Answer) -> bool {
    let first = word(words, 0);
    match call {
        "read_int" => out.put_number(read_int(first)),
        "put_int" => put_spelling(first, out),
        "is_name" => out.put_truth(is_name(first, word(words, 1))),
        "is_weight" => out.put_truth(is_weight(first)),
        "kind" => put_kind(kind_of(first, 1 < words.len()), out),
        _ => return false,
    }
    true
}

// The spelling of a number behind a letter that was there before.
fn put_spelling(number: &[u8], out: &mut Answer) {
    out.put(b"n");
    out.put_int(number_of(number).unwrap_or(0));
}

fn kind_of(kind: &[u8], case: bool) -> FieldKind {
    let separator = b',';
    match kind {
        b"TEXT" => FieldKind::Text,
        b"TAG" => FieldKind::Tag { separator, case },
        _ => FieldKind::Numeric,
    }
}

// Which of the three tests says yes of a kind.
fn put_kind(kind: FieldKind, out: &mut Answer) {
    if kind.is_text() {
        out.put(b" is_text");
    }
    if kind.is_tag() {
        out.put(b" is_tag");
    }
    if kind.is_numeric() {
        out.put(b" is_numeric");
    }
}
