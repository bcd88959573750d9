//! Trees that no query text gives, as rows write them: a form, and what it needs.
use crate::answer::Answer;
use crate::arguments::{count_of, number_of, rest, word};
use ft_base::{Fields, ListOf, NoMemory, Query, TagPart};
use row_text::split_words;
use std::alloc::Global;

/// The tree that is written as `and` or `or` and parts, all documents (`*`) or none (`()`); as `word` or
/// `prefix`, digits of fields and a text; as `tag`, a field and a text; or as `range`, a field and two ends.
pub fn tree_of(alloc: Global, text: &[u8], out: &mut Answer) -> Result<Query, NoMemory> {
    let words = split_words(alloc, text)?;
    Ok(tree_from(alloc, words.as_slice(), out))
}

fn tree_from(alloc: Global, words: &[Vec<u8>], out: &mut Answer) -> Query {
    let (second, text) = (word(words, 1), word(words, 2));
    match std::str::from_utf8(word(words, 0)).unwrap_or("") {
        "and" => Query::And(parts_of(alloc, rest(words, 1), out)),
        "or" => Query::Or(parts_of(alloc, rest(words, 1), out)),
        "word" => {
            let fields = fields_of(alloc, second, out);
            let text = out.bytes(alloc, text);
            Query::Word { fields, text }
        }
        "prefix" => {
            let fields = fields_of(alloc, second, out);
            let text = out.bytes(alloc, text);
            Query::Prefix { fields, text }
        }
        "tag" => tag_of(alloc, field_of(second), text, out),
        _ => range_of(field_of(second), text, word(words, 3)),
    }
}

fn range_of(field: u16, low: &[u8], high: &[u8]) -> Query {
    Query::Range {
        field,
        low: number_of(low).unwrap_or(0),
        high: number_of(high).unwrap_or(0),
    }
}

fn parts_of(alloc: Global, words: &[Vec<u8>], out: &mut Answer) -> ListOf<Query> {
    let mut parts = ListOf::new(alloc);
    for word in words {
        out.note(parts.push(part(word.as_slice())));
    }
    parts
}

fn part(word: &[u8]) -> Query {
    match word {
        b"*" => Query::All,
        _ => Query::Empty,
    }
}

fn fields_of(alloc: Global, digits: &[u8], out: &mut Answer) -> Fields {
    let mut list = ListOf::new(alloc);
    for digit in digits {
        out.note(list.push(u16::from(digit.saturating_sub(b'0'))));
    }
    Fields::Named(list)
}

fn tag_of(alloc: Global, field: u16, text: &[u8], out: &mut Answer) -> Query {
    let mut tags = ListOf::new(alloc);
    let text = out.bytes(alloc, text);
    out.note(tags.push(TagPart {
        text,
        prefix: false,
    }));
    Query::Tags { field, tags }
}

fn field_of(word: &[u8]) -> u16 {
    u16::try_from(count_of(word)).unwrap_or(u16::MAX)
}
