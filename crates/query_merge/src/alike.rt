//! Whether parts of queries are equal.
ghost use Rattle.std.specs.Prelude.{◌≡◌, IsTrue};

use ft_base::{Bytes, Fields, ListOf, Query, TagPart};

/// Whether two queries are written alike.
#[cycle(alike)]
pub fn is_same(query: &Query, other: &Query) -> bool
    ensures { IsTrue result → query.now ≡ other.now }
{
    match (query, other) {
        (Query::And(parts), Query::And(others)) => are_same(parts.as_slice(), others.as_slice()),
        (Query::Or(parts), Query::Or(others)) => are_same(parts.as_slice(), others.as_slice()),
        (Query::Not(part), Query::Not(other)) => is_same(part.get(), other.get()),
        (Query::Optional(part), Query::Optional(other)) => is_same(part.get(), other.get()),
        _ => is_same_leaf(query, other),
    }
}

// The same of each two parts.
#[cycle(alike)]
fn are_same(queries: &[Query], others: &[Query]) -> bool
    ensures { IsTrue result → queries.now ≡ others.now }
{
    if queries.len() != others.len() {
        return false;
    }
    'parts: for at in 0..queries.len() {
        if !is_same(&queries[at], &others[at]) {
            return false;
        }
    }
    true
}

// The same of queries that ask nothing of others.
fn is_same_leaf(query: &Query, other: &Query) -> bool
    ensures { IsTrue result → query.now ≡ other.now }
{
    match (query, other) {
        (Query::Empty, Query::Empty) => true,
        (Query::All, Query::All) => true,
        (
            Query::Word { fields, text },
            Query::Word {
                fields: others,
                text: word,
            },
        ) => same_fields(fields, others) && text.as_slice() == word.as_slice(),
        (
            Query::Prefix { fields, text },
            Query::Prefix {
                fields: others,
                text: word,
            },
        ) => same_fields(fields, others) && text.as_slice() == word.as_slice(),
        _ => is_same_listed(query, other),
    }
}

// The same of tags, numbers and phrases.
fn is_same_listed(query: &Query, other: &Query) -> bool
    ensures { IsTrue result → query.now ≡ other.now }
{
    match (query, other) {
        (
            Query::Tags { field, tags },
            Query::Tags {
                field: number,
                tags: others,
            },
        ) => *field == *number && same_tags(tags.as_slice(), others.as_slice()),
        (
            Query::Range { field, low, high },
            Query::Range {
                field: number,
                low: least,
                high: most,
            },
        ) => *field == *number && *low == *least && *high == *most,
        (
            Query::Phrase {
                fields,
                words,
                slop,
                in_order,
            },
            Query::Phrase {
                fields: others,
                words: texts,
                slop: near,
                in_order: order,
            },
        ) => {
            *slop == *near
                && *in_order == *order
                && same_fields(fields, others)
                && same_words(words.as_slice(), texts.as_slice())
        }
        _ => false,
    }
}

fn same_fields(fields: &Fields, others: &Fields) -> bool
    ensures { IsTrue result → fields.now ≡ others.now }
{
    match (fields, others) {
        (Fields::All, Fields::All) => true,
        (Fields::Named(numbers), Fields::Named(named)) => numbers.as_slice() == named.as_slice(),
        _ => false,
    }
}

fn same_words(words: &[Bytes], others: &[Bytes]) -> bool
    ensures { IsTrue result → words.now ≡ others.now }
{
    if words.len() != others.len() {
        return false;
    }
    'words: for at in 0..words.len() {
        if !is_same_text(&words[at], &others[at]) {
            return false;
        }
    }
    true
}

fn is_same_text(text: &Bytes, other: &Bytes) -> bool
    ensures { IsTrue result → text.now ≡ other.now }
{
    text.as_slice() == other.as_slice()
}

fn same_tags(tags: &[TagPart], others: &[TagPart]) -> bool
    ensures { IsTrue result → tags.now ≡ others.now }
{
    if tags.len() != others.len() {
        return false;
    }
    'tags: for at in 0..tags.len() {
        if !is_same_tag(&tags[at], &others[at]) {
            return false;
        }
    }
    true
}

/// Whether two tags, or beginnings of tags, are written alike.
pub fn is_same_tag(tag: &TagPart, other: &TagPart) -> bool
    ensures { IsTrue result → tag.now ≡ other.now }
{
    tag.prefix == other.prefix && tag.text.as_slice() == other.text.as_slice()
}
