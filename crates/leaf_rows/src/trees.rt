//! The tree of a query on one line.
//!
//! `*` is every document and `()` none; a word stands as in a row, `x*` is a prefix; then there are
//! `(and ..)`, `(or ..)`, `(not ..)`, `(opt ..)`, `(phrase x y /1 <)` with its slop and `<` for in order,
//! `(range FIELD LOW HIGH)` and `(tags FIELD x y*)`. Numbers of fields stand before what is looked for in
//! them, as `0,1:x`.
use crate::answer::Answer;
use ft_base::{Bytes, Fields, Query, TagPart};
use query_parse::QueryFault;

/// A fault by its name and its offset.
pub fn put_fault(fault: QueryFault, out: &mut Answer) {
    match fault {
        QueryFault::Syntax { at } => out.put_at(b"Syntax", at),
        QueryFault::UnknownField { at } => out.put_at(b"UnknownField", at),
        QueryFault::WrongKind { at } => out.put_at(b"WrongKind", at),
        QueryFault::NoParam { at } => out.put_at(b"NoParam", at),
        QueryFault::TooDeep { at } => out.put_at(b"TooDeep", at),
        QueryFault::OutOfScope { at } => out.put_at(b"OutOfScope", at),
        QueryFault::NoMemory => out.put(b"NoMemory"),
    }
}

/// A query.
#[cycle(show)]
pub fn put_query(query: &Query, out: &mut Answer) {
    match query {
        Query::And(parts) => put_parts(b"(and", parts.as_slice(), out),
        Query::Or(parts) => put_parts(b"(or", parts.as_slice(), out),
        Query::Not(part) => put_part(b"(not ", part.get(), out),
        Query::Optional(part) => put_part(b"(opt ", part.get(), out),
        _ => put_leaf(query, out),
    }
}

// A query that is made of no others.
fn put_leaf(query: &Query, out: &mut Answer) {
    match query {
        Query::All => out.put(b"*"),
        Query::Word { fields, text } => put_word(fields, text.as_slice(), b"", out),
        Query::Prefix { fields, text } => put_word(fields, text.as_slice(), b"*", out),
        Query::Phrase {
            fields,
            words,
            slop,
            in_order,
        } => {
            put_phrase(fields, words.as_slice(), out);
            put_nearness(*slop, *in_order, out);
        }
        Query::Tags { field, tags } => put_tags(*field, tags.as_slice(), out),
        Query::Range { field, low, high } => put_range(*field, *low, *high, out),
        _ => out.put(b"()"),
    }
}

#[cycle(show)]
fn put_part(mark: &[u8], part: &Query, out: &mut Answer) {
    out.put(mark);
    put_query(part, out);
    out.put(b")");
}

#[cycle(show)]
fn put_parts(mark: &[u8], parts: &[Query], out: &mut Answer) {
    out.put(mark);
    for part in parts {
        out.put(b" ");
        put_query(part, out);
    }
    out.put(b")");
}

// A word with what stands behind it.
fn put_word(fields: &Fields, word: &[u8], mark: &[u8], out: &mut Answer) {
    put_fields(fields, out);
    out.put_word(word);
    out.put(mark);
}

fn put_fields(fields: &Fields, out: &mut Answer) {
    let Fields::Named(numbers) = fields else {
        return;
    };
    for (i, number) in numbers.as_slice().iter().enumerate() {
        out.put(if i == 0 { b"" } else { b"," });
        out.put_int(i64::from(*number));
    }
    out.put(b":");
}

fn put_phrase(fields: &Fields, words: &[Bytes], out: &mut Answer) {
    out.put(b"(phrase ");
    put_fields(fields, out);
    for word in words {
        out.put_word(word.as_slice());
        out.put(b" ");
    }
}

fn put_nearness(slop: Option<u32>, in_order: bool, out: &mut Answer) {
    match slop {
        Some(slop) => {
            out.put(b"/");
            out.put_int(i64::from(slop));
        }
        None => out.put(b"/any"),
    }
    out.put(if in_order { b" <)" } else { b")" });
}

fn put_range(field: u16, low: i64, high: i64, out: &mut Answer) {
    out.put(b"(range ");
    out.put_int(i64::from(field));
    out.put(b" ");
    out.put_int(low);
    out.put(b" ");
    out.put_int(high);
    out.put(b")");
}

fn put_tags(field: u16, tags: &[TagPart], out: &mut Answer) {
    out.put(b"(tags ");
    out.put_int(i64::from(field));
    for tag in tags {
        out.put(b" ");
        out.put_word(tag.text.as_slice());
        out.put(if tag.prefix { b"*" } else { b"" });
    }
    out.put(b")");
}
