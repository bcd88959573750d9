//! The trees of query texts over one index.
use crate::answer::Answer;
use crate::arguments::{halves, rest, word};
use crate::schemas::index_of;
use crate::trees::{put_fault, put_query};
use ft_base::{IndexDef, ListOf, MAX_WORD_BYTES, Param, Query};
use query_parse::{QueryFault, parse};
use std::alloc::Global;

/// The options and the fields of the index of all texts, whose fields 0 to 6 go by their aliases.
const OPTIONS: &[u8] = b"STOPWORDS 2 the of";

const FIELDS: &[u8] = b"field AS t TEXT field AS u TEXT field AS n NUMERIC field AS g TAG \
    field AS c TAG CASESENSITIVE field AS m NUMERIC field AS w TEXT";

/// Writes the answer of a call, and tells whether it is of this file.
pub fn put(alloc: Global, call: &str, words: &[Vec<u8>], out: &mut Answer) -> bool {
    if call != "parse" {
        return false;
    }
    let params = params_of(alloc, rest(words, 1), out);
    match query_of(alloc, OPTIONS, FIELDS, word(words, 0), &params, out) {
        Ok(query) => put_query(&query, out),
        Err(fault) => put_fault(fault, out),
    }
    true
}

/// The tree of a text over an index with these options and fields.
pub fn query_of(
    alloc: Global,
    options: &[u8],
    fields: &[u8],
    text: &[u8],
    params: &ListOf<Param>,
    out: &mut Answer,
) -> Result<Query, QueryFault> {
    let def = index_of(alloc, options, fields, out)?;
    parsed(alloc, text, &def, params)
}

// What is too long is answered as if memory ran out.
fn parsed(
    alloc: Global,
    text: &[u8],
    def: &IndexDef,
    params: &ListOf<Param>,
) -> Result<Query, QueryFault> {
    if MAX_WORD_BYTES < text.len() || 1_024 < def.fields.len() {
        return Err(QueryFault::NoMemory);
    }
    parse(alloc, text, def, params)
}

// The parameters that words write as `name=value`.
fn params_of(alloc: Global, words: &[Vec<u8>], out: &mut Answer) -> ListOf<Param> {
    let mut params = ListOf::new(alloc);
    for word in words {
        let (name, value) = halves(word.as_slice());
        let (name, value) = (out.bytes(alloc, name), out.bytes(alloc, value));
        out.note(params.push(Param { name, value }));
    }
    params
}
