//! What a document is to an index, and whether it meets a query.
ghost use Rattle.std.specs.Prelude.{IsTrue};
ghost use Rattle.ft_meaning.specs.Meaning.{ValuesFit};

use crate::answer::Answer;
use crate::arguments::{hash_of, rest, word};
use crate::queries::query_of;
use crate::schemas::index_of;
use crate::trees::put_fault;
use crate::wanted::tree_of;
use ft_base::{Doc, Field, HashView, IndexDef, ListOf, NoMemory, Query};
use ft_meaning::{failed, field_tokens, member};
use query_match::matches;
use query_parse::QueryFault;
use std::alloc::Global;
use token_text::TextTokens;

/// The options of an index without stop words.
const NO_STOPS: &[u8] = b"STOPWORDS 0";

/// The fields of the index of which documents are members.
const PENS: &[u8] = b"title TEXT price AS p NUMERIC year NUMERIC NOINDEX";

/// An index, and a document.
#[derive(Drop)]
struct Case {
    def: IndexDef,
    doc: Doc,
}

/// Writes the answer of a call, and tells whether it is of this file.
pub fn put(alloc: Global, call: &str, words: &[Vec<u8>], out: &mut Answer) -> bool {
    let done = match call {
        "field_tokens" => put_all_tokens(alloc, words, out),
        "member" => put_member(alloc, words, out),
        "matches" => put_matches(alloc, words, text_query(alloc, words, out), out),
        "matches_tree" => put_matches(alloc, words, tree_query(alloc, words, out), out),
        _ => return false,
    };
    out.note(done);
    true
}

// An index, and a document whose fields and values are written `field=value`.
fn case_of(
    alloc: Global,
    options: &[u8],
    fields: &[u8],
    key: &[u8],
    pairs: &[Vec<u8>],
    out: &mut Answer,
) -> Result<Case, NoMemory> {
    let def = index_of(alloc, options, fields, out)?;
    let doc = Doc::new(alloc, 5, key, hash_of(alloc, pairs, out))?;
    Ok(Case { def, doc })
}

fn values_fit(hash: &HashView<'_>) -> bool
    ensures { IsTrue result → ValuesFit hash.now }
{
    'values: for i in 0..hash.len() {
        if 1_000 < hash.at(i).1.len() {
            return false;
        }
    }
    true
}

// The tokens of each field of a document.
fn put_all_tokens(alloc: Global, words: &[Vec<u8>], out: &mut Answer) -> Result<(), NoMemory> {
    let (options, fields) = (word(words, 0), word(words, 1));
    let case = case_of(alloc, options, fields, b"book:1", rest(words, 2), out)?;
    put_each(alloc, &case.def, &case.doc, out)
}

fn put_each(alloc: Global, def: &IndexDef, doc: &Doc, out: &mut Answer) -> Result<(), NoMemory> {
    for field in def.fields.as_slice() {
        put_tokens_of(alloc, def, doc, field, out)?;
    }
    Ok(())
}

fn put_tokens_of(
    alloc: Global,
    def: &IndexDef,
    doc: &Doc,
    field: &Field,
    out: &mut Answer,
) -> Result<(), NoMemory> {
    if values_fit(&doc.hash()) {
        let found = field_tokens(alloc, def, doc, field)?;
        put_tokens(field, &found, out);
    }
    Ok(())
}

fn put_tokens(field: &Field, found: &TextTokens, out: &mut Answer) {
    out.put(b" ");
    out.put_word(field.name.as_slice());
    out.put(if found.len() == 0 { b": none" } else { b":" });
    for i in 0..found.len() {
        out.put(b" ");
        out.put_word(found.word(i));
    }
}

// What a document is to an index with these prefixes.
fn put_member(alloc: Global, words: &[Vec<u8>], out: &mut Answer) -> Result<(), NoMemory> {
    let (options, key) = (word(words, 0), word(words, 1));
    let case = case_of(alloc, options, PENS, key, rest(words, 2), out)?;
    out.put(judged(&case.def, &case.doc));
    Ok(())
}

fn judged(def: &IndexDef, doc: &Doc) -> &'static [u8] {
    match (member(def, doc), failed(def, doc)) {
        (true, false) => b"member",
        (false, true) => b"failed",
        (false, false) => b"neither",
        (true, true) => b"both",
    }
}

fn text_query(alloc: Global, words: &[Vec<u8>], out: &mut Answer) -> Result<Query, QueryFault> {
    let no_params = ListOf::new(alloc);
    let (fields, text) = (word(words, 0), word(words, 1));
    query_of(alloc, NO_STOPS, fields, text, &no_params, out)
}

// A tree that no text gives.
fn tree_query(alloc: Global, words: &[Vec<u8>], out: &mut Answer) -> Result<Query, QueryFault> {
    Ok(tree_of(alloc, word(words, 1), out)?)
}

// Whether a document meets a query.
fn put_matches(
    alloc: Global,
    words: &[Vec<u8>],
    query: Result<Query, QueryFault>,
    out: &mut Answer,
) -> Result<(), NoMemory> {
    match query {
        Ok(query) => put_met(alloc, words, &query, out),
        Err(fault) => {
            put_fault(fault, out);
            Ok(())
        }
    }
}

fn put_met(
    alloc: Global,
    words: &[Vec<u8>],
    query: &Query,
    out: &mut Answer,
) -> Result<(), NoMemory> {
    let fields = word(words, 0);
    let case = case_of(alloc, NO_STOPS, fields, b"book:1", rest(words, 2), out)?;
    put_truth_of(alloc, &case.def, &case.doc, query, out)
}

fn put_truth_of(
    alloc: Global,
    def: &IndexDef,
    doc: &Doc,
    query: &Query,
    out: &mut Answer,
) -> Result<(), NoMemory> {
    if values_fit(&doc.hash()) {
        out.put_truth(matches(alloc, def, doc, query)?);
    }
    Ok(())
}
