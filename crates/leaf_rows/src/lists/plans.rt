//! Plans of queries, over an index of documents: `plan_depth QUERY COUNT:TEXT..`, `plan_parts QUERY COUNT:TEXT..` and
//! `plan_hints AFTER QUERY COUNT:TEXT..`, where each `COUNT:TEXT` is so many documents with that text.
ghost use Rattle.std.specs.Prelude.{◌≡◌, ◌<◌, ◌≤◌, IfOk, IfSome, IsTrue, OnOk};
ghost use Rattle.ft_meaning.specs.Meaning.{ValuesFit};
ghost use Rattle.ft_index.specs.Markers.{AreBefore};

use super::numbers::{number, number_at, parted, put_number};
use crate::answer::Answer;
use crate::arguments::{rest, word};
use crate::schemas::index_of;
use ft_base::{Doc, HashRec, HashView, IndexDef, ListOf, NoMemory, Query, Steps};
use ft_index::FtIndex;
use id_iters::{Hint, Hints, Iter, Leaf, ListName};
use inverted_list::Markers;
use query_parse::parse;
use query_plan::plan;
use std::alloc::Global;
use std::marker::Brand;
use std::sync::ledger::{Blank, Ledger};

/// Writes the answer of a call, and tells whether it is of this file.
pub fn put(alloc: Global, call: &str, words: &[Vec<u8>], out: &mut Answer) -> bool {
    let done = match call {
        "plan_depth" => put_planned(alloc, words, false, out),
        "plan_parts" => put_planned(alloc, words, true, out),
        "plan_hints" => put_hints(alloc, words, out),
        _ => return false,
    };
    out.note(done);
    true
}

fn put_planned(
    alloc: Global,
    words: &[Vec<u8>],
    by_parts: bool,
    out: &mut Answer,
) -> Result<(), NoMemory> {
    match filled(alloc, rest(words, 1), out)? {
        Some(index) => put_plan_over(alloc, &index, word(words, 0), by_parts, out),
        None => Ok(()),
    }
}

fn put_plan_over(
    alloc: Global,
    index: &FtIndex,
    text: &[u8],
    by_parts: bool,
    out: &mut Answer,
) -> Result<(), NoMemory> {
    match plan_over(alloc, index, text)? {
        Some(iter) => put_plan(&iter, by_parts, out),
        None => out.put(b"no query"),
    }
    Ok(())
}

// `plan_parts`: the parts that all have to hold, in the order in which they are asked. `plan_depth`: how many unions lie
// in one another.
fn put_plan(iter: &Iter, by_parts: bool, out: &mut Answer) {
    if by_parts {
        return put_parts(iter, out);
    }
    put_number(depth(iter), out);
}

// The plan of a query over documents.
fn plan_over(alloc: Global, index: &FtIndex, text: &[u8]) -> Result<Option<Iter>, NoMemory> {
    match query_of(alloc, text, index.def())? {
        Some(query) => Ok(Some(plan_of::<Brand>(alloc, index, &query, Blank::new(1))?)),
        None => Ok(None),
    }
}

/// An index of every key, with the TEXT field `t`, the TAG field `g` and the NUMERIC field `n`.
pub fn begin(
    alloc: Global,
    markers: &mut Markers,
    out: &mut Answer,
) -> Result<Option<FtIndex>, NoMemory>
    ensures last { IfOk result (λ begun. IfSome begun (λ index. index.table.last ≡ 0)) }
    ensures before { IfOk result (λ begun. IfSome begun (λ index. AreBefore markers.new index.lists)) }
{
    let def = index_of(alloc, b"STOPWORDS 0", b"t TEXT g TAG n NUMERIC", out)?;
    if 5 < def.fields.len() {
        return Ok(None);
    }
    Ok(Some(FtIndex::new(alloc, def, markers)?))
}

// A document with that text, which is its tags too, and with the number 7.
fn doc(alloc: Global, id: u64, text: &[u8]) -> Result<Doc, NoMemory>
    ensures { IfOk result (λ doc. doc.id ≡ id) }
{
    let mut hash = HashRec::new(alloc);
    hash.put(b"t", text)?;
    hash.put(b"g", text)?;
    hash.put(b"n", b"7")?;
    Doc::new(alloc, id, b"", hash)
}

fn values_fit(hash: &HashView<'_>) -> bool
    ensures { IsTrue result → ValuesFit hash.now }
{
    'values: for i in 0..hash.len() {
        if 100_000 < hash.at(i).1.len() {
            return false;
        }
    }
    true
}

/// Prepares a document, and commits it where it is to be kept.
pub fn write(
    index: &mut FtIndex,
    markers: &mut Markers,
    doc: &Doc,
    kept: bool,
) -> Result<(), NoMemory>
    requires id { index.old.table.last < doc.now.id }
    requires before { AreBefore markers.old index.old.lists }
    ensures last { index.new.table.last ≤ doc.now.id }
    ensures before { AreBefore markers.new index.new.lists }
{
    if !values_fit(&doc.hash()) {
        return Ok(());
    }
    let ready = index.prepare(doc, markers)?;
    if kept {
        index.commit(ready);
    }
    Ok(())
}

/// The documents of the row, with the ids from 1 on.
pub fn filled(
    alloc: Global,
    words: &[Vec<u8>],
    out: &mut Answer,
) -> Result<Option<FtIndex>, NoMemory> {
    let mut markers = Markers { event: 1, next: 0 };
    let Some(mut index) = begin(alloc, &mut markers, out)? else {
        return Ok(None);
    };
    let mut last = 0;
    'filling: for word in words {
        let (count, text) = parted(word.as_slice());
        last = write_some(alloc, &mut index, &mut markers, last, number(count), text)?;
    }
    Ok(Some(index))
}

// Writes so many documents with one text, and answers the last id.
fn write_some(
    alloc: Global,
    index: &mut FtIndex,
    markers: &mut Markers,
    last: u64,
    count: u64,
    text: &[u8],
) -> Result<u64, NoMemory>
    requires last { index.old.table.last ≤ last }
    requires before { AreBefore markers.old index.old.lists }
    ensures last { IfOk result (λ id. index.new.table.last ≤ id) }
    ensures before { OnOk result (AreBefore markers.new index.new.lists) }
{
    let mut id = last;
    'writing: for _ in 0..count {
        if id < 1_000 {
            id += 1;
            write(index, markers, &doc(alloc, id, text)?, true)?;
        }
    }
    Ok(id)
}

fn query_of(alloc: Global, text: &[u8], def: &IndexDef) -> Result<Option<Query>, NoMemory> {
    if 100 < text.len() || 5 < def.fields.len() {
        return Ok(None);
    }
    let params = ListOf::new(alloc);
    Ok(parse(alloc, text, def, &params).ok())
}

fn plan_of<L: Ledger>(
    alloc: Global,
    index: &FtIndex,
    query: &Query,
    blank: Blank,
) -> Result<Iter, NoMemory>
    requires name { blank.name ≡ L.name }
    requires parts { blank.parts ≡ L.parts }
    requires some { 0 < L.parts }
{
    let mut steps = Steps::<L>::new(blank);
    let hints = Hints(ListOf::new(alloc));
    plan(alloc, index.def(), index, query, &hints, 0, &mut steps)
}

// How many unions lie in one another.
fn depth(iter: &Iter) -> u64 {
    let mut deepest = 0;
    if let Iter::Or { parts, .. } = iter {
        for part in parts.as_slice() {
            deepest = depth(&part.iter).max(deepest);
        }
        return deepest.saturating_add(1);
    }
    0
}

fn put_parts(iter: &Iter, out: &mut Answer) {
    let Iter::And(parts) = iter else {
        return put_kind(iter, out);
    };
    for part in parts.as_slice() {
        out.put(b" ");
        put_kind(part, out);
    }
}

// What a part is; a leaf is written as its word.
fn put_kind(iter: &Iter, out: &mut Answer) {
    match iter {
        Iter::Leaf(leaf) => put_leaf(leaf, out),
        Iter::And(_) => out.put(b"(and)"),
        Iter::Or { .. } => out.put(b"(or)"),
        Iter::Not(_) => out.put(b"(not)"),
        Iter::Optional(_) => out.put(b"(optional)"),
        Iter::All => out.put(b"(all)"),
        Iter::Phrase(_) => out.put(b"(phrase)"),
        Iter::Empty => out.put(b"(none)"),
    }
}

fn put_leaf(leaf: &Leaf, out: &mut Answer) {
    match &leaf.list {
        ListName::Word { text } => out.put_word(text.as_slice()),
        ListName::Tag { .. } => out.put(b"(tag)"),
        ListName::Range { .. } => out.put(b"(range)"),
    }
}

// `plan_hints`: the lists of a plan's leaves, each with the number of the block in which it is to be opened behind an id.
fn put_hints(alloc: Global, words: &[Vec<u8>], out: &mut Answer) -> Result<(), NoMemory> {
    match filled(alloc, rest(words, 2), out)? {
        Some(index) => put_hints_over(alloc, &index, number_at(words, 0), word(words, 1), out),
        None => Ok(()),
    }
}

fn put_hints_over(
    alloc: Global,
    index: &FtIndex,
    after: u64,
    text: &[u8],
    out: &mut Answer,
) -> Result<(), NoMemory> {
    if let Some(iter) = plan_over(alloc, index, text)? {
        put_each(
            &hints_of::<Brand>(alloc, index, &iter, after, Blank::new(1))?,
            out,
        );
    }
    Ok(())
}

fn put_each(hints: &Hints, out: &mut Answer) {
    for hint in hints.0.as_slice() {
        put_hint(hint, out);
    }
}

fn hints_of<L: Ledger>(
    alloc: Global,
    index: &FtIndex,
    iter: &Iter,
    after: u64,
    blank: Blank,
) -> Result<Hints, NoMemory>
    requires name { blank.name ≡ L.name }
    requires parts { blank.parts ≡ L.parts }
    requires some { 0 < L.parts }
{
    let mut steps = Steps::<L>::new(blank);
    iter.hints(alloc, index, after, &mut steps)
}

fn put_hint(hint: &Hint, out: &mut Answer) {
    out.put(b" ");
    if let ListName::Word { text } = &hint.list {
        out.put(text.as_slice());
    }
    out.put(b":");
    put_number(hint.place.block as u64, out);
}
