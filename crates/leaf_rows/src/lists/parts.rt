//! Parts of a collector's round over an index, step by step: `parts STEP..`. The steps that ask are answered in their order.
//!
//! The index has the TEXT field 0, the TAG field 1 and the NUMERIC field 2, and begins without documents. A word or tag is a
//! `w` and a number, and a span `1-250` stands for those of its numbers. `words:COUNT:SPAN` writes so many documents with
//! these words, `tags:COUNT:SPAN` with these tags, each under the id behind the last. `leave:COUNT:SPAN` prepares documents
//! with these words, and never commits one. `kill:SPAN` takes the documents of these ids out.
//!
//! `next:` takes the next part, and gives how many pictures it has, and the first name and the last, or `none`. `last:` takes it
//! at the last number of all. `collect:` takes the dead entries out of all lists. `splice:NUMBER:SPAN` repairs a word's list as it is,
//! takes the documents of these ids out, and splices the repair: what became of it. `list:NUMBER` gives the ids of a word's list,
//! and `count:` how many words the index has, how many entries of tags, and how many of all.
ghost use Rattle.std.specs.Prelude.{◌≡◌, ◌<◌, ◌≤◌, IfOk, OnOk};
ghost use Rattle.ft_index.specs.Markers.{AreBefore};

use super::dead::ids_of;
use super::numbers::{number, parted, put_found};
use super::plans::{begin, write};
use super::repairs::put_spliced;
use super::scans::{kill, put_list_name};
use crate::answer::Answer;
use ft_base::{Doc, HashRec, NoMemory, put_int};
use ft_index::{FtIndex, Snapshot};
use inverted_list::{List, Markers};
use posting_block::TextHit;
use std::alloc::Global;

/// The number of the last event.
const LAST: u64 = 4_611_686_018_427_387_904;

/// Writes the answer of a call, and tells whether it is of this file.
pub fn put(alloc: Global, call: &str, words: &[Vec<u8>], out: &mut Answer) -> bool {
    if call != "parts" {
        return false;
    }
    let done = put_steps(alloc, words, out);
    out.note(done);
    true
}

fn put_steps(alloc: Global, words: &[Vec<u8>], out: &mut Answer) -> Result<(), NoMemory> {
    let mut markers = Markers { event: 1, next: 0 };
    let Some(mut index) = begin(alloc, &mut markers, out)? else {
        return Ok(());
    };
    let mut last = 0;
    'steps: for word in words {
        last = step(alloc, &mut index, &mut markers, last, word.as_slice(), out)?;
    }
    Ok(())
}

// Takes a step, and answers the last id.
fn step(
    alloc: Global,
    index: &mut FtIndex,
    markers: &mut Markers,
    last: u64,
    word: &[u8],
    out: &mut Answer,
) -> Result<u64, NoMemory>
    requires last { index.old.table.last ≤ last }
    requires before { AreBefore markers.old index.old.lists }
    ensures last { IfOk result (λ id. index.new.table.last ≤ id) }
    ensures before { OnOk result (AreBefore markers.new index.new.lists) }
{
    let (verb, rest) = parted(word);
    let (count, span) = parted(rest);
    match std::str::from_utf8(verb).unwrap_or("") {
        "words" => write_some(alloc, index, markers, last, count, b"t", span, true),
        "tags" => write_some(alloc, index, markers, last, count, b"g", span, true),
        "leave" => write_some(alloc, index, markers, last, count, b"t", span, false),
        verb => {
            change(alloc, index, markers, verb, rest, out)?;
            Ok(last)
        }
    }
}

/// Writes so many documents with the words or tags of a span in a field, and answers the last id.
pub fn write_some(
    alloc: Global,
    index: &mut FtIndex,
    markers: &mut Markers,
    last: u64,
    count: &[u8],
    field: &[u8],
    span: &[u8],
    kept: bool,
) -> Result<u64, NoMemory>
    requires last { index.old.table.last ≤ last }
    requires before { AreBefore markers.old index.old.lists }
    ensures last { IfOk result (λ id. index.new.table.last ≤ id) }
    ensures before { OnOk result (AreBefore markers.new index.new.lists) }
{
    let mut id = last;
    'writing: for _ in 0..number(count) {
        if id < 1_000_000 {
            id += 1;
            write(index, markers, &doc(alloc, id, field, span)?, kept)?;
        }
    }
    Ok(id)
}

// A document with the words or tags of a span in one field.
fn doc(alloc: Global, id: u64, field: &[u8], span: &[u8]) -> Result<Doc, NoMemory>
    ensures { IfOk result (λ doc. doc.id ≡ id) }
{
    let text = names_of(alloc, span)?;
    let mut hash = HashRec::new(alloc);
    hash.put(field, text.as_slice())?;
    Doc::new(alloc, id, b"", hash)
}

// The names of a span, each with a comma behind it, which parts tags and words.
fn names_of(alloc: Global, span: &[u8]) -> Result<Vec<u8>, NoMemory> {
    let mut text = Vec::new(alloc);
    for number in ids_of(alloc, span)?.as_slice() {
        put_name(&mut text, *number)?;
        text.push(b',')?;
    }
    Ok(text)
}

fn name_of(alloc: Global, digits: &[u8]) -> Result<Vec<u8>, NoMemory> {
    let mut name = Vec::new(alloc);
    put_name(&mut name, number(digits))?;
    Ok(name)
}

// The name with a number.
fn put_name(text: &mut Vec<u8>, number: u64) -> Result<(), NoMemory> {
    text.push(b'w')?;
    put_int(text, i64::try_from(number).unwrap_or(0))
}

// What a step that writes no document does.
fn change(
    alloc: Global,
    index: &mut FtIndex,
    markers: &mut Markers,
    verb: &str,
    rest: &[u8],
    out: &mut Answer,
) -> Result<(), NoMemory>
    requires before { AreBefore markers.old index.old.lists }
    ensures last { OnOk result (index.new.table.last ≡ index.old.table.last) }
    ensures before { OnOk result (AreBefore markers.new index.new.lists) }
{
    match verb {
        "kill" => kill(alloc, index, rest),
        "next" => put_next(index, markers, 9, out),
        "last" => put_next(index, markers, LAST, out),
        "collect" => index.collect(markers),
        "splice" => splice(alloc, index, markers, rest, out),
        _ => ask(alloc, index, verb, rest, out),
    }
}

fn splice(
    alloc: Global,
    index: &mut FtIndex,
    markers: &mut Markers,
    rest: &[u8],
    out: &mut Answer,
) -> Result<(), NoMemory>
    requires before { AreBefore markers.old index.old.lists }
    ensures last { OnOk result (index.new.table.last ≡ index.old.table.last) }
    ensures before { OnOk result (AreBefore markers.new index.new.lists) }
{
    let (digits, spans) = parted(rest);
    let word = name_of(alloc, digits)?;
    put_spliced(alloc, index, markers, word.as_slice(), spans, out)
}

fn put_next(
    index: &mut FtIndex,
    markers: &mut Markers,
    number: u64,
    out: &mut Answer,
) -> Result<(), NoMemory>
    requires before { AreBefore markers.old index.old.lists }
    ensures last { index.new.table.last ≡ index.old.table.last }
    ensures before { AreBefore markers.new index.new.lists }
{
    put_part(&index.scan_next(number, markers)?, out);
    Ok(())
}

fn put_part(part: &Snapshot, out: &mut Answer) {
    let pictures = part.lists.as_slice();
    let (Some(first), Some(last)) = (pictures.first(), pictures.last()) else {
        return out.put(b" none");
    };
    put_found(Some(pictures.len() as u64), out);
    put_list_name(&first.name, out);
    put_list_name(&last.name, out);
}

// What a step that changes nothing answers.
fn ask(
    alloc: Global,
    index: &FtIndex,
    verb: &str,
    rest: &[u8],
    out: &mut Answer,
) -> Result<(), NoMemory> {
    let lists = index.lists();
    match verb {
        "list" => put_list(alloc, index, rest, out),
        "count" => {
            put_found(Some(lists.terms().len() as u64), out);
            put_found(lists.tag_lists().entries(), out);
            put_found(lists.records(), out);
            Ok(())
        }
        _ => Ok(()),
    }
}

// The ids of a word's list, or `none`.
fn put_list(
    alloc: Global,
    index: &FtIndex,
    digits: &[u8],
    out: &mut Answer,
) -> Result<(), NoMemory> {
    let name = name_of(alloc, digits)?;
    match index.lists().terms().list(name.as_slice()) {
        Some(list) => put_ids(list, out),
        None => {
            put_found(None, out);
            Ok(())
        }
    }
}

fn put_ids(list: &List<TextHit>, out: &mut Answer) -> Result<(), NoMemory> {
    for entry in list.entries()?.as_slice() {
        put_found(Some(entry.0), out);
    }
    Ok(())
}
