//! Schemas, spelled back as the words of FT.CREATE that define them.
use crate::answer::Answer;
use crate::arguments::{frame_of, word};
use ft_base::{Field, FieldKind, IndexDef, ListOf, MAX_WORDS, NoMemory, Words};
use ft_schema::{SchemaFault, extend, read_alter, read_create};
use row_text::split_words;
use std::alloc::Global;

/// The serial of each index.
const SERIAL: u64 = 7;

/// How many stop words an index has that names none.
const DEFAULT_STOPS: usize = 33;

/// Writes the answer of a call, and tells whether it is of this file.
pub fn put(alloc: Global, call: &str, words: &[Vec<u8>], out: &mut Answer) -> bool {
    match call {
        "create" => put_created(created(alloc, words, out), out),
        "serial_and_stops" => put_rest(created(alloc, words, out), out),
        "alter" => put_altered(altered(alloc, words, out), out),
        "extend" => put_created(extended(alloc, word(words, 0), word(words, 1), out), out),
        _ => return false,
    }
    true
}

/// The index with these options and fields, as FT.CREATE has them. Where they define none it is answered
/// as if memory ran out.
pub fn index_of(
    alloc: Global,
    options: &[u8],
    fields: &[u8],
    out: &mut Answer,
) -> Result<IndexDef, NoMemory> {
    let mut text = Vec::new(alloc);
    for part in [
        b"FT.CREATE ix ".as_slice(),
        options,
        b" SCHEMA ".as_slice(),
        fields,
    ] {
        out.note(text.extend_from_slice(part));
    }
    match created_by(alloc, text.as_slice(), out) {
        Ok(index) => Ok(index),
        Err(_) => Err(NoMemory),
    }
}

// The answer to the words of FT.CREATE. Fewer than 5 are answered as if memory ran out.
fn created(alloc: Global, words: &[Vec<u8>], out: &mut Answer) -> Result<IndexDef, SchemaFault> {
    match frame_of(alloc, words, out) {
        Some(frame) => read_index(alloc, frame.words()),
        None => Err(SchemaFault::NoMemory),
    }
}

fn read_index(alloc: Global, words: Words<'_>) -> Result<IndexDef, SchemaFault> {
    if words.len() < 5 || MAX_WORDS < words.len() {
        return Err(SchemaFault::NoMemory);
    }
    read_create(alloc, words, SERIAL)
}

fn created_by(alloc: Global, text: &[u8], out: &mut Answer) -> Result<IndexDef, SchemaFault> {
    let words = split_words(alloc, text)?;
    created(alloc, words.as_slice(), out)
}

// The answer to the words of FT.ALTER. Fewer than 6 are answered as if memory ran out.
fn altered(
    alloc: Global,
    words: &[Vec<u8>],
    out: &mut Answer,
) -> Result<ListOf<Field>, SchemaFault> {
    match frame_of(alloc, words, out) {
        Some(frame) => read_fields(alloc, frame.words()),
        None => Err(SchemaFault::NoMemory),
    }
}

fn read_fields(alloc: Global, words: Words<'_>) -> Result<ListOf<Field>, SchemaFault> {
    if words.len() < 6 || MAX_WORDS < words.len() {
        return Err(SchemaFault::NoMemory);
    }
    read_alter(alloc, words)
}

// An index with the fields of FT.ALTER, both commands as texts.
fn extended(
    alloc: Global,
    text: &[u8],
    more: &[u8],
    out: &mut Answer,
) -> Result<IndexDef, SchemaFault> {
    let index = created_by(alloc, text, out)?;
    let words = split_words(alloc, more)?;
    let fields = altered(alloc, words.as_slice(), out)?;
    extend(alloc, &index, &fields)
}

fn put_created(created: Result<IndexDef, SchemaFault>, out: &mut Answer) {
    match created {
        Ok(index) => put_index(&index, out),
        Err(fault) => put_fault(fault, out),
    }
}

// The serial and all the stop words.
fn put_rest(created: Result<IndexDef, SchemaFault>, out: &mut Answer) {
    match created {
        Ok(index) => {
            out.put_number(i64::try_from(index.serial).ok());
            out.put_words(index.stops.words.as_slice());
        }
        Err(fault) => put_fault(fault, out),
    }
}

fn put_altered(altered: Result<ListOf<Field>, SchemaFault>, out: &mut Answer) {
    match altered {
        Ok(fields) => put_fields(fields.as_slice(), out),
        Err(fault) => put_fault(fault, out),
    }
}

// A fault by its name and its word.
fn put_fault(fault: SchemaFault, out: &mut Answer) {
    match fault {
        SchemaFault::BadOption { at } => out.put_at(b"BadOption", at as usize),
        SchemaFault::BadKind { at } => out.put_at(b"BadKind", at as usize),
        SchemaFault::DuplicateField { at } => out.put_at(b"DuplicateField", at as usize),
        SchemaFault::TooManyFields { at } => out.put_at(b"TooManyFields", at as usize),
        SchemaFault::BadNumber { at } => out.put_at(b"BadNumber", at as usize),
        SchemaFault::OutOfScope { at } => out.put_at(b"OutOfScope", at as usize),
        SchemaFault::NoMemory => out.put(b"NoMemory"),
    }
}

// An index by its name, its prefixes, its stop words where they are not those of every index, and
// its fields.
fn put_index(index: &IndexDef, out: &mut Answer) {
    out.put_word(index.name.as_slice());
    if 0 < index.prefixes.len() {
        out.put(b" PREFIX ");
        out.put_count(index.prefixes.len());
        out.put_words(index.prefixes.as_slice());
    }
    let stops = index.stops.words.as_slice();
    if stops.len() != DEFAULT_STOPS {
        out.put(b" STOPWORDS ");
        out.put_count(stops.len());
        out.put_words(stops);
    }
    out.put(b" SCHEMA");
    put_fields(index.fields.as_slice(), out);
}

// Fields with a blank before each.
fn put_fields(fields: &[Field], out: &mut Answer) {
    for field in fields {
        put_field(field, out);
    }
}

fn put_field(field: &Field, out: &mut Answer) {
    out.put(b" ");
    out.put_word(field.name.as_slice());
    if field.alias.as_slice() != field.name.as_slice() {
        out.put(b" AS ");
        out.put_word(field.alias.as_slice());
    }
    put_kind(field.kind, out);
    put_flag(field.sortable, b" SORTABLE", out);
    put_flag(field.unf, b" UNF", out);
    put_flag(field.noindex, b" NOINDEX", out);
}

fn put_kind(kind: FieldKind, out: &mut Answer) {
    match kind {
        FieldKind::Text => out.put(b" TEXT"),
        FieldKind::Tag { separator, case } => {
            out.put(b" TAG SEPARATOR ");
            out.put(&[separator]);
            put_flag(case, b" CASESENSITIVE", out);
        }
        FieldKind::Numeric => out.put(b" NUMERIC"),
    }
}

fn put_flag(set: bool, name: &[u8], out: &mut Answer) {
    if set {
        out.put(name);
    }
}
