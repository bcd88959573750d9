//! The documents that an index is filled with.
ghost use Rattle.std.specs.Prelude.{◌≡◌, ◌<◌, ◌≤◌, ◌+◌, IfOk, IsTrue, OnOk, length};
ghost use Rattle.ft_meaning.specs.Meaning.{ValuesFit};
ghost use Rattle.ft_index.specs.Markers.{AreBefore};

use ft_base::{
    Bytes, Doc, Field, FieldKind, HashRec, HashView, IndexDef, ListOf, NamedList, NoMemory, Schema,
    StopWords, put_int,
};
use ft_index::FtIndex;
use inverted_list::Markers;
use std::alloc::Global;

/// An index of every key, with the TEXT field `t`, the TAG field `g` and the NUMERIC field `n`.
pub fn begun(alloc: Global, markers: &mut Markers) -> Result<FtIndex, NoMemory>
    ensures last { IfOk result (λ index. index.table.last ≡ 0) }
    ensures before { IfOk result (λ index. AreBefore markers.new index.lists) }
{
    let def = defined(alloc)?;
    FtIndex::new(alloc, def, markers)
}

fn defined(alloc: Global) -> Result<IndexDef, NoMemory>
    ensures { IfOk result (λ def. length def.fields ≤ 1_024) }
{
    let fields = schema(alloc)?;
    let prefixes = ListOf::from_vec(vec![in alloc; Bytes::new(alloc)]?);
    Ok(IndexDef {
        name: Bytes::new(alloc),
        serial: 1,
        prefixes,
        stops: StopWords {
            words: NamedList::new(alloc),
        },
        fields,
    })
}

fn schema(alloc: Global) -> Result<Schema, NoMemory>
    ensures { IfOk result (λ fields. length fields ≤ 1_024) }
{
    let tag = FieldKind::Tag {
        separator: b',',
        case: false,
    };
    let mut fields = Vec::new(alloc);
    put_field(&mut fields, b"t", FieldKind::Text)?;
    put_field(&mut fields, b"g", tag)?;
    put_field(&mut fields, b"n", FieldKind::Numeric)?;
    Schema::from_vec(fields)
}

// Adds a field behind the others.
fn put_field(fields: &mut Vec<Field>, name: &[u8], kind: FieldKind) -> Result<(), NoMemory>
    ensures { OnOk result (length fields.new.items ≡ length fields.old.items + 1) }
{
    let field = named(*fields.allocator(), name, kind)?;
    fields.push(field)?;
    Ok(())
}

fn named(alloc: Global, name: &[u8], kind: FieldKind) -> Result<Field, NoMemory> {
    let alias = Bytes::from_slice(alloc, name)?;
    Ok(Field {
        name: Bytes::from_slice(alloc, name)?,
        alias,
        kind,
        sortable: false,
        unf: false,
        noindex: false,
    })
}

/// Writes a document into an index.
pub fn write(index: &mut FtIndex, markers: &mut Markers, doc: &Doc) -> Result<(), NoMemory>
    requires id { index.old.table.last < doc.now.id }
    requires before { AreBefore markers.old index.old.lists }
    ensures last { index.new.table.last ≤ doc.now.id }
    ensures before { AreBefore markers.new index.new.lists }
{
    if !values_fit(&doc.hash()) {
        return Ok(());
    }
    let ready = index.prepare(doc, markers)?;
    index.commit(ready);
    Ok(())
}

fn values_fit(hash: &HashView<'_>) -> bool
    ensures { IsTrue result → ValuesFit hash.now }
{
    'values: for i in 0..hash.len() {
        if 1_000_000 < hash.at(i).1.len() {
            return false;
        }
    }
    true
}

/// A document of eight words of a thousand.
pub fn shop_doc(alloc: Global, id: u64) -> Result<Doc, NoMemory>
    ensures { IfOk result (λ doc. doc.id ≡ id) }
{
    let mut text = Vec::new(alloc);
    put_drawn(&mut text, id)?;
    doc_with(alloc, id, text.as_slice())
}

/// A document of all words of a span.
pub fn span_doc(alloc: Global, id: u64, first: u64, last: u64) -> Result<Doc, NoMemory>
    ensures { IfOk result (λ doc. doc.id ≡ id) }
{
    let mut text = Vec::new(alloc);
    for number in first..last {
        put_word(&mut text, number)?;
    }
    doc_with(alloc, id, text.as_slice())
}

// A document with a text, one of twenty tags, and a number below 100,000.
fn doc_with(alloc: Global, id: u64, text: &[u8]) -> Result<Doc, NoMemory>
    ensures { IfOk result (λ doc. doc.id ≡ id) }
{
    let hash = hash_of(alloc, id, text)?;
    Doc::new(alloc, id, b"", hash)
}

fn hash_of(alloc: Global, id: u64, text: &[u8]) -> Result<HashRec, NoMemory> {
    let mut hash = HashRec::new(alloc);
    hash.put(b"t", text)?;
    put_numbers(alloc, &mut hash, id)?;
    Ok(hash)
}

fn put_numbers(alloc: Global, hash: &mut HashRec, id: u64) -> Result<(), NoMemory> {
    put_digits(alloc, hash, b"g", id % 20)?;
    put_digits(alloc, hash, b"n", id % 100_000)
}

fn put_digits(
    alloc: Global,
    hash: &mut HashRec,
    field: &[u8],
    number: u64,
) -> Result<(), NoMemory> {
    let mut digits = Vec::new(alloc);
    put_number(&mut digits, number)?;
    hash.put(field, digits.as_slice())?;
    Ok(())
}

// Eight words of a thousand, drawn by the id.
fn put_drawn(text: &mut Vec<u8>, id: u64) -> Result<(), NoMemory> {
    let mut drawn = id;
    for _ in 0..8 {
        drawn = drawn
            .wrapping_mul(6_364_136_223_846_793_005)
            .wrapping_add(1_442_695_040_888_963_407);
        put_word(text, drawn / 8_589_934_592 % 1_000)?;
    }
    Ok(())
}

fn put_word(text: &mut Vec<u8>, number: u64) -> Result<(), NoMemory> {
    text.extend_from_slice(b" w")?;
    put_number(text, number)
}

fn put_number(text: &mut Vec<u8>, number: u64) -> Result<(), NoMemory> {
    put_int(text, i64::try_from(number).unwrap_or(0))
}
