//! The tags and the number of one field of a document.
ghost use Rattle.std.specs.Prelude.{◌≡◌, IfOk, slice_get};
ghost use Rattle.std.specs.List.{list_any};
ghost use Rattle.ft_meaning.specs.Holds.{is_sought, field_tags, has_tag, field_number, has_number};

use field_text::{number, tags};
use ft_base::{Bytes, Doc, Field, FieldKind, IndexDef, ListOf, NoMemory, TagPart};
use std::alloc::Global;

/// Whether a TAG field that is not NOINDEX has one of the tags that are looked for.
pub fn has_tag(
    alloc: Global,
    def: &IndexDef,
    doc: &Doc,
    field: u16,
    parts: &[TagPart],
) -> Result<bool, NoMemory>
    ensures { IfOk result (λ has. has
        ≡ has_tag doc.now parts.now (slice_get def.now.fields field)) }
{
    let Some(field) = def.fields.as_slice().get(usize::from(field)) else {
        return Ok(false);
    };
    if field.noindex {
        return Ok(false);
    }
    let found = field_tags(alloc, doc, field)?;
    Ok(has_sought(parts, found.as_slice()))
}

fn field_tags(alloc: Global, doc: &Doc, field: &Field) -> Result<ListOf<Bytes>, NoMemory>
    ensures { IfOk result (λ found. found ≡ field_tags doc.now field.now) }
{
    let FieldKind::Tag { separator, case } = field.kind else {
        return Ok(ListOf::new(alloc));
    };
    match doc.hash().get(field.name.as_slice()) {
        Some(value) => Ok(tags(alloc, value, separator, case)?),
        None => Ok(ListOf::new(alloc)),
    }
}

fn has_sought(parts: &[TagPart], found: &[Bytes]) -> bool
    ensures { result ≡ list_any (is_sought parts.now) found.now }
{
    found.iter().any(|tag| is_sought(parts, tag.as_slice()))
}

fn is_sought(parts: &[TagPart], tag: &[u8]) -> bool
    ensures { result ≡ is_sought parts.now tag.now }
{
    parts.iter().any(|part| {
        if part.prefix {
            tag.starts_with(part.text.as_slice())
        } else {
            part.text.as_slice() == tag
        }
    })
}

/// Whether the number of a NUMERIC field that is not NOINDEX is between two ends, both included.
pub fn has_number(def: &IndexDef, doc: &Doc, field: u16, low: i64, high: i64) -> bool
    ensures { result ≡ has_number doc.now low high (slice_get def.now.fields field) }
{
    let Some(field) = def.fields.as_slice().get(usize::from(field)) else {
        return false;
    };
    match field_number(doc, field) {
        Some(number) => !field.noindex && low <= number && number <= high,
        None => false,
    }
}

fn field_number(doc: &Doc, field: &Field) -> Option<i64>
    ensures { result ≡ field_number doc.now field.now }
{
    if !field.kind.is_numeric() {
        return None;
    }
    let value = doc.hash().get(field.name.as_slice())?;
    number(value)
}
