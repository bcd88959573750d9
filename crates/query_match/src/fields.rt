//! The fields whose words a part of a query looks at, one after the other.
ghost use Rattle.std.specs.Prelude.{◌≡◌, ◌==◌, ◌&&◌, IfOk};
ghost use Rattle.std.specs.List.{list_any};
ghost use Rattle.ft_meaning.specs.Holds.{searched};
ghost use Rattle.ft_meaning.specs.Meaning.{ValuesFit, has_words, field_tokens};
ghost use Rattle.query_match.specs.Wanted.{is_met};
ghost use Rattle.query_match.specs.Searched.{is_named};
ghost use Rattle.ft_base.specs.declared.definition.Field.{Field};

use crate::words::{Wanted, is_met};
use ft_base::{Doc, Field, Fields, IndexDef, NoMemory};
use ft_meaning::field_tokens;
use std::alloc::Global;

/// Whether one of the fields has what is wanted. A field that is named twice is looked at once.
pub fn has_wanted(
    alloc: Global,
    def: &IndexDef,
    doc: &Doc,
    fields: &Fields,
    wanted: Wanted,
) -> Result<bool, NoMemory>
    requires values { ValuesFit doc.now.hash }
    ensures { IfOk result (λ met. met ≡ list_any
        (λ field. is_met wanted.entry (field_tokens def.now doc.now field))
        (searched def.now fields.now)) }
{
    'fields: for (number, field) in def.fields.as_slice().iter().enumerate() {
        if is_searched(fields, number, field) && field_has(alloc, def, doc, field, wanted)? {
            return Ok(true);
        }
    }
    Ok(false)
}

fn field_has(
    alloc: Global,
    def: &IndexDef,
    doc: &Doc,
    field: &Field,
    wanted: Wanted,
) -> Result<bool, NoMemory>
    requires values { ValuesFit doc.now.hash }
    ensures { IfOk result (λ met. met
        ≡ is_met wanted.entry (field_tokens def.now doc.now field.now)) }
{
    let found = field_tokens(alloc, def, doc, field)?;
    Ok(is_met(alloc, wanted, &found)?)
}

fn is_searched(fields: &Fields, number: usize, field: &Field) -> bool
    ensures { result ≡ (is_named fields.now number && has_words field.now) }
{
    is_named(fields, number) && field.kind.is_text() && !field.noindex
}

fn is_named(fields: &Fields, number: usize) -> bool
    ensures { result ≡ is_named fields.now number }
{
    match fields {
        Fields::All => true,
        Fields::Named(numbers) => is_among(numbers.as_slice(), number),
    }
}

fn is_among(numbers: &[u16], number: usize) -> bool
    ensures { result ≡ list_any (λ named. named == number) numbers.now }
{
    numbers.iter().any(|named| usize::from(*named) == number)
}
