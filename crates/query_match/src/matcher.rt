//! The walk over a query's parts.
ghost use Rattle.std.specs.Prelude.{◌≡◌, not, IfOk};
ghost use Rattle.std.specs.List.{list_all, list_any};
ghost use Rattle.ft_meaning.specs.Holds.{holds};
ghost use Rattle.ft_meaning.specs.Meaning.{ValuesFit};

use crate::fields::has_wanted;
use crate::values::{has_number, has_tag};
use crate::words::Wanted;
use ft_base::{Doc, IndexDef, NoMemory, Query};
use std::alloc::Global;

/// Whether a document meets a query. Parts are asked from the left, until the answer is clear.
#[cycle(matches)]
pub fn matches(alloc: Global, def: &IndexDef, doc: &Doc, query: &Query) -> Result<bool, NoMemory>
    requires values { ValuesFit doc.now.hash }
    ensures { IfOk result (λ met. met ≡ holds query.now def.now doc.now) }
{
    match query {
        Query::Empty => Ok(false),
        Query::All => Ok(true),
        Query::Word { fields, text } => {
            has_wanted(alloc, def, doc, fields, Wanted::Word(text.as_slice()))
        }
        Query::Prefix { fields, text } => {
            has_wanted(alloc, def, doc, fields, Wanted::Prefix(text.as_slice()))
        }
        Query::Phrase {
            fields,
            words,
            slop,
            in_order,
        } => {
            let phrase = Wanted::Phrase {
                words: words.as_slice(),
                slop: *slop,
                in_order: *in_order,
            };
            has_wanted(alloc, def, doc, fields, phrase)
        }
        Query::Tags { field, tags } => has_tag(alloc, def, doc, *field, tags.as_slice()),
        Query::Range { field, low, high } => Ok(has_number(def, doc, *field, *low, *high)),
        Query::And(parts) => matches_all(alloc, def, doc, parts.as_slice()),
        Query::Or(parts) => matches_any(alloc, def, doc, parts.as_slice()),
        Query::Not(part) => fails(alloc, def, doc, part.get()),
        Query::Optional(_) => Ok(true),
    }
}

#[cycle(matches)]
fn fails(alloc: Global, def: &IndexDef, doc: &Doc, query: &Query) -> Result<bool, NoMemory>
    requires values { ValuesFit doc.now.hash }
    ensures { IfOk result (λ fails. fails ≡ not (holds query.now def.now doc.now)) }
{
    let met = matches(alloc, def, doc, query)?;
    Ok(!met)
}

#[cycle(matches)]
fn matches_all(alloc: Global, def: &IndexDef, doc: &Doc, parts: &[Query]) -> Result<bool, NoMemory>
    requires values { ValuesFit doc.now.hash }
    ensures { IfOk result (λ met. met ≡ list_all (λ part. holds part def.now doc.now) parts.now) }
{
    'every: for part in parts {
        if !matches(alloc, def, doc, part)? {
            return Ok(false);
        }
    }
    Ok(true)
}

#[cycle(matches)]
fn matches_any(alloc: Global, def: &IndexDef, doc: &Doc, parts: &[Query]) -> Result<bool, NoMemory>
    requires values { ValuesFit doc.now.hash }
    ensures { IfOk result (λ met. met ≡ list_any (λ part. holds part def.now doc.now) parts.now) }
{
    'some: for part in parts {
        if matches(alloc, def, doc, part)? {
            return Ok(true);
        }
    }
    Ok(false)
}
