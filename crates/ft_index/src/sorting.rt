//! A document's sorting vector: its numbers that searches sort by.
ghost use Rattle.std.specs.Prelude.{◌≡◌, IfOk};
ghost use Rattle.ft_meaning.specs.Sortable.{sorting_vector};

use crate::numbers::field_number;
use doc_table::SortingVector;
use ft_base::{Doc, IndexDef, NoMemory};
use ft_meaning::keeps_number;
use std::alloc::Global;

/// A document's numbers of the fields that are NUMERIC and SORTABLE, in the order of the fields. Where
/// it has none, the field keeps its place.
pub fn vector_of(alloc: Global, def: &IndexDef, doc: &Doc) -> Result<SortingVector, NoMemory>
    ensures { IfOk result (λ vector. vector ≡ sorting_vector def.now doc.now) }
{
    let mut vector = SortingVector::new();
    for field in def.fields.as_slice() {
        if keeps_number(field) {
            vector.push(alloc, field_number(field, doc))?;
        }
    }
    Ok(vector)
}
