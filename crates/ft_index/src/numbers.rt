//! The numbers of a document: each goes into a range of its NUMERIC field.
ghost use Rattle.std.specs.Prelude.{◌≡◌, ◌≢◌, ◌≤◌, ℕ, [], None, Some, IfOk, IfSome, OnErr, OnOk};
ghost use Rattle.ft_meaning.specs.Holds.{field_number};
ghost use Rattle.ft_index.specs.Adding.{IsSeen, IsUnseen, RangesHaveAll, RangesUnseen};
ghost use Rattle.ft_index.specs.Entries.{is_ranged, searched_number};
ghost use Rattle.ft_index.specs.Lists.{list_from, rows_of};
ghost use Rattle.ft_index.specs.Markers.{AllBefore, TakesLists, TakesMarkers, range_list, range_marker, slot_marker};
ghost use Rattle.ft_index.specs.Numbering.{IsFirst, RangesGain, RowsGain, value_entry};
ghost use Rattle.ft_index.specs.UpTo.{IsAboveRows, RangesUpTo, RowsUpTo};

use ft_base::{Doc, Field, IndexDef, NoMemory};
use inverted_list::Markers;
use numeric_ranges::Ranges;
use std::alloc::Global;

/// Ranges without entries, for each field that has ranges: one over all numbers.
pub fn first_ranges(
    alloc: Global,
    def: &IndexDef,
    markers: &mut Markers,
) -> Result<Vec<Option<Ranges>>, NoMemory>
    ensures numbers { IfOk result (λ ranges. RangesHaveAll def.now ranges.items [] []) }
    ensures up_to { IfOk result (λ ranges. RangesUpTo 0 ranges.items) }
    ensures takes { IfOk result (λ ranges.
        TakesMarkers markers.old markers.new (λ _. None) (range_marker ranges.items)) }
    ensures event { markers.new.event ≡ markers.old.event }
    ensures next { markers.old.next ≤ markers.new.next }
{
    let mut ranges = Vec::new(alloc);
    for field in def.fields.as_slice() {
        let first = first_of(alloc, field, markers)?;
        ranges.push(first)?;
    }
    Ok(ranges)
}

/// One range over all numbers, where the field has ranges.
fn first_of(alloc: Global, field: &Field, markers: &mut Markers) -> Result<Option<Ranges>, NoMemory>
    ensures first { IfOk result (λ rows. IsFirst (Some field.now) rows) }
    ensures takes { IfOk result (λ rows. TakesMarkers markers.old markers.new
        (λ _. None) (slot_marker rows)) }
    ensures event { markers.new.event ≡ markers.old.event }
    ensures next { markers.old.next ≤ markers.new.next }
{
    if !has_ranges(field) {
        return Ok(None);
    }
    Ok(Some(Ranges::new(alloc, markers)?))
}

/// Whether a field has ranges.
fn has_ranges(field: &Field) -> bool
    ensures { result ≡ is_ranged (Some field.now) }
{
    field.kind.is_numeric() && !field.noindex
}

/// Puts an entry for each of the document's numbers into a range. Out of memory, some have
/// theirs.
pub fn add_numbers(
    ranges: &mut [Option<Ranges>],
    def: &IndexDef,
    doc: &Doc,
    markers: &mut Markers,
) -> Result<(), NoMemory>
    requires later { (number : ℕ) → IsAboveRows doc.now.id (rows_of ranges.old number) }
    requires up_to { RangesUpTo doc.now.id ranges.old }
    requires before { AllBefore markers.old (range_marker ranges.old) }
    ensures unseen { IsUnseen doc.now.id
        (RangesHaveAll def.now ranges.old) (RangesHaveAll def.now ranges.new) }
    ensures seen { OnOk result (IsSeen def.now doc.now
        (RangesHaveAll def.now ranges.old) (RangesHaveAll def.now ranges.new)) }
    ensures up_to { RangesUpTo doc.now.id ranges.new }
    ensures takes { TakesLists markers.old markers.new
        (range_list ranges.old) (range_list ranges.new) }
{
    add_all(ranges, def.fields.as_slice(), doc, markers)
}

/// Adds the document's number of each field to the ranges of the field.
fn add_all(
    ranges: &mut [Option<Ranges>],
    fields: &[Field],
    doc: &Doc,
    markers: &mut Markers,
) -> Result<(), NoMemory>
    requires later { (number : ℕ) → IsAboveRows doc.now.id (rows_of ranges.old number) }
    requires up_to { RangesUpTo doc.now.id ranges.old }
    requires before { AllBefore markers.old (range_marker ranges.old) }
    ensures ok { OnOk result (RangesGain fields.now doc.now ranges.old ranges.new) }
    ensures unseen { RangesUnseen doc.now.id ranges.old ranges.new }
    ensures up_to { RangesUpTo doc.now.id ranges.new }
    ensures takes { TakesLists markers.old markers.new
        (range_list ranges.old) (range_list ranges.new) }
{
    for (number, field) in fields.iter().enumerate() {
        let value = searched_number(field, doc);
        add_field(ranges, number, value, doc.id(), markers)?;
    }
    Ok(())
}

/// The number of a document by which a field is searched.
fn searched_number(field: &Field, doc: &Doc) -> Option<i64>
    ensures { result ≡ searched_number (Some field.now) doc.now }
{
    if field.noindex {
        return None;
    }
    field_number(field, doc)
}

/// The number of a document in a NUMERIC field.
pub fn field_number(field: &Field, doc: &Doc) -> Option<i64>
    ensures { result ≡ field_number doc.now field.now }
{
    if !field.kind.is_numeric() {
        return None;
    }
    let value = doc.hash().get(field.name.as_slice())?;
    field_text::number(value)
}

/// Adds a number to the ranges of the field with this number, where there are both.
fn add_field(
    ranges: &mut [Option<Ranges>],
    number: usize,
    value: Option<i64>,
    id: u64,
    markers: &mut Markers,
) -> Result<(), NoMemory>
    requires later { IsAboveRows id (rows_of ranges.old number) }
    requires up_to { RangesUpTo id ranges.old }
    requires before { AllBefore markers.old (range_marker ranges.old) }
    ensures here { OnOk result (RowsGain (value_entry id value)
        (rows_of ranges.old number) (rows_of ranges.new number)) }
    ensures err { OnErr result (ranges.new ≡ ranges.old) }
    ensures others { (other : ℕ) → other ≢ number → rows_of ranges.new other ≡ rows_of ranges.old other }
    ensures up_to { RangesUpTo id ranges.new }
    ensures takes { TakesLists markers.old markers.new
        (range_list ranges.old) (range_list ranges.new) }
{
    if ranges.len() <= number {
        return Ok(());
    }
    add_value(&mut ranges[number], value, id, markers)
}

/// Adds a number to the ranges of its field, where there are both.
fn add_value(
    slot: &mut Option<Ranges>,
    value: Option<i64>,
    id: u64,
    markers: &mut Markers,
) -> Result<(), NoMemory>
    requires above { IsAboveRows id slot.old }
    requires before { AllBefore markers.old (slot_marker slot.old) }
    ensures gains { OnOk result (RowsGain (value_entry id value) slot.old slot.new) }
    ensures err { OnErr result (slot.new ≡ slot.old) }
    ensures up_to { IfSome slot.new (RowsUpTo id) }
    ensures takes { TakesLists markers.old markers.new (list_from slot.old) (list_from slot.new) }
{
    let Some(rows) = slot else {
        return Ok(());
    };
    let _ = rows.count();
    let Some(value) = value else {
        return Ok(());
    };
    rows.add(id, value, markers)
}
