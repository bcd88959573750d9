//! The fields that FILTER and SORTBY name, and FILTER's ranges, which join the query.
ghost use Rattle.std.specs.Prelude.{◌≡◌, ◌<◌, ◌≤◌, ◌&&◌, ◌++◌, length, map, option_map, option_to_list, position, IfOk, IfSome, OnOk};
ghost use Rattle.std.specs.List.{list_all};
ghost use Rattle.std.specs.Str.{bytes_eq};
ghost use Rattle.cmd_parse.specs.Seen.{filter_of, search_of, sort_of};
ghost use Rattle.ft_base.specs.Docs.{Doc};
ghost use Rattle.ft_machine.specs.Counted.{first_unknown, least, passes, unknown_filter, unknown_sort};
ghost use Rattle.ft_meaning.specs.Holds.{holds};

use cmd_parse::{FilterSpec, SearchSpec, SortSpec};
use ft_base::{IndexDef, ListOf, NoMemory, Query, Schema};
use std::alloc::Global;

/// The least number of a word that names no field: of SORTBY one of the index, of a FILTER a NUMERIC one.
pub fn first_unknown(def: &IndexDef, search: &SearchSpec<'_>) -> Option<u32>
    ensures { result ≡ first_unknown def.now.fields (search_of search.now) }
{
    let fields = &def.fields;
    let mut first = unknown_sort(fields, search.sort);
    'filters: for filter in search.filters.as_slice() {
        first = or_filter(first, fields, filter);
    }
    first
}

/// The number of SORTBY's word, where that names no field.
fn unknown_sort(fields: &Schema, sort: Option<SortSpec<'_>>) -> Option<u32>
    ensures { option_to_list result ≡ unknown_sort fields.now (option_map sort_of sort.entry) }
{
    let sort = sort?;
    if fields.has(sort.field) {
        return None;
    }
    Some(sort.at)
}

/// The least of a number and that of a FILTER's word. Behind a word that names no field, no other is looked up.
fn or_filter(first: Option<u32>, fields: &Schema, filter: &FilterSpec<'_>) -> Option<u32>
    ensures { result ≡ least (option_to_list first ++ unknown_filter fields.now (filter_of filter.now)) }
{
    match first {
        Some(at) if at <= filter.at => first,
        _ => lesser(first, unknown_filter(fields, filter)),
    }
}

/// The number of a FILTER's word, where that names no NUMERIC field.
fn unknown_filter(fields: &Schema, filter: &FilterSpec<'_>) -> Option<u32>
    ensures { option_to_list result ≡ unknown_filter fields.now (filter_of filter.now) }
{
    if fields.has_numeric(filter.field) {
        return None;
    }
    Some(filter.at)
}

/// The lesser of two numbers, where there are some.
fn lesser(first: Option<u32>, second: Option<u32>) -> Option<u32>
    ensures { result ≡ least (option_to_list first ++ option_to_list second) }
{
    match (first, second) {
        (Some(first), Some(second)) => Some(first.min(second)),
        (Some(first), None) => Some(first),
        (None, second) => second,
    }
}

/// A query joined by the ranges of FILTERs: a document that it finds lies in each. A FILTER without a number in it, or
/// of a field that isn't there, lets none through.
pub fn joined(
    alloc: Global,
    query: Query,
    def: &IndexDef,
    filters: &ListOf<FilterSpec<'_>>,
) -> Result<Query, NoMemory>
    requires fields { length def.now.fields ≤ 1_024 }
    ensures { IfOk result (λ joined. (doc : Doc) → holds joined def.now doc
        ≡ (holds query def.now doc && list_all (passes def.now doc) (map filter_of filters.now))) }
{
    let filters = filters.as_slice();
    if filters.is_empty() {
        return Ok(query);
    }
    let mut parts = Vec::new(alloc);
    parts.push(query)?;
    add_ranges(&mut parts, def, filters)?;
    Ok(Query::And(ListOf::from_vec(parts)))
}

/// Adds the ranges of FILTERs to parts of a query.
fn add_ranges(
    parts: &mut Vec<Query>,
    def: &IndexDef,
    filters: &[FilterSpec<'_>],
) -> Result<(), NoMemory>
    requires fields { length def.now.fields ≤ 1_024 }
    ensures { OnOk result ((doc : Doc) → list_all (λ part. holds part def.now doc) parts.new.items
        ≡ (list_all (λ part. holds part def.now doc) parts.old.items
        && list_all (passes def.now doc) (map filter_of filters.now))) }
{
    'ranges: for filter in filters {
        parts.push(range(def, filter))?;
    }
    Ok(())
}

/// What a FILTER asks of a document.
fn range(def: &IndexDef, filter: &FilterSpec<'_>) -> Query
    requires fields { length def.now.fields ≤ 1_024 }
    ensures { (doc : Doc) → holds result def.now doc ≡ passes def.now doc (filter_of filter.now) }
{
    match (filter.interval, place_of(def, filter.field)) {
        (Some((low, high)), Some(place)) => Query::Range {
            field: place as u16,
            low,
            high,
        },
        _ => Query::Empty,
    }
}

/// The place of the first field with an alias.
fn place_of(def: &IndexDef, alias: &[u8]) -> Option<usize>
    ensures place { result ≡ position (λ field. bytes_eq alias.now field.alias) def.now.fields }
    ensures within { IfSome result (λ place. place < length def.now.fields) }
{
    def.fields.place(alias)
}
