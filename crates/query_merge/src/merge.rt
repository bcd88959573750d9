//! The marks of parts, by a table of their bytes. The table only saves a search: the part that it names is compared.
ghost use Rattle.std.specs.Prelude.{◌≡◌, false, slice_get, IfOk, IsTrue};
ghost use Rattle.std.specs.Option.{unwrap_or};
ghost use Rattle.query_merge.specs.Merged.{AreParts, IsPart, marked};

use crate::alike::{is_same, is_same_tag};
use crate::key::{key_of, key_of_tag};
use ft_base::{NoMemory, Query, TagPart};
use std::alloc::Global;
use std::collections::BTreeMap;

/// Marks of the parts that are planned: of equal ones the first.
pub fn marks_of(alloc: Global, queries: &[Query]) -> Result<Vec<bool>, NoMemory>
    ensures { IfOk result (λ marks. AreParts queries.now (marked queries.now marks.items)) }
{
    let mut marks = Vec::new(alloc);
    let mut places = BTreeMap::new(alloc);
    'queries: for at in 0..queries.len() {
        let query = &queries[at];
        let key = key_of(alloc, query)?;
        if is_marked(queries, marks.as_slice(), places.get(&key).copied(), query) {
            marks.push(false)?;
            continue;
        }
        places.insert(key, at)?;
        marks.push(true)?;
    }
    Ok(marks)
}

// Whether there is a place, and the part there is marked and equal.
fn is_marked(queries: &[Query], marks: &[bool], place: Option<usize>, query: &Query) -> bool
    ensures { IsTrue result → IsPart query.now (marked queries.now marks.now) }
{
    let Some(place) = place else {
        return false;
    };
    match queries.get(place) {
        Some(other) => {
            if is_set(marks, place) {
                is_same(query, other)
            } else {
                false
            }
        }
        None => false,
    }
}

/// Whether the part at a place is marked. Behind the last mark none is.
pub fn is_set(marks: &[bool], place: usize) -> bool
    ensures { result ≡ unwrap_or (slice_get marks.now place) false }
{
    match marks.get(place) {
        Some(mark) => *mark,
        None => false,
    }
}

/// The same of tags and beginnings of tags.
pub fn marks_of_tags(alloc: Global, tags: &[TagPart]) -> Result<Vec<bool>, NoMemory>
    ensures { IfOk result (λ marks. AreParts tags.now (marked tags.now marks.items)) }
{
    let mut marks = Vec::new(alloc);
    let mut places = BTreeMap::new(alloc);
    'tags: for at in 0..tags.len() {
        let tag = &tags[at];
        let key = key_of_tag(alloc, tag)?;
        if is_marked_tag(tags, marks.as_slice(), places.get(&key).copied(), tag) {
            marks.push(false)?;
            continue;
        }
        places.insert(key, at)?;
        marks.push(true)?;
    }
    Ok(marks)
}

// Whether there is a place, and the tag there is marked and equal.
fn is_marked_tag(tags: &[TagPart], marks: &[bool], place: Option<usize>, tag: &TagPart) -> bool
    ensures { IsTrue result → IsPart tag.now (marked tags.now marks.now) }
{
    let Some(place) = place else {
        return false;
    };
    match tags.get(place) {
        Some(other) => {
            if is_set(marks, place) {
                is_same_tag(tag, other)
            } else {
                false
            }
        }
        None => false,
    }
}
