//! Tags of fields, each tag with a posting list. A word `FIELD:TAG` names one.
ghost use Rattle.std.specs.Prelude.{◌≡◌, IfSome};
ghost use Rattle.term_dict.specs.Tags.{list_in};
ghost use Rattle.leaf_rows.specs.Splicing.{IsRepairOf, live_but};

use super::dead::{Dead, SPLICED, ids_of, is_moved, put_outcome, repair_of};
use super::names::put_rows;
use super::numbers::{field, parted, put_found, put_list, put_name};
use crate::answer::Answer;
use ft_base::NoMemory;
use gc_splice::{Repair, Spliced};
use inverted_list::{Marker, Markers};
use posting_block::TagHit;
use std::alloc::Global;
use term_dict::TagLists;

/// Writes the answer of a call, and tells whether it is of this file.
pub fn put(alloc: Global, call: &str, words: &[Vec<u8>], out: &mut Answer) -> bool {
    if call != "tags" {
        return false;
    }
    let done = put_steps(alloc, words, out);
    out.note(done);
    true
}

// Tags of fields, step by step. The steps are those of words, each with its field before it, as `first:FIELD:PREFIX` and
// `collect:FIELD:TAG:DEAD`. `count:` gives the number of fields, `fields:` gives them, `next_field:FIELD` the least from one on,
// and `entries:` the number of all entries.
fn put_steps(alloc: Global, words: &[Vec<u8>], out: &mut Answer) -> Result<(), NoMemory> {
    let mut markers = Markers { event: 7, next: 3 };
    let mut lists = TagLists::new(alloc);
    for word in words {
        let (verb, name) = parted(word.as_slice());
        let verb = std::str::from_utf8(verb).unwrap_or("");
        put_step(alloc, &mut lists, verb, name, &mut markers, out)?;
    }
    Ok(())
}

fn put_step(
    alloc: Global,
    lists: &mut TagLists,
    verb: &str,
    name: &[u8],
    markers: &mut Markers,
    out: &mut Answer,
) -> Result<(), NoMemory> {
    let (of, tag) = parted(name);
    let of = field(of);
    let (first, dead) = parted(tag);
    match verb {
        "add" => add_first(lists, of, tag, markers),
        "two" => add_two(lists, of, tag, markers),
        "collect" => put_collected(alloc, lists, of, first, dead, markers, out),
        "splice" => put_spliced(alloc, lists, of, first, dead, out),
        "late" => put_late(alloc, lists, of, first, dead, markers, out),
        "fields" => put_fields(lists, out),
        _ => put_asked(lists, verb, of, tag, out),
    }
}

// Adds the first entry of a field's tag, where it has none.
fn add_first(
    lists: &mut TagLists,
    of: u16,
    tag: &[u8],
    markers: &mut Markers,
) -> Result<(), NoMemory> {
    if lists.list(of, tag).is_some() {
        return Ok(());
    }
    lists.add(of, tag, 9, &TagHit {}, markers)
}

// Adds the first two entries of a field's tag, where it has none.
fn add_two(
    lists: &mut TagLists,
    of: u16,
    tag: &[u8],
    markers: &mut Markers,
) -> Result<(), NoMemory> {
    if lists.list(of, tag).is_some() {
        return Ok(());
    }
    lists.add(of, tag, 2, &TagHit {}, markers)?;
    lists.add(of, tag, 3, &TagHit {}, markers)
}

fn put_collected(
    alloc: Global,
    lists: &mut TagLists,
    of: u16,
    tag: &[u8],
    dead: &[u8],
    markers: &mut Markers,
    out: &mut Answer,
) -> Result<(), NoMemory> {
    let ids = ids_of(alloc, dead)?;
    let dead = Dead {
        ids: ids.as_slice(),
    };
    lists.collect(of, tag, &dead, markers)?;
    put_found(Some(markers.next), out);
    Ok(())
}

fn put_spliced(
    alloc: Global,
    lists: &mut TagLists,
    of: u16,
    tag: &[u8],
    dead: &[u8],
    out: &mut Answer,
) -> Result<(), NoMemory> {
    let ids = ids_of(alloc, dead)?;
    let dead = Dead {
        ids: ids.as_slice(),
    };
    let Some(list) = lists.list(of, tag) else {
        out.put(b" none");
        return Ok(());
    };
    match repair_of(alloc, list, &dead)? {
        Some(repair) => put_outcome(splice(lists, of, tag, repair, &dead), out),
        None => out.put(b" clean"),
    }
    Ok(())
}

// Splices the repair of a tag's list into the list.
fn splice(
    lists: &mut TagLists,
    of: u16,
    tag: &[u8],
    repair: Repair<TagHit>,
    dead: &Dead<'_>,
) -> Spliced
    requires { IfSome (list_in lists.old of tag.now) (λ l. IsRepairOf (live_but dead.now.ids.now) l repair) }
{
    let mut repair = repair;
    lists.splice(of, tag, &mut repair, SPLICED)
}

fn put_late(
    alloc: Global,
    lists: &mut TagLists,
    of: u16,
    tag: &[u8],
    dead: &[u8],
    markers: &mut Markers,
    out: &mut Answer,
) -> Result<(), NoMemory> {
    let ids = ids_of(alloc, dead)?;
    let dead = Dead {
        ids: ids.as_slice(),
    };
    let Some(list) = lists.list(of, tag) else {
        out.put(b" none");
        return Ok(());
    };
    let Some(mut repair) = repair_of(alloc, list, &dead)? else {
        out.put(b" clean");
        return Ok(());
    };
    lists.collect(of, tag, &dead, markers)?;
    if is_moved(lists.list(of, tag), repair.seen) {
        put_outcome(lists.splice(of, tag, &mut repair, SPLICED), out);
    }
    Ok(())
}

fn put_fields(lists: &TagLists, out: &mut Answer) -> Result<(), NoMemory> {
    for of in lists.fields()? {
        put_found(Some(u64::from(of)), out);
    }
    Ok(())
}

// What another step that changes nothing answers.
fn put_asked(
    lists: &TagLists,
    verb: &str,
    of: u16,
    tag: &[u8],
    out: &mut Answer,
) -> Result<(), NoMemory> {
    let (prefix, after) = parted(tag);
    match verb {
        "first" => put_name(lists.next_name(of, tag, None)?, out),
        "next" => put_name(lists.next_name(of, prefix, Some(after))?, out),
        "walk" => put_rows(lists.walk(of, Some(tag))?, out),
        "all" => put_rows(lists.walk(of, None)?, out),
        "list" => put_list(told(lists, of, tag), out),
        "count" => put_found(Some(lists.len() as u64), out),
        "next_field" => put_found(lists.next_field(of).map(u64::from), out),
        "entries" => put_found(lists.entries(), out),
        _ => {}
    }
    Ok(())
}

// The marker of a tag's list, and how many entries it has.
fn told(lists: &TagLists, of: u16, tag: &[u8]) -> Option<(Marker, u64)> {
    let list = lists.list(of, tag)?;
    Some((list.marker(), list.len()))
}
