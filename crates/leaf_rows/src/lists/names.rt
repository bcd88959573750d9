//! Dictionaries of words, each word with a posting list.
ghost use Rattle.std.specs.Prelude.{◌≡◌, IfSome};
ghost use Rattle.term_dict.specs.Terms.{list_of};
ghost use Rattle.leaf_rows.specs.Splicing.{IsRepairOf, live_but};

use super::dead::{Dead, SPLICED, ids_of, is_moved, put_outcome, repair_of};
use super::numbers::{parted, put_found, put_list, put_name};
use crate::answer::Answer;
use ft_base::NoMemory;
use gc_splice::{Repair, Spliced};
use inverted_list::{Marker, Markers};
use posting_block::{ListOfPlaces, Payload, TextHit};
use std::alloc::Global;
use term_dict::{Terms, Walk};

/// Writes the answer of a call, and tells whether it is of this file.
pub fn put(alloc: Global, call: &str, words: &[Vec<u8>], out: &mut Answer) -> bool {
    if call != "terms" {
        return false;
    }
    let done = put_steps(alloc, words, out);
    out.note(done);
    true
}

// A dictionary, step by step. `add:WORD` gives a word the entry 9 where it has no list, `two:WORD` the entries 2 and 3.
// `first:PREFIX` gives the least word with a prefix, and `next:PREFIX:WORD` the least above a word. `walk:WORD` gives the words
// above one, each with its number of entries, and `all:` all words so. `list:WORD` gives the list's marker and number of entries.
// `count:` gives the number of words and `entries:` that of all entries. `collect:WORD:DEAD` takes the dead ids out of the word's
// list, and gives the number of the marker that is next. `splice:WORD:DEAD` gives what the splice of a repair does, and
// `late:WORD:DEAD` what it does once the list was collected.
fn put_steps(alloc: Global, words: &[Vec<u8>], out: &mut Answer) -> Result<(), NoMemory> {
    let mut markers = Markers { event: 7, next: 3 };
    let mut terms = Terms::new(alloc);
    for word in words {
        let (verb, name) = parted(word.as_slice());
        let verb = std::str::from_utf8(verb).unwrap_or("");
        put_step(alloc, &mut terms, verb, name, &mut markers, out)?;
    }
    Ok(())
}

fn put_step(
    alloc: Global,
    terms: &mut Terms,
    verb: &str,
    name: &[u8],
    markers: &mut Markers,
    out: &mut Answer,
) -> Result<(), NoMemory> {
    let (word, dead) = parted(name);
    match verb {
        "add" => add_first(alloc, terms, name, markers),
        "two" => add_two(alloc, terms, name, markers),
        "collect" => put_collected(alloc, terms, word, dead, markers, out),
        "splice" => put_spliced(alloc, terms, word, dead, out),
        "late" => put_late(alloc, terms, word, dead, markers, out),
        _ => put_asked(terms, verb, name, out),
    }
}

// Adds a word's first entry, where it has none.
fn add_first(
    alloc: Global,
    terms: &mut Terms,
    word: &[u8],
    markers: &mut Markers,
) -> Result<(), NoMemory> {
    if terms.list(word).is_some() {
        return Ok(());
    }
    let places = ListOfPlaces::new(alloc);
    terms.add(word, 9, &TextHit { places }, markers)
}

// Adds a word's first two entries, where it has none.
fn add_two(
    alloc: Global,
    terms: &mut Terms,
    word: &[u8],
    markers: &mut Markers,
) -> Result<(), NoMemory> {
    if terms.list(word).is_some() {
        return Ok(());
    }
    let places = ListOfPlaces::new(alloc);
    let hit = TextHit { places };
    terms.add(word, 2, &hit, markers)?;
    terms.add(word, 3, &hit, markers)
}

fn put_collected(
    alloc: Global,
    terms: &mut Terms,
    word: &[u8],
    dead: &[u8],
    markers: &mut Markers,
    out: &mut Answer,
) -> Result<(), NoMemory> {
    let ids = ids_of(alloc, dead)?;
    let dead = Dead {
        ids: ids.as_slice(),
    };
    terms.collect(word, &dead, markers)?;
    put_found(Some(markers.next), out);
    Ok(())
}

fn put_spliced(
    alloc: Global,
    terms: &mut Terms,
    word: &[u8],
    dead: &[u8],
    out: &mut Answer,
) -> Result<(), NoMemory> {
    let ids = ids_of(alloc, dead)?;
    let dead = Dead {
        ids: ids.as_slice(),
    };
    let Some(list) = terms.list(word) else {
        out.put(b" none");
        return Ok(());
    };
    match repair_of(alloc, list, &dead)? {
        Some(repair) => put_outcome(splice(terms, word, repair, &dead), out),
        None => out.put(b" clean"),
    }
    Ok(())
}

// Splices the repair of a word's list into the list.
fn splice(terms: &mut Terms, word: &[u8], repair: Repair<TextHit>, dead: &Dead<'_>) -> Spliced
    requires { IfSome (list_of terms.old word.now) (λ l. IsRepairOf (live_but dead.now.ids.now) l repair) }
{
    let mut repair = repair;
    terms.splice(word, &mut repair, SPLICED)
}

fn put_late(
    alloc: Global,
    terms: &mut Terms,
    word: &[u8],
    dead: &[u8],
    markers: &mut Markers,
    out: &mut Answer,
) -> Result<(), NoMemory> {
    let ids = ids_of(alloc, dead)?;
    let dead = Dead {
        ids: ids.as_slice(),
    };
    let Some(list) = terms.list(word) else {
        out.put(b" none");
        return Ok(());
    };
    let Some(mut repair) = repair_of(alloc, list, &dead)? else {
        out.put(b" clean");
        return Ok(());
    };
    terms.collect(word, &dead, markers)?;
    if is_moved(terms.list(word), repair.seen) {
        put_outcome(terms.splice(word, &mut repair, SPLICED), out);
    }
    Ok(())
}

// What a step that changes nothing answers.
fn put_asked(terms: &Terms, verb: &str, name: &[u8], out: &mut Answer) -> Result<(), NoMemory> {
    let (prefix, after) = parted(name);
    match verb {
        "first" => put_name(terms.next_name(name, None)?, out),
        "next" => put_name(terms.next_name(prefix, Some(after))?, out),
        "walk" => put_rows(terms.walk(Some(name))?, out),
        "all" => put_rows(terms.walk(None)?, out),
        "list" => put_list(told(terms, name), out),
        "count" => put_found(Some(terms.len() as u64), out),
        "entries" => put_found(terms.entries(), out),
        _ => {}
    }
    Ok(())
}

// The marker of a word's list, and how many entries it has.
fn told(terms: &Terms, word: &[u8]) -> Option<(Marker, u64)> {
    let list = terms.list(word)?;
    Some((list.marker(), list.len()))
}

/// Writes the words that are left, each with its number of entries, or `none`.
pub fn put_rows<P: Payload>(walk: Walk<'_, P>, out: &mut Answer) {
    let mut walk = walk;
    for at in 0..u64::MAX {
        let Some((name, list)) = walk.next() else {
            return put_end(at, out);
        };
        put_name(Some(name), out);
        put_found(Some(list.len()), out);
    }
}

fn put_end(rows: u64, out: &mut Answer) {
    if rows == 0 {
        put_name(None, out);
    }
}
