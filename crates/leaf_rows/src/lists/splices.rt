//! Repairs of posting lists, and their splices.
ghost use Rattle.std.specs.Prelude.{◌≡◌, ◌<◌, IfOk, OnOk};
ghost use Rattle.gc_splice.specs.Growing.{Grows};
ghost use Rattle.inverted_list.specs.Listing.{last_id};
ghost use Rattle.inverted_list.specs.Places.{IsSound};
ghost use Rattle.leaf_rows.specs.Splicing.{IsRepairOf, live_but};

use super::dead::{Dead, SPLICED, has, ids_of, put_outcome, repair_of};
use super::numbers::{number_at, put_found, put_marker, put_number};
use crate::answer::Answer;
use crate::arguments::word;
use ft_base::{NoMemory, Steps};
use gc_splice::{BlockRepair, Repair, Spliced, collect_list, splice_list};
use inverted_list::{List, Marker, Markers, Place};
use posting_block::{Block, NumHit};
use rand_core::utils::NextWord;
use rand_pcg::Lcg64Xsh32;
use std::alloc::Global;
use std::marker::Brand;
use std::sync::ledger::{Blank, Ledger};

/// The marker of a list before it is spliced.
pub const PICTURED: Marker = Marker { event: 1, nth: 0 };

/// Writes the answer of a call, and tells whether it is of this file.
pub fn put(alloc: Global, call: &str, words: &[Vec<u8>], out: &mut Answer) -> bool {
    let done = match call {
        "splice" => put_splice(alloc, words, out),
        "splice_late" => put_late(alloc, words, out),
        "repair" => put_repair(alloc, words, out),
        "random_splices" => put_random(alloc, number_at(words, 0), number_at(words, 1), out),
        _ => return false,
    };
    out.note(done);
    true
}

/// Adds the ids that rise behind the last one, each with its negative, and answers the last.
pub fn append_all(list: &mut List<NumHit>, last: u64, ids: &[u64]) -> Result<u64, NoMemory>
    requires { last_id 0 list.old.entries ≡ last }
    ensures last { IfOk result (λ end. last_id 0 list.new.entries ≡ end) }
    ensures grows { OnOk result (Grows list.old list.new) }
{
    let mut end = last;
    'ids: for id in ids {
        if end < *id && *id < 1_000_000 {
            let value = -(*id as i64);
            list.append(*id, &NumHit { value })?;
            end = *id;
        }
    }
    Ok(end)
}

// `splice FIRST DEAD LATER LAST FROM`: what the splice of a repair did. The list had the ids FIRST when it was pictured, of which
// DEAD are dead, and got LATER before the splice. Then its marker and its blocks, each as its first and last id and their number,
// the tail behind `+`, and what is found from FROM on behind the id LAST: by a place of before the splice, by one that is opened close
// to that, and in which block.
fn put_splice(alloc: Global, words: &[Vec<u8>], out: &mut Answer) -> Result<(), NoMemory> {
    let mut list = List::new(alloc, PICTURED);
    let first = ids_of(alloc, word(words, 0))?;
    let last = append_all(&mut list, 0, first.as_slice())?;
    drop(first);
    put_spliced(alloc, &mut list, last, word(words, 1), word(words, 2), out)?;
    put_blocks(&list, out);
    let place = Place {
        marker: PICTURED,
        block: 1,
        last: number_at(words, 3),
    };
    put_found_behind(&list, place, number_at(words, 4), out);
    Ok(())
}

fn put_spliced(
    alloc: Global,
    list: &mut List<NumHit>,
    last: u64,
    dead: &[u8],
    later: &[u8],
    out: &mut Answer,
) -> Result<(), NoMemory>
    requires { last_id 0 list.old.entries ≡ last }
{
    let ids = ids_of(alloc, dead)?;
    let later = ids_of(alloc, later)?;
    let dead = Dead {
        ids: ids.as_slice(),
    };
    match repair_of(alloc, list, &dead)? {
        Some(repair) => {
            put_outcome(
                grow_and_splice(list, repair, &dead, last, later.as_slice())?,
                out,
            );
        }
        None => out.put(b" clean"),
    }
    Ok(())
}

// Splices a repair into the list once more ids came.
fn grow_and_splice(
    list: &mut List<NumHit>,
    repair: Repair<NumHit>,
    dead: &Dead<'_>,
    last: u64,
    later: &[u64],
) -> Result<Spliced, NoMemory>
    requires repair { IsRepairOf (live_but dead.now.ids.now) list.old repair }
    requires last { last_id 0 list.old.entries ≡ last }
{
    let mut repair = repair;
    append_all(list, last, later)?;
    Ok(splice_list(list, &mut repair, SPLICED))
}

fn put_blocks(list: &List<NumHit>, out: &mut Answer) {
    put_marker(Some(list.marker()), out);
    for block in list.sealed() {
        put_block(block.block(), out);
    }
    out.put(b" +");
    put_block(list.tail(), out);
}

// The first and the last id of a block, and how many entries it has.
fn put_block(block: &Block<NumHit>, out: &mut Answer) {
    let mut ids = [0; 100];
    if block.len() == 0 {
        return out.put(b" none");
    }
    let len = block.ids_into(&mut ids);
    put_found(Some(ids[0]), out);
    out.put(b"-");
    put_number(block.last(), out);
    out.put(b"x");
    out.put_count(len);
}

fn put_found_behind(list: &List<NumHit>, place: Place, from: u64, out: &mut Answer) {
    if list.is_sound(place) && place.last < from {
        put_sought::<Brand>(list, place, from, Blank::new(1), out);
    }
}

fn put_sought<L: Ledger>(
    list: &List<NumHit>,
    place: Place,
    from: u64,
    blank: Blank,
    out: &mut Answer,
)
    requires name { blank.name ≡ L.name }
    requires parts { blank.parts ≡ L.parts }
    requires some { 0 < L.parts }
    requires sound { IsSound place list.now }
    requires ahead { place.last < from }
{
    let mut steps = Steps::<L>::new(blank);
    let mut near = list.open_near(place, place.last, &mut steps);
    let mut old = place;
    put_found(list.seek(&mut old, from, &mut steps), out);
    put_found(list.seek(&mut near, from, &mut steps), out);
    let mut old = place;
    out.put(b" in");
    match list.next_block(&mut old, from, &mut steps) {
        Some(block) => put_block(block, out),
        None => put_found(None, out),
    }
}

// `splice_late FIRST DEAD`: what a splice does whose list was collected since it was pictured.
fn put_late(alloc: Global, words: &[Vec<u8>], out: &mut Answer) -> Result<(), NoMemory> {
    let mut list = List::new(alloc, PICTURED);
    let ids = ids_of(alloc, word(words, 0))?;
    append_all(&mut list, 0, ids.as_slice())?;
    let ids = ids_of(alloc, word(words, 1))?;
    let dead = Dead {
        ids: ids.as_slice(),
    };
    let Some(mut repair) = repair_of(alloc, &list, &dead)? else {
        out.put(b" clean");
        return Ok(());
    };
    collect_list(alloc, &mut list, &dead, &mut Markers { event: 5, next: 7 })?;
    if repair.seen != list.marker() {
        put_outcome(splice_list(&mut list, &mut repair, SPLICED), out);
    }
    put_blocks(&list, out);
    Ok(())
}

// `repair FIRST DEAD`: what a repair makes of each sealed block, and the tail that it leaves.
fn put_repair(alloc: Global, words: &[Vec<u8>], out: &mut Answer) -> Result<(), NoMemory> {
    let mut list = List::new(alloc, PICTURED);
    let ids = ids_of(alloc, word(words, 0))?;
    append_all(&mut list, 0, ids.as_slice())?;
    let ids = ids_of(alloc, word(words, 1))?;
    match repair_of(
        alloc,
        &list,
        &Dead {
            ids: ids.as_slice(),
        },
    )? {
        Some(repair) => put_parts(&repair, out),
        None => out.put(b" clean"),
    }
    Ok(())
}

fn put_parts(repair: &Repair<NumHit>, out: &mut Answer) {
    for block in repair.sealed.as_slice() {
        match block {
            BlockRepair::Same => out.put(b" same"),
            BlockRepair::Gone => out.put(b" gone"),
            BlockRepair::Changed(block) => put_block(block.block(), out),
        }
    }
    out.put(b" +");
    put_block(&repair.tail, out);
}

// `random_splices SEED LISTS`: how many lists of that number differ, drawn with the seed, from a plain filter of their ids.
fn put_random(alloc: Global, seed: u64, lists: u64, out: &mut Answer) -> Result<(), NoMemory> {
    let mut rng = Lcg64Xsh32::new(seed, 1);
    let mut differ: u64 = 0;
    for _ in 0..lists.min(5_000) {
        if !is_as_filtered(alloc, &mut rng)? {
            differ = differ.saturating_add(1);
        }
    }
    put_found(Some(differ), out);
    Ok(())
}

// One list with some ids, of which some are dead, and some that come later.
fn is_as_filtered(alloc: Global, rng: &mut Lcg64Xsh32) -> Result<bool, NoMemory> {
    let mut list = List::new(alloc, PICTURED);
    let first = drawn(alloc, rng, 0, 400)?;
    let dead = chosen(alloc, rng, first.as_slice())?;
    let last = append_all(&mut list, 0, first.as_slice())?;
    let later = drawn(alloc, rng, last, 250)?;
    let ids = Dead {
        ids: dead.as_slice(),
    };
    let Some(repair) = repair_of(alloc, &list, &ids)? else {
        return Ok(dead.is_empty());
    };
    grow_and_splice(&mut list, repair, &ids, last, later.as_slice())?;
    let wanted = filtered(alloc, first.as_slice(), dead.as_slice(), later.as_slice())?;
    has_ids(&list, wanted.as_slice())
}

// Ids above one, up to so many, with small gaps.
fn drawn(alloc: Global, rng: &mut Lcg64Xsh32, after: u64, most: u32) -> Result<Vec<u64>, NoMemory> {
    let mut ids = Vec::new(alloc);
    let mut id = after.min(100_000);
    for _ in 0..rng.next_word() % most.max(1) {
        id = id.saturating_add(1 + u64::from(rng.next_word() % 3));
        ids.push(id)?;
    }
    Ok(ids)
}

// Some of the ids, by one of five chances.
fn chosen(alloc: Global, rng: &mut Lcg64Xsh32, ids: &[u64]) -> Result<Vec<u64>, NoMemory> {
    let chance = rng.next_word() % 5;
    let mut dead = Vec::new(alloc);
    for id in ids {
        if rng.next_word() % 4 < chance {
            dead.push(*id)?;
        }
    }
    Ok(dead)
}

// What is left by the rule: no dead id of a block that was sealed, nor of the tail where none came later.
fn filtered(
    alloc: Global,
    first: &[u64],
    dead: &[u64],
    later: &[u64],
) -> Result<Vec<u64>, NoMemory> {
    let sealed = first.len() / 100 * 100;
    let mut ids = Vec::new(alloc);
    for (at, id) in first.iter().enumerate() {
        let stays = sealed <= at && !later.is_empty();
        if stays || !has(dead, *id) {
            ids.push(*id)?;
        }
    }
    ids.extend_from_slice(later)?;
    Ok(ids)
}

fn has_ids(list: &List<NumHit>, wanted: &[u64]) -> Result<bool, NoMemory> {
    let entries = list.entries()?;
    Ok(
        entries.len() == wanted.len()
            && entries.iter().zip(wanted).all(|(entry, id)| entry.0 == *id),
    )
}
