//! The ranges of a numeric field, whose values have the ids from 1 on.
ghost use Rattle.std.specs.Prelude.{◌≡◌, ◌<◌, ◌+◌, IfOk, IfSome, OnOk, length};
ghost use Rattle.numeric_ranges.specs.Ranges.{list_at};
ghost use Rattle.ft_index.specs.UpTo.{RowsUpTo};
ghost use Rattle.leaf_rows.specs.Splicing.{IsRepairOf, live_but};

use super::dead::{Dead, SPLICED, ids_of, put_outcome, repair_of};
use super::numbers::{int_at, number_at, put_found, put_list, put_marker};
use crate::answer::Answer;
use crate::arguments::{number_of, rest, word};
use ft_base::NoMemory;
use gc_splice::{Repair, Spliced};
use inverted_list::{Marker, Markers};
use numeric_ranges::Ranges;
use posting_block::NumHit;
use std::alloc::Global;

/// Writes the answer of a call, and tells whether it is of this file.
pub fn put(alloc: Global, call: &str, words: &[Vec<u8>], out: &mut Answer) -> bool {
    let done = match call {
        "ranges" => put_shape(alloc, words, out),
        "range_entries" => put_entries(alloc, words, out),
        "ranges_between" => put_between(alloc, words, out),
        "range_at" => put_range(alloc, words, out),
        "collect_ranges" => put_collected(alloc, words, out),
        "splice_range" => put_spliced(alloc, words, out),
        _ => return false,
    };
    out.note(done);
    true
}

// The ranges of the values that words spell.
fn filled(alloc: Global, words: &[Vec<u8>]) -> Result<Ranges, NoMemory>
    ensures { IfOk result (RowsUpTo (length words.now)) }
{
    let mut markers = Markers { event: 7, next: 3 };
    let mut ranges = Ranges::new(alloc, &mut markers)?;
    let mut id = 0;
    'values: for word in words {
        id += 1;
        ranges.add(id, number_of(word.as_slice()).unwrap_or(0), &mut markers)?;
    }
    Ok(ranges)
}

// `ranges VALUE..`: how many entries the first range has, and for each other one its low and its entries.
fn put_shape(alloc: Global, words: &[Vec<u8>], out: &mut Answer) -> Result<(), NoMemory> {
    put_ranges(&filled(alloc, words)?, out);
    Ok(())
}

fn put_ranges(ranges: &Ranges, out: &mut Answer) {
    for at in 0..ranges.count() {
        if at > 0 {
            out.put(b" from ");
            out.put_int(ranges.low(at));
        }
        put_found(Some(ranges.range(at).len()), out);
    }
}

// `range_entries VALUE..`: how many entries the ranges have.
fn put_entries(alloc: Global, words: &[Vec<u8>], out: &mut Answer) -> Result<(), NoMemory> {
    put_found(filled(alloc, words)?.entries(), out);
    Ok(())
}

// `ranges_between LOW HIGH VALUE..`: which of the ranges meet an interval, as the first of them and the one behind the last.
fn put_between(alloc: Global, words: &[Vec<u8>], out: &mut Answer) -> Result<(), NoMemory> {
    let ranges = filled(alloc, rest(words, 2))?;
    let met = ranges.between(int_at(words, 0), int_at(words, 1));
    out.put_count(met.from);
    out.put(b" ");
    out.put_count(met.to);
    Ok(())
}

// `range_at LOW VALUE..`: the marker of the range that begins at a low.
fn put_range(alloc: Global, words: &[Vec<u8>], out: &mut Answer) -> Result<(), NoMemory> {
    let ranges = filled(alloc, rest(words, 1))?;
    put_marker(
        ranges.by_low(int_at(words, 0)).map(|list| list.marker()),
        out,
    );
    Ok(())
}

// `collect_ranges DEAD LOW LOW LOW LOW TIMES VALUE..`: for each low how many entries go when the range there is collected, and
// the marker and the number of entries of its list then. Then the number of all entries, and the ranges once the last value came
// so many times more.
fn put_collected(alloc: Global, words: &[Vec<u8>], out: &mut Answer) -> Result<(), NoMemory> {
    let values = rest(words, 6);
    let ids = ids_of(alloc, word(words, 0))?;
    let dead = Dead {
        ids: ids.as_slice(),
    };
    let mut ranges = filled(alloc, values)?;
    let last = values.len() as u64;
    let mut markers = Markers { event: 9, next: 0 };
    'lows: for at in 1..5 {
        collect(
            &mut ranges,
            int_at(words, at),
            &dead,
            &mut markers,
            last,
            out,
        )?;
    }
    out.put(b" left");
    put_found(ranges.entries(), out);
    let value = int_at(words, words.len().saturating_sub(1));
    add_times(&mut ranges, last, number_at(words, 5), value, &mut markers)?;
    out.put(b" then");
    put_ranges(&ranges, out);
    Ok(())
}

// Collects one range. No id is above the last one, before and after.
fn collect(
    ranges: &mut Ranges,
    low: i64,
    dead: &Dead<'_>,
    markers: &mut Markers,
    last: u64,
    out: &mut Answer,
) -> Result<(), NoMemory>
    requires { RowsUpTo last ranges.old }
    ensures { OnOk result (RowsUpTo last ranges.new) }
{
    let before = ranges.entries().unwrap_or(0);
    ranges.collect(low, dead, markers)?;
    let after = ranges.entries().unwrap_or(0);
    put_found(before.checked_sub(after), out);
    put_list(told(ranges, low), out);
    Ok(())
}

// The marker of the list of the range at a low, and how many entries it has.
fn told(ranges: &Ranges, low: i64) -> Option<(Marker, u64)> {
    let list = ranges.by_low(low)?;
    Some((list.marker(), list.len()))
}

// Adds a value some times, with the ids behind one.
fn add_times(
    ranges: &mut Ranges,
    last: u64,
    times: u64,
    value: i64,
    markers: &mut Markers,
) -> Result<(), NoMemory>
    requires { RowsUpTo last ranges.old }
{
    let mut id = last;
    'times: for _ in 0..times.min(10_000) {
        id = next_id(id)?;
        ranges.add(id, value, markers)?;
    }
    Ok(())
}

fn next_id(id: u64) -> Result<u64, NoMemory>
    ensures { IfOk result (λ next. id < next) }
{
    id.checked_add(1).ok_or(NoMemory)
}

// `splice_range DEAD LOW VALUE..`: what the splice of a repair of the range at a low does, the marker and the number of entries of
// its list then, and the number of all entries.
fn put_spliced(alloc: Global, words: &[Vec<u8>], out: &mut Answer) -> Result<(), NoMemory> {
    let ids = ids_of(alloc, word(words, 0))?;
    let low = int_at(words, 1);
    let dead = Dead {
        ids: ids.as_slice(),
    };
    let mut ranges = filled(alloc, rest(words, 2))?;
    let Some(list) = ranges.by_low(low) else {
        out.put(b"none");
        return Ok(());
    };
    match repair_of(alloc, list, &dead)? {
        Some(repair) => put_outcome(splice(&mut ranges, low, repair, &dead), out),
        None => out.put(b" clean"),
    }
    put_list(told(&ranges, low), out);
    put_found(ranges.entries(), out);
    Ok(())
}

// Splices the repair of a range's list into the list.
fn splice(ranges: &mut Ranges, low: i64, repair: Repair<NumHit>, dead: &Dead<'_>) -> Spliced
    requires { IfSome (list_at ranges.old low) (λ l. IsRepairOf (live_but dead.now.ids.now) l repair) }
{
    let mut repair = repair;
    ranges.splice(low, &mut repair, SPLICED)
}
