//! How the lists of ranges lose their dead entries, field after field and range after range.
ghost use Rattle.std.specs.Prelude.{◌≡◌, ◌≢◌, ◌<◌, ℕ, ℤ, Some, true, false, length, IfOk, IfSome, OnOk};
ghost use Rattle.std.specs.Ordering.{int_eq};
ghost use Rattle.gc_splice.specs.Alive.{all_alive};
ghost use Rattle.numeric_ranges.specs.Ranges.{list_at};
ghost use Rattle.ft_index.specs.Collecting.{LowsLiveBut};
ghost use Rattle.ft_index.specs.Lists.{list_from, rows_of};
ghost use Rattle.ft_index.specs.Markers.{AllBefore, TakesLists, range_list, range_marker, slot_marker};
ghost use Rattle.ft_index.specs.Thinned.{RangesLive, RangesThin, RowsLive, RowsThin, SlotThins};

use ft_base::NoMemory;
use gc_splice::{Live, is_clean};
use inverted_list::Markers;
use numeric_ranges::Ranges;
use std::alloc::Global;

/// Takes the dead entries out of the list of each range of each field. Out of memory, some lists still have theirs.
pub fn collect_ranges<L: Live>(
    ranges: &mut [Option<Ranges>],
    alloc: Global,
    live: &L,
    markers: &mut Markers,
) -> Result<(), NoMemory>
    requires before { AllBefore markers.old (range_marker ranges.old) }
    ensures thin { RangesThin (L.is live.now) ranges.old ranges.new }
    ensures live { OnOk result (RangesLive (L.is live.now) ranges.new) }
    ensures takes { TakesLists markers.old markers.new (range_list ranges.old) (range_list ranges.new) }
{
    'fields: for number in 0..ranges.len() {
        collect_at(ranges, number, alloc, live, markers)?;
    }
    Ok(())
}

/// Takes the dead entries out of the list of each range of one field.
fn collect_at<L: Live>(
    ranges: &mut [Option<Ranges>],
    number: usize,
    alloc: Global,
    live: &L,
    markers: &mut Markers,
) -> Result<(), NoMemory>
    requires within { number < length ranges.old }
    requires before { AllBefore markers.old (range_marker ranges.old) }
    ensures thin { RangesThin (L.is live.now) ranges.old ranges.new }
    ensures here { OnOk result (RowsLive (L.is live.now) (rows_of ranges.new number)) }
    ensures others { (other : ℕ) → other ≢ number → rows_of ranges.new other ≡ rows_of ranges.old other }
    ensures takes { TakesLists markers.old markers.new (range_list ranges.old) (range_list ranges.new) }
{
    collect_slot(&mut ranges[number], alloc, live, markers)
}

/// The same of the field's ranges, where it has ranges.
fn collect_slot<L: Live>(
    slot: &mut Option<Ranges>,
    alloc: Global,
    live: &L,
    markers: &mut Markers,
) -> Result<(), NoMemory>
    requires before { AllBefore markers.old (slot_marker slot.old) }
    ensures thin { SlotThins (L.is live.now) slot.old slot.new }
    ensures live { OnOk result (RowsLive (L.is live.now) slot.new) }
    ensures takes { TakesLists markers.old markers.new (list_from slot.old) (list_from slot.new) }
{
    match slot {
        Some(rows) => collect_rows(rows, alloc, live, markers),
        None => Ok(()),
    }
}

fn collect_rows<L: Live>(
    rows: &mut Ranges,
    alloc: Global,
    live: &L,
    markers: &mut Markers,
) -> Result<(), NoMemory>
    requires before { AllBefore markers.old (slot_marker (Some rows.old)) }
    ensures thin { RowsThin (L.is live.now) rows.old rows.new }
    ensures live { OnOk result (RowsLive (L.is live.now) (Some rows.new)) }
    ensures takes { TakesLists markers.old markers.new (list_from (Some rows.old)) (list_from (Some rows.new)) }
{
    let lows = dead_lows(rows, alloc, live)?;
    for low in lows.as_slice() {
        collect_row(rows, *low, live, markers)?;
    }
    Ok(())
}

/// Where the ranges begin whose lists have a dead entry.
fn dead_lows<L: Live>(rows: &Ranges, alloc: Global, live: &L) -> Result<Vec<i64>, NoMemory>
    ensures { IfOk result (λ lows. LowsLiveBut (L.is live.now) lows.items rows.now) }
{
    let mut lows = Vec::new(alloc);
    'rows: for at in 0..rows.count() {
        if !is_clean(rows.range(at), live) {
            lows.push(rows.low(at))?;
        }
    }
    Ok(lows)
}

/// Takes the dead entries out of the list of the range that begins at a low.
pub fn collect_row<L: Live>(
    rows: &mut Ranges,
    low: i64,
    live: &L,
    markers: &mut Markers,
) -> Result<(), NoMemory>
    requires before { AllBefore markers.old (slot_marker (Some rows.old)) }
    ensures thin { RowsThin (L.is live.now) rows.old rows.new }
    ensures here { OnOk result (IfSome (list_at rows.new low) (λ l. all_alive (L.is live.now) l.entries ≡ true)) }
    ensures others { (other : ℤ) → int_eq low other ≡ false → list_at rows.new other ≡ list_at rows.old other }
    ensures takes { TakesLists markers.old markers.new (list_from (Some rows.old)) (list_from (Some rows.new)) }
{
    rows.collect(low, live, markers)
}
