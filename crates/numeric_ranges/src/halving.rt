//! What happens to a row when it has too many entries: it is written anew as two.
ghost use Rattle.std.specs.Prelude.{◌≡◌, ◌<◌, ◌≤◌, ◌+◌, [], ◌∷◌, ◌++◌, true, IfOk, OnOk, OnErr};
ghost use Rattle.inverted_list.specs.Listing.{RisesAbove, last_id, marker_of, filled_list};
ghost use Rattle.numeric_ranges.specs.Values.{are_mixed};
ghost use Rattle.numeric_ranges.specs.Rows.{Knows, AreHalves, AreFilled, flags_from};

use crate::cut::parts_of;
use crate::row::Row;
use ft_base::NoMemory;
use inverted_list::{List, Marker, Markers};
use posting_block::NumHit;
use std::alloc::Global;

/// The two halves of a row with one more entry, with the next two markers.
pub(crate) fn halves_of(
    alloc: Global,
    row: &Row,
    id: u64,
    hit: &NumHit,
    markers: &mut Markers,
) -> Result<(Row, Row), NoMemory>
    requires below { last_id 0 row.now.list.entries < id }
    requires rises { RisesAbove 0 row.now.list.entries }
    requires mixed { are_mixed (row.now.list.entries ++ (id, hit.now) ∷ []) ≡ true }
    ensures ok { IfOk result (λ h. AreHalves row.now
        (row.now.list.entries ++ (id, hit.now) ∷ []) markers.old h.0 h.1) }
    ensures taken { OnOk result (markers.new.next ≡ markers.old.next + 2) }
    ensures event { markers.new.event ≡ markers.old.event }
    ensures rises { markers.old.next ≤ markers.new.next }
    ensures twice { markers.new.next ≤ markers.old.next + 2 }
{
    let entries = entries_with(&row.list, id, hit)?;
    let parts = parts_of(alloc, entries.as_slice())?;
    let first = next_marker(markers)?;
    let second = next_marker(markers)?;
    let left = Row::new(alloc, row.low, first);
    let right = Row::new(alloc, parts.cut, second);
    filled(left, right, entries.as_slice(), parts.flags.as_slice())
}

/// The entries of a list, and one more behind them.
fn entries_with(list: &List<NumHit>, id: u64, hit: &NumHit) -> Result<Vec<(u64, NumHit)>, NoMemory>
    ensures { IfOk result (λ entries. entries.items ≡ list.now.entries ++ (id, hit.now) ∷ []) }
{
    let mut entries = list.entries()?;
    entries.push((id, NumHit { value: hit.value }))?;
    Ok(entries)
}

/// The marker that is given next. Where there is none, it counts as out of memory.
pub(crate) fn next_marker(markers: &mut Markers) -> Result<Marker, NoMemory>
    ensures ok { IfOk result (λ marker. marker ≡ marker_of markers.old) }
    ensures next { OnOk result (markers.new.next ≡ markers.old.next + 1) }
    ensures err { OnErr result (markers.new.next ≡ markers.old.next) }
    ensures event { markers.new.event ≡ markers.old.event }
{
    match markers.take() {
        Some(marker) => Ok(marker),
        None => Err(NoMemory),
    }
}

/// Two empty rows with the entries below the right one's low, and with those from it on, as flags tell.
fn filled(
    left: Row,
    right: Row,
    entries: &[(u64, NumHit)],
    flags: &[bool],
) -> Result<(Row, Row), NoMemory>
    requires rises { RisesAbove 0 entries.now }
    requires flags { flags.now ≡ flags_from right.low entries.now }
    requires left { left.list ≡ filled_list left.list.marker [] }
    requires right { right.list ≡ filled_list right.list.marker [] }
    requires knows_left { Knows left.spread left.list.entries }
    requires knows_right { Knows right.spread right.list.entries }
    ensures { IfOk result (λ h. AreFilled left right entries.now h.0 h.1) }
{
    let mut below = left;
    let mut above = right;
    let mut i = 0;
    'entries: for (id, hit) in entries {
        if flags[i] {
            above.push(*id, hit)?;
        } else {
            below.push(*id, hit)?;
        }
        i += 1;
    }
    Ok((below, above))
}
