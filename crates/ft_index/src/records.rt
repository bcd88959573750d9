//! How many entries the ranges of an index have.
ghost use Rattle.std.specs.Prelude.{◌≡◌, ◌≤◌, ◌^◌, IfNone, IfSome};
ghost use Rattle.ft_index.specs.Records.{entries_in_ranges, entries_in_slot};

use numeric_ranges::Ranges;

/// The number of entries of the ranges of all fields: none where it is no `u64`.
pub fn entries_in_ranges(ranges: &[Option<Ranges>]) -> Option<u64>
    ensures some { IfSome result (λ n. n ≡ entries_in_ranges ranges.now) }
    ensures none { IfNone result (2 ^ 64 ≤ entries_in_ranges ranges.now) }
{
    let mut total: u64 = 0;
    for slot in ranges {
        total = total.checked_add(entries_in_slot(slot)?)?;
    }
    Some(total)
}

/// The number of entries of one field's ranges, where it has ranges.
fn entries_in_slot(slot: &Option<Ranges>) -> Option<u64>
    ensures some { IfSome result (λ n. n ≡ entries_in_slot slot.now) }
    ensures none { IfNone result (2 ^ 64 ≤ entries_in_slot slot.now) }
{
    match slot {
        Some(rows) => rows.entries(),
        None => Some(0),
    }
}
