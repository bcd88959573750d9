//! How a repair is spliced into the list of its name.
ghost use Rattle.std.specs.Prelude.{◌≡◌, ◌≢◌, ℕ, Bool, IfNone, IfSome};
ghost use Rattle.gc_splice.specs.declared.splice.Spliced.TheVariants.{Gone};
ghost use Rattle.ft_index.specs.Lists.{list_from, rows_of};
ghost use Rattle.ft_index.specs.Splicing.{FitsList, SplicesSlot};

use gc_splice::{Repair, Spliced};
use inverted_list::Marker;
use numeric_ranges::Ranges;
use posting_block::NumHit;

/// Splices a repair into the range of a field that begins at a low.
pub fn splice_range(
    ranges: &mut [Option<Ranges>],
    field: u16,
    low: i64,
    repair: &mut Repair<NumHit>,
    marker: Marker,
) -> Spliced
    requires { (live : ℕ → Bool) × FitsList live repair.old (list_from (rows_of ranges.old field) low) }
    ensures others { (other : ℕ) → other ≢ field → rows_of ranges.new other ≡ rows_of ranges.old other }
    ensures gone { IfNone (list_from (rows_of ranges.old field) low)
        ((result ≡ Gone) × (rows_of ranges.new field ≡ rows_of ranges.old field)) }
    ensures there { IfSome (list_from (rows_of ranges.old field) low) (λ l.
        SplicesSlot low repair.old marker l (rows_of ranges.old field) (rows_of ranges.new field) result) }
{
    let number = usize::from(field);
    if ranges.len() <= number {
        return Spliced::Gone;
    }
    splice_slot(&mut ranges[number], low, repair, marker)
}

fn splice_slot(
    slot: &mut Option<Ranges>,
    low: i64,
    repair: &mut Repair<NumHit>,
    marker: Marker,
) -> Spliced
    requires { (live : ℕ → Bool) × FitsList live repair.old (list_from slot.old low) }
    ensures gone { IfNone (list_from slot.old low) ((result ≡ Gone) × (slot.new ≡ slot.old)) }
    ensures there { IfSome (list_from slot.old low) (λ l. SplicesSlot low repair.old marker l slot.old slot.new result) }
{
    match slot {
        Some(rows) => rows.splice(low, repair, marker),
        None => Spliced::Gone,
    }
}
