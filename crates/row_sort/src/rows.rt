//! Rows with the values that they are ordered by, and their order.
ghost use Rattle.std.specs.Prelude.{◌≡◌, OnOk, OnErr, take};
ghost use Rattle.row_sort.specs.Order.{values_order, row_order};
ghost use Rattle.row_sort.specs.Sorting.{sorted};

use crate::order::{Direction, compare_seen};
use crate::seen::{Seen, later_values};
use ft_base::{ListOf, NoMemory, Value};
use std::cmp::Ordering;

/// Something, with the values that it is ordered by, one for each key. A value that is missing counts as Null.
#[derive(Drop)]
pub struct Ranked<T> {
    pub values: ListOf<Value>,
    pub item: T,
}

/// Puts rows in order by their values; those that tie keep their order. When out of memory, all stay as they are.
pub fn order_rows<T>(rows: &mut Vec<Ranked<T>>, by: &[Direction]) -> Result<(), NoMemory>
    ensures ok { OnOk result (rows.new.items ≡ sorted (row_order by.now) rows.old.items) }
    ensures err { OnErr result (rows.new.items ≡ rows.old.items) }
{
    rows.sort_by(|left, right| compare_rows(left, right, by))
}

/// Leaves the first `most` of them, in order. When out of memory, all stay as they are.
pub fn keep_first<T: Drop>(
    rows: &mut Vec<Ranked<T>>,
    by: &[Direction],
    most: usize,
) -> Result<(), NoMemory>
    ensures ok { OnOk result (rows.new.items ≡ take most (sorted (row_order by.now) rows.old.items)) }
    ensures err { OnErr result (rows.new.items ≡ rows.old.items) }
{
    order_rows(rows, by)?;
    rows.truncate(most);
    Ok(())
}

/// The order of two rows.
pub fn compare_rows<T>(left: &Ranked<T>, right: &Ranked<T>, by: &[Direction]) -> Ordering
    ensures { result ≡ row_order by.now left.now right.now }
{
    compare_values(left.values.as_slice(), right.values.as_slice(), by)
}

/// The order of two lists of values: the first key at which they differ decides.
pub fn compare_values(left: &[Value], right: &[Value], by: &[Direction]) -> Ordering
    ensures { result ≡ values_order by.now left.now right.now }
{
    let mut keys = by;
    let mut lefts = left;
    let mut rights = right;
    'keys: while let Some((key, later_keys)) = keys.split_first() {
        match compare_seen(Seen::of_first(lefts), Seen::of_first(rights), *key) {
            Ordering::Equal => {}
            decided => return decided,
        }
        keys = later_keys;
        lefts = later_values(lefts);
        rights = later_values(rights);
    }
    Ordering::Equal
}
