//! Where a range splits, and which of its entries go to the right.
ghost use Rattle.std.specs.Prelude.{◌≡◌, ◌<◌, slice_index_or, pos, ◌<ℤ◌, int_le, ℤ, List, count_by, length, IfOk, true};
ghost use Rattle.std.specs.List.{Contains};
ghost use Rattle.std.specs.List.Sorted.{IsSorted, IsPermutation};
ghost use Rattle.std.specs.Ordering.{int_cmp};
ghost use Rattle.numeric_ranges.specs.Rows.{AreNumbers, IsInside, flags_from};
ghost use Rattle.numeric_ranges.specs.Values.{values, are_mixed, cut_of, nth_value};

use ft_base::NoMemory;
use lane_kernels::in_range;
use posting_block::NumHit;
use std::alloc::Global;

/// Where entries are cut in two, and for each whether it goes to the right.
#[derive(Drop)]
pub(crate) struct Parts {
    pub(crate) cut: i64,
    pub(crate) flags: Vec<bool>,
}

/// How entries with two distinct values are cut in two.
pub(crate) fn parts_of(alloc: Global, entries: &[(u64, NumHit)]) -> Result<Parts, NoMemory>
    requires { are_mixed entries.now ≡ true }
    ensures value { IfOk result (λ parts. parts.cut ≡ cut_of (values entries.now)) }
    ensures fits { IfOk result (λ parts. IsInside parts.cut (values entries.now)) }
    ensures flags { IfOk result (λ parts. parts.flags.items ≡ flags_from parts.cut entries.now) }
{
    let cut = cut_of(alloc, entries)?;
    let flags = flags_from(alloc, entries, cut)?;
    Ok(Parts { cut, flags })
}

/// Where entries with two distinct values are cut.
fn cut_of(alloc: Global, entries: &[(u64, NumHit)]) -> Result<i64, NoMemory>
    requires { are_mixed entries.now ≡ true }
    ensures value { IfOk result (λ cut. cut ≡ cut_of (values entries.now)) }
    ensures fits { IfOk result (λ cut. IsInside cut (values entries.now)) }
{
    let mut rising = values_of(alloc, entries)?;
    rising.sort_unstable();
    Ok(middle(rising.as_slice()))
}

/// For each entry whether it goes to the right of a cut.
fn flags_from(alloc: Global, entries: &[(u64, NumHit)], cut: i64) -> Result<Vec<bool>, NoMemory>
    ensures { IfOk result (λ flags. flags.items ≡ flags_from cut entries.now) }
{
    let values = values_of(alloc, entries)?;
    let mut flags = vec![in alloc; false; values.len()]?;
    in_range(values.as_slice(), cut, i64::MAX, flags.as_mut_slice());
    Ok(flags)
}

/// The values of entries, in their order.
fn values_of(alloc: Global, entries: &[(u64, NumHit)]) -> Result<Vec<i64>, NoMemory>
    ensures values { IfOk result (λ copy. copy.items ≡ values entries.now) }
    ensures numbers { IfOk result (λ copy. AreNumbers copy.items) }
{
    let mut copy = Vec::new(alloc);
    'values: for (_, hit) in entries {
        copy.push(hit.value)?;
    }
    Ok(copy)
}

/// The median of rising values where it is above the smallest, else the least above the smallest.
fn middle(rising: &[i64]) -> i64
    requires sorted { IsSorted int_cmp rising.now }
    requires some { 0 < length rising.now }
    requires mixed { count_by (λ w. int_le w (slice_index_or rising.now 0 (pos 0))) rising.now
        < length rising.now }
    ensures value { (all : List ℤ) → IsPermutation all rising.now → result ≡ cut_of all }
    ensures member { Contains rising.now result }
    ensures above { slice_index_or rising.now 0 (pos 0) <ℤ result }
{
    let smallest = rising[0];
    let median = rising[rising.len() / 2];
    if smallest < median {
        return median;
    }
    first_above(rising, smallest)
}

/// The first of rising values above the smallest.
fn first_above(rising: &[i64], smallest: i64) -> i64
    requires sorted { IsSorted int_cmp rising.now }
    requires mixed { count_by (λ w. int_le w smallest) rising.now < length rising.now }
    ensures value { (all : List ℤ) → IsPermutation all rising.now
        → result ≡ nth_value (count_by (λ w. int_le w smallest) all) all }
    ensures member { Contains rising.now result }
    ensures above { smallest <ℤ result }
{
    'rising: for value in rising {
        if smallest < *value {
            return *value;
        }
    }
    smallest
}
