//! Which numbers lie in an interval, four at a time.
ghost use Rattle.std.specs.Prelude.{◌≡◌, ◌+◌, ◌++◌, ◌≤◌, length, map, take, drop, ◌&&◌, int_le, ℤ, List, Bool, FitsSigned};
ghost use Rattle.std.specs.Int.{w64};
ghost use Rattle.std.specs.Simd.Lanes.{Each1, mask_l};

use std::simd::prelude::*;

/// Says of each value whether it is from `low` to `high`, both included. None is where `high` is below
/// `low`.
pub fn in_range(values: &[i64], low: i64, high: i64, out: &mut [bool])
    requires room { length values.now ≡ length out.old }
    ensures flags { out.new ≡ map (λ value. int_le low value && int_le value high) values.now }
{
    let mut i = 0;
    'lanes: while values.len() - i >= 4 {
        flag_four(values, low, high, out, i);
        i += 4;
    }
    last_in_range(values, low, high, out, i)
}

/// The same of the four values from a place on.
#[inline(always)]
fn flag_four(values: &[i64], low: i64, high: i64, out: &mut [bool], i: usize)
    requires room { length values.now ≡ length out.old }
    requires inside { i + 4 ≤ length values.now }
    ensures room { length out.new ≡ length out.old }
    ensures told { take (i + 4) out.new
        ≡ take i out.old ++ map (λ value. int_le low value && int_le value high) (take 4 (drop i values.now)) }
{
    let found = inside(four_from(values, i), low, high);
    out[i..i + 4].copy_from_slice(&flags_of(found));
}

/// The same a value at a time, for the fewer than four that are left from a place on.
fn last_in_range(values: &[i64], low: i64, high: i64, out: &mut [bool], from: usize)
    requires room { length values.now ≡ length out.old }
    requires inside { from ≤ length values.now }
    requires told { take from out.old
        ≡ map (λ value. int_le low value && int_le value high) (take from values.now) }
    ensures { out.new ≡ map (λ value. int_le low value && int_le value high) values.now }
{
    let mut i = from;
    'values: while i < values.len() {
        out[i] = low <= values[i] && values[i] <= high;
        i += 1;
    }
}

/// The four values from a place on.
#[inline(always)]
fn four_from(values: &[i64], i: usize) -> i64x4
    requires { i + 4 ≤ length values.now }
    ensures same { result ≡ take 4 (drop i values.now) }
    ensures fits { Each1 (FitsSigned w64) result }
{
    i64x4::from_array([values[i], values[i + 1], values[i + 2], values[i + 3]])
}

/// Which of four values lie in an interval: a bit each, the first one lowest.
#[inline(always)]
fn inside(values: i64x4, low: i64, high: i64) -> u64
    requires four { length values ≡ 4 }
    requires fits { Each1 (FitsSigned w64) values }
    ensures { result ≡ mask_l (map (λ value. int_le low value && int_le value high) values) }
{
    (values.simd_ge(i64x4::splat(low)) & values.simd_le(i64x4::splat(high))).to_bitmask()
}

/// Four bits as flags, the lowest one first.
#[inline(always)]
fn flags_of(bits: u64) -> [bool; 4]
    ensures { (flags : List Bool) → length flags ≡ 4 → bits ≡ mask_l flags → result ≡ flags }
{
    [bits & 1 != 0, bits & 2 != 0, bits & 4 != 0, bits & 8 != 0]
}
