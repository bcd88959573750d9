//! Where an id stands among rows whose ids rise, for a reader that walks from id to id and knows the place before.
//!
//! The row is looked at first where the id stands if no id is missing at all: that waits for no row before it. Then a reader
//! mostly goes on to one of the next two rows. Else the row is looked at where the id stands if none is missing in between,
//! and then rows twice as far each time, of which only those that the last leap passed over are halved. A row that is far
//! away is searched for as by who knows no place.
ghost use Rattle.std.specs.Prelude.{◌<◌, ◌≤◌, ◌+◌, ◌-◌, ℕ, length};
ghost use Rattle.id_rows.specs.IdRows.{Rise, place_id, IsPlace};

use crate::places::{id_at, place_of};
use crate::row::Row;
use ft_base::HasId;

// So many rows are leaped over. To search among all rows costs less than to leap over more.
const FAR: usize = 16;

/// How many rows have lower ids. That is known at once where it is `near`, or one or two more.
#[inline(always)]
pub fn place_near<T: HasId>(rows: &[Row<T>], id: u64, near: usize) -> usize
    requires { Rise T.id_of 0 rows.now }
    ensures { IsPlace T.id_of id rows.now result }
{
    if near >= rows.len() {
        return place_of(rows, id);
    }
    let guess = unbroken_place(rows, id);
    if id_at(rows, guess) == id {
        return guess;
    }
    let here = id_at(rows, near);
    if here < id {
        return place_behind(rows, id, near);
    }
    if here == id {
        return near;
    }
    place_of(rows, id)
}

// Where an id stands if none is missing before it.
#[inline(always)]
fn unbroken_place<T: HasId>(rows: &[Row<T>], id: u64) -> usize
    requires { 0 < length rows.now }
    ensures { result < length rows.now }
{
    let last = rows.len() - 1;
    id.wrapping_sub(id_at(rows, 0)).min(last as u64) as usize
}

// How many rows have lower ids, where the row at `near` has one.
#[inline(always)]
fn place_behind<T: HasId>(rows: &[Row<T>], id: u64, near: usize) -> usize
    requires rises { Rise T.id_of 0 rows.now }
    requires near { near < length rows.now }
    requires less { place_id T.id_of rows.now near < id }
    ensures { IsPlace T.id_of id rows.now result }
{
    let count = rows.len();
    if near + 1 == count {
        return count;
    }
    if id <= id_at(rows, near + 1) {
        return near + 1;
    }
    if near + 2 == count {
        return count;
    }
    if id <= id_at(rows, near + 2) {
        return near + 2;
    }
    place_beyond(rows, id, near)
}

// The same, where it is further on.
#[inline(never)]
fn place_beyond<T: HasId>(rows: &[Row<T>], id: u64, near: usize) -> usize
    requires rises { Rise T.id_of 0 rows.now }
    requires next { near + 2 < length rows.now }
    requires less { place_id T.id_of rows.now (near + 2) < id }
    ensures { IsPlace T.id_of id rows.now result }
{
    let places = (rows.len() - 1 - near) as u64;
    let ahead = (id - id_at(rows, near)).min(places) as usize;
    if id_at(rows, near + ahead) == id {
        return near + ahead;
    }
    leap(rows, id, near)
}

// The same by leaps, unless it is far.
fn leap<T: HasId>(rows: &[Row<T>], id: u64, near: usize) -> usize
    requires rises { Rise T.id_of 0 rows.now }
    requires next { near + 2 < length rows.now }
    requires less { place_id T.id_of rows.now (near + 2) < id }
    ensures { IsPlace T.id_of id rows.now result }
{
    let mut known = near + 2;
    'leaps: while known - near < FAR && known - near < rows.len() - known {
        let far = known + (known - near);
        if id <= id_at(rows, far) {
            return halve(rows, id, known + 1, far);
        }
        known = far;
    }
    place_of(rows, id)
}

// The same by halving, where it is between two places.
fn halve<T: HasId>(rows: &[Row<T>], id: u64, from: usize, to: usize) -> usize
    requires rises { Rise T.id_of 0 rows.now }
    requires order { from ≤ to }
    requires end { to ≤ length rows.now }
    requires from { (k : ℕ) → k < from → place_id T.id_of rows.now k < id }
    requires to { (k : ℕ) → to ≤ k → k < length rows.now → id ≤ place_id T.id_of rows.now k }
    ensures { IsPlace T.id_of id rows.now result }
{
    let mut low = from;
    let mut high = to;
    'halving: while low < high {
        let middle = low + (high - low) / 2;
        if id_at(rows, middle) < id {
            low = middle + 1;
        } else {
            high = middle;
        }
    }
    low
}
