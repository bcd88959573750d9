//! Where an id stands among rows whose ids rise: behind all those with lower ids.
//!
//! A row has an id above that of the row before it. So a row stands no further from another than
//! their ids are apart: where no id is missing before it, or none behind it, its place is known at
//! once. Else the search looks first where it would stand if ids were missing evenly, and halves what
//! is left after a few steps.
ghost use Rattle.std.specs.Prelude.{◌≡◌, ◌<◌, ◌≤◌, ◌+◌, ◌-◌, length, min};
ghost use Rattle.id_rows.specs.IdRows.{Rise, place_id, IsPlace, IsSpan};

use crate::row::Row;
use ft_base::HasId;

// So many steps take ids to be missing evenly. The search halves after them, however ids are missing.
const EVEN_STEPS: u32 = 3;

// Two places with their ids, the first of which is below the id that is looked for and the second
// not.
#[derive(Clone, Copy)]
struct Span {
    below: usize,
    below_id: u64,
    above: usize,
    above_id: u64,
}

/// The id of the row at a place.
#[inline(always)]
pub fn id_at<T: HasId>(rows: &[Row<T>], place: usize) -> u64
    requires { place < length rows.now }
    ensures { result ≡ place_id T.id_of rows.now place }
{
    rows[place].id()
}

/// How many rows have lower ids.
pub fn place_of<T: HasId>(rows: &[Row<T>], id: u64) -> usize
    requires { Rise T.id_of 0 rows.now }
    ensures { IsPlace T.id_of id rows.now result }
{
    let count = rows.len();
    if count == 0 {
        return 0;
    }
    let first = id_at(rows, 0);
    if id <= first {
        return 0;
    }
    if id_at(rows, count - 1) < id {
        return count;
    }
    let ahead = (id - first).min(count as u64 - 1) as usize;
    let here = id_at(rows, ahead);
    if here == id {
        return ahead;
    }
    let span = Span {
        below: 0,
        below_id: first,
        above: ahead,
        above_id: here,
    };
    place_within(rows, id, span)
}

// How many rows have lower ids, where that is above one place and not above another.
#[inline(never)]
fn place_within<T: HasId>(rows: &[Row<T>], id: u64, span: Span) -> usize
    requires rises { Rise T.id_of 0 rows.now }
    requires span { IsSpan T.id_of id rows.now span.below span.below_id span.above span.above_id }
    ensures { IsPlace T.id_of id rows.now result }
{
    let mut span = span;
    let mut low = least_place(span, id);
    let mut high = most_place(span, id);
    let mut steps = 0;
    'narrowing: while low < high {
        let middle = probe(span, id, low, high, steps);
        let here = id_at(rows, middle);
        if here < id {
            span.below = middle;
            span.below_id = here;
        } else {
            span.above = middle;
            span.above_id = here;
        }
        low = least_place(span, id);
        high = most_place(span, id);
        steps = steps.saturating_add(1);
    }
    low
}

// The place, where no id is missing behind it; else it is above this one.
#[inline(always)]
fn least_place(span: Span, id: u64) -> usize
    requires order { span.below < span.above }
    requires most { id ≤ span.above_id }
    ensures { result ≡ span.above - min (span.above - span.below - 1) (span.above_id - id) }
{
    let between = span.above - span.below - 1;
    span.above - (between as u64).min(span.above_id - id) as usize
}

// The place, where no id is missing before it; else it is below this one.
#[inline(always)]
fn most_place(span: Span, id: u64) -> usize
    requires order { span.below < span.above }
    requires less { span.below_id < id }
    ensures { result ≡ span.below + min (span.above - span.below) (id - span.below_id) }
{
    let apart = span.above - span.below;
    span.below + (apart as u64).min(id - span.below_id) as usize
}

// The place to look at next: a few times as if ids were missing evenly, then as if none were missing
// behind it, and then the middle.
#[inline(always)]
fn probe(span: Span, id: u64, low: usize, high: usize, steps: u32) -> usize
    requires some { low < high }
    requires order { span.below < span.above }
    requires less { span.below_id < id }
    requires most { id ≤ span.above_id }
    ensures low { low ≤ result }
    ensures high { result < high }
{
    if steps == EVEN_STEPS {
        return low;
    }
    if steps > EVEN_STEPS {
        return low + (high - low) / 2;
    }
    let places = (span.above - span.below) as u64;
    let ahead = (id - span.below_id).saturating_mul(places) / (span.above_id - span.below_id);
    (span.below as u64)
        .saturating_add(ahead)
        .min(high as u64 - 1)
        .max(low as u64) as usize
}
