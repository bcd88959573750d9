//! The search for a row among rows whose lows rise.
ghost use Rattle.std.specs.Prelude.{◌≡◌, ◌<◌, ◌≤◌, ◌+◌, length, None, IfSome, IfNone};
ghost use Rattle.numeric_ranges.specs.Ranges.{LowsRise, list_at};
ghost use Rattle.numeric_ranges.specs.Rows.{rows_of, reach, IsRowAt};

use crate::row::Row;

/// How many of the first rows begin at a value or below it.
pub(crate) fn reach(rows: &[Row], value: i64) -> usize
    requires rises { LowsRise (rows_of rows.now) }
    ensures reach { result ≡ reach value (rows_of rows.now) }
    ensures within { result ≤ length rows.now }
{
    let mut low = 0;
    let mut high = rows.len();
    'halving: while low < high {
        let middle = low + (high - low) / 2;
        if rows[middle].low <= value {
            low = middle + 1;
        } else {
            high = middle;
        }
    }
    low
}

/// The index of the row that begins at a low.
pub(crate) fn index_of(rows: &[Row], low: i64) -> Option<usize>
    requires rises { LowsRise (rows_of rows.now) }
    ensures some { IfSome result (λ at. IsRowAt at low (rows_of rows.now)) }
    ensures none { IfNone result (list_at (rows_of rows.now) low ≡ None) }
{
    let end = reach(rows, low);
    if end == 0 {
        return None;
    }
    let at = end - 1;
    if rows[at].low == low { Some(at) } else { None }
}
