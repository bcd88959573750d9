//! How many places of a rising list are below another: a search that goes on from where the last one came to.
ghost use Rattle.std.specs.Prelude.{◌≡◌, ◌<◌, ◌≤◌, ◌-◌, true, drop, length, slice_index};
ghost use Rattle.phrase_match.specs.Phrase.{rises};
ghost use Rattle.phrase_match.specs.Look.{from};

/// How many places are below `low`. The hint is a number of places that may be below it, and saves the search among
/// them; where it is no such number the search begins at the front.
pub fn count_below(list: &[u32], low: u64, hint: usize) -> usize
    requires { rises list.now ≡ true }
    ensures bound { result ≤ length list.now }
    ensures is { drop result list.now ≡ from low list.now }
{
    let start = passed(list, low, hint);
    start + count_near(&list[start..], low)
}

/// The hint, where the list has so many places and the last of them is below `low`; else none.
fn passed(list: &[u32], low: u64, hint: usize) -> usize
    ensures bound { result ≤ length list.now }
    ensures below { 0 < result → slice_index list.now (result - 1) < low }
{
    if 0 < hint && hint <= list.len() && u64::from(list[hint - 1]) < low {
        hint
    } else {
        0
    }
}

/// How many places are below `low`: the steps double until one goes too far, and the last is halved.
fn count_near(list: &[u32], low: u64) -> usize
    requires { rises list.now ≡ true }
    ensures bound { result ≤ length list.now }
    ensures is { drop result list.now ≡ from low list.now }
{
    let mut below = 0;
    let mut reach = 1;
    'doubling: while reach <= list.len() && u64::from(list[reach - 1]) < low {
        below = reach;
        reach *= 2;
    }
    let end = reach.min(list.len());
    below + list[below..end].partition_point(|place| u64::from(*place) < low)
}
