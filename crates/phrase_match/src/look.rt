//! What a look from a place on finds, and what both kinds of look read of the lists.
ghost use Rattle.std.specs.Prelude.{◌≡◌, ◌≤◌, length, take};
ghost use Rattle.phrase_match.specs.Look.{begins_with, earliest, twins};
ghost use Rattle.std.specs.List.{count_by};

use crate::turns::Turns;

/// What the places from one on say of a phrase.
pub enum Look {
    /// Some of them fit.
    Fits,
    /// None of them fit.
    Nowhere,
    /// Those that fit stand all from a later place on.
    Later(u32),
}

/// The least place from which a window reaches `place`, with so many other words between the two.
pub fn earliest_start(place: u32, others: usize, slop: Option<u32>) -> u32
    ensures { result ≡ earliest place others slop }
{
    match slop {
        None => 0,
        Some(slop) => u64::from(place)
            .saturating_sub(others as u64)
            .saturating_sub(u64::from(slop)) as u32,
    }
}

/// How many of the first words have a list that begins as this one does. Lists that share a place are equal, so these are
/// its equals.
pub fn twins(list: &[u32], words: &Turns, count: usize) -> usize
    requires { count ≤ length words.now }
    ensures { result ≡ twins list.now (take count words.now) }
{
    let Some(first) = list.first() else {
        return 0;
    };
    twins_from(*first, words, count)
}

// How many of the first words have a list that begins with a place.
fn twins_from(first: u32, words: &Turns, count: usize) -> usize
    requires { count ≤ length words.now }
    ensures { result ≡ count_by (begins_with first) (take count words.now) }
{
    let mut equals = 0;
    'words: for word in 0..count {
        if !begins_with(first, words.list(word)) {
            continue;
        }
        equals += 1;
    }
    equals
}

fn begins_with(place: u32, list: &[u32]) -> bool
    ensures { result ≡ begins_with place list.now }
{
    match list.first() {
        Some(first) => *first == place,
        None => false,
    }
}
