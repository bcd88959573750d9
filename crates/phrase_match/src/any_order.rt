//! A look for places in any order: of each word the first place that its equals before it leave over.
ghost use Rattle.std.specs.Prelude.{false};
ghost use Rattle.phrase_match.specs.Places.{AllRise, AllEqualOrApart};
ghost use Rattle.phrase_match.specs.Look.{Says};

use crate::hints::Hints;
use crate::look::{Look, earliest_start, twins};
use crate::turns::Turns;

/// A choice from `low` on has for equal words as many places as there are of them, so it reaches the place that is
/// taken here, or one behind it. The last words come first, since of equal words the last has the furthest place.
pub fn look_in_any_order(words: &Turns, slop: Option<u32>, low: u32, hints: &mut Hints) -> Look
    requires rising { AllRise words.now }
    requires apart { AllEqualOrApart words.now }
    ensures { Says words.now slop false low result }
{
    let mut left = words.len();
    'words: while 0 < left {
        left -= 1;
        let list = words.list(left);
        let number = twins(list, words, left);
        let Some(place) = hints.place_from(left, list, u64::from(low), number) else {
            return Look::Nowhere;
        };
        let start = earliest_start(place, words.len() - 1, slop);
        if low < start {
            return Look::Later(start);
        }
    }
    Look::Fits
}
