//! A look for places that rise in the words' order: of each word the first place behind that of the word before.
ghost use Rattle.std.specs.Prelude.{true};
ghost use Rattle.phrase_match.specs.Places.{AllRise};
ghost use Rattle.phrase_match.specs.Look.{Says};

use crate::hints::Hints;
use crate::look::{Look, earliest_start};
use crate::turns::Turns;

/// No choice that rises from `low` on has its words earlier than this one. So where the window of this one is too
/// wide for the first time, that of each such choice begins later.
pub fn look_in_order(words: &Turns, slop: Option<u32>, low: u32, hints: &mut Hints) -> Look
    requires { AllRise words.now }
    ensures { Says words.now slop true low result }
{
    let mut next = u64::from(low);
    'words: for i in 0..words.len() {
        let list = words.list(i);
        let Some(place) = hints.place_from(i, list, next, 0) else {
            return Look::Nowhere;
        };
        let start = earliest_start(place, i, slop);
        if low < start {
            return Look::Later(start);
        }
        next = u64::from(place) + 1;
    }
    Look::Fits
}
