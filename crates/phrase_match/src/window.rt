//! The search for a window of places, from the first place on.
ghost use Rattle.std.specs.Prelude.{◌≡◌};
ghost use Rattle.phrase_match.specs.Phrase.{within};
ghost use Rattle.phrase_match.specs.Places.{AllRise, AllEqualOrApart};
ghost use Rattle.phrase_match.specs.Look.{Says};
ghost use Rattle.phrase_match.specs.Turns.{in_turn};

use crate::any_order::look_in_any_order;
use crate::hints::Hints;
use crate::look::Look;
use crate::order::look_in_order;
use crate::turns::{Turns, are_fewer};
use ft_base::ListOf;

/// Whether one place of each list can be chosen, all distinct, with at most `slop` places left over between the least
/// and the greatest, and rising in the order of the lists if `in_order`. It takes no memory.
pub fn within(places: &ListOf<ListOf<u32>>, slop: Option<u32>, in_order: bool) -> bool
    requires rising { AllRise places.now }
    requires apart { AllEqualOrApart places.now }
    ensures { result ≡ within places.now slop in_order }
{
    search(&Turns::of_each(places.as_slice()), slop, in_order)
}

/// The same of the lists of words, each told by its place in `order`, so that equal words share a list. Where the words are
/// more than all places, no list is searched.
pub fn within_in_turn(
    places: &ListOf<ListOf<u32>>,
    order: &[usize],
    slop: Option<u32>,
    in_order: bool,
) -> bool
    requires rising { AllRise places.now }
    requires apart { AllEqualOrApart places.now }
    ensures { result ≡ within (in_turn places.now order.now) slop in_order }
{
    if are_fewer(places.as_slice(), order.len()) {
        return false;
    }
    search(&Turns::of_places(places.as_slice(), order), slop, in_order)
}

// The search: a look that fails tells from which place on the next may begin, and the search of a list goes on from the last
// one.
fn search(words: &Turns, slop: Option<u32>, in_order: bool) -> bool
    requires rising { AllRise words.now }
    requires apart { AllEqualOrApart words.now }
    ensures { result ≡ within words.now slop in_order }
{
    let mut hints = Hints::new();
    let mut low = 0;
    'looking: loop {
        match look(words, slop, in_order, low, &mut hints) {
            Look::Fits => return true,
            Look::Nowhere => return false,
            Look::Later(start) => low = start,
        }
    }
}

fn look(words: &Turns, slop: Option<u32>, in_order: bool, low: u32, hints: &mut Hints) -> Look
    requires rising { AllRise words.now }
    requires apart { AllEqualOrApart words.now }
    ensures { Says words.now slop in_order low result }
{
    if in_order {
        look_in_order(words, slop, low, hints)
    } else {
        look_in_any_order(words, slop, low, hints)
    }
}
