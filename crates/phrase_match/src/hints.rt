//! Where the looks before came to in the lists, so that the next search of a list goes on from there.
ghost use Rattle.std.specs.Prelude.{◌≡◌, true, slice_get};
ghost use Rattle.phrase_match.specs.Phrase.{rises};
ghost use Rattle.phrase_match.specs.Look.{from};

use crate::count::count_below;

/// So many words have a hint of their own, as nearly every phrase needs. Words so many apart share one.
const HINTS: usize = 32;

/// Of each word, how many places of its list the last search passed over.
///
/// A hint only saves time: what is found is the same with any hint. So no memory has to be asked for that would hold
/// one for every word.
#[derive(Drop)]
pub struct Hints {
    counts: [usize; HINTS],
}

impl Hints {
    pub fn new() -> Hints {
        Hints { counts: [0; HINTS] }
    }

    /// The place with this number, from 0, among those from `low` on in the list of a word.
    pub fn place_from(&mut self, word: usize, list: &[u32], low: u64, number: usize) -> Option<u32>
        requires { rises list.now ≡ true }
        ensures { result ≡ slice_get (from low list.now) number }
    {
        let hint = &mut self.counts[word % HINTS];
        let below = count_below(list, low, *hint);
        *hint = below;
        list[below..].get(number).copied()
    }
}
