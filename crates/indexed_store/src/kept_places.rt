//! Where reads of cursors have come to in their lists, kept for the next reads of them.
use ft_base::ListOf;
use id_iters::Hints;
use std::alloc::Global;

/// The most cursors whose places are kept.
const MOST_KEPT: usize = 64;

/// The most places that are kept of a cursor. To look up more of them would take longer than to open the lists anew.
const MOST_PLACES: usize = 64;

/// Places in the lists of cursors, of those that were read last. A reader takes none of them on trust, so they may be of lists
/// that have changed since or are gone.
#[derive(Drop)]
pub struct KeptPlaces {
    alloc: Global,
    kept: Vec<Kept>,
}

#[derive(Drop)]
struct Kept {
    cursor: u64,
    hints: Hints,
}

impl KeptPlaces {
    /// None, and no memory taken.
    pub fn new(alloc: Global) -> KeptPlaces {
        KeptPlaces {
            alloc,
            kept: Vec::new(alloc),
        }
    }

    /// The places of a cursor; none where they were not kept. They are kept no longer.
    pub fn take(&mut self, cursor: u64) -> Hints {
        match self.kept.iter().position(|kept| kept.cursor == cursor) {
            Some(at) => {
                let Kept { cursor: _, hints } = self.kept.swap_remove(at);
                hints
            }
            None => Hints(ListOf::new(self.alloc)),
        }
    }

    /// Keeps the places of a cursor, if they are not too many. Those of the cursor that was read longest ago may go. Where
    /// memory runs out they are not kept.
    pub fn keep(&mut self, cursor: u64, hints: Hints) {
        let count = hints.0.len();
        if count == 0 || count > MOST_PLACES {
            drop(hints);
            return;
        }
        if self.kept.len() >= MOST_KEPT {
            drop(self.kept.remove(0));
        }
        let _ = self.kept.push(Kept { cursor, hints });
    }
}
