//! Ids that a reader has read ahead.
ghost use Rattle.std.specs.Prelude.{◌≡◌, [], OnOk};
ghost use Rattle.id_iters.specs.Ahead.{first_of, ids_from, live_from, wanted_ids};

use crate::hit_test::HitTest;
use crate::lists::Lists;
use crate::reading::read_ids;
use ft_base::NoMemory;
use posting_block::{Block, Payload};
use std::alloc::Global;
use std::marker::Model;

/// The ids of a block that a reader stands in, and how many of them it has given out.
#[derive(Drop)]
pub struct ReadAhead {
    ids: Vec<u64>,
    at: usize,
}

impl Model for ReadAhead {
    ghost use Rattle.std.specs.Prelude.{◌≤◌, ℕ, List, drop, length};

    ghost Value = { List ℕ };

    ghost view = { λ w. drop w.at w.ids.items };

    ghost invariant = { λ w. w.at ≤ length w.ids.items };
}

impl ReadAhead {
    /// No ids, and no memory taken.
    pub(crate) fn new(alloc: Global) -> ReadAhead
        ensures { result ≡ [] }
    {
        ReadAhead {
            ids: Vec::new(alloc),
            at: 0,
        }
    }

    /// Gives the ids up, and their memory back.
    pub(crate) fn forget(&mut self)
        ensures { self.new ≡ [] }
    {
        let alloc = *self.ids.allocator();
        self.ids = Vec::new(alloc);
        self.at = 0;
    }

    /// The first id from `from` on that lives. It stays, and those before it go.
    #[inline(always)]
    pub(crate) fn next_live<T: Lists>(&mut self, lists: &T, from: u64) -> Option<u64>
        ensures rest { self.new ≡ live_from (T.held lists.now).live from self.old }
        ensures first { result ≡ first_of self.new }
    {
        'ids: while self.at < self.ids.len() {
            let id = self.ids[self.at];
            if from <= id && lists.is_live(id) {
                return Some(id);
            }
            self.at += 1;
        }
        None
    }

    /// Takes the ids of a block from `from` on whose hit is wanted, and maybe some before them. What was there goes.
    pub(crate) fn fill<P: Payload, H: HitTest<P>>(
        &mut self,
        block: &Block<P>,
        test: &H,
        from: u64,
    ) -> Result<(), NoMemory>
        ensures { OnOk result (ids_from from self.new ≡ wanted_ids (H.wants test.now) from block.now) }
    {
        self.at = 0;
        read_ids(block, test, from, &mut self.ids)
    }
}
