//! The spellings of distinct values, where the values themselves aren't wanted.
ghost use Rattle.std.specs.Prelude.{◌≡◌, [], length, OnOk};
ghost use Rattle.std.specs.Str.{bytes_eq};
ghost use Rattle.agg_pipeline.specs.Equal.{spelled};
ghost use Rattle.agg_pipeline.specs.Keyed.{add_first};
ghost use Rattle.agg_pipeline.specs.Seen.{seen};

use crate::seen::Seen;
use crate::spelling::spell_seen;
use ft_base::NoMemory;
use indexmap::IndexSet;
use std::alloc::Global;
use std::marker::Model;

/// Spellings, no two alike, which a contract sees as their list.
#[derive(Drop)]
pub struct Spellings {
    known: IndexSet<Vec<u8>>,
}

impl Model for Spellings {
    ghost use Rattle.std.specs.Prelude.{List, ℕ};
    ghost use Rattle.agg_pipeline.specs.Spellings.{bytes_of};

    ghost Value = { List (List ℕ) };

    ghost view = { λ s. bytes_of s.known.keys };
}

impl Spellings {
    /// No spellings, and no memory taken.
    pub fn new(alloc: Global) -> Spellings
        ensures { result ≡ [] }
    {
        Spellings {
            known: IndexSet::new(alloc),
        }
    }

    /// The number of spellings.
    pub fn len(&self) -> usize
        ensures { result ≡ length self.now }
    {
        self.known.len()
    }

    /// Adds a value's spelling, where it is not there. What was in the room for it is gone.
    pub fn add(&mut self, value: Seen<'_>, room: &mut Vec<u8>) -> Result<(), NoMemory>
        ensures { OnOk result (self.new ≡ add_first bytes_eq self.old (spelled (seen value.entry))) }
    {
        room.clear();
        spell_seen(value, room)?;
        if self.known.contains(room.as_slice()) {
            return Ok(());
        }
        let spelling = Vec::from_slice(*self.known.allocator(), room.as_slice())?;
        self.known.insert(spelling)?;
        Ok(())
    }
}
