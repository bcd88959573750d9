//! Where the first item of each name stands in a list.
ghost use Rattle.std.specs.Prelude.{◌≡◌, [], OnOk};
ghost use Rattle.ft_base.specs.Named.{IsNoted, noted_at};

use crate::NoMemory;
use indexmap::IndexMap;
use std::alloc::Global;
use std::marker::Model;

/// Names, each with a place. A contract sees them as a list of pairs.
#[derive(Drop)]
pub struct Places {
    first: IndexMap<Vec<u8>, usize>,
}

impl Model for Places {
    ghost use Rattle.std.specs.Prelude.{List, ℕ, map};

    ghost Value = { List (List ℕ × ℕ) };

    ghost use Rattle.ft_base.specs.Named.{noted_of};

    ghost view = { λ p. map noted_of p.first.entries };
}

impl Places {
    /// No names, and no memory taken.
    pub fn new(alloc: Global) -> Places
        ensures { result ≡ [] }
    {
        Places {
            first: IndexMap::new(alloc),
        }
    }

    /// The place of a name.
    pub fn get(&self, name: &[u8]) -> Option<usize>
        ensures { result ≡ noted_at self.now name.now }
    {
        self.first.get(name).copied()
    }

    /// Notes the place of a name, unless one is noted.
    pub fn note(&mut self, name: &[u8], place: usize) -> Result<(), NoMemory>
        ensures { OnOk result (IsNoted name.now place self.old self.new) }
    {
        if self.first.contains_key(name) {
            return Ok(());
        }
        let name = Vec::from_slice(*self.first.allocator(), name)?;
        self.first.insert(name, place)?;
        Ok(())
    }
}
