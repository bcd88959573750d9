//! The aliases of an index's fields, so that a repeated one is found without a walk over the fields.
ghost use Rattle.std.specs.Prelude.{◌≡◌, false, [], ◌∷◌, ◌++◌, OnOk};
ghost use Rattle.std.specs.List.{list_any};
ghost use Rattle.std.specs.Str.{bytes_eq};

use ft_base::NoMemory;
use indexmap::IndexSet;
use std::alloc::Global;
use std::marker::Model;

/// Aliases, which a contract sees as a list in order of adding.
#[derive(Drop)]
pub struct AliasSet {
    known: IndexSet<Vec<u8>>,
}

impl Model for AliasSet {
    ghost use Rattle.std.specs.Prelude.{List, ℕ};

    ghost Value = { List (List ℕ) };

    ghost use Rattle.ft_schema.specs.AliasKeys.{aliases_of};

    ghost view = { λ s. aliases_of s.known.keys };
}

impl AliasSet {
    /// No aliases, and no memory taken.
    pub fn new(alloc: Global) -> AliasSet
        ensures { result ≡ [] }
    {
        AliasSet {
            known: IndexSet::new(alloc),
        }
    }

    /// Whether the alias was added.
    pub fn has(&self, alias: &[u8]) -> bool
        ensures { result ≡ list_any (bytes_eq alias.now) self.now }
    {
        self.known.contains(alias)
    }

    /// Adds an alias that is new.
    pub fn add(&mut self, alias: &[u8]) -> Result<(), NoMemory>
        requires new { list_any (bytes_eq alias.now) self.old ≡ false }
        ensures { OnOk result (self.new ≡ self.old ++ alias.now ∷ []) }
    {
        let name = Vec::from_slice(*self.known.allocator(), alias)?;
        self.known.insert(name)?;
        Ok(())
    }
}
