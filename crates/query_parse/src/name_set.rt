//! The names of attributes so far, so that a repeated one is found without a walk over them.
ghost use Rattle.std.specs.Prelude.{◌≡◌, ◌||◌, ℕ, List, OnOk, false};
ghost use Rattle.std.specs.Str.{bytes_eq};
ghost use Rattle.query_parse.specs.NameKeys.{holds};

use ft_base::NoMemory;
use std::alloc::Global;
use std::collections::HashSet;

/// Names, each once.
#[derive(Drop)]
pub struct NameSet {
    pub known: HashSet<Vec<u8>>,
}

/// No names, and no memory taken.
pub fn no_names(alloc: Global) -> NameSet
    ensures { (name : List ℕ) → holds result name ≡ false }
{
    NameSet {
        known: HashSet::new(alloc),
    }
}

/// Whether a name was added.
pub fn has_name(names: &NameSet, name: &[u8]) -> bool
    ensures { result ≡ holds names.now name.now }
{
    names.known.contains(name)
}

/// Adds a name.
pub fn add_name(alloc: Global, names: &mut NameSet, name: &[u8]) -> Result<(), NoMemory>
    ensures { OnOk result ((other : List ℕ)
        → holds names.new other ≡ (bytes_eq other name.now || holds names.old other)) }
{
    let name = Vec::from_slice(alloc, name)?;
    let _ = names.known.insert(name)?;
    Ok(())
}
