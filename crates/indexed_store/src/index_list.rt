//! The list of indexes, in order of creation, and the index of a name.
ghost use Rattle.std.specs.Prelude.{◌≡◌, ◌<◌, ◌≤◌, ◌++◌, ◌∷◌, ℕ, [], length, position, set, vec_capacity};
ghost use Rattle.std.specs.List.{All, find};
ghost use Rattle.std.specs.Option.{option_copied};
ghost use Rattle.hash_store.specs.Store.{Store};
ghost use Rattle.ft_machine.specs.Definitions.{with_index};
ghost use Rattle.indexed_store.specs.DefinitionsOf.{defined, definitions_of};
ghost use Rattle.ft_index.specs.Coming.{IsFresh};
ghost use Rattle.indexed_store.specs.Listed.{OthersKeep};
ghost use Rattle.indexed_store.specs.Moving.{IndexesMove};
ghost use Rattle.indexed_store.specs.Named.{is_named, without_named};
ghost use Rattle.indexed_store.specs.Standing.{AreApart, IndexStands, InStep, markers_at};

use crate::held::IndexedStore;
use ft_index::FtIndex;

impl IndexedStore {
    /// The index of a name.
    pub fn index_named(&self, name: &[u8]) -> Option<&FtIndex>
        ensures { option_copied result ≡ find (is_named name.now) self.now.indexes }
    {
        index_named(self.indexes.as_slice(), name)
    }

    /// How many indexes there are.
    pub fn index_count(&self) -> usize
        ensures { result ≡ length self.now.indexes }
    {
        self.indexes.len()
    }
}

/// The index of a name.
pub fn index_named<'a>(indexes: &'a [FtIndex], name: &[u8]) -> Option<&'a FtIndex>
    ensures { option_copied result ≡ find (is_named name.now) indexes.now }
{
    indexes
        .iter()
        .find(|index| name == index.def().name.as_slice())
}

/// A new index goes last, for which there is room.
pub fn push_index(indexes: &mut Vec<FtIndex>, index: FtIndex)
    requires { length indexes.old.items < vec_capacity indexes.old }
    ensures items { indexes.new.items ≡ indexes.old.items ++ index ∷ [] }
    ensures capacity { vec_capacity indexes.old ≤ vec_capacity indexes.new }
{
    let Ok(()) = indexes.push(index) else {
        unreachable!()
    };
}

/// An index takes the place of the one of its name, if there is one.
pub fn replace_index(indexes: &mut [FtIndex], index: FtIndex)
    ensures definitions { definitions_of indexes.new
        ≡ with_index (definitions_of indexes.old) (defined index) }
    ensures lists { OthersKeep index.def.name indexes.old indexes.new }
    ensures kept { (store : Store) (next : ℕ) → IndexStands store.space next (markers_at next) index
        → All (AreApart index) indexes.old → InStep store indexes.old next → InStep store indexes.new next }
    ensures moves { (event : ℕ) → IsFresh event index → IndexesMove event indexes.old indexes.new }
{
    if let Some(place) = place_of(indexes, index.def().name.as_slice()) {
        put(indexes, place, index);
    }
}

fn put(indexes: &mut [FtIndex], place: usize, index: FtIndex)
    requires { place < length indexes.old }
    ensures { indexes.new ≡ set indexes.old place index }
{
    indexes[place] = index;
}

/// Takes the index of a name out.
pub fn take_index(indexes: &mut Vec<FtIndex>, name: &[u8]) -> Option<FtIndex>
    ensures taken { result ≡ find (is_named name.now) indexes.old.items }
    ensures others { indexes.new.items ≡ without_named indexes.old.items name.now }
    ensures capacity { vec_capacity indexes.old ≤ vec_capacity indexes.new }
{
    let place = place_of(indexes.as_slice(), name)?;
    Some(indexes.remove(place))
}

/// The place of the index of a name.
pub fn place_of(indexes: &[FtIndex], name: &[u8]) -> Option<usize>
    ensures { result ≡ position (is_named name.now) indexes.now }
{
    indexes
        .iter()
        .position(|index| name == index.def().name.as_slice())
}
