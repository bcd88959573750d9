//! How the lists of one index lose their dead entries, in an event of their own.
ghost use Rattle.std.specs.Prelude.{◌≡◌, ◌+◌, ℕ, OnOk};
ghost use Rattle.std.specs.List.{All};
ghost use Rattle.ft_index.specs.Index.{Index};
ghost use Rattle.ft_index.specs.Markers.{AreBefore};
ghost use Rattle.hash_store.specs.Store.{Store};
ghost use Rattle.indexed_store.specs.Collecting.{IsCleanAt};
ghost use Rattle.indexed_store.specs.DefinitionsOf.{definitions_of};
ghost use Rattle.indexed_store.specs.Listed.{OthersKeep};
ghost use Rattle.indexed_store.specs.Moving.{IndexesMove};
ghost use Rattle.indexed_store.specs.Preparing.{HasNumber, Stays};
ghost use Rattle.indexed_store.specs.Standing.{InStep, markers_at};

use crate::held::IndexedStore;
use crate::index_list::place_of;
use ft_base::NoMemory;
use ft_index::FtIndex;
use inverted_list::Markers;

impl IndexedStore {
    /// Takes the dead entries out of all lists of the index of a name, in this event. Out of memory, some lists still have
    /// theirs.
    pub fn collect(&mut self, name: &[u8]) -> Result<(), NoMemory>
        requires number { HasNumber self.old }
        ensures clean { OnOk result (IsCleanAt name.now self.new.indexes) }
        // The lists of the other indexes are as they were.
        ensures others { OthersKeep name.now self.old.indexes self.new.indexes }
        ensures stays { Stays self.old self.new }
    {
        let number = self.next;
        self.next += 1;
        collect_named(self.indexes.as_mut_slice(), number, name)
    }
}

/// The same over the indexes by themselves. Lists that change get markers of this event.
fn collect_named(indexes: &mut [FtIndex], event: u64, name: &[u8]) -> Result<(), NoMemory>
    requires before { All (λ (index : Index). AreBefore (markers_at event) index.lists) indexes.old }
    ensures clean { OnOk result (IsCleanAt name.now indexes.new) }
    ensures others { OthersKeep name.now indexes.old indexes.new }
    ensures definitions { definitions_of indexes.new ≡ definitions_of indexes.old }
    ensures kept { (store : Store) → InStep store indexes.old event → InStep store indexes.new (event + 1) }
    ensures moves { IndexesMove event indexes.old indexes.new }
{
    let Some(place) = place_of(indexes, name) else {
        return Ok(());
    };
    let mut markers = Markers { event, next: 0 };
    indexes[place].collect(&mut markers)
}
