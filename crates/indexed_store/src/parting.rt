//! How the next part of an index's lists is pictured, in an event of its own.
ghost use Rattle.std.specs.Prelude.{◌≡◌, ◌≤◌, IfOk};
ghost use Rattle.std.specs.List.{All};
ghost use Rattle.ft_index.specs.Index.{Index};
ghost use Rattle.ft_index.specs.Markers.{AreBefore};
ghost use Rattle.ft_machine.specs.Step.{last_number, next_number};
ghost use Rattle.hash_store.specs.Store.{Store};
ghost use Rattle.indexed_store.specs.DefinitionsOf.{definitions_of};
ghost use Rattle.indexed_store.specs.Moving.{IndexesMove};
ghost use Rattle.indexed_store.specs.Parting.{ScansPart};
ghost use Rattle.indexed_store.specs.Repairing.{IndexesThin};
ghost use Rattle.indexed_store.specs.Standing.{InStep, markers_at};

use crate::held::IndexedStore;
use crate::index_list::place_of;
use ft_base::NoMemory;
use ft_index::{FtIndex, Snapshot};
use inverted_list::Markers;

/// The last number that an event can have.
const LAST_NUMBER: u64 = 4_611_686_018_427_387_904;

impl IndexedStore {
    /// Pictures of the next part of the lists of the index of a name, and which ids are live there, at the number of an event.
    /// None exactly where there is no such index. Lists that the part before passed over lose their dead entries, as many as
    /// there is memory for; at the last number nothing changes.
    pub fn scan_next(&mut self, name: &[u8], number: u64) -> Result<Option<Snapshot>, NoMemory>
        requires earlier { self.old.next ≤ number }
        requires number { number ≤ last_number }
        ensures taken { IfOk result (ScansPart name.now self.new.indexes number) }
        // Nothing of it is seen.
        ensures still { self.new ≡ record self.old { indexes = self.new.indexes; next = next_number number } }
        ensures definitions { definitions_of self.new.indexes ≡ definitions_of self.old.indexes }
        // Every live entry stays.
        ensures thin { IndexesThin self.old.indexes self.new.indexes }
        ensures last { last_number ≤ number → self.new.indexes ≡ self.old.indexes }
        ensures moves { IndexesMove number self.old.indexes self.new.indexes }
    {
        self.next = (number + 1).min(LAST_NUMBER);
        scan_part(self.indexes.as_mut_slice(), number, name)
    }
}

/// The same over the indexes by themselves. Lists that change get markers of this event.
fn scan_part(indexes: &mut [FtIndex], event: u64, name: &[u8]) -> Result<Option<Snapshot>, NoMemory>
    requires number { event ≤ last_number }
    requires before { All (λ (index : Index). AreBefore (markers_at event) index.lists) indexes.old }
    ensures taken { IfOk result (ScansPart name.now indexes.new event) }
    ensures definitions { definitions_of indexes.new ≡ definitions_of indexes.old }
    ensures thin { IndexesThin indexes.old indexes.new }
    ensures last { last_number ≤ event → indexes.new ≡ indexes.old }
    ensures kept { (store : Store) → InStep store indexes.old event → InStep store indexes.new (next_number event) }
    ensures moves { IndexesMove event indexes.old indexes.new }
{
    let Some(place) = place_of(indexes, name) else {
        return Ok(None);
    };
    let mut markers = Markers { event, next: 0 };
    let taken = indexes[place].scan_next(event, &mut markers)?;
    Ok(Some(taken))
}
