//! How the lists of one index are pictured, and a repair is spliced into one of them, each in an event of its own.
ghost use Rattle.std.specs.Prelude.{◌≡◌, ◌≤◌, ◌<◌, ◌+◌, position, IfOk};
ghost use Rattle.std.specs.List.{All};
ghost use Rattle.ft_index.specs.Index.{Index};
ghost use Rattle.ft_index.specs.Markers.{AreBefore};
ghost use Rattle.ft_machine.specs.Step.{last_number};
ghost use Rattle.hash_store.specs.Store.{Store};
ghost use Rattle.indexed_store.specs.DefinitionsOf.{definitions_of};
ghost use Rattle.indexed_store.specs.Moving.{IndexesMove};
ghost use Rattle.indexed_store.specs.Named.{has_serial};
ghost use Rattle.indexed_store.specs.Repairing.{FitsSerial, IndexesThin, ScansNamed, SplicesSerial, splice_marker};
ghost use Rattle.indexed_store.specs.Standing.{InStep, markers_at};

use crate::held::IndexedStore;
use ft_base::NoMemory;
use ft_index::{AnyRepair, FtIndex, Snapshot};
use gc_splice::Spliced;
use id_iters::ListName;
use inverted_list::Marker;

impl IndexedStore {
    /// A picture of every list of the index of a name, and which ids are live there, at the number of an event. None exactly
    /// where there is no such index.
    pub fn scan(&self, name: &[u8], number: u64) -> Result<Option<Snapshot>, NoMemory>
        ensures taken { IfOk result (ScansNamed name.now self.now.indexes number) }
    {
        let Some(index) = self.index_named(name) else {
            return Ok(None);
        };
        let taken = index.scan(number)?;
        Ok(Some(taken))
    }

    /// Splices a repair into the list of a name in the index of a serial, in the event of this number. It takes no memory.
    pub fn splice(
        &mut self,
        number: u64,
        serial: u64,
        name: &ListName,
        repair: &mut AnyRepair,
    ) -> Spliced
        requires earlier { self.old.next ≤ number }
        requires number { number < last_number }
        requires fits { FitsSerial serial self.old.indexes name.now repair.old }
        ensures splices { SplicesSerial serial name.now repair.old (splice_marker number) self.old.indexes self.new.indexes result }
        // Nothing of it is seen.
        ensures still { self.new ≡ record self.old { indexes = self.new.indexes; next = number + 1 } }
        ensures definitions { definitions_of self.new.indexes ≡ definitions_of self.old.indexes }
        // Every live entry stays.
        ensures thin { IndexesThin self.old.indexes self.new.indexes }
        ensures moves { IndexesMove number self.old.indexes self.new.indexes }
    {
        self.next = number + 1;
        splice_serial(self.indexes.as_mut_slice(), number, serial, name, repair)
    }
}

/// The same over the indexes by themselves.
fn splice_serial(
    indexes: &mut [FtIndex],
    event: u64,
    serial: u64,
    name: &ListName,
    repair: &mut AnyRepair,
) -> Spliced
    requires before { All (λ (index : Index). AreBefore (markers_at event) index.lists) indexes.old }
    requires fits { FitsSerial serial indexes.old name.now repair.old }
    ensures splices { SplicesSerial serial name.now repair.old (splice_marker event) indexes.old indexes.new result }
    ensures definitions { definitions_of indexes.new ≡ definitions_of indexes.old }
    ensures thin { IndexesThin indexes.old indexes.new }
    ensures kept { (store : Store) → InStep store indexes.old event → InStep store indexes.new (event + 1) }
    ensures moves { IndexesMove event indexes.old indexes.new }
{
    let Some(place) = place_of_serial(indexes, serial) else {
        return Spliced::Gone;
    };
    indexes[place].splice(name, repair, Marker { event, nth: 0 })
}

/// The place of the index of a serial.
fn place_of_serial(indexes: &[FtIndex], serial: u64) -> Option<usize>
    ensures { result ≡ position (has_serial serial) indexes.now }
{
    indexes
        .iter()
        .position(|index| serial == index.def().serial)
}
