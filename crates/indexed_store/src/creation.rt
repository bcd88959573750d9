//! An index that is created, or gets more fields, takes the documents that are there.
ghost use Rattle.std.specs.Prelude.{◌≡◌, ◌≤◌, ◌+◌, [], length, IfOk, OnOk};
ghost use Rattle.ft_machine.specs.Definitions.{failures_over};
ghost use Rattle.ft_meaning.specs.Member.{most_failures};
ghost use Rattle.hash_store.specs.Store.{reads_after};
ghost use Rattle.indexed_store.specs.Filling.{HasTaken};
ghost use Rattle.indexed_store.specs.Preparing.{HasNumber, IsMade, Stays};
ghost use Rattle.indexed_store.specs.Standing.{AreOfEvent, AreWritten, IndexStands, markers_at};

use crate::filling::fill;
use crate::held::IndexedStore;
use ft_base::{Boxed, IndexDef, NoMemory};
use ft_index::FtIndex;
use hash_store::HashStore;
use inverted_list::Markers;
use std::alloc::Global;

impl IndexedStore {
    /// An index of this event that has tried each document, and whose count of failures goes on from
    /// the one that is given.
    #[tactic(auto, using(crate::proofs::MovingLaws::moves_same))]
    pub fn index_over(&mut self, def: IndexDef, failures: u64) -> Result<Boxed<FtIndex>, NoMemory>
        requires number { HasNumber self.old }
        requires fields { length def.fields ≤ 1_024 }
        requires counted { failures ≤ most_failures }
        ensures made { IfOk result (λ index. IsMade def failures index self.old self.new) }
        ensures stays { Stays self.old self.new }
        ensures indexes { self.new.indexes ≡ self.old.indexes }
    {
        let number = self.next;
        self.next += 1;
        let index = index_over(self.alloc, &mut self.store, number, def, failures)?;
        Boxed::new(self.alloc, index)
    }
}

/// An index that has tried each document of the store, in an event with this number. Its lists are
/// its own, and its count of failures goes on from the one that is given.
pub fn index_over(
    alloc: Global,
    store: &mut HashStore,
    event: u64,
    def: IndexDef,
    failures: u64,
) -> Result<FtIndex, NoMemory>
    requires fields { length def.fields ≤ 1_024 }
    requires counted { failures ≤ most_failures }
    requires documents { AreWritten store.old.space event }
    ensures def { IfOk result (λ index. index.def ≡ def) }
    ensures failures { IfOk result (λ index.
        index.failures ≡ failures_over def store.old.space failures) }
    ensures stands { IfOk result (λ index.
        IndexStands store.new.space (event + 1) (markers_at (event + 1)) index) }
    ensures given { IfOk result (λ index. AreOfEvent event index) }
    ensures space { store.new.space ≡ store.old.space }
    ensures last { store.new.last ≡ store.old.last }
    ensures ready { store.new.ready ≡ store.old.ready }
    // Each document is read once.
    ensures reads { OnOk result (store.new.reads ≡ reads_after store.old.reads (length store.old.space)) }
{
    let mut markers = Markers { event, next: 0 };
    let mut index = FtIndex::new(alloc, def, &mut markers)?;
    index.count_from(failures);
    filled(index, store, markers)
}

/// A new index with the documents that are there, whose lists have markers of one event.
fn filled(
    mut index: FtIndex,
    store: &mut HashStore,
    mut markers: Markers,
) -> Result<FtIndex, NoMemory>
    requires documents { AreWritten store.old.space markers.event }
    requires none { HasTaken markers [] index }
    requires first { index.table.last ≡ 0 }
    ensures def { IfOk result (λ filled. filled.def ≡ index.def) }
    ensures failures { IfOk result (λ filled.
        filled.failures ≡ failures_over index.def store.old.space index.failures) }
    ensures stands { IfOk result (λ filled.
        IndexStands store.new.space (markers.event + 1) (markers_at (markers.event + 1)) filled) }
    ensures given { IfOk result (λ filled. AreOfEvent markers.event filled) }
    ensures same { store.new ≡ record store.old { reads = store.new.reads } }
    ensures reads { OnOk result (store.new.reads ≡ reads_after store.old.reads (length store.old.space)) }
{
    fill(&mut index, store, &mut markers)?;
    Ok(index)
}
