//! How a new index takes the documents that are there already.
ghost use Rattle.std.specs.Prelude.{◌≡◌, ◌<◌, ◌≤◌, ◌∷◌, [], length, OnOk};
ghost use Rattle.hash_store.specs.Store.{reads_after};
ghost use Rattle.indexed_store.specs.Filling.{HasTaken};
ghost use Rattle.indexed_store.specs.Standing.{AreOfEvent, AreWritten, IndexStands};
ghost use Rattle.ft_index.specs.Markers.{AreBefore};
ghost use Rattle.ft_index.specs.Index.{IsIndex, StandsBeside};
ghost use Rattle.ft_machine.specs.Definitions.{failures_over};
ghost use Rattle.ft_meaning.specs.Meaning.{ValuesFit};

use ft_base::{Doc, NoMemory};
use ft_index::FtIndex;
use hash_store::HashStore;
use inverted_list::Markers;

/// Puts each document into a new index, in order of ids.
pub fn fill(
    index: &mut FtIndex,
    store: &mut HashStore,
    markers: &mut Markers,
) -> Result<(), NoMemory>
    requires documents { AreWritten store.old.space markers.old.event }
    requires none { HasTaken markers.old [] index.old }
    requires first { index.old.table.last ≡ 0 }
    ensures stands { OnOk result (IndexStands store.new.space markers.new.event markers.new index.new) }
    ensures failures { OnOk result (index.new.failures
        ≡ failures_over index.old.def store.old.space index.old.failures) }
    ensures def { index.new.def ≡ index.old.def }
    ensures same { store.new ≡ record store.old { reads = store.new.reads } }
    // Each document is read once.
    ensures reads { OnOk result (store.new.reads ≡ reads_after store.old.reads (length store.old.space)) }
    ensures event { markers.new.event ≡ markers.old.event }
    ensures given { OnOk result (AreOfEvent markers.new.event index.new) }
{
    let read = store.read_all();
    let mut docs = store.walk(read);
    'filling: while let Some(doc) = docs.next() {
        put_doc(index, doc, markers)?;
    }
    Ok(())
}

/// Puts a document into the index, whose id is above all ids that the index has had.
fn put_doc(index: &mut FtIndex, doc: &Doc, markers: &mut Markers) -> Result<(), NoMemory>
    requires later { index.old.table.last < doc.now.id }
    requires values { ValuesFit doc.now.hash }
    requires before { AreBefore markers.old index.old.lists }
    requires given { AreOfEvent markers.old.event index.old }
    ensures stands { OnOk result (StandsBeside doc.now index.old index.new) }
    ensures failures { OnOk result (index.new.failures
        ≡ failures_over index.old.def (doc.now ∷ []) index.old.failures) }
    ensures last { OnOk result (index.new.table.last ≤ doc.now.id) }
    ensures def { index.new.def ≡ index.old.def }
    ensures sound { IsIndex index.new }
    ensures before { AreBefore markers.new index.new.lists }
    ensures event { markers.new.event ≡ markers.old.event }
    ensures given { AreOfEvent markers.old.event index.new }
{
    let ready = index.prepare(doc, markers)?;
    index.commit(ready);
    Ok(())
}
