//! How a document is written: it waits in the store and in each index until a commit lets it take its
//! key's old one's place everywhere at once, which wants no memory.
ghost use Rattle.std.specs.Prelude.{◌≡◌, ◌<◌, ◌+◌, ◌-◌, List, Some, length, IfOk, OnOk};
ghost use Rattle.ft_base.specs.Docs.{Doc};
ghost use Rattle.ft_base.specs.Space.{erase};
ghost use Rattle.indexed_store.specs.Writing.{Waits, written};
ghost use Rattle.indexed_store.specs.Listed.{EntersDoc, KeepLists};
ghost use Rattle.indexed_store.specs.Moving.{IndexesMove};
ghost use Rattle.indexed_store.specs.Standing.{AreWritten, InStep};
ghost use Rattle.ft_machine.specs.Definitions.{all_tried};
ghost use Rattle.indexed_store.specs.DefinitionsOf.{definitions_of};
ghost use Rattle.ft_meaning.specs.Meaning.{ValuesFit};

use crate::indexes::{commit_all, prepare_all};
use crate::removals::remove;
use ft_base::{Doc, HashRec, NoMemory};
use ft_index::FtIndex;
use hash_store::{HashStore, ReadyPut};
use inverted_list::Markers;
use std::alloc::Global;

/// Lets a document wait in the store and in each index. Out of memory, nothing is seen of
/// it.
fn prepare_write(
    store: &mut HashStore,
    indexes: &mut [FtIndex],
    doc: Doc,
) -> Result<ReadyPut, NoMemory>
    ghost space: { List Doc }
    requires space { store.old.space ≡ space }
    requires filled { 0 < length doc.hash }
    requires values { ValuesFit doc.hash }
    requires kept { InStep store.old indexes.old doc.id }
    ensures ready { OnOk result (store.new.ready ≡ Some doc) }
    ensures waits { IfOk result (λ put. Waits put doc.id store.new.space indexes.new store.new.ready) }
    ensures enters { OnOk result (EntersDoc doc indexes.old indexes.new) }
    ensures space { store.new.space ≡ store.old.space }
    ensures kept { InStep store.new indexes.new (doc.id + 1) }
    ensures definitions { definitions_of indexes.new ≡ definitions_of indexes.old }
    ensures moves { IndexesMove doc.id indexes.old indexes.new }
{
    let mut markers = Markers {
        event: doc.id(),
        next: 0,
    };
    prepare_all(indexes, &doc, &mut markers)?;
    let put = store.prepare_put(doc)?;
    Ok(put)
}

/// The document that waits takes the place of its key's old one, in the store and in each index. It
/// takes no memory.
pub fn settle(store: &mut HashStore, indexes: &mut [FtIndex], number: u64, put: ReadyPut)
    requires documents { AreWritten store.old.space number }
    requires kept { InStep store.old indexes.old (number + 1) }
    requires waits { Waits put number store.old.space indexes.old store.old.ready }
    ensures space { store.new.space ≡ written store.old.ready store.old.space }
    ensures kept { InStep store.new indexes.new (number + 1) }
    ensures definitions { definitions_of indexes.new
        ≡ all_tried store.old.ready (definitions_of indexes.old) }
    ensures lists { KeepLists indexes.old indexes.new }
    ensures moves { IndexesMove number indexes.old indexes.new }
{
    let replaced = store.commit_put(put);
    commit_all(indexes, replaced);
}

/// The same, and then the document of another key is gone.
pub fn settle_moved(
    store: &mut HashStore,
    indexes: &mut [FtIndex],
    number: u64,
    put: ReadyPut,
    from: &[u8],
)
    requires documents { AreWritten store.old.space number }
    requires kept { InStep store.old indexes.old (number + 1) }
    requires waits { Waits put number store.old.space indexes.old store.old.ready }
    ensures space { store.new.space ≡ erase (written store.old.ready store.old.space) from.now }
    ensures kept { InStep store.new indexes.new (number + 1) }
    ensures definitions { definitions_of indexes.new ≡ all_tried store.old.ready (definitions_of indexes.old) }
    ensures lists { KeepLists indexes.old indexes.new }
    ensures moves { IndexesMove number indexes.old indexes.new }
{
    settle(store, indexes, number, put);
    remove(store, indexes, from);
}

/// Lets a key's new hash wait, under a new id.
#[tactic(auto, using(crate::proofs::MovingLaws::moves_same))]
pub fn prepare_hash(
    store: &mut HashStore,
    indexes: &mut [FtIndex],
    alloc: Global,
    id: u64,
    key: &[u8],
    hash: HashRec,
) -> Result<ReadyPut, NoMemory>
    requires filled { 0 < length hash }
    requires values { ValuesFit hash }
    requires kept { InStep store.old indexes.old id }
    ensures ready { OnOk result (store.new.ready ≡ Some (record { id = id; key = key.now; hash = hash })) }
    ensures waits { IfOk result (λ put. Waits put id store.new.space indexes.new store.new.ready) }
    ensures enters { OnOk result (EntersDoc (record { id = id; key = key.now; hash = hash }) indexes.old indexes.new) }
    ensures space { store.new.space ≡ store.old.space }
    ensures kept { InStep store.new indexes.new (id + 1) }
    ensures definitions { definitions_of indexes.new ≡ definitions_of indexes.old }
    ensures moves { IndexesMove id indexes.old indexes.new }
{
    let doc = Doc::new(alloc, id, key, hash)?;
    prepare_write(store, indexes, doc)
}
