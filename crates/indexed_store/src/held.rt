//! The documents, the indexes over them and the cursors as one value, in which each index always stands for the documents.
//! Here it begins and changes; what is asked and prepared of one part stands with that part: `reading.rt` and `answering.rt`,
//! `index_list.rt` and `creation.rt`, `counting.rt`, `collecting.rt`, `repairing.rt`, `parting.rt`, `waiting.rt`.
ghost use Rattle.std.specs.Prelude.{◌≡◌, ◌≤◌, ◌<◌, ◌+◌, ℕ, false, length, IfOk};
ghost use Rattle.ft_meaning.specs.Meaning.{ValuesFit};
ghost use Rattle.indexed_store.specs.Changing.{changed, is_write};
ghost use Rattle.indexed_store.specs.Holding.{AllStand, HaveDistinctKeys, begun, nothing_held, state_of};
ghost use Rattle.indexed_store.specs.Listed.{KeepsLists};
ghost use Rattle.indexed_store.specs.Moving.{IndexesMove};
ghost use Rattle.indexed_store.specs.Preparing.{CanMake, HasNumber, Stays, WaitsFor};
ghost use Rattle.indexed_store.specs.declared.change.Change.TheVariants.{Nothing};

use crate::change::{Change, MOST_INDEXES};
use crate::counting::MOST_COUNTED;
use crate::kept_places::KeptPlaces;
use crate::making::make;
use crate::waiting::{CursorPlace, let_go};
use crate::writes::prepare_hash;
use cursor_book::CursorBook;
use ft_base::{HashRec, NoMemory};
use ft_index::FtIndex;
use hash_store::{HashStore, ReadyPut};
use std::alloc::Global;
use std::hash::RandomState;
use std::marker::Model;

/// The documents, the indexes over them and the cursors. Whoever takes hold of a part leaves each index standing for the
/// documents.
#[derive(Drop)]
pub struct IndexedStore {
    /// The allocator of all.
    pub alloc: Global,
    /// The documents.
    pub store: HashStore,
    /// The indexes, with room for as many as there may be.
    pub indexes: Vec<FtIndex>,
    /// The cursors, the one that waits among them.
    pub cursors: CursorBook,
    /// Where the cursor is that waits until it is opened.
    pub opens: Option<CursorPlace>,
    /// The latest moment of an event, in milliseconds.
    pub latest: u64,
    /// Room to count the keys that DEL finds.
    pub ids: Vec<u64>,
    /// A number above those of all documents, markers and cursors.
    pub next: u64,
    /// Where reads of cursors have come to. No contract sees them.
    pub places: KeptPlaces,
}

impl Model for IndexedStore {
    ghost use Rattle.std.specs.Prelude.{vec_capacity};
    ghost use Rattle.indexed_store.specs.Holding.{Holding, IsHolding, holding_code, holding_of};

    ghost Value = { Holding };

    ghost coded = { holding_code };

    ghost view = { λ s. holding_of s.store s.indexes.items s.cursors s.opens s.latest s.next };

    ghost invariant = { λ s. IsHolding s.store s.indexes.items s.cursors s.opens (vec_capacity s.indexes) (vec_capacity s.ids) s.next };
}

impl IndexedStore {
    /// Without documents, indexes and cursors, and with all the room that it needs for any change. Keys are found by hashes that
    /// `hashing` makes.
    pub fn new(alloc: Global, hashing: RandomState) -> Result<IndexedStore, NoMemory>
        ensures { IfOk result (λ held. held ≡ nothing_held) }
    {
        let indexes = Vec::with_capacity(alloc, MOST_INDEXES)?;
        let ids = Vec::with_capacity(alloc, MOST_COUNTED)?;
        Ok(IndexedStore {
            alloc,
            store: HashStore::new(alloc, hashing),
            indexes,
            cursors: CursorBook::new(alloc),
            opens: None,
            latest: 0,
            ids,
            next: 1,
            places: KeptPlaces::new(alloc),
        })
    }

    /// Tells that the keys of the documents differ, and that each index stands for the documents.
    pub fn stand(&self)
        ensures keys { HaveDistinctKeys self.now.space }
        ensures stand { (number : ℕ) → self.now.next ≤ number → AllStand number self.now }
    {
        let _count = self.store.len();
    }

    /// The event of this number begins at a moment, in milliseconds. A cursor that was prepared and never opened is gone, and
    /// so are those that are idle.
    pub fn begin(&mut self, number: u64, moment: u64)
        requires { self.old.next ≤ number }
        ensures { self.new ≡ begun number moment self.old }
    {
        let_go(&mut self.cursors, &mut self.opens);
        self.latest = self.latest.max(moment);
        self.cursors.drop_idle(self.latest);
        self.next = number;
    }

    /// Lets a key's new hash wait in this event. Out of memory, nothing is seen of it.
    pub fn prepare_hash(&mut self, key: &[u8], hash: HashRec) -> Result<ReadyPut, NoMemory>
        requires number { HasNumber self.old }
        requires filled { 0 < length hash }
        requires values { ValuesFit hash }
        ensures waits { IfOk result (λ put. WaitsFor key.now hash put self.old self.new) }
        ensures stays { Stays self.old self.new }
    {
        let number = self.next;
        self.next += 1;
        prepare_hash(
            &mut self.store,
            self.indexes.as_mut_slice(),
            self.alloc,
            number,
            key,
            hash,
        )
    }

    /// Makes a change of the event of this number. It takes no memory.
    #[tactic(auto, using(crate::proofs::MovingLaws::moves_same))]
    pub fn make(&mut self, number: u64, change: Change<'_>)
        requires { CanMake change number self.old }
        ensures state { state_of self.new ≡ changed change.entry self.old.waits self.old.opens (state_of self.old) }
        ensures next { self.new.next ≤ number + 1 }
        // Where no document and no definition changes, none is read.
        ensures quiet { is_write change.entry ≡ false → self.new.reads ≡ self.old.reads }
        ensures same { change.entry ≡ Nothing → self.new ≡ self.old }
        // Each index keeps its lists, unless it is made, altered or dropped.
        ensures lists { KeepsLists change.entry self.old.indexes self.new.indexes }
        // Each index was there and has only grown since, or is made in this event.
        ensures moves { IndexesMove number self.old.indexes self.new.indexes }
    {
        match change {
            Change::Nothing => {}
            Change::OpenCursor => self.opens = None,
            change => {
                let_go(&mut self.cursors, &mut self.opens);
                self.next = number + 1;
                make(
                    &mut self.store,
                    &mut self.indexes,
                    &mut self.cursors,
                    number,
                    self.latest,
                    change,
                );
            }
        }
    }
}
