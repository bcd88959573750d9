//! The documents in two places, each of which shares them: in a set by their keys, and in rows by their ids, of which the last
//! may wait to be committed.
ghost use Rattle.std.specs.Prelude.{◌≡◌, ◌<◌, ℕ, [], None, Some, All, length, find, nat_eq, IfOk, IfSome, OnOk, OnErr, option_copied, option_map};
ghost use Rattle.std.specs.HashSet.{spare};
ghost use Rattle.std.specs.Borrow.{sem};
ghost use Rattle.ft_base.specs.Space.{doc_of, write, erase};
ghost use Rattle.hash_store.specs.Erasing.{erase_id};
ghost use Rattle.hash_store.specs.Rows.{IsStore, store_of};
ghost use Rattle.hash_store.specs.Store.{Store, IdsRise, KeysDiffer, after_read, after_reads};

use crate::by_id::{drop_row, drop_waiting, live_doc, push_shared};
use crate::by_key::ByKey;
use crate::walk::{AllRead, DocWalk};
use ft_base::{Doc, NoMemory};
use id_rows::IdRows;
use std::alloc::Global;
use std::collections::HashSet;
use std::hash::RandomState;
use std::marker::Model;

/// The documents, each found by its key and by its id, and one that was prepared.
#[derive(Drop)]
pub struct HashStore {
    alloc: Global,
    hashing: RandomState,
    keys: HashSet<ByKey, RandomState>,
    docs: IdRows<Doc>,
    // The document of the row that still waits to be committed.
    pending: Option<ByKey>,
    last: u64,
    reads: u64,
}

impl Model for HashStore {
    ghost Value = { Store };

    ghost view = { λ s. store_of s.pending s.last s.reads s.docs };

    ghost invariant = { λ s. IsStore s.pending s.last s.docs s.keys.keys (spare s.keys) };
}

/// That a document is ready in the store that made this. A contract sees the document's id.
#[derive(Drop)]
pub struct ReadyPut {
    id: u64,
}

impl Model for ReadyPut {
    ghost Value = { ℕ };

    ghost view = { λ put. put.id };
}

impl HashStore {
    ghost use Rattle.hash_store.specs.Reading.{EndsAs};

    /// A store without documents, and no memory taken. Keys are found by hashes that `hashing` makes, so that no client can choose
    /// names that collide.
    pub fn new(alloc: Global, hashing: RandomState) -> HashStore
        ensures { result ≡ record { space = []; reads = 0; ready = None; last = 0 } }
    {
        HashStore {
            alloc,
            hashing,
            keys: HashSet::with_hasher(alloc, hashing),
            docs: IdRows::new(alloc),
            pending: None,
            last: 0,
            reads: 0,
        }
    }

    /// The document of a key.
    pub fn get(&mut self, key: &[u8]) -> Option<&Doc>
        ensures* counts { sem 𝓛 (EndsAs self.entry (after_read (doc_of self.old.space key.now) self.old)) }
        ensures found { option_copied result ≡ doc_of self.old.space key.now }
    {
        let found = self.keys.get(key)?;
        self.reads = self.reads.saturating_add(1);
        Some(found.doc())
    }

    /// The document of an id, which the reader may share.
    pub fn get_by_id(&mut self, id: u64) -> Option<&Doc>
        ensures* counts { sem 𝓛 (EndsAs self.entry (after_read (find (λ doc. nat_eq id doc.id) self.old.space) self.old)) }
        ensures found { option_copied result ≡ find (λ doc. nat_eq id doc.id) self.old.space }
    {
        let doc = live_doc(&self.docs, &self.pending, id)?;
        self.reads = self.reads.saturating_add(1);
        Some(doc)
    }

    /// The id of the key's document, which is not read.
    pub fn has(&self, key: &[u8]) -> Option<u64>
        ensures { result ≡ option_map (λ doc. doc.id) (doc_of self.now.space key.now) }
    {
        Some(self.keys.get(key)?.doc().id())
    }

    /// The key of the document of an id. The document is not read.
    pub fn key_of(&self, id: u64) -> Option<&[u8]>
        ensures { option_copied result ≡ option_map (λ doc. doc.key) (find (λ doc. nat_eq id doc.id) self.now.space) }
    {
        Some(live_doc(&self.docs, &self.pending, id)?.key())
    }

    /// The number of documents.
    pub fn len(&self) -> usize
        ensures len { result ≡ length self.now.space }
        ensures rises { IdsRise self.now.space }
        ensures distinct { KeysDiffer self.now.space }
        ensures filled { All (λ doc. 0 < length doc.hash) self.now.space }
    {
        self.docs.len() - usize::from(self.pending.is_some())
    }

    /// How many documents were handed out.
    pub fn reads(&self) -> u64
        ensures { result ≡ self.now.reads }
    {
        self.reads
    }

    /// Counts all documents as handed out, so that a walk over them may begin.
    pub fn read_all(&mut self) -> AllRead
        ensures counts { self.new ≡ after_reads (length self.old.space) self.old }
        ensures all { result ≡ length self.old.space }
    {
        let count = self.len();
        self.reads = self.reads.saturating_add(count as u64);
        AllRead::of(count)
    }

    /// All documents, in order of their ids, once they were counted.
    pub fn walk(&self, read: AllRead) -> DocWalk<'_>
        requires all { read ≡ length self.now.space }
        ensures { result ≡ self.now.space }
    {
        DocWalk::over(&self.docs, read)
    }

    /// Makes room for a document, which nothing shows yet. One that was prepared before and never
    /// committed is gone.
    pub fn prepare_put(&mut self, doc: Doc) -> Result<ReadyPut, NoMemory>
        requires rising { self.old.last < doc.id }
        requires filled { 0 < length doc.hash }
        ensures ok { OnOk result (self.new ≡ record self.old { ready = Some doc; last = doc.id }) }
        ensures put { IfOk result (λ put. put ≡ doc.id) }
        ensures err { OnErr result (self.new ≡ self.old) }
    {
        let id = doc.id();
        self.keys.reserve(1)?;
        let waiting = push_shared(&mut self.docs, doc)?;
        // What was abandoned goes only now, so that out of memory all stays as it was.
        drop_waiting(&mut self.docs, &self.pending);
        self.pending = Some(waiting);
        self.last = id;
        Ok(ReadyPut { id })
    }

    /// Writes the document that was prepared last, and answers the id of the one that it replaced.
    /// It takes no memory.
    pub fn commit_put(&mut self, ready: ReadyPut) -> Option<u64>
        requires last_prepared { option_map (λ doc. doc.id) self.old.ready ≡ Some ready }
        ensures replaced { IfSome self.old.ready
            (λ doc. result ≡ option_map (λ old. old.id) (doc_of self.old.space doc.key)) }
        ensures written { IfSome self.old.ready
            (λ doc. self.new ≡ record self.old { space = write self.old.space doc.key doc.hash doc.id; ready = None }) }
    {
        let doc = self.pending.take()?;
        // Room for the key was taken when the document was prepared.
        let Ok(replaced) = self.keys.replace(doc) else {
            unreachable!();
        };
        let old = replaced?.doc().id();
        drop_row(&mut self.docs, old);
        Some(old)
    }

    /// Takes the key's document out, and answers its id. One that is prepared stays so. It takes no
    /// memory.
    pub fn erase(&mut self, key: &[u8]) -> Option<u64>
        ensures was { result ≡ option_map (λ doc. doc.id) (doc_of self.old.space key.now) }
        ensures gone { self.new ≡ record self.old { space = erase self.old.space key.now } }
    {
        let id = self.keys.take(key)?.doc().id();
        drop_row(&mut self.docs, id);
        Some(id)
    }

    /// Takes the document of an id out, where it is there, as `erase` does by its key. One that is prepared stays so. It takes no
    /// memory.
    pub fn erase_id(&mut self, id: u64)
        ensures { self.new ≡ record self.old { space = erase_id self.old.space id } }
    {
        if let Some(doc) = live_doc(&self.docs, &self.pending, id) {
            self.keys.remove(doc.key());
            drop_row(&mut self.docs, id);
        }
    }

    /// Takes all documents out, and one that is prepared, and gives their memory back. It takes none.
    pub fn clear(&mut self)
        ensures { self.new ≡ record self.old { space = []; ready = None } }
    {
        self.keys = HashSet::with_hasher(self.alloc, self.hashing);
        self.docs = IdRows::new(self.alloc);
        self.pending = None;
    }
}
