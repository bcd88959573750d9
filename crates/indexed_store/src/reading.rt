//! What is read of the documents that are held with their indexes. The store counts each document that is read.
ghost use Rattle.std.specs.Prelude.{◌≡◌, ◌<◌, ◌≤◌, length, is_some, true, IfOk};
ghost use Rattle.ft_base.specs.Hash.{get_field};
ghost use Rattle.ft_base.specs.Space.{doc_of};
ghost use Rattle.ft_machine.specs.Reads.{hash_in, present};
ghost use Rattle.ft_machine.specs.Writes.{number_in, without_fields};
ghost use Rattle.ft_meaning.specs.Meaning.{ValuesFit};
ghost use Rattle.hash_store.specs.Store.{read_count};
ghost use Rattle.indexed_store.specs.Preparing.{OnlyReads};

use crate::held::IndexedStore;
use crate::keys::{is_there, present};
use crate::values::hexists;
use crate::versions::{copy_of, left_of, number_of};
use ft_base::{HashRec, NoMemory, Words};

impl IndexedStore {
    /// How many documents there are.
    pub fn len(&self) -> usize
        ensures { result ≡ length self.now.space }
    {
        self.store.len()
    }

    /// Whether there is a document of this key, which is not read.
    pub fn has(&self, key: &[u8]) -> bool
        ensures { result ≡ is_some (doc_of self.now.space key.now) }
    {
        is_there(&self.store, key)
    }

    /// How many of the keys are there, repeats counted.
    pub fn present(&self, keys: &Words<'_>) -> usize
        ensures { result ≡ present self.now.space keys.now }
    {
        present(&self.store, keys)
    }

    /// Whether a key has a field.
    pub fn has_field(&mut self, key: &[u8], field: &[u8]) -> bool
        ensures there { result ≡ is_some (get_field (hash_in (doc_of self.old.space key.now)) field.now) }
        ensures stays { OnlyReads self.old self.new }
        ensures reads { self.new.reads ≡ read_count (doc_of self.old.space key.now) self.old.reads }
    {
        hexists(&mut self.store, key, field)
    }

    /// A copy of a key's hash, without fields where there is none.
    pub fn copy_of(&mut self, key: &[u8]) -> Result<HashRec, NoMemory>
        ensures hash { IfOk result (λ hash. hash ≡ hash_in (doc_of self.old.space key.now)) }
        ensures fits { IfOk result (λ hash. ValuesFit hash) }
        ensures filled { IfOk result (λ hash.
            is_some (doc_of self.old.space key.now) ≡ true → 0 < length hash) }
        ensures stays { OnlyReads self.old self.new }
        ensures reads { self.new.reads ≡ read_count (doc_of self.old.space key.now) self.old.reads }
    {
        copy_of(&mut self.store, self.alloc, key)
    }

    /// The number of a key's fields, and a copy of its hash without some.
    pub fn left_of(&mut self, key: &[u8], fields: &Words<'_>) -> Result<(usize, HashRec), NoMemory>
        ensures before { IfOk result (λ made. made.0 ≡ length (hash_in (doc_of self.old.space key.now))) }
        ensures left { IfOk result (λ made. made.1
            ≡ without_fields (hash_in (doc_of self.old.space key.now)) fields.now) }
        ensures fewer { IfOk result (λ made. length made.1 ≤ made.0) }
        ensures fits { IfOk result (λ made. ValuesFit made.1) }
        ensures stays { OnlyReads self.old self.new }
        ensures reads { self.new.reads ≡ read_count (doc_of self.old.space key.now) self.old.reads }
    {
        left_of(&mut self.store, self.alloc, key, fields)
    }

    /// The number that the value of a key's field is, 0 where it is not there.
    pub fn number_of(&mut self, key: &[u8], field: &[u8]) -> Option<i64>
        ensures number { result ≡ number_in (get_field (hash_in (doc_of self.old.space key.now)) field.now) }
        ensures stays { OnlyReads self.old self.new }
        ensures reads { self.new.reads ≡ read_count (doc_of self.old.space key.now) self.old.reads }
    {
        number_of(&mut self.store, key, field)
    }
}
