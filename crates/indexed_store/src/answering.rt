//! What the commands that read hashes are answered, of the documents that are held with their indexes. The store counts
//! each document that is read.
ghost use Rattle.std.specs.Prelude.{◌≡◌, ◌<◌, [], drop, length, map, slice_index_or, IfOk, IsTrue};
ghost use Rattle.ft_base.specs.Hash.{get_field, in_turn};
ghost use Rattle.ft_base.specs.Reply.{fits_wire};
ghost use Rattle.ft_base.specs.Space.{doc_of};
ghost use Rattle.ft_base.specs.declared.reply.Reply.TheVariants.{Array};
ghost use Rattle.ft_machine.specs.Reads.{hash_in, names, value_reply, values};
ghost use Rattle.hash_store.specs.Store.{read_count};
ghost use Rattle.indexed_store.specs.Preparing.{OnlyReads};

use crate::held::IndexedStore;
use crate::listings::{hgetall, hkeys, hlen, hvals};
use crate::values::{hget, hmget};
use ft_base::{NoMemory, Reply, Words};

impl IndexedStore {
    /// The value of a key's field.
    pub fn hget(&mut self, key: &[u8], field: &[u8]) -> Result<Reply, NoMemory>
        ensures reply { IfOk result (λ reply. reply
            ≡ value_reply (get_field (hash_in (doc_of self.old.space key.now)) field.now)) }
        ensures fits { IfOk result (λ reply. IsTrue (fits_wire reply)) }
        ensures stays { OnlyReads self.old self.new }
        ensures reads { self.new.reads ≡ read_count (doc_of self.old.space key.now) self.old.reads }
    {
        hget(&mut self.store, self.alloc, key, field)
    }

    /// The values of a key's fields, which stand behind the key.
    pub fn hmget(&mut self, args: &Words<'_>) -> Result<Reply, NoMemory>
        requires { 0 < length args.now }
        ensures reply { IfOk result (λ reply. reply ≡ Array (map
            (λ field. value_reply (get_field (hash_in (doc_of self.old.space (slice_index_or args.now 0 []))) field))
            (drop 1 args.now))) }
        ensures fits { IfOk result (λ reply. IsTrue (fits_wire reply)) }
        ensures stays { OnlyReads self.old self.new }
        ensures reads { self.new.reads
            ≡ read_count (doc_of self.old.space (slice_index_or args.now 0 [])) self.old.reads }
    {
        hmget(&mut self.store, self.alloc, args)
    }

    /// The fields of a key and their values in turn.
    pub fn hgetall(&mut self, key: &[u8]) -> Result<Reply, NoMemory>
        ensures reply { IfOk result (λ reply. reply
            ≡ Array (in_turn (hash_in (doc_of self.old.space key.now)))) }
        ensures fits { IfOk result (λ reply. IsTrue (fits_wire reply)) }
        ensures stays { OnlyReads self.old self.new }
        ensures reads { self.new.reads ≡ read_count (doc_of self.old.space key.now) self.old.reads }
    {
        hgetall(&mut self.store, self.alloc, key)
    }

    /// The fields of a key.
    pub fn hkeys(&mut self, key: &[u8]) -> Result<Reply, NoMemory>
        ensures reply { IfOk result (λ reply. reply
            ≡ Array (names (hash_in (doc_of self.old.space key.now)))) }
        ensures fits { IfOk result (λ reply. IsTrue (fits_wire reply)) }
        ensures stays { OnlyReads self.old self.new }
        ensures reads { self.new.reads ≡ read_count (doc_of self.old.space key.now) self.old.reads }
    {
        hkeys(&mut self.store, self.alloc, key)
    }

    /// The values of a key's fields, in order of the fields.
    pub fn hvals(&mut self, key: &[u8]) -> Result<Reply, NoMemory>
        ensures reply { IfOk result (λ reply. reply
            ≡ Array (values (hash_in (doc_of self.old.space key.now)))) }
        ensures fits { IfOk result (λ reply. IsTrue (fits_wire reply)) }
        ensures stays { OnlyReads self.old self.new }
        ensures reads { self.new.reads ≡ read_count (doc_of self.old.space key.now) self.old.reads }
    {
        hvals(&mut self.store, self.alloc, key)
    }

    /// The number of a key's fields.
    pub fn hlen(&mut self, key: &[u8]) -> usize
        ensures count { result ≡ length (hash_in (doc_of self.old.space key.now)) }
        ensures stays { OnlyReads self.old self.new }
        ensures reads { self.new.reads ≡ read_count (doc_of self.old.space key.now) self.old.reads }
    {
        hlen(&mut self.store, key)
    }
}
