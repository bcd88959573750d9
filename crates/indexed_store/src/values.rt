//! The values of single fields.
ghost use Rattle.std.specs.Prelude.{◌≡◌, ◌<◌, [], drop, length, is_some, map, slice_index_or, IfOk, IsTrue};
ghost use Rattle.ft_base.specs.Hash.{get_field};
ghost use Rattle.ft_base.specs.Reply.{fits_wire};
ghost use Rattle.ft_base.specs.Space.{doc_of};
ghost use Rattle.ft_base.specs.declared.reply.Reply.TheVariants.{Array};
ghost use Rattle.hash_store.specs.Store.{after_read};
ghost use Rattle.ft_machine.specs.Reads.{hash_in, value_reply};

use ft_base::{Bytes, HashView, ListOf, NoMemory, Reply, Words};
use hash_store::HashStore;
use std::alloc::Global;

/// The value of a key's field.
pub fn hget(
    store: &mut HashStore,
    alloc: Global,
    key: &[u8],
    field: &[u8],
) -> Result<Reply, NoMemory>
    ensures reply { IfOk result (λ reply. reply
        ≡ value_reply (get_field (hash_in (doc_of store.old.space key.now)) field.now)) }
    ensures fits { IfOk result (λ reply. IsTrue (fits_wire reply)) }
    ensures store { store.new ≡ after_read (doc_of store.old.space key.now) store.old }
{
    match store.get(key) {
        Some(doc) => value_of(alloc, &doc.hash(), field),
        None => Ok(Reply::NullBulk),
    }
}

fn value_of(alloc: Global, hash: &HashView<'_>, field: &[u8]) -> Result<Reply, NoMemory>
    ensures reply { IfOk result (λ reply. reply ≡ value_reply (get_field hash.now field.now)) }
    ensures fits { IfOk result (λ reply. IsTrue (fits_wire reply)) }
{
    match hash.get(field) {
        Some(value) => Ok(Reply::Bulk(Bytes::from_slice(alloc, value)?)),
        None => Ok(Reply::NullBulk),
    }
}

/// The values of a key's fields, which stand behind the key.
pub fn hmget(store: &mut HashStore, alloc: Global, args: &Words<'_>) -> Result<Reply, NoMemory>
    requires { 0 < length args.now }
    ensures reply { IfOk result (λ reply. reply ≡ Array (map
        (λ field. value_reply (get_field (hash_in (doc_of store.old.space (slice_index_or args.now 0 []))) field))
        (drop 1 args.now))) }
    ensures fits { IfOk result (λ reply. IsTrue (fits_wire reply)) }
    ensures store { store.new ≡ after_read (doc_of store.old.space (slice_index_or args.now 0 [])) store.old }
{
    let fields = args.rest(1);
    match store.get(args.word(0)) {
        Some(doc) => values_of(alloc, &doc.hash(), &fields),
        None => values_of(alloc, &HashView::empty(), &fields),
    }
}

fn values_of(alloc: Global, hash: &HashView<'_>, fields: &Words<'_>) -> Result<Reply, NoMemory>
    ensures reply { IfOk result (λ reply. reply
        ≡ Array (map (λ field. value_reply (get_field hash.now field)) fields.now)) }
{
    let mut replies = Vec::new(alloc);
    for i in 0..fields.len() {
        replies.push(value_of(alloc, hash, fields.word(i))?)?;
    }
    Ok(Reply::Array(ListOf::from_vec(replies)))
}

/// Whether a key has a field.
pub fn hexists(store: &mut HashStore, key: &[u8], field: &[u8]) -> bool
    ensures there { result ≡ is_some (get_field (hash_in (doc_of store.old.space key.now)) field.now) }
    ensures store { store.new ≡ after_read (doc_of store.old.space key.now) store.old }
{
    match store.get(key) {
        Some(doc) => doc.hash().get(field).is_some(),
        None => false,
    }
}
