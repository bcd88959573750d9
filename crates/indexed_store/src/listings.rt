//! What is in a whole hash.
ghost use Rattle.std.specs.Prelude.{◌≡◌, length, IfOk, IsTrue};
ghost use Rattle.ft_base.specs.Reply.{fits_wire};
ghost use Rattle.ft_base.specs.Space.{doc_of};
ghost use Rattle.ft_base.specs.declared.reply.Reply.TheVariants.{Array, Bulk};
ghost use Rattle.hash_store.specs.Store.{after_read};
ghost use Rattle.ft_machine.specs.Reads.{hash_in, names, values};
ghost use Rattle.ft_base.specs.Hash.{in_turn};

use ft_base::{Bytes, HashView, ListOf, NoMemory, Reply, in_turn};
use hash_store::HashStore;
use std::alloc::Global;

/// The fields of a key and their values in turn.
pub fn hgetall(store: &mut HashStore, alloc: Global, key: &[u8]) -> Result<Reply, NoMemory>
    ensures reply { IfOk result (λ reply. reply
        ≡ Array (in_turn (hash_in (doc_of store.old.space key.now)))) }
    ensures fits { IfOk result (λ reply. IsTrue (fits_wire reply)) }
    ensures store { store.new ≡ after_read (doc_of store.old.space key.now) store.old }
{
    match store.get(key) {
        Some(doc) => in_turn(alloc, &doc.hash()),
        None => in_turn(alloc, &HashView::empty()),
    }
}

/// The fields of a key.
pub fn hkeys(store: &mut HashStore, alloc: Global, key: &[u8]) -> Result<Reply, NoMemory>
    ensures reply { IfOk result (λ reply. reply
        ≡ Array (names (hash_in (doc_of store.old.space key.now)))) }
    ensures fits { IfOk result (λ reply. IsTrue (fits_wire reply)) }
    ensures store { store.new ≡ after_read (doc_of store.old.space key.now) store.old }
{
    match store.get(key) {
        Some(doc) => names_of(alloc, &doc.hash()),
        None => names_of(alloc, &HashView::empty()),
    }
}

fn names_of(alloc: Global, hash: &HashView<'_>) -> Result<Reply, NoMemory>
    ensures reply { IfOk result (λ reply. reply ≡ Array (names hash.now)) }
{
    let mut replies = Vec::new(alloc);
    let mut walk = hash.walk();
    while let Some((field, _)) = walk.next() {
        replies.push(Reply::Bulk(Bytes::from_slice(alloc, field)?))?;
    }
    Ok(Reply::Array(ListOf::from_vec(replies)))
}

/// The values of a key's fields, in order of the fields.
pub fn hvals(store: &mut HashStore, alloc: Global, key: &[u8]) -> Result<Reply, NoMemory>
    ensures reply { IfOk result (λ reply. reply
        ≡ Array (values (hash_in (doc_of store.old.space key.now)))) }
    ensures fits { IfOk result (λ reply. IsTrue (fits_wire reply)) }
    ensures store { store.new ≡ after_read (doc_of store.old.space key.now) store.old }
{
    match store.get(key) {
        Some(doc) => all_values(alloc, &doc.hash()),
        None => all_values(alloc, &HashView::empty()),
    }
}

fn all_values(alloc: Global, hash: &HashView<'_>) -> Result<Reply, NoMemory>
    ensures reply { IfOk result (λ reply. reply ≡ Array (values hash.now)) }
{
    let mut replies = Vec::new(alloc);
    let mut walk = hash.walk();
    while let Some((_, value)) = walk.next() {
        replies.push(Reply::Bulk(Bytes::from_slice(alloc, value)?))?;
    }
    Ok(Reply::Array(ListOf::from_vec(replies)))
}

/// The number of a key's fields.
pub fn hlen(store: &mut HashStore, key: &[u8]) -> usize
    ensures count { result ≡ length (hash_in (doc_of store.old.space key.now)) }
    ensures store { store.new ≡ after_read (doc_of store.old.space key.now) store.old }
{
    match store.get(key) {
        Some(doc) => doc.hash().len(),
        None => 0,
    }
}
