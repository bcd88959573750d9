//! New versions of a key's hash: a copy with fields set, or without some. The store keeps its own.
ghost use Rattle.std.specs.Prelude.{◌≡◌, ◌≤◌, ◌-◌, List, ℕ, filter, length, not, is_some, if◌then◌else◌, IfOk, OnOk};
ghost use Rattle.std.specs.List.{list_any};
ghost use Rattle.std.specs.Str.{bytes_eq};
ghost use Rattle.ft_base.specs.Hash.{HasDistinctFields, get_field, set_field};
ghost use Rattle.ft_base.specs.Space.{doc_of};
ghost use Rattle.ft_machine.specs.Writes.{number_in, set_pairs, without_fields};
ghost use Rattle.ft_machine.specs.Reads.{hash_in};
ghost use Rattle.hash_store.specs.Store.{after_read};

use ft_base::{HashRec, HashView, NoMemory, Words, read_int};
use hash_store::HashStore;
use std::alloc::Global;

/// A copy of a key's hash, without fields where there is none.
pub fn copy_of(store: &mut HashStore, alloc: Global, key: &[u8]) -> Result<HashRec, NoMemory>
    ensures hash { IfOk result (λ hash. hash ≡ hash_in (doc_of store.old.space key.now)) }
    ensures store { store.new ≡ after_read (doc_of store.old.space key.now) store.old }
{
    match store.get(key) {
        Some(doc) => doc.hash().copy(alloc),
        None => Ok(HashRec::new(alloc)),
    }
}

/// Sets pairs of fields and values from the left.
pub fn set_pairs(hash: &mut HashRec, pairs: &Words<'_>) -> Result<(), NoMemory>
    ensures pairs { OnOk result (hash.new ≡ set_pairs hash.old pairs.now) }
    ensures longer { OnOk result (length hash.old ≤ length hash.new) }
{
    for i in 0..pairs.len() / 2 {
        hash.put(pairs.word(2 * i), pairs.word(2 * i + 1))?;
    }
    Ok(())
}

/// The number of a key's fields, and a copy of its hash without some.
pub fn left_of(
    store: &mut HashStore,
    alloc: Global,
    key: &[u8],
    fields: &Words<'_>,
) -> Result<(usize, HashRec), NoMemory>
    ensures before { IfOk result (λ made. made.0 ≡ length (hash_in (doc_of store.old.space key.now))) }
    ensures left { IfOk result (λ made. made.1
        ≡ without_fields (hash_in (doc_of store.old.space key.now)) fields.now) }
    ensures fewer { IfOk result (λ made. length made.1 ≤ made.0) }
    ensures store { store.new ≡ after_read (doc_of store.old.space key.now) store.old }
{
    match store.get(key) {
        Some(doc) => {
            let hash = doc.hash();
            Ok((hash.len(), without_fields(&hash, alloc, fields)?))
        }
        None => Ok((0, HashRec::new(alloc))),
    }
}

/// A copy of a hash without some fields.
fn without_fields(
    hash: &HashView<'_>,
    alloc: Global,
    fields: &Words<'_>,
) -> Result<HashRec, NoMemory>
    requires { HasDistinctFields hash.now }
    ensures { IfOk result (λ left. left ≡ without_fields hash.now fields.now) }
{
    let gone = set_of(alloc, fields)?;
    without(hash, alloc, &gone)
}

/// The fields as those of a hash: one of many is found without a walk over them all.
fn set_of(alloc: Global, fields: &Words<'_>) -> Result<HashRec, NoMemory>
    ensures { IfOk result (λ set. (field : List ℕ)
        → is_some (get_field set field) ≡ list_any (bytes_eq field) fields.now) }
{
    let mut set = HashRec::new(alloc);
    for i in 0..fields.len() {
        set.put(fields.word(i), b"")?;
    }
    Ok(set)
}

/// A copy of a hash without the fields that another has.
fn without(hash: &HashView<'_>, alloc: Global, gone: &HashRec) -> Result<HashRec, NoMemory>
    requires { HasDistinctFields hash.now }
    ensures { IfOk result (λ left. left
        ≡ filter (λ (field : List ℕ × List ℕ). not (is_some (get_field gone.now field.0))) hash.now) }
{
    let mut left = HashRec::new(alloc);
    let mut walk = hash.walk();
    while let Some((field, value)) = walk.next() {
        keep_unless(gone, &mut left, field, value)?;
    }
    Ok(left)
}

/// Sets a field of a copy, but for one that another hash has.
fn keep_unless(
    gone: &HashRec,
    left: &mut HashRec,
    field: &[u8],
    value: &[u8],
) -> Result<(), NoMemory>
    ensures { OnOk result (left.new
        ≡ (if is_some (get_field gone.now field.now) then left.old else set_field left.old field.now value.now)) }
{
    if gone.get(field).is_none() {
        left.put(field, value)?;
    }
    Ok(())
}

/// The number that the value of a key's field is, 0 where it is not there.
pub fn number_of(store: &mut HashStore, key: &[u8], field: &[u8]) -> Option<i64>
    ensures number { result ≡ number_in (get_field (hash_in (doc_of store.old.space key.now)) field.now) }
    ensures store { store.new ≡ after_read (doc_of store.old.space key.now) store.old }
{
    match store.get(key) {
        Some(doc) => number_in(&doc.hash(), field),
        None => Some(0),
    }
}

fn number_in(hash: &HashView<'_>, field: &[u8]) -> Option<i64>
    ensures { result ≡ number_in (get_field hash.now field.now) }
{
    match hash.get(field) {
        Some(value) => read_int(value),
        None => Some(0),
    }
}
