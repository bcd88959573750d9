//! How many documents some keys have, which takes no memory but for very many keys.
ghost use Rattle.std.specs.Prelude.{◌≡◌, ◌<◌, ◌≤◌, ◌+◌, length, vec_capacity, IfOk, IsErr, OnErr, OnOk};
ghost use Rattle.ft_machine.specs.Definitions.{without_keys};
ghost use Rattle.indexed_store.specs.Counting.{ids_of};

use crate::held::IndexedStore;
use ft_base::{NoMemory, Words};
use hash_store::HashStore;

/// How many keys DEL counts without memory.
pub const MOST_COUNTED: usize = 1_024;

impl IndexedStore {
    /// How many documents the keys have, each counted once. Memory runs out for very many keys alone.
    pub fn count_found(&mut self, keys: &Words<'_>) -> Result<usize, NoMemory>
        ensures count { IfOk result (λ count.
            count + length (without_keys self.old.space keys.now) ≡ length self.old.space) }
        ensures none { IfOk result (λ count.
            count ≡ 0 → without_keys self.old.space keys.now ≡ self.old.space) }
        ensures many { IsErr result → MOST_COUNTED < length keys.now }
        ensures same { self.new ≡ self.old }
    {
        count_found(&self.store, &mut self.ids, keys)
    }
}

/// How many documents the keys have, each counted once.
pub fn count_found(
    store: &HashStore,
    ids: &mut Vec<u64>,
    keys: &Words<'_>,
) -> Result<usize, NoMemory>
    requires ids { MOST_COUNTED ≤ vec_capacity ids.old }
    ensures count { IfOk result (λ count.
        count + length (without_keys store.now.space keys.now) ≡ length store.now.space) }
    ensures none { IfOk result (λ count.
        count ≡ 0 → without_keys store.now.space keys.now ≡ store.now.space) }
    ensures many { IsErr result → MOST_COUNTED < length keys.now }
    ensures ids { MOST_COUNTED ≤ vec_capacity ids.new }
{
    if store.len() == 0 {
        return Ok(0);
    }
    note_ids(store, ids, keys)?;
    ids.sort_unstable();
    ids.dedup();
    Ok(ids.len())
}

/// Notes the id of each key's document, as often as the key is there.
fn note_ids(store: &HashStore, ids: &mut Vec<u64>, keys: &Words<'_>) -> Result<(), NoMemory>
    requires ids { MOST_COUNTED ≤ vec_capacity ids.old }
    ensures ok { OnOk result (ids.new.items ≡ ids_of store.now.space keys.now) }
    ensures many { OnErr result (MOST_COUNTED < length keys.now) }
    ensures ids { MOST_COUNTED ≤ vec_capacity ids.new }
{
    ids.clear();
    for i in 0..keys.len() {
        if let Some(id) = store.has(keys.word(i)) {
            ids.push(id)?;
        }
    }
    Ok(())
}
