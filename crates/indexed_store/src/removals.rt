//! Documents leave the store and each index. It takes no memory.
ghost use Rattle.std.specs.Prelude.{◌≡◌, ℕ};
ghost use Rattle.ft_base.specs.Space.{erase};
ghost use Rattle.hash_store.specs.Erasing.{erase_id};
ghost use Rattle.indexed_store.specs.DefinitionsOf.{definitions_of};
ghost use Rattle.ft_machine.specs.Definitions.{without_keys};
ghost use Rattle.indexed_store.specs.Listed.{KeepLists};
ghost use Rattle.indexed_store.specs.Moving.{IndexesMove};
ghost use Rattle.indexed_store.specs.Standing.{InStep};

use crate::indexes::kill_all;
use ft_base::Words;
use ft_index::FtIndex;
use hash_store::HashStore;

/// Takes the documents of the keys out.
#[tactic(auto, using(crate::proofs::MovingLaws::moves_same))]
pub fn remove_all(store: &mut HashStore, indexes: &mut [FtIndex], keys: &Words<'_>)
    ensures space { store.new.space ≡ without_keys store.old.space keys.now }
    // Nothing else of the store changes.
    ensures rest { store.new ≡ record store.old { space = store.new.space } }
    ensures kept { (next : ℕ) → InStep store.old indexes.old next → InStep store.new indexes.new next }
    ensures definitions { definitions_of indexes.new ≡ definitions_of indexes.old }
    ensures lists { KeepLists indexes.old indexes.new }
    ensures moves { (event : ℕ) → IndexesMove event indexes.old indexes.new }
{
    for i in 0..keys.len() {
        remove(store, indexes, keys.word(i));
    }
}

/// Takes a key's document out of the store and of each index.
pub fn remove(store: &mut HashStore, indexes: &mut [FtIndex], key: &[u8])
    ensures space { store.new.space ≡ erase store.old.space key.now }
    // Nothing else of the store changes.
    ensures rest { store.new ≡ record store.old { space = store.new.space } }
    ensures kept { (next : ℕ) → InStep store.old indexes.old next → InStep store.new indexes.new next }
    ensures definitions { definitions_of indexes.new ≡ definitions_of indexes.old }
    ensures lists { KeepLists indexes.old indexes.new }
    ensures moves { (event : ℕ) → IndexesMove event indexes.old indexes.new }
{
    if let Some(id) = store.erase(key) {
        kill_all(indexes, id);
    }
}

/// Takes the document of an id out of the store and of each index.
pub fn remove_id(store: &mut HashStore, indexes: &mut [FtIndex], id: u64)
    ensures space { store.new.space ≡ erase_id store.old.space id }
    // Nothing else of the store changes.
    ensures rest { store.new ≡ record store.old { space = store.new.space } }
    ensures kept { (next : ℕ) → InStep store.old indexes.old next → InStep store.new indexes.new next }
    ensures definitions { definitions_of indexes.new ≡ definitions_of indexes.old }
    ensures lists { KeepLists indexes.old indexes.new }
    ensures moves { (event : ℕ) → IndexesMove event indexes.old indexes.new }
{
    store.erase_id(id);
    kill_all(indexes, id);
}
