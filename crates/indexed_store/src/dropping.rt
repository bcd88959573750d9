//! An index is dropped, and its cursors with it. It takes no memory.
ghost use Rattle.std.specs.Prelude.{◌≡◌, ◌≤◌, ℕ, fold, map, length, vec_capacity};
ghost use Rattle.hash_store.specs.Erasing.{erase_id};
ghost use Rattle.hash_store.specs.Store.{Store};
ghost use Rattle.ft_machine.specs.Definitions.{index_of, without_index, without_members};
ghost use Rattle.indexed_store.specs.Changing.{without_cursors_of};
ghost use Rattle.indexed_store.specs.DefinitionsOf.{definitions_of};
ghost use Rattle.indexed_store.specs.Listed.{KeepLists, OthersKeep};
ghost use Rattle.indexed_store.specs.Moving.{IndexesMove};
ghost use Rattle.indexed_store.specs.Standing.{InStep};

use crate::index_list::{index_named, take_index};
use crate::removals::remove_id;
use cursor_book::CursorBook;
use ft_index::FtIndex;
use hash_store::HashStore;

/// Takes the index of a name out. The documents stay.
pub fn drop_index(indexes: &mut Vec<FtIndex>, name: &[u8])
    ensures definitions { definitions_of indexes.new.items
        ≡ without_index (definitions_of indexes.old.items) name.now }
    ensures lists { OthersKeep name.now indexes.old.items indexes.new.items }
    ensures kept { (store : Store) (next : ℕ)
        → InStep store indexes.old.items next → InStep store indexes.new.items next }
    ensures moves { (event : ℕ) → IndexesMove event indexes.old.items indexes.new.items }
    ensures fewer { length indexes.new.items ≤ length indexes.old.items }
    ensures capacity { vec_capacity indexes.old ≤ vec_capacity indexes.new }
{
    let _ = take_index(indexes, name);
}

/// The index of a name is gone, and its cursors. The documents stay.
pub fn drop_with_cursors(indexes: &mut Vec<FtIndex>, cursors: &mut CursorBook, name: &[u8])
    ensures definitions { definitions_of indexes.new.items
        ≡ without_index (definitions_of indexes.old.items) name.now }
    ensures lists { OthersKeep name.now indexes.old.items indexes.new.items }
    ensures cursors { cursors.new
        ≡ without_cursors_of (index_of (definitions_of indexes.old.items) name.now) cursors.old }
    ensures kept { (store : Store) (next : ℕ)
        → InStep store indexes.old.items next → InStep store indexes.new.items next }
    ensures moves { (event : ℕ) → IndexesMove event indexes.old.items indexes.new.items }
    ensures fewer { length indexes.new.items ≤ length indexes.old.items }
    ensures capacity { vec_capacity indexes.old ≤ vec_capacity indexes.new }
{
    drop_cursors(indexes.as_slice(), cursors, name);
    drop_index(indexes, name);
}

/// The cursors of the index of a name are gone.
pub fn drop_cursors(indexes: &[FtIndex], cursors: &mut CursorBook, name: &[u8])
    ensures { cursors.new ≡ without_cursors_of (index_of (definitions_of indexes.now) name.now) cursors.old }
{
    if let Some(index) = index_named(indexes, name) {
        cursors.drop_index(index.def().serial);
    }
}

/// Takes the index of a name out, and the documents that are its members.
pub fn drop_members(store: &mut HashStore, indexes: &mut Vec<FtIndex>, name: &[u8])
    ensures space { (next : ℕ) → InStep store.old indexes.old.items next → store.new.space
        ≡ without_members (index_of (definitions_of indexes.old.items) name.now) store.old.space }
    // Nothing else of the store changes.
    ensures rest { store.new ≡ record store.old { space = store.new.space } }
    ensures definitions { definitions_of indexes.new.items
        ≡ without_index (definitions_of indexes.old.items) name.now }
    ensures lists { OthersKeep name.now indexes.old.items indexes.new.items }
    ensures kept { (next : ℕ)
        → InStep store.old indexes.old.items next → InStep store.new indexes.new.items next }
    ensures moves { (event : ℕ) → IndexesMove event indexes.old.items indexes.new.items }
    ensures fewer { length indexes.new.items ≤ length indexes.old.items }
    ensures capacity { vec_capacity indexes.old ≤ vec_capacity indexes.new }
{
    if let Some(mut index) = take_index(indexes, name) {
        remove_live(store, indexes.as_mut_slice(), &mut index);
    }
}

/// Takes the documents of an index's live rows out.
#[tactic(auto, using(crate::proofs::MovingLaws::moves_same))]
fn remove_live(store: &mut HashStore, indexes: &mut [FtIndex], dropped: &mut FtIndex)
    ensures space { store.new.space
        ≡ fold erase_id store.old.space (map (λ row. row.0) dropped.old.table.live) }
    ensures rest { store.new ≡ record store.old { space = store.new.space } }
    ensures kept { (next : ℕ) → InStep store.old indexes.old next → InStep store.new indexes.new next }
    ensures definitions { definitions_of indexes.new ≡ definitions_of indexes.old }
    ensures lists { KeepLists indexes.old indexes.new }
    ensures moves { (event : ℕ) → IndexesMove event indexes.old indexes.new }
{
    'removing: while let Some(id) = dropped.table().next_live(0) {
        remove_id(store, indexes, id);
        dropped.kill(id);
    }
}
