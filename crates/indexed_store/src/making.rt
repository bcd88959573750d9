//! What was prepared is made: all that it needs is there, so it takes no memory.
ghost use Rattle.std.specs.Prelude.{◌≡◌, ◌<◌, ◌≤◌, ℕ, List, [], None, false, length, vec_capacity, IsTrue};
ghost use Rattle.cursor_book.specs.declared.cursor.Cursor.{Cursor};
ghost use Rattle.indexed_store.specs.Changing.{IsOfDocuments, IsReady, changed, is_change, is_write};
ghost use Rattle.indexed_store.specs.Listed.{KeepLists, KeepsLists};
ghost use Rattle.indexed_store.specs.Moving.{IndexesMove};
ghost use Rattle.indexed_store.specs.Standing.{AreWritten, InStep};
ghost use Rattle.indexed_store.specs.States.{state_with};
ghost use Rattle.ft_machine.specs.Step.{last_number, next_number};

use crate::change::{Change, MOST_INDEXES};
use crate::dropping::{drop_cursors, drop_members, drop_with_cursors};
use crate::index_list::{push_index, replace_index};
use crate::removals::{remove, remove_all};
use crate::writes::{settle, settle_moved};
use cursor_book::CursorBook;
use ft_index::FtIndex;
use hash_store::HashStore;

/// Makes a change of the event with this number, where no cursor waits.
#[tactic(auto, using(crate::proofs::MovingLaws::moves_same))]
pub fn make(
    store: &mut HashStore,
    indexes: &mut Vec<FtIndex>,
    cursors: &mut CursorBook,
    number: u64,
    latest: u64,
    change: Change<'_>,
)
    requires documents { AreWritten store.old.space number }
    requires kept { InStep store.old indexes.old.items (next_number number) }
    requires before { IsTrue (is_change change) → number < last_number }
    requires ready { IsReady change number store.old.space store.old.ready indexes.old.items }
    requires few { length indexes.old.items ≤ MOST_INDEXES }
    requires capacity { MOST_INDEXES ≤ vec_capacity indexes.old }
    ensures state { state_with store.new indexes.new.items cursors.new latest
        ≡ changed change.entry store.old.ready None (state_with store.old indexes.old.items cursors.old latest) }
    ensures kept { InStep store.new indexes.new.items (next_number number) }
    ensures lists { KeepsLists change.entry indexes.old.items indexes.new.items }
    ensures moves { IndexesMove number indexes.old.items indexes.new.items }
    ensures quiet { is_write change.entry ≡ false → store.new ≡ store.old }
    ensures few { length indexes.new.items ≤ MOST_INDEXES }
    ensures capacity { MOST_INDEXES ≤ vec_capacity indexes.new }
{
    match change {
        Change::Create(index) => push_index(indexes, index.into_inner()),
        Change::Alter(index) => replace_index(indexes.as_mut_slice(), index.into_inner()),
        Change::Drop(name) => drop_with_cursors(indexes, cursors, name),
        Change::DropMembers(name) => {
            drop_cursors(indexes.as_slice(), cursors, name);
            drop_members(store, indexes, name);
        }
        Change::ReadCursor(place, taken) => cursors.read(place.serial, place.id, latest, taken),
        Change::CloseCursor(place) => {
            let _ = cursors.delete(place.serial, place.id);
        }
        Change::CloseCursors => cursors.drop_all(),
        Change::Flush => flush(store, indexes, cursors),
        other => make_documents(store, indexes.as_mut_slice(), number, other),
    }
}

/// Makes a change of documents, or none.
fn make_documents(store: &mut HashStore, indexes: &mut [FtIndex], number: u64, change: Change<'_>)
    requires alone { IsOfDocuments change }
    requires documents { AreWritten store.old.space number }
    requires kept { InStep store.old indexes.old (next_number number) }
    requires before { IsTrue (is_change change) → number < last_number }
    requires ready { IsReady change number store.old.space store.old.ready indexes.old }
    ensures state { (cursors : List Cursor) (latest : ℕ) → state_with store.new indexes.new cursors latest
        ≡ changed change.entry store.old.ready None (state_with store.old indexes.old cursors latest) }
    ensures kept { InStep store.new indexes.new (next_number number) }
    ensures lists { KeepLists indexes.old indexes.new }
    ensures moves { IndexesMove number indexes.old indexes.new }
    ensures quiet { is_write change.entry ≡ false → store.new ≡ store.old }
{
    match change {
        Change::Write(put) => settle(store, indexes, number, put),
        Change::Move(put, from) => settle_moved(store, indexes, number, put, from),
        Change::EraseKey(key) => remove(store, indexes, key),
        Change::EraseKeys(keys) => remove_all(store, indexes, &keys),
        other => drop(other),
    }
}

/// All documents, indexes and cursors are gone.
fn flush(store: &mut HashStore, indexes: &mut Vec<FtIndex>, cursors: &mut CursorBook)
    ensures space { store.new.space ≡ [] }
    ensures last { store.new.last ≡ store.old.last }
    ensures indexes { indexes.new.items ≡ [] }
    ensures capacity { vec_capacity indexes.old ≤ vec_capacity indexes.new }
    ensures cursors { cursors.new ≡ [] }
{
    store.clear();
    indexes.clear();
    cursors.drop_all();
}
