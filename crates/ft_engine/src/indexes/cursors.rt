//! FT.CURSOR READ and DEL.
ghost use Rattle.std.specs.Prelude.{◌≡◌, ◌<◌, ◌≤◌, ◌^◌, None};
ghost use Rattle.cmd_parse.specs.Asked.{CursorDel, CursorRead};
ghost use Rattle.ft_machine.specs.Step.{last_number};
ghost use Rattle.ft_engine.specs.Parts.{IsNext, IsReadOver};
ghost use Rattle.ft_engine.specs.Quiet.{IsQuiet};
ghost use Rattle.ft_engine.specs.Reading.{AreReadable, HandsOut, IsReadable};
ghost use Rattle.indexed_store.specs.Preparing.{Prepares};

use crate::indexes::part::tell_part;
use cursor_book::{Cursor, CursorBook};
use ft_index::FtIndex;
use hash_store::HashStore;
use indexed_store::{Change, CursorPlace, IndexedStore, KeptPlaces, index_named};
use reply_buffer::ReplyBuffer;
use std::alloc::Global;

/// Prepares FT.CURSOR READ, and writes the reply: so many rows, or as many as the opening said, and the cursor's id.
pub fn read_cursor<'a>(
    held: &mut IndexedStore,
    index: &[u8],
    id: u64,
    count: Option<u32>,
    reply: &mut ReplyBuffer,
) -> Change<'a>
    requires number { held.old.next < last_number }
    requires none { held.old.opens ≡ None }
    requires id { id < 2 ^ 63 }
    ensures prepares { Prepares (CursorRead index.now id count) held.old held.new reply.new.bytes result }
    ensures quiet { IsQuiet result }
    ensures room { reply.old.room ≤ reply.new.room }
{
    read_in(
        &mut held.store,
        &mut held.places,
        held.indexes.as_slice(),
        &held.cursors,
        held.alloc,
        index,
        id,
        count,
        reply,
    )
}

/// The same over the documents, the indexes and the cursors by themselves.
fn read_in<'a>(
    store: &mut HashStore,
    places: &mut KeptPlaces,
    indexes: &[FtIndex],
    cursors: &CursorBook,
    alloc: Global,
    name: &[u8],
    id: u64,
    count: Option<u32>,
    reply: &mut ReplyBuffer,
) -> Change<'a>
    requires step { AreReadable store.old indexes.now }
    requires id { id < 2 ^ 63 }
    ensures does { IsReadOver (CursorRead name.now id count) store.old.space indexes.now cursors.now result reply.new.bytes }
    ensures quiet { IsQuiet result }
    ensures store { HandsOut store.old store.new }
    ensures room { reply.old.room ≤ reply.new.room }
{
    let Some(index) = index_named(indexes, name) else {
        reply.set_fault(b"Unknown index name");
        return Change::Nothing;
    };
    match cursors.find(index.def().serial, id) {
        Some(cursor) => read_next(store, places, index, alloc, cursor, count, reply),
        None => {
            reply.set_fault(b"Cursor not found");
            Change::Nothing
        }
    }
}

/// Reads a cursor of an index.
fn read_next<'a>(
    store: &mut HashStore,
    places: &mut KeptPlaces,
    index: &FtIndex,
    alloc: Global,
    cursor: &Cursor,
    count: Option<u32>,
    reply: &mut ReplyBuffer,
) -> Change<'a>
    requires id { cursor.now.id < 2 ^ 63 }
    requires readable { IsReadable index.now store.old.space }
    ensures next { IsNext index.now.def store.old.space count cursor.now result reply.new.bytes }
    ensures store { HandsOut store.old store.new }
    ensures room { reply.old.room ≤ reply.new.room }
{
    let count = count.unwrap_or(cursor.count);
    let told = tell_part(
        store,
        places,
        index,
        alloc,
        &cursor.body,
        count,
        cursor.id,
        reply,
    );
    let Some(told) = told else {
        return Change::Nothing;
    };
    let place = CursorPlace {
        serial: cursor.serial,
        id: cursor.id,
    };
    if told.ends {
        return Change::CloseCursor(place);
    }
    Change::ReadCursor(place, told.taken)
}

/// Prepares FT.CURSOR DEL, and writes the reply. It takes no memory.
pub fn delete_cursor<'a>(
    held: &mut IndexedStore,
    index: &[u8],
    id: u64,
    reply: &mut ReplyBuffer,
) -> Change<'a>
    requires none { held.old.opens ≡ None }
    ensures prepares { Prepares (CursorDel index.now id) held.old held.new reply.new.bytes result }
    ensures quiet { IsQuiet result }
    ensures same { held.new ≡ held.old }
    ensures room { reply.old.room ≤ reply.new.room }
{
    let Some(index) = held.index_named(index) else {
        reply.set_fault(b"Unknown index name");
        return Change::Nothing;
    };
    let serial = index.def().serial;
    let there = held.cursor(serial, id).is_some();
    if !there {
        reply.set_fault(b"Cursor not found");
        return Change::Nothing;
    }
    reply.set_short(b"+OK\r\n");
    Change::CloseCursor(CursorPlace { serial, id })
}
