//! FT.AGGREGATE with WITHCURSOR: the first rows, and a cursor for the others.
ghost use Rattle.std.specs.Prelude.{◌≡◌, ◌<◌, ◌≤◌, None, Some, nat_le};
ghost use Rattle.cmd_parse.specs.Aggregating.{aggregate_of};
ghost use Rattle.cmd_parse.specs.Asked.{Aggregate};
ghost use Rattle.ft_machine.specs.Opening.{body_of, most_cursors};
ghost use Rattle.ft_machine.specs.Step.{last_number};
ghost use Rattle.ft_engine.specs.Parts.{DoesFirstOver, IsFirst, IsKept, first_left};
ghost use Rattle.ft_engine.specs.Quiet.{IsQuiet};
ghost use Rattle.ft_engine.specs.Reading.{AreReadable, HandsOut, IsReadable, IsWord};
ghost use Rattle.indexed_store.specs.Preparing.{Prepares};

use crate::indexes::bodies::new_body;
use crate::indexes::part::{PartTold, tell_part};
use cmd_parse::{AggregateSpec, CursorSpec};
use cursor_book::{Body, Cursor};
use ft_base::Query;
use ft_index::FtIndex;
use hash_store::HashStore;
use indexed_store::{Change, IndexedStore, KeptPlaces, index_named};
use query_parse::parse;
use reply_buffer::ReplyBuffer;
use std::alloc::Global;

/// The most cursors of an index.
const MOST_CURSORS: usize = 128;

/// What is left behind the first read, and the serial of the index.
#[derive(Drop)]
pub struct First {
    pub serial: u64,
    pub body: Body,
}

/// Prepares a cursor, and writes its first rows. A cursor that these end is never kept.
pub fn open_cursor<'a>(
    held: &mut IndexedStore,
    asked: AggregateSpec<'_>,
    cursor: CursorSpec,
    reply: &mut ReplyBuffer,
) -> Change<'a>
    requires number { held.old.next < last_number }
    requires query { IsWord asked.query.now }
    requires none { held.old.opens ≡ None }
    requires cursor { asked.cursor ≡ Some cursor }
    ensures prepares { Prepares (Aggregate (aggregate_of asked.entry)) held.old held.new reply.new.bytes result }
    ensures quiet { IsQuiet result }
    ensures room { reply.old.room ≤ reply.new.room }
{
    let number = held.next;
    let first = read_first(
        &mut held.store,
        &mut held.places,
        held.indexes.as_slice(),
        held.alloc,
        asked,
        cursor,
        number,
        reply,
    );
    match first {
        Some(first) => keep(held, first, cursor, reply),
        None => Change::Nothing,
    }
}

/// Lets a cursor wait, unless its index has too many.
fn keep<'a>(
    held: &mut IndexedStore,
    first: First,
    cursor: CursorSpec,
    reply: &mut ReplyBuffer,
) -> Change<'a>
    requires number { held.old.next < last_number }
    requires none { held.old.opens ≡ None }
    ensures kept { IsKept first cursor held.old held.new reply.old.bytes reply.new.bytes result }
    ensures room { reply.old.room ≤ reply.new.room }
{
    if is_full(held.cursor_count(first.serial)) {
        drop(first);
        reply.set_fault(b"Too many cursors");
        return Change::Nothing;
    }
    let cursor = Cursor {
        id: held.next,
        serial: first.serial,
        last_use: held.latest,
        max_idle: cursor.max_idle,
        count: cursor.count,
        body: first.body,
    };
    match held.prepare_cursor(cursor) {
        Ok(()) => Change::OpenCursor,
        Err(_) => {
            reply.set_no_memory();
            Change::Nothing
        }
    }
}

/// Whether an index that has so many cursors has no room for one more.
fn is_full(count: usize) -> bool
    ensures { result ≡ nat_le most_cursors count }
{
    count >= MOST_CURSORS
}

/// The first read in the event of a number: it writes the reply, and answers what is left, if the cursor does not end.
fn read_first(
    store: &mut HashStore,
    places: &mut KeptPlaces,
    indexes: &[FtIndex],
    alloc: Global,
    asked: AggregateSpec<'_>,
    cursor: CursorSpec,
    number: u64,
    reply: &mut ReplyBuffer,
) -> Option<First>
    requires number { number < last_number }
    requires query { IsWord asked.query.now }
    requires cursor { asked.cursor ≡ Some cursor }
    requires step { AreReadable store.old indexes.now }
    ensures does { DoesFirstOver (aggregate_of asked.entry) cursor number store.old.space indexes.now result reply.new.bytes }
    ensures store { HandsOut store.old store.new }
    ensures room { reply.old.room ≤ reply.new.room }
{
    let Some(index) = index_named(indexes, asked.index) else {
        drop(asked);
        reply.set_fault(b"Unknown index name");
        return None;
    };
    match parse(alloc, asked.query, index.def(), &asked.params) {
        Ok(query) => read_new(
            store,
            places,
            index,
            alloc,
            query,
            asked,
            cursor.count,
            number,
            reply,
        ),
        Err(fault) => {
            drop(asked);
            reply.set_query_refusal(fault);
            None
        }
    }
}

/// The same of a query, in its index.
fn read_new(
    store: &mut HashStore,
    places: &mut KeptPlaces,
    index: &FtIndex,
    alloc: Global,
    query: Query,
    asked: AggregateSpec<'_>,
    count: u32,
    number: u64,
    reply: &mut ReplyBuffer,
) -> Option<First>
    requires number { number < last_number }
    requires readable { IsReadable index.now store.old.space }
    ensures first { IsFirst index.now.def (body_of (aggregate_of asked.entry) index.now.def query store.old.space) store.old.space
        count number result reply.new.bytes }
    ensures store { HandsOut store.old store.new }
    ensures room { reply.old.room ≤ reply.new.room }
{
    match new_body(store, index, alloc, query, asked) {
        Ok(body) => read_of(store, places, index, alloc, body, count, number, reply),
        Err(_) => {
            reply.set_no_memory();
            None
        }
    }
}

/// The first read of a body.
fn read_of(
    store: &mut HashStore,
    places: &mut KeptPlaces,
    index: &FtIndex,
    alloc: Global,
    body: Body,
    count: u32,
    number: u64,
    reply: &mut ReplyBuffer,
) -> Option<First>
    requires number { number < last_number }
    requires readable { IsReadable index.now store.old.space }
    ensures first { IsFirst index.now.def body store.old.space count number result reply.new.bytes }
    ensures store { HandsOut store.old store.new }
    ensures room { reply.old.room ≤ reply.new.room }
{
    match tell_part(store, places, index, alloc, &body, count, number, reply) {
        Some(told) => left_behind(index.def().serial, body, told),
        None => {
            drop(body);
            None
        }
    }
}

/// What a first read leaves, if it does not end the cursor.
fn left_behind(serial: u64, body: Body, told: PartTold) -> Option<First>
    ensures { result ≡ first_left serial body told.taken told.ends }
{
    if told.ends {
        drop(body);
        return None;
    }
    let mut body = body;
    body.take(told.taken);
    Some(First { serial, body })
}
