//! FT.AGGREGATE: the query is parsed by the fields of its index, and its steps make rows of the documents found.
ghost use Rattle.std.specs.Prelude.{◌≡◌, ◌<◌, ◌≤◌, None, IfOk};
ghost use Rattle.cmd_parse.specs.Aggregating.{aggregate_of};
ghost use Rattle.cmd_parse.specs.Read.{Aggregate};
ghost use Rattle.ft_machine.specs.Aggregating.{aggregate_reply};
ghost use Rattle.ft_machine.specs.Step.{last_number};
ghost use Rattle.ft_engine.specs.Exactness.{ReadsFound};
ghost use Rattle.ft_engine.specs.Quiet.{IsQuiet};
ghost use Rattle.ft_engine.specs.Reading.{AreReadable, HandsOut, IsAnswered, IsAnsweredOver, IsReadable, IsReplied, IsWord, TellsRows};
ghost use Rattle.indexed_store.specs.Preparing.{OnlyReads, Prepares};

use crate::indexes::ids::ids_found;
use crate::indexes::opening::open_cursor;
use cmd_parse::AggregateSpec;
use ft_base::{NoMemory, Query, Reply, Steps};
use ft_index::FtIndex;
use hash_store::HashStore;
use indexed_store::{Change, IndexedStore, index_named};
use query_parse::parse;
use reply_buffer::ReplyBuffer;
use search_exec::aggregate_reply;
use std::alloc::Global;
use std::marker::Brand;
use std::sync::ledger::{Blank, Ledger};

/// Prepares FT.AGGREGATE, and writes the reply: all rows, or the first ones and a cursor for the others.
pub fn aggregate<'a>(
    held: &mut IndexedStore,
    asked: AggregateSpec<'_>,
    reply: &mut ReplyBuffer,
) -> Change<'a>
    requires number { held.old.next < last_number }
    requires query { IsWord asked.query.now }
    requires none { held.old.opens ≡ None }
    ensures prepares { Prepares (Aggregate (aggregate_of asked.entry)) held.old held.new reply.new.bytes result }
    // Without a cursor each document that is found is read once.
    ensures reads { asked.entry.cursor ≡ None → ReadsFound (aggregate_of asked.entry) reply.new.bytes held.old.reads held.new.reads }
    ensures quiet { IsQuiet result }
    ensures room { reply.old.room ≤ reply.new.room }
{
    match asked.cursor {
        None => {
            answer_aggregate(held, &asked, reply);
            Change::Nothing
        }
        Some(cursor) => open_cursor(held, asked, cursor, reply),
    }
}

/// Makes rows of the documents that a query finds in an index, and writes the reply.
fn answer_aggregate(held: &mut IndexedStore, aggregate: &AggregateSpec<'_>, reply: &mut ReplyBuffer)
    requires number { held.old.next < last_number }
    requires query { IsWord aggregate.now.query.now }
    requires cursor { aggregate.now.cursor ≡ None }
    ensures does { IsAnswered (Aggregate (aggregate_of aggregate.now)) held.old reply.new.bytes }
    ensures stays { OnlyReads held.old held.new }
    // Each document that is found is read once.
    ensures reads { ReadsFound (aggregate_of aggregate.now) reply.new.bytes held.old.reads held.new.reads }
    ensures room { reply.old.room ≤ reply.new.room }
{
    answer_in(
        &mut held.store,
        held.indexes.as_slice(),
        held.alloc,
        aggregate,
        reply,
    );
}

/// The same over the documents and the indexes by themselves, before the last event.
fn answer_in(
    store: &mut HashStore,
    indexes: &[FtIndex],
    alloc: Global,
    aggregate: &AggregateSpec<'_>,
    reply: &mut ReplyBuffer,
)
    requires query { IsWord aggregate.now.query.now }
    requires cursor { aggregate.now.cursor ≡ None }
    requires step { AreReadable store.old indexes.now }
    ensures does { IsAnsweredOver (Aggregate (aggregate_of aggregate.now)) store.old.space indexes.now reply.new.bytes }
    ensures reads { ReadsFound (aggregate_of aggregate.now) reply.new.bytes store.old.reads store.new.reads }
    ensures store { HandsOut store.old store.new }
    ensures room { reply.old.room ≤ reply.new.room }
{
    let Some(index) = index_named(indexes, aggregate.index) else {
        return reply.set_fault(b"Unknown index name");
    };
    match parse(alloc, aggregate.query, index.def(), &aggregate.params) {
        Ok(query) => answer_parsed(store, index, alloc, query, aggregate, reply),
        Err(fault) => reply.set_query_refusal(fault),
    }
}

/// Writes what the steps make of the documents that a query finds in an index.
fn answer_parsed(
    store: &mut HashStore,
    index: &FtIndex,
    alloc: Global,
    query: Query,
    aggregate: &AggregateSpec<'_>,
    reply: &mut ReplyBuffer,
)
    requires readable { IsReadable index.now store.old.space }
    ensures found { IsReplied (aggregate_reply (aggregate_of aggregate.now) store.old.space index.now.def query) reply.new.bytes }
    ensures reads { ReadsFound (aggregate_of aggregate.now) reply.new.bytes store.old.reads store.new.reads }
    ensures store { HandsOut store.old store.new }
    ensures room { reply.old.room ≤ reply.new.room }
{
    let made = rows_in::<Brand>(store, index, alloc, &query, aggregate, Blank::new(1));
    drop(query);
    reply.set_made(made);
}

/// What the steps make of the documents that a query finds in an index.
fn rows_in<L: Ledger>(
    store: &mut HashStore,
    index: &FtIndex,
    alloc: Global,
    query: &Query,
    aggregate: &AggregateSpec<'_>,
    blank: Blank,
) -> Result<Reply, NoMemory>
    requires name { blank.name ≡ L.name }
    requires parts { blank.parts ≡ L.parts }
    requires some { 0 < L.parts }
    requires readable { IsReadable index.now store.old.space }
    ensures reply { IfOk result (TellsRows (aggregate_of aggregate.now) query.now index.now.def store.old store.new) }
    ensures store { HandsOut store.old store.new }
{
    let mut counter = Steps::<L>::new(blank);
    let iter = ids_found(store, index, alloc, query, &mut counter)?;
    let made = aggregate_reply(
        alloc,
        index.def(),
        index,
        store,
        iter,
        &aggregate.load,
        aggregate.steps.as_slice(),
        &mut counter,
    );
    drop(counter);
    made
}
