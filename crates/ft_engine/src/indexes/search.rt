//! FT.SEARCH: the query is parsed by the fields of its index, joined by the FILTERs, and answered by its plan. The store
//! is read for the documents that are shown with their fields, or sorted by a field whose numbers the index does not keep,
//! and for no other.
ghost use Rattle.std.specs.Prelude.{◌≡◌, ◌<◌, ◌≤◌, IfOk};
ghost use Rattle.cmd_parse.specs.Read.{Search};
ghost use Rattle.cmd_parse.specs.Seen.{search_of};
ghost use Rattle.ft_machine.specs.Searching.{search_reply};
ghost use Rattle.ft_machine.specs.Step.{last_number};
ghost use Rattle.ft_engine.specs.Exactness.{ReadsRows};
ghost use Rattle.ft_engine.specs.Reading.{AreReadable, HandsOut, IsAnswered, IsAnsweredOver, IsReadable, IsReplied, IsWord, NamesFields, ShowsCounted, ShowsNamed};
ghost use Rattle.indexed_store.specs.Preparing.{OnlyReads};

use crate::indexes::filters::{first_unknown, joined};
use crate::indexes::ids::ids_found;
use cmd_parse::SearchSpec;
use ft_base::{NoMemory, Query, Reply, Steps};
use ft_index::FtIndex;
use hash_store::HashStore;
use indexed_store::{IndexedStore, index_named};
use query_parse::parse;
use reply_buffer::ReplyBuffer;
use search_exec::search_reply;
use std::alloc::Global;
use std::marker::Brand;
use std::sync::ledger::{Blank, Ledger};

/// Searches an index, and writes the reply.
pub fn answer_search(held: &mut IndexedStore, search: &SearchSpec<'_>, reply: &mut ReplyBuffer)
    requires number { held.old.next < last_number }
    requires query { IsWord search.now.query.now }
    ensures does { IsAnswered (Search (search_of search.now)) held.old reply.new.bytes }
    ensures stays { OnlyReads held.old held.new }
    // No more is read than is shown, or has to be read to sort.
    ensures reads { ReadsRows (search_of search.now) reply.new.bytes held.old.reads held.new.reads }
    ensures room { reply.old.room ≤ reply.new.room }
{
    answer_in(
        &mut held.store,
        held.indexes.as_slice(),
        held.alloc,
        search,
        reply,
    );
}

/// The same over the documents and the indexes by themselves, before the last event.
fn answer_in(
    store: &mut HashStore,
    indexes: &[FtIndex],
    alloc: Global,
    search: &SearchSpec<'_>,
    reply: &mut ReplyBuffer,
)
    requires query { IsWord search.now.query.now }
    requires step { AreReadable store.old indexes.now }
    ensures does { IsAnsweredOver (Search (search_of search.now)) store.old.space indexes.now reply.new.bytes }
    ensures reads { ReadsRows (search_of search.now) reply.new.bytes store.old.reads store.new.reads }
    ensures store { HandsOut store.old store.new }
    ensures room { reply.old.room ≤ reply.new.room }
{
    let Some(index) = index_named(indexes, search.index) else {
        return reply.set_fault(b"Unknown index name");
    };
    match parse(alloc, search.query, index.def(), &search.params) {
        Ok(query) => answer_parsed(store, index, alloc, query, search, reply),
        Err(fault) => reply.set_query_refusal(fault),
    }
}

/// Writes what a query and the FILTERs find in an index, or that a field that is named is unknown.
fn answer_parsed(
    store: &mut HashStore,
    index: &FtIndex,
    alloc: Global,
    query: Query,
    search: &SearchSpec<'_>,
    reply: &mut ReplyBuffer,
)
    requires readable { IsReadable index.now store.old.space }
    ensures found { IsReplied (search_reply (search_of search.now) store.old.space index.now.def query) reply.new.bytes }
    ensures reads { ReadsRows (search_of search.now) reply.new.bytes store.old.reads store.new.reads }
    ensures store { HandsOut store.old store.new }
    ensures room { reply.old.room ≤ reply.new.room }
{
    if let Some(at) = first_unknown(index.def(), search) {
        drop(query);
        return reply.set_unknown_field(at);
    }
    let found = found_joined(store, index, alloc, query, search);
    reply.set_made(found);
}

/// What is shown of what a query and the FILTERs find in an index.
fn found_joined(
    store: &mut HashStore,
    index: &FtIndex,
    alloc: Global,
    query: Query,
    search: &SearchSpec<'_>,
) -> Result<Reply, NoMemory>
    requires readable { IsReadable index.now store.old.space }
    requires fields { NamesFields (search_of search.now) index.now.def }
    ensures shows { IfOk result (ShowsCounted (search_of search.now) query index.now.def store.old store.new) }
    ensures store { HandsOut store.old store.new }
{
    match joined(alloc, query, index.def(), &search.filters) {
        Ok(query) => {
            let found = found_in::<Brand>(store, index, alloc, &query, search, Blank::new(1));
            drop(query);
            found
        }
        Err(fault) => Err(fault),
    }
}

/// What is shown of what a query finds in an index, of the keys that are named.
fn found_in<L: Ledger>(
    store: &mut HashStore,
    index: &FtIndex,
    alloc: Global,
    query: &Query,
    search: &SearchSpec<'_>,
    blank: Blank,
) -> Result<Reply, NoMemory>
    requires name { blank.name ≡ L.name }
    requires parts { blank.parts ≡ L.parts }
    requires some { 0 < L.parts }
    requires readable { IsReadable index.now store.old.space }
    requires fields { NamesFields (search_of search.now) index.now.def }
    ensures shows { IfOk result (ShowsNamed (search_of search.now) query.now index.now.def store.old store.new) }
    ensures store { HandsOut store.old store.new }
{
    let mut steps = Steps::<L>::new(blank);
    let iter = ids_found(store, index, alloc, query, &mut steps)?;
    let found = search_reply(alloc, index.def(), index, store, iter, search, &mut steps);
    drop(steps);
    found
}
