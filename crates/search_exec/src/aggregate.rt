//! What an aggregate answers: the rows that its steps make of the documents that an iterator finds.
ghost use Rattle.std.specs.Prelude.{◌≡◌, ◌≤◌, IfOk, IsOk, IsSome, IsTrue, OnOk, length};
ghost use Rattle.std.specs.Option.{ForSome};
ghost use Rattle.ft_base.specs.Reply.{fits_wire};
ghost use Rattle.ft_machine.specs.Aggregating.{aggregate_rows, rows_reply};
ghost use Rattle.hash_store.specs.Store.{reads_after};
ghost use Rattle.search_exec.specs.Feeds.{AreMadeBy, Gathers, Takes};
ghost use Rattle.doc_reads.specs.Ids.{IsWalkable, doc_at, docs_found};

use crate::replied_rows::rows_reply;
use agg_pipeline::{Feed, Load, Step};
use doc_reads::tell;
use ft_base::{IndexDef, NoMemory, Reply, Row, Steps};
use hash_store::HashStore;
use id_iters::{Iter, Lists};
use std::alloc::Global;
use std::sync::ledger::Ledger;

/// What an aggregate answers that finds the ids of an iterator in an index. Each document that is found is read once, in
/// order of the ids, and a row that must be held shares it. The query's text is in the iterator.
pub fn aggregate_reply<T: Lists, L: Ledger>(
    alloc: Global,
    def: &IndexDef,
    lists: &T,
    store: &mut HashStore,
    iter: Iter,
    load: &Load,
    steps: &[Step],
    counter: &mut Steps<L>,
) -> Result<Reply, NoMemory>
    requires walkable { IsWalkable (T.held lists.now) iter 0 store.old.space }
    ensures reply { IfOk result (λ reply. reply ≡ rows_reply (aggregate_rows load.now steps.now def.now
        (docs_found (T.held lists.now) iter store.old.space))) }
    ensures fits { IfOk result (λ reply. IsTrue (fits_wire reply)) }

    // What is read.
    ensures reads { OnOk result (store.new.reads ≡ reads_after store.old.reads
        (length (docs_found (T.held lists.now) iter store.old.space))) }
    ensures rises { store.old.reads ≤ store.new.reads }
    ensures same { store.new ≡ record store.old { reads = store.new.reads } }
    ensures counts { counter.old ≤ counter.new }
{
    let mut iter = iter;
    let rows = found_rows(alloc, def, lists, store, &mut iter, load, steps, counter);
    drop(iter);
    rows_reply(alloc, rows?)
}

/// The rows that the steps make of the documents that an iterator finds.
pub fn found_rows<T: Lists, L: Ledger>(
    alloc: Global,
    def: &IndexDef,
    lists: &T,
    store: &mut HashStore,
    iter: &mut Iter,
    load: &Load,
    steps: &[Step],
    counter: &mut Steps<L>,
) -> Result<Vec<Row>, NoMemory>
    requires walkable { IsWalkable (T.held lists.now) iter.old 0 store.old.space }
    ensures rows { IfOk result (λ rows. rows.items ≡ aggregate_rows load.now steps.now def.now
        (docs_found (T.held lists.now) iter.old store.old.space)) }

    ensures reads { OnOk result (store.new.reads ≡ reads_after store.old.reads
        (length (docs_found (T.held lists.now) iter.old store.old.space))) }
    ensures rises { store.old.reads ≤ store.new.reads }
    ensures same { store.new ≡ record store.old { reads = store.new.reads } }
    ensures counts { counter.old ≤ counter.new }
{
    let mut feed = Feed::new(alloc, def, load, steps);
    let noted = note_all(&mut feed, lists, store, iter, counter);
    finish(feed, noted)
}

/// What all the steps make of the documents that a feed holds, where all of them were noted.
fn finish(feed: Feed<'_>, noted: Result<(), NoMemory>) -> Result<Vec<Row>, NoMemory>
    ensures noted { IfOk result (λ rows. IsOk noted) }
    ensures rows { IfOk result (λ rows. AreMadeBy feed.entry rows.items) }
{
    noted?;
    feed.finish()
}

/// Notes in a feed of no document those that an iterator finds. Each is read once.
fn note_all<T: Lists, L: Ledger>(
    feed: &mut Feed<'_>,
    lists: &T,
    store: &mut HashStore,
    iter: &mut Iter,
    counter: &mut Steps<L>,
) -> Result<(), NoMemory>
    requires walkable { IsWalkable (T.held lists.now) iter.old 0 store.old.space }
    ensures noted { OnOk result (Gathers (docs_found (T.held lists.now) iter.old store.old.space) feed.old feed.new) }

    ensures reads { OnOk result (store.new.reads ≡ reads_after store.old.reads
        (length (docs_found (T.held lists.now) iter.old store.old.space))) }
    ensures rises { store.old.reads ≤ store.new.reads }
    ensures same { store.new ≡ record store.old { reads = store.new.reads } }
    ensures counts { counter.old ≤ counter.new }
{
    tell(store);
    let mut from = 1;
    'asking: loop {
        let id = match iter.seek(lists, from, counter) {
            Ok(Some(id)) => id,
            Ok(None) => return Ok(()),
            Err(fault) => return Err(fault),
        };
        note_id(feed, store, id)?;
        from = id + 1;
    }
}

/// Notes the document of an id, which is read once.
fn note_id(feed: &mut Feed<'_>, store: &mut HashStore, id: u64) -> Result<(), NoMemory>
    requires stored { IsSome (doc_at id store.old.space) }
    ensures noted { OnOk result (ForSome (doc_at id store.old.space) (λ doc. Takes doc feed.old feed.new)) }

    ensures reads { store.new ≡ record store.old { reads = reads_after store.old.reads 1 } }
{
    let doc = store.get_by_id(id).unwrap();
    feed.note(doc)?;
    Ok(())
}
