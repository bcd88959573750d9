//! A read of a stream: the rows of the next documents that an iterator finds.
ghost use Rattle.std.specs.Prelude.{◌≡◌, ◌≤◌, ◌+◌, ◌++◌, [], length, option_to_list, IfOk, IfSome, IsSome, OnOk};
ghost use Rattle.std.specs.Option.{ForSome};
ghost use Rattle.ft_machine.specs.Parts.{last_id, stream_row, stream_rows, stream_taken};
ghost use Rattle.hash_store.specs.Store.{reads_after};
ghost use Rattle.id_iters.specs.Fitting.{AreOpenBehind};
ghost use Rattle.id_iters.specs.Least.{IsLeast};
ghost use Rattle.id_iters.specs.Sets.{about, in_set};
ghost use Rattle.doc_reads.specs.Ids.{IsAskable, IsWalkable, doc_at, docs_found};

use crate::facts::tell;
use crate::hints::hints_behind;
use agg_pipeline::StreamSteps;
use ft_base::{IndexDef, NoMemory, Row, Steps};
use hash_store::HashStore;
use id_iters::{Hints, Iter, Lists};
use std::alloc::Global;
use std::sync::ledger::Ledger;

/// What a read of a stream gives.
#[derive(Drop)]
pub struct StreamRead {
    pub rows: Vec<Row>,
    /// The id of the last document that was taken, from which the stream goes on.
    pub after: u64,
    /// Where the lists are to be opened behind that id; nothing where the stream has ended or memory ran out.
    pub hints: Hints,
}

/// Reads so many rows of a stream. The iterator stands behind `after`, and the documents are taken in order of their ids,
/// until there are so many rows or none is left. Each document that is taken is read once, and no other.
pub fn read_stream<T: Lists, L: Ledger>(
    alloc: Global,
    def: &IndexDef,
    lists: &T,
    store: &mut HashStore,
    iter: Iter,
    steps: &StreamSteps,
    after: u64,
    count: u32,
    counter: &mut Steps<L>,
) -> Result<StreamRead, NoMemory>
    requires walkable { IsWalkable (T.held lists.now) iter after store.old.space }
    ensures rows { IfOk result (λ read. read.rows.items ≡ stream_rows def.now steps.now
        (stream_taken def.now steps.now after count (docs_found (T.held lists.now) iter store.old.space))) }
    ensures after { IfOk result (λ read. read.after ≡ last_id after
        (stream_taken def.now steps.now after count (docs_found (T.held lists.now) iter store.old.space))) }

    ensures hints { IfOk result (λ read. AreOpenBehind (T.held lists.now) read.after read.hints.0) }

    // What is read.
    ensures reads { OnOk result (store.new.reads ≡ reads_after store.old.reads (length
        (stream_taken def.now steps.now after count (docs_found (T.held lists.now) iter store.old.space)))) }
    ensures rises { store.old.reads ≤ store.new.reads }
    ensures same { store.new ≡ record store.old { reads = store.new.reads } }
    ensures counts { counter.old ≤ counter.new }
{
    let mut iter = iter;
    let mut rows = Vec::new(alloc);
    let read = take_docs(
        def,
        lists,
        store,
        &mut iter,
        steps,
        after,
        count as usize,
        &mut rows,
        counter,
    );
    match read {
        Ok(after) => {
            let ended = rows.len() < count as usize;
            let hints = hints_behind(alloc, lists, iter, ended, after, counter);
            Ok(StreamRead { rows, after, hints })
        }
        Err(error) => {
            drop(iter);
            drop(rows);
            Err(error)
        }
    }
}

/// Takes documents behind an id until there are so many rows, and answers the id of the last one.
fn take_docs<T: Lists, L: Ledger>(
    def: &IndexDef,
    lists: &T,
    store: &mut HashStore,
    iter: &mut Iter,
    steps: &StreamSteps,
    after: u64,
    count: usize,
    rows: &mut Vec<Row>,
    counter: &mut Steps<L>,
) -> Result<u64, NoMemory>
    requires walkable { IsWalkable (T.held lists.now) iter.old after store.old.space }
    requires none { rows.old.items ≡ [] }
    ensures rows { OnOk result (rows.new.items ≡ stream_rows def.now steps.now
        (stream_taken def.now steps.now after count (docs_found (T.held lists.now) iter.old store.old.space))) }
    ensures after { IfOk result (λ last. last ≡ last_id after
        (stream_taken def.now steps.now after count (docs_found (T.held lists.now) iter.old store.old.space))) }

    ensures reads { OnOk result (store.new.reads ≡ reads_after store.old.reads (length
        (stream_taken def.now steps.now after count (docs_found (T.held lists.now) iter.old store.old.space)))) }
    ensures rises { store.old.reads ≤ store.new.reads }
    ensures same { store.new ≡ record store.old { reads = store.new.reads } }
    ensures counts { counter.old ≤ counter.new }
{
    tell(store);
    let mut last = after;
    'taking: while rows.len() < count {
        let id = match next_id(lists, iter, last, counter) {
            Ok(Some(id)) => id,
            Ok(None) => break,
            Err(fault) => return Err(fault),
        };
        take_doc(def, store, steps, id, rows)?;
        last = id;
    }
    Ok(last)
}

/// The next id behind another.
fn next_id<T: Lists, L: Ledger>(
    lists: &T,
    iter: &mut Iter,
    last: u64,
    counter: &mut Steps<L>,
) -> Result<Option<u64>, NoMemory>
    requires asked { IsAskable (T.held lists.now) iter.old last }
    ensures least { IfOk result (λ next. IsLeast (in_set (T.held lists.now) iter.old) (last + 1) next) }
    ensures same { OnOk result (about (T.held lists.now) iter.new ≡ about (T.held lists.now) iter.old) }
    ensures asked { IfOk result (λ next. IfSome next (λ id. IsAskable (T.held lists.now) iter.new id)) }
    ensures counts { counter.old ≤ counter.new }
{
    // Behind the last number there is no id.
    if last == u64::MAX {
        return Ok(None);
    }
    iter.seek(lists, last + 1, counter)
}

/// Takes the document of an id, which is read once. A step may drop its row.
fn take_doc(
    def: &IndexDef,
    store: &mut HashStore,
    steps: &StreamSteps,
    id: u64,
    rows: &mut Vec<Row>,
) -> Result<(), NoMemory>
    requires stored { IsSome (doc_at id store.old.space) }
    ensures row { OnOk result (ForSome (doc_at id store.old.space) (λ doc.
        rows.new.items ≡ rows.old.items ++ option_to_list (stream_row def.now steps.now doc))) }

    ensures reads { store.new ≡ record store.old { reads = reads_after store.old.reads 1 } }
{
    let doc = store.get_by_id(id).unwrap();
    if let Some(row) = steps.one(def, doc)? {
        rows.push(row)?;
    }
    Ok(())
}
