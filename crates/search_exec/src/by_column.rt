//! A search that is sorted by numbers that the index keeps: no document is read for its order, and of all ids only the first
//! are held, up to the end of the window. Then those of the window are shown.
ghost use Rattle.std.specs.Prelude.{◌≡◌, ◌<◌, ◌≤◌, ◌+◌, ◌^◌, ◌++◌, [], Some, IfOk, IsOk, OnOk, length, drop, option_to_list, flat_map};
ghost use Rattle.hash_store.specs.Store.{reads_after};
ghost use Rattle.id_iters.specs.Held.{AreLists};
ghost use Rattle.search_exec.specs.Candidates.{in_candidates, AreWalkable, MayAsk, docs_counted};
ghost use Rattle.doc_reads.specs.Ids.{doc_at};
ghost use Rattle.doc_reads.specs.Pages.{reads_of, reads_shown};
ghost use Rattle.search_exec.specs.Ranks.{AreAllRanked, docs_at, offered, page_at, ranked_id, reads_at};
ghost use Rattle.doc_reads.specs.Shapes.{AreSeen, order_by, page_by, row_by};

use crate::candidates::Candidates;
use crate::replied_rows::counted;
use doc_reads::{Shape, SortKey, push_key, push_row, tell};
use ft_base::{ListOf, NoMemory, Reply, Steps, Value};
use hash_store::HashStore;
use id_iters::Lists;
use row_sort::{FirstRows, Ranked};
use std::alloc::Global;
use std::slice;
use std::sync::ledger::Ledger;

/// The reply of the documents of some ids, in the order of the numbers in a column of their sorting vectors. Only those that are
/// shown with their fields are read, each once.
pub fn page_by_column<T: Lists, L: Ledger>(
    alloc: Global,
    lists: &T,
    store: &mut HashStore,
    candidates: &mut Candidates,
    shape: &Shape<'_>,
    key: SortKey<'_>,
    column: usize,
    steps: &mut Steps<L>,
) -> Result<Reply, NoMemory>
    requires walkable { AreWalkable (T.held lists.now) candidates.old store.old.space }
    requires column { key.column ≡ Some column }
    requires seen { AreSeen (in_candidates (T.held lists.now) candidates.old) (T.named lists.now).numbers key store.old.space }
    requires window { shape.now.offset + shape.now.num < 2 ^ 64 }
    ensures reply { IfOk result (λ reply. reply ≡ page_by shape.now
        (order_by key.entry (docs_counted (T.held lists.now) candidates.old store.old.space))) }

    // What is read.
    ensures reads { OnOk result (store.new.reads ≡ reads_after store.old.reads (reads_of shape.now
        (length (docs_counted (T.held lists.now) candidates.old store.old.space)))) }
    ensures rises { store.old.reads ≤ store.new.reads }
    ensures same { store.new ≡ record store.old { reads = store.new.reads } }
    ensures counts { steps.old ≤ steps.new }
{
    tell(store);
    let keys = ListOf::from_vec(vec![in alloc; key.by]?);
    let mut first = FirstRows::new(alloc, keys, shape.offset + shape.num);
    let total = offer_all(&mut first, alloc, lists, candidates, column, steps);
    first_page(alloc, total, first, store, shape)
}

// Offers all ids, where none was offered before, and answers how many there are.
fn offer_all<T: Lists, L: Ledger>(
    first: &mut FirstRows<u64>,
    alloc: Global,
    lists: &T,
    candidates: &mut Candidates,
    column: usize,
    steps: &mut Steps<L>,
) -> Result<u64, NoMemory>
    requires none { first.old.rows ≡ [] }
    requires lists { AreLists (T.held lists.now) }
    requires ready { MayAsk (T.held lists.now) candidates.old 1 }
    ensures ids { IfOk result (λ total. AreAllRanked (in_candidates (T.held lists.now) candidates.old)
        (λ id. (T.named lists.now).numbers id column) first.old total first.new) }
    ensures few { IfOk result (λ total. total < 2 ^ 63) }
    ensures counts { steps.old ≤ steps.new }
{
    let mut near = 0;
    let mut total = 0;
    let mut from = 1;
    'asking: while let Some(id) = candidates.seek(lists, from, steps)? {
        offer_id(first, alloc, lists, id, column, &mut near)?;
        total += 1;
        from = id + 1;
    }
    Ok(total)
}

// Offers an id. No memory is taken for one that is turned away.
fn offer_id<T: Lists>(
    first: &mut FirstRows<u64>,
    alloc: Global,
    lists: &T,
    id: u64,
    column: usize,
    near: &mut usize,
) -> Result<(), NoMemory>
    ensures rows { OnOk result (first.new ≡ offered first.old (ranked_id (λ id. (T.named lists.now).numbers id column) id)) }
{
    let number = lists.number_near(id, column, near);
    let value = number.map_or(Value::Null, Value::Num);
    if first.turns_away(slice::from_ref(&value)) {
        return Ok(());
    }
    let values = ListOf::from_vec(vec![in alloc; value]?);
    first.offer(Ranked { values, item: id })
}

// The same of what is ranked first, where the ids of all were offered.
fn first_page(
    alloc: Global,
    total: Result<u64, NoMemory>,
    first: FirstRows<u64>,
    store: &mut HashStore,
    shape: &Shape<'_>,
) -> Result<Reply, NoMemory>
    requires few { IfOk total (λ total. total < 2 ^ 63) }
    requires bits { store.old.reads < 2 ^ 64 }
    ensures offered { IfOk result (λ reply. IsOk total) }
    ensures reply { IfOk result (λ reply. IfOk total (λ total.
        reply ≡ page_at shape.now total first.rows store.old.space)) }
    ensures reads { OnOk result (store.new.reads
        ≡ reads_after store.old.reads (reads_at shape.now first.rows store.old.space)) }
    ensures rises { store.old.reads ≤ store.new.reads }
    ensures same { store.new ≡ record store.old { reads = store.new.reads } }
{
    let total = total?;
    let rows = first.into_rows()?;
    show_rows(alloc, total, rows, store, shape)
}

// The reply of so many documents, of which those are shown whose ids are ranked from the window's start on.
fn show_rows(
    alloc: Global,
    total: u64,
    rows: Vec<Ranked<u64>>,
    store: &mut HashStore,
    shape: &Shape<'_>,
) -> Result<Reply, NoMemory>
    requires few { total < 2 ^ 63 }
    requires bits { store.old.reads < 2 ^ 64 }
    ensures reply { IfOk result (λ reply. reply ≡ page_at shape.now total rows.items store.old.space) }
    ensures reads { OnOk result (store.new.reads
        ≡ reads_after store.old.reads (reads_at shape.now rows.items store.old.space)) }
    ensures rises { store.old.reads ≤ store.new.reads }
    ensures same { store.new ≡ record store.old { reads = store.new.reads } }
{
    let mut replies = counted(alloc, total, 1)?;
    show_ids(alloc, store, shape, rows, &mut replies)?;
    Ok(Reply::Array(ListOf::from_vec(replies)))
}

// Shows the documents of the ids that are ranked from the window's start on.
fn show_ids(
    alloc: Global,
    store: &mut HashStore,
    shape: &Shape<'_>,
    rows: Vec<Ranked<u64>>,
    replies: &mut Vec<Reply>,
) -> Result<(), NoMemory>
    requires bits { store.old.reads < 2 ^ 64 }
    ensures rows { OnOk result (replies.new.items ≡ replies.old.items
        ++ flat_map (row_by shape.now) (docs_at (drop shape.now.offset rows.items) store.old.space)) }
    ensures reads { OnOk result (store.new.reads
        ≡ reads_after store.old.reads (reads_at shape.now rows.items store.old.space)) }
    ensures rises { store.old.reads ≤ store.new.reads }
    ensures same { store.new ≡ record store.old { reads = store.new.reads } }
{
    'showing: for row in rows.into_iter().skip(shape.offset) {
        show_id(alloc, store, shape, row.item, replies)?;
    }
    Ok(())
}

// Shows the document of an id, where there is one. With its fields it is read once, and by its key alone it isn't read.
fn show_id(
    alloc: Global,
    store: &mut HashStore,
    shape: &Shape<'_>,
    id: u64,
    replies: &mut Vec<Reply>,
) -> Result<(), NoMemory>
    requires bits { store.old.reads < 2 ^ 64 }
    ensures row { OnOk result (replies.new.items
        ≡ replies.old.items ++ flat_map (row_by shape.now) (option_to_list (doc_at id store.old.space))) }

    ensures reads { store.new ≡ record store.old {
      reads = reads_after store.old.reads
          (reads_shown shape.now (length (option_to_list (doc_at id store.old.space))));
    } }
{
    if shape.no_content {
        return match store.key_of(id) {
            Some(key) => push_key(alloc, key, replies),
            None => Ok(()),
        };
    }
    match store.get_by_id(id) {
        Some(doc) => push_row(alloc, shape, doc, replies),
        None => Ok(()),
    }
}
