//! A search that is sorted by what stands in its documents: each is read once, and of all only the first rows are held, up to
//! the end of the window.
ghost use Rattle.std.specs.Prelude.{◌≡◌, ◌<◌, ◌≤◌, ◌+◌, ◌^◌, ◌∷◌, [], IfOk, IsOk, IsSome, OnOk, length};
ghost use Rattle.std.specs.Option.{ForSome};
ghost use Rattle.hash_store.specs.Store.{reads_after};
ghost use Rattle.search_exec.specs.Candidates.{AreWalkable, docs_counted};
ghost use Rattle.doc_reads.specs.Ids.{doc_at};
ghost use Rattle.search_exec.specs.Ranks.{first_ranked, offered, page_from, ranked};
ghost use Rattle.doc_reads.specs.Shapes.{order_by, page_by, row_by, value_by};

use crate::candidates::Candidates;
use crate::replied_rows::counted;
use doc_reads::{Shape, SortKey, push_row, tell};
use field_text::number;
use ft_base::{Bytes, Doc, ListOf, NoMemory, Reply, Steps, Value};
use hash_store::HashStore;
use id_iters::Lists;
use row_sort::{FirstRows, Ranked};
use std::alloc::Global;
use std::slice;
use std::sync::ledger::Ledger;

/// The reply of the documents of some ids, in the order of a field. Each is read once.
pub fn page_by_field<T: Lists, L: Ledger>(
    alloc: Global,
    lists: &T,
    store: &mut HashStore,
    candidates: &mut Candidates,
    shape: &Shape<'_>,
    key: SortKey<'_>,
    steps: &mut Steps<L>,
) -> Result<Reply, NoMemory>
    requires walkable { AreWalkable (T.held lists.now) candidates.old store.old.space }
    requires window { shape.now.offset + shape.now.num < 2 ^ 64 }
    ensures reply { IfOk result (λ reply. reply ≡ page_by shape.now
        (order_by key.entry (docs_counted (T.held lists.now) candidates.old store.old.space))) }

    // What is read.
    ensures reads { OnOk result (store.new.reads ≡ reads_after store.old.reads
        (length (docs_counted (T.held lists.now) candidates.old store.old.space))) }
    ensures rises { store.old.reads ≤ store.new.reads }
    ensures same { store.new ≡ record store.old { reads = store.new.reads } }
    ensures counts { steps.old ≤ steps.new }
{
    let keys = ListOf::from_vec(vec![in alloc; key.by]?);
    let mut first = FirstRows::new(alloc, keys, shape.offset + shape.num);
    let total = offer_all(
        &mut first, alloc, lists, store, candidates, shape, key, steps,
    );
    first_page(alloc, total, first, shape.offset)
}

// Offers the rows of all documents, where none was offered before, and answers how many there are.
fn offer_all<T: Lists, L: Ledger>(
    first: &mut FirstRows<ListOf<Reply>>,
    alloc: Global,
    lists: &T,
    store: &mut HashStore,
    candidates: &mut Candidates,
    shape: &Shape<'_>,
    key: SortKey<'_>,
    steps: &mut Steps<L>,
) -> Result<u64, NoMemory>
    requires none { first.old.rows ≡ [] }
    requires keys { first.old.by ≡ key.by ∷ [] }
    requires walkable { AreWalkable (T.held lists.now) candidates.old store.old.space }
    ensures rows { OnOk result (first.new.rows ≡ first_ranked shape.now key.entry first.old.most
        (docs_counted (T.held lists.now) candidates.old store.old.space)) }
    ensures total { IfOk result (λ total. total
        ≡ length (docs_counted (T.held lists.now) candidates.old store.old.space)) }
    ensures few { IfOk result (λ total. total < 2 ^ 63) }

    ensures reads { OnOk result (store.new.reads ≡ reads_after store.old.reads
        (length (docs_counted (T.held lists.now) candidates.old store.old.space))) }
    ensures rises { store.old.reads ≤ store.new.reads }
    ensures same { store.new ≡ record store.old { reads = store.new.reads } }
    ensures counts { steps.old ≤ steps.new }
{
    tell(store);
    let mut total = 0;
    let mut from = 1;
    'asking: loop {
        let id = match candidates.seek(lists, from, steps) {
            Ok(Some(id)) => id,
            Ok(None) => return Ok(total),
            Err(fault) => return Err(fault),
        };
        if let Err(fault) = offer_id(first, alloc, store, id, shape, key) {
            return Err(fault);
        }
        total += 1;
        from = id + 1;
    }
}

// Offers the row of an id's document, which is read once.
fn offer_id(
    first: &mut FirstRows<ListOf<Reply>>,
    alloc: Global,
    store: &mut HashStore,
    id: u64,
    shape: &Shape<'_>,
    key: SortKey<'_>,
) -> Result<(), NoMemory>
    requires stored { IsSome (doc_at id store.old.space) }
    ensures row { OnOk result (ForSome (doc_at id store.old.space) (λ doc.
        first.new ≡ offered first.old (ranked shape.now key.entry doc))) }
    ensures rest { OnOk result (first.new ≡ record first.old { rows = first.new.rows }) }
    ensures reads { store.new ≡ record store.old { reads = reads_after store.old.reads 1 } }
{
    let doc = store.get_by_id(id).unwrap();
    offer_doc(first, alloc, doc, shape, key)
}

// Offers the row of a document. It is made only where it may be among the first.
fn offer_doc(
    first: &mut FirstRows<ListOf<Reply>>,
    alloc: Global,
    doc: &Doc,
    shape: &Shape<'_>,
    key: SortKey<'_>,
) -> Result<(), NoMemory>
    ensures { OnOk result (first.new ≡ offered first.old (ranked shape.now key.entry doc.now)) }
{
    let value = value_of(alloc, key, doc)?;
    if first.turns_away(slice::from_ref(&value)) {
        return Ok(());
    }
    first.offer(rank(alloc, shape, doc, value)?)
}

// The row of a document with the value that it is sorted by.
fn rank(
    alloc: Global,
    shape: &Shape<'_>,
    doc: &Doc,
    value: Value,
) -> Result<Ranked<ListOf<Reply>>, NoMemory>
    ensures { IfOk result (λ row. row ≡ record { values = value ∷ []; item = row_by shape.now doc.now }) }
{
    let values = ListOf::from_vec(vec![in alloc; value]?);
    let mut replies = Vec::new(alloc);
    push_row(alloc, shape, doc, &mut replies)?;
    Ok(Ranked {
        values,
        item: ListOf::from_vec(replies),
    })
}

// What a key sees of a document: its number, or a copy of its text. Null stands where there is none.
fn value_of(alloc: Global, key: SortKey<'_>, doc: &Doc) -> Result<Value, NoMemory>
    ensures { IfOk result (λ value. value ≡ value_by key.entry doc.now) }
{
    let Some(text) = doc.hash().get(key.field) else {
        return Ok(Value::Null);
    };
    if key.numeric {
        return Ok(number(text).map_or(Value::Null, Value::Num));
    }
    Ok(Value::Text(Bytes::from_slice(alloc, text)?))
}

// The same of the rows that are ranked first, where those of all were offered.
fn first_page(
    alloc: Global,
    total: Result<u64, NoMemory>,
    first: FirstRows<ListOf<Reply>>,
    offset: usize,
) -> Result<Reply, NoMemory>
    requires few { IfOk total (λ total. total < 2 ^ 63) }
    ensures offered { IfOk result (λ reply. IsOk total) }
    ensures reply { IfOk result (λ reply. IfOk total (λ total. reply ≡ page_from offset total first.rows)) }
{
    let total = total?;
    let rows = first.into_rows()?;
    into_page(alloc, total, rows, offset)
}

// The reply of so many documents, of which the rows from an offset on are shown.
fn into_page(
    alloc: Global,
    total: u64,
    rows: Vec<Ranked<ListOf<Reply>>>,
    offset: usize,
) -> Result<Reply, NoMemory>
    requires few { total < 2 ^ 63 }
    ensures { IfOk result (λ reply. reply ≡ page_from offset total rows.items) }
{
    let mut replies = counted(alloc, total, 1)?;
    'showing: for row in rows.into_iter().skip(offset) {
        replies.extend(row.item.into_vec())?;
    }
    Ok(Reply::Array(ListOf::from_vec(replies)))
}
