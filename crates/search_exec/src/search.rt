//! What a search answers: which of the documents that an iterator finds count, in which order, and how they are shown.
ghost use Rattle.std.specs.Prelude.{◌≡◌, ◌<◌, ◌≤◌, ◌+◌, ◌^◌, IfOk, IfSome, IsTrue, OnOk, length};
ghost use Rattle.cmd_parse.specs.Seen.{search_of};
ghost use Rattle.ft_base.specs.Reply.{fits_wire};
ghost use Rattle.ft_machine.specs.Searching.{counted_reply};
ghost use Rattle.hash_store.specs.Store.{reads_after};
ghost use Rattle.search_exec.specs.Candidates.{in_candidates, AreWalkable, docs_counted};
ghost use Rattle.doc_reads.specs.Ids.{AreNumbered, FindsNumbered, IsWalkable, docs_found, docs_of};
ghost use Rattle.doc_reads.specs.Pages.{ordered_by, reads_by, reads_for, reads_sorted};
ghost use Rattle.doc_reads.specs.Shapes.{AreSeen, SortsBy, order_by, page_by};

use crate::by_column::page_by_column;
use crate::by_field::page_by_field;
use crate::by_ids::page_by_ids;
use crate::candidates::Candidates;
use cmd_parse::SearchSpec;
use doc_reads::{Shape, SortKey};
use ft_base::{IndexDef, NoMemory, Reply, Steps};
use hash_store::HashStore;
use id_iters::{Iter, Lists};
use std::alloc::Global;
use std::sync::ledger::Ledger;

/// What a search answers that finds the ids of an iterator in an index. Sorted by a field whose numbers the index does not
/// keep, each document that counts is read once; else those that are shown with their fields, and no other. The query's
/// text and its FILTERs are in the iterator.
pub fn search_reply<T: Lists, L: Ledger>(
    alloc: Global,
    def: &IndexDef,
    lists: &T,
    store: &mut HashStore,
    iter: Iter,
    search: &SearchSpec<'_>,
    steps: &mut Steps<L>,
) -> Result<Reply, NoMemory>
    requires walkable { IsWalkable (T.held lists.now) iter 0 store.old.space }
    requires numbered { FindsNumbered (T.held lists.now) iter (T.named lists.now).numbers def.now store.old.space }
    requires sorts { SortsBy def.now.fields (search_of search.now) }
    ensures reply { IfOk result (λ reply. reply ≡ counted_reply (search_of search.now) def.now
        (docs_of (search_of search.now).keys (docs_found (T.held lists.now) iter store.old.space))) }
    ensures fits { IfOk result (λ reply. IsTrue (fits_wire reply)) }

    // What is read.
    ensures reads { OnOk result (store.new.reads ≡ reads_after store.old.reads (reads_for (search_of search.now) def.now
        (length (docs_of (search_of search.now).keys (docs_found (T.held lists.now) iter store.old.space))))) }
    ensures rises { store.old.reads ≤ store.new.reads }
    ensures same { store.new ≡ record store.old { reads = store.new.reads } }
    ensures counts { steps.old ≤ steps.new }
{
    let mut candidates = Candidates::new(alloc, lists, store, iter, &search.keys)?;
    let reply = reply_of(alloc, def, lists, store, &mut candidates, search, steps);
    drop(candidates);
    reply
}

/// What a search answers that counts the documents of some ids.
fn reply_of<T: Lists, L: Ledger>(
    alloc: Global,
    def: &IndexDef,
    lists: &T,
    store: &mut HashStore,
    candidates: &mut Candidates,
    search: &SearchSpec<'_>,
    steps: &mut Steps<L>,
) -> Result<Reply, NoMemory>
    requires walkable { AreWalkable (T.held lists.now) candidates.old store.old.space }
    requires numbered { AreNumbered (in_candidates (T.held lists.now) candidates.old) (T.named lists.now).numbers def.now store.old.space }
    requires sorts { SortsBy def.now.fields (search_of search.now) }
    ensures reply { IfOk result (λ reply. reply ≡ counted_reply (search_of search.now) def.now
        (docs_counted (T.held lists.now) candidates.old store.old.space)) }
    ensures fits { IfOk result (λ reply. IsTrue (fits_wire reply)) }

    // What is read.
    ensures reads { OnOk result (store.new.reads ≡ reads_after store.old.reads (reads_for (search_of search.now) def.now
        (length (docs_counted (T.held lists.now) candidates.old store.old.space)))) }
    ensures rises { store.old.reads ≤ store.new.reads }
    ensures same { store.new ≡ record store.old { reads = store.new.reads } }
    ensures counts { steps.old ≤ steps.new }
{
    // These tell that the place behind the window has 64 bits.
    let _offset = search.offset;
    let _num = search.num;
    let shape = Shape::resolve(alloc, def, search)?;
    page_by_shape(alloc, lists, store, candidates, &shape, steps)
}

/// The reply of the documents of some ids in the order that a shape asks for. Where no row is shown, no order is seen, and
/// so no document is read.
fn page_by_shape<T: Lists, L: Ledger>(
    alloc: Global,
    lists: &T,
    store: &mut HashStore,
    candidates: &mut Candidates,
    shape: &Shape<'_>,
    steps: &mut Steps<L>,
) -> Result<Reply, NoMemory>
    requires walkable { AreWalkable (T.held lists.now) candidates.old store.old.space }
    requires seen { IfSome shape.now.sort (λ key.
        AreSeen (in_candidates (T.held lists.now) candidates.old) (T.named lists.now).numbers key store.old.space) }
    requires window { shape.now.offset + shape.now.num < 2 ^ 64 }
    ensures reply { IfOk result (λ reply. reply ≡ page_by shape.now
        (ordered_by shape.now.sort (docs_counted (T.held lists.now) candidates.old store.old.space))) }

    // What is read.
    ensures reads { OnOk result (store.new.reads ≡ reads_after store.old.reads (reads_by shape.now shape.now.sort
        (length (docs_counted (T.held lists.now) candidates.old store.old.space)))) }
    ensures rises { store.old.reads ≤ store.new.reads }
    ensures same { store.new ≡ record store.old { reads = store.new.reads } }
    ensures counts { steps.old ≤ steps.new }
{
    match shape.sort {
        Some(key) if shape.num > 0 => {
            page_by_key(alloc, lists, store, candidates, shape, key, steps)
        }
        _ => page_by_ids(alloc, lists, store, candidates, shape, steps),
    }
}

/// The reply of the documents of some ids in the order of a key: by the numbers that the index keeps, if it keeps the
/// field's, else by what stands in the documents.
fn page_by_key<T: Lists, L: Ledger>(
    alloc: Global,
    lists: &T,
    store: &mut HashStore,
    candidates: &mut Candidates,
    shape: &Shape<'_>,
    key: SortKey<'_>,
    steps: &mut Steps<L>,
) -> Result<Reply, NoMemory>
    requires walkable { AreWalkable (T.held lists.now) candidates.old store.old.space }
    requires seen { AreSeen (in_candidates (T.held lists.now) candidates.old) (T.named lists.now).numbers key store.old.space }
    requires window { shape.now.offset + shape.now.num < 2 ^ 64 }
    ensures reply { IfOk result (λ reply. reply ≡ page_by shape.now
        (order_by key.entry (docs_counted (T.held lists.now) candidates.old store.old.space))) }

    // What is read.
    ensures reads { OnOk result (store.new.reads ≡ reads_after store.old.reads (reads_sorted shape.now key.entry
        (length (docs_counted (T.held lists.now) candidates.old store.old.space)))) }
    ensures rises { store.old.reads ≤ store.new.reads }
    ensures same { store.new ≡ record store.old { reads = store.new.reads } }
    ensures counts { steps.old ≤ steps.new }
{
    match key.column {
        Some(column) => page_by_column(alloc, lists, store, candidates, shape, key, column, steps),
        None => page_by_field(alloc, lists, store, candidates, shape, key, steps),
    }
}
