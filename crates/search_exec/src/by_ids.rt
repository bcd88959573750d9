//! A search that isn't sorted: its documents in order of their ids. All are counted, and those of the window are shown.
ghost use Rattle.std.specs.Prelude.{◌≡◌, ◌<◌, ◌≤◌, ◌+◌, ◌^◌, [], Some, IfOk, OnOk, length};
ghost use Rattle.hash_store.specs.Store.{reads_after};
ghost use Rattle.search_exec.specs.Candidates.{AreWalkable, docs_counted};
ghost use Rattle.doc_reads.specs.Pages.{Shows, reads_of};
ghost use Rattle.doc_reads.specs.Shapes.{page_by};

use crate::candidates::Candidates;
use doc_reads::{Page, Shape, note_id, tell};
use ft_base::{NoMemory, Reply, Steps};
use hash_store::HashStore;
use id_iters::Lists;
use std::alloc::Global;
use std::sync::ledger::Ledger;

/// The reply of the documents of some ids, in order of the ids. Only those that are shown with their fields are read,
/// each once; keys alone are had without a read.
pub fn page_by_ids<T: Lists, L: Ledger>(
    alloc: Global,
    lists: &T,
    store: &mut HashStore,
    candidates: &mut Candidates,
    shape: &Shape<'_>,
    steps: &mut Steps<L>,
) -> Result<Reply, NoMemory>
    requires walkable { AreWalkable (T.held lists.now) candidates.old store.old.space }
    ensures reply { IfOk result (λ reply. reply
        ≡ page_by shape.now (docs_counted (T.held lists.now) candidates.old store.old.space)) }

    // What is read.
    ensures reads { OnOk result (store.new.reads ≡ reads_after store.old.reads (reads_of shape.now
        (length (docs_counted (T.held lists.now) candidates.old store.old.space)))) }
    ensures rises { store.old.reads ≤ store.new.reads }
    ensures same { store.new ≡ record store.old { reads = store.new.reads } }
    ensures counts { steps.old ≤ steps.new }
{
    let mut page = Page::new(alloc, shape.num)?;
    note_all(&mut page, alloc, lists, store, candidates, shape, steps)?;
    Ok(page.into_reply())
}

/// Notes the documents of the candidates on a page of no document.
fn note_all<T: Lists, L: Ledger>(
    page: &mut Page,
    alloc: Global,
    lists: &T,
    store: &mut HashStore,
    candidates: &mut Candidates,
    shape: &Shape<'_>,
    steps: &mut Steps<L>,
) -> Result<(), NoMemory>
    requires none { Shows shape.now [] page.old }
    requires walkable { AreWalkable (T.held lists.now) candidates.old store.old.space }
    ensures shown { OnOk result
        (Shows shape.now (docs_counted (T.held lists.now) candidates.old store.old.space) page.new) }
    ensures few { OnOk result (page.new.total < 2 ^ 63) }

    ensures reads { OnOk result (store.new.reads ≡ reads_after store.old.reads (reads_of shape.now
        (length (docs_counted (T.held lists.now) candidates.old store.old.space)))) }
    ensures rises { store.old.reads ≤ store.new.reads }
    ensures same { store.new ≡ record store.old { reads = store.new.reads } }
    ensures counts { steps.old ≤ steps.new }
{
    tell(store);
    let mut from = 1;
    'asking: while let Some(id) = candidates.seek(lists, from, steps)? {
        note_id(page, alloc, store, shape, id)?;
        from = id + 1;
    }
    Ok(())
}
