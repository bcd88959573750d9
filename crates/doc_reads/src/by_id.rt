//! A document of an id, noted on a page. What is not shown with its fields is not read.
ghost use Rattle.std.specs.Prelude.{◌≡◌, ◌<◌, ◌≤◌, ◌+◌, ◌^◌, ◌∷◌, ◌++◌, [], ℕ, List, IsSome, OnOk};
ghost use Rattle.std.specs.Option.{ForSome};
ghost use Rattle.ft_base.specs.Docs.{Doc};
ghost use Rattle.hash_store.specs.Store.{reads_after};
ghost use Rattle.doc_reads.specs.Ids.{doc_at};
ghost use Rattle.doc_reads.specs.Pages.{Shows, reads_of};

use crate::page::Page;
use crate::shape::Shape;
use ft_base::NoMemory;
use hash_store::HashStore;
use std::alloc::Global;

/// Notes the document of an id. Outside the window it is counted, and neither its key nor the document is asked for.
pub fn note_id(
    page: &mut Page,
    alloc: Global,
    store: &mut HashStore,
    shape: &Shape<'_>,
    id: u64,
) -> Result<(), NoMemory>
    requires few { page.old.total < 2 ^ 62 }
    requires bits { store.old.reads < 2 ^ 64 }
    requires stored { IsSome (doc_at id store.old.space) }
    ensures shown { OnOk result ((docs : List Doc) → ForSome (doc_at id store.old.space) (λ doc.
        Shows shape.now docs page.old → Shows shape.now (docs ++ doc ∷ []) page.new)) }
    ensures total { OnOk result (page.new.total ≡ page.old.total + 1) }

    ensures reads { OnOk result ((start : ℕ)
        → store.old.reads ≡ reads_after start (reads_of shape.now page.old.total)
        → store.new.reads ≡ reads_after start (reads_of shape.now page.new.total)) }
    ensures rises { store.old.reads ≤ store.new.reads }
    ensures same { store.new ≡ record store.old { reads = store.new.reads } }
{
    if !page.shows_next(shape) {
        page.note_unseen();
        return Ok(());
    }
    if shape.no_content {
        let key = store.key_of(id).unwrap();
        return page.note_key(alloc, key);
    }
    let doc = store.get_by_id(id).unwrap();
    page.note(alloc, shape, doc)
}
