//! How a member enters an index: the table makes room for its sorting vector, then the lists get its
//! entries.
ghost use Rattle.std.specs.Prelude.{◌≡◌, ◌<◌, ◌≤◌, ◌++◌, ◌∷◌, [], List, length, OnOk};
ghost use Rattle.ft_base.specs.Docs.{Doc};
ghost use Rattle.ft_meaning.specs.Meaning.{ValuesFit};
ghost use Rattle.ft_meaning.specs.Sortable.{sorting_vector};
ghost use Rattle.ft_index.specs.Entering.{awaiting};
ghost use Rattle.ft_index.specs.Kept.{AreKept};
ghost use Rattle.ft_index.specs.Coming.{ListsCome};
ghost use Rattle.ft_index.specs.Has.{Has};
ghost use Rattle.ft_index.specs.Markers.{AreBefore, GainsMarkers};

use crate::lists::IndexLists;
use crate::sorting::vector_of;
use doc_table::DocTable;
use ft_base::{Doc, IndexDef, NoMemory};
use inverted_list::Markers;
use std::alloc::Global;

/// Puts a document's entries into the lists, under an id that is not live. Out of memory,
/// some of them may have come.
pub fn enter(
    alloc: Global,
    def: &IndexDef,
    table: &mut DocTable,
    lists: &mut IndexLists,
    doc: &Doc,
    markers: &mut Markers,
) -> Result<(), NoMemory>
    requires fields { length def.now.fields ≤ 1_024 }
    requires values { ValuesFit doc.now.hash }
    requires kept { AreKept table.old lists.old }
    requires later { table.old.last < doc.now.id }
    requires markers { AreBefore markers.old lists.old }
    ensures live { table.new.live ≡ table.old.live }
    ensures last { table.new.last ≤ doc.now.id }
    ensures kept { AreKept table.new lists.new }
    ensures unseen { (docs : List Doc) → Has def.now table.old.live lists.old docs
        → Has def.now table.old.live lists.new docs }
    ensures waits { OnOk result (table.new ≡ awaiting def.now doc.now table.old) }
    ensures seen { OnOk result ((docs : List Doc) → Has def.now table.old.live lists.old docs
        → Has def.now (table.old.live ++ (doc.now.id, sorting_vector def.now doc.now) ∷ []) lists.new (docs ++ doc.now ∷ [])) }
    ensures before { AreBefore markers.new lists.new }
    ensures gains { GainsMarkers lists.old lists.new markers.old markers.new }
    ensures comes { ListsCome markers.old.event lists.old lists.new }
    ensures event { markers.new.event ≡ markers.old.event }
    ensures next { markers.old.next ≤ markers.new.next }
{
    let vector = vector_of(alloc, def, doc)?;
    table.prepare(doc.id(), vector)?;
    lists.add(def, doc, markers)
}
