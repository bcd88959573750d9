//! What a write does to every index: entries of lists first, liveness last.
ghost use Rattle.std.specs.Prelude.{◌≡◌, ◌+◌, List, Some, map, OnOk};
ghost use Rattle.std.specs.List.{All, AllPairs};
ghost use Rattle.ft_base.specs.Docs.{Doc};
ghost use Rattle.ft_meaning.specs.Meaning.{ValuesFit};
ghost use Rattle.indexed_store.specs.DefinitionsOf.{definitions_of};
ghost use Rattle.indexed_store.specs.Indexing.{Awaits, killed, settled};
ghost use Rattle.indexed_store.specs.Listed.{EntersDoc};
ghost use Rattle.indexed_store.specs.Moving.{IndexesMove};
ghost use Rattle.indexed_store.specs.Standing.{AreApart, IndexStands};

use ft_base::{Doc, NoMemory};
use ft_index::FtIndex;
use inverted_list::Markers;

/// Puts a document's entries into each index, where nothing sees them yet. Where memory runs out,
/// some indexes may have them.
#[tactic(auto, using(crate::proofs::MovingLaws::moves_same))]
pub fn prepare_all(
    indexes: &mut [FtIndex],
    doc: &Doc,
    markers: &mut Markers,
) -> Result<(), NoMemory>
    ghost space: { List Doc }
    requires stand { All (IndexStands space doc.now.id markers.old) indexes.old }
    requires apart { AllPairs AreApart indexes.old }
    requires values { ValuesFit doc.now.hash }
    ensures stand { All (IndexStands space (doc.now.id + 1) markers.new) indexes.new }
    ensures apart { AllPairs AreApart indexes.new }
    ensures definitions { definitions_of indexes.new ≡ definitions_of indexes.old }
    ensures waits { OnOk result (All (Awaits space doc.now) indexes.new) }
    ensures enters { OnOk result (EntersDoc doc.now indexes.old indexes.new) }
    ensures event { markers.new.event ≡ markers.old.event }
    ensures moves { IndexesMove markers.old.event indexes.old indexes.new }
{
    for index in indexes.iter_mut() {
        index.prepare(doc, markers)?;
    }
    Ok(())
}

/// Commits the document that waits in each index, and takes the one out that it replaces. It takes no
/// memory.
pub fn commit_all(indexes: &mut [FtIndex], replaced: Option<u64>)
    ensures { indexes.new ≡ map (settled replaced) indexes.old }
{
    for index in indexes.iter_mut() {
        settle(index, replaced);
    }
}

fn settle(index: &mut FtIndex, replaced: Option<u64>)
    ensures { index.new ≡ settled replaced index.old }
{
    if let Some(ready) = index.ready() {
        index.commit(ready);
    }
    if let Some(old) = replaced {
        index.kill(old);
    }
}

/// Takes a document out of each index. It takes no memory.
pub fn kill_all(indexes: &mut [FtIndex], id: u64)
    ensures { indexes.new ≡ map (killed (Some id)) indexes.old }
{
    for index in indexes.iter_mut() {
        kill(index, id);
    }
}

fn kill(index: &mut FtIndex, id: u64)
    ensures { index.new ≡ killed (Some id) index.old }
{
    index.kill(id);
}
