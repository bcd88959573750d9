//! Repairs of an index's words, spliced once documents went.
ghost use Rattle.std.specs.Prelude.{◌≡◌, IfOk, IfSome, OnOk};
ghost use Rattle.doc_table.specs.Pages.{has_id};
ghost use Rattle.ft_index.specs.Markers.{AreBefore};
ghost use Rattle.leaf_rows.specs.Splicing.{IsRepairOf, RepairsWord, WereLive};

use super::dead::put_outcome;
use super::scans::kill;
use crate::answer::Answer;
use ft_base::{Bytes, NoMemory};
use ft_index::{AnyRepair, FtIndex, Snapshot};
use gc_splice::{Repair, repair_here};
use id_iters::ListName;
use inverted_list::{List, Markers};
use posting_block::TextHit;
use std::alloc::Global;

/// Repairs a word's list as it is, takes documents out, and splices the repair.
pub fn put_spliced(
    alloc: Global,
    index: &mut FtIndex,
    markers: &mut Markers,
    word: &[u8],
    spans: &[u8],
    out: &mut Answer,
) -> Result<(), NoMemory>
    requires before { AreBefore markers.old index.old.lists }
    ensures last { OnOk result (index.new.table.last ≡ index.old.table.last) }
    ensures before { OnOk result (AreBefore markers.new index.new.lists) }
{
    let snapshot = index.scan(9)?;
    let Some(repair) = repair_of(alloc, index, word, &snapshot)? else {
        out.put(b" clean");
        return Ok(());
    };
    kill(alloc, index, spans)?;
    splice_word(alloc, index, markers, word, repair, &snapshot, out)
}

// The repair of a word's list, if it has a dead entry.
fn repair_of(
    alloc: Global,
    index: &FtIndex,
    word: &[u8],
    snapshot: &Snapshot,
) -> Result<Option<Repair<TextHit>>, NoMemory>
    ensures { IfOk result (λ made. IfSome made (RepairsWord snapshot.now index.now.lists word.now)) }
{
    match index.lists().terms().list(word) {
        Some(list) => repair_by(alloc, list, snapshot),
        None => Ok(None),
    }
}

fn repair_by(
    alloc: Global,
    list: &List<TextHit>,
    snapshot: &Snapshot,
) -> Result<Option<Repair<TextHit>>, NoMemory>
    ensures { IfOk result (λ made. IfSome made (λ repair. IsRepairOf (has_id snapshot.now.live) list.now repair)) }
{
    let picture = list.picture()?;
    repair_here(alloc, &picture, snapshot)
}

fn splice_word(
    alloc: Global,
    index: &mut FtIndex,
    markers: &mut Markers,
    word: &[u8],
    repair: Repair<TextHit>,
    snapshot: &Snapshot,
    out: &mut Answer,
) -> Result<(), NoMemory>
    requires repair { RepairsWord snapshot.now index.old.lists word.now repair }
    requires live { WereLive snapshot.now index.old }
    requires before { AreBefore markers.old index.old.lists }
    ensures last { OnOk result (index.new.table.last ≡ index.old.table.last) }
    ensures before { OnOk result (AreBefore markers.new index.new.lists) }
{
    let text = Bytes::from_slice(alloc, word)?;
    let name = ListName::Word { text };
    let mut repair = AnyRepair::Word(repair);
    let Some(marker) = markers.take() else {
        return Err(NoMemory);
    };
    put_outcome(index.splice(&name, &mut repair, marker), out);
    Ok(())
}
