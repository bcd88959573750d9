//! Ids that are dead, what a repair makes of a list without them, and what its splice did.
//!
//! Ids are written as spans: `1-250,300` are the ids from 1 to 250, and 300. The id 0 stands for none, since no entry has it.
ghost use Rattle.std.specs.Prelude.{◌≡◌, ◌≢◌, nat_eq, IfOk, IfSome, IsTrue};
ghost use Rattle.std.specs.List.{list_any};
ghost use Rattle.std.specs.Option.{option_copied};
ghost use Rattle.leaf_rows.specs.Splicing.{IsRepairOf, live_but};

use super::numbers::{number, put_found, put_marker};
use crate::answer::Answer;
use ft_base::NoMemory;
use gc_splice::{Live, Repair, Spliced, repair_here};
use inverted_list::{List, Marker};
use posting_block::Payload;
use std::alloc::Global;

/// The marker of a list once it was spliced.
pub const SPLICED: Marker = Marker { event: 2, nth: 0 };

/// All ids are live but these.
#[derive(Clone, Copy)]
pub struct Dead<'a> {
    pub ids: &'a [u64],
}

impl Live for Dead<'_> {
    ghost is = { λ dead id. live_but dead.ids.now id };

    fn is_live(&self, id: u64) -> bool {
        !has(self.ids, id)
    }
}

/// Whether an id is one of these.
pub fn has(ids: &[u64], id: u64) -> bool
    ensures { result ≡ list_any (nat_eq id) ids.now }
{
    ids.iter().any(|other| id == *other)
}

/// The ids that spans spell.
pub fn ids_of(alloc: Global, spans: &[u8]) -> Result<Vec<u64>, NoMemory> {
    let mut ids = Vec::new(alloc);
    for span in spans.split(|byte| *byte == b',') {
        push_span(&mut ids, span)?;
    }
    Ok(ids)
}

fn push_span(ids: &mut Vec<u64>, span: &[u8]) -> Result<(), NoMemory> {
    let at = span
        .iter()
        .position(|byte| *byte == b'-')
        .unwrap_or(span.len());
    let (first, last) = span.split_at(at.min(span.len()));
    let from = number(first).min(10_000);
    let to = match last {
        [_, last @ ..] => number(last).min(10_000),
        [] => from,
    };
    for id in from..to + 1 {
        ids.push(id)?;
    }
    Ok(())
}

/// The repair of a list as it is.
pub fn repair_of<P: Payload>(
    alloc: Global,
    list: &List<P>,
    dead: &Dead<'_>,
) -> Result<Option<Repair<P>>, NoMemory>
    ensures { IfOk result (λ made. IfSome made (λ repair.
        IsRepairOf (live_but dead.now.ids.now) list.now repair)) }
{
    let picture = list.picture()?;
    repair_here(alloc, &picture, dead)
}

/// Whether a list is gone, or has another marker than this.
pub fn is_moved<P: Payload>(list: Option<&List<P>>, seen: Marker) -> bool
    ensures { IsTrue result → IfSome (option_copied list.entry) (λ l. seen ≢ l.marker) }
{
    match list {
        Some(list) => list.marker() != seen,
        None => true,
    }
}

/// Writes what a splice did, as `done`, how many entries went and what became of the tail, or `moved` and the two markers.
pub fn put_outcome(outcome: Spliced, out: &mut Answer) {
    match outcome {
        Spliced::Done { removed, tail_kept } => {
            out.put(b" done");
            put_found(Some(removed), out);
            out.put(if tail_kept { b" kept" } else { b" repaired" });
        }
        Spliced::Moved { seen, now } => {
            out.put(b" moved");
            put_marker(Some(seen), out);
            put_marker(Some(now), out);
        }
        Spliced::Gone => out.put(b" gone"),
        Spliced::LastEvent => out.put(b" last"),
    }
}
