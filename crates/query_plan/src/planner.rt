//! The plan of a query over the lists of an index.
ghost use Rattle.std.specs.Prelude.{◌≡◌, ◌≤◌, ◌+◌, ℕ, List, IfOk, All};
ghost use Rattle.ft_base.specs.Docs.{Doc};
ghost use Rattle.id_iters.specs.Fitting.{HasFitting, IsPlaced, leaves_of};
ghost use Rattle.id_iters.specs.Held.{AreLists};
ghost use Rattle.id_iters.specs.Ready.{Ready};
ghost use Rattle.id_iters.specs.Sets.{in_set};
ghost use Rattle.query_plan.specs.Finds.{AreOf, finds};

use crate::query_tree::plan_part;
use ft_base::{IndexDef, NoMemory, Query, Steps};
use id_iters::{Hints, Iter, Lists};
use list_plan::{Room, Sources, known_places};
use std::alloc::Global;
use std::sync::ledger::Ledger;

/// The iterator of the ids above `after` of the documents that meet the query, and of no others. A leaf stands at the
/// place of each hint that fits it; where each leaf has one, no list is searched. Any hints may be given, those too whose
/// lists have changed or are gone: which ones there are makes no difference to the ids.
pub fn plan<T: Lists, L: Ledger>(
    alloc: Global,
    def: &IndexDef,
    lists: &T,
    query: &Query,
    hints: &Hints,
    after: u64,
    steps: &mut Steps<L>,
) -> Result<Iter, NoMemory>
    ensures set { IfOk result (λ iter. (docs : List Doc)
        → AreOf def.now (T.held lists.now) (T.named lists.now) docs
        → (id : ℕ) → in_set (T.held lists.now) iter id ≡ finds query.now def.now docs id) }
    ensures ready { IfOk result (λ iter. Ready (T.held lists.now) iter (after + 1)) }
    // Each leaf's list is open behind `after`, at the place of each hint that fits the leaf.
    ensures placed { IfOk result (λ iter.
        All (λ leaf. IsPlaced (T.held lists.now) after hints.now.0 leaf) (leaves_of iter)) }
    // What hints save.
    ensures free { IfOk result (λ iter.
        All (λ leaf. HasFitting (T.held lists.now) after hints.now.0 leaf) (leaves_of iter)
        → steps.new ≡ steps.old) }
    // What an iterator asks of the lists that it reads.
    ensures lists { (docs : List Doc) → AreOf def.now (T.held lists.now) (T.named lists.now) docs
        → AreLists (T.held lists.now) }
    ensures counts { steps.old ≤ steps.new }
{
    let known = known_places(alloc, lists, hints.0.as_slice(), after)?;
    let sources = Sources {
        alloc,
        def,
        lists,
        known: &known,
        after,
        room: Room::new(),
    };
    let part = plan_part(&sources, query, steps)?;
    let planned = part.whole(alloc, &sources.room)?;
    Ok(planned.iter)
}
