//! Intervals of numbers as sets of ids.
ghost use Rattle.std.specs.Prelude.{◌≡◌, ◌≤◌, ◌+◌, [], map, IfOk, OnOk};
ghost use Rattle.ft_meaning.specs.Holds.{has_of};
ghost use Rattle.id_iters.specs.Fitting.{leaves_of};
ghost use Rattle.id_iters.specs.Ready.{Ready};
ghost use Rattle.query_plan.specs.Asked.{asked_of_each};
ghost use Rattle.list_plan.specs.Known.{KnownFit, place_of};
ghost use Rattle.query_plan.specs.Plans.{AllKnown, AllOpen, AllReady, PartsKnown, PartsOpen, Tells, ids_of};
ghost use Rattle.query_plan.specs.Sought.{section_of};

use crate::asked::plan_one_range;
use ft_base::{NoMemory, Span, Steps};
use id_iters::Lists;
use list_plan::{Planned, Sources, add_planned, some_of};
use std::sync::ledger::Ledger;

/// The documents whose number in a field lies between two ends, both included. Of a range that lies whole between them no
/// number is read.
pub fn plan_range<T: Lists, L: Ledger>(
    sources: &Sources<T>,
    field: u16,
    low: i64,
    high: i64,
    steps: &mut Steps<L>,
) -> Result<Planned, NoMemory>
    requires { KnownFit (T.held sources.now.lists.now) sources.now.after (place_of sources.now.known.now) }
    ensures set { IfOk result (λ planned.
        Tells sources.now.def.now (T.held sources.now.lists.now) (T.named sources.now.lists.now)
        (λ doc. (has_of sources.now.def.now doc).range field low high)
        (ids_of (T.held sources.now.lists.now) planned)) }
    ensures ready { IfOk result (λ planned.
        Ready (T.held sources.now.lists.now) planned.iter (sources.now.after + 1)) }
    ensures placed { IfOk result (λ planned.
        AllOpen (T.held sources.now.lists.now) sources.now.after (leaves_of planned.iter)) }
    ensures free { IfOk result (λ planned.
        AllKnown (place_of sources.now.known.now) (leaves_of planned.iter) → steps.new ≡ steps.old) }
    ensures counts { steps.old ≤ steps.new }
{
    let span = sources.lists.ranges_between(field, low, high);
    let mut plans = Vec::new(sources.alloc);
    plan_each_range(sources, field, span, low, high, &mut plans, steps)?;
    let count = plans.len() as u64;
    let made = some_of(sources.alloc, &sources.room, plans)?;
    sources.room.give_leaves(count);
    Ok(made)
}

// The ids of each range from one place on and before another one go into a vector that has none.
fn plan_each_range<T: Lists, L: Ledger>(
    sources: &Sources<T>,
    field: u16,
    span: Span,
    low: i64,
    high: i64,
    plans: &mut Vec<Planned>,
    steps: &mut Steps<L>,
) -> Result<(), NoMemory>
    requires known { KnownFit (T.held sources.now.lists.now) sources.now.after (place_of sources.now.known.now) }
    requires ordered { span.from ≤ span.to }
    requires empty { plans.old.items ≡ [] }
    ensures set { OnOk result (map (λ planned. ids_of (T.held sources.now.lists.now) planned) plans.new.items
        ≡ section_of (asked_of_each (T.held sources.now.lists.now) field low high ((T.named sources.now.lists.now).lows field)) span.from span.to) }
    ensures ready { OnOk result
        (AllReady (T.held sources.now.lists.now) plans.new.items (sources.now.after + 1)) }
    ensures placed { OnOk result
        (PartsOpen (T.held sources.now.lists.now) sources.now.after plans.new.items) }
    ensures free { OnOk result
        (PartsKnown (place_of sources.now.known.now) plans.new.items → steps.new ≡ steps.old) }
    ensures counts { steps.old ≤ steps.new }
{
    'places: for place in span.from..span.to {
        let Some(least) = sources.lists.low_at(field, place) else {
            continue;
        };
        let next = sources.lists.low_at(field, place + 1);
        add_planned(
            plans,
            plan_one_range(sources, field, least, next, low, high, steps),
        )?;
    }
    Ok(())
}
