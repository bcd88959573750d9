//! What is asked of one range of a field: all its numbers where they lie within an interval, so that none is read.
ghost use Rattle.std.specs.Prelude.{◌≡◌, ◌≤◌, ◌+◌, IfOk};
ghost use Rattle.id_iters.specs.Entries.{range_has};
ghost use Rattle.id_iters.specs.Fitting.{leaves_of};
ghost use Rattle.id_iters.specs.Held.{entries_of};
ghost use Rattle.id_iters.specs.Ready.{Ready};
ghost use Rattle.query_plan.specs.Asked.{asked_of};
ghost use Rattle.list_plan.specs.Known.{KnownFit, place_of};
ghost use Rattle.query_plan.specs.Plans.{AllKnown, AllOpen, ids_of};

use ft_base::{Fields, NoMemory, Steps};
use id_iters::{ListName, Lists};
use list_plan::{Planned, Sources, Wanted, plan_list};
use std::sync::ledger::Ledger;

/// The ids of a range of a field, which ends where the next one begins, for the numbers from `low` to `high`.
pub fn plan_one_range<T: Lists, L: Ledger>(
    sources: &Sources<T>,
    field: u16,
    least: i64,
    next: Option<i64>,
    low: i64,
    high: i64,
    steps: &mut Steps<L>,
) -> Result<Planned, NoMemory>
    requires { KnownFit (T.held sources.now.lists.now) sources.now.after (place_of sources.now.known.now) }
    ensures set { IfOk result (λ planned. ids_of (T.held sources.now.lists.now) planned
        ≡ asked_of low high least next (entries_of ((T.held sources.now.lists.now).ranges field least))) }
    ensures ready { IfOk result (λ planned.
        Ready (T.held sources.now.lists.now) planned.iter (sources.now.after + 1)) }
    ensures placed { IfOk result (λ planned.
        AllOpen (T.held sources.now.lists.now) sources.now.after (leaves_of planned.iter)) }
    ensures free { IfOk result (λ planned.
        AllKnown (place_of sources.now.known.now) (leaves_of planned.iter) → steps.new ≡ steps.old) }
    ensures counts { steps.old ≤ steps.new }
{
    if low <= least && next.unwrap_or(i64::MAX) <= high {
        plan_numbers(sources, field, least, i64::MIN, i64::MAX, steps)
    } else {
        plan_numbers(sources, field, least, low, high, steps)
    }
}

// The ids that the range from `least` on has of the numbers from `low` to `high`.
fn plan_numbers<T: Lists, L: Ledger>(
    sources: &Sources<T>,
    field: u16,
    least: i64,
    low: i64,
    high: i64,
    steps: &mut Steps<L>,
) -> Result<Planned, NoMemory>
    requires { KnownFit (T.held sources.now.lists.now) sources.now.after (place_of sources.now.known.now) }
    ensures set { IfOk result (λ planned. ids_of (T.held sources.now.lists.now) planned
        ≡ range_has low high (entries_of ((T.held sources.now.lists.now).ranges field least))) }
    ensures ready { IfOk result (λ planned.
        Ready (T.held sources.now.lists.now) planned.iter (sources.now.after + 1)) }
    ensures placed { IfOk result (λ planned.
        AllOpen (T.held sources.now.lists.now) sources.now.after (leaves_of planned.iter)) }
    ensures free { IfOk result (λ planned.
        AllKnown (place_of sources.now.known.now) (leaves_of planned.iter) → steps.new ≡ steps.old) }
    ensures counts { steps.old ≤ steps.new }
{
    let list = ListName::Range { field, low: least };
    let wanted = Wanted {
        fields: &Fields::All,
        low,
        high,
    };
    plan_list(sources, list, &wanted, steps)
}
