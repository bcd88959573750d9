//! The leaves of a plan: lists that are opened behind an id.
ghost use Rattle.std.specs.Prelude.{◌≡◌, ◌≤◌, ◌+◌, [], map, IfOk, IsSome, OnOk};
ghost use Rattle.id_iters.specs.Fitting.{IsOpenAt, leaves_of};
ghost use Rattle.id_iters.specs.Leaves.{list_has};
ghost use Rattle.id_iters.specs.Places.{LeafReady, WordReady};
ghost use Rattle.id_iters.specs.Ready.{Ready};
ghost use Rattle.list_plan.specs.Known.{KnownFit, place_of};
ghost use Rattle.list_plan.specs.Plans.{AllKnown, AllOpen, AllReady, PartsKnown, PartsOpen, ids_of, some_has};

use crate::known::place_of;
use crate::size::{Planned, add_planned, list_size};
use crate::sources::{Sources, Wanted};
use crate::union::some_of;
use ft_base::{NoMemory, Steps};
use id_iters::{Iter, Leaf, ListName, Lists};
use std::sync::ledger::Ledger;

/// The leaf of a list, behind the ids up to the one that the sources name. Where the room for leaves is used up the list is not
/// opened. Room for so many entries that it reads ahead is taken too; whoever has a leaf that keeps more takes room for them.
pub fn leaf_of<T: Lists, L: Ledger>(
    sources: &Sources<T>,
    list: ListName,
    entries: u64,
    wanted: &Wanted,
    steps: &mut Steps<L>,
) -> Result<Leaf, NoMemory>
    requires { KnownFit (T.held sources.now.lists.now) sources.now.after (place_of sources.now.known.now) }
    ensures leaf { IfOk result (λ leaf. leaf ≡ record {
      list = list;
      place = leaf.place;
      fields = wanted.now.fields.now;
      low = wanted.now.low;
      high = wanted.now.high;
      ahead = [];
    }) }
    ensures ready { IfOk result (λ leaf.
        LeafReady (T.held sources.now.lists.now) leaf (sources.now.after + 1)) }
    ensures word_ready { IfOk result (λ leaf.
        WordReady (T.held sources.now.lists.now) leaf (sources.now.after + 1)) }
    ensures placed { IfOk result (λ leaf.
        IsOpenAt (T.held sources.now.lists.now) leaf.list sources.now.after leaf.place) }
    ensures free { IfOk result (λ leaf.
        IsSome (place_of sources.now.known.now leaf.list) → steps.new ≡ steps.old) }
    ensures counts { steps.old ≤ steps.new }
{
    sources.room.take_leaf(entries, wanted.fields)?;
    let fields = wanted.fields.copy(sources.alloc)?;
    let hint = place_of(sources.known, &list);
    let place = list.open_at(sources.lists, hint, sources.after, steps);
    Ok(Leaf::new(sources.alloc, list, place, fields, wanted.low, wanted.high))
}

/// The ids of a list.
pub fn plan_list<T: Lists, L: Ledger>(
    sources: &Sources<T>,
    list: ListName,
    wanted: &Wanted,
    steps: &mut Steps<L>,
) -> Result<Planned, NoMemory>
    requires { KnownFit (T.held sources.now.lists.now) sources.now.after (place_of sources.now.known.now) }
    ensures set { IfOk result (λ planned. ids_of (T.held sources.now.lists.now) planned
        ≡ list_has (T.held sources.now.lists.now) list wanted.now.fields.now wanted.now.low wanted.now.high) }
    ensures ready { IfOk result (λ planned.
        Ready (T.held sources.now.lists.now) planned.iter (sources.now.after + 1)) }
    ensures placed { IfOk result (λ planned.
        AllOpen (T.held sources.now.lists.now) sources.now.after (leaves_of planned.iter)) }
    ensures free { IfOk result (λ planned.
        AllKnown (place_of sources.now.known.now) (leaves_of planned.iter) → steps.new ≡ steps.old) }
    ensures counts { steps.old ≤ steps.new }
{
    let size = list_size(sources.lists, &list);
    let leaf = leaf_of(sources, list, 0, wanted, steps)?;
    Ok(Planned {
        iter: Iter::of_leaf(leaf),
        size,
    })
}

/// The ids that some list has.
pub fn plan_lists<T: Lists, L: Ledger>(
    sources: &Sources<T>,
    lists: Vec<ListName>,
    wanted: &Wanted,
    steps: &mut Steps<L>,
) -> Result<Planned, NoMemory>
    requires { KnownFit (T.held sources.now.lists.now) sources.now.after (place_of sources.now.known.now) }
    ensures set { IfOk result (λ planned. ids_of (T.held sources.now.lists.now) planned
        ≡ some_has (T.held sources.now.lists.now) lists.items wanted.now.fields.now wanted.now.low wanted.now.high) }
    ensures ready { IfOk result (λ planned.
        Ready (T.held sources.now.lists.now) planned.iter (sources.now.after + 1)) }
    ensures placed { IfOk result (λ planned.
        AllOpen (T.held sources.now.lists.now) sources.now.after (leaves_of planned.iter)) }
    ensures free { IfOk result (λ planned.
        AllKnown (place_of sources.now.known.now) (leaves_of planned.iter) → steps.new ≡ steps.old) }
    ensures counts { steps.old ≤ steps.new }
{
    let count = lists.len() as u64;
    let mut plans = Vec::new(sources.alloc);
    plan_each_list(sources, lists, wanted, &mut plans, steps)?;
    sources.room.give_names(count);
    let made = some_of(sources.alloc, &sources.room, plans)?;
    sources.room.give_leaves(count);
    Ok(made)
}

// The ids of each list go into a vector that has none.
fn plan_each_list<T: Lists, L: Ledger>(
    sources: &Sources<T>,
    lists: Vec<ListName>,
    wanted: &Wanted,
    plans: &mut Vec<Planned>,
    steps: &mut Steps<L>,
) -> Result<(), NoMemory>
    requires known { KnownFit (T.held sources.now.lists.now) sources.now.after (place_of sources.now.known.now) }
    requires empty { plans.old.items ≡ [] }
    ensures set { OnOk result (map (λ planned. ids_of (T.held sources.now.lists.now) planned) plans.new.items
        ≡ map (λ name. list_has (T.held sources.now.lists.now) name wanted.now.fields.now wanted.now.low wanted.now.high) lists.items) }
    ensures ready { OnOk result
        (AllReady (T.held sources.now.lists.now) plans.new.items (sources.now.after + 1)) }
    ensures placed { OnOk result
        (PartsOpen (T.held sources.now.lists.now) sources.now.after plans.new.items) }
    ensures free { OnOk result
        (PartsKnown (place_of sources.now.known.now) plans.new.items → steps.new ≡ steps.old) }
    ensures counts { steps.old ≤ steps.new }
{
    'lists: for list in lists {
        add_planned(plans, plan_list(sources, list, wanted, steps))?;
    }
    Ok(())
}
