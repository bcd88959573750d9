//! The places that a read of a stream ends at, for the read that goes on from there.
ghost use Rattle.std.specs.Prelude.{◌≡◌, ◌≤◌, []};
ghost use Rattle.id_iters.specs.Fitting.{AreOpenBehind};

use ft_base::{ListOf, Steps};
use id_iters::{Hints, Iter, Lists};
use std::alloc::Global;
use std::sync::ledger::Ledger;

/// Where the lists of an iterator are to be opened behind an id; nothing where the stream has ended or memory runs out.
pub(crate) fn hints_behind<T: Lists, L: Ledger>(
    alloc: Global,
    lists: &T,
    iter: Iter,
    ended: bool,
    after: u64,
    counter: &mut Steps<L>,
) -> Hints
    ensures hints { AreOpenBehind (T.held lists.now) after result.0 }
    ensures counts { counter.old ≤ counter.new }
{
    if ended {
        drop(iter);
        return no_hints(alloc);
    }
    let hints = iter.hints(alloc, lists, after, counter);
    drop(iter);
    match hints {
        Ok(hints) => hints,
        Err(_) => no_hints(alloc),
    }
}

fn no_hints(alloc: Global) -> Hints
    ensures { result.0 ≡ [] }
{
    Hints(ListOf::new(alloc))
}
