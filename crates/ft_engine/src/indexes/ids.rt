//! The ids of what a query finds in an index: the query is planned over the index's lists.
ghost use Rattle.std.specs.Prelude.{IfOk};
ghost use Rattle.ft_engine.specs.Found.{Finds};
ghost use Rattle.ft_engine.specs.Reading.{IsReadable};

use ft_base::{ListOf, NoMemory, Query, Steps};
use ft_index::FtIndex;
use hash_store::HashStore;
use id_iters::{Hints, Iter};
use query_plan::plan;
use std::alloc::Global;
use std::sync::ledger::Ledger;

/// The ids of what a query finds in an index.
pub fn ids_found<L: Ledger>(
    store: &HashStore,
    index: &FtIndex,
    alloc: Global,
    query: &Query,
    steps: &mut Steps<L>,
) -> Result<Iter, NoMemory>
    requires readable { IsReadable index.now store.now.space }
    ensures { IfOk result (Finds index.now query.now 0 store.now.space) }
{
    let hints = Hints(ListOf::new(alloc));
    Ok(ids_behind(store, index, alloc, query, &hints, 0, steps)?)
}

/// The same, to be asked for behind `after`. A list is opened at the hint that fits, if there is one.
pub fn ids_behind<L: Ledger>(
    store: &HashStore,
    index: &FtIndex,
    alloc: Global,
    query: &Query,
    hints: &Hints,
    after: u64,
    steps: &mut Steps<L>,
) -> Result<Iter, NoMemory>
    requires readable { IsReadable index.now store.now.space }
    ensures { IfOk result (Finds index.now query.now after store.now.space) }
{
    // Tells that the ids of the documents rise.
    let _count = store.len();
    Ok(plan(alloc, index.def(), index, query, hints, after, steps)?)
}
