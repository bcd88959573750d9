//! What several reducers made of the rows so far.
ghost use Rattle.std.specs.Prelude.{◌≡◌, drop, OnOk, IfOk};
ghost use Rattle.expr_eval.specs.Lending.{row_of, value_lent};
ghost use Rattle.agg_pipeline.specs.Made.{finished_cells, set_finished, starts, states_step, step};
ghost use Rattle.agg_pipeline.specs.Grouping.{value_for};
ghost use Rattle.agg_pipeline.specs.Rows.{set_cells};

use crate::cells::set_cell;
use crate::seen::Seen;
use crate::state::State;
use crate::step::Reducer;
use expr_eval::{Lent, LentRow};
use ft_base::{Bytes, Cell, IndexDef, NamedList, NoMemory};
use std::alloc::Global;
use std::marker::Model;

/// A state for each reducer, which a contract sees as their list.
#[derive(Drop)]
pub struct States {
    items: Vec<State>,
}

impl Model for States {
    ghost use Rattle.agg_pipeline.specs.Made.{ListOfStates, states_code};

    ghost Value = { ListOfStates };

    ghost coded = { states_code };

    ghost view = { λ s. s.items.items };
}

impl States {
    /// Nothing was made yet.
    pub fn new(alloc: Global, reduce: &[Reducer]) -> Result<States, NoMemory>
        ensures { IfOk result (λ states. states ≡ starts reduce.now) }
    {
        let mut items = Vec::new(alloc);
        for reducer in reduce {
            items.push(State::new(alloc, reducer.kind))?;
        }
        Ok(States { items })
    }

    /// Takes one more row in.
    pub fn step(
        &mut self,
        def: &IndexDef,
        reduce: &[Reducer],
        row: LentRow<'_>,
        room: &mut Vec<u8>,
    ) -> Result<(), NoMemory>
        ensures { OnOk result (self.new ≡ states_step def.now reduce.now self.old (row_of row.entry)) }
    {
        step_all(self.items.as_mut_slice(), def, reduce, row, room)
    }

    /// Sets the cells of what each reducer gives.
    pub fn finish(
        self,
        alloc: Global,
        reduce: &[Reducer],
        cells: &mut NamedList<Cell>,
    ) -> Result<(), NoMemory>
        ensures { OnOk result (cells.new ≡ set_cells cells.old (finished_cells reduce.now self)) }
    {
        let mut reducers = reduce;
        for state in self.items {
            set_finished(alloc, cells, reducers, state)?;
            reducers = behind_first(reducers);
        }
        Ok(())
    }
}

/// Sets the cell of what the first reducer gives.
fn set_finished(
    alloc: Global,
    cells: &mut NamedList<Cell>,
    reducers: &[Reducer],
    state: State,
) -> Result<(), NoMemory>
    ensures { OnOk result (cells.new ≡ set_finished cells.old reducers.now state) }
{
    let value = state.finish()?;
    match reducers.split_first() {
        Some((reducer, _)) => set_cell(alloc, cells, reducer.name.as_slice(), value),
        None => Ok(()),
    }
}

/// The reducers behind the first one.
fn behind_first(reducers: &[Reducer]) -> &[Reducer]
    ensures { result.now ≡ drop 1 reducers.now }
{
    match reducers.split_first() {
        Some((_, later)) => later,
        None => reducers,
    }
}

/// Each state takes the row in by its reducer. States behind the last reducer stay.
fn step_all(
    states: &mut [State],
    def: &IndexDef,
    reduce: &[Reducer],
    row: LentRow<'_>,
    room: &mut Vec<u8>,
) -> Result<(), NoMemory>
    ensures { OnOk result (states.new ≡ states_step def.now reduce.now states.old (row_of row.entry)) }
{
    for at in 0..reduce.len().min(states.len()) {
        step_one(&mut states[at], def, &reduce[at], row, room)?;
    }
    Ok(())
}

fn step_one(
    state: &mut State,
    def: &IndexDef,
    reducer: &Reducer,
    row: LentRow<'_>,
    room: &mut Vec<u8>,
) -> Result<(), NoMemory>
    ensures { OnOk result (state.new ≡ step state.old (value_for def.now reducer.now.of (row_of row.entry))) }
{
    let value = value_for(def, &reducer.of, row);
    state.step(Seen::of(&value), room)
}

/// A row's value of the reducer's property, and Null where it has none.
fn value_for<'a>(def: &IndexDef, of: &Option<Bytes>, row: LentRow<'a>) -> Lent<'a>
    ensures { value_lent result ≡ value_for def.now of.now (row_of row.entry) }
{
    match of {
        Some(name) => row.property(name.as_slice(), def),
        None => Lent::Null,
    }
}
