//! The groups of the rows that came so far, found by the spelling of their values.
ghost use Rattle.std.specs.Prelude.{◌≡◌, ◌<◌, ◌++◌, ◌∷◌, [], map, slice_get, OnOk, IfOk, IfSome};
ghost use Rattle.indexmap.specs.IndexMap.{index_map_len, set_value_at, values};
ghost use Rattle.ft_base.specs.Cells.{cell};
ghost use Rattle.expr_eval.specs.Lending.{row_of};
ghost use Rattle.expr_eval.specs.Properties.{property_value};
ghost use Rattle.agg_pipeline.specs.Made.{starts, states_step};
ghost use Rattle.agg_pipeline.specs.Rows.{set_cell};
ghost use Rattle.agg_pipeline.specs.Table.{IsNew, begun_cells, finished_row, first_entry, making_of, note_row, stepped, table_of, tuple_key};

use crate::cells::set_cell;
use crate::spelling::spell_tuple;
use crate::states::States;
use crate::step::Reducer;
use expr_eval::LentRow;
use ft_base::{Bytes, Cell, IndexDef, NamedList, NoMemory, Row};
use indexmap::IndexMap;
use std::alloc::Global;
use std::marker::Model;

/// The cells of GROUPBY, as the group's first row gives them, and what each reducer made of its rows so far.
#[derive(Drop)]
pub struct Group {
    pub cells: NamedList<Cell>,
    pub states: States,
}

/// The groups in order of first appearance. The memory is that of the groups, whatever the number of rows.
#[derive(Drop)]
pub struct Groups {
    table: IndexMap<Vec<u8>, Group>,
    /// The spelling of the last row's values. Its room is used again, so that finding a row's group takes no memory.
    room: Vec<u8>,
}

impl Model for Groups {
    ghost use Rattle.agg_pipeline.specs.Table.{Table, table_code, table_of};

    ghost Value = { Table };

    ghost coded = { table_code };

    ghost view = { λ g. table_of g.table.entries };
}

impl Groups {
    /// No groups, and no memory taken.
    pub fn new(alloc: Global) -> Groups
        ensures { result ≡ [] }
    {
        Groups {
            table: IndexMap::new(alloc),
            room: Vec::new(alloc),
        }
    }

    /// Takes one more row in. Whoever notes rows always gives the same definition, properties and reducers. After an
    /// `Err` some reducers may have taken the row in, and others not: then the groups are of no use.
    pub fn note(
        &mut self,
        def: &IndexDef,
        by: &[Bytes],
        reduce: &[Reducer],
        row: LentRow<'_>,
    ) -> Result<(), NoMemory>
        ensures { OnOk result (self.new
            ≡ note_row def.now by.now reduce.now self.old (row_of row.entry)) }
    {
        self.room.clear();
        spell_tuple(def, by, row, &mut self.room)?;
        match self.table.get_index_of(self.room.as_slice()) {
            Some(i) => step_at(&mut self.table, i, def, reduce, row, &mut self.room),
            None => insert_first(&mut self.table, def, by, reduce, row, &mut self.room),
        }
    }

    /// The row of each group.
    pub fn finish(self, alloc: Global, reduce: &[Reducer]) -> Result<Vec<Row>, NoMemory>
        ensures { IfOk result (λ rows. rows.items ≡ map (finished_row reduce.now) self) }
    {
        let mut rows = Vec::new(alloc);
        for (_, group) in self.table {
            push_row(alloc, &mut rows, reduce, group)?;
        }
        Ok(rows)
    }
}

fn push_row(
    alloc: Global,
    rows: &mut Vec<Row>,
    reduce: &[Reducer],
    group: Group,
) -> Result<(), NoMemory>
    ensures { OnOk result (rows.new.items
        ≡ rows.old.items ++ finished_row reduce.now ([], making_of group) ∷ []) }
{
    rows.push(finished_row(alloc, reduce, group)?)?;
    Ok(())
}

fn finished_row(alloc: Global, reduce: &[Reducer], group: Group) -> Result<Row, NoMemory>
    ensures { IfOk result (λ row. row ≡ finished_row reduce.now ([], making_of group)) }
{
    let Group { cells, states } = group;
    let mut cells = cells;
    states.finish(alloc, reduce, &mut cells)?;
    Ok(Row { doc: None, cells })
}

fn step_at(
    table: &mut IndexMap<Vec<u8>, Group>,
    i: usize,
    def: &IndexDef,
    reduce: &[Reducer],
    row: LentRow<'_>,
    room: &mut Vec<u8>,
) -> Result<(), NoMemory>
    requires { i < index_map_len table.old }
    ensures { IfSome (slice_get (values table.old) i) (λ group. OnOk result
        (table.new.entries ≡ set_value_at table.old.entries i (stepped def.now reduce.now group (row_of row.entry)))) }
{
    match table.get_index_mut(i) {
        Some(group) => group.states.step(def, reduce, row, room),
        None => Ok(()),
    }
}

/// A group for a row whose values, spelled in the room, are those of no group.
fn insert_first(
    table: &mut IndexMap<Vec<u8>, Group>,
    def: &IndexDef,
    by: &[Bytes],
    reduce: &[Reducer],
    row: LentRow<'_>,
    room: &mut Vec<u8>,
) -> Result<(), NoMemory>
    requires spelled { room.old.items ≡ tuple_key def.now by.now (row_of row) }
    requires absent { IsNew room.old.items table.old.entries }
    ensures { OnOk result (table_of table.new.entries
        ≡ table_of table.old.entries ++ first_entry def.now by.now reduce.now (row_of row.entry) ∷ []) }
{
    let alloc = *table.allocator();
    let key = Vec::from_slice(alloc, room.as_slice())?;
    let group = first_of(alloc, def, by, reduce, row, room)?;
    insert(table, key, group)
}

fn insert(table: &mut IndexMap<Vec<u8>, Group>, key: Vec<u8>, group: Group) -> Result<(), NoMemory>
    requires { IsNew key.items table.old.entries }
    ensures { OnOk result (table_of table.new.entries
        ≡ table_of table.old.entries ++ (key.items, making_of group) ∷ []) }
{
    table.insert(key, group)?;
    Ok(())
}

/// A group with one row.
fn first_of(
    alloc: Global,
    def: &IndexDef,
    by: &[Bytes],
    reduce: &[Reducer],
    row: LentRow<'_>,
    room: &mut Vec<u8>,
) -> Result<Group, NoMemory>
    ensures cells { IfOk result (λ group. group.cells ≡ begun_cells def.now by.now (row_of row.entry)) }
    ensures states { IfOk result (λ group. group.states
        ≡ states_step def.now reduce.now (starts reduce.now) (row_of row.entry)) }
{
    let cells = begun_cells(alloc, def, by, row)?;
    let mut states = States::new(alloc, reduce)?;
    states.step(def, reduce, row, room)?;
    Ok(Group { cells, states })
}

/// The row's cells of the properties of GROUPBY.
fn begun_cells(
    alloc: Global,
    def: &IndexDef,
    by: &[Bytes],
    row: LentRow<'_>,
) -> Result<NamedList<Cell>, NoMemory>
    ensures { IfOk result (λ cells. cells ≡ begun_cells def.now by.now (row_of row.entry)) }
{
    let mut cells = NamedList::new(alloc);
    for name in by {
        set_property(alloc, &mut cells, name.as_slice(), def, row)?;
    }
    Ok(cells)
}

/// Sets the row's cell of a property.
fn set_property(
    alloc: Global,
    cells: &mut NamedList<Cell>,
    name: &[u8],
    def: &IndexDef,
    row: LentRow<'_>,
) -> Result<(), NoMemory>
    ensures { OnOk result (cells.new
        ≡ set_cell cells.old (cell name.now (property_value name.now (row_of row.entry) def.now))) }
{
    let value = row.property(name, def).own(alloc)?;
    set_cell(alloc, cells, name, value)
}
