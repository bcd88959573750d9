//! GROUPBY, in one pass over the rows.
ghost use Rattle.std.specs.Prelude.{◌≡◌, ℕ, List, [], fold, map, IfOk, OnOk};
ghost use Rattle.ft_base.specs.declared.definition.IndexDef.{IndexDef};
ghost use Rattle.ft_base.specs.declared.row.Row.{Row as ARow};
ghost use Rattle.agg_pipeline.specs.declared.step.Reducer.{Reducer as AReducer};
ghost use Rattle.agg_pipeline.specs.Grouping.{grouped};
ghost use Rattle.agg_pipeline.specs.Table.{finished_row, note_row};

use crate::step::Reducer;
use crate::table::Groups;
use expr_eval::LentRow;
use ft_base::{Bytes, IndexDef, NoMemory, Row};
use std::alloc::Global;

/// One row for each group, in order of first appearance.
pub fn group_rows(
    alloc: Global,
    def: &IndexDef,
    by: &[Bytes],
    reduce: &[Reducer],
    rows: &[Row],
) -> Result<Vec<Row>, NoMemory>
    ensures { IfOk result (λ made. made.items ≡ grouped def.now by.now reduce.now rows.now) }
{
    let mut groups = Groups::new(alloc);
    note_all(&mut groups, def, by, reduce, rows)?;
    groups.finish(alloc, reduce)
}

fn note_all(
    groups: &mut Groups,
    def: &IndexDef,
    by: &[Bytes],
    reduce: &[Reducer],
    rows: &[Row],
) -> Result<(), NoMemory>
    ensures { OnOk result (groups.new
        ≡ fold (note_row def.now by.now reduce.now) groups.old rows.now) }
{
    for row in rows {
        groups.note(def, by, reduce, LentRow::of(row))?;
    }
    Ok(())
}

/// A law of the definitions: whoever notes rows one by one, and then finishes, has the row of each group of all of them.
pub fn groups_of_all()
    ensures { (def : IndexDef) (by : List (List ℕ)) (reduce : List AReducer) (rows : List ARow)
        → map (finished_row reduce) (fold (note_row def by reduce) [] rows) ≡ grouped def by reduce rows }
{}
