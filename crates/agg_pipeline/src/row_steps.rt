//! The steps that take a row at a time, APPLY and FILTER, and LIMIT.
ghost use Rattle.std.specs.Prelude.{◌≡◌, [], ◌∷◌, ◌++◌, drop, filter, map, take, IfOk, OnOk};
ghost use Rattle.agg_pipeline.specs.Steps.{applied, is_kept};

use crate::cells::set_cell;
use expr_eval::{Expr, LentRow, eval, holds};
use ft_base::{IndexDef, NoMemory, Row};
use std::alloc::Global;

/// APPLY: each row has a cell with the expression's value.
pub fn apply_all(
    alloc: Global,
    def: &IndexDef,
    expr: &Expr,
    name: &[u8],
    rows: &mut [Row],
) -> Result<(), NoMemory>
    ensures { OnOk result (rows.new ≡ map (applied def.now expr.now name.now) rows.old) }
{
    for row in rows.iter_mut() {
        apply(alloc, def, expr, name, row)?;
    }
    Ok(())
}

/// The row has a cell with the expression's value.
fn apply(
    alloc: Global,
    def: &IndexDef,
    expr: &Expr,
    name: &[u8],
    row: &mut Row,
) -> Result<(), NoMemory>
    ensures { OnOk result (row.new ≡ applied def.now expr.now name.now row.old) }
{
    let value = eval(alloc, expr, LentRow::of(row), def)?;
    set_cell(alloc, &mut row.cells, name, value)
}

/// FILTER: the rows in which the expression is a Num other than 0.
pub fn keep_rows(
    alloc: Global,
    def: &IndexDef,
    expr: &Expr,
    rows: Vec<Row>,
) -> Result<Vec<Row>, NoMemory>
    ensures { IfOk result (λ kept. kept.items ≡ filter (is_kept def.now expr.now) rows.items) }
{
    let mut kept = Vec::new(alloc);
    for row in rows {
        keep(alloc, def, expr, row, &mut kept)?;
    }
    Ok(kept)
}

/// Adds the row to the others, where the expression is a Num other than 0.
fn keep(
    alloc: Global,
    def: &IndexDef,
    expr: &Expr,
    row: Row,
    kept: &mut Vec<Row>,
) -> Result<(), NoMemory>
    ensures { OnOk result (kept.new.items
        ≡ kept.old.items ++ filter (is_kept def.now expr.now) (row ∷ [])) }
{
    if holds(alloc, expr, LentRow::of(&row), def)? {
        push_row(kept, row)
    } else {
        Ok(())
    }
}

/// One row more.
pub fn push_row(rows: &mut Vec<Row>, row: Row) -> Result<(), NoMemory>
    ensures { OnOk result (rows.new.items ≡ rows.old.items ++ row ∷ []) }
{
    rows.push(row)?;
    Ok(())
}

/// LIMIT: the rows of the window.
pub fn limit_rows(rows: Vec<Row>, offset: u32, num: u32) -> Vec<Row>
    ensures { result.items ≡ take num (drop offset rows.items) }
{
    let mut rows = rows;
    let before = (offset as usize).min(rows.len());
    // Those behind the window go first, so that they aren't moved up.
    rows.truncate(before + num as usize);
    drop_first(&mut rows, before);
    rows
}

fn drop_first(rows: &mut Vec<Row>, before: usize)
    ensures { rows.new.items ≡ drop before rows.old.items }
{
    let before = before.min(rows.len());
    drop(rows.drain(..before));
}
