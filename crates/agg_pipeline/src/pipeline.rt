//! Several steps, one after another.
ghost use Rattle.std.specs.Prelude.{◌≡◌, map, IfOk};
ghost use Rattle.agg_pipeline.specs.Steps.{applied, piped, step_rows};

use crate::grouping::group_rows;
use crate::row_steps::{apply_all, keep_rows, limit_rows};
use crate::sorting::sort_rows;
use crate::step::Step;
use expr_eval::Expr;
use ft_base::{IndexDef, NoMemory, Row};
use std::alloc::Global;

/// What the steps make of the rows.
pub fn pipe(
    alloc: Global,
    def: &IndexDef,
    rows: Vec<Row>,
    steps: &[Step],
) -> Result<Vec<Row>, NoMemory>
    ensures { IfOk result (λ made. made.items ≡ piped def.now steps.now rows.items) }
{
    let mut rows = rows;
    for step in steps {
        rows = step_rows(alloc, def, rows, step)?;
    }
    Ok(rows)
}

/// What one step makes of the rows.
fn step_rows(
    alloc: Global,
    def: &IndexDef,
    rows: Vec<Row>,
    step: &Step,
) -> Result<Vec<Row>, NoMemory>
    ensures { IfOk result (λ made. made.items ≡ step_rows def.now step.now rows.items) }
{
    match step {
        Step::Group { by, reduce } => {
            group_rows(
                alloc,
                def,
                by.as_slice(),
                reduce.as_slice(),
                rows.as_slice(),
            )
        }
        Step::Sort { keys, max } => sort_rows(alloc, def, keys.as_slice(), *max, rows),
        Step::Apply { expr, name } => apply_rows(alloc, def, expr, name.as_slice(), rows),
        Step::Keep { expr } => keep_rows(alloc, def, expr, rows),
        Step::Limit { offset, num } => Ok(limit_rows(rows, *offset, *num)),
    }
}

fn apply_rows(
    alloc: Global,
    def: &IndexDef,
    expr: &Expr,
    name: &[u8],
    rows: Vec<Row>,
) -> Result<Vec<Row>, NoMemory>
    ensures { IfOk result (λ made. made.items ≡ map (applied def.now expr.now name.now) rows.items) }
{
    let mut rows = rows;
    apply_all(alloc, def, expr, name, rows.as_mut_slice())?;
    Ok(rows)
}
