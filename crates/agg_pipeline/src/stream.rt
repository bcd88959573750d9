//! The steps of a stream, which take a row at a time: APPLY and FILTER.
ghost use Rattle.std.specs.Prelude.{◌≡◌, [], ◌∷◌, Some, filter, true, is_some, option_to_list, IfOk, IfSome};
ghost use Rattle.std.specs.List.{list_all};
ghost use Rattle.std.specs.Option.{option_map};
ghost use Rattle.agg_pipeline.specs.RowMade.{row_made};
ghost use Rattle.agg_pipeline.specs.Rows.{loaded, row_with};
ghost use Rattle.agg_pipeline.specs.Steps.{applied, is_kept, piped, step_rows};
ghost use Rattle.agg_pipeline.specs.Stream.{AreOfRows, is_of_rows};

use crate::cells::set_cell;
use crate::loading::loaded_cells;
use crate::step::{Load, Step};
use expr_eval::{Expr, LentRow, eval, holds};
use ft_base::{Bytes, Cell, Doc, IndexDef, ListOf, NamedList, NoMemory, Row};
use std::alloc::Global;
use std::marker::Model;

/// LOAD and the steps behind it, of which none is GROUPBY, SORTBY or LIMIT: a contract sees the two.
#[derive(Drop)]
pub struct StreamSteps {
    alloc: Global,
    load: Load,
    steps: ListOf<Step>,
}

impl Model for StreamSteps {
    ghost use Rattle.agg_pipeline.specs.Stream.{AreOfRows, Stream, stream_code};

    ghost Value = { Stream };

    ghost coded = { stream_code };

    ghost view = { λ s. (s.load, s.steps) };

    ghost invariant = { λ s. AreOfRows s.steps };
}

impl StreamSteps {
    /// The steps, where each takes a row at a time. It takes no memory.
    pub fn new(alloc: Global, load: Load, steps: ListOf<Step>) -> Option<StreamSteps>
        ensures some { IfSome result (λ stream. stream ≡ (load, steps)) }
        ensures found { is_some result ≡ list_all is_of_rows steps }
    {
        if !are_of_rows(steps.as_slice()) {
            return None;
        }
        Some(StreamSteps { alloc, load, steps })
    }

    /// The row that a document becomes, and none exactly where a FILTER drops it.
    pub fn one(&self, def: &IndexDef, doc: &Doc) -> Result<Option<Row>, NoMemory>
        ensures { IfOk result (λ row. row ≡ row_made self.now.0 self.now.1 def.now doc.now) }
    {
        pipe_doc(self.alloc, def, &self.load, self.steps.as_slice(), doc)
    }
}

/// The row that a document becomes by LOAD and steps that take a row at a time, and none where a FILTER drops it. The
/// row shares the document.
pub fn pipe_doc(
    alloc: Global,
    def: &IndexDef,
    load: &Load,
    steps: &[Step],
    doc: &Doc,
) -> Result<Option<Row>, NoMemory>
    ensures { IfOk result (λ made. AreOfRows steps.now
        → option_to_list made ≡ piped def.now steps.now (loaded load.now def.now doc.now ∷ [])) }
{
    match made_cells(alloc, def, load, steps, doc)? {
        Some(cells) => Ok(Some(shared_row(doc, cells)?)),
        None => Ok(None),
    }
}

/// The row of a document, which it shares, and these cells.
pub fn shared_row(doc: &Doc, cells: NamedList<Cell>) -> Result<Row, NoMemory>
    ensures { IfOk result (λ row. row ≡ row_with doc.now cells) }
{
    let doc = Some(doc.share()?);
    Ok(Row { doc, cells })
}

/// The cells of the row that a document becomes by LOAD and steps that take a row at a time, and none where a FILTER drops
/// the row. The document is lent.
pub fn made_cells(
    alloc: Global,
    def: &IndexDef,
    load: &Load,
    steps: &[Step],
    doc: &Doc,
) -> Result<Option<NamedList<Cell>>, NoMemory>
    ensures { IfOk result (λ made. AreOfRows steps.now
        → option_to_list (option_map (row_with doc.now) made) ≡ piped def.now steps.now (loaded load.now def.now doc.now ∷ [])) }
{
    let cells = loaded_cells(alloc, load, def, doc)?;
    pipe_cells(alloc, def, steps, doc, cells)
}

/// What steps that take a row at a time make of the row of a document and these cells.
fn pipe_cells(
    alloc: Global,
    def: &IndexDef,
    steps: &[Step],
    doc: &Doc,
    cells: NamedList<Cell>,
) -> Result<Option<NamedList<Cell>>, NoMemory>
    ensures { IfOk result (λ made. AreOfRows steps.now
        → option_to_list (option_map (row_with doc.now) made) ≡ piped def.now steps.now (row_with doc.now cells ∷ [])) }
{
    let mut cells = cells;
    for step in steps {
        match step_cells(alloc, def, step, doc, cells)? {
            Some(made) => cells = made,
            None => return Ok(None),
        }
    }
    Ok(Some(cells))
}

/// What one such step makes of the row of a document and these cells.
fn step_cells(
    alloc: Global,
    def: &IndexDef,
    step: &Step,
    doc: &Doc,
    cells: NamedList<Cell>,
) -> Result<Option<NamedList<Cell>>, NoMemory>
    ensures { IfOk result (λ made. is_of_rows step.now ≡ true
        → option_to_list (option_map (row_with doc.now) made) ≡ step_rows def.now step.now (row_with doc.now cells ∷ [])) }
{
    match step {
        Step::Apply { expr, name } => apply_cell(alloc, def, expr, name.as_slice(), doc, cells),
        Step::Keep { expr } => keep_cells(alloc, def, expr, doc, cells),
        // No such step is a stream's.
        Step::Group { .. } | Step::Sort { .. } | Step::Limit { .. } => Ok(None),
    }
}

fn apply_cell(
    alloc: Global,
    def: &IndexDef,
    expr: &Expr,
    name: &[u8],
    doc: &Doc,
    cells: NamedList<Cell>,
) -> Result<Option<NamedList<Cell>>, NoMemory>
    ensures { IfOk result (λ made. option_map (row_with doc.now) made
        ≡ Some (applied def.now expr.now name.now (row_with doc.now cells))) }
{
    let row = LentRow {
        cells: &cells,
        doc: Some(doc),
    };
    let value = eval(alloc, expr, row, def)?;
    let mut cells = cells;
    set_cell(alloc, &mut cells, name, value)?;
    Ok(Some(cells))
}

fn keep_cells(
    alloc: Global,
    def: &IndexDef,
    expr: &Expr,
    doc: &Doc,
    cells: NamedList<Cell>,
) -> Result<Option<NamedList<Cell>>, NoMemory>
    ensures { IfOk result (λ made. option_to_list (option_map (row_with doc.now) made)
        ≡ filter (is_kept def.now expr.now) (row_with doc.now cells ∷ [])) }
{
    let row = LentRow {
        cells: &cells,
        doc: Some(doc),
    };
    if holds(alloc, expr, row, def)? {
        Ok(Some(cells))
    } else {
        Ok(None)
    }
}

/// Whether each step takes a row at a time.
pub fn are_of_rows(steps: &[Step]) -> bool
    ensures { result ≡ list_all is_of_rows steps.now }
{
    steps.iter().all(is_of_rows)
}

/// Whether a step takes a row at a time.
pub fn is_of_rows(step: &Step) -> bool
    ensures { result ≡ is_of_rows step.now }
{
    matches!(step, Step::Apply { .. } | Step::Keep { .. })
}
