//! The first rows of a SORTBY with MAX while documents come one by one, so that no more than twice MAX are held.
ghost use Rattle.std.specs.Prelude.{◌≡◌, ◌∷◌, ◌++◌, [], List, Some, map, unwrap_or, IfOk, OnOk};
ghost use Rattle.ft_base.specs.declared.row.Row.{Row as ARow};
ghost use Rattle.agg_pipeline.specs.OneByOne.{rows_of};
ghost use Rattle.agg_pipeline.specs.Ranking.{AreFirst, no_rows, offered, one_more, ranked, rows_held};
ghost use Rattle.agg_pipeline.specs.Rows.{row_with};
ghost use Rattle.agg_pipeline.specs.Stream.{AreOfRows};

use crate::sorting::{directions, items_of, key_values};
use crate::step::{Load, SortKey, Step};
use crate::stream::{made_cells, shared_row};
use expr_eval::LentRow;
use ft_base::{Cell, Doc, IndexDef, ListOf, NamedList, NoMemory, Row, Value};
use row_sort::{FirstRows, Ranked};
use std::alloc::Global;

/// Takes the row that the first steps make of a document among the first rows, where they keep it.
pub fn offer_doc(
    alloc: Global,
    def: &IndexDef,
    load: &Load,
    first: &[Step],
    keys: &[SortKey],
    most: usize,
    held: &mut Option<FirstRows<Row>>,
    doc: &Doc,
) -> Result<(), NoMemory>
    ensures { OnOk result (AreOfRows first.now → (rows : List ARow)
        → AreFirst def.now keys.now most rows held.old
        → AreFirst def.now keys.now most (rows ++ rows_of def.now load.now first.now (doc.now ∷ [])) held.new) }
{
    begin(alloc, keys, most, held)?;
    match held {
        Some(held) => offer_made(alloc, def, load, first, keys, held, doc),
        // They were begun.
        None => Ok(()),
    }
}

/// Begins the first rows, where none came.
fn begin(
    alloc: Global,
    keys: &[SortKey],
    most: usize,
    held: &mut Option<FirstRows<Row>>,
) -> Result<(), NoMemory>
    ensures { OnOk result (held.new ≡ Some (unwrap_or held.old (no_rows keys.now most))) }
{
    if held.is_none() {
        *held = Some(FirstRows::new(alloc, directions(alloc, keys)?, most));
    }
    Ok(())
}

/// Offers the row that the first steps make of a document, where they keep it.
fn offer_made(
    alloc: Global,
    def: &IndexDef,
    load: &Load,
    first: &[Step],
    keys: &[SortKey],
    held: &mut FirstRows<Row>,
    doc: &Doc,
) -> Result<(), NoMemory>
    ensures { OnOk result (AreOfRows first.now → held.new ≡ record held.old {
      rows = offered held.old.by held.old.most held.old.rows
          (map (ranked def.now keys.now) (rows_of def.now load.now first.now (doc.now ∷ [])));
    }) }
{
    match made_cells(alloc, def, load, first, doc)? {
        Some(cells) => offer_cells(alloc, def, keys, held, doc, cells),
        None => Ok(()),
    }
}

/// Offers the row of a document and these cells. The document is lent for the values of the keys.
fn offer_cells(
    alloc: Global,
    def: &IndexDef,
    keys: &[SortKey],
    held: &mut FirstRows<Row>,
    doc: &Doc,
    cells: NamedList<Cell>,
) -> Result<(), NoMemory>
    ensures { OnOk result (held.new ≡ record held.old {
      rows = one_more held.old.by held.old.most held.old.rows
          (ranked def.now keys.now (row_with doc.now cells));
    }) }
{
    let row = LentRow {
        cells: &cells,
        doc: Some(doc),
    };
    let values = key_values(alloc, def, keys, row)?;
    offer_values(held, values, doc, cells)
}

/// Offers the row of a document and these cells, with its values of the keys.
fn offer_values(
    held: &mut FirstRows<Row>,
    values: ListOf<Value>,
    doc: &Doc,
    cells: NamedList<Cell>,
) -> Result<(), NoMemory>
    ensures { OnOk result (held.new ≡ record held.old {
      rows = one_more held.old.by held.old.most held.old.rows
          (record { values = values; item = row_with doc.now cells });
    }) }
{
    if held.turns_away(values.as_slice()) {
        return Ok(());
    }
    let item = shared_row(doc, cells)?;
    held.offer(Ranked { values, item })
}

/// The first rows in order, without their values.
pub fn into_items(alloc: Global, held: Option<FirstRows<Row>>) -> Result<Vec<Row>, NoMemory>
    ensures { IfOk result (λ rows. rows.items ≡ rows_held held) }
{
    match held {
        Some(first) => items_of(alloc, first.into_rows()?),
        None => Ok(Vec::new(alloc)),
    }
}
