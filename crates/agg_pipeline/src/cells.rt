//! Cells of rows, no two of one name.
ghost use Rattle.std.specs.Prelude.{◌≡◌, [], ◌∷◌, ◌++◌, OnOk};
ghost use Rattle.ft_base.specs.Cells.{cell};
ghost use Rattle.agg_pipeline.specs.Rows.{set_cell};

use ft_base::{Bytes, Cell, NamedList, NoMemory, Value};
use std::alloc::Global;

/// A cell takes the place of the one of its name, and goes last where there is none.
pub fn set_cell(
    alloc: Global,
    cells: &mut NamedList<Cell>,
    name: &[u8],
    value: Value,
) -> Result<(), NoMemory>
    ensures { OnOk result (cells.new ≡ set_cell cells.old (cell name.now value)) }
{
    // Only a new cell needs a name of its own.
    match cells.place(name) {
        Some(place) => {
            cells.set_value(place, value);
            Ok(())
        }
        None => push_cell(alloc, cells, name, value),
    }
}

fn push_cell(
    alloc: Global,
    cells: &mut NamedList<Cell>,
    name: &[u8],
    value: Value,
) -> Result<(), NoMemory>
    ensures { OnOk result (cells.new ≡ cells.old ++ cell name.now value ∷ []) }
{
    let name = Bytes::from_slice(alloc, name)?;
    cells.push(Cell { name, value })
}
