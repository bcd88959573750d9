//! LOAD: the cells that a document's row begins with.
ghost use Rattle.std.specs.Prelude.{◌≡◌, [], fold, map, IfOk, OnOk};
ghost use Rattle.std.specs.Option.{option_map};
ghost use Rattle.ft_base.specs.Cells.{cell};
ghost use Rattle.expr_eval.specs.Lending.{value_lent};
ghost use Rattle.expr_eval.specs.Properties.{has_number, seen_as};
ghost use Rattle.agg_pipeline.specs.Rows.{load_cell, loaded_cells, own_cell, value_there};

use crate::cells::set_cell;
use crate::step::Load;
use expr_eval::{Lent, by_alias, by_name, seen_as};
use ft_base::{Bytes, Cell, Doc, IndexDef, NamedList, NoMemory, Schema};
use std::alloc::Global;

/// The cells that a document's row has from the start.
pub fn loaded_cells(
    alloc: Global,
    load: &Load,
    def: &IndexDef,
    doc: &Doc,
) -> Result<NamedList<Cell>, NoMemory>
    ensures { IfOk result (λ cells. cells ≡ loaded_cells load.now def.now doc.now) }
{
    match load {
        Load::Nothing => Ok(NamedList::new(alloc)),
        Load::Fields(names) => named_cells(alloc, names.as_slice(), def, doc),
        Load::All => own_cells(alloc, def, doc),
    }
}

/// The cells of the properties that are there.
fn named_cells(
    alloc: Global,
    names: &[Bytes],
    def: &IndexDef,
    doc: &Doc,
) -> Result<NamedList<Cell>, NoMemory>
    ensures { IfOk result (λ cells. cells ≡ fold (load_cell def.now doc.now) [] names.now) }
{
    let mut cells = NamedList::new(alloc);
    for name in names {
        load_cell(alloc, &mut cells, name.as_slice(), def, doc)?;
    }
    Ok(cells)
}

/// The cell of a property, where it is there.
fn load_cell(
    alloc: Global,
    cells: &mut NamedList<Cell>,
    name: &[u8],
    def: &IndexDef,
    doc: &Doc,
) -> Result<(), NoMemory>
    ensures { OnOk result (cells.new ≡ load_cell def.now doc.now cells.old name.now) }
{
    match value_there(name, def, doc) {
        Some(value) => set_cell(alloc, cells, name, value.own(alloc)?),
        None => Ok(()),
    }
}

/// The value of a property of a document, where it is there.
fn value_there<'a>(name: &[u8], def: &IndexDef, doc: &'a Doc) -> Option<Lent<'a>>
    ensures { option_map value_lent result ≡ value_there def.now doc.now name.now }
{
    match by_alias(name, &doc.hash(), &def.fields) {
        Some(value) => Some(value),
        None => by_name(name, &doc.hash(), &def.fields),
    }
}

/// The cells of all fields of the hash.
fn own_cells(alloc: Global, def: &IndexDef, doc: &Doc) -> Result<NamedList<Cell>, NoMemory>
    ensures { IfOk result (λ cells. cells ≡ map (own_cell def.now) doc.now.hash) }
{
    let mut cells = NamedList::new(alloc);
    let mut walk = doc.hash().walk();
    while let Some((name, text)) = walk.next() {
        cells.push(own_cell(alloc, name, text, &def.fields)?)?;
    }
    Ok(cells)
}

/// The cell of a hash's field, under its own name.
fn own_cell(alloc: Global, name: &[u8], text: &[u8], fields: &Schema) -> Result<Cell, NoMemory>
    ensures { IfOk result (λ made. made ≡ cell name.now (seen_as (has_number fields.now name.now) text.now)) }
{
    let value = seen_as(fields.reads_number(name), text).own(alloc)?;
    let name = Bytes::from_slice(alloc, name)?;
    Ok(Cell { name, value })
}
