//! Rows that are lent, so that no document is copied to be looked at.
ghost use Rattle.std.specs.Prelude.{◌≡◌};
ghost use Rattle.std.specs.Option.{option_copied};
ghost use Rattle.expr_eval.specs.Lending.{row_of, value_lent};
ghost use Rattle.expr_eval.specs.Properties.{property_value};

use crate::lent::Lent;
use crate::properties::{cell_of, in_hash};
use ft_base::{Cell, Doc, IndexDef, NamedList, Row};

/// The cells of a row, and its document while it has one.
#[derive(Clone, Copy)]
pub struct LentRow<'a> {
    pub cells: &'a NamedList<Cell>,
    pub doc: Option<&'a Doc>,
}

impl<'a> LentRow<'a> {
    /// A row, lent.
    pub fn of(row: &'a Row) -> LentRow<'a>
        ensures { row_of result ≡ row.now }
    {
        LentRow {
            cells: &row.cells,
            doc: document(row),
        }
    }

    /// The value of a property, lent.
    pub fn property(self, name: &[u8], def: &IndexDef) -> Lent<'a>
        ensures { value_lent result ≡ property_value name.now (row_of self.entry) def.now }
    {
        match (cell_of(self.cells, name), self.doc) {
            (Some(value), _) => Lent::of(value),
            (None, Some(doc)) => in_hash(name, &doc.hash(), &def.fields),
            (None, None) => Lent::Null,
        }
    }
}

/// The document of a row, lent.
fn document(row: &Row) -> Option<&Doc>
    ensures { option_copied result ≡ row.now.doc }
{
    match &row.doc {
        Some(doc) => Some(doc),
        None => None,
    }
}
