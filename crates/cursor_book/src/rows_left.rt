//! The rows that are left of those that a cursor kept.
ghost use Rattle.std.specs.Prelude.{◌≡◌, drop, length};

use ft_base::Row;
use std::marker::Model;

/// Rows of which the first ones may have been taken: a contract sees those that are left.
#[derive(Drop)]
pub struct RowsLeft {
    rows: Vec<Row>,
    taken: usize,
}

impl Model for RowsLeft {
    ghost use Rattle.std.specs.Prelude.{List, drop, length, ◌≤◌};
    ghost use Rattle.std.specs.Coded.{Coded, coded_list};
    ghost use Rattle.ft_base.specs.contracts.row.Row.{the_row as row_row};
    ghost use Rattle.ft_base.specs.declared.row.Row.{Row};

    ghost Value = { List Row };

    ghost coded = { coded_list row_row.coded };

    ghost view = { λ left. drop left.taken left.rows.items };

    ghost invariant = { λ left. left.taken ≤ length left.rows.items };
}

impl RowsLeft {
    /// All of these are left.
    pub fn new(rows: Vec<Row>) -> RowsLeft
        ensures { result ≡ rows.items }
    {
        RowsLeft { rows, taken: 0 }
    }

    /// The rows that are left, lent.
    pub fn as_slice(&self) -> &[Row]
        ensures { result.now ≡ self.now }
    {
        &self.rows[self.taken..]
    }

    /// Takes the first so many rows, or all where there are fewer. It takes no memory.
    pub fn take(&mut self, count: usize)
        ensures { self.new ≡ drop count self.old }
    {
        self.taken += count.min(self.rows.len() - self.taken);
    }
}
