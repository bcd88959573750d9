//! The first rows of all that are offered, without holding them all.
ghost use Rattle.std.specs.Prelude.{◌≡◌, ◌<◌, ◌*◌, [], ◌∷◌, ◌++◌, length, IfOk, OnOk, OnErr, take};
ghost use Rattle.std.specs.Bool.{OnTrue, OnFalse};
ghost use Rattle.row_sort.specs.Order.{row_order};
ghost use Rattle.row_sort.specs.Sorting.{sorted};
ghost use Rattle.row_sort.specs.Held.{first_held, HasBar, IsSound};

use crate::order::Direction;
use crate::rows::{Ranked, compare_values, keep_first};
use ft_base::{ListOf, NoMemory, Value};
use std::alloc::Global;
use std::marker::Model;

/// The first rows of all that are offered, `most` at the most: a contract sees these, in order.
///
/// Up to twice `most` rows are held, in no order but that of two that tie. They are sorted and cut to `most` when there
/// is no room for another; the memory grows as they come.
#[derive(Drop)]
pub struct FirstRows<T> {
    by: ListOf<Direction>,
    most: usize,
    rows: Vec<Ranked<T>>,
    /// Whether the first `most` were put in order once, so that the last of them is a bar: a row that isn't before it
    /// isn't among the first.
    barred: bool,
}

impl<T> Model for FirstRows<T> {
    ghost use Rattle.row_sort.specs.First.{First, first_code};

    ghost Value = { First T };

    ghost coded = { first_code T.code };

    ghost use Rattle.row_sort.specs.Held.{first_held, IsSound};

    ghost view = { λ f. record { by = f.by; most = f.most; rows = first_held f.by f.most f.rows.items } };

    ghost invariant = { λ f. IsSound f.by f.most f.barred f.rows.items };
}

impl<T> FirstRows<T> {
    /// No row yet, and no memory taken.
    pub fn new(alloc: Global, by: ListOf<Direction>, most: usize) -> FirstRows<T>
        ensures { result ≡ record { by = by; most = most; rows = [] } }
    {
        FirstRows {
            by,
            most,
            rows: Vec::new(alloc),
            barred: false,
        }
    }

    /// Whether a row with these values would be turned away, whatever else is in it: then it need not be made. Where that
    /// takes more than one comparison to tell, no is answered.
    pub fn turns_away(&self, values: &[Value]) -> bool
        ensures { OnTrue result ((row : Ranked T) → row.values ≡ values.now
            → take self.now.most (sorted (row_order self.now.by) (self.now.rows ++ row ∷ [])) ≡ self.now.rows) }
    {
        let keys = self.by.as_slice();
        is_turned_away(values, self.rows.as_slice(), self.barred, keys, self.most)
    }

    /// Takes a row in. When out of memory, the row is lost and the others stay.
    pub fn offer(&mut self, row: Ranked<T>) -> Result<(), NoMemory>
    where
        T: Drop,
        ensures ok { OnOk result (self.new ≡ record self.old {
          rows = take self.old.most (sorted (row_order self.old.by) (self.old.rows ++ row ∷ []));
        }) }
        ensures err { OnErr result (self.new ≡ self.old) }
    {
        let keys = self.by.as_slice();
        let values = row.values.as_slice();
        if is_turned_away(values, self.rows.as_slice(), self.barred, keys, self.most) {
            return Ok(());
        }
        hold(&mut self.rows, &mut self.barred, row, keys, self.most)
    }

    /// The rows in order.
    pub fn into_rows(self) -> Result<Vec<Ranked<T>>, NoMemory>
    where
        T: Drop,
        ensures { IfOk result (λ rows. rows.items ≡ self.rows) }
    {
        let mut rows = self.rows;
        keep_first(&mut rows, self.by.as_slice(), self.most)?;
        Ok(rows)
    }
}

/// Whether a row with these values would not be among the first `most`. Once they were put in order one comparison tells.
fn is_turned_away<T>(
    values: &[Value],
    rows: &[Ranked<T>],
    barred: bool,
    by: &[Direction],
    most: usize,
) -> bool
    requires { IsSound by.now most barred rows.now }
    ensures away { OnTrue result ((row : Ranked T) → row.values ≡ values.now
        → first_held by.now most (first_held by.now most rows.now ++ row ∷ []) ≡ first_held by.now most rows.now) }
    ensures some { OnFalse result (0 < most) }
{
    if most == 0 {
        return true;
    }
    barred && is_behind(values, rows, by, most)
}

/// Whether a row with these values isn't before the last of the first `most` that were put in order.
fn is_behind<T>(values: &[Value], rows: &[Ranked<T>], by: &[Direction], most: usize) -> bool
    requires { HasBar by.now most rows.now }
    ensures { OnTrue result ((row : Ranked T) → row.values ≡ values.now
        → first_held by.now most (first_held by.now most rows.now ++ row ∷ []) ≡ first_held by.now most rows.now) }
{
    compare_values(values, rows[most - 1].values.as_slice(), by).is_ge()
}

/// Takes a row among those that are held.
fn hold<T: Drop>(
    rows: &mut Vec<Ranked<T>>,
    barred: &mut bool,
    row: Ranked<T>,
    by: &[Direction],
    most: usize,
) -> Result<(), NoMemory>
    requires some { 0 < most }
    requires sound { IsSound by.now most barred.old rows.old.items }
    ensures sound { IsSound by.now most barred.new rows.new.items }
    ensures ok { OnOk result (first_held by.now most rows.new.items
        ≡ first_held by.now most (first_held by.now most rows.old.items ++ row ∷ [])) }
    ensures err { OnErr result (first_held by.now most rows.new.items ≡ first_held by.now most rows.old.items) }
{
    make_room(rows, barred, by, most)?;
    rows.push(row)?;
    Ok(())
}

/// Makes room for one more row, by sorting and cutting those that there are.
fn make_room<T: Drop>(
    rows: &mut Vec<Ranked<T>>,
    barred: &mut bool,
    by: &[Direction],
    most: usize,
) -> Result<(), NoMemory>
    requires some { 0 < most }
    requires sound { IsSound by.now most barred.old rows.old.items }
    ensures same { first_held by.now most rows.new.items ≡ first_held by.now most rows.old.items }
    ensures sound { IsSound by.now most barred.new rows.new.items }
    ensures room { OnOk result (length rows.new.items < 2 * most) }
{
    if rows.len() / 2 < most {
        return Ok(());
    }
    keep_first(rows, by, most)?;
    *barred = true;
    Ok(())
}
