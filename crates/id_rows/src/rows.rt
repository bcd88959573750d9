//! Things by their ids, in one vector, as ids rise with each thing that comes.
//!
//! A thing that goes leaves its row empty: the rows behind it would move else. Empty rows are swept
//! out once they are more than an eighth, so a removal moves some eight rows in the long run. Until
//! then they keep ids next to one another, whose places need no search.
ghost use Rattle.std.specs.Prelude.{◌≡◌, ◌++◌, ◌∷◌, [], ◌<◌, ◌≤◌, ◌-◌, ◌&&◌, ℕ, true, false, nat_eq, nat_lt};
ghost use Rattle.std.specs.Prelude.{length, take, IfOk, OnOk, OnErr};
ghost use Rattle.std.specs.Option.{option_copied};
ghost use Rattle.std.specs.Map.{keys_of, lookup, remove_entry, values_of};
ghost use Rattle.ft_base.specs.Rows.{Below};
ghost use Rattle.id_rows.specs.IdRows.{full_rows, Rise, place_id, row_at_place, is_empty_row, IsPlace};

use crate::near::place_near;
use crate::places::{id_at, place_of};
use crate::row::Row;
use crate::walk::RowWalk;
use ft_base::{HasId, NoMemory};
use std::alloc::Global;
use std::marker::Model;
use std::mem;

/// The things, which a contract sees as a list of pairs of id and thing.
#[derive(Drop)]
pub struct IdRows<T: HasId> {
    rows: Vec<Row<T>>,
    // How many rows are full.
    full: usize,
}

impl<T: HasId> Model for IdRows<T> {
    ghost use Rattle.ft_base.specs.Rows.{Rows};

    ghost Value = { Rows T };

    ghost use Rattle.id_rows.specs.IdRows.{full_rows, AreIdRows};

    ghost view = { λ s. full_rows T.id_of s.rows.items };

    ghost invariant = { λ s. AreIdRows T.id_of s.full s.rows.items };
}

impl<T: HasId> IdRows<T> {
    /// No rows, and no memory taken.
    pub fn new(alloc: Global) -> IdRows<T>
        ensures { result ≡ [] }
    {
        IdRows {
            rows: Vec::new(alloc),
            full: 0,
        }
    }

    /// The number of rows.
    pub fn len(&self) -> usize
        ensures { result ≡ length self.now }
    {
        self.full
    }

    /// The row of an id.
    pub fn get(&self, id: u64) -> Option<&T>
        ensures { option_copied result ≡ lookup (nat_eq id) self.now }
    {
        let rows = self.rows.as_slice();
        thing_at(rows, place_of(rows, id), id)
    }

    /// The same, for a reader that walks from id to id: at once where `near` is the place of the id's row, and by a few leaps where it
    /// is a little before it. It is set to the id's place. No answer depends on it.
    #[inline]
    pub fn get_near(&self, id: u64, near: &mut usize) -> Option<&T>
        ensures { option_copied result ≡ lookup (nat_eq id) self.now }
    {
        let rows = self.rows.as_slice();
        let at = place_near(rows, id, *near);
        *near = at;
        thing_at(rows, at, id)
    }

    /// All things, in order of their ids: one pass for them all.
    pub fn walk(&self) -> RowWalk<'_, T>
        ensures { result ≡ values_of self.now }
    {
        RowWalk::over(self.rows.as_slice())
    }

    /// The ids of the first rows, so many.
    pub fn first_ids(&self, alloc: Global, count: usize) -> Result<Vec<u64>, NoMemory>
        ensures { IfOk result (λ ids. ids.items ≡ take count (keys_of self.now)) }
    {
        ids_of(alloc, self.rows.as_slice(), count)
    }

    /// Takes a row in, behind all others.
    pub fn push(&mut self, row: T) -> Result<(), NoMemory>
        requires { Below (T.id_of row) self.old }
        ensures ok { OnOk result (self.new ≡ self.old ++ (T.id_of row, row) ∷ []) }
        ensures err { OnErr result (self.new ≡ self.old) }
    {
        // Then the last id is a thing's, and below that of the new one.
        let end = full_end(&self.rows);
        self.rows.truncate(end);
        self.rows.push(Row::Full(row))?;
        self.full += 1;
        Ok(())
    }

    /// Takes the row of an id out. It takes no memory.
    pub fn remove(&mut self, id: u64) -> Option<T>
        ensures was { result ≡ lookup (nat_eq id) self.old }
        ensures gone { self.new ≡ remove_entry (nat_eq id) self.old }
    {
        let thing = take_at(&mut self.rows, id)?;
        self.full -= 1;
        if self.rows.len().saturating_sub(self.full) > self.rows.len() / 8 {
            sweep(&mut self.rows);
        }
        Some(thing)
    }
}

// The thing of an id, whose row stands at a place if there is one.
#[inline(always)]
fn thing_at<T: HasId>(rows: &[Row<T>], at: usize, id: u64) -> Option<&T>
    requires rises { Rise T.id_of 0 rows.now }
    requires place { IsPlace T.id_of id rows.now at }
    ensures { option_copied result ≡ lookup (nat_eq id) (full_rows T.id_of rows.now) }
{
    if is_at(rows, at, id) {
        return rows[at].thing();
    }
    None
}

// Whether the row of an id stands at a place.
#[inline(always)]
fn is_at<T: HasId>(rows: &[Row<T>], at: usize, id: u64) -> bool
    ensures { result ≡ (nat_lt at (length rows.now) && nat_eq (place_id T.id_of rows.now at) id) }
{
    at < rows.len() && id_at(rows, at) == id
}

// The ids of the first full rows, so many.
fn ids_of<T: HasId>(alloc: Global, rows: &[Row<T>], count: usize) -> Result<Vec<u64>, NoMemory>
    ensures { IfOk result (λ ids. ids.items ≡ take count (keys_of (full_rows T.id_of rows.now))) }
{
    let mut ids = Vec::with_capacity(alloc, count.min(rows.len()))?;
    for row in rows {
        if ids.len() >= count {
            return Ok(ids);
        }
        put_id(&mut ids, row)?;
    }
    Ok(ids)
}

// Puts the id of a row behind others, unless its thing is gone.
#[inline(always)]
fn put_id<T: HasId>(ids: &mut Vec<u64>, row: &Row<T>) -> Result<(), NoMemory>
    ensures { OnOk result (ids.new.items ≡ ids.old.items ++ keys_of (full_rows T.id_of (row.now ∷ []))) }
{
    if let Row::Full(thing) = row {
        ids.push(thing.id())?;
    }
    Ok(())
}

// How many rows there are up to the last full one.
fn full_end<T: HasId>(rows: &[Row<T>]) -> usize
    ensures within { result ≤ length rows.now }
    ensures full { 0 < result → is_empty_row (row_at_place rows.now (result - 1)) ≡ false }
    ensures empty { (k : ℕ) → result ≤ k → k < length rows.now → is_empty_row (row_at_place rows.now k) ≡ true }
{
    let mut end = rows.len();
    'dropping: while end > 0 {
        if !rows[end - 1].is_empty() {
            return end;
        }
        end -= 1;
    }
    0
}

// Takes the thing of an id out of its row.
fn take_at<T: HasId>(rows: &mut Vec<Row<T>>, id: u64) -> Option<T>
    requires { Rise T.id_of 0 rows.old.items }
    ensures was { result ≡ lookup (nat_eq id) (full_rows T.id_of rows.old.items) }
    ensures gone { full_rows T.id_of rows.new.items ≡ remove_entry (nat_eq id) (full_rows T.id_of rows.old.items) }
    ensures rises { Rise T.id_of 0 rows.new.items }
{
    let at = place_of(rows, id);
    if !is_at(rows, at, id) {
        return None;
    }
    mem::replace(&mut rows[at], Row::Empty(id)).into_thing()
}

// Takes all empty rows out.
fn sweep<T: HasId>(rows: &mut Vec<Row<T>>)
    requires { Rise T.id_of 0 rows.old.items }
    ensures same { full_rows T.id_of rows.new.items ≡ full_rows T.id_of rows.old.items }
    ensures rises { Rise T.id_of 0 rows.new.items }
{
    rows.retain(|row| !row.is_empty());
}
