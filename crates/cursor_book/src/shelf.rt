//! The cursors of one index.
ghost use Rattle.std.specs.Prelude.{◌≡◌, [], ◌∷◌, ◌++◌, filter, length, map, not, OnErr, OnOk};
ghost use Rattle.std.specs.List.{find};
ghost use Rattle.std.specs.Option.{option_copied};
ghost use Rattle.cursor_book.specs.Cursors.{has_id, is_live, live};
ghost use Rattle.cursor_book.specs.Ends.{AllEndFrom};
ghost use Rattle.cursor_book.specs.Shelved.{changed, kept, read_if_id};

use crate::cursor::{Cursor, Taken};
use ft_base::NoMemory;
use std::alloc::Global;
use std::marker::Model;

/// The serial of an index and its cursors, in rising order of ids where they came so.
#[derive(Drop)]
pub struct Shelf {
    serial: u64,
    /// No cursor is idle up to this moment.
    earliest: u64,
    cursors: Vec<Cursor>,
}

impl Model for Shelf {
    ghost use Rattle.cursor_book.specs.Ends.{AllEndFrom};
    ghost use Rattle.cursor_book.specs.Shelved.{Shelved, shelved_code};

    ghost Value = { Shelved };

    ghost coded = { shelved_code };

    ghost view = { λ s. (s.serial, s.cursors.items) };

    ghost invariant = { λ s. AllEndFrom s.earliest s.cursors.items };
}

impl Shelf {
    /// No cursors yet, and no memory taken.
    pub fn new(alloc: Global, serial: u64) -> Shelf
        ensures { result ≡ (serial, []) }
    {
        Shelf {
            serial,
            earliest: u64::MAX,
            cursors: Vec::new(alloc),
        }
    }

    pub fn serial(&self) -> u64
        ensures { result ≡ self.now.0 }
    {
        self.serial
    }

    /// A moment up to which no cursor is idle.
    pub fn earliest(&self) -> u64
        ensures { AllEndFrom result self.now.1 }
    {
        self.earliest
    }

    /// The number of cursors.
    pub fn count(&self) -> usize
        ensures { result ≡ length self.now.1 }
    {
        self.cursors.len()
    }

    /// The cursor with an id.
    pub fn find(&self, id: u64) -> Option<&Cursor>
        ensures { option_copied result ≡ find (has_id id) self.now.1 }
    {
        self.cursors.iter().find(|cursor| cursor.id == id)
    }

    /// One more cursor, which goes last.
    pub fn push(&mut self, cursor: Cursor) -> Result<(), NoMemory>
        ensures ok { OnOk result (self.new ≡ (self.old.0, self.old.1 ++ cursor ∷ [])) }
        ensures err { OnErr result (self.new ≡ self.old) }
    {
        let end = cursor.end();
        self.cursors.push(cursor)?;
        self.earliest = self.earliest.min(end);
        Ok(())
    }

    /// The cursor with an id is read.
    pub fn read(&mut self, id: u64, now: u64, taken: Taken)
        ensures { self.new ≡ changed (read_if_id id now taken) self.old }
    {
        read_cursors(self.cursors.as_mut_slice(), id, now, taken);
        self.earliest = earliest_of(self.cursors.as_slice());
    }

    /// Drops the cursor with an id.
    pub fn delete(&mut self, id: u64)
        ensures { self.new ≡ kept (λ cursor. not (has_id id cursor)) self.old }
    {
        drop_id(&mut self.cursors, id);
        self.earliest = earliest_of(self.cursors.as_slice());
    }

    /// Drops the cursors that are idle at a moment. Where none can be, none is looked at.
    pub fn drop_idle(&mut self, now: u64)
        ensures { self.new ≡ kept (is_live now) self.old }
    {
        if now > self.earliest {
            keep_live(&mut self.cursors, now);
            self.earliest = earliest_of(self.cursors.as_slice());
        }
    }
}

fn read_cursors(cursors: &mut [Cursor], id: u64, now: u64, taken: Taken)
    ensures { cursors.new ≡ map (read_if_id id now taken) cursors.old }
{
    for cursor in cursors.iter_mut() {
        read_if_id(cursor, id, now, taken);
    }
}

fn read_if_id(cursor: &mut Cursor, id: u64, now: u64, taken: Taken)
    ensures { cursor.new ≡ read_if_id id now taken cursor.old }
{
    if cursor.id == id {
        cursor.read(now, taken);
    }
}

fn drop_id(cursors: &mut Vec<Cursor>, id: u64)
    ensures { cursors.new.items ≡ filter (λ cursor. not (has_id id cursor)) cursors.old.items }
{
    cursors.retain(|cursor| cursor.id != id);
}

fn keep_live(cursors: &mut Vec<Cursor>, now: u64)
    ensures { cursors.new.items ≡ live now cursors.old.items }
{
    cursors.retain(|cursor| !cursor.is_idle(now));
}

/// The last moment up to which no cursor is idle, or the last of all where there are no cursors.
fn earliest_of(cursors: &[Cursor]) -> u64
    ensures { AllEndFrom result cursors.now }
{
    let mut earliest = u64::MAX;
    for cursor in cursors {
        earliest = earliest.min(cursor.end());
    }
    earliest
}
