//! The cursors that are open.
ghost use Rattle.std.specs.Prelude.{◌≡◌, ◌<◌, [], ◌∷◌, ◌++◌, is_some, length, OnErr, OnOk};
ghost use Rattle.std.specs.List.{AllByRecursion};
ghost use Rattle.std.specs.Option.{option_copied};
ghost use Rattle.cursor_book.specs.Cursors.{IdsRise, cursor_of, cursors_of, live, read, without, without_index};

use crate::cursor::{Cursor, Taken};
use crate::shelf::Shelf;
use crate::shelves;
use ft_base::NoMemory;
use std::alloc::Global;
use std::marker::Model;

/// The cursors that are open, of all indexes: a contract sees them as a list in rising order of ids.
#[derive(Drop)]
pub struct CursorBook {
    alloc: Global,
    /// No cursor is idle up to this moment.
    earliest: u64,
    shelves: Vec<Shelf>,
}

impl Model for CursorBook {
    ghost use Rattle.std.specs.Prelude.{List};
    ghost use Rattle.cursor_book.specs.declared.cursor.Cursor.{Cursor};
    ghost use Rattle.cursor_book.specs.Shelved.{IsBook, all_of, by_id, cursors_code};

    ghost Value = { List Cursor };

    ghost coded = { cursors_code };

    ghost view = { λ book. by_id (all_of book.shelves.items) };

    ghost invariant = { λ book. IsBook book.earliest book.shelves.items };
}

impl CursorBook {
    /// No cursor is open, and no memory taken.
    pub fn new(alloc: Global) -> CursorBook
        ensures { result ≡ [] }
    {
        CursorBook {
            alloc,
            earliest: u64::MAX,
            shelves: Vec::new(alloc),
        }
    }

    /// One more cursor. Ids are numbers of events, so a new one is above all others.
    pub fn open(&mut self, cursor: Cursor) -> Result<(), NoMemory>
        requires { AllByRecursion (λ other. other.id < cursor.id) self.old }
        ensures ok { OnOk result (self.new ≡ self.old ++ cursor ∷ []) }
        ensures err { OnErr result (self.new ≡ self.old) }
    {
        shelves::push(self.alloc, &mut self.shelves, cursor)?;
        self.earliest = shelves::earliest_of(self.shelves.as_slice());
        Ok(())
    }

    /// The cursor of an index with an id.
    pub fn find(&self, serial: u64, id: u64) -> Option<&Cursor>
        ensures { option_copied result ≡ cursor_of serial id self.now }
    {
        shelves::find(self.shelves.as_slice(), serial, id)
    }

    /// The number of cursors of an index.
    pub fn count(&self, serial: u64) -> usize
        ensures number { result ≡ length (cursors_of serial self.now) }
        ensures rises { IdsRise self.now }
    {
        shelves::count(self.shelves.as_slice(), serial)
    }

    /// A read of the cursor of an index with an id, at a moment.
    pub fn read(&mut self, serial: u64, id: u64, now: u64, taken: Taken)
        ensures { self.new ≡ read serial id now taken self.old }
    {
        shelves::read(&mut self.shelves, serial, id, now, taken);
        self.earliest = shelves::earliest_of(self.shelves.as_slice());
    }

    /// Drops the cursor of an index with an id, and answers whether it was there.
    pub fn delete(&mut self, serial: u64, id: u64) -> bool
        ensures there { result ≡ is_some (cursor_of serial id self.old) }
        ensures left { self.new ≡ without serial id self.old }
    {
        let there = shelves::has(self.shelves.as_slice(), serial, id);
        shelves::delete(&mut self.shelves, serial, id);
        self.earliest = shelves::earliest_of(self.shelves.as_slice());
        there
    }

    /// Drops the cursors that are idle at a moment. Where none can be, none is looked at.
    pub fn drop_idle(&mut self, now: u64)
        ensures { self.new ≡ live now self.old }
    {
        if now > self.earliest {
            shelves::drop_idle(&mut self.shelves, now);
            self.earliest = shelves::earliest_of(self.shelves.as_slice());
        }
    }

    /// Drops the cursors of an index.
    pub fn drop_index(&mut self, serial: u64)
        ensures { self.new ≡ without_index serial self.old }
    {
        shelves::drop_shelf(&mut self.shelves, serial);
        self.earliest = shelves::earliest_of(self.shelves.as_slice());
    }

    /// Drops all cursors.
    pub fn drop_all(&mut self)
        ensures { self.new ≡ [] }
    {
        self.shelves.clear();
    }
}
