//! The cursors that are held, and the one that waits until it is opened.
ghost use Rattle.std.specs.Prelude.{◌≡◌, None, Some, length, OnOk};
ghost use Rattle.std.specs.Option.{option_copied};
ghost use Rattle.cursor_book.specs.Cursors.{cursor_of, cursors_of};
ghost use Rattle.indexed_store.specs.Holding.{seen};
ghost use Rattle.indexed_store.specs.Preparing.{HasNumber, Stays};

use crate::held::IndexedStore;
use cursor_book::{Cursor, CursorBook};
use ft_base::NoMemory;

/// The serial of a cursor's index, and the cursor's id.
#[derive(Clone, Copy, Drop)]
pub struct CursorPlace {
    pub serial: u64,
    pub id: u64,
}

impl IndexedStore {
    /// Lets a cursor of this event wait until it is opened. Out of memory, nothing is seen of it.
    #[tactic(auto, using(crate::proofs::MovingLaws::moves_same))]
    pub fn prepare_cursor(&mut self, cursor: Cursor) -> Result<(), NoMemory>
        requires number { HasNumber self.old }
        requires id { cursor.id ≡ self.old.next }
        requires none { self.old.opens ≡ None }
        ensures waits { OnOk result (self.new.opens ≡ Some cursor) }
        ensures stays { Stays self.old self.new }
        ensures indexes { self.new.indexes ≡ self.old.indexes }
    {
        self.next += 1;
        let place = CursorPlace {
            serial: cursor.serial,
            id: cursor.id,
        };
        self.cursors.open(cursor)?;
        self.opens = Some(place);
        Ok(())
    }

    /// The cursor of an index with an id.
    pub fn cursor(&self, serial: u64, id: u64) -> Option<&Cursor>
        requires none { self.now.opens ≡ None }
        ensures { option_copied result ≡ cursor_of serial id self.now.cursors }
    {
        self.cursors.find(serial, id)
    }

    /// How many cursors an index has.
    pub fn cursor_count(&self, serial: u64) -> usize
        requires none { self.now.opens ≡ None }
        ensures { result ≡ length (cursors_of serial self.now.cursors) }
    {
        self.cursors.count(serial)
    }
}

/// The cursor that waits is gone, where one does.
pub fn let_go(cursors: &mut CursorBook, opens: &mut Option<CursorPlace>)
    ensures cursors { cursors.new ≡ seen opens.old cursors.old }
    ensures opens { opens.new ≡ None }
{
    if let Some(place) = opens.take() {
        let _ = cursors.delete(place.serial, place.id);
    }
}
