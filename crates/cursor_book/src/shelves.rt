//! The cursors of all indexes, those of each index together.
ghost use Rattle.std.specs.Prelude.{◌≡◌, ◌<◌, ◌++◌, ◌∷◌, [], filter, is_some, length, map, not, IfSome, OnErr, OnOk};
ghost use Rattle.std.specs.List.{find, position};
ghost use Rattle.std.specs.Option.{option_copied};
ghost use Rattle.cursor_book.specs.Cursors.{has_id, is_live};
ghost use Rattle.cursor_book.specs.Ends.{AllEndFrom};
ghost use Rattle.cursor_book.specs.Shelved.{all_of, delete_in, has_serial, kept, pushed, read_in, shelf_of};

use crate::cursor::{Cursor, Taken};
use crate::shelf::Shelf;
use ft_base::NoMemory;
use std::alloc::Global;

/// The cursor of an index with an id.
pub fn find(shelves: &[Shelf], serial: u64, id: u64) -> Option<&Cursor>
    ensures { option_copied result ≡ find (has_id id) (shelf_of serial shelves.now) }
{
    match shelf_of(shelves, serial) {
        Some(shelf) => shelf.find(id),
        None => None,
    }
}

/// Whether it is there.
pub fn has(shelves: &[Shelf], serial: u64, id: u64) -> bool
    ensures { result ≡ is_some (find (has_id id) (shelf_of serial shelves.now)) }
{
    find(shelves, serial, id).is_some()
}

/// The number of cursors of an index.
pub fn count(shelves: &[Shelf], serial: u64) -> usize
    ensures { result ≡ length (shelf_of serial shelves.now) }
{
    match shelf_of(shelves, serial) {
        Some(shelf) => shelf.count(),
        None => 0,
    }
}

fn shelf_of(shelves: &[Shelf], serial: u64) -> Option<&Shelf>
    ensures { option_copied result ≡ find (has_serial serial) shelves.now }
{
    shelves.iter().find(|shelf| shelf.serial() == serial)
}

/// One more cursor, behind the others of its index.
pub fn push(alloc: Global, shelves: &mut Vec<Shelf>, cursor: Cursor) -> Result<(), NoMemory>
    ensures ok { OnOk result (shelves.new.items ≡ pushed cursor shelves.old.items) }
    ensures err { OnErr result (shelves.new.items ≡ shelves.old.items) }
{
    match place_of(shelves.as_slice(), cursor.serial) {
        Some(place) => shelves[place].push(cursor),
        None => push_shelf(alloc, shelves, cursor),
    }
}

fn place_of(shelves: &[Shelf], serial: u64) -> Option<usize>
    ensures place { result ≡ position (has_serial serial) shelves.now }
    ensures within { IfSome result (λ place. place < length shelves.now) }
{
    shelves.iter().position(|shelf| shelf.serial() == serial)
}

/// The first cursor of an index.
fn push_shelf(alloc: Global, shelves: &mut Vec<Shelf>, cursor: Cursor) -> Result<(), NoMemory>
    ensures ok { OnOk result (shelves.new.items ≡ shelves.old.items ++ (cursor.serial, cursor ∷ []) ∷ []) }
    ensures err { OnErr result (shelves.new.items ≡ shelves.old.items) }
{
    let mut shelf = Shelf::new(alloc, cursor.serial);
    shelf.push(cursor)?;
    shelves.push(shelf)?;
    Ok(())
}

/// The cursor of an index with an id is read.
pub fn read(shelves: &mut Vec<Shelf>, serial: u64, id: u64, now: u64, taken: Taken)
    ensures { shelves.new.items ≡ map (read_in serial id now taken) shelves.old.items }
{
    read_each(shelves.as_mut_slice(), serial, id, now, taken);
}

fn read_each(shelves: &mut [Shelf], serial: u64, id: u64, now: u64, taken: Taken)
    ensures { shelves.new ≡ map (read_in serial id now taken) shelves.old }
{
    for shelf in shelves.iter_mut() {
        read_in(shelf, serial, id, now, taken);
    }
}

fn read_in(shelf: &mut Shelf, serial: u64, id: u64, now: u64, taken: Taken)
    ensures { shelf.new ≡ read_in serial id now taken shelf.old }
{
    if shelf.serial() == serial {
        shelf.read(id, now, taken);
    }
}

/// Drops the cursor of an index with an id.
pub fn delete(shelves: &mut Vec<Shelf>, serial: u64, id: u64)
    ensures { shelves.new.items ≡ map (delete_in serial id) shelves.old.items }
{
    delete_each(shelves.as_mut_slice(), serial, id);
}

fn delete_each(shelves: &mut [Shelf], serial: u64, id: u64)
    ensures { shelves.new ≡ map (delete_in serial id) shelves.old }
{
    for shelf in shelves.iter_mut() {
        delete_in(shelf, serial, id);
    }
}

fn delete_in(shelf: &mut Shelf, serial: u64, id: u64)
    ensures { shelf.new ≡ delete_in serial id shelf.old }
{
    if shelf.serial() == serial {
        shelf.delete(id);
    }
}

/// Drops the cursors that are idle at a moment.
pub fn drop_idle(shelves: &mut Vec<Shelf>, now: u64)
    ensures { shelves.new.items ≡ map (kept (is_live now)) shelves.old.items }
{
    drop_idle_each(shelves.as_mut_slice(), now);
}

fn drop_idle_each(shelves: &mut [Shelf], now: u64)
    ensures { shelves.new ≡ map (kept (is_live now)) shelves.old }
{
    for shelf in shelves.iter_mut() {
        shelf.drop_idle(now);
    }
}

/// Drops the cursors of an index.
pub fn drop_shelf(shelves: &mut Vec<Shelf>, serial: u64)
    ensures { shelves.new.items ≡ filter (λ shelf. not (has_serial serial shelf)) shelves.old.items }
{
    shelves.retain(|shelf| shelf.serial() != serial);
}

/// A moment up to which no cursor is idle.
pub fn earliest_of(shelves: &[Shelf]) -> u64
    ensures { AllEndFrom result (all_of shelves.now) }
{
    let mut earliest = u64::MAX;
    for shelf in shelves {
        earliest = earliest.min(shelf.earliest());
    }
    earliest
}
