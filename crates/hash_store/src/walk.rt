//! A walk over all documents of a store, each of which counts as handed out before it begins.
//!
//! A document that waits is the last of all, so the walk ends when as many were given as are counted.
ghost use Rattle.std.specs.Prelude.{◌≡◌, take};
ghost use Rattle.std.specs.Map.{values_of};
ghost use Rattle.hash_store.specs.Walk.{IsNextDoc};

use ft_base::Doc;
use id_rows::{IdRows, RowWalk};
use std::marker::Model;

/// That all documents of a store were counted as handed out. A contract sees their number.
#[derive(Drop)]
pub struct AllRead {
    count: usize,
}

impl Model for AllRead {
    ghost use Rattle.std.specs.Prelude.{ℕ};

    ghost Value = { ℕ };

    ghost view = { λ read. read.count };
}

impl AllRead {
    /// That so many documents were counted.
    pub(crate) fn of(count: usize) -> AllRead
        ensures { result ≡ count }
    {
        AllRead { count }
    }
}

/// The documents that are left, in order of their ids, which a contract sees as a list.
#[derive(Drop)]
pub struct DocWalk<'a> {
    left: RowWalk<'a, Doc>,
    // So many of them are to be given.
    count: usize,
}

impl<'a> Model for DocWalk<'a> {
    ghost use Rattle.std.specs.Prelude.{List, take};
    ghost use Rattle.ft_base.specs.Docs.{Doc};

    ghost Value = { List Doc };

    ghost view = { λ w. take w.count w.left };
}

impl<'a> DocWalk<'a> {
    /// A walk over the documents that were counted, the first of all.
    pub(crate) fn over(docs: &'a IdRows<Doc>, read: AllRead) -> DocWalk<'a>
        ensures { result ≡ take read (values_of docs.now) }
    {
        DocWalk {
            left: docs.walk(),
            count: read.count,
        }
    }

    /// The next document, `None` where all were given.
    pub fn next(&mut self) -> Option<&'a Doc>
        ensures { IsNextDoc self.old result self.new }
    {
        if self.count == 0 {
            return None;
        }
        self.count -= 1;
        self.left.next()
    }
}
