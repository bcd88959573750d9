//! The cursors that are open (RediSearch, FT.AGGREGATE with WITHCURSOR, and FT.CURSOR).
//!
//! A contract sees the book as the list of its cursors in rising order of ids, and each call as one plain function of that
//! list (`specs/Cursors.antt`). The code keeps the cursors of an index together, at most as many as an index may have, with
//! the first moment behind which one of them may be idle; so no call walks over the cursors of other indexes.
//! Read `cursor.rt` and `specs/Cursors.antt` first, then `book.rt`.
#![tactic(auto)]

mod book;
mod cursor;
mod rows_left;
mod shelf;
mod shelves;

/// The cursors that are open.
pub use book::CursorBook;
/// A cursor, what is left for it, and what a read of it takes.
pub use cursor::{Body, Cursor, Taken};
/// The rows that are left of those that were kept.
pub use rows_left::RowsLeft;
