//! The documents of one index: which ids are live, and the numbers that searches sort by.
//!
//! A document is prepared first, which may run out of memory, and then committed, which takes none. Read
//! `table.rt`, then `specs/Table.antt`. The ids of all rows are bits too: `pages.rt`; those of the live ones can be copied.
#![tactic(auto)]

mod changes;
mod doc_row;
mod doc_rows;
mod live_ids;
mod page;
mod pages;
mod places;
mod sorting_vector;
mod table;

/// The ids that were live at a moment.
pub use live_ids::LiveIds;
/// The numbers of a document that searches sort by.
pub use sorting_vector::SortingVector;
/// The documents of one index, and a list of their ids.
pub use table::{DocTable, IdList};
