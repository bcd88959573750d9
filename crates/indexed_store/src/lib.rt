//! The documents of a store, the indexes over them and the cursors, which change together.
//!
//! A document that is written waits in the store and in each index, and takes its key's old one's place
//! everywhere at once. A document that is removed leaves the store and each index. An index that is
//! created takes the documents that are there, and one that is dropped takes its cursors along. `IndexedStore` holds all as
//! one value, in which each index always stands for the documents. A command's call answers a `Change`, of which nothing is
//! seen until `make` makes it.
//! Read first `specs/Standing.antt`, which says how indexes stand for documents, and `specs/Preparing.antt`, which says
//! what a command leaves; then `held.rt` and `writes.rt`.
#![tactic(auto)]

mod answering;
mod change;
mod collecting;
mod counting;
mod creation;
mod dropping;
mod filling;
mod held;
mod index_list;
mod indexes;
mod kept_places;
mod keys;
mod listings;
mod making;
mod parting;
mod reading;
mod removals;
mod repairing;
mod values;
mod versions;
mod waiting;
mod writes;

/// What a command changes, and how many indexes there may be.
pub use change::{Change, MOST_INDEXES};
/// How many documents some keys have.
pub use counting::{MOST_COUNTED, count_found};
/// An index over the documents that are there.
pub use creation::index_over;
/// An index is dropped, with its members or without.
pub use dropping::{drop_index, drop_members};
/// The documents and the indexes over them as one value.
pub use held::IndexedStore;
/// Where reads of cursors have come to.
pub use kept_places::KeptPlaces;
/// The list of indexes.
pub use index_list::{index_named, push_index, replace_index};
/// What was prepared is made.
pub use making::make;
/// Documents are removed.
pub use removals::{remove, remove_all};
/// New versions of a hash.
pub use versions::{copy_of, left_of, number_of, set_pairs};
/// Where a cursor is found.
pub use waiting::CursorPlace;
/// A document is written.
pub use writes::{prepare_hash, settle};
