//! One index: which documents are live, and the posting lists of their words, tags and numbers.
//!
//! A document goes in under the number of the event that wrote it. Its entries go into the lists
//! while it is not live yet, which may take memory; then it is made live, which takes none. A document
//! that is written again gets a new id: the old id is killed, and what it left in the lists is dead.
//! So a list may hold entries that no search may answer, and whoever reads one asks what is live.
//! Of a live document the index keeps no key, but its sorting vector: the numbers that searches are
//! sorted by. A collection takes dead entries out of all lists (`collecting.rt`, `collecting_ranges.rt`). A scan takes a picture of
//! each (`scanning.rt`), to be repaired elsewhere, and a repair is spliced into the list of its name. A collector's round takes the
//! pictures in parts (`parting.rt`, `rounds.rt`), and sweeps short lists where they stand (`sweeping.rt`).
//! Read first `specs/Index.antt`, then `index.rt`; of the lists `specs/Entries.antt` and `specs/Has.antt`, which says how they
//! stand for documents, then `lists.rt`.
#![tactic(auto)]

mod collecting;
mod collecting_ranges;
mod entering;
mod index;
mod lists;
mod live;
mod numbers;
mod parting;
mod reading;
mod ready;
mod records;
mod repairs;
mod room;
mod rounds;
mod scanning;
mod snapshots;
mod sorting;
mod splicing;
mod sweeping;
mod tags;
mod words;

/// One index. It is what plans, searches and iterators of ids read.
pub use index::FtIndex;
/// Its posting lists: of its words, of its tags, and of the ranges of its numbers.
pub use lists::IndexLists;
/// The repair of one of its lists.
pub use repairs::AnyRepair;
/// What an index was at the number of an event, and the pictures of its lists.
pub use snapshots::{AnyPicture, NamedPicture, Snapshot};
/// A document that was prepared, and how it fits the index.
pub use ready::{Fit, Ready};
