//! The plan of a query: an iterator of the ids of the documents that it finds.
//!
//! Each part of the query becomes a set: a word a leaf, a prefix the union of the leaves of its words, an And what
//! its parts have in common. `specs/Finds.antt` says which ids the whole has.
//! Read `specs/Finds.antt` first, then `planner.rt` and `query_tree.rt`.
#![tactic(auto)]

mod asked;
mod phrases;
mod planner;
mod query_tree;
mod ranges;
mod tags;
mod words;

/// The plan of a query over the lists of an index.
pub use planner::plan;
