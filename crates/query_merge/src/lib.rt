//! Which parts of a query are planned: of equal ones the first.
//!
//! A part that is marked is planned, another one is equal to one that is. `specs/Merged.antt` says what that leaves as it is.
//! Read `specs/Merged.antt` first, then `merge.rt`.
#![tactic(auto)]

mod alike;
mod key;
mod merge;

/// Marks of parts of a query and of tags, and how they are read.
pub use merge::{is_set, marks_of, marks_of_tags};
