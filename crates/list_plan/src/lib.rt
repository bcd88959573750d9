//! Plans of the lists of an index: each list is opened behind an id, at a place that a reader knows or one that is searched,
//! and such parts are put together to what some of them, every one, or none has.
//!
//! Nothing here knows of queries or documents: `query_plan` asks for the lists that a query needs.
//! Read `specs/Plans.antt` first, then `leaves.rt` and `union.rt`; `parts.rt` has negations, and `known.rt` the places.
#![tactic(auto)]

mod known;
mod leaves;
mod parts;
mod room;
mod size;
mod sources;
mod union;

/// Places that a reader knows.
pub use known::{Known, known_places};
/// Lists that are opened.
pub use leaves::{leaf_of, plan_list, plan_lists};
/// Parts that may be negated, put together.
pub use parts::{Part, add_part, every_part, some_part};
/// Bytes that leaves may take.
pub use room::Room;
/// Parts, and how many ids each has at most.
pub use size::{Planned, add_planned, word_size};
/// What a plan is made from.
pub use sources::{Sources, Wanted};
/// Sets put together.
pub use union::{every_of, other_of, some_of};
