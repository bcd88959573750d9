//! Loops over bytes and numbers that take several of them at a time: by lanes.
//!
//! Each call equals a plain definition for every length. None takes memory, and none can refuse.
//! Read first `specs/Separating.antt`, which says what a byte of a word is, then `separating.rt`.
#![tactic(auto)]

mod counting;
mod laws;
mod lowering;
mod ranging;
mod separating;

/// How many flags are set.
pub use counting::count_true;
/// What follows of separators and of lowering.
pub use laws::{lowered_twice, separated_between};
/// A text with A to Z lowered.
pub use lowering::lower_into;
/// Which numbers lie in an interval.
pub use ranging::in_range;
/// Where the next separator stands.
pub use separating::first_separator;
