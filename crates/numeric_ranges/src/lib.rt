//! The ranges of a numeric field: posting lists, each of the values that lie in one range.
//!
//! There is one range over all values at first, and a range that grows past 1,024 entries with two
//! distinct values splits at its median. So a search for an interval reads few other entries.
//! Read `specs/Ranges.antt`, `specs/Added.antt`, `specs/Splicing.antt` and `specs/Values.antt` first, then
//! `ranges.rt`.
#![tactic(auto)]

mod cut;
mod halving;
mod ranges;
mod row;
mod search;
mod spread;

/// The ranges of one numeric field.
pub use ranges::Ranges;
