//! What the text of a field's value says: the tags of a TAG field, and the number of a NUMERIC one.
//!
//! The ends of an interval of such numbers are read here too.
//! Read `specs/Tags.antt`, `specs/Numbers.antt` and `specs/Bounds.antt` first.
#![tactic(auto)]

mod bounds;
mod numbers;
mod tag_list;

/// The ends of an interval of numbers, and the numbers between two.
pub use bounds::{Bound, interval, read_bound};
/// The whole number that a value spells.
pub use numbers::number;
/// The tags of a value.
pub use tag_list::tags;
