//! The repair of a picture, its blocks side by side.
//!
//! What it makes is what `gc_splice` makes of the picture, to the letter; only several processors do it. No lock is taken and
//! nothing is shared but what all of them read. Read `src/parallel.rt`, and `specs/Repaired.antt` of `gc_splice` first.
#![tactic(auto)]

mod parallel;
mod parts;
#[cfg(test)]
mod tests;

/// Repairs a picture side by side.
pub use parallel::repair;
