//! The turn lock: a state that callers take in turns, and one log of the entries that their turns added.
//!
//! The log stands in the proofs alone: it takes no memory. What a caller knows of it is its pass's `seen`, which begins
//! the log. A turn begins with the whole log and the state that stands for it, and adds one entry or more.
//! An entry is opaque to the lock but for the number of the caller that made it.
//! Read `gate.rt` first, then `specs/Rule.antt`, the rule that each step keeps, and `specs/Log.antt`.
#![tactic(auto)]

mod chronicle;
mod gate;
mod pass;
mod plays;
mod steps;
mod turn;
mod turn_state;
mod view;

/// What a state stands for, what an entry shows of itself, and what a turn adds.
pub use chronicle::{Chronicle, Logged, Told};
/// The lock.
pub use gate::Gate;
/// What a caller holds between its turns.
pub use pass::Pass;
/// What a caller holds in its turn.
pub use turn::Turn;
