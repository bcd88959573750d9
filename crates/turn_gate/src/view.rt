//! What a pass knows.
use std::collections::LinkedList;

/// What a pass knows of the log and of the other passes. No value of it is made.
pub struct View<E> {
    /// A beginning of the log.
    pub seen: LinkedList<E>,
    /// Another beginning, which the shorter of two joined passes had seen.
    pub told: LinkedList<E>,
    /// How many turns it has taken.
    pub turns: u64,
    /// The number of the log's first entry.
    pub first: u64,
    /// How many passes it knows to have been made.
    pub passes: u64,
    /// How many of them it knows to have been made before it.
    pub before: u64,
    /// Whether it knows that no other pass was made.
    pub alone: bool,
    /// Whether a turn of its own is under way.
    pub in_turn: bool,
    /// Whether it was joined to another pass.
    pub spent: bool,
}
