//! What a stream cursor gives over a whole history, whatever code obeys the machine.
//!
//! The law is defined in `specs/`, over the steps of a legal history (`Steps.antt`): what a state has of a cursor
//! (`StreamCursor.antt`), when a step opens it (`Opens.antt`), what the steps give of it (`Given.antt`), and what holds of
//! that (`Law.antt`). The function does nothing: its contract is the law.
#![tactic(auto)]

mod laws;

/// The law of stream cursors.
pub use laws::cursor_law;
