//! The whole state of the server, and the events that change it.
//!
//! The crate `ft_machine` says what a command does over plain lists. `Engine` stands for a state of that machine, and
//! `exec` takes its step: it reads the words, gives what they ask to the call that does it, and commits what that
//! prepared. Over it `history_core::run` makes legal histories (`machine.rt`, `laws.rt`). Read `specs/Stands.antt`
//! first, then `engine.rt`, `step.rt`, `plain.rt` and `searching.rt`. The commands of the connection are in
//! `connection.rt`, those of hashes and keys in `hashes`, those of indexes in `indexes`.
#![tactic(auto)]

mod connection;
mod engine;
mod hashes;
mod indexes;
mod last_splice;
mod laws;
mod machine;
mod plain;
mod prepared;
mod searching;
mod step;

/// The state of the server, and its events.
pub use engine::Engine;
/// What an engine keeps of a splice.
pub use last_splice::LastSplice;
/// That what an engine executes is a legal history.
pub use laws::steps_are_legal;
/// A list that a scan pictured.
pub use machine::ListPicture;
/// A command that is prepared.
pub use prepared::Prepared;
