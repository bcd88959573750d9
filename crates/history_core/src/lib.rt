//! What machines are asked and answer, and the histories that they make.
//!
//! A history is a list of entries, each judged with all that stand before it (`specs/Histories.antt`). `run` gives
//! events to any machine, one after another, and its outcomes are those of such a history. Read
//! `specs/Histories.antt`, `specs/Entries.antt` and `specs/Commands.antt` first, then `event.rt`, `machine.rt` and
//! `runner.rt`.
#![tactic(auto)]

mod event;
mod machine;
mod runner;

/// What a machine is asked, and what that came to.
pub use event::{Event, Outcome};
/// A state that events change.
pub use machine::Machine;
/// Events given to a machine in order.
pub use runner::run;
