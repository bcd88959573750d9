//! What each command does, over the plain hashes: the machine that the server's replies are proved against.
//!
//! It is defined in `specs/`, over plain lists: what it holds (`Machine.antt`), one step (`Step.antt`, with
//! `PlainCommands.antt`, `Writes.antt`, `Indexes.antt`, `Searching.antt` and `Info.antt`), and legal histories
//! (`History.antt`). The functions are laws of it.
#![tactic(auto)]

mod counts;
mod laws;

/// The numbers that FT.INFO tells.
pub use counts::Counts;
/// That a command has one reply, and leads to one state, and that histories are legal.
pub use laws::{histories_are_legal, one_reply, one_state};
