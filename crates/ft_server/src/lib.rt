//! A server that callers share, and its connections: commands are read from a link and executed, and their replies written
//! back.
//!
//! `Server` is an engine under the turn lock. A caller holds a `Pass`; `call` takes a turn of one command, `call_block` one of
//! several, and `serve_connection` one for each command of a link, and one for all between MULTI and EXEC. `run` does what the
//! words of the command line ask for with a server of its own, and carries the promise of the whole: what is written is the
//! replies of a legal history of the commands read; for the load, that four lines sum up the replies of a legal history of its
//! commands.
//! Read `specs/Passes.antt`, `specs/Items.antt`, `specs/Callers.antt`, `specs/Session.antt`, `specs/Ends.antt`, `server.rt` and
//! `calls.rt` first, then `connection.rt` and `runner.rt`; for the load `specs/Load.antt` and `load.rt`.
#![tactic(auto)]

mod blocks;
mod calls;
mod collecting;
mod connection;
mod exit;
mod fault_text;
mod input;
mod laws;
mod load;
mod logged_engine;
mod outs;
mod replies;
mod runner;
mod server;
mod tally;
mod tx_texts;

/// Several commands of a caller, side by side.
pub use blocks::call_block;
/// One command of a caller among others.
pub use calls::call;
/// The turns of a collector.
pub use collecting::{scan_turn, splice_turn};
/// How a connection ended, and one connection from its first byte to its last.
pub use connection::{End, serve_connection};
/// How a run ended, with the status of the process.
pub use exit::Exit;
/// Laws of what a connection's commands become.
pub use laws::{own_entries, plain_streams};
/// The engine under the turn lock, and the entries of its log.
pub use logged_engine::{LogEntry, LoggedEngine};
/// The replies of a block's commands.
pub use outs::{Out, Outs};
/// All that the program does over one link.
pub use runner::run;
/// An engine that callers share, and what a caller holds.
pub use server::{Pass, Server};
