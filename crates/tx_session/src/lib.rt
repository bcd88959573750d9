//! What a connection does with the commands between MULTI and EXEC: the session of one caller, by its table.
//!
//! A session executes nothing and writes nothing: it says what becomes of each command. Read `specs/Table.antt` first, which
//! is the table, then `src/session.rt`.
#![tactic(auto)]

mod kinds;
mod session;

/// What is said, where a session is, and the names that it knows.
pub use kinds::{Name, Phase, TxText};
/// The session of one caller.
pub use session::{TxSession, TxTake};
