//! The load: a list of commands that anyone can make again from a seed and a number of documents, as requests of RESP2.
//!
//! It creates an index, sets a document for each number from 1 on, with words, a tag and a number that are drawn from
//! PCG (XSH RR 64/32, stream 1), deletes an earlier document behind each tenth, and ends with a search, a sorted search,
//! a collection of old entries, a grouping and the number of keys. Read `specs/Load.antt` first, which says each command,
//! then `making.rt`.
#![tactic(auto)]

mod documents;
mod drawing;
mod laws;
mod making;
mod requests;

/// Laws of the load's definition.
pub use laws::{first_commands, load_is_commands, number_of_commands};
/// The requests of a load.
pub use making::make;
