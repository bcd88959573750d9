//! What a command asks, from its words alone.
//!
//! One table names every command with its lawful numbers of words. Where the name and the number
//! are right the words are judged from the left, and the first fault is answered. Only the
//! words of a schema, the parameters of a query and the steps of an aggregate are copied; all else
//! is lent from the words.
//! Read first `specs/Commands.antt`, which has the table, then `specs/Read.antt` and `read.rt`;
//! for FT.SEARCH `specs/Search.antt` and `specs/Options.antt`, then `search.rt` and `options.rt`;
//! for FT.AGGREGATE `specs/Aggregate.antt` and `specs/AggregateSteps.antt`, then `aggregate.rt` and
//! `aggregate_parts.rt`; for FT.CURSOR `specs/Cursor.antt`, then `cursor.rt`.
#![tactic(auto)]

mod aggregate;
mod aggregate_names;
mod aggregate_parts;
mod aggregate_steps;
mod aggregate_words;
mod command;
mod copied;
mod cursor;
mod fit;
mod laws;
mod option_names;
mod option_words;
mod options;
mod params;
mod read;
mod reading;
mod search;
mod stop;
mod table;

/// What FT.AGGREGATE asks.
pub use aggregate::AggregateSpec;
/// How a cursor is read, and the limits of its numbers.
pub use aggregate_words::{CursorSpec, MAX_COUNT, MAX_IDLE};
/// What a command asks, and why it asks nothing.
pub use command::{CmdFault, Command, Verb};
/// What is true of the definitions, whatever code there is.
pub use laws::trees_of_grammar;
/// Whether a command's name is known and its number of words lawful.
pub use fit::name_fit;
/// A field's interval and a field to sort by, as FT.SEARCH asks them, and the limit of its window.
pub use option_words::{FilterSpec, MAX_ROWS, SortSpec};
/// Reads a command.
pub use read::read_command;
/// What FT.SEARCH asks.
pub use search::SearchSpec;
