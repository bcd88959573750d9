//! The words of the command line: which form they are, with its numbers.
//!
//! `clap` splits the words into a form's name and its texts, and each number is read from its text. Read `specs/Forms.antt`
//! first, which says the words of each form, then `form.rt`; `line.rt` has what clap is told.
#![tactic(auto)]

mod form;
mod line;
mod numbers;
mod texts;

/// The form of a command line, or why its words are none.
pub use form::{Form, WordFault, read_words};
