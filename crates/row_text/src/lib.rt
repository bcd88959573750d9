//! Rows of text for programs that check answers: words, a bar, and what is expected.
//!
//! A row is a line, `words | want`. Words are parted by blanks; one with blanks or other bytes stands in
//! quotes, as redis-cli has them. What is expected of a server is the lines of its reply, with a blank
//! in place of each end of a line.
//! Read `words.rt` first, then `reply.rt`, and `specs/Fit.antt`, which says when a reply is as wanted.
#![tactic(auto)]

mod comparison;
mod reply;
mod spans;
mod words;

/// Whether a reply is as wanted.
pub use comparison::fits;
/// The lines of a reply, those that a row wants, and how they are shown.
pub use reply::{put_lines, read_reply, wanted_lines};
/// Where the words of a line lie, and whether a server takes them as a command.
pub use spans::{is_small, part};
/// A row, and the words of a text.
pub use words::{Row, read_row, split_words};
