//! The words of a text, as TEXT fields are indexed and queries are read.
//!
//! A text is cut at ASCII blanks, controls and punctuation but `_`; a backslash before such a byte
//! makes it a byte of its word. A to Z are lowered, stop words are dropped, and the others are
//! numbered from 1. So `Hello\-World, the_end` has the tokens `hello-world` and `the_end`.
//! Read first `specs/Tokens.antt`, then `token.rt`.
#![tactic(auto)]

mod part;
mod runs;
mod text_tokens;
mod token;

/// The tokens of a text, held and lent.
pub use text_tokens::TextTokens;
/// The tokens of a text, and what a contract sees of one.
pub use token::{Token, tokens};
