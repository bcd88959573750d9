//! The lexemes of a query's text, with their byte offsets.
//!
//! A text is read from the left: words, quotes, parameters and signs; behind `:` the brackets of a range
//! or the braces of tags, behind `=>` the braces of attributes. So `@t:(a "b c")` has the lexemes
//! `@`, `t`, `:`, `(`, `a`, `"b c"` and `)`. The first fault is a quote without its end, or a backslash
//! that escapes nothing. Read first `specs/Spelling.antt` and `specs/Spells.antt`, how lexemes are
//! written; then how they are read: `specs/Lexemes.antt`, `specs/Roles.antt` and `specs/Context.antt`,
//! then `lexer.rt`.
#![tactic(auto)]

mod context;
mod fault;
mod laws;
mod lexeme;
mod lexer;
mod piece;
mod quote;
mod raw;
mod role;
mod separators;
mod text_byte;
mod word;

/// Why a text has no lexemes.
pub use fault::LexFault;
/// Any word can be written in a text.
pub use laws::escaped_word_is_read;
/// Lexemes and separators spell their text.
pub use laws::lexemes_spell_the_text;
/// A text has one answer.
pub use laws::one_list_of_lexemes;
/// A part of a query's text.
pub use lexeme::{LexKind, Lexeme, Sign};
/// The lexemes of a text.
pub use lexer::lex;
