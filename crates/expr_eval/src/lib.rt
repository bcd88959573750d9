//! Expressions over the rows of an aggregate (RediSearch, FT.AGGREGATE): their grammar, and their values.
//!
//! The grammar is a relation from tokens to a tree, apart from any parser (`specs/Tokens.antt`, `specs/Grammar.antt`).
//! Which answer a text has follows from it (`specs/Answer.antt`). What a tree is worth in a row is a fold over it
//! (`specs/Values.antt`, `specs/Properties.antt`, `specs/Meaning.antt`). An expression is parsed once a command and
//! worked out a row at a time, so looking at a value copies nothing.
#![tactic(auto)]

mod chain;
mod evaluator;
mod fault;
mod functions;
mod laws;
mod lent;
mod lent_row;
mod lexer;
mod notes;
mod operators;
mod parser;
mod properties;
mod seen;
mod token;
mod tree;

/// The value of an expression in a row, and whether it is a Num other than 0.
pub use evaluator::{eval, holds};
/// Why a text is no expression.
pub use fault::ExprFault;
/// Values that are lent by a row.
pub use lent::Lent;
/// Rows that are lent.
pub use lent_row::LentRow;
/// The values of the fields of a hash, lent.
pub use properties::{by_alias, by_name, seen_as};
/// A text has one answer.
pub use laws::{one_fault, one_tree, tree_or_fault};
/// The tree of a text.
pub use parser::parse_expr;
/// Expressions.
pub use tree::{Expr, Func, Op};
