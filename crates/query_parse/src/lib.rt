//! The parser of query texts (RediSearch, query dialect 2): a text's tree, or its first fault.
//!
//! A text is read from the left, with one function for each rule of the grammar, which never looks
//! back. Each function answers what reading gives as `query_grammar` defines it, or that it ran
//! out of memory. So `@t:(a b) | -c` has the tree Or(And(t:a, t:b), Not(c)). Begin with `query.rt`, then
//! `parser.rt`; `params.rt` finds the value of a `$name`. `specs/Answer.antt` says what a text is
//! answered.
#![tactic(auto)]

mod atoms;
mod attributes;
mod blocks;
mod fields;
mod name_set;
mod params;
mod parser;
mod phrases;
mod query;
mod ranges;
mod settings;
mod stop;
mod tags;
mod tokens;
mod values;

/// The tree of a text.
pub use query::parse;
/// Why a text is no query.
pub use query_grammar::QueryFault;
