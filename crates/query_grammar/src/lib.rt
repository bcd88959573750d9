//! What a query's text says (RediSearch, query dialect 2): its grammar, the faults of a text, and its tree.
//!
//! The grammar is a relation from lexemes to a form, apart from any parser (`specs/Grammar.antt`). The faults of a form
//! and the tree that it gives are plain recursions on it (`specs/Faults.antt`, `specs/Meaning.antt`). Which answer a
//! text has follows from these three (`specs/Answer.antt`). The laws here say that a text has one answer.
#![tactic(auto)]

mod fault;
mod laws;
mod reading;

/// Why a text is no query.
pub use fault::QueryFault;
/// A text has one answer.
pub use laws::{one_fault, one_tree, tree_or_fault};
/// Reading finds it.
pub use reading::reading_answers;
