//! What a search means on one document, read from its key and hash alone.
//!
//! The functions here are slow: each reads the document's fields anew. They say what an index has
//! to find, and tests compare the index with them.
//! Read first `specs/Member.antt` and `specs/Meaning.antt`, then `membership.rt` and `words.rt`.
#![tactic(auto)]

mod membership;
mod sortable;
mod words;

/// Whether a document is in an index, and whether it fails to be.
pub use membership::{failed, member};
/// Which fields' numbers an index keeps to sort by.
pub use sortable::keeps_number;
/// The words of a document's fields.
pub use words::field_tokens;
