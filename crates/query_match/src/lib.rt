//! Whether one document meets a query, read from its hash alone.
//!
//! Nothing is indexed: each part of the query reads the document's fields anew, and cuts a TEXT
//! field into words at most once. Searches answer by it where no index is at hand, and tests
//! compare an index with it. What a query asks is the definition `holds` of `ft_meaning`.
//! Read first `matcher.rt`, then `fields.rt`, `words.rt` and `values.rt`.
#![tactic(auto)]

mod fields;
mod matcher;
mod values;
mod words;

/// Whether a document meets a query.
pub use matcher::matches;
