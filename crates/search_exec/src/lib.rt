//! The replies of FT.SEARCH and FT.AGGREGATE: which of the documents that a query finds count, in which order, and how they
//! are shown; and the rows that steps make of them.
//!
//! A search asks the iterator of a query for its ids, counts them all, and reads the documents that it shows; and all of them
//! where it sorts by a field whose numbers the index does not keep. What is answered is defined in `ft_machine`,
//! `specs/Counted.antt` and `specs/Shown.antt`; read `search.rt` first, then `candidates.rt` and the three orders
//! `by_ids.rt`, `by_column.rt` and `by_field.rt`. How a document is shown is in `doc_reads`. An aggregate reads each document
//! that the iterator finds, and its steps make rows of them: `aggregate.rt` and `replied_rows.rt`, defined in
//! `specs/Aggregating.antt` of `ft_machine`.
#![tactic(auto)]

mod aggregate;
mod by_column;
mod by_field;
mod by_ids;
mod candidates;
mod replied_rows;
mod search;

/// What an aggregate answers, and its rows by themselves.
pub use aggregate::{aggregate_reply, found_rows};
/// Rows as they are replied.
pub use replied_rows::{lent_rows_reply, rows_reply};
/// What a search answers.
pub use search::search_reply;
