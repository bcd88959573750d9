//! Reads of documents by their ids: how a search shows a document, the page of one that is not sorted, and a read of a stream.
//!
//! A document that is not shown with its fields is not read, and one that is is read once. What a search shows is defined in
//! `ft_machine`, `specs/Shown.antt`: read `shape.rt` first, then `page.rt` and `by_id.rt`. A stream is read from an id on,
//! document by document: `stream.rt`, defined in `specs/Parts.antt` of `ft_machine`.
#![tactic(auto)]

mod by_id;
mod facts;
mod hints;
mod page;
mod shape;
mod stream;

/// A document noted on a page.
pub use by_id::note_id;
/// What holds of a store.
pub use facts::tell;
/// The rows of a search that is not sorted.
pub use page::Page;
/// What a search shows of its documents.
pub use shape::{Shape, SortKey, push_key, push_row};
/// A read of a stream.
pub use stream::{StreamRead, read_stream};
