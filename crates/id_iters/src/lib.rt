//! Iterators of document ids: the sets that a query is made of, each asked for its least live id from a number on.
//!
//! A set is a leaf (a word, a tag, a range), a phrase, or made of other sets. `Iter::seek` is the one call. It answers
//! the least live id of its set, and goes forward alone: after an id it may be asked for higher ones.
//! Read `specs/Sets.antt` first, which says what ids an iterator has, then `iter.rt`.
#![tactic(auto)]

mod bits;
mod blocks;
mod hint;
mod hints;
mod hit_test;
mod iter;
mod leaf;
mod list_name;
mod lists;
mod maker;
mod phrase;
mod places;
mod read_ahead;
mod reading;

/// Ids that a union has read ahead.
pub use bits::Bits;
/// Lists and places in them, kept for a reader that comes again.
pub use hint::{Hint, Hints};
/// A set of ids and how far it was read, and one with its last answer.
pub use iter::{Ahead, Iter};
/// The ids of one list.
pub use leaf::Leaf;
/// Which list of an index.
pub use list_name::ListName;
/// What plans, searches and their iterators read of an index.
pub use lists::Lists;
/// The ids where words stand together.
pub use phrase::PhraseIter;
/// Ids that a reader has read ahead.
pub use read_ahead::ReadAhead;
