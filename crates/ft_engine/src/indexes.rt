//! The commands of indexes: FT.CREATE, FT.ALTER, FT.DROPINDEX, FT._LIST, FT.TAGVALS, FT.INFO, FT.SEARCH, FT.AGGREGATE,
//! FT.CURSOR and FT.DEBUG.
//!
//! Each is given what those of hashes are given. It writes its reply; one that changes an index or a cursor answers the
//! change, of which nothing is seen yet. What each gives is defined in `ft_machine`. Read `definitions.rt` first (FT.CREATE,
//! FT.ALTER and FT.DROPINDEX), then `search.rt`, `aggregation.rt`, `opening.rt`, `cursors.rt`, `info.rt`, `index_reads.rt`
//! (FT._LIST and FT.TAGVALS) and `collection.rt`.

pub mod aggregation;
mod attributes;
mod bodies;
pub mod collection;
pub mod cursors;
pub mod definitions;
mod filters;
mod ids;
pub mod index_reads;
pub mod info;
mod info_tree;
mod info_words;
mod opening;
mod part;
pub mod search;
mod tag_walk;
