//! The commands of hashes and of keys.
//!
//! Each is given the documents with their indexes and the cursors, its arguments and the buffer of the reply. It writes
//! the reply and answers what it changes, of which nothing is seen yet. What it gives is defined in `ft_machine`, and
//! what it leaves in `indexed_store`. Read `reads.rt` first for the commands that read, then `setting.rt` and
//! the others.

pub mod deleting;
pub mod incrementing;
pub mod reads;
pub mod removals;
pub mod renaming;
pub mod setting;
