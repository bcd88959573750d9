//! The dictionaries of an index: the posting lists of its words, and those of its tags by field and tag.
//!
//! Both are found by name and by prefix, and walked over name by name. Each field has a dictionary of its own, so a tag of
//! one field is not one of another. Dead entries go out by name: a repair is laid over a list, or a list is collected, and a
//! name goes with its last entry. Read `specs/Terms.antt` first, then `dictionary.rt`, `specs/Splices.antt`,
//! `specs/Tags.antt` and `tags.rt`.
#![tactic(auto)]

mod collect;
mod dictionary;
mod tags;
mod walk;

/// Posting lists by word, of any kind of hit.
pub use dictionary::Dictionary;
use posting_block::TextHit;
/// Posting lists by field and tag.
pub use tags::TagLists;
/// The words of a dictionary in order, each with its list.
pub use walk::Walk;

/// The posting lists of the words of an index.
pub type Terms = Dictionary<TextHit>;
