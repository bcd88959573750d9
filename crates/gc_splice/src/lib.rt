//! Dead entries are taken out of posting lists: a list's picture is repaired, and the repair is spliced into the list.
//!
//! An entry is dead once its id is not live any more. A repair says of each sealed block whether it stays as it is, goes, or
//! is written anew without its dead entries. It is made of a picture, away from the list, which grows on meanwhile; the
//! splice lays it over the list and keeps what came since. Read `specs/Repaired.antt` and `specs/Splice.antt` first.
#![tactic(auto)]

mod blocks;
mod clean;
mod collect;
mod keep;
mod live;
mod mend;
mod repair;
mod splice;

/// Repairs one sealed block.
pub use blocks::repair_one;
/// Whether a list has a dead entry.
pub use clean::is_clean;
/// Takes the dead entries out of a list in one step.
pub use collect::collect_list;
/// Takes the dead entries out of a block.
pub use keep::keep_live;
/// Which ids are live.
pub use live::Live;
/// What a repair makes of a list, and of one sealed block of it.
pub use repair::{BlockRepair, Repair};
/// Repairs a picture.
pub use repair::repair_here;
/// Lays a repair over the list as it is now, and what that did.
pub use splice::{Spliced, splice_list};
