//! What holds of a picture of an index's lists, whatever happens to the index behind it.
//!
//! A picture is taken in one event and repaired beside the commands; its repair is spliced in a later event. That this is
//! sound is said by the laws of `specs/Laws.antt`, over what an event leaves of the indexes. The functions do nothing: their
//! contracts are the laws.
#![tactic(auto)]

mod laws;

/// A picture is good when it is taken, and stays good.
pub use laws::{good_when_taken, stays_good};

/// A marker that is gone stays gone.
pub use laws::stays_spent;

/// The repair of a good picture fits.
pub use laws::fits_good;
