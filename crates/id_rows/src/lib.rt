//! What has an id, in one vector by rising ids.
//!
//! Read `rows.rt`, then `specs/IdRows.antt`. How a row is found is in `places.rt`, and for who walks from id to id in
//! `near.rt`.
#![tactic(auto)]

mod near;
mod places;
mod row;
mod rows;
mod walk;

/// The things, each found by its id.
pub use rows::IdRows;
/// A walk over all things.
pub use walk::RowWalk;
