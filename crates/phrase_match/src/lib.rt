//! Whether the words of a phrase stand close enough together in one field of a document.
//!
//! Each word has the list of the places where it stands in the field. In `x y z` the words `x` and `z` have the lists
//! `[1]` and `[3]`, which are close enough from a slop of 1 on. A word that the phrase has twice needs two places.
//! Read first `specs/Phrase.antt`, then `window.rt`.
#![tactic(auto)]

mod any_order;
mod count;
mod hints;
mod look;
mod order;
mod turns;
mod window;

/// Whether places can be chosen that are distinct, close enough and, if asked for, in the words' order.
pub use window::within;

/// The same where words share lists.
pub use window::within_in_turn;
