//! The stable order of rows by the values of keys, and the first so many rows of that order.
//!
//! Nums come first, by number, then Texts, by their bytes, then Null and Lists, which tie with each other. Descending
//! turns the order of Nums and Texts alone. The first key at which two rows differ decides, and rows that tie keep
//! their order. `FirstRows` holds no more than twice the rows that are wanted, however many are offered.
//! Read `specs/Order.antt` and `specs/Sorting.antt` first, then `rows.rt` and `first_rows.rt`.
#![tactic(auto)]

mod first_rows;
mod laws;
mod order;
mod rows;
mod seen;
mod texts;

/// The first rows of all that are offered.
pub use first_rows::FirstRows;
/// What is true of the order and of sorting by it, whatever code sorts.
pub use laws::{first_of_all, order_is_lawful, sorted_is_stable};
/// How values are ordered, and the order of two.
pub use order::{Direction, compare};
/// Rows with the values that they are ordered by, and their order.
pub use rows::{Ranked, order_rows};
