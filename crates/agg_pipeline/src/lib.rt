//! The steps of an aggregate (RediSearch, FT.AGGREGATE), as pure calls on rows.
//!
//! A pipeline is a composition of functions on lists of rows (`specs/Steps.antt`). A group is the sublist of the rows with
//! equal values (`specs/Groups.antt`, `specs/Equal.antt`), and a reducer is a function of its group's values
//! (`specs/Reduce.antt`). Each step is one pass over the rows; GROUPBY keeps what was made of each group, and no rows.
//! A `Feed` takes documents one by one: it holds their rows behind the first steps, or the groups of a GROUPBY that comes
//! next, or at most twice MAX rows of a SORTBY with MAX.
//! Read `step.rt` and `specs/Steps.antt` first, then `pipeline.rt`.
#![tactic(auto)]

mod cells;
mod distinct;
mod feed;
mod grouping;
mod laws;
mod loading;
mod pipeline;
mod ranking;
mod row_steps;
mod seen;
mod sorting;
mod spelling;
mod spellings;
mod state;
mod states;
mod step;
mod stream;
mod table;

/// The rows of an aggregate while its documents come.
pub use feed::Feed;
/// Whoever notes rows one by one has the rows of their groups.
pub use grouping::groups_of_all;
/// What else is true of the definitions, whatever code there is.
pub use laws::{equal_values, rows_one_by_one};
/// What several steps make of rows.
pub use pipeline::pipe;
/// The steps, as a command gives them.
pub use step::{Load, ReduceKind, Reducer, SortKey, Step};
/// The steps of a stream, which take a row at a time.
pub use stream::{StreamSteps, are_of_rows};
/// The groups of the rows that came so far.
pub use table::Groups;
