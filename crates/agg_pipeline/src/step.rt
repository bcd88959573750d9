//! The steps of an aggregate, as a command gives them.
use expr_eval::Expr;
use ft_base::{Bytes, ListOf};

/// What is done with the rows.
pub enum Step {
    /// GROUPBY: one row for each group of rows with equal values of these properties.
    Group {
        by: ListOf<Bytes>,
        reduce: ListOf<Reducer>,
    },
    /// SORTBY: the rows in order, and no more than `max` of them where it is given.
    Sort {
        keys: ListOf<SortKey>,
        max: Option<u64>,
    },
    /// APPLY: a cell with the expression's value.
    Apply {
        expr: Expr,
        name: Bytes,
    },
    /// FILTER: the rows in which the expression is true.
    Keep {
        expr: Expr,
    },
    /// LIMIT: the rows of the window.
    Limit {
        offset: u32,
        num: u32,
    },
}

// Written out, it is one step for whoever drops a step, where a derived one has an arm for each form.
impl Drop for Step {
    fn drop(self) {
        match self {
            Step::Group { by, reduce } => {
                drop(by);
                drop(reduce);
            }
            Step::Sort { keys, max: _ } => drop(keys),
            Step::Apply { expr, name } => {
                drop(expr);
                drop(name);
            }
            Step::Keep { expr } => drop(expr),
            Step::Limit { offset: _, num: _ } => {}
        }
    }
}

/// REDUCE: what is made of a group's values of a property, and the name of its cell.
#[derive(Drop)]
pub struct Reducer {
    pub kind: ReduceKind,
    pub of: Option<Bytes>,
    pub name: Bytes,
}

/// Which reducer.
#[derive(Clone, Copy)]
pub enum ReduceKind {
    Count,
    CountDistinct,
    Sum,
    Min,
    Max,
    ToList,
    FirstValue,
}

/// A property that rows are put in order by.
#[derive(Drop)]
pub struct SortKey {
    pub name: Bytes,
    pub descending: bool,
}

/// LOAD: the properties that have cells in a row from the start.
pub enum Load {
    Nothing,
    Fields(ListOf<Bytes>),
    /// All fields of the hash, under their own names.
    All,
}

// Written out, as that of a step.
impl Drop for Load {
    fn drop(self) {
        match self {
            Load::Nothing => {}
            Load::Fields(names) => drop(names),
            Load::All => {}
        }
    }
}
