//! A walk over the things that are there, in order of their ids.
ghost use Rattle.std.specs.Prelude.{◌≡◌};
ghost use Rattle.id_rows.specs.Walk.{things, IsNext};

use crate::row::Row;
use ft_base::HasId;
use std::marker::Model;

/// The things that are left, in order of their ids, which a contract sees as a list.
#[derive(Drop)]
pub struct RowWalk<'a, T: HasId> {
    left: &'a [Row<T>],
}

impl<'a, T: HasId> Model for RowWalk<'a, T> {
    ghost use Rattle.std.specs.Prelude.{List};

    ghost Value = { List T };

    ghost use Rattle.id_rows.specs.Walk.{things};

    ghost view = { λ w. things T.id_of w.left.now };
}

impl<'a, T: HasId> RowWalk<'a, T> {
    /// A walk over the things in full rows.
    pub(crate) fn over(rows: &'a [Row<T>]) -> RowWalk<'a, T>
        ensures { result ≡ things T.id_of rows.now }
    {
        RowWalk { left: rows }
    }

    /// The next thing, `None` where all were given.
    #[inline]
    pub fn next(&mut self) -> Option<&'a T>
        ensures { IsNext self.old result self.new }
    {
        let (thing, rest) = split_full(self.left);
        self.left = rest;
        thing
    }
}

// The thing in the first full row, and the rows behind it.
#[inline(always)]
fn split_full<T: HasId>(rows: &[Row<T>]) -> (Option<&T>, &[Row<T>])
    ensures { IsNext (things T.id_of rows.now) result.0 (things T.id_of result.1.now) }
{
    let mut left = rows;
    'passing: while let Some((row, rest)) = left.split_first() {
        if let Row::Full(thing) = row {
            return (Some(thing), rest);
        }
        left = rest;
    }
    (None, left)
}
