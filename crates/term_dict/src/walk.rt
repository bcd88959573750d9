//! The words of a dictionary in order, each with its list, lent one after another.
ghost use Rattle.term_dict.specs.Rows.{lists_of};
ghost use Rattle.term_dict.specs.Terms.{IsNextRow};

use inverted_list::List;
use posting_block::Payload;
use std::collections::btree_map::Range;
use std::marker::Model;

/// The words that are left and their lists, in rising order, which a contract sees as a list of pairs.
#[derive(Drop)]
pub struct Walk<'a, P: Payload> {
    // None where there is no dictionary to walk over.
    pub(crate) left: Option<Range<'a, Vec<u8>, List<P>>>,
}

impl<'a, P: Payload> Model for Walk<'a, P> {
    ghost use Rattle.term_dict.specs.Rows.{left_of};
    ghost use Rattle.term_dict.specs.Terms.{Lists};

    ghost Value = { Lists P };

    ghost view = { λ w. left_of w.left };
}

impl<'a, P: Payload> Walk<'a, P> {
    /// The next word and its list, `None` where all were given.
    pub fn next(&mut self) -> Option<(&'a [u8], &'a List<P>)>
        ensures { IsNextRow self.old result self.new }
    {
        match &mut self.left {
            Some(left) => next_row(left),
            None => None,
        }
    }
}

// The next row of a map's range.
fn next_row<'a, P: Payload>(
    left: &mut Range<'a, Vec<u8>, List<P>>,
) -> Option<(&'a [u8], &'a List<P>)>
    ensures { IsNextRow (lists_of left.old) result (lists_of left.new) }
{
    let (word, list) = left.next()?;
    Some((word.as_slice(), list))
}
