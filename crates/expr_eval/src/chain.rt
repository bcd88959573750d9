//! The value of a long chain.
//!
//! Chains group from the left, so the tree of `1+1+..+1` is as deep on its left as the chain is long. Calls that nest
//! along it would take more stack than there is, so here its right sides wait in a vector.
ghost use Rattle.std.specs.Prelude.{◌≡◌, IfOk};
ghost use Rattle.expr_eval.specs.Noting.{AreNoted, operand_at};
ghost use Rattle.expr_eval.specs.RightSides.{joined_on};
ghost use Rattle.expr_eval.specs.Values.{joined};

use crate::evaluator::{joined_left, joined_with};
use crate::notes::{Context, Notes};
use crate::seen::Seen;
use crate::tree::{Expr, Op};
use ft_base::{Boxed, NoMemory};

/// An operator, and what stands on its right.
#[derive(Clone, Copy)]
pub struct RightSide<'a> {
    pub op: Op,
    pub part: &'a Boxed<Expr>,
}

/// The number that an operator gives between two parts, of which the left may be of any depth; none for Null. Not inlined,
/// so that the calls of short chains take less stack.
#[inline(never)]
#[cycle(found)]
pub fn chain_value<'a>(
    op: Op,
    left: &'a Boxed<Expr>,
    right: &'a Boxed<Expr>,
    at: &Context<'a>,
    notes: &mut Notes<'a>,
) -> Result<Option<i64>, NoMemory>
    requires noted { AreNoted at.now notes.old }
    ensures number { IfOk result (λ number. number ≡ joined op (operand_at at.now left.now) (operand_at at.now right.now)) }
    ensures noted { AreNoted at.now notes.new }
{
    let mut sides = Vec::new(at.alloc);
    let mut op = op;
    let mut left = left;
    let mut right = right;
    'down: while let Expr::Binary {
        op: next_op,
        left: next_left,
        right: next_right,
    } = left.get()
    {
        sides.push(RightSide { op, part: right })?;
        op = *next_op;
        left = next_left;
        right = next_right;
    }
    let number = joined_left(0, op, left, right, at, notes)?;
    joined_up(number, sides, at, notes)
}

/// A number with all right sides, of which the last stands next to it.
#[cycle(found)]
fn joined_up<'a>(
    first: Option<i64>,
    sides: Vec<RightSide<'a>>,
    at: &Context<'a>,
    notes: &mut Notes<'a>,
) -> Result<Option<i64>, NoMemory>
    requires noted { AreNoted at.now notes.old }
    ensures number { IfOk result (λ number. number ≡ joined_on at.now sides.entry.items first) }
    ensures noted { AreNoted at.now notes.new }
{
    let mut number = first;
    let mut sides = sides;
    'up: while let Some(side) = sides.pop() {
        number = joined_with(0, side.op, Seen::of_number(number), side.part, at, notes)?;
    }
    Ok(number)
}
