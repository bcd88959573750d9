//! The value of an expression in a row.
ghost use Rattle.std.specs.Prelude.{◌≡◌, IfOk, IfSome};
ghost use Rattle.expr_eval.specs.Lending.{row_of, value_lent, operand_lent, operand_seen, outer_value};
ghost use Rattle.expr_eval.specs.Meaning.{value_of};
ghost use Rattle.expr_eval.specs.Noting.{AreNoted, operand_at, value_at};
ghost use Rattle.expr_eval.specs.RightSides.{operand_number};
ghost use Rattle.expr_eval.specs.Values.{is_true, joined, num_or_null, operand_of};

use crate::chain::chain_value;
use crate::functions::called;
use crate::lent::Lent;
use crate::lent_row::LentRow;
use crate::notes::{Context, Notes};
use crate::operators::{denied, joined, negated};
use crate::seen::Seen;
use crate::tree::{Expr, Func, Op};
use ft_base::{Boxed, IndexDef, NoMemory, Value};
use std::alloc::Global;

/// On one way down an expression, how many left sides get a call of their own. A chain that goes on is worked out in a
/// loop, with memory for its right sides: so a chain may be as long as its text, and what people write takes no memory.
///
/// Right sides and arguments are passed what is left of it, so that all levels share it. One way down has at most 197 of
/// them: five right sides (of an or, an and, a comparison, a sum and a product) in each of 33 levels, and 32 arguments.
/// Calls nest at most five deep for each of these and three deep for a left side, which is about 1,030 deep in all. As it
/// is built today that takes less than 256 KiB of stack.
const NEAR: u32 = 16;

/// What an expression is worth in a row. Only the value that is handed out is copied.
pub fn eval(alloc: Global, expr: &Expr, row: LentRow<'_>, def: &IndexDef) -> Result<Value, NoMemory>
    ensures { IfOk result (λ value. value ≡ value_of expr.now (row_of row.entry) def.now) }
{
    let at = Context { alloc, row, def };
    let mut notes = Notes::new(&at);
    found(NEAR, expr, &at, &mut notes)?.own(alloc)
}

/// Whether an expression is a Num other than 0 in a row. No value is copied.
pub fn holds(alloc: Global, expr: &Expr, row: LentRow<'_>, def: &IndexDef) -> Result<bool, NoMemory>
    ensures { IfOk result (λ is. is ≡ is_true (operand_of (value_of expr.now (row_of row.entry) def.now))) }
{
    let at = Context { alloc, row, def };
    let mut notes = Notes::new(&at);
    let value = found(NEAR, expr, &at, &mut notes)?;
    Ok(value.is_true())
}

/// The value, lent where it stands in the row or in the expression.
#[cycle(found)]
pub fn found<'a>(
    near: u32,
    expr: &'a Expr,
    at: &Context<'a>,
    notes: &mut Notes<'a>,
) -> Result<Lent<'a>, NoMemory>
    requires noted { AreNoted at.now notes.old }
    ensures value { IfOk result (λ value. value_lent value ≡ value_at at.now expr.now) }
    ensures noted { AreNoted at.now notes.new }
{
    match expr {
        Expr::Num(number) => Ok(Lent::Num(*number)),
        Expr::Text(text) => Ok(Lent::Text(text.as_slice())),
        Expr::Prop(name) => Ok(at.row.property(name.as_slice(), at.def)),
        Expr::Call { func, arg } => within(near, arg, Outer::Call(*func), at, notes),
        Expr::Not(arg) => within(near, arg, Outer::Not, at, notes),
        Expr::Neg(arg) => within(near, arg, Outer::Neg, at, notes),
        Expr::Binary { op, left, right } => {
            Ok(Lent::num_or_null(between(near, *op, left, right, at, notes)?))
        }
    }
}

/// What a part stands in.
#[derive(Clone, Copy)]
pub enum Outer {
    Call(Func),
    Not,
    Neg,
}

/// The value of what a part stands in.
#[cycle(found)]
fn within<'a>(
    near: u32,
    part: &'a Boxed<Expr>,
    outer: Outer,
    at: &Context<'a>,
    notes: &mut Notes<'a>,
) -> Result<Lent<'a>, NoMemory>
    requires noted { AreNoted at.now notes.old }
    ensures value { IfOk result (λ value. value_lent value ≡ outer_value outer (operand_at at.now part.now)) }
    ensures noted { AreNoted at.now notes.new }
{
    let value = found(near, part.get(), at, notes)?;
    outer_value(at.alloc, outer, value)
}

fn outer_value<'a>(alloc: Global, outer: Outer, value: Lent<'_>) -> Result<Lent<'a>, NoMemory>
    ensures { IfOk result (λ made. value_lent made
        ≡ outer_value outer (operand_lent value.entry)) }
{
    match outer {
        Outer::Call(func) => called(alloc, func, value),
        Outer::Not => Ok(denied(value)),
        Outer::Neg => Ok(negated(value)),
    }
}

/// The number that an operator gives between two parts, none for Null.
#[cycle(found)]
fn between<'a>(
    near: u32,
    op: Op,
    left: &'a Boxed<Expr>,
    right: &'a Boxed<Expr>,
    at: &Context<'a>,
    notes: &mut Notes<'a>,
) -> Result<Option<i64>, NoMemory>
    requires noted { AreNoted at.now notes.old }
    ensures number { IfOk result (λ number. number ≡ joined op (operand_at at.now left.now) (operand_at at.now right.now)) }
    ensures noted { AreNoted at.now notes.new }
{
    if let Some(seen) = leaf(left.get(), at, notes) {
        return joined_with(near, op, seen, right, at, notes);
    }
    if let Some(seen) = small(left.get(), at, notes) {
        return joined_with(near, op, seen, right, at, notes);
    }
    if near == 0 {
        return chain_value(op, left, right, at, notes);
    }
    joined_left(near - 1, op, left, right, at, notes)
}

/// The number that an operator gives between two parts, where the left is worked out by a call; none for Null.
#[cycle(found)]
pub fn joined_left<'a>(
    near: u32,
    op: Op,
    left: &'a Boxed<Expr>,
    right: &'a Boxed<Expr>,
    at: &Context<'a>,
    notes: &mut Notes<'a>,
) -> Result<Option<i64>, NoMemory>
    requires noted { AreNoted at.now notes.old }
    ensures number { IfOk result (λ number. number ≡ joined op (operand_at at.now left.now) (operand_at at.now right.now)) }
    ensures noted { AreNoted at.now notes.new }
{
    let value = found(near, left.get(), at, notes)?;
    joined_with(near, op, value.seen(), right, at, notes)
}

/// The number that an operator gives between what is seen of a value and its right side, none for Null.
#[cycle(found)]
pub fn joined_with<'a>(
    near: u32,
    op: Op,
    left: Seen<'_>,
    right: &'a Boxed<Expr>,
    at: &Context<'a>,
    notes: &mut Notes<'a>,
) -> Result<Option<i64>, NoMemory>
    requires noted { AreNoted at.now notes.old }
    ensures number { IfOk result (λ number. number ≡ joined op (operand_seen left.entry) (operand_at at.now right.now)) }
    ensures noted { AreNoted at.now notes.new }
{
    if let Some(seen) = leaf(right.get(), at, notes) {
        return Ok(joined(op, left, seen));
    }
    if let Some(seen) = small(right.get(), at, notes) {
        return Ok(joined(op, left, seen));
    }
    let value = found(near, right.get(), at, notes)?;
    Ok(joined(op, left, value.seen()))
}

/// What is seen of an operator between two expressions that have no parts, none of any other expression. It takes no calls
/// that nest, and a long chain has many such operands.
#[inline(never)]
fn small<'a>(expr: &'a Expr, at: &Context<'a>, notes: &mut Notes<'a>) -> Option<Seen<'a>>
    requires noted { AreNoted at.now notes.old }
    ensures value { IfSome result (λ seen. operand_seen seen ≡ operand_at at.now expr.now) }
    ensures noted { AreNoted at.now notes.new }
{
    match expr {
        Expr::Binary { op, left, right } => pair(*op, left.get(), right.get(), at, notes),
        _ => None,
    }
}

/// What is seen of what an operator gives between two expressions that have no parts; none where one has some.
fn pair<'a>(
    op: Op,
    left: &'a Expr,
    right: &'a Expr,
    at: &Context<'a>,
    notes: &mut Notes<'a>,
) -> Option<Seen<'a>>
    requires noted { AreNoted at.now notes.old }
    ensures value { IfSome result (λ seen. operand_seen seen
        ≡ operand_number (joined op (operand_at at.now left.now) (operand_at at.now right.now))) }
    ensures noted { AreNoted at.now notes.new }
{
    let left = leaf(left, at, notes)?;
    let right = leaf(right, at, notes)?;
    Some(Seen::of_number(joined(op, left, right)))
}

/// What is seen of an expression that is a number, a text or a property; none of one that has parts.
fn leaf<'a>(expr: &'a Expr, at: &Context<'a>, notes: &mut Notes<'a>) -> Option<Seen<'a>>
    requires noted { AreNoted at.now notes.old }
    ensures value { IfSome result (λ seen. operand_seen seen ≡ operand_at at.now expr.now) }
    ensures noted { AreNoted at.now notes.new }
{
    match expr {
        Expr::Num(number) => Some(Seen::Number(*number)),
        Expr::Text(text) => Some(Seen::Bytes(text.as_slice())),
        Expr::Prop(name) => notes.property(name.as_slice(), at),
        Expr::Call { .. } | Expr::Not(_) | Expr::Neg(_) | Expr::Binary { .. } => None,
    }
}
