//! What operators give between values.
ghost use Rattle.std.specs.Prelude.{◌≡◌, ◌+ℤ◌, ◌-ℤ◌, ◌*ℤ◌};
ghost use Rattle.ft_base.specs.declared.row.Value.TheVariants.{Num};
ghost use Rattle.expr_eval.specs.Lending.{value_lent, operand_lent, operand_seen};
ghost use Rattle.expr_eval.specs.Values.{num_or_null, negative, negated, denied, of_numbers, number_order, text_order, order_of, is_so, compared, joined, one_if};

use crate::lent::Lent;
use crate::seen::Seen;
use crate::tree::Op;
use std::cmp::Ordering;

/// The number that an operator gives between two values, none for Null.
pub fn joined(op: Op, left: Seen<'_>, right: Seen<'_>) -> Option<i64>
    ensures { result ≡ joined op (operand_seen left.entry) (operand_seen right.entry) }
{
    match op {
        Op::Or => Some(one_if(left.is_true() || right.is_true())),
        Op::And => Some(one_if(left.is_true() && right.is_true())),
        Op::Plus => sum(left.number(), right.number()),
        Op::Minus => difference(left.number(), right.number()),
        Op::Times => product(left.number(), right.number()),
        Op::Equal | Op::Differ | Op::AtMost | Op::AtLeast | Op::Below | Op::Above => {
            compared(op, order(left, right))
        }
    }
}

/// What `!` gives.
pub fn denied<'a>(value: Lent<'_>) -> Lent<'a>
    ensures { value_lent result ≡ Num (denied (operand_lent value.entry)) }
{
    Lent::Num(one_if(!value.is_true()))
}

/// What a minus before a value gives.
pub fn negated<'a>(value: Lent<'_>) -> Lent<'a>
    ensures { value_lent result ≡ num_or_null (negated (operand_lent value.entry)) }
{
    Lent::num_or_null(negative(value.number()))
}

/// 1 or 0.
pub fn one_if(so: bool) -> i64
    ensures { result ≡ one_if so }
{
    if so { 1 } else { 0 }
}

fn negative(number: Option<i64>) -> Option<i64>
    ensures { result ≡ negative number }
{
    number?.checked_neg()
}

fn sum(left: Option<i64>, right: Option<i64>) -> Option<i64>
    ensures { result ≡ of_numbers ◌+ℤ◌ left right }
{
    left?.checked_add(right?)
}

fn difference(left: Option<i64>, right: Option<i64>) -> Option<i64>
    ensures { result ≡ of_numbers ◌-ℤ◌ left right }
{
    left?.checked_sub(right?)
}

fn product(left: Option<i64>, right: Option<i64>) -> Option<i64>
    ensures { result ≡ of_numbers ◌*ℤ◌ left right }
{
    left?.checked_mul(right?)
}

fn compared(op: Op, order: Option<Ordering>) -> Option<i64>
    ensures { result ≡ compared op order }
{
    match order {
        Some(order) => Some(one_if(is_so(op, order))),
        None => None,
    }
}

/// Whether values in this order are so.
fn is_so(op: Op, order: Ordering) -> bool
    ensures { result ≡ is_so op order }
{
    match op {
        Op::Equal => order.is_eq(),
        Op::Differ => order.is_ne(),
        Op::AtMost => order.is_le(),
        Op::AtLeast => order.is_ge(),
        Op::Below => order.is_lt(),
        Op::Above => order.is_gt(),
        Op::Or | Op::And | Op::Plus | Op::Minus | Op::Times => false,
    }
}

/// The order of two Nums, or of two Texts by their bytes.
fn order(left: Seen<'_>, right: Seen<'_>) -> Option<Ordering>
    ensures { result ≡ order_of (operand_seen left.entry) (operand_seen right.entry) }
{
    match left {
        Seen::Number(number) => number_order(number, right),
        Seen::Bytes(text) => text_order(text, right),
        Seen::Nothing | Seen::Several => None,
    }
}

fn number_order(left: i64, right: Seen<'_>) -> Option<Ordering>
    ensures { result ≡ number_order left (operand_seen right.entry) }
{
    match right {
        Seen::Number(number) => Some(left.cmp(&number)),
        Seen::Nothing | Seen::Bytes(_) | Seen::Several => None,
    }
}

fn text_order(left: &[u8], right: Seen<'_>) -> Option<Ordering>
    ensures { result ≡ text_order left.now (operand_seen right.entry) }
{
    match right {
        Seen::Bytes(text) => Some(left.cmp(text)),
        Seen::Nothing | Seen::Number(_) | Seen::Several => None,
    }
}
