//! Values that are lent by the row or by the expression, so that no text is copied to look at it.
ghost use Rattle.std.specs.Prelude.{◌≡◌, IfOk, IfSome};
ghost use Rattle.std.specs.Option.{option_copied};
ghost use Rattle.expr_eval.specs.Lending.{value_lent, operand_lent, operand_seen};
ghost use Rattle.expr_eval.specs.Values.{number_of, text_of, num_or_null, is_true, is_true_number, is_there};

use crate::seen::Seen;
use ft_base::{Bytes, NoMemory, Value, copy_values};
use std::alloc::Global;

/// A value that is lent, or a text that a function made.
#[derive(Drop)]
pub enum Lent<'a> {
    Null,
    Num(i64),
    Text(&'a [u8]),
    Made(Bytes),
    List(&'a [Value]),
}

impl<'a> Lent<'a> {
    /// A value of a row, lent.
    pub fn of(value: &'a Value) -> Lent<'a>
        ensures { value_lent result ≡ value.now }
    {
        match value {
            Value::Null => Lent::Null,
            Value::Num(n) => Lent::Num(*n),
            Value::Text(text) => Lent::Text(text.as_slice()),
            Value::List(values) => Lent::List(values.as_slice()),
        }
    }

    /// A number, or Null for none.
    pub fn num_or_null(number: Option<i64>) -> Lent<'a>
        ensures { value_lent result ≡ num_or_null number }
    {
        match number {
            Some(n) => Lent::Num(n),
            None => Lent::Null,
        }
    }

    /// The number of a Num.
    pub fn number(&self) -> Option<i64>
        ensures { result ≡ number_of (operand_lent self.now) }
    {
        match self {
            Lent::Num(n) => Some(*n),
            Lent::Null | Lent::Text(_) | Lent::Made(_) | Lent::List(_) => None,
        }
    }

    /// The bytes of a Text.
    pub fn text(&self) -> Option<&[u8]>
        ensures { option_copied result ≡ text_of (operand_lent self.now) }
    {
        match self {
            Lent::Text(text) => Some(text),
            Lent::Made(text) => Some(text.as_slice()),
            Lent::Null | Lent::Num(_) | Lent::List(_) => None,
        }
    }

    /// Whether it is a Num other than 0.
    pub fn is_true(&self) -> bool
        ensures { result ≡ is_true (operand_lent self.now) }
    {
        is_true_number(self.number())
    }

    /// Whether it isn't Null.
    pub fn is_there(&self) -> bool
        ensures { result ≡ is_there (operand_lent self.now) }
    {
        match self {
            Lent::Null => false,
            Lent::Num(_) | Lent::Text(_) | Lent::Made(_) | Lent::List(_) => true,
        }
    }

    /// What operators and functions see of it.
    pub(crate) fn seen(&self) -> Seen<'_>
        ensures { operand_seen result ≡ operand_lent self.now }
    {
        match self {
            Lent::Null => Seen::Nothing,
            Lent::Num(n) => Seen::Number(*n),
            Lent::Text(text) => Seen::Bytes(text),
            Lent::Made(text) => Seen::Bytes(text.as_slice()),
            Lent::List(_) => Seen::Several,
        }
    }

    /// What they see of it, to be kept beyond it; none of a text that was made.
    pub(crate) fn kept(&self) -> Option<Seen<'a>>
        ensures { IfSome result (λ seen. operand_seen seen ≡ operand_lent self.now) }
    {
        match self {
            Lent::Null => Some(Seen::Nothing),
            Lent::Num(n) => Some(Seen::Number(*n)),
            Lent::Text(text) => Some(Seen::Bytes(text)),
            Lent::Made(_) => None,
            Lent::List(_) => Some(Seen::Several),
        }
    }

    /// A value of its own.
    pub fn own(self, alloc: Global) -> Result<Value, NoMemory>
        ensures { IfOk result (λ value. value ≡ value_lent self.entry) }
    {
        match self {
            Lent::Null => Ok(Value::Null),
            Lent::Num(n) => Ok(Value::Num(n)),
            Lent::Text(text) => Ok(Value::Text(Bytes::from_slice(alloc, text)?)),
            Lent::Made(text) => Ok(Value::Text(text)),
            Lent::List(values) => Ok(Value::List(copy_values(alloc, values)?)),
        }
    }
}

fn is_true_number(number: Option<i64>) -> bool
    ensures { result ≡ is_true_number number }
{
    match number {
        Some(n) => n != 0,
        None => false,
    }
}
