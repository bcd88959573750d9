//! Values that are lent and may be copied about, so that a row's values are looked at where they stand.
ghost use Rattle.std.specs.Prelude.{◌≡◌, IfOk};
ghost use Rattle.expr_eval.specs.Lending.{value_lent};
ghost use Rattle.expr_eval.specs.Values.{is_there, number_of};
ghost use Rattle.agg_pipeline.specs.Seen.{operand_seen, seen};

use expr_eval::Lent;
use ft_base::{Bytes, NoMemory, Value, copy_values};
use std::alloc::Global;

/// A value that is lent.
#[derive(Clone, Copy)]
pub enum Seen<'a> {
    Null,
    Num(i64),
    Text(&'a [u8]),
    List(&'a [Value]),
}

impl<'a> Seen<'a> {
    /// The value that is lent, lent again.
    pub fn of(value: &'a Lent<'_>) -> Seen<'a>
        ensures { seen result ≡ value_lent value.now }
    {
        match value {
            Lent::Null => Seen::Null,
            Lent::Num(n) => Seen::Num(*n),
            Lent::Text(text) => Seen::Text(text),
            Lent::Made(text) => Seen::Text(text.as_slice()),
            Lent::List(values) => Seen::List(values),
        }
    }

    /// Whether it isn't Null.
    pub fn is_there(self) -> bool
        ensures { result ≡ is_there (operand_seen self.entry) }
    {
        match self {
            Seen::Null => false,
            Seen::Num(_) | Seen::Text(_) | Seen::List(_) => true,
        }
    }

    /// The number of a Num.
    pub fn number(self) -> Option<i64>
        ensures { result ≡ number_of (operand_seen self.entry) }
    {
        match self {
            Seen::Num(n) => Some(n),
            Seen::Null | Seen::Text(_) | Seen::List(_) => None,
        }
    }

    /// A value of its own.
    pub fn own(self, alloc: Global) -> Result<Value, NoMemory>
        ensures { IfOk result (λ value. value ≡ seen self.entry) }
    {
        match self {
            Seen::Null => Ok(Value::Null),
            Seen::Num(n) => Ok(Value::Num(n)),
            Seen::Text(text) => Ok(Value::Text(Bytes::from_slice(alloc, text)?)),
            Seen::List(values) => Ok(Value::List(copy_values(alloc, values)?)),
        }
    }
}
