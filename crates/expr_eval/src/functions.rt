//! What functions give of a value.
ghost use Rattle.std.specs.Prelude.{◌≡◌, IfOk};
ghost use Rattle.std.specs.Option.{option_map, option_copied};
ghost use Rattle.std.specs.Str.{str_to_ascii_lowercase, str_to_ascii_uppercase};
ghost use Rattle.expr_eval.specs.Lending.{value_lent, operand_lent};
ghost use Rattle.expr_eval.specs.Values.{absolute, length_of, called, text_or_null};

use crate::lent::Lent;
use crate::operators::one_if;
use crate::tree::Func;
use ft_base::{Bytes, NoMemory};
use std::alloc::Global;

/// What a function gives of a value. Only a text in another case is made.
pub fn called<'a>(alloc: Global, func: Func, arg: Lent<'_>) -> Result<Lent<'a>, NoMemory>
    ensures { IfOk result (λ value. value_lent value ≡ called func (operand_lent arg.entry)) }
{
    called_on(alloc, func, &arg)
}

fn called_on<'a>(alloc: Global, func: Func, arg: &Lent<'_>) -> Result<Lent<'a>, NoMemory>
    ensures { IfOk result (λ value. value_lent value ≡ called func (operand_lent arg.now)) }
{
    match func {
        Func::Lower => lowered(alloc, arg.text()),
        Func::Upper => uppered(alloc, arg.text()),
        Func::Strlen => Ok(Lent::num_or_null(length_of(arg.text()))),
        Func::Abs => Ok(Lent::num_or_null(absolute(arg.number()))),
        Func::Exists => Ok(Lent::Num(one_if(arg.is_there()))),
    }
}

fn lowered<'a>(alloc: Global, text: Option<&[u8]>) -> Result<Lent<'a>, NoMemory>
    ensures { IfOk result (λ value. value_lent value
        ≡ text_or_null (option_map str_to_ascii_lowercase (option_copied text.entry))) }
{
    match text {
        Some(text) => Ok(Lent::Made(Bytes::from_vec(text.to_ascii_lowercase(alloc)?))),
        None => Ok(Lent::Null),
    }
}

fn uppered<'a>(alloc: Global, text: Option<&[u8]>) -> Result<Lent<'a>, NoMemory>
    ensures { IfOk result (λ value. value_lent value
        ≡ text_or_null (option_map str_to_ascii_uppercase (option_copied text.entry))) }
{
    match text {
        Some(text) => Ok(Lent::Made(Bytes::from_vec(text.to_ascii_uppercase(alloc)?))),
        None => Ok(Lent::Null),
    }
}

fn length_of(text: Option<&[u8]>) -> Option<i64>
    ensures { result ≡ length_of (option_copied text.entry) }
{
    let length = text?.len();
    if length <= i64::MAX as usize {
        Some(length as i64)
    } else {
        None
    }
}

fn absolute(number: Option<i64>) -> Option<i64>
    ensures { result ≡ absolute number }
{
    number?.checked_abs()
}
