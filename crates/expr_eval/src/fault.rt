//! Why a text is no expression, and where.
ghost use Rattle.std.specs.Prelude.{◌≡◌};
ghost use Rattle.expr_eval.specs.declared.fault.ExprFault.TheVariants as answers;
ghost use Rattle.expr_eval.specs.declared.fault.Fault.TheVariants as stops;

use crate::token::Token;
use ft_base::NoMemory;
use thiserror::Error;

/// The first fault of a text, at the offset of a byte.
#[derive(Clone, Copy, Debug, Error)]
pub enum ExprFault {
    /// The text goes on so that no expression begins like it, or it ends where none does.
    #[error("syntax error at offset {at}")]
    Syntax { at: usize },
    /// It opens a level too many.
    #[error("expression too deep at offset {at}")]
    TooDeep { at: usize },
    #[error("out of memory")]
    NoMemory,
}

impl From<NoMemory> for ExprFault {
    ghost from_gives = { λ _ made. made ≡ answers.NoMemory };

    fn from(_: NoMemory) -> ExprFault {
        ExprFault::NoMemory
    }
}

/// Why no tree was read, with the tokens from the fault on.
#[derive(Drop)]
pub enum Fault<'a> {
    Syntax(&'a [Token]),
    TooDeep(&'a [Token]),
    NoMemory,
}

impl<'a> From<NoMemory> for Fault<'a> {
    ghost from_gives = { λ _ made. made ≡ stops.NoMemory };

    fn from(_: NoMemory) -> Fault<'a> {
        Fault::NoMemory
    }
}
