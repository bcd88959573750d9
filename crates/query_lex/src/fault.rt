//! Why a text has no lexemes, and where.
ghost use Rattle.std.specs.Prelude.{◌≡◌};
ghost use Rattle.query_lex.specs.declared.fault.LexFault.TheVariants as answers;
ghost use Rattle.query_lex.specs.declared.fault.Stop.TheVariants as stops;

use ft_base::NoMemory;
use std::alloc::AllocFailed;
use thiserror::Error;

/// The first fault of a text from the left, at its byte offset.
#[derive(Clone, Copy, Debug, Error)]
pub enum LexFault {
    /// A quote without its end, at its first byte.
    #[error("open quote at byte {at}")]
    OpenQuote { at: usize },
    /// A backslash that escapes nothing, at it.
    #[error("lone backslash at byte {at}")]
    LoneEscape { at: usize },
    #[error("out of memory")]
    NoMemory,
}

impl From<NoMemory> for LexFault {
    ghost from_gives = { λ _ e. e ≡ answers.NoMemory };

    fn from(_: NoMemory) -> LexFault {
        LexFault::NoMemory
    }
}

/// What is wrong with a byte.
#[derive(Clone, Copy)]
pub enum Cause {
    OpenQuote,
    LoneEscape,
}

/// Why reading stops: at a byte, with the number of bytes from it on, or out of memory.
#[derive(Clone, Copy)]
pub enum Stop {
    Fault { cause: Cause, left: usize },
    NoMemory,
}

impl From<NoMemory> for Stop {
    ghost from_gives = { λ _ e. e ≡ stops.NoMemory };

    fn from(_: NoMemory) -> Stop {
        Stop::NoMemory
    }
}

impl<T: Drop> From<AllocFailed<T>> for Stop {
    ghost from_gives = { λ _ e. e ≡ stops.NoMemory };

    fn from(_: AllocFailed<T>) -> Stop {
        Stop::NoMemory
    }
}
