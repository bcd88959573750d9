//! Why words are no schema, and where.
ghost use Rattle.std.specs.Prelude.{◌≡◌};
ghost use Rattle.ft_schema.specs.declared.fault.SchemaFault.TheVariants as answers;
ghost use Rattle.ft_schema.specs.declared.fault.Stop.TheVariants as stops;

use ft_base::NoMemory;
use std::alloc::AllocFailed;
use std::fmt;
use std::fmt::{Debug, Display, Formatter, Write};
use thiserror::Error;

/// The first fault of a schema's words, at the number of its word. The command word is 0, and a word
/// that is missing stands at the number of words.
#[derive(Clone, Copy, Error)]
pub enum SchemaFault {
    BadOption { at: u32 },
    BadKind { at: u32 },
    DuplicateField { at: u32 },
    TooManyFields { at: u32 },
    BadNumber { at: u32 },
    OutOfScope { at: u32 },
    NoMemory,
}

impl SchemaFault {
    fn cause(&self) -> &'static str {
        match self {
            SchemaFault::BadOption { .. } => "bad option",
            SchemaFault::BadKind { .. } => "bad field type",
            SchemaFault::DuplicateField { .. } => "duplicate field",
            SchemaFault::TooManyFields { .. } => "too many fields",
            SchemaFault::BadNumber { .. } => "bad number",
            SchemaFault::OutOfScope { .. } => "not supported",
            SchemaFault::NoMemory => "out of memory",
        }
    }

    fn word(&self) -> Option<u32> {
        match *self {
            SchemaFault::BadOption { at }
            | SchemaFault::BadKind { at }
            | SchemaFault::DuplicateField { at }
            | SchemaFault::TooManyFields { at }
            | SchemaFault::BadNumber { at }
            | SchemaFault::OutOfScope { at } => Some(at),
            SchemaFault::NoMemory => None,
        }
    }
}

impl Display for SchemaFault {
    fn fmt<W: Write>(&self, f: &mut Formatter<W>) -> fmt::Result {
        let cause = self.cause();
        match self.word() {
            Some(at) => write!(f, "{cause} at word {at}"),
            None => f.write_str(cause),
        }
    }
}

impl Debug for SchemaFault {
    fn fmt<W: Write>(&self, f: &mut Formatter<W>) -> fmt::Result {
        Display::fmt(self, f)
    }
}

impl From<NoMemory> for SchemaFault {
    ghost from_gives = { λ _ e. e ≡ answers.NoMemory };

    fn from(_: NoMemory) -> SchemaFault {
        SchemaFault::NoMemory
    }
}

/// What is wrong with a word.
#[derive(Clone, Copy)]
pub enum Cause {
    BadOption,
    BadKind,
    DuplicateField,
    TooManyFields,
    BadNumber,
    OutOfScope,
}

/// Why reading stops: at a word, with the number of words from it on, or out of memory.
#[derive(Clone, Copy)]
pub enum Stop {
    Fault { cause: Cause, left: usize },
    NoMemory,
}

impl From<NoMemory> for Stop {
    ghost from_gives = { λ _ e. e ≡ stops.NoMemory };

    fn from(_: NoMemory) -> Stop {
        Stop::NoMemory
    }
}

impl<T: Drop> From<AllocFailed<T>> for Stop {
    ghost from_gives = { λ _ e. e ≡ stops.NoMemory };

    fn from(_: AllocFailed<T>) -> Stop {
        Stop::NoMemory
    }
}
