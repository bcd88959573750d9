//! Why a text is no query.
use ft_base::NoMemory;
use std::fmt;
use std::fmt::{Debug, Display, Formatter, Write};
use thiserror::Error;

/// A fault of a text, at the offset of a byte. Of several faults of a text the one with the least offset is answered,
/// and of several at one offset the one that stands first here.
#[derive(Clone, Copy, Error)]
pub enum QueryFault {
    /// The text goes on so that no sentence of the language begins like it, or it ends where none does.
    Syntax { at: usize },
    /// No field of the index has this alias.
    UnknownField { at: usize },
    /// A part asks for another kind of field than the named ones are.
    WrongKind { at: usize },
    /// The command gives no value to this name.
    NoParam { at: usize },
    /// It opens a level too many.
    TooDeep { at: usize },
    /// A form of the language that is left out.
    OutOfScope { at: usize },
    NoMemory,
}

impl QueryFault {
    fn cause(&self) -> &'static str {
        match self {
            Self::Syntax { .. } => "syntax error",
            Self::UnknownField { .. } => "unknown field",
            Self::WrongKind { .. } => "wrong field kind",
            Self::NoParam { .. } => "no such parameter",
            Self::TooDeep { .. } => "query too deep",
            Self::OutOfScope { .. } => "not supported",
            Self::NoMemory => "out of memory",
        }
    }

    fn offset(&self) -> Option<usize> {
        match *self {
            Self::Syntax { at }
            | Self::UnknownField { at }
            | Self::WrongKind { at }
            | Self::NoParam { at }
            | Self::TooDeep { at }
            | Self::OutOfScope { at } => Some(at),
            Self::NoMemory => None,
        }
    }
}

impl Display for QueryFault {
    fn fmt<W: Write>(&self, f: &mut Formatter<W>) -> fmt::Result {
        let cause = self.cause();
        match self.offset() {
            Some(at) => write!(f, "{cause} at offset {at}"),
            None => f.write_str(cause),
        }
    }
}

impl Debug for QueryFault {
    fn fmt<W: Write>(&self, f: &mut Formatter<W>) -> fmt::Result {
        Display::fmt(self, f)
    }
}

impl From<NoMemory> for QueryFault {
    ghost use Rattle.std.specs.Prelude.{◌≡◌};
    ghost use Rattle.query_grammar.specs.declared.fault.QueryFault.TheVariants as fault;

    ghost from_gives = { λ _ made. made ≡ fault.NoMemory };

    fn from(_error: NoMemory) -> QueryFault {
        QueryFault::NoMemory
    }
}
