//! What a command asks, and the faults of its words.
ghost use Rattle.std.specs.Prelude.{◌≡◌};
ghost use Rattle.cmd_parse.specs.declared.command.CmdFault.TheVariants as fault;

use crate::aggregate::AggregateSpec;
use crate::search::SearchSpec;
use ft_base::{Boxed, Field, IndexDef, ListOf, NoMemory, Words};
use ft_schema::SchemaFault;
use std::fmt;
use std::fmt::{Debug, Display, Formatter, Write};
use thiserror::Error;

/// A command of the connection, of hashes, of keys or of indexes. `TypeOf` is TYPE; the last five are
/// FT.DROPINDEX, FT._LIST, FT.INFO, FT.TAGVALS and FT.DEBUG.
#[derive(Clone, Copy, Debug)]
pub enum Verb {
    Ping,
    Echo,
    Select,
    Quit,
    Hset,
    Hsetnx,
    Hget,
    Hmget,
    Hgetall,
    Hdel,
    Hlen,
    Hexists,
    Hincrby,
    Hkeys,
    Hvals,
    Del,
    Exists,
    TypeOf,
    Dbsize,
    Rename,
    Flushall,
    DropIndex,
    ListIndexes,
    Info,
    TagVals,
    Debug,
}

/// What a command asks.
#[derive(Drop)]
pub enum Command<'a> {
    /// The arguments are the words behind the command's name.
    Plain {
        verb: Verb,
        args: Words<'a>,
    },
    /// An index that is created.
    Create(Boxed<IndexDef>),
    /// Fields that an index gets.
    Alter {
        index: &'a [u8],
        fields: ListOf<Field>,
    },
    /// The documents of an index that a query finds.
    Search(SearchSpec<'a>),
    /// What is made of the documents of an index that a query finds.
    Aggregate(AggregateSpec<'a>),
    /// The next rows of a cursor of an index: so many at the most, or as many as it was opened with.
    CursorRead {
        index: &'a [u8],
        id: u64,
        count: Option<u32>,
    },
    /// A cursor of an index is deleted.
    CursorDel {
        index: &'a [u8],
        id: u64,
    },
}

/// Why the words ask nothing.
#[derive(Clone, Copy, Error)]
pub enum CmdFault {
    Unknown,
    Arity,
    /// A word's number, the command's name being 0.
    Syntax { at: u32 },
    /// A number exceeds its limit.
    Limit { at: u32 },
    /// An option that is left out.
    OutOfScope { at: u32 },
    NotInteger,
    BadDb,
    /// The words of a schema have a fault.
    Schema(SchemaFault),
    NoMemory,
}

impl CmdFault {
    fn cause(&self) -> &'static str {
        match self {
            Self::Unknown => "no command has this name",
            Self::Arity => "the command does not have this number of words",
            Self::Syntax { .. } => "fits no form of the command",
            Self::Limit { .. } => "exceeds a limit",
            Self::OutOfScope { .. } => "asks for what is not supported",
            Self::NotInteger => {
                "the number of SELECT or the increment of HINCRBY is not a whole number of 64 bits"
            }
            Self::BadDb => "the only data base is 0",
            Self::Schema(_) => "the words are no schema",
            Self::NoMemory => "out of memory",
        }
    }
}

impl Display for CmdFault {
    fn fmt<W: Write>(&self, f: &mut Formatter<W>) -> fmt::Result {
        let cause = self.cause();
        match self {
            Self::Syntax { at } | Self::Limit { at } | Self::OutOfScope { at } => {
                write!(f, "word {at} {cause}")
            }
            Self::Schema(fault) => write!(f, "{cause}: {fault}"),
            _ => f.write_str(cause),
        }
    }
}

impl Debug for CmdFault {
    fn fmt<W: Write>(&self, f: &mut Formatter<W>) -> fmt::Result {
        Display::fmt(self, f)
    }
}

impl From<NoMemory> for CmdFault {
    ghost from_gives = { λ _ made. made ≡ fault.NoMemory };

    fn from(_: NoMemory) -> CmdFault {
        CmdFault::NoMemory
    }
}
