//! What the text of an expression is made of.
use crate::tree::{Func, Op};
use ft_base::Bytes;

/// What a token is.
#[derive(Drop)]
pub enum Kind {
    /// A canonical number.
    Number(i64),
    /// A text, without its quotes and backslashes.
    Text(Bytes),
    /// The name behind an `@`.
    Property(Bytes),
    /// A function's name, in any case.
    Name(Func),
    Open,
    Close,
    /// `!` alone.
    Bang,
    Sign(Op),
    /// Bytes that are no token: digits that are no lawful number, a name that is no function, a text without an end,
    /// or a byte that begins nothing. No rule of the grammar takes it.
    Bad,
}

/// A token, and the byte that it begins at.
#[derive(Drop)]
pub struct Token {
    pub at: usize,
    pub kind: Kind,
}

/// Operands that are joined by signs and group from the left.
#[derive(Clone, Copy)]
pub enum Chain {
    Ors,
    Ands,
    Sums,
    Products,
}
