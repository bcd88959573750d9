//! What a session tells apart.
ghost use Rattle.std.specs.Prelude.{◌≡◌, ◌<◌, length};
ghost use Rattle.tx_session.specs.Names.{name_of};

use ft_base::{Words, is_name};

/// What a session says by itself, in place of a command's reply.
#[derive(Clone, Copy, PartialEq, Eq)]
pub enum TxText {
    /// `+OK`
    Done,
    /// `+QUEUED`
    Queued,
    /// `-ERR MULTI calls can not be nested`
    Nested,
    /// `-ERR EXEC without MULTI`
    NoExec,
    /// `-ERR DISCARD without MULTI`
    NoDiscard,
    /// `-EXECABORT Transaction discarded because of previous errors.`
    Abort,
    /// `*0`
    Nothing,
    /// What a command of an unknown name is answered.
    Unknown,
    /// What a command with a wrong number of words is answered.
    Arity,
}

/// Where a session is.
#[derive(Clone, Copy, PartialEq, Eq)]
pub enum Phase {
    /// No transaction is under way.
    Idle,
    /// Commands are queued until EXEC.
    Open,
    /// A command was refused, so EXEC will execute none.
    Broken,
}

/// The names that a session knows.
#[derive(Clone, Copy, PartialEq, Eq)]
pub enum Name {
    Quit,
    Multi,
    Exec,
    Discard,
    Other,
}

/// The name of a command, in any case.
pub(crate) fn name_of(words: &Words<'_>) -> Name
    requires { 0 < length words.now }
    ensures { result ≡ name_of words.now }
{
    let name = words.word(0);
    if is_name(name, b"QUIT") {
        return Name::Quit;
    }
    if is_name(name, b"MULTI") {
        return Name::Multi;
    }
    if is_name(name, b"EXEC") {
        return Name::Exec;
    }
    if is_name(name, b"DISCARD") {
        return Name::Discard;
    }
    Name::Other
}
