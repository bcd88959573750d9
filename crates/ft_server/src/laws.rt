//! Laws of what a connection's commands become, by the table of transactions. Each function here does nothing: its contract is
//! the law.
ghost use Rattle.ft_server.specs.Plain.{OwnEntries, PlainStreams};

/// Commands of which none is MULTI, EXEC or DISCARD are each executed by itself, in order, and the session stays idle: the
/// caller's own entries are then these commands, and what is written is their replies.
pub fn plain_streams()
    ensures { PlainStreams }
{}

/// The caller's own entries are the commands that were executed for its items, in order.
pub fn own_entries()
    ensures { OwnEntries }
{}
