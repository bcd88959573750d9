//! A command that is prepared: its reply is written, and what it changes waits to be committed.
ghost use Rattle.std.specs.Prelude.{◌≡◌};
ghost use Rattle.indexed_store.specs.Changing.{is_write};

use indexed_store::Change;
use std::marker::Model;

/// A command that was prepared. It keeps the command's words, so that its end takes no memory.
#[derive(Drop)]
pub struct Prepared<'a> {
    pub(crate) change: Change<'a>,
}

impl<'a> Model for Prepared<'a> {
    ghost use Rattle.indexed_store.specs.declared.change.Change.{Change};

    ghost Value = { Change };

    ghost view = { λ p. p.change };
}

impl<'a> Prepared<'a> {
    /// Whether a commit changes documents or definitions.
    pub fn writes(&self) -> bool
        ensures { result ≡ is_write self.now }
    {
        !matches!(
            self.change,
            Change::Nothing
                | Change::OpenCursor
                | Change::ReadCursor(..)
                | Change::CloseCursor(..)
                | Change::CloseCursors
        )
    }
}
