//! The engine under the turn lock, and the entries of its log.
use ft_engine::Engine;
use std::convert::Infallible;
use std::marker::Model;
use turn_gate::{Chronicle, Logged};

/// An entry of a server's log. A contract sees an entry of a history; no value of it is made.
pub struct LogEntry {
    never: Infallible,
}

impl Model for LogEntry {
    ghost use Rattle.ft_engine.specs.Entries.{Entry as Made};

    ghost Value = { Made };

    ghost view = { λ e. elim e.never [ ] };
}

impl Logged for LogEntry {
    ghost use Rattle.history_core.specs.Commands.{caller_of};

    ghost caller = { caller_of };
}

/// An engine, and the number of the first event of its log.
#[derive(Drop)]
pub struct LoggedEngine {
    pub(crate) engine: Engine,
    pub(crate) first: u64,
}

impl Chronicle for LoggedEngine {
    type Entry = LogEntry;

    ghost use Rattle.ft_server.specs.Telling.{Tells};

    ghost first = { λ logged. logged.first };

    ghost tells = { λ logged entries first. Tells logged.engine entries first };

    fn first_number(&self) -> u64 {
        self.first
    }
}
