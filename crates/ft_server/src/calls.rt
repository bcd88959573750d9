//! One command of a caller among others: a turn of its own.
ghost use Rattle.std.specs.Prelude.{◌≡◌, ◌<◌, ◌≤◌, ◌+◌, length, vec_capacity};
ghost use Rattle.ft_base.specs.Words.{KeepsLimits};
ghost use Rattle.ft_server.specs.Passes.{Adds, IsOf};

use crate::logged_engine::LogEntry;
use crate::server::{Pass, Server};
use ft_base::Words;
use std::sync::Wait;
use turn_gate::Told;

/// What a command's turn adds to the log: the command with its reply.
#[derive(Drop)]
struct Note<'a> {
    now: u64,
    words: Words<'a>,
    reply: &'a [u8],
}

impl<'a> Told<LogEntry> for Note<'a> {
    ghost use Rattle.std.specs.Prelude.{◌∷◌, [], refl};
    ghost use Rattle.std.proofs.Common.{arith};
    ghost use Rattle.history_core.specs.Entries.{Exec};

    ghost size = { λ _. 1 };

    ghost entries = { λ note caller first seen. Exec caller note.now note.words note.reply.now ∷ [] };

    fn count(&self) -> u64 {
        1
    }

    ghost some = { λ _. Prim.omega arith };

    ghost sized = { λ note caller first seen. refl };

    ghost own = { λ note caller first seen. (refl, tt) };
}

/// Executes a command at a moment, in milliseconds, in a turn of this caller, and writes its reply to `out`, which keeps
/// its room. It may wait for its turn.
///
/// The turn has the execution alone: what is read, decoded and written by the caller is read, decoded and written outside.
pub fn call<R: Wait>(
    rt: &R,
    server: &Server,
    pass: Pass,
    now: u64,
    words: Words<'_>,
    out: &mut Vec<u8>,
) -> Pass
    requires of { IsOf server.now pass }
    requires some { 0 < length words }
    requires limits { KeepsLimits words }
    requires room { 64 ≤ vec_capacity out.old }
    ensures of { IsOf server.now result }
    ensures same { (result.caller ≡ pass.caller) × (result.alone ≡ pass.alone) }
    ensures turns { result.turns ≡ pass.turns + 1 }
    // The history goes on with entries of others, none where the pass is alone, and then with this command.
    ensures entry { Adds pass result now words.entry out.new.items }
    ensures room { vec_capacity out.old ≤ vec_capacity out.new }
{
    let mut turn = server.gate.enter(rt, pass);
    turn.state().engine.exec(now, words.rest(0), out);
    let reply = out.as_slice();
    server.gate.leave(turn, &Note { now, words, reply })
}
