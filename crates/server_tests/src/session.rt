//! Sessions with an engine: lines of words in, replies out. All buffers are made once, so that asking takes no memory of
//! its own.
ghost use Rattle.std.specs.Prelude.{◌≡◌, ◌<◌, ◌≤◌, ◌^◌, [], false, vec_capacity};
ghost use Rattle.cmd_parse.specs.Asking.{IsAsked};
ghost use Rattle.cmd_parse.specs.Lawful.{HasSerial};
ghost use Rattle.cmd_parse.specs.Reading.{command_of};

use cmd_parse::{Command, read_command};
use ft_base::{Span, Words};
use ft_engine::Engine;
use row_text::{is_small, part};
use std::alloc::Global;
use std::hash::RandomState;

/// An engine that no event is prepared in, and its last reply.
#[derive(Drop)]
pub struct Session {
    engine: Engine,
    spans: Vec<Span>,
    reply: Vec<u8>,
    ghost free: { engine.pending ≡ false },
    ghost room: { 64 ≤ vec_capacity reply },
}

/// A session whose first event has this number; none where memory runs out.
pub fn begin_at(alloc: Global, hashing: RandomState, first: u64) -> Option<Session>
    requires least { 1 ≤ first }
    requires most { first ≤ 2 ^ 62 }
{
    let reply = Vec::with_capacity(alloc, 64).ok()?;
    let engine = Engine::open_at(alloc, hashing, first).ok()?;
    Some(Session {
        engine,
        spans: Vec::new(alloc),
        reply,
    })
}

impl Session {
    /// The number of the next event.
    pub fn next(&self) -> u64 {
        self.engine.next()
    }

    /// The last reply.
    pub fn reply(&self) -> &[u8] {
        self.reply.as_slice()
    }

    /// Executes a line of words with one such byte between each two.
    pub fn ask(&mut self, line: &[u8], separator: u8) {
        part(line, separator, &mut self.spans);
        self.reply.clear();
        if is_small(line, self.spans.as_slice()) {
            let now = self.engine.next();
            let words = Words::new(line, self.spans.as_slice());
            self.engine.exec(now, words, &mut self.reply);
        }
    }

    /// Prepares a line of words, and commits or abandons it. It answers whether the command writes. A line that asks
    /// nothing has no reply, and is no event.
    pub fn prepare(&mut self, alloc: Global, line: &[u8], commits: bool) -> bool {
        part(line, b'|', &mut self.spans);
        self.reply.clear();
        if !is_small(line, self.spans.as_slice()) {
            return false;
        }
        let now = self.engine.next();
        match read_command(alloc, Words::new(line, self.spans.as_slice()), now) {
            Ok(command) => end(&mut self.engine, now, command, &mut self.reply, commits),
            Err(_) => false,
        }
    }
}

// Prepares a command, and commits or abandons it. It answers whether the command writes.
fn end(
    engine: &mut Engine,
    now: u64,
    command: Command<'_>,
    reply: &mut Vec<u8>,
    commits: bool,
) -> bool
    requires asked { IsAsked (command_of command) }
    requires serial { HasSerial engine.old.next (command_of command) }
    requires empty { reply.old.items ≡ [] }
    requires room { 64 ≤ vec_capacity reply.old }
    requires free { engine.old.pending ≡ false }
    ensures free { engine.new.pending ≡ false }
    ensures room { vec_capacity reply.old ≤ vec_capacity reply.new }
{
    let prepared = engine.prepare(now, command, reply);
    let writes = prepared.writes();
    if commits {
        engine.commit(prepared);
    } else {
        engine.abandon(prepared);
    }
    writes
}
