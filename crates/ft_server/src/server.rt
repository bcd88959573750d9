//! An engine that callers share, each with a pass of its own.
ghost use Rattle.std.specs.Prelude.{◌≡◌, ◌<◌, true, false, [], IfOk};
ghost use Rattle.turn_gate.specs.Log.{StartsWith, longer};
ghost use Rattle.ft_engine.specs.Stands.{opened};
ghost use Rattle.ft_server.specs.Passes.{IsOf};

use crate::logged_engine::LoggedEngine;
use ft_base::NoMemory;
use ft_engine::Engine;
use std::alloc::Global;
use std::marker::Model;
use turn_gate::Gate;

/// What a caller of a server holds between its calls. It may go to another thread.
pub type Pass = turn_gate::Pass<LoggedEngine>;

/// An engine that callers share. A contract sees which one it is, and the number of its log's first entry.
pub struct Server {
    pub(crate) gate: Gate<LoggedEngine>,
}

// Written out, the drops of all that it holds are proved here alone, and not in each crate above.
impl Drop for Server {
    fn drop(self) {
        let Server { gate } = self;
        drop(gate);
    }
}

impl Model for Server {
    ghost use Rattle.turn_gate.specs.Known.{GateName};

    ghost Value = { GateName };

    ghost view = { λ server. server.gate };
}

impl Server {
    /// A server over an engine that has had no event, and its first pass, which is alone. When out of memory the engine
    /// is dropped. No other call takes memory.
    pub fn open(alloc: Global, engine: Engine) -> Result<(Server, Pass), NoMemory>
        requires fresh { engine ≡ opened engine.next }
        ensures first { IfOk result (λ r. r.0.first ≡ engine.next) }
        ensures of { IfOk result (λ r. IsOf r.0 r.1) }
        ensures pass { IfOk result (λ r. (r.1.seen ≡ []) × (r.1.turns ≡ 0) × (r.1.alone ≡ true)
            × (r.1.caller ≡ 0)) }
    {
        let first = engine.next();
        let (gate, pass) = Gate::open(alloc, LoggedEngine { engine, first })?;
        Ok((Server { gate }, pass))
    }

    /// A new pass, which has seen as much, has taken no turn and has a caller's number of its own. From then on neither
    /// is alone.
    pub fn split(&self, pass: &mut Pass) -> Pass
        requires of { IsOf self.now pass.old }
        ensures of { IsOf self.now pass.new × IsOf self.now result }
        ensures same { pass.new ≡ record pass.old { alone = false } }
        ensures new { (result.seen ≡ pass.old.seen) × (result.turns ≡ 0) × (result.alone ≡ false) }
        ensures own { pass.old.caller < result.caller }
    {
        self.gate.split(pass)
    }

    /// Gives a pass what the other has seen, and ends the other. Of the two lists one began the other.
    pub fn join(&self, pass: &mut Pass, other: Pass)
        requires of { IsOf self.now pass.old × IsOf self.now other }
        ensures of { IsOf self.now pass.new }
        ensures same { (pass.new.caller ≡ pass.old.caller) × (pass.new.turns ≡ pass.old.turns)
            × (pass.new.alone ≡ pass.old.alone) }
        ensures log { pass.new.seen ≡ longer pass.old.seen other.seen }
        ensures both { StartsWith pass.new.seen pass.old.seen × StartsWith pass.new.seen other.seen }
    {
        self.gate.join(pass, other)
    }
}
