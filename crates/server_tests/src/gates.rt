//! Turns at a gate of its own: that a turn ends and the next begins, that waiters are woken, and that the state and a pass may
//! cross threads. The proofs say how the logs lie in one another; the totals show that all entries came.
ghost use Rattle.std.specs.Prelude.{◌≡◌, ◌+◌};
ghost use Rattle.turn_gate.specs.Log.{StartsWith};

use std::sync::Wait;
use std::thread::{Threads, join};
use turn_gate::{Chronicle, Gate, Logged, Pass, Told};

/// An entry of a counter's log. No value of it is made.
struct Step {
    pub caller: u64,
}

impl Logged for Step {
    ghost caller = { λ step. step.caller };
}

/// How many entries there are.
#[derive(Drop)]
struct Counter {
    total: u64,
    first: u64,
}

impl Chronicle for Counter {
    ghost use Rattle.std.specs.Prelude.{◌≡◌, ◌%◌, ◌^◌, length};

    type Entry = Step;

    ghost first = { λ counter. counter.first };

    ghost tells = { λ counter log first. counter.total ≡ length log % 2 ^ 64 };

    fn first_number(&self) -> u64 {
        self.first
    }
}

/// One step a turn.
#[derive(Drop)]
struct One;

impl Told<Step> for One {
    ghost use Rattle.std.specs.Prelude.{◌∷◌, [], refl};
    ghost use Rattle.std.proofs.Common.{arith};

    ghost size = { λ _. 1 };

    ghost entries = { λ _ caller _ _. record { caller = caller } ∷ [] };

    fn count(&self) -> u64 {
        1
    }

    ghost some = { λ _. Prim.omega arith };

    ghost sized = { λ _ _ _ _. refl };

    ghost own = { λ _ _ _ _. (refl, tt) };
}

/// Two steps a turn.
#[derive(Drop)]
struct Two;

impl Told<Step> for Two {
    ghost use Rattle.std.specs.Prelude.{◌∷◌, [], refl};
    ghost use Rattle.std.proofs.Common.{arith};

    ghost size = { λ _. 2 };

    ghost entries = { λ _ caller _ _. record { caller = caller } ∷ record { caller = caller } ∷ [] };

    fn count(&self) -> u64 {
        2
    }

    ghost some = { λ _. Prim.omega arith };

    ghost sized = { λ _ _ _ _. refl };

    ghost own = { λ _ _ _ _. (refl, (refl, tt)) };
}

// A turn that counts what it adds. Also gives the total that it found.
fn take_turn<R: Wait, T: Told<Step>>(
    rt: &R,
    gate: &Gate<Counter>,
    pass: Pass<Counter>,
    told: &T,
) -> (u64, Pass<Counter>)
    requires { pass.gate ≡ gate.now }
    ensures same { (result.1.gate ≡ pass.gate) × (result.1.caller ≡ pass.caller) }
    ensures turns { result.1.turns ≡ pass.turns + 1 }
    ensures log { StartsWith result.1.seen pass.seen }
{
    let mut turn = gate.enter(rt, pass);
    let counter = turn.state();
    let found = counter.total;
    counter.total = found.wrapping_add(told.count());
    (found, gate.leave(turn, told))
}

// So many turns.
fn take_turns<R: Wait, T: Told<Step>>(
    rt: &R,
    gate: &Gate<Counter>,
    pass: Pass<Counter>,
    told: &T,
    turns: u32,
) -> Pass<Counter>
    requires { pass.gate ≡ gate.now }
    ensures same { (result.gate ≡ pass.gate) × (result.caller ≡ pass.caller) }
    ensures turns { result.turns ≡ pass.turns + turns }
    ensures log { StartsWith result.seen pass.seen }
{
    let mut pass = pass;
    for taken in 0..turns {
        pass = take_turn(rt, gate, pass, told).1;
    }
    pass
}

// What is left of two passes after 1,000 turns of each, in a thread each, of one step and of two.
fn take_turns_apart<R: Threads + Wait + Sync>(
    rt: &R,
    gate: &Gate<Counter>,
    one: Pass<Counter>,
    two: Pass<Counter>,
) -> (Pass<Counter>, Pass<Counter>)
    requires { (one.gate ≡ gate.now) × (two.gate ≡ gate.now) }
    ensures same { (result.0.gate ≡ one.gate) × (result.1.gate ≡ two.gate) }
    ensures turns { (result.0.turns ≡ one.turns + 1000) × (result.1.turns ≡ two.turns + 1000) }
{
    join(
        rt,
        || -> Pass<Counter>
            requires { one.gate ≡ gate.now }
            ensures { (result.gate ≡ one.gate) × (result.turns ≡ one.turns + 1000) }
        { take_turns(rt, gate, one, &One, 1000) },
        || -> Pass<Counter>
            requires { two.gate ≡ gate.now }
            ensures { (result.gate ≡ two.gate) × (result.turns ≡ two.turns + 1000) }
        { take_turns(rt, gate, two, &Two, 1000) },
    )
}

// A pass that only joins has seen what both others have.
fn gather(gate: &Gate<Counter>, pass: &mut Pass<Counter>, one: Pass<Counter>, two: Pass<Counter>)
    requires { (pass.old.gate ≡ gate.now) × (one.gate ≡ gate.now) × (two.gate ≡ gate.now) }
    ensures gate { pass.new.gate ≡ pass.old.gate }
    ensures both { StartsWith pass.new.seen one.seen × StartsWith pass.new.seen two.seen }
{
    gate.join(pass, one);
    gate.join(pass, two);
}

// The total that a pass finds behind the turns of two threads.
fn found_behind_threads<R: Threads + Wait + Sync>(
    rt: &R,
    gate: &Gate<Counter>,
    mut third: Pass<Counter>,
) -> u64
    requires { third.gate ≡ gate.now }
{
    let one = gate.split(&mut third);
    let two = gate.split(&mut third);
    let (one, two) = take_turns_apart(rt, gate, one, two);
    gather(gate, &mut third, one, two);
    take_turn(rt, gate, third, &One).0
}

#[test]
fn two_threads_take_turns(rt: HostRuntime) {
    let found = match Gate::open(rt.alloc(), Counter { total: 0, first: 1 }) {
        Ok((gate, pass)) => found_behind_threads(&rt, &gate, pass),
        Err(_) => 0,
    };
    assert!(rt; found == 3000);
}

// The total that a pass finds behind the turns of another one that it joined.
fn found_behind_another<R: Wait>(rt: &R, gate: &Gate<Counter>, mut pass: Pass<Counter>) -> u64
    requires { pass.gate ≡ gate.now }
{
    let other = gate.split(&mut pass);
    let other = take_turns(rt, gate, other, &Two, 3);
    gate.join(&mut pass, other);
    take_turn(rt, gate, pass, &One).0
}

#[test]
fn one_thread_splits_and_joins(rt: HostRuntime) {
    let found = match Gate::open(rt.alloc(), Counter { total: 0, first: 1 }) {
        Ok((gate, pass)) => found_behind_another(&rt, &gate, pass),
        Err(_) => 0,
    };
    assert!(rt; found == 6);
}
