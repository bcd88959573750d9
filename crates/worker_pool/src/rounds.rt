//! The collector: it works in rounds, as one caller, until it is told to stop.
//!
//! In a round it asks which indexes there are and does one cycle for each; behind the cycles it rests, unless one of them was
//! stopped.
ghost use Rattle.std.specs.Prelude.{◌≡◌, ◌≤◌, false, not, vec_capacity};
ghost use Rattle.collector.specs.Cycles.{stops};
ghost use Rattle.ft_server.specs.Passes.{Adds, IsOf};
ghost use Rattle.worker_pool.specs.Names.{names_in};
ghost use Rattle.worker_pool.specs.Rounds.{CollectorDone, CyclesOver, OneCycle, Rests, Round, list_words};
ghost use Rattle.worker_pool.specs.Works.{IsCollectorDone};

use crate::names::Names;
use crate::work::Worked;
use collector::{Cycle, collect_cycle};
use fs_ports::Pace;
use ft_base::{Span, Words};
use ft_server::{Pass, Server, call};
use std::alloc::Global;
use std::sync::Wait;
use std::sync::atomic::{AtomicBool, Ordering};
use std::thread::Threads;

/// The room for the names of the indexes at the start. A longer reply makes more.
const ROOM: usize = 64;

/// A room of more bytes is not kept for short replies.
const MOST_KEPT: usize = 65_536;

/// Works in rounds until the pace says no, or the flag is set at the end of one. Replies are written into the room.
pub(crate) fn collect<D, C, P: Pace, R: Threads + Wait + Sync>(
    rt: &R,
    alloc: Global,
    server: &Server,
    pass: Pass,
    pace: P,
    stop: &AtomicBool,
    room: Vec<u8>,
) -> Worked<D, C, P>
    requires of { IsOf server.now pass }
    requires going { P.stopped pace ≡ false }
    requires room { 64 ≤ vec_capacity room }
    ensures { IsCollectorDone P.Pace server.now pass pace result }
{
    let mut pace = pace;
    let pass = work_in_rounds(rt, alloc, server, pass, &mut pace, stop, room);
    Worked::Collector { pass, pace }
}

/// The same with a pace that is lent.
fn work_in_rounds<P: Pace, R: Threads + Wait + Sync>(
    rt: &R,
    alloc: Global,
    server: &Server,
    pass: Pass,
    pace: &mut P,
    stop: &AtomicBool,
    room: Vec<u8>,
) -> Pass
    requires of { IsOf server.now pass }
    requires going { P.stopped pace.old ≡ false }
    requires room { 64 ≤ vec_capacity room }
    ensures { CollectorDone P.Pace server.now pass pace.old result pace.new }
{
    let mut pass = pass;
    let mut room = room;
    for _ in rt.forever() {
        let (next, going) = work_one_round(rt, alloc, server, pass, pace, &mut room);
        pass = next;
        if !going || stop.load(Ordering::SeqCst) {
            return pass;
        }
    }
    unreachable!()
}

/// One round, and whether the pace's last answer was true.
fn work_one_round<P: Pace, R: Threads + Wait + Sync>(
    rt: &R,
    alloc: Global,
    server: &Server,
    pass: Pass,
    pace: &mut P,
    room: &mut Vec<u8>,
) -> (Pass, bool)
    requires of { IsOf server.now pass }
    requires going { P.stopped pace.old ≡ false }
    requires room { 64 ≤ vec_capacity room.old }
    ensures round { Round P.Pace server.now pass pace.old result.0 pace.new }
    ensures going { P.stopped pace.new ≡ not result.1 }
    ensures room { 64 ≤ vec_capacity room.new }
{
    let pass = list_indexes(rt, server, pass, room);
    let (pass, going) = collect_all(rt, alloc, server, pass, room.as_slice(), pace);
    shorten(alloc, room);
    (pass, rest(pace, going))
}

/// Asks for the names of the indexes, by a turn of its own. The reply alone is then in the room.
fn list_indexes<R: Wait>(rt: &R, server: &Server, pass: Pass, room: &mut Vec<u8>) -> Pass
    requires of { IsOf server.now pass }
    requires room { 64 ≤ vec_capacity room.old }
    ensures of { IsOf server.now result }
    ensures same { result.caller ≡ pass.caller }
    ensures entry { Adds pass result 0 list_words room.new.items }
    ensures room { 64 ≤ vec_capacity room.new }
{
    room.clear();
    let name = b"FT._LIST";
    let spans = [Span {
        from: 0,
        to: name.len(),
    }];
    call(rt, server, pass, 0, Words::new(name, &spans), room)
}

/// A cycle for each name in the reply, unless the pace says no, and whether its last answer was true.
fn collect_all<P: Pace, R: Threads + Wait + Sync>(
    rt: &R,
    alloc: Global,
    server: &Server,
    pass: Pass,
    reply: &[u8],
    pace: &mut P,
) -> (Pass, bool)
    requires of { IsOf server.now pass }
    requires going { P.stopped pace.old ≡ false }
    ensures of { IsOf server.now result.0 }
    ensures same { result.0.caller ≡ pass.caller }
    ensures cycles { CyclesOver P.Pace server.now (names_in reply.now) pass pace.old result.0 pace.new }
    ensures going { P.stopped pace.new ≡ not result.1 }
{
    let mut pass = pass;
    let mut names = Names::of(reply);
    while let Some((name, others)) = names.split_first() {
        let (next, going) = collect_one(rt, alloc, server, pass, name, pace);
        pass = next;
        names = others;
        if !going {
            return (pass, false);
        }
    }
    (pass, true)
}

/// One cycle over the index of this name, and whether the pace's last answer was true.
fn collect_one<P: Pace, R: Threads + Wait + Sync>(
    rt: &R,
    alloc: Global,
    server: &Server,
    pass: Pass,
    name: &[u8],
    pace: &mut P,
) -> (Pass, bool)
    requires of { IsOf server.now pass }
    requires going { P.stopped pace.old ≡ false }
    ensures of { IsOf server.now result.0 }
    ensures same { result.0.caller ≡ pass.caller }
    ensures cycle { OneCycle P.Pace server.now name.now pass pace.old result.0 pace.new }
    ensures going { P.stopped pace.new ≡ not result.1 }
{
    let (pass, cycle) = collect_cycle(rt, alloc, server, pass, name, pace);
    (pass, !was_stopped(cycle))
}

/// Whether a cycle was stopped.
fn was_stopped(cycle: Cycle) -> bool
    ensures { result ≡ stops cycle }
{
    match cycle {
        Cycle::Stopped => true,
        _ => false,
    }
}

/// Asks the pace once, but where its last answer was false, and says whether its last answer is true. A round is over then.
fn rest<P: Pace>(pace: &mut P, going: bool) -> bool
    requires going { P.stopped pace.old ≡ not going }
    ensures rests { Rests P.Pace pace.old pace.new }
    ensures going { P.stopped pace.new ≡ not result }
{
    if !going {
        return false;
    }
    pace.end_round();
    pace.between()
}

/// Gives back the memory of a room that the last reply needed little of, where there is memory for a short one.
fn shorten(alloc: Global, room: &mut Vec<u8>)
    requires room { 64 ≤ vec_capacity room.old }
    ensures room { 64 ≤ vec_capacity room.new }
{
    let capacity = room.capacity();
    if capacity > MOST_KEPT && room.len() < capacity / 4 {
        if let Ok(short) = Vec::with_capacity(alloc, ROOM) {
            *room = short;
        }
    }
}
