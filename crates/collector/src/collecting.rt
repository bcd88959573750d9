//! A cycle: its scan, and what is done with each list that the scan pictured.
ghost use Rattle.std.specs.Prelude.{◌≡◌, false};
ghost use Rattle.std.specs.List.{Contains};
ghost use Rattle.ft_server.specs.Passes.{IsOf, TookLast};
ghost use Rattle.collector.specs.Cycles.{Cycled};
ghost use Rattle.collector.specs.Ways.{Collected, Did};

use crate::counts::{NOTHING, count_step, done_with};
use crate::cycle::{Cycle, Step, end_of};
use crate::repairs::repair_any;
use fs_ports::Pace;
use ft_index::{NamedPicture, Snapshot};
use ft_server::{Pass, Server, scan_turn, splice_turn};
use std::alloc::Global;
use std::sync::Wait;
use std::thread::Threads;

/// Repairs a pictured list, asks the pace, and splices the repair in a turn of its own.
fn collect_one<P: Pace, R: Threads + Wait + Sync>(
    rt: &R,
    alloc: Global,
    server: &Server,
    pass: Pass,
    snapshot: &Snapshot,
    named: &NamedPicture,
    pace: &mut P,
) -> (Pass, Step)
    requires of { IsOf server.now pass }
    requires took { TookLast pass snapshot.now }
    requires there { Contains snapshot.now.lists named.now }
    requires going { P.stopped pace.old ≡ false }
    ensures of { IsOf server.now result.0 }
    ensures did { Did snapshot.now named.now pass result.0 (P.asked pace.old) (P.asked pace.new) (P.stopped pace.new) result.1 }
{
    let Ok(found) = repair_any(rt, alloc, &named.picture, snapshot) else {
        return (pass, Step::NoMemory);
    };
    let Some(repair) = found else {
        return (pass, Step::Clean);
    };
    if !pace.between() {
        return (pass, Step::Stopped);
    }
    let (pass, answer) = splice_turn(rt, server, pass, snapshot, named, repair);
    (pass, Step::Tried(answer))
}

/// What is done with the lists that a scan pictured, one after another.
fn collect_lists<P: Pace, R: Threads + Wait + Sync>(
    rt: &R,
    alloc: Global,
    server: &Server,
    pass: Pass,
    snapshot: &Snapshot,
    pace: &mut P,
) -> (Pass, Cycle)
    requires of { IsOf server.now pass }
    requires took { TookLast pass snapshot.now }
    requires going { P.stopped pace.old ≡ false }
    ensures { Collected server.now snapshot.now pass result.0 (P.asked pace.old) (P.asked pace.new) (P.stopped pace.new) result.1 }
{
    let mut pass = pass;
    let mut counts = NOTHING;
    for named in snapshot.lists.as_slice() {
        let (next, step) = collect_one(rt, alloc, server, pass, snapshot, named, pace);
        pass = next;
        if let Some(cycle) = end_of(step) {
            return (pass, cycle);
        }
        counts = count_step(counts, step);
    }
    (pass, done_with(counts))
}

/// One cycle over the next part of the index of a name: a scan in a turn, and then, for each pictured list that holds a dead
/// entry, a repair beside the commands, the pace, and a splice in a turn of its own. It may wait for each turn.
///
/// What was spliced stays so, however the cycle ends. A cycle is no whole pass over a large index: that is several.
pub fn collect_cycle<P: Pace, R: Threads + Wait + Sync>(
    rt: &R,
    alloc: Global,
    server: &Server,
    pass: Pass,
    index: &[u8],
    pace: &mut P,
) -> (Pass, Cycle)
    requires of { IsOf server.now pass }
    requires going { P.stopped pace.old ≡ false }
    ensures cycled { Cycled server.now pass result.0 index.now (P.asked pace.old) (P.asked pace.new) (P.stopped pace.new) result.1 }
{
    let (pass, taken) = scan_turn(rt, server, pass, index);
    let Ok(found) = taken else {
        return (pass, Cycle::NoMemory);
    };
    let Some(snapshot) = found else {
        return (pass, Cycle::NoIndex);
    };
    collect_lists(rt, alloc, server, pass, &snapshot, pace)
}
