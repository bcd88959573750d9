//! The collector's cycles beside a caller: the collector is held behind its first repair until the caller in another thread is
//! answered, whatever the caller does. One that collected in one turn would not let the caller in.
ghost use Rattle.std.specs.Prelude.{◌≡◌, false};
ghost use Rattle.ft_server.specs.Passes.{IsOf};

use crate::links::server_of;
use crate::passes::{Caller, NOW, ask_at, new_caller};
use collector::{Cycle, collect_cycle};
use fs_ports::{CountedPace, HeldPace};
use ft_server::{Pass, Server};
use std::alloc::Global;
use std::random::RandomSource;
use std::sync::atomic::{AtomicBool, Ordering};
use std::sync::{Arc, Wait};
use std::thread::{Threads, join};

/// How often a caller looks whether the collector is held, so that a test ends.
const MOST_LOOKS: u32 = 100_000_000;

/// A line of words, and its reply.
type Ask = [&'static [u8]; 2];

/// What makes an index with one list, in which one entry is dead.
const MADE: &[Ask] = &[
    [b"FT.CREATE|ix|SCHEMA|t|TEXT", b"+OK\r\n"],
    [b"HSET|d|t|x", b":1\r\n"],
    [b"HSET|d|t|x", b":0\r\n"],
];

/// What the collector writes before its cycle, and reads behind it.
const OWN_SET: Ask = [b"HSET|one|f|a", b":1\r\n"];

const OWN_GET: Ask = [b"HGET|one|f", b"$1\r\na\r\n"];

/// The lists that a cycle spliced, that had moved on, and that were gone, and the entries that it took out.
type Counts = (u64, u64, u64, u64);

/// What a caller asks while the collector is held, and the counts that its cycle ends with.
const BESIDE: &[(&[Ask], Counts)] = &[
    // It searches, and reads back what it wrote.
    (
        &[
            [b"FT.SEARCH|ix|x|NOCONTENT", b"*2\r\n:1\r\n$1\r\nd\r\n"],
            [b"HSET|two|f|b", b":1\r\n"],
            [b"HGET|two|f", b"$1\r\nb\r\n"],
        ],
        (1, 0, 0, 1),
    ),
    // The list grows, so its open end is left as it is.
    (&[[b"HSET|d|t|x", b":0\r\n"]], (1, 0, 0, 0)),
    // All dead entries are taken out at once.
    (
        &[[b"FT.DEBUG|GC_FORCEINVOKE|ix", b"+DONE\r\n"]],
        (0, 1, 0, 0),
    ),
    // The index is dropped, and made again.
    (&[[b"FT.DROPINDEX|ix", b"+OK\r\n"]], (0, 0, 1, 0)),
    (
        &[
            [b"FT.DROPINDEX|ix", b"+OK\r\n"],
            [b"FT.CREATE|ix|SCHEMA|t|TEXT", b"+OK\r\n"],
        ],
        (0, 0, 1, 0),
    ),
    (
        &[[b"FLUSHALL", b"+OK\r\n"], [b"HSET|one|f|a", b":1\r\n"]],
        (0, 0, 1, 0),
    ),
];

// Asks the lines one after another.
fn ask_all<R: Wait>(rt: &R, server: &Server, pass: Pass, caller: &mut Caller, lines: &[Ask]) -> Pass
    requires { IsOf server.now pass }
    ensures { IsOf server.now result }
{
    let mut pass = pass;
    for [line, want] in lines {
        pass = ask_at(rt, server, pass, caller, NOW, line, want);
    }
    pass
}

// Looks at the flag until it is set, or for long enough.
fn wait_for(flag: &AtomicBool) {
    for _ in 0..MOST_LOOKS {
        if flag.load(Ordering::SeqCst) {
            return;
        }
    }
}

// Whether a cycle ended with these counts.
fn is_done(cycle: Cycle, want: &Counts) -> bool {
    match cycle {
        Cycle::Done {
            spliced,
            moved,
            gone,
            removed,
        } => (spliced, moved, gone, removed) == *want,
        _ => false,
    }
}

// Whether a cycle ends with these counts, and its caller reads its own write behind it.
fn collects<R: Threads + Wait + Sync>(
    rt: &R,
    alloc: Global,
    server: &Server,
    pass: Pass,
    mut pace: HeldPace,
    want: &Counts,
) -> bool
    requires of { IsOf server.now pass }
    requires going { pace.stopped ≡ false }
{
    let Some(mut caller) = new_caller(alloc) else {
        return false;
    };
    let pass = ask_all(rt, server, pass, &mut caller, &[OWN_SET]);
    let (pass, cycle) = collect_cycle(rt, alloc, server, pass, b"ix", &mut pace);
    drop(ask_all(rt, server, pass, &mut caller, &[OWN_GET]));
    is_done(cycle, want) & (caller.others == 0)
}

/// What two threads share: set once the collector is held, set once it may go on, and the way that the caller takes.
#[derive(Drop)]
struct Shared {
    held: Arc<AtomicBool, Global>,
    goes_on: Arc<AtomicBool, Global>,
    at: usize,
}

// Whether the caller is answered in its way while the collector is held, which goes on then.
fn is_answered<R: Wait>(rt: &R, alloc: Global, server: &Server, pass: Pass, shared: &Shared) -> bool
    requires { IsOf server.now pass }
{
    let Some((lines, _)) = BESIDE.get(shared.at) else {
        return false;
    };
    let Some(mut caller) = new_caller(alloc) else {
        return false;
    };
    wait_for(&shared.held);
    let was_held = shared.held.load(Ordering::SeqCst);
    drop(ask_all(rt, server, pass, &mut caller, lines));
    shared.goes_on.store(true, Ordering::SeqCst);
    was_held & (caller.others == 0)
}

// Whether a cycle that is held until another caller is answered, in a thread each, ends with these counts.
fn go_side_by_side<R: Threads + Wait + Sync>(
    rt: &R,
    alloc: Global,
    server: &Server,
    one: Pass,
    two: Pass,
    shared: &Shared,
    pace: HeldPace,
    want: &Counts,
) -> bool
    requires one { IsOf server.now one }
    requires two { IsOf server.now two }
    requires going { pace.stopped ≡ false }
{
    let (first, second) = join(
        rt,
        || -> bool
            requires { IsOf server.now two }
        { is_answered(rt, alloc, server, two, shared) },
        || -> bool
            requires of { IsOf server.now one }
            requires going { pace.stopped ≡ false }
        { collects(rt, alloc, server, one, pace, want) },
    );
    first && second
}

// The same of a server of its own.
fn is_beside<R: RandomSource + Threads + Wait + Sync>(
    rt: &R,
    alloc: Global,
    at: usize,
) -> Option<bool> {
    let (_, want) = BESIDE.get(at)?;
    let held = Arc::new(alloc, AtomicBool::new(false)).ok()?;
    let goes_on = Arc::new(alloc, AtomicBool::new(false)).ok()?;
    let pace = HeldPace::new(Arc::try_clone(&held).ok()?, Arc::try_clone(&goes_on).ok()?);
    let shared = Shared { held, goes_on, at };
    let (server, one) = server_of(rt, alloc)?;
    let mut caller = new_caller(alloc)?;
    let mut one = ask_all(rt, &server, one, &mut caller, MADE);
    let two = server.split(&mut one);
    let went = go_side_by_side(rt, alloc, &server, one, two, &shared, pace, want);
    Some(went & (caller.others == 0))
}

#[test]
fn a_cycle_lets_callers_in(rt: HostRuntime) {
    for at in 0..BESIDE.len() {
        assert!(rt; is_beside(&rt, rt.alloc(), at) == Some(true));
    }
}

/// How a cycle is to end: with these counts, stopped, or because there is no index.
#[derive(Clone, Copy)]
enum Want {
    Done(Counts),
    Stopped,
    NoIndex,
}

// Whether a cycle ended so.
fn is_so(cycle: Cycle, want: &Want) -> bool {
    match want {
        Want::Done(counts) => is_done(cycle, counts),
        Want::Stopped => matches!(cycle, Cycle::Stopped),
        Want::NoIndex => matches!(cycle, Cycle::NoIndex),
    }
}

/// How often a pace answers true, and how the cycle is to end.
type Paced = (u64, Want);

// Whether cycles by these paces, one after another, end so.
fn end_so<R: Threads + Wait + Sync>(
    rt: &R,
    alloc: Global,
    server: &Server,
    pass: Pass,
    cycles: &[Paced],
) -> (Pass, bool)
    requires { IsOf server.now pass }
    ensures { IsOf server.now result.0 }
{
    let mut pass = pass;
    let mut same = true;
    for (answers, want) in cycles {
        let mut pace = CountedPace::new(*answers);
        let (later, cycle) = collect_cycle(rt, alloc, server, pass, b"ix", &mut pace);
        pass = later;
        same &= is_so(cycle, want);
    }
    (pass, same)
}

/// What makes an index with three lists, in each of which one entry is dead.
const THREE: &[Ask] = &[
    [b"FT.CREATE|ix|SCHEMA|t|TEXT", b"+OK\r\n"],
    [b"HSET|d|t|x y z", b":1\r\n"],
    [b"HSET|d|t|x y z", b":0\r\n"],
];

/// The cycle finds nothing to do.
const CLEAN: Want = Want::Done((0, 0, 0, 0));

/// Cycles over the three lists. What a stopped cycle leaves is swept by the scan of the next one.
const STOPS: &[&[Paced]] = &[
    &[(3, Want::Done((3, 0, 0, 3))), (3, CLEAN), (3, CLEAN)],
    &[(0, Want::Stopped), (3, CLEAN), (3, CLEAN)],
    &[(1, Want::Stopped), (3, CLEAN)],
    &[(2, Want::Stopped), (3, CLEAN)],
];

// Whether cycles over the three lists end so.
fn stop_so<R: RandomSource + Threads + Wait + Sync>(
    rt: &R,
    alloc: Global,
    cycles: &[Paced],
) -> Option<bool> {
    let (server, pass) = server_of(rt, alloc)?;
    let mut caller = new_caller(alloc)?;
    let pass = ask_all(rt, &server, pass, &mut caller, THREE);
    let (_, same) = end_so(rt, alloc, &server, pass, cycles);
    Some(same & (caller.others == 0))
}

#[test]
fn a_pace_stops_a_cycle_at_each_list(rt: HostRuntime) {
    for cycles in STOPS {
        assert!(rt; stop_so(&rt, rt.alloc(), cycles) == Some(true));
    }
}

// Whether commands are answered behind a cycle, and a next cycle is done, where one allocation at most finds no memory. None
// where it was one before the cycle.
fn goes_on_behind<R: RandomSource + Threads + Wait + Sync>(rt: &R, alloc: Global) -> Option<bool> {
    let (server, pass) = server_of(rt, alloc)?;
    let mut caller = new_caller(alloc)?;
    let pass = ask_all(rt, &server, pass, &mut caller, THREE);
    if caller.others > 0 {
        return None;
    }
    let (pass, first) = collect_cycle(rt, alloc, &server, pass, b"ix", &mut CountedPace::new(3));
    let pass = ask_all(
        rt,
        &server,
        pass,
        &mut caller,
        &[[b"HGET|d|t", b"$5\r\nx y z\r\n"]],
    );
    let (_, second) = collect_cycle(rt, alloc, &server, pass, b"ix", &mut CountedPace::new(3));
    let both = match (first, second) {
        (Cycle::Done { .. }, Cycle::Done { .. } | Cycle::NoMemory) => true,
        (Cycle::NoMemory, Cycle::Done { .. }) => true,
        _ => false,
    };
    Some(both & (caller.others == 0))
}

// It tells something where each of its allocations is made to fail in turn.
#[test]
fn a_cycle_without_memory_ends_nothing(rt: HostRuntime) {
    assert!(rt; goes_on_behind(&rt, rt.alloc()) != Some(false));
}

// A line that writes the eighteen words that begin with two letters into a document of that name.
fn line_of(alloc: Global, first: u8, second: u8) -> Option<Vec<u8>> {
    let mut line = b"HSET|".to_vec(alloc).ok()?;
    line.extend_from_slice(&[first, second]).ok()?;
    line.extend_from_slice(b"|t|").ok()?;
    for third in b'a'..b's' {
        line.extend_from_slice(&[first, second, third, b' ']).ok()?;
    }
    Some(line)
}

// Writes the documents whose names begin with a letter, each with a reply.
fn write_some<R: Wait>(
    rt: &R,
    alloc: Global,
    server: &Server,
    pass: Pass,
    caller: &mut Caller,
    first: u8,
    want: &[u8],
) -> Pass
    requires { IsOf server.now pass }
    ensures { IsOf server.now result }
{
    let mut pass = pass;
    for second in b'a'..b's' {
        match line_of(alloc, first, second) {
            Some(line) => pass = ask_at(rt, server, pass, caller, NOW, line.as_slice(), want),
            None => caller.others = caller.others.saturating_add(1),
        }
    }
    pass
}

// Writes all 324 documents.
fn write_all<R: Wait>(
    rt: &R,
    alloc: Global,
    server: &Server,
    pass: Pass,
    caller: &mut Caller,
    want: &[u8],
) -> Pass
    requires { IsOf server.now pass }
    ensures { IsOf server.now result }
{
    let mut pass = pass;
    for first in b'a'..b's' {
        pass = write_some(rt, alloc, server, pass, caller, first, want);
    }
    pass
}

/// Of the short lists of a part the first 64 are pictured.
const PART: Want = Want::Done((64, 0, 0, 64));

/// Cycles over an index of 5,832 words, which are three parts, in each list of which one entry is dead; what is asked then; and
/// further cycles.
type Parts = (&'static [Paced], &'static [Ask], &'static [Paced]);

const PARTS: &[Parts] = &[
    (&[(64, PART), (64, PART), (64, PART), (64, CLEAN)], &[], &[]),
    (
        &[(64, PART), (9, Want::Stopped), (64, PART), (64, CLEAN)],
        &[],
        &[],
    ),
    (
        &[(64, PART)],
        &[[b"FT.DROPINDEX|ix", b"+OK\r\n"]],
        &[(64, Want::NoIndex)],
    ),
    (
        &[(64, PART)],
        &[
            [b"FT.DROPINDEX|ix", b"+OK\r\n"],
            [b"FT.CREATE|ix|SCHEMA|t|TEXT", b"+OK\r\n"],
        ],
        &[(64, CLEAN), (64, CLEAN)],
    ),
];

// Whether the cycles end so.
fn parts_end_so<R: RandomSource + Threads + Wait + Sync>(
    rt: &R,
    alloc: Global,
    parts: &Parts,
) -> Option<bool> {
    let (server, pass) = server_of(rt, alloc)?;
    let mut caller = new_caller(alloc)?;
    let pass = ask_all(rt, &server, pass, &mut caller, &[MADE[0]]);
    let pass = write_all(rt, alloc, &server, pass, &mut caller, b":1\r\n");
    let pass = write_all(rt, alloc, &server, pass, &mut caller, b":0\r\n");
    let (pass, first) = end_so(rt, alloc, &server, pass, parts.0);
    let pass = ask_all(rt, &server, pass, &mut caller, parts.1);
    let (_, then) = end_so(rt, alloc, &server, pass, parts.2);
    Some(first & then & (caller.others == 0))
}

#[test]
fn a_large_index_takes_several_cycles(rt: HostRuntime) {
    for parts in PARTS {
        assert!(rt; parts_end_so(&rt, rt.alloc(), parts) == Some(true));
    }
}
