//! Workers and their collector over fakes: links are served where memory is ample, all workers share one server, and each way to
//! end. The pace says no at once, so the collector does one round.
ghost use Rattle.std.specs.Prelude.{◌≡◌, false, length, IfSome};
ghost use Rattle.std.specs.List.{All};

use crate::links::{calls_of, clock_of, door_of, words_of};
use fs_ports::{CountedPace, MemDoor, MemLink, MemSpawner, ScriptedClock};
use ft_base::ListOf;
use ft_server::Exit;
use std::alloc::Global;
use std::hash::RandomState;
use std::random::RandomSource;
use std::sync::Wait;
use std::thread::Threads;
use worker_pool::{Worked, serve};

type Back = Worked<MemDoor<MemLink>, ScriptedClock, CountedPace>;

const SET: &[u8] = b"*4\r\n$4\r\nHSET\r\n$1\r\na\r\n$1\r\nf\r\n$1\r\nx\r\n";

const GET: &[u8] = b"*3\r\n$4\r\nHGET\r\n$1\r\na\r\n$1\r\nf\r\n";

const QUIT: &[u8] = b"*1\r\n$4\r\nQUIT\r\n*1\r\n$4\r\nPING\r\n";

// Two doors of two links each, and the accept of the second that fails.
fn doors(alloc: Global, fail_accept: u64) -> Option<Vec<MemDoor<MemLink>>>
    ensures count { IfSome result (λ doors. length doors.items ≡ 2) }
    ensures idle { IfSome result (λ doors. All (λ door. door.at.out ≡ false) doors.items) }
{
    let first = door_of(alloc, &[SET, GET], &[])?;
    let second = door_of(alloc, &[GET, QUIT], &[fail_accept])?;
    Vec::from_array(alloc, [first, second]).ok()
}

fn clocks(alloc: Global) -> Option<Vec<ScriptedClock>>
    ensures { IfSome result (λ clocks. length clocks.items ≡ 2) }
{
    let first = clock_of(alloc, &[5])?;
    Vec::from_array(alloc, [first, clock_of(alloc, &[5])?]).ok()
}

// What the doors come to, where the given start fails.
fn served<R: Threads + Wait + Sync + Copy + Drop>(
    rt: &R,
    alloc: Global,
    hashing: RandomState,
    texts: &[&str],
    doors: Vec<MemDoor<MemLink>>,
    clocks: Vec<ScriptedClock>,
    fail_start: u64,
) -> (Exit, ListOf<Back>)
    requires count { (length doors.items ≡ 2) × (length clocks.items ≡ 2) }
    requires idle { All (λ door. door.at.out ≡ false) doors.items }
{
    let words = words_of(alloc, texts);
    let mut spawner = MemSpawner::new(*rt, calls_of(alloc, &[fail_start]));
    let pace = CountedPace::new(0);
    serve(
        rt,
        alloc,
        hashing,
        words.as_slice(),
        doors,
        &mut spawner,
        clocks,
        pace,
    )
}

// Whether just this was written to the links that came back, with a bar behind each.
fn are_written(alloc: Global, works: &[Back], want: &[u8]) -> bool {
    let mut all = Vec::new(alloc);
    for work in works {
        if let Worked::Worker { door, .. } = work {
            write_links(&mut all, door.back());
        }
    }
    all.as_slice() == want
}

fn write_links(all: &mut Vec<u8>, links: &[MemLink]) {
    for link in links {
        let _ = all.extend_from_slice(link.output());
        let _ = all.push(b'|');
    }
}

/// The words, which start and which accept of the second door fail, and how it ends: so, with so many works that wrote
/// this.
type Way = (
    &'static [&'static str],
    (u64, u64),
    (Exit, usize, &'static [u8]),
);

// Whether it ends this way.
fn ends<R: RandomSource + Threads + Wait + Sync + Copy + Drop>(
    rt: &R,
    alloc: Global,
    way: &Way,
) -> bool {
    let Ok(hashing) = RandomState::new(rt) else {
        return false;
    };
    let Some(doors) = doors(alloc, way.1.1) else {
        return false;
    };
    match clocks(alloc) {
        Some(clocks) => ends_over(rt, alloc, hashing, way, doors, clocks),
        None => false,
    }
}

// Whether it ends this way over such doors and clocks.
fn ends_over<R: Threads + Wait + Sync + Copy + Drop>(
    rt: &R,
    alloc: Global,
    hashing: RandomState,
    way: &Way,
    doors: Vec<MemDoor<MemLink>>,
    clocks: Vec<ScriptedClock>,
) -> bool
    requires count { (length doors.items ≡ 2) × (length clocks.items ≡ 2) }
    requires idle { All (λ door. door.at.out ≡ false) doors.items }
{
    let (texts, fails, want) = *way;
    let (exit, works) = served(rt, alloc, hashing, texts, doors, clocks, fails.0);
    (exit == want.0) & (works.len() == want.1) & are_written(alloc, works.as_slice(), want.2)
}

const FIRST: &[u8] = b":1\r\n|$1\r\nx\r\n|";

const CUT: &[u8] = b":1\r\n|$1\r\nx\r\n|$1\r\nx\r\n|";

const BOTH: &[u8] = b":1\r\n|$1\r\nx\r\n|$1\r\nx\r\n|+OK\r\n|";

const SERVE: [&str; 3] = ["serve", "7777", "2"];

const WAYS: &[Way] = &[
    // Nothing fails; then the second link of the second door cannot be accepted.
    (&SERVE, (0, 0), (Exit::Done, 3, BOTH)),
    (&SERVE, (0, 2), (Exit::DoorFault, 3, CUT)),
    // The first worker, the second and the collector cannot be started.
    (&SERVE, (1, 2), (Exit::NoThread, 0, b"")),
    (&SERVE, (2, 2), (Exit::NoThread, 1, FIRST)),
    (&SERVE, (3, 0), (Exit::NoThread, 2, BOTH)),
    (&SERVE, (3, 2), (Exit::NoThread, 2, CUT)),
    // The words are not those of `serve`.
    (&["script"], (0, 0), (Exit::Usage, 0, b"")),
];

#[test]
fn each_way_to_end(rt: HostRuntime) {
    for way in WAYS {
        assert!(rt; ends(&rt, rt.alloc(), way));
    }
}
