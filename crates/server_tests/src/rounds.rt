//! The collector beside a worker, each in a thread of its own: it goes on from round to round while the worker is at work, and
//! ends once the worker is done, also where the worker's door fails while the collector is held. No clause says so, since the
//! flag between them is an atomic.
ghost use Rattle.std.specs.Prelude.{◌≡◌, None, false, IfSome};

use crate::links::{clock_of, door_of, words_of};
use fs_ports::{Door, Failed, MemDoor, MemLink, Pace, ScriptedClock, Spawner};
use ft_server::Exit;
use std::alloc::Global;
use std::hash::RandomState;
use std::marker::PhantomData;
use std::random::RandomSource;
use std::sync::atomic::{AtomicBool, Ordering};
use std::sync::{Arc, Wait};
use std::thread::Threads;
use system_ports::{ThreadSpawner, start_thread};
use worker_pool::{Work, serve};

const SET: &[u8] = b"*4\r\n$4\r\nHSET\r\n$1\r\na\r\n$1\r\nf\r\n$1\r\nx\r\n";

/// How often the pace is asked before it sets its flag: at the end of the third round.
const ASKED: u64 = 3;

/// How often a door looks at its flag before it gives its links all the same, so that a test ends.
const MOST_LOOKS: u32 = 100_000_000;

/// A pace that never says no, and sets a flag once it was asked for a number of times. Each time it looks at another flag until
/// that is set, or for long enough.
#[derive(Drop)]
pub struct TellingPace {
    left: u64,
    flag: Arc<AtomicBool, Global>,
    goes_on: Arc<AtomicBool, Global>,
}

impl Pace for TellingPace {
    ghost stopped = { λ _. false };

    ghost asked = { λ _. None };

    fn between(&mut self) -> bool {
        self.left = self.left.saturating_sub(1);
        if self.left == 0 {
            self.flag.store(true, Ordering::SeqCst);
        }
        wait_for(&self.goes_on);
        true
    }

    fn end_round(&mut self) {}
}

/// A door that gives its links behind a flag.
#[derive(Drop)]
pub struct WaitingDoor {
    door: MemDoor<MemLink>,
    flag: Arc<AtomicBool, Global>,
}

// Looks at the flag until it is set, or for long enough.
fn wait_for(flag: &AtomicBool) {
    for _ in 0..MOST_LOOKS {
        if flag.load(Ordering::SeqCst) {
            return;
        }
    }
}

impl Door for WaitingDoor {
    type Link = MemLink;

    ghost at = { λ d. d.door.at };

    fn accept(&mut self) -> Result<Option<MemLink>, Failed> {
        wait_for(&self.flag);
        self.door.accept()
    }

    fn hand_back(&mut self, link: MemLink) {
        self.door.hand_back(link);
    }
}

// A door of one link, behind this flag, and the accepts that fail.
fn waiting_door(alloc: Global, flag: &Arc<AtomicBool, Global>, fails: &[u64]) -> Option<WaitingDoor>
    ensures { IfSome result (λ door. door.door.at.out ≡ false) }
{
    let door = door_of(alloc, &[SET], fails)?;
    let flag = Arc::try_clone(flag).ok()?;
    Some(WaitingDoor { door, flag })
}

/// How often the pace is asked before the door gives its link, which accept fails, whether the pace holds nobody back, and how
/// it ends.
type Way = (u64, u64, bool, Exit);

const WAYS: &[Way] = &[
    (ASKED, 0, true, Exit::Done),
    // The second accept fails while the collector is held.
    (1, 2, false, Exit::DoorFault),
];

// Whether the pace was asked often enough while the door gave no link, and all ended in this way behind it.
fn is_told<
    S: Spawner<Work<WaitingDoor, ScriptedClock, TellingPace>>,
    R: RandomSource + Threads + Wait + Sync,
>(rt: &R, alloc: Global, spawner: &mut S, way: &Way) -> Option<bool>
    requires able { S.able spawner.old }
{
    let (left, fails, holds_nobody, want) = *way;
    let hashing = RandomState::new(rt).ok()?;
    let flag = Arc::new(alloc, AtomicBool::new(false)).ok()?;
    let told = Arc::try_clone(&flag).ok()?;
    let goes_on = Arc::new(alloc, AtomicBool::new(holds_nobody)).ok()?;
    let pace = TellingPace {
        left,
        flag: told,
        goes_on,
    };
    let door = waiting_door(alloc, &flag, &[fails])?;
    let exit = serve_door(rt, alloc, hashing, spawner, door, pace)?;
    Some(exit == (want, 2) && flag.load(Ordering::SeqCst))
}

// How it ends over one door, and with how many works.
fn serve_door<S: Spawner<Work<WaitingDoor, ScriptedClock, TellingPace>>, R: Threads + Wait + Sync>(
    rt: &R,
    alloc: Global,
    hashing: RandomState,
    spawner: &mut S,
    door: WaitingDoor,
    pace: TellingPace,
) -> Option<(Exit, usize)>
    requires able { S.able spawner.old }
    requires idle { door.door.at.out ≡ false }
{
    let doors = Vec::from_array(alloc, [door]).ok()?;
    let clocks = Vec::from_array(alloc, [clock_of(alloc, &[5])?]).ok()?;
    let words = words_of(alloc, &["serve", "7777", "1"]);
    let line = words.as_slice();
    let (exit, works) = serve(rt, alloc, hashing, line, doors, spawner, clocks, pace);
    Some((exit, works.len()))
}

#[test]
fn rounds_go_on_until_the_worker_is_done(rt: HostRuntime) {
    let own = rt;
    // The closure has to name the door's type of links, which only its contract speaks of.
    let named: PhantomData<MemLink> = PhantomData;
    for way in WAYS {
        let mut spawner = ThreadSpawner {
            start: |job: Work<WaitingDoor, ScriptedClock, TellingPace>| {
                let _named = named;
                start_thread(&own, job)
            },
            faults: 0,
            of: PhantomData,
        };
        assert!(rt; is_told(&rt, rt.alloc(), &mut spawner, way) == Some(true));
    }
}
