//! The paces and the spawner in memory: which answers and which starts come.
ghost use Rattle.std.specs.Prelude.{◌≡◌, ◌+◌, ⊤};

use super::*;
use std::sync::atomic::{AtomicBool, Ordering};
use std::sync::{Arc, Wait};
use std::thread::Threads;

#[test]
fn counted_pace_stops_behind_its_answers(rt: HostRuntime) {
    let mut pace = CountedPace::new(2);
    assert!(rt; pace.between() && pace.between() && !pace.between());
    assert!(rt; !CountedPace::new(0).between());
}

fn flag(alloc: Global, is_set: bool) -> Option<Arc<AtomicBool, Global>> {
    Arc::new(alloc, AtomicBool::new(is_set)).ok()
}

// Whether the pace sets the first flag, and what it answers where the second is set or not.
fn answers(alloc: Global, is_set: bool) -> Option<(bool, bool)> {
    let first = flag(alloc, false)?;
    let second = flag(alloc, is_set)?;
    let mut pace = HeldPace::new(Arc::try_clone(&first).ok()?, second);
    let answer = pace.between();
    Some((first.load(Ordering::SeqCst), answer))
}

#[test]
fn held_pace_waits_for_its_flag(rt: HostRuntime) {
    assert!(rt; answers(rt.alloc(), true) == Some((true, true)));
    assert!(rt; answers(rt.alloc(), false) == Some((true, false)));
}

/// The double of a number.
#[derive(Drop)]
pub struct Doubled(pub u32);

impl Job for Doubled {
    type Out = u64;

    ghost ready = { λ _. ⊤ };

    ghost done = { λ job out. out ≡ job.0 + job.0 };

    fn work<R: Threads + Wait + Sync>(self, _rt: &R) -> u64 {
        u64::from(self.0) + u64::from(self.0)
    }
}

// The double of the number, where its job is started.
fn double_of<R: Threads + Wait + Sync>(
    rt: &R,
    spawner: &mut MemSpawner<R>,
    number: u32,
) -> Option<u64> {
    let running = spawner.start(Doubled(number)).ok()?;
    Some(spawner.wait(rt, running))
}

// Whether just the second of three jobs isn't started, and the others are done.
fn are_doubled<R: Threads + Wait + Sync>(rt: &R, spawner: &mut MemSpawner<R>) -> bool {
    double_of(rt, spawner, 4) == Some(8)
        && double_of(rt, spawner, 5).is_none()
        && double_of(rt, spawner, 6) == Some(12)
}

#[test]
fn listed_starts_fail(rt: HostRuntime) {
    let mut spawner = MemSpawner::new(rt, calls_of(rt.alloc(), &[2]));
    assert!(rt; are_doubled(&rt, &mut spawner));
}
