//! The whole: a worker for each door and the collector, started and waited for.
ghost use Rattle.std.specs.Prelude.{◌≡◌, ◌≤◌, ◌<◌, ◌⊎◌, ◌∷◌, ◌++◌, true, false, [], length, vec_capacity, MatchOption};
ghost use Rattle.std.specs.List.{All, list_any};
ghost use Rattle.worker_pool.specs.Jobs.{Each, Exits, Fits, Handed, NoServe, exit_of, has_failed};
ghost use Rattle.worker_pool.specs.Visits.{AllMayBeRead};
ghost use Rattle.worker_pool.specs.Works.{IsDone, IsReady};

use crate::jobs::{Room, take_room};
use crate::starting::{start_all, start_last};
use crate::waiting::{wait_all, wait_last};
use crate::work::{Work, Worked};
use command_line::{Form, WordFault, read_words};
use fs_ports::{Clock, Door, Pace, Spawner};
use ft_base::ListOf;
use ft_server::Exit;
use std::alloc::Global;
use std::hash::RandomState;
use std::sync::Wait;
use std::sync::atomic::Ordering;
use std::thread::Threads;

/// Serves the links of all doors, each by a worker of its own, with a collector beside them, and hands back what the workers and
/// the collector did.
///
/// The words ask for it. Keys are found by hashes that `hashing` makes. The collector goes on until the workers are done, or
/// until the pace says no.
pub fn serve<
    D: Door + Send + Drop + 'static,
    S: Spawner<Work<D, C, P>>,
    C: Clock + Send + Drop + 'static,
    P: Pace + Send + Drop + 'static,
    R: Threads + Wait + Sync,
>(
    rt: &R,
    alloc: Global,
    hashing: RandomState,
    words: &[String],
    doors: Vec<D>,
    spawner: &mut S,
    clocks: Vec<C>,
    pace: P,
) -> (Exit, ListOf<Worked<D, C, P>>)
    requires equal { length doors.items ≡ length clocks.items }
    requires some { 0 < length doors.items }
    requires idle { All (λ door. (D.at door).out ≡ false) doors.items }
    requires prompt { AllMayBeRead D.Link.Link C.Clock }
    requires going { P.stopped pace ≡ false }
    requires able { S.able spawner.old }

    // What was handed back, by how it ended.
    ensures exits { Exits (IsDone D.at D.Link.Link C.Clock P.Pace) doors.items clocks.items pace
        result.0 result.1 (S.faults spawner.old) (S.faults spawner.new) }
    // Usage is for the words that ask for something else; memory may run out for reading these too.
    ensures usage { result.0 ≡ Exit.Usage → NoServe words.now }
    ensures others { NoServe words.now → (result.0 ≡ Exit.Usage) ⊎ (result.0 ≡ Exit.NoMemory) }
    // Where nothing was started, none was tried.
    ensures none { (result.0 ≡ Exit.Usage) ⊎ (result.0 ≡ Exit.NoMemory) → spawner.new ≡ spawner.old }
{
    match refusal(alloc, words) {
        Some(exit) => (exit, ListOf::new(alloc)),
        None => serve_doors(rt, alloc, hashing, doors, spawner, clocks, pace),
    }
}

/// How it ends where the words don't ask for it, or cannot be read for want of memory.
fn refusal(alloc: Global, words: &[String]) -> Option<Exit>
    ensures { MatchOption result (NoServe words.now → ⊥)
        (λ exit. ((exit ≡ Exit.Usage) × NoServe words.now) ⊎ (exit ≡ Exit.NoMemory)) }
{
    match read_words(alloc, words) {
        Ok(Form::Serve { .. }) => None,
        Ok(Form::Script) => Some(Exit::Usage),
        Ok(Form::Load { .. }) => Some(Exit::Usage),
        Err(WordFault::Usage) => Some(Exit::Usage),
        Err(WordFault::NoMemory) => Some(Exit::NoMemory),
    }
}

/// Takes all room, and then serves the doors.
fn serve_doors<
    D: Door + Send + Drop + 'static,
    S: Spawner<Work<D, C, P>>,
    C: Clock + Send + Drop + 'static,
    P: Pace + Send + Drop + 'static,
    R: Threads + Wait + Sync,
>(
    rt: &R,
    alloc: Global,
    hashing: RandomState,
    doors: Vec<D>,
    spawner: &mut S,
    clocks: Vec<C>,
    pace: P,
) -> (Exit, ListOf<Worked<D, C, P>>)
    requires equal { length doors.items ≡ length clocks.items }
    requires idle { All (λ door. (D.at door).out ≡ false) doors.items }
    requires prompt { AllMayBeRead D.Link.Link C.Clock }
    requires going { P.stopped pace ≡ false }
    requires able { S.able spawner.old }
    ensures exits { Exits (IsDone D.at D.Link.Link C.Clock P.Pace) doors.items clocks.items pace
        result.0 result.1 (S.faults spawner.old) (S.faults spawner.new) }
    ensures usage { result.0 ≡ Exit.Usage → ⊥ }
    ensures none { result.0 ≡ Exit.NoMemory → spawner.new ≡ spawner.old }
{
    match take_room(alloc, hashing, doors, clocks, pace) {
        Ok(room) => run_all(rt, spawner, room),
        Err(_) => (Exit::NoMemory, ListOf::new(alloc)),
    }
}

/// Starts the workers and then the collector, waits for the workers, and stops the collector.
///
/// Where a start is refused, no further one is tried, and those that run are waited for in the same way.
fn run_all<
    D: Door + Send + Drop + 'static,
    S: Spawner<Work<D, C, P>>,
    C: Clock + Send + Drop + 'static,
    P: Pace + Send + Drop + 'static,
    R: Threads + Wait + Sync,
>(rt: &R, spawner: &mut S, room: Room<D, C, P, S::Running>) -> (Exit, ListOf<Worked<D, C, P>>)
    requires able { S.able spawner.old }
    requires workers { Each (IsReady D.at D.Link.Link C.Clock P.Pace) room.workers.items }
    requires collector { IsReady D.at D.Link.Link C.Clock P.Pace room.collector }
    requires running { (room.running.items ≡ []) × (length room.workers.items ≤ vec_capacity room.running) }
    requires works { (room.works.items ≡ []) × (length room.workers.items < vec_capacity room.works) }
    ensures handed { Handed (IsDone D.at D.Link.Link C.Clock P.Pace) (room.workers.items ++ room.collector ∷ []) result.1 }
    ensures fits { Fits result.0 (length room.workers.items) result.1
        (S.faults spawner.old) (S.faults spawner.new) }
{
    let Room {
        workers,
        collector,
        stop,
        running,
        works,
    } = room;
    let (running, all) = start_all(spawner, workers, running);
    let last = start_last(spawner, all, collector);
    let refused = is_refused(&last);
    let works = wait_all(rt, spawner, running, works);
    stop.store(true, Ordering::SeqCst);
    let works = wait_last(rt, spawner, last, works);
    (exit_at(refused, works.as_slice()), ListOf::from_vec(works))
}

/// Whether nothing runs.
fn is_refused<T>(last: &Option<T>) -> bool
    ensures { MatchOption last.now (result ≡ true) (λ _. result ≡ false) }
{
    match last {
        Some(_) => false,
        None => true,
    }
}

/// How it ends where a start was refused or not, and the jobs gave these back.
fn exit_at<D, C, P>(refused: bool, works: &[Worked<D, C, P>]) -> Exit
    ensures { result ≡ exit_of refused works.now }
{
    if refused {
        Exit::NoThread
    } else if any_failed(works) {
        Exit::DoorFault
    } else {
        Exit::Done
    }
}

/// Whether one of the workers' doors failed.
fn any_failed<D, C, P>(works: &[Worked<D, C, P>]) -> bool
    ensures { result ≡ list_any has_failed works.now }
{
    works.iter().any(|work| has_failed(work))
}

/// Whether it is a worker whose door failed.
fn has_failed<D, C, P>(work: &Worked<D, C, P>) -> bool
    ensures { result ≡ has_failed work.now }
{
    match work {
        Worked::Worker { failed, .. } => *failed,
        Worked::Collector { .. } => false,
    }
}
