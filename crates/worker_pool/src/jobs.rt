//! All room is taken, and all jobs are made, before the first of them is started.
ghost use Rattle.std.specs.Prelude.{◌≡◌, ◌≤◌, ◌<◌, [], length, vec_capacity, IfOk, OnOk};
ghost use Rattle.std.specs.Arc.{arc_value};
ghost use Rattle.std.specs.List.{zip};
ghost use Rattle.std.specs.Vec.Iter.{into_iter_items};
ghost use Rattle.worker_pool.specs.Jobs.{AreWorkers, IsCollector, IsFresh, IsNextWorker, IsWorker, Jobs};

use crate::work::{Work, Worked};
use ft_base::NoMemory;
use ft_engine::Engine;
use ft_server::{Pass, Server};
use std::alloc::Global;
use std::hash::RandomState;
use std::sync::Arc;
use std::sync::atomic::AtomicBool;
use std::vec::IntoIter;

/// The collector's room at the start, in bytes. A longer reply makes more.
const REPLY_ROOM: usize = 64;

/// The jobs, the flag that stops the collector, room for what runs, and room for what is handed back.
pub(crate) struct Room<D, C, P, H> {
    pub(crate) workers: Vec<Work<D, C, P>>,
    pub(crate) collector: Work<D, C, P>,
    pub(crate) stop: Arc<AtomicBool, Global>,
    pub(crate) running: Vec<H>,
    pub(crate) works: Vec<Worked<D, C, P>>,
}

/// The jobs, and the flag that stops the collector.
#[derive(Drop)]
struct Made<D, C, P> {
    workers: Vec<Work<D, C, P>>,
    collector: Work<D, C, P>,
    stop: Arc<AtomicBool, Global>,
}

/// A server, its workers, and a pass that is left.
#[derive(Drop)]
struct Crew<D, C, P> {
    server: Arc<Server, Global>,
    pass: Pass,
    workers: Vec<Work<D, C, P>>,
}

/// A flag twice, and room for the collector's replies.
#[derive(Drop)]
struct Tools {
    stop: Arc<AtomicBool, Global>,
    same: Arc<AtomicBool, Global>,
    room: Vec<u8>,
}

/// Opens a server, makes a worker for each door and the collector, and takes room for what they come to.
pub(crate) fn take_room<D: Drop, C: Drop, P: Drop, H: Drop>(
    alloc: Global,
    hashing: RandomState,
    doors: Vec<D>,
    clocks: Vec<C>,
    pace: P,
) -> Result<Room<D, C, P, H>, NoMemory>
    requires equal { length doors.items ≡ length clocks.items }
    ensures jobs { IfOk result (λ room. (jobs : Jobs doors.items clocks.items pace)
        × (room.workers.items ≡ jobs.workers) × (room.collector ≡ jobs.collector)) }
    ensures count { IfOk result (λ room. length room.workers.items ≡ length doors.items) }
    ensures running { IfOk result (λ room. (room.running.items ≡ [])
        × (length doors.items ≤ vec_capacity room.running)) }
    ensures works { IfOk result (λ room. (room.works.items ≡ [])
        × (length doors.items < vec_capacity room.works)) }
{
    let count = doors.len();
    let crew = make_crew(alloc, hashing, doors, clocks)?;
    let made = add_collector(alloc, crew, pace)?;
    with_vectors(alloc, count, made)
}

/// The jobs with room for so many workers and the collector.
fn with_vectors<D: Drop, C: Drop, P: Drop, H: Drop>(
    alloc: Global,
    count: usize,
    made: Made<D, C, P>,
) -> Result<Room<D, C, P, H>, NoMemory>
    ensures jobs { IfOk result (λ room. (room.workers.items ≡ made.workers.items)
        × (room.collector ≡ made.collector)) }
    ensures running { IfOk result (λ room. (room.running.items ≡ []) × (count ≤ vec_capacity room.running)) }
    ensures works { IfOk result (λ room. (room.works.items ≡ []) × (count < vec_capacity room.works)) }
{
    let running = Vec::with_capacity(alloc, count)?;
    let works = room_for_works(alloc, count)?;
    let Made {
        workers,
        collector,
        stop,
    } = made;
    Ok(Room {
        workers,
        collector,
        stop,
        running,
        works,
    })
}

/// Room for what so many workers and the collector give back.
fn room_for_works<D, C, P>(alloc: Global, count: usize) -> Result<Vec<Worked<D, C, P>>, NoMemory>
    ensures { IfOk result (λ works. (works.items ≡ []) × (count < vec_capacity works)) }
{
    let all = count.checked_add(1).ok_or(NoMemory)?;
    Ok(Vec::with_capacity(alloc, all)?)
}

/// A new server, and a worker of it for each door.
fn make_crew<D: Drop, C: Drop, P: Drop>(
    alloc: Global,
    hashing: RandomState,
    doors: Vec<D>,
    clocks: Vec<C>,
) -> Result<Crew<D, C, P>, NoMemory>
    requires equal { length doors.items ≡ length clocks.items }
    ensures first { IfOk result (λ crew. (arc_value crew.server).first ≡ 1) }
    ensures fresh { IfOk result (λ crew. IsFresh (arc_value crew.server) crew.pass) }
    ensures workers { IfOk result (λ crew.
        AreWorkers (arc_value crew.server) (zip doors.items clocks.items) crew.workers.items) }
    ensures count { IfOk result (λ crew. length crew.workers.items ≡ length doors.items) }
{
    let (server, mut pass) = open(alloc, hashing)?;
    let workers = make_workers(alloc, &server, &mut pass, doors, clocks)?;
    Ok(Crew {
        server,
        pass,
        workers,
    })
}

/// The workers, and the collector with the pass that is left and with this pace.
fn add_collector<D: Drop, C: Drop, P: Drop>(
    alloc: Global,
    crew: Crew<D, C, P>,
    pace: P,
) -> Result<Made<D, C, P>, NoMemory>
    requires fresh { IsFresh (arc_value crew.server) crew.pass }
    ensures workers { IfOk result (λ made. made.workers.items ≡ crew.workers.items) }
    ensures collector { IfOk result (λ made. IsCollector (arc_value crew.server) pace made.collector) }
{
    let Tools { stop, same, room } = make_tools(alloc)?;
    let Crew {
        server,
        pass,
        workers,
    } = crew;
    let collector = Work::Collector {
        alloc,
        server,
        pass,
        pace,
        stop: same,
        room,
    };
    Ok(Made {
        workers,
        collector,
        stop,
    })
}

/// A flag that is not set, twice, and room for replies.
fn make_tools(alloc: Global) -> Result<Tools, NoMemory>
    ensures { IfOk result (λ tools. (tools.room.items ≡ []) × (64 ≤ vec_capacity tools.room)) }
{
    let stop = Arc::new(alloc, AtomicBool::new(false))?;
    let same = Arc::try_clone(&stop)?;
    let room = Vec::with_capacity(alloc, REPLY_ROOM)?;
    Ok(Tools { stop, same, room })
}

/// A new server whose first event has the number 1, and its first pass.
fn open(alloc: Global, hashing: RandomState) -> Result<(Arc<Server, Global>, Pass), NoMemory>
    ensures first { IfOk result (λ r. (arc_value r.0).first ≡ 1) }
    ensures fresh { IfOk result (λ r. IsFresh (arc_value r.0) r.1) }
{
    let (server, pass) = Server::open(alloc, Engine::new(alloc, hashing)?)?;
    Ok((Arc::new(alloc, server)?, pass))
}

/// A worker for each door, with a pass of its own.
fn make_workers<D: Drop, C: Drop, P: Drop>(
    alloc: Global,
    server: &Arc<Server, Global>,
    pass: &mut Pass,
    doors: Vec<D>,
    clocks: Vec<C>,
) -> Result<Vec<Work<D, C, P>>, NoMemory>
    requires equal { length doors.items ≡ length clocks.items }
    requires fresh { IsFresh (arc_value server.now) pass.old }
    ensures fresh { IsFresh (arc_value server.now) pass.new }
    ensures workers { IfOk result (λ workers.
        AreWorkers (arc_value server.now) (zip doors.items clocks.items) workers.items) }
    ensures count { IfOk result (λ workers. length workers.items ≡ length doors.items) }
{
    let mut workers = Vec::with_capacity(alloc, doors.len())?;
    add_workers(alloc, server, pass, doors, clocks, &mut workers)?;
    Ok(workers)
}

/// Adds a worker for each door, for whom there is room.
fn add_workers<D: Drop, C: Drop, P: Drop>(
    alloc: Global,
    server: &Arc<Server, Global>,
    pass: &mut Pass,
    doors: Vec<D>,
    clocks: Vec<C>,
    workers: &mut Vec<Work<D, C, P>>,
) -> Result<(), NoMemory>
    requires equal { length doors.items ≡ length clocks.items }
    requires fresh { IsFresh (arc_value server.now) pass.old }
    requires none { workers.old.items ≡ [] }
    requires room { length doors.items ≤ vec_capacity workers.old }
    ensures fresh { IsFresh (arc_value server.now) pass.new }
    ensures workers { OnOk result (AreWorkers (arc_value server.now)
        (zip doors.items clocks.items) workers.new.items) }
    ensures count { OnOk result (length workers.new.items ≡ length doors.items) }
{
    let mut clocks = clocks.into_iter();
    let mut doors = doors.into_iter();
    'making: while let Some(worker) = next_worker(alloc, server, pass, &mut doors, &mut clocks)? {
        workers.push_reserved(worker);
    }
    Ok(())
}

/// A worker with the next door and the next clock, where there are any.
fn next_worker<D: Drop, C: Drop, P: Drop>(
    alloc: Global,
    server: &Arc<Server, Global>,
    pass: &mut Pass,
    doors: &mut IntoIter<D, Global>,
    clocks: &mut IntoIter<C, Global>,
) -> Result<Option<Work<D, C, P>>, NoMemory>
    requires fresh { IsFresh (arc_value server.now) pass.old }
    requires equal { length (into_iter_items doors.old) ≡ length (into_iter_items clocks.old) }
    ensures fresh { IsFresh (arc_value server.now) pass.new }
    ensures next { IfOk result (IsNextWorker (arc_value server.now) (into_iter_items doors.old) (into_iter_items clocks.old)
        (into_iter_items doors.new) (into_iter_items clocks.new)) }
{
    let Some(door) = doors.next() else {
        return Ok(None);
    };
    let Some(clock) = clocks.next() else {
        unreachable!();
    };
    Ok(Some(make_worker(alloc, server, pass, door, clock)?))
}

/// A worker with this door and this clock.
fn make_worker<D: Drop, C: Drop, P: Drop>(
    alloc: Global,
    server: &Arc<Server, Global>,
    pass: &mut Pass,
    door: D,
    clock: C,
) -> Result<Work<D, C, P>, NoMemory>
    requires fresh { IsFresh (arc_value server.now) pass.old }
    ensures fresh { IsFresh (arc_value server.now) pass.new }
    ensures worker { IfOk result (λ worker. IsWorker (arc_value server.now) (door, clock) worker) }
{
    let own = server.split(pass);
    Ok(Work::Worker {
        alloc,
        server: Arc::try_clone(server)?,
        pass: own,
        door,
        clock,
    })
}
