//! What a thread does, and what it gives back.
use crate::rounds::collect;
use crate::worker::serve_door;
use fs_ports::{Clock, Door, Job, Pace};
use ft_server::{Pass, Server};
use std::alloc::Global;
use std::sync::atomic::AtomicBool;
use std::sync::{Arc, Wait};
use std::thread::Threads;

/// A job of `serve`.
pub enum Work<D, C, P> {
    /// Serves the links of a door.
    Worker {
        alloc: Global,
        server: Arc<Server, Global>,
        pass: Pass,
        door: D,
        clock: C,
    },
    /// Collects what is dead, in rounds.
    Collector {
        alloc: Global,
        server: Arc<Server, Global>,
        pass: Pass,
        pace: P,
        /// Set where no further round is to begin.
        stop: Arc<AtomicBool, Global>,
        /// For the replies that it asks for.
        room: Vec<u8>,
    },
}

// Written out, the drops of all that it holds are proved here alone, and not in each function that holds one.
impl<D: Drop, C: Drop, P: Drop> Drop for Work<D, C, P> {
    fn drop(self) {
        match self {
            Work::Worker {
                alloc: _,
                server,
                pass,
                door,
                clock,
            } => {
                drop(server);
                drop(pass);
                drop(door);
                drop(clock);
            }
            Work::Collector {
                alloc: _,
                server,
                pass,
                pace,
                stop,
                room,
            } => {
                drop(server);
                drop(pass);
                drop(pace);
                drop(stop);
                drop(room);
            }
        }
    }
}

/// What a job gives back.
#[derive(Drop)]
pub enum Worked<D, C, P> {
    Worker {
        pass: Pass,
        door: D,
        clock: C,
        /// Whether the door failed. Else it has ended.
        failed: bool,
    },
    Collector {
        pass: Pass,
        pace: P,
    },
}

impl<
    D: Door + Send + Drop + 'static,
    C: Clock + Send + Drop + 'static,
    P: Pace + Send + Drop + 'static,
> Job for Work<D, C, P> {
    ghost use Rattle.worker_pool.specs.Works.{IsReady, IsDone};

    type Out = Worked<D, C, P>;

    ghost ready = { IsReady D.at D.Link.Link C.Clock P.Pace };

    ghost done = { IsDone D.at D.Link.Link C.Clock P.Pace };

    fn work<R: Threads + Wait + Sync>(self, rt: &R) -> Worked<D, C, P> {
        match self {
            Work::Worker {
                alloc,
                server,
                pass,
                door,
                clock,
            } => serve_door(rt, alloc, &server, pass, door, clock),
            Work::Collector {
                alloc,
                server,
                pass,
                pace,
                stop,
                room,
            } => collect(rt, alloc, &server, pass, pace, &stop, room),
        }
    }
}
