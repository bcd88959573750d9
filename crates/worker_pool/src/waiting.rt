//! Jobs that run are waited for in the order of their starts.
ghost use Rattle.std.specs.Prelude.{◌≡◌, ◌<◌, ◌∷◌, ◌++◌, [], IfSome, MatchOption, map, length, vec_capacity};
ghost use Rattle.worker_pool.specs.Jobs.{Each, Handed};
ghost use Rattle.worker_pool.specs.Works.{IsDone};
ghost use Rattle.worker_pool.specs.declared.work.Worked.{Worked};

use crate::work::{Work, Worked};
use fs_ports::{Clock, Door, Pace, Spawner};
use std::sync::Wait;
use std::thread::Threads;

/// Waits for all that run, and hands back what they give, with room for one more.
pub(crate) fn wait_all<
    D: Door + Send + Drop + 'static,
    S: Spawner<Work<D, C, P>>,
    C: Clock + Send + Drop + 'static,
    P: Pace + Send + Drop + 'static,
    R: Threads + Wait + Sync,
>(
    rt: &R,
    spawner: &mut S,
    running: Vec<S::Running>,
    room: Vec<Worked<D, C, P>>,
) -> Vec<Worked<D, C, P>>
    requires able { S.able spawner.old }
    requires sound { Each S.sound running.items }
    requires room { (room.items ≡ []) × (length running.items < vec_capacity room) }
    ensures able { S.able spawner.new }
    ensures done { Handed (IsDone D.at D.Link.Link C.Clock P.Pace) (map S.job running.items) result.items }
    ensures count { length result.items ≡ length running.items }
    ensures room { length result.items < vec_capacity result }
    ensures faults { S.faults spawner.new ≡ S.faults spawner.old }
{
    let mut works = room;
    let mut rest = running.into_iter();
    while let Some(one) = rest.next() {
        works.push_reserved(spawner.wait(rt, one));
    }
    works
}

/// Waits for the last job, if it runs, and adds what it gives.
pub(crate) fn wait_last<
    D: Door + Send + Drop + 'static,
    S: Spawner<Work<D, C, P>>,
    C: Clock + Send + Drop + 'static,
    P: Pace + Send + Drop + 'static,
    R: Threads + Wait + Sync,
>(
    rt: &R,
    spawner: &mut S,
    last: Option<S::Running>,
    mut works: Vec<Worked<D, C, P>>,
) -> Vec<Worked<D, C, P>>
    requires able { S.able spawner.old }
    requires sound { IfSome last S.sound }
    requires room { length works.items < vec_capacity works }
    ensures done { MatchOption last (result.items ≡ works.items)
        (λ running. (work : Worked D C P) × (result.items ≡ works.items ++ work ∷ [])
        × IsDone D.at D.Link.Link C.Clock P.Pace (S.job running) work) }
    ensures faults { S.faults spawner.new ≡ S.faults spawner.old }
{
    match last {
        Some(running) => {
            works.push_reserved(spawner.wait(rt, running));
            works
        }
        None => works,
    }
}
