//! Jobs are started one after another, until a start is refused; the collector is the last.
ghost use Rattle.std.specs.Prelude.{◌≡◌, ◌≤◌, true, false, [], ◌++◌, List, MatchOption, map, length, vec_capacity};
ghost use Rattle.fs_ports.specs.Causes.{Rose};
ghost use Rattle.worker_pool.specs.Jobs.{Each};
ghost use Rattle.worker_pool.specs.Works.{IsReady};
ghost use Rattle.worker_pool.specs.declared.work.Work.{Work};

use crate::work::Work;
use fs_ports::{Clock, Door, Failed, Pace, Spawner};

/// Starts the workers until a start is refused, and says whether all were started.
///
/// It speaks of these jobs and not of any: what crosses threads is shown of them where their types are known.
pub(crate) fn start_all<
    D: Door + Send + Drop + 'static,
    S: Spawner<Work<D, C, P>>,
    C: Clock + Send + Drop + 'static,
    P: Pace + Send + Drop + 'static,
>(spawner: &mut S, jobs: Vec<Work<D, C, P>>, room: Vec<S::Running>) -> (Vec<S::Running>, bool)
    requires able { S.able spawner.old }
    requires ready { Each (IsReady D.at D.Link.Link C.Clock P.Pace) jobs.items }
    requires room { (room.items ≡ []) × (length jobs.items ≤ vec_capacity room) }
    ensures able { S.able spawner.new }
    ensures sound { Each S.sound result.0.items }
    ensures jobs { (rest : List (Work D C P)) × (jobs.items ≡ map S.job result.0.items ++ rest)
        × (result.1 ≡ true → rest ≡ []) }
    ensures later { S.faults spawner.old ≤ S.faults spawner.new }
    ensures refused { result.1 ≡ false → Rose (S.faults spawner.old) (S.faults spawner.new) }
{
    let mut running = room;
    let mut rest = jobs.into_iter();
    while let Some(job) = rest.next() {
        match spawner.start(job) {
            Ok(started) => running.push_reserved(started),
            Err(Failed) => return (running, false),
        }
    }
    (running, true)
}

/// Starts one job more, if all before it were started. Else, and where its start is refused, nothing more runs.
pub(crate) fn start_last<
    D: Door + Send + Drop + 'static,
    S: Spawner<Work<D, C, P>>,
    C: Clock + Send + Drop + 'static,
    P: Pace + Send + Drop + 'static,
>(spawner: &mut S, all: bool, job: Work<D, C, P>) -> Option<S::Running>
    requires able { S.able spawner.old }
    requires ready { IsReady D.at D.Link.Link C.Clock P.Pace job }
    ensures able { S.able spawner.new }
    ensures started { MatchOption result (all ≡ true → Rose (S.faults spawner.old) (S.faults spawner.new))
        (λ running. (S.job running ≡ job) × S.sound running × (all ≡ true)) }
    ensures later { S.faults spawner.old ≤ S.faults spawner.new }
{
    if !all {
        return None;
    }
    match spawner.start(job) {
        Ok(running) => Some(running),
        Err(Failed) => None,
    }
}
