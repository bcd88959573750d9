//! A worker: it serves the links of a door one after another, as one caller.
ghost use Rattle.std.specs.Prelude.{◌≡◌, ◌≤◌, Ok, Some, true, false, IfOk, IfErr};
ghost use Rattle.fs_ports.specs.Doors.{Accepts, handed_back};
ghost use Rattle.ft_server.specs.Passes.{IsOf};
ghost use Rattle.worker_pool.specs.Visits.{AllMayBeRead, Connects, GivesNone, Visit, WorkerDone};
ghost use Rattle.worker_pool.specs.Works.{IsWorkerDone};

use crate::work::Worked;
use fs_ports::{Clock, Door, Failed};
use ft_server::{Pass, Server, serve_connection};
use std::alloc::Global;
use std::sync::Wait;

/// Serves the links of a door until it gives none or fails. Each goes back to the door.
pub(crate) fn serve_door<D: Door, C: Clock, P, R: Wait>(
    rt: &R,
    alloc: Global,
    server: &Server,
    pass: Pass,
    door: D,
    clock: C,
) -> Worked<D, C, P>
    requires of { IsOf server.now pass }
    requires idle { (D.at door).out ≡ false }
    requires prompt { AllMayBeRead D.Link.Link C.Clock }
    ensures { IsWorkerDone D.at D.Link.Link C.Clock server.now pass door clock result }
{
    let mut door = door;
    let mut clock = clock;
    let (pass, failed) = serve_links(rt, alloc, server, pass, &mut door, &mut clock);
    Worked::Worker {
        pass,
        door,
        clock,
        failed,
    }
}

/// Serves links until the door gives none or fails, and answers whether it failed.
fn serve_links<D: Door, C: Clock, R: Wait>(
    rt: &R,
    alloc: Global,
    server: &Server,
    pass: Pass,
    door: &mut D,
    clock: &mut C,
) -> (Pass, bool)
    requires of { IsOf server.now pass }
    requires idle { (D.at door.old).out ≡ false }
    requires prompt { AllMayBeRead D.Link.Link C.Clock }
    ensures { WorkerDone D.Link.Link C.Clock server.now D.at pass door.old clock.old result.0 door.new clock.new result.1 }
{
    let mut pass = pass;
    for _ in rt.forever() {
        match next_link(door) {
            Ok(link) => pass = serve_link(rt, alloc, server, pass, door, clock, link),
            Err(failed) => return (pass, failed),
        }
    }
    unreachable!()
}

/// The next link of a door, or whether the door failed where it gives none.
fn next_link<D: Door>(door: &mut D) -> Result<D::Link, bool>
    requires idle { (D.at door.old).out ≡ false }
    ensures link { IfOk result (λ link. Accepts {E = Failed} (D.at door.old) (D.at door.new) (Ok (Some link))) }
    ensures none { IfErr result (λ failed. GivesNone (D.at door.old) (D.at door.new) failed) }
    ensures later { (D.at door.old).faults ≤ (D.at door.new).faults }
{
    match door.accept() {
        Ok(Some(link)) => Ok(link),
        Ok(None) => Err(false),
        Err(Failed) => Err(true),
    }
}

/// Serves one connection, and hands its link back to its door.
fn serve_link<D: Door, C: Clock, R: Wait>(
    rt: &R,
    alloc: Global,
    server: &Server,
    pass: Pass,
    door: &mut D,
    clock: &mut C,
    link: D::Link,
) -> Pass
    requires of { IsOf server.now pass }
    requires out { (D.at door.old).out ≡ true }
    requires prompt { AllMayBeRead D.Link.Link C.Clock }
    ensures idle { (D.at door.new).out ≡ false }
    ensures visit { (visit : Visit D.Link) × (visit.link ≡ link)
        × Connects D.Link.Link C.Clock server.now pass result clock.old clock.new visit
        × (D.at door.new ≡ handed_back (D.at door.old) visit.back) }
{
    let mut link = link;
    let (pass, _) = serve_connection(rt, alloc, server, pass, &mut link, clock);
    door.hand_back(link);
    pass
}
