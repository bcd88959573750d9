//! Doors and clocks for so many workers, and a pace.
ghost use Rattle.std.specs.Prelude.{◌≡◌, ◌<◌, ◌+◌, false, length, vec_capacity, IfOk};
ghost use Rattle.std.specs.List.{All};

use crate::sleep_pace::SleepPace;
use crate::std_link::SystemClock;
use crate::tcp::TcpDoor;
use fs_ports::HeldDoor;
use std::alloc::{AllocError, Global};
use std::net::{Net, TcpListener, TcpStream};
use std::sync::Arc;
use std::sync::atomic::AtomicBool;

/// Why there are no doors.
#[derive(Clone, Copy)]
pub enum NoDoors {
    /// The system lets nobody listen at the port, or not so often.
    CannotListen,
    NoMemory,
}

/// So many doors of one port of 127.0.0.1. Their links hold back what is written until they are read.
pub fn make_doors<R: Net<Listener = TcpListener, Stream = TcpStream>>(
    rt: &R,
    alloc: Global,
    port: u16,
    workers: u16,
) -> Result<Vec<HeldDoor<TcpDoor>>, NoDoors>
    requires some { 0 < workers }
    ensures count { IfOk result (λ doors. length doors.items ≡ workers) }
    ensures idle { IfOk result (λ doors. All (λ door. door.out ≡ false) doors.items) }
{
    let first = TcpDoor::bind(rt, port).map_err(|_| NoDoors::CannotListen)?;
    let mut doors = other_doors(alloc, &first, workers)?;
    doors.push_reserved(hold_back(alloc, first)?);
    Ok(doors)
}

// The doors of a port but the first, with room for it.
fn other_doors(
    alloc: Global,
    first: &TcpDoor,
    workers: u16,
) -> Result<Vec<HeldDoor<TcpDoor>>, NoDoors>
    requires some { 0 < workers }
    ensures count { IfOk result (λ doors. length doors.items + 1 ≡ workers) }
    ensures room { IfOk result (λ doors. length doors.items < vec_capacity doors) }
    ensures idle { IfOk result (λ doors. All (λ door. door.out ≡ false) doors.items) }
{
    let Ok(mut doors) = Vec::with_capacity(alloc, usize::from(workers)) else {
        return Err(NoDoors::NoMemory);
    };
    for _ in 1..workers {
        let Ok(door) = first.another() else {
            return Err(NoDoors::CannotListen);
        };
        doors.push_reserved(hold_back(alloc, door)?);
    }
    Ok(doors)
}

// The door with room for what its links hold back.
fn hold_back(alloc: Global, door: TcpDoor) -> Result<HeldDoor<TcpDoor>, NoDoors>
    ensures { IfOk result (λ held. held ≡ door) }
{
    HeldDoor::new(alloc, door).map_err(|_| NoDoors::NoMemory)
}

/// So many clocks.
pub fn make_clocks<R: std::rt::Clock + Copy + Drop>(
    rt: &R,
    alloc: Global,
    workers: usize,
) -> Result<Vec<SystemClock<R>>, AllocError>
    ensures { IfOk result (λ clocks. length clocks.items ≡ workers) }
{
    let mut clocks = Vec::new(alloc);
    for _ in 0..workers {
        clocks.push(SystemClock { rt: *rt })?;
    }
    Ok(clocks)
}

/// A pace that nobody stops.
pub fn make_pace<R: std::rt::Clock + Copy + Drop>(
    rt: &R,
    alloc: Global,
) -> Result<SleepPace<R>, AllocError>
    ensures { IfOk result (λ pace. pace ≡ false) }
{
    Ok(SleepPace::new(*rt, Arc::new(alloc, AtomicBool::new(false))?))
}
