//! Shows each port of the system once over the real thing, of which no clause speaks: that bytes come over a connection,
//! that a peer that is gone is a fault of its link and no more, that a thread does its job, and that the clock moves.
ghost use Rattle.std.specs.Prelude.{◌≡◌, false, IfSome};

use crate::ports::threads::Doubled;
use fs_ports::{Clock, Door, HeldDoor, HeldLink, Link, Pace, Spawner, write_all};
use std::alloc::Global;
use std::io::{Read, Write};
use std::marker::PhantomData;
use std::net::{Ipv4Addr, Net, TcpListener, TcpStream};
use std::sync::Arc;
use std::sync::atomic::{AtomicBool, Ordering};
use std::test::Fail;
use system_ports::{SleepPace, SystemClock, TcpDoor, TcpLink, ThreadSpawner, start_thread};

// Whether what the client sends comes over the link, and what the link writes comes to the client.
fn talk(link: &mut TcpLink, client: &mut TcpStream) -> bool {
    let mut request = [0; 4];
    let mut reply = [0; 4];
    matches!(client.write(b"ping"), Ok(4))
        && link.read(&mut request) == Ok(4)
        && write_all(link, &request).is_ok()
        && matches!(client.read(&mut reply), Ok(4))
        && reply == *b"ping"
}

// Whether one of so many writes fails.
fn fails_soon(link: &mut TcpLink) -> bool {
    for _ in 0..100_000u32 {
        if link.write(b"the other half").is_err() {
            return true;
        }
    }
    false
}

// Whether a client that is gone in the middle of a reply is a fault of a write, and then of a read
// or its end.
fn loses_its_peer(link: &mut TcpLink, client: TcpStream) -> bool {
    let begun = link.write(b"one half of a reply").is_ok();
    drop(client);
    begun && fails_soon(link) && link.read(&mut [0; 4]).unwrap_or(0) == 0
}

// Whether a client is answered, and what it sends behind that is left unread.
fn is_served(link: &mut TcpLink, client: &mut TcpStream) -> bool {
    talk(link, client) && client.write(b"unread").is_ok() && write_all(link, b"last").is_ok()
}

// Whether the client reads its last reply, and then the end.
fn reads_to_the_end(client: &mut TcpStream) -> bool {
    let mut reply = [0; 4];
    matches!(client.read(&mut reply), Ok(4))
        && reply == *b"last"
        && matches!(client.read(&mut reply), Ok(0))
}

fn connect<R: Net<Listener = TcpListener, Stream = TcpStream>>(
    rt: &R,
    door: &TcpDoor,
) -> Option<TcpStream> {
    let port = door.port().unwrap_or(0);
    TcpStream::connect(rt, (Ipv4Addr::LOCALHOST, port)).ok()
}

// Whether the door takes this client, which then vanishes.
fn outlives(door: &mut TcpDoor, client: TcpStream) -> bool
    requires { door.old.out ≡ false }
    ensures { door.new.out ≡ false }
{
    let Ok(Some(mut link)) = door.accept() else {
        return false;
    };
    let lost = loses_its_peer(&mut link, client);
    door.hand_back(link);
    lost
}

// Whether the door takes this client, and answers it to the end.
fn answers(door: &mut TcpDoor, client: &mut TcpStream) -> bool
    requires { door.old.out ≡ false }
    ensures { door.new.out ≡ false }
{
    let Ok(Some(mut link)) = door.accept() else {
        return false;
    };
    let served = is_served(&mut link, client);
    door.hand_back(link);
    served && reads_to_the_end(client)
}

// Whether a client that vanishes, and then another one, come to this door.
fn is_visited<R: Net<Listener = TcpListener, Stream = TcpStream>>(
    rt: &R,
    door: &mut TcpDoor,
) -> bool
    requires { door.old.out ≡ false }
    ensures { door.new.out ≡ false }
{
    let Some(first) = connect(rt, door) else {
        return false;
    };
    if !outlives(door, first) {
        return false;
    }
    let Some(mut second) = connect(rt, door) else {
        return false;
    };
    answers(door, &mut second)
}

fn are_of_one_port(first: &TcpDoor, second: &TcpDoor) -> bool {
    let port = first.port().unwrap_or(0);
    port > 0 && second.port().unwrap_or(0) == port
}

// Whether clients come to each of two doors of one port.
fn are_visited<R: Net<Listener = TcpListener, Stream = TcpStream>>(
    rt: &R,
    mut first: TcpDoor,
) -> bool
    requires { first.out ≡ false }
{
    let Ok(mut second) = first.another() else {
        return false;
    };
    are_of_one_port(&first, &second) && is_visited(rt, &mut first) && is_visited(rt, &mut second)
}

#[test]
fn doors_of_one_port_outlive_their_peers(rt: HostRuntime) {
    match TcpDoor::bind(&rt, 0) {
        Ok(door) => assert!(rt; are_visited(&rt, door)),
        Err(_) => assert!(rt; false),
    }
}

// Whether what a held link was given comes to the client once the link is read.
fn hands_on(link: &mut HeldLink<TcpLink>, client: &mut TcpStream) -> bool {
    let mut reply = [0; 4];
    write_all(link, b"ping").is_ok()
        && matches!(client.write(b"more"), Ok(4))
        && link.read(&mut [0; 4]) == Ok(4)
        && matches!(client.read(&mut reply), Ok(4))
        && reply == *b"ping"
}

// Whether a client that is gone in the middle of a reply is a failed write, a failed read or the end.
fn ends_soon(link: &mut HeldLink<TcpLink>) -> bool {
    for _ in 0..100_000u32 {
        if write_all(link, b"the other half").is_err() {
            return true;
        }
        if link.read(&mut [0; 4]).unwrap_or(0) == 0 {
            return true;
        }
    }
    false
}

// Whether a client of a held door is answered, and no more than its link ends where it vanishes.
fn is_held_back(door: &mut HeldDoor<TcpDoor>, mut client: TcpStream) -> bool
    requires { door.old.out ≡ false }
{
    let Ok(Some(mut link)) = door.accept() else {
        return false;
    };
    let answered = hands_on(&mut link, &mut client);
    drop(client);
    let ended = ends_soon(&mut link);
    door.hand_back(link);
    answered && ended
}

fn held_door(alloc: Global, door: TcpDoor) -> Option<HeldDoor<TcpDoor>>
    requires { door.out ≡ false }
    ensures { IfSome result (λ held. held.out ≡ false) }
{
    HeldDoor::new(alloc, door).ok()
}

fn holds_back<R: Net<Listener = TcpListener, Stream = TcpStream>>(
    rt: &R,
    alloc: Global,
    door: TcpDoor,
) -> bool
    requires { door.out ≡ false }
{
    let client = connect(rt, &door);
    match (client, held_door(alloc, door)) {
        (Some(client), Some(mut held)) => is_held_back(&mut held, client),
        _ => false,
    }
}

#[test]
fn a_held_link_hands_on_before_it_reads(rt: HostRuntime) {
    match TcpDoor::bind(&rt, 0) {
        Ok(door) => assert!(rt; holds_back(&rt, rt.alloc(), door)),
        Err(_) => assert!(rt; false),
    }
}

#[test]
fn a_thread_does_its_job(rt: HostRuntime) {
    let own = rt;
    let mut spawner = ThreadSpawner {
        start: |job: Doubled| start_thread(&own, job),
        faults: 0,
        of: PhantomData,
    };
    match spawner.start(Doubled(4)) {
        Ok(running) => assert!(rt; spawner.wait(&rt, running) == 8),
        Err(_) => assert!(rt; false),
    }
}

// Whether the pace goes on until its flag is set.
fn stops_at_its_flag<R: std::rt::Clock + Drop>(mut pace: SleepPace<R>, flag: &AtomicBool) -> bool
    requires { pace ≡ false }
{
    if !pace.between() {
        return false;
    }
    flag.store(true, Ordering::SeqCst);
    !pace.between()
}

#[test]
fn a_sleeping_pace_stops_at_its_flag(rt: HostRuntime) -> Result<(), Fail> {
    let flag = Arc::new(rt.alloc(), AtomicBool::new(false))?;
    let stop = Arc::try_clone(&flag)?;
    assert!(rt; stops_at_its_flag(SleepPace::new(rt, stop), &flag));
    Ok(())
}

/// The most often that a clock is asked until it moves.
const MOST_ASKED: u32 = 100_000_000;

// Whether the clock does not fall, and gives a later moment where it is asked for long enough.
fn moves<C: Clock>(clock: &mut C) -> bool {
    let first = clock.now();
    let mut last = first;
    for _ in 0..MOST_ASKED {
        let now = clock.now();
        if now < last {
            return false;
        }
        last = now;
        if first < last {
            return true;
        }
    }
    false
}

#[test]
fn the_clock_moves_and_does_not_fall(rt: HostRuntime) {
    let mut clock = SystemClock { rt };
    assert!(rt; moves(&mut clock));
}
