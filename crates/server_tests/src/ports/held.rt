//! The link and the door that hold back what is written: when it goes on, in how many writes, and what a failing one leaves.
ghost use Rattle.std.specs.Prelude.{◌≡◌, false, IfSome};

use super::*;
use fs_ports::{HELD_ROOM, HeldDoor, HeldLink};
use std::test::Fail;

// A link that holds back, over one that takes so many bytes at once, and whose listed writes fail.
fn held_of(alloc: Global, writes: &[u64], write_max: usize) -> Option<HeldLink<MemLink>> {
    let faults = Faults {
        reads: &[],
        writes,
        write_max,
    };
    HeldLink::over(alloc, link_of(alloc, &[b"in"], &faults)?).ok()
}

// Whether sixteen pieces go on at the read, in one write: a second one would fail.
fn is_one_write(link: &mut HeldLink<MemLink>) -> bool {
    for _ in 0..16 {
        if write_all(link, b"+PONG\r\n").is_err() {
            return false;
        }
    }
    let before = link.below().output().is_empty();
    before && link.read(&mut [0; 8]) == Ok(2) && link.below().output().len() == 112
}

// Whether what a failed write left goes on at the next call, and nothing twice.
fn goes_on(link: &mut HeldLink<MemLink>) -> bool {
    let put = write_all(link, b"abcdefgh").is_ok();
    let failed = link.read(&mut [0; 8]).is_err() && link.below().output() == b"abc".as_slice();
    put && failed && link.finish().is_ok() && link.below().output() == b"abcdefgh".as_slice()
}

// Whether a piece that is longer than the room goes to the link below, behind what is held, and its rest is held.
fn passes(link: &mut HeldLink<MemLink>, long: &[u8]) -> bool {
    let put = write_all(link, b"ab").is_ok() && write_all(link, long).is_ok();
    let most = link.below().output().len() == 20_002;
    put && most && link.finish().is_ok() && link.below().output().len() == 2 + long.len()
}

#[test]
fn what_is_held_goes_on_in_order(rt: HostRuntime) -> Result<(), Fail> {
    let alloc = rt.alloc();
    let long = vec![in alloc; 7u8; HELD_ROOM + 13_616]?;
    let one = held_of(alloc, &[2], 100_000).map(|mut link| is_one_write(&mut link));
    let two = held_of(alloc, &[2], 3).map(|mut link| goes_on(&mut link));
    let three = held_of(alloc, &[], 20_000).map(|mut link| passes(&mut link, long.as_slice()));
    assert!(rt; one == Some(true) && two == Some(true) && three == Some(true));
    Ok(())
}

// Whether the next link comes, holds a text, and goes back.
fn visit(door: &mut HeldDoor<MemDoor<MemLink>>, text: &[u8]) -> bool
    requires { door.old.at.out ≡ false }
    ensures { door.new.at.out ≡ false }
{
    let Ok(Some(mut link)) = door.accept() else {
        return false;
    };
    let held = link.write(text) == Ok(text.len()) && link.below().output().is_empty();
    door.hand_back(link);
    held
}

fn held_door(alloc: Global) -> Option<HeldDoor<MemDoor<MemLink>>>
    ensures { IfSome result (λ door. door.at.out ≡ false) }
{
    HeldDoor::new(alloc, door_of(alloc, &[b"a", b"b"], &[])?).ok()
}

fn come_and_go(mut door: HeldDoor<MemDoor<MemLink>>) -> bool
    requires { door.at.out ≡ false }
{
    let came = visit(&mut door, b"abc") && visit(&mut door, b"de");
    let none = matches!(door.accept(), Ok(None));
    let door = door.into_inner();
    let first = door
        .back()
        .first()
        .map(|link| link.output() == b"abc".as_slice());
    let last = door
        .back()
        .last()
        .map(|link| link.output() == b"de".as_slice());
    came && none && first == Some(true) && last == Some(true)
}

#[test]
fn a_held_door_hands_on_before_it_hands_back(rt: HostRuntime) {
    let ordered = match held_door(rt.alloc()) {
        Some(door) => come_and_go(door),
        None => false,
    };
    assert!(rt; ordered);
}
