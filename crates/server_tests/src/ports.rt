//! The fakes of links, clocks, doors, paces and spawners. Catches a definition that says another thing than a test's author
//! would expect of them: calls numbered from 0, an empty piece taken for the end, a cut piece that loses its rest, a moment
//! skipped. The check would pass it, since the code would be wrong in the same way. It also shows that each call succeeds
//! where memory is ample.
mod doors;
mod held;
pub mod threads;

use crate::links::{Faults, calls_of, clock_of, door_of, link_of};
use fs_ports::{
    Clock, CountedPace, Door, Failed, HeldPace, Job, Link, MemDoor, MemLink, MemSpawner, Pace,
    Spawner, write_all,
};
use std::alloc::Global;

// Whether a read into so many bytes, at most three, gives these; None says that it fails.
fn gives(link: &mut MemLink, room: usize, want: Option<&str>) -> bool {
    let mut buf = [0; 3];
    let read = link.read(&mut buf[..room.min(3)]);
    match want {
        Some(text) => read == Ok(text.len()) && buf.starts_with(text.as_bytes()),
        None => read.is_err(),
    }
}

/// The pieces of a link, its reads that fail, and for each read the room of its buffer and what it gives.
type Reads = (
    &'static [&'static [u8]],
    &'static [u64],
    &'static [(usize, Option<&'static str>)],
);

const READS: &[Reads] = &[
    // A read gives a piece, or as much of it as there is room for; none that is empty.
    (
        &[b"", b"abcde", b"", b"", b"fg", b""],
        &[],
        &[
            (3, Some("abc")),
            (3, Some("de")),
            (3, Some("fg")),
            (3, Some("")),
            (3, Some("")),
        ],
    ),
    // A read that fails takes nothing.
    (
        &[b"ab", b"cd"],
        &[1, 4, 3],
        &[
            (3, None),
            (3, Some("ab")),
            (3, None),
            (3, None),
            (3, Some("cd")),
            (3, Some("")),
        ],
    ),
    // Nor does one without room.
    (&[b"", b"abc"], &[], &[(0, Some("")), (3, Some("abc"))]),
];

// Whether a link is read so whose second write would fail.
fn is_read(alloc: Global, row: &Reads) -> bool {
    let (pieces, fail_reads, wants) = *row;
    let faults = Faults {
        reads: fail_reads,
        writes: &[2],
        write_max: 9,
    };
    let Some(mut link) = link_of(alloc, pieces, &faults) else {
        return false;
    };
    for (room, want) in wants {
        if !gives(&mut link, *room, *want) {
            return false;
        }
    }
    true
}

#[test]
fn reads_give_a_piece_each_or_fail(rt: HostRuntime) {
    for row in READS {
        assert!(rt; is_read(rt.alloc(), row));
    }
}

const PIECE: &str = "abcdefgh";

/// The most bytes at once, the write that fails (0: none), the piece, whether all of it is written, and the front that is.
type Write = (usize, u64, &'static str, bool, &'static str);

const WRITES: &[Write] = &[
    // Three writes take it all; what comes before a write that fails is written, and a fourth write never comes.
    (3, 0, PIECE, true, PIECE),
    (3, 2, PIECE, false, "abc"),
    (3, 1, PIECE, false, ""),
    (3, 4, PIECE, true, PIECE),
    // One write takes it all, and a link that takes nothing ends it.
    (8, 0, PIECE, true, PIECE),
    (0, 0, PIECE, false, ""),
    (0, 0, "", true, ""),
];

// Whether a piece is written so to a link whose first read would fail.
fn is_written(alloc: Global, row: &Write) -> bool {
    let (write_max, fail_write, piece, succeeds, front) = *row;
    let faults = Faults {
        reads: &[1],
        writes: &[fail_write],
        write_max,
    };
    match link_of(alloc, &[], &faults) {
        Some(mut link) => {
            let done = write_all(&mut link, piece.as_bytes());
            done.is_ok() == succeeds && link.output() == front.as_bytes()
        }
        None => false,
    }
}

#[test]
fn write_all_goes_on_until_a_write_fails(rt: HostRuntime) {
    for row in WRITES {
        assert!(rt; is_written(rt.alloc(), row));
    }
}

// Whether the write behind one that failed succeeds, and what is read is none of what was written.
fn writes_again(link: &mut MemLink) -> bool {
    let first = write_all(link, b"abcde");
    let second = write_all(link, b"xy");
    let written = first.is_err() && second.is_ok() && link.output() == b"abcxy".as_slice();
    written && gives(link, 3, Some("in"))
}

#[test]
fn a_failed_write_is_the_only_one(rt: HostRuntime) {
    let faults = Faults {
        reads: &[],
        writes: &[2],
        write_max: 3,
    };
    let written = match link_of(rt.alloc(), &[b"in"], &faults) {
        Some(mut link) => writes_again(&mut link),
        None => false,
    };
    assert!(rt; written);
}

#[test]
fn clock_stays_at_its_last_moment(rt: HostRuntime) {
    let stays = match clock_of(rt.alloc(), &[5, 7]) {
        Some(mut clock) => {
            clock.now() == 5 && clock.now() == 7 && clock.now() == 7 && clock.now() == 7
        }
        None => false,
    };
    assert!(rt; stays);
}
