//! How a connection ends, with the place of a fault, the words of the command line that are refused, and the statuses of
//! exits.
use crate::links::{HSET, NONE, QUIT, TOO_SHORT, link_of, run_words, serve};
use ft_server::{End, Exit};
use resp_wire::WireFault;
use std::alloc::Global;
use std::random::RandomSource;
use std::sync::Wait;

/// Whether a link that gives the texts ends so.
fn ends<R: RandomSource + Wait>(rt: &R, alloc: Global, texts: &[&[u8]], end: End) -> bool {
    match link_of(alloc, texts, &NONE) {
        Some(mut link) => serve(rt, alloc, &mut link) == Some(end),
        None => false,
    }
}

/// What a link gives, and how its connection ends.
const ENDS: &[(&[&[u8]], End)] = &[
    (&[HSET], End::Closed),
    (&[b"*1\r\n$4\r\nPI"], End::CutShort { left: 10 }),
    (&[b"*65536\r\n"], End::CutShort { left: 8 }),
    (&[HSET, b"*"], End::CutShort { left: 1 }),
    (&[QUIT, b"x"], End::Quit),
];

/// What a link gives, and the place of its fault, and the fault.
const FAULTS: &[(&[&[u8]], u64, WireFault)] = &[
    (&[b"*1\r\n$1048577\r\n"], 4, WireFault::BulkLength),
    (&[b"*1\r\n$-2\r\n"], 4, WireFault::BulkLength),
    (&[b"*70000\r\n"], 0, WireFault::MultiLength),
    (&[b"*1\r\n+"], 4, WireFault::NoDollar { got: b'+' }),
    (&[HSET, b"x"], HSET.len() as u64, WireFault::MultiLength),
];

#[test]
fn how_a_connection_ends(rt: HostRuntime) {
    for (texts, end) in ENDS {
        assert!(rt; ends(&rt, rt.alloc(), texts, *end));
    }
    for (texts, at, kind) in FAULTS {
        let end = End::Protocol {
            at: *at,
            kind: *kind,
        };
        assert!(rt; ends(&rt, rt.alloc(), texts, end));
    }
}

// A word of 1 MiB with its length.
fn long_word(alloc: Global) -> Vec<u8> {
    let mut word = Vec::new(alloc);
    let _ = word.extend_from_slice(b"$1048576\r\n");
    for _ in 0..1_048_576 {
        let _ = word.push(b'x');
    }
    let _ = word.extend_from_slice(b"\r\n");
    word
}

// Whether a command of 16 such words is refused at its seventeenth.
fn is_refused_past<R: RandomSource + Wait>(rt: &R, alloc: Global, word: &[u8]) -> bool {
    let texts = [
        b"*17\r\n", word, word, word, word, word, word, word, word, word, word, word, word, word,
        word, word, word, b"$1\r\n",
    ];
    let end = End::Protocol {
        at: 16_777_413,
        kind: WireFault::BulkLength,
    };
    ends(rt, alloc, &texts, end)
}

#[test]
fn a_command_has_at_most_16_mib(rt: HostRuntime) {
    assert!(rt; is_refused_past(&rt, rt.alloc(), long_word(rt.alloc()).as_slice()));
}

/// Whether the program refuses these words, and writes nothing to its link.
fn is_refused<R: RandomSource + Wait>(rt: &R, alloc: Global, words: &[&str]) -> bool {
    match link_of(alloc, &[TOO_SHORT], &NONE) {
        Some(mut link) => {
            let ended = run_words(rt, alloc, words, &mut link);
            (ended == Some(Exit::Usage)) & link.output().is_empty()
        }
        None => false,
    }
}

/// Words that do not ask for a script.
const REFUSED: &[&[&str]] = &[
    &[],
    &["serve"],
    &["--help"],
    &["SCRIPT"],
    &["script", "x"],
    // Words of another call, and numbers that are none of it.
    &["serve", "7777", "4"],
    &["serve", "0", "4"],
    &["serve", "7777", "65"],
    &["serve", "07777", "4"],
    &["serve", "+7777", "4"],
    &["serve", "7777", "4", "x"],
    &["serve", "65536", "4"],
];

#[test]
fn other_words_are_refused(rt: HostRuntime) {
    for words in REFUSED {
        assert!(rt; is_refused(&rt, rt.alloc(), words));
    }
}

#[test]
fn an_exit_has_its_status(rt: HostRuntime) {
    assert!(rt;
        Exit::Usage.status() == 2 && Exit::WriteFault.status() == 4 && Exit::Protocol.status() == 1
    );
}
