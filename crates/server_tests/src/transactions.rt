//! Transactions as another caller sees them, and at the last event: a connection that ends before EXEC leaves nothing, and EXEC
//! leaves all that waited.
ghost use Rattle.std.specs.Prelude.{◌≡◌, ◌≤◌, ◌^◌, IfSome};
ghost use Rattle.ft_server.specs.Passes.{IsOf};

use crate::links::{NONE, link_of, serve_as, server_of};
use crate::passes::{NOW, ask_at, new_caller};
use ft_engine::Engine;
use ft_server::{End, Pass, Server};
use std::alloc::Global;
use std::hash::RandomState;
use std::random::RandomSource;
use std::sync::Wait;

const MULTI: &[u8] = b"*1\r\n$5\r\nMULTI\r\n";

const SET_A: &[u8] = b"*4\r\n$4\r\nHSET\r\n$1\r\na\r\n$1\r\nt\r\n$1\r\nx\r\n";

const EXEC: &[u8] = b"*1\r\n$4\r\nEXEC\r\n";

/// What another caller asks once the connection has ended, and what it is answered where nothing was executed.
const LOOKS: &[u8] = b"HGET|a|t";

const NIL: &[u8] = b"$-1\r\n";

/// Whether a connection is answered so, and another caller then finds this.
fn is_found<R: RandomSource + Wait>(
    rt: &R,
    alloc: Global,
    texts: &[&[u8]],
    want: &[u8],
    found: &[u8],
) -> Option<bool> {
    let (server, mut pass) = server_of(rt, alloc)?;
    let other = server.split(&mut pass);
    let mut caller = new_caller(alloc)?;
    let mut link = link_of(alloc, texts, &NONE)?;
    let _ = serve_as(rt, alloc, &server, pass, &mut link);
    drop(ask_at(rt, &server, other, &mut caller, NOW, LOOKS, found));
    Some((link.output() == want) & (caller.others == 0))
}

#[test]
fn another_caller_finds_what_a_block_wrote(rt: HostRuntime) {
    let want = b"+OK\r\n+QUEUED\r\n*1\r\n:1\r\n";
    assert!(rt;
        is_found(&rt, rt.alloc(), &[MULTI, SET_A, EXEC], want, b"$1\r\nx\r\n") == Some(true)
    );
}

/// What a link gives behind a command that waits, and all that is written. None of it is executed.
const ENDED: &[(&[u8], &[u8])] = &[
    (b"", b"+OK\r\n+QUEUED\r\n"),
    (b"*1\r\n$4\r\nEXE", b"+OK\r\n+QUEUED\r\n"),
    (
        b"*1\r\n$4\r\nQUIT\r\n*1\r\n$4\r\nEXEC\r\n",
        b"+OK\r\n+QUEUED\r\n+OK\r\n",
    ),
    (b"*1\r\n$7\r\nDISCARD\r\n", b"+OK\r\n+QUEUED\r\n+OK\r\n"),
    (
        b"x",
        b"+OK\r\n+QUEUED\r\n-ERR Protocol error: invalid multibulk length\r\n",
    ),
];

#[test]
fn what_waits_is_not_executed_where_its_connection_ends(rt: HostRuntime) {
    for (text, want) in ENDED {
        assert!(rt; is_found(&rt, rt.alloc(), &[MULTI, SET_A, text], want, NIL) == Some(true));
    }
}

/// The number at which no event can begin.
const LAST: u64 = 4_611_686_018_427_387_904;

/// A server whose first event has this number, and its first pass.
fn server_at<R: RandomSource>(rt: &R, alloc: Global, first: u64) -> Option<(Server, Pass)>
    requires least { 1 ≤ first }
    requires most { first ≤ 2 ^ 62 }
    ensures { IfSome result (λ made. IsOf made.0 made.1) }
{
    let hashing = RandomState::new(rt).ok()?;
    let engine = Engine::open_at(alloc, hashing, first).ok()?;
    Server::open(alloc, engine).ok()
}

/// How a connection of these texts ends at this number, and whether this is written.
fn is_served_at<R: RandomSource + Wait>(
    rt: &R,
    alloc: Global,
    first: u64,
    texts: &[&[u8]],
    want: &[u8],
) -> bool
    requires least { 1 ≤ first }
    requires most { first ≤ 2 ^ 62 }
{
    let Some((server, pass)) = server_at(rt, alloc, first) else {
        return false;
    };
    match link_of(alloc, texts, &NONE) {
        Some(mut link) => {
            let ended = serve_as(rt, alloc, &server, pass, &mut link);
            (ended == Some(End::Closed)) & (link.output() == want)
        }
        None => false,
    }
}

const PING: &[u8] = b"*1\r\n$4\r\nPING\r\n";

// MULTI, EXEC and what waits are no events: a session goes on at the last number, and each command of its block is refused. So
// are those of a block that come to that number.
#[test]
fn a_block_at_the_last_event_is_refused_line_by_line(rt: HostRuntime) {
    let at_last = b"+OK\r\n+QUEUED\r\n*1\r\n-ERR last event reached\r\n";
    assert!(rt; is_served_at(&rt, rt.alloc(), LAST, &[MULTI, PING, EXEC], at_last));
    let past_last =
        b"+OK\r\n+QUEUED\r\n+QUEUED\r\n+QUEUED\r\n*3\r\n+PONG\r\n-ERR last event reached\r\n-ERR last event reached\r\n";
    let texts = [MULTI, PING, SET_A, PING, EXEC];
    assert!(rt; is_served_at(&rt, rt.alloc(), LAST - 1, &texts, past_last));
}
