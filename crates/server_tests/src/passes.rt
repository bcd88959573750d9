//! Callers of one server: what one writes or opens another finds, also where the first could not read its reply, and also
//! from another thread.
ghost use Rattle.std.specs.Prelude.{◌≤◌, vec_capacity};
ghost use Rattle.ft_server.specs.Passes.{IsOf};

use crate::links::{Faults, NONE, link_of, serve_as, server_of};
use fs_ports::MemLink;
use ft_base::{Span, Words};
use ft_server::{End, Pass, Server, call};
use row_text::{is_small, part};
use std::alloc::Global;
use std::random::RandomSource;
use std::sync::Wait;
use std::thread::{Threads, join};

const HSET: &[u8] = b"*4\r\n$4\r\nHSET\r\n$1\r\nd\r\n$1\r\nt\r\n$1\r\nx\r\n";

const HGET: &[u8] = b"*3\r\n$4\r\nHGET\r\n$1\r\nd\r\n$1\r\nt\r\n";

/// Whether a link that gives one text is served to this end as this caller, and took these bytes.
fn is_served_as<R: Wait>(
    rt: &R,
    alloc: Global,
    server: &Server,
    pass: Pass,
    text: &[u8],
    faults: &Faults<'_>,
    want: &[u8],
    end: End,
) -> bool
    requires { IsOf server.now pass }
{
    match link_of(alloc, &[text], faults) {
        Some(mut link) => ends_as(rt, alloc, server, pass, &mut link, want, end),
        None => false,
    }
}

/// Whether a link is served to this end as this caller, and took these bytes.
fn ends_as<R: Wait>(
    rt: &R,
    alloc: Global,
    server: &Server,
    pass: Pass,
    link: &mut MemLink,
    want: &[u8],
    end: End,
) -> bool
    requires { IsOf server.now pass }
{
    let ended = serve_as(rt, alloc, server, pass, link);
    (ended == Some(end)) & (link.output() == want)
}

/// A link that takes three bytes of a reply, and no more.
const CUT: Faults<'static> = Faults {
    reads: &[],
    writes: &[2],
    write_max: 3,
};

/// Whether a command whose reply was cut was executed, as another caller sees.
fn is_kept<R: RandomSource + Wait>(rt: &R, alloc: Global) -> bool {
    let Some((server, mut pass)) = server_of(rt, alloc) else {
        return false;
    };
    let other = server.split(&mut pass);
    let cut = is_served_as(
        rt,
        alloc,
        &server,
        pass,
        HSET,
        &CUT,
        b":1\r",
        End::WriteFault,
    );
    let found = is_served_as(
        rt,
        alloc,
        &server,
        other,
        HGET,
        &NONE,
        b"$1\r\nx\r\n",
        End::Closed,
    );
    cut & found
}

#[test]
fn a_cut_reply_is_of_a_command_that_counts(rt: HostRuntime) {
    assert!(rt; is_kept(&rt, rt.alloc()));
}

/// A caller with its buffers, and how many of its replies were others than it wanted.
#[derive(Drop)]
pub struct Caller {
    spans: Vec<Span>,
    reply: Vec<u8>,
    pub others: u32,
    ghost room: { 64 ≤ vec_capacity reply },
}

pub fn new_caller(alloc: Global) -> Option<Caller> {
    Some(Caller {
        spans: Vec::new(alloc),
        reply: Vec::with_capacity(alloc, 64).ok()?,
        others: 0,
    })
}

/// Executes a line of words with one `|` between each two at a moment in milliseconds, and compares its reply.
pub fn ask_at<R: Wait>(
    rt: &R,
    server: &Server,
    pass: Pass,
    caller: &mut Caller,
    moment: u64,
    line: &[u8],
    want: &[u8],
) -> Pass
    requires { IsOf server.now pass }
    ensures { IsOf server.now result }
{
    part(line, b'|', &mut caller.spans);
    if !is_small(line, caller.spans.as_slice()) {
        caller.others = caller.others.saturating_add(1);
        return pass;
    }
    let words = Words::new(line, caller.spans.as_slice());
    let pass = call(rt, server, pass, moment, words, &mut caller.reply);
    if caller.reply.as_slice() != want {
        caller.others = caller.others.saturating_add(1);
    }
    pass
}

/// A moment at which nothing is idle.
pub const NOW: u64 = 5;

/// Sets a field to one value and another in turns, and reads each back.
fn set_and_get<R: Wait>(
    rt: &R,
    server: &Server,
    pass: Pass,
    caller: &mut Caller,
    lines: &[&[u8]; 3],
) -> Pass
    requires { IsOf server.now pass }
    ensures { IsOf server.now result }
{
    let mut pass = ask_at(rt, server, pass, caller, NOW, lines[1], b":1\r\n");
    for _ in 0..300u32 {
        pass = ask_at(rt, server, pass, caller, NOW, lines[0], b":0\r\n");
        pass = ask_at(rt, server, pass, caller, NOW, lines[2], b"$1\r\na\r\n");
        pass = ask_at(rt, server, pass, caller, NOW, lines[1], b":0\r\n");
        pass = ask_at(rt, server, pass, caller, NOW, lines[2], b"$1\r\nb\r\n");
    }
    pass
}

/// Whether each reply is the one that is wanted.
fn finds_own<R: Wait>(
    rt: &R,
    alloc: Global,
    server: &Server,
    pass: Pass,
    lines: &[&[u8]; 3],
) -> bool
    requires { IsOf server.now pass }
{
    match new_caller(alloc) {
        Some(mut caller) => {
            drop(set_and_get(rt, server, pass, &mut caller, lines));
            caller.others == 0
        }
        None => false,
    }
}

const ONE: &[&[u8]; 3] = &[b"HSET|one|f|a", b"HSET|one|f|b", b"HGET|one|f"];

const TWO: &[&[u8]; 3] = &[b"HSET|two|f|a", b"HSET|two|f|b", b"HGET|two|f"];

/// Whether each of two callers, in a thread each, finds its own values.
fn find_their_own<R: Threads + Wait + Sync>(
    rt: &R,
    alloc: Global,
    server: &Server,
    one: Pass,
    two: Pass,
) -> bool
    requires one { IsOf server.now one }
    requires two { IsOf server.now two }
{
    let (first, second) = join(
        rt,
        || -> bool
            requires { IsOf server.now one }
        { finds_own(rt, alloc, server, one, ONE) },
        || -> bool
            requires { IsOf server.now two }
        { finds_own(rt, alloc, server, two, TWO) },
    );
    first && second
}

#[test]
fn two_threads_find_their_own_values(rt: HostRuntime) {
    let found = match server_of(&rt, rt.alloc()) {
        Some((server, mut one)) => {
            let two = server.split(&mut one);
            find_their_own(&rt, rt.alloc(), &server, one, two)
        }
        None => false,
    };
    assert!(rt; found);
}

/// The lines of the events 1 to 5, the last of which opens a cursor, and the reply to each.
const OPENS: &[[&[u8]; 2]] = &[
    [b"FT.CREATE|ix|SCHEMA|t|TEXT", b"+OK\r\n"],
    [b"HSET|d1|t|a", b":1\r\n"],
    [b"HSET|d2|t|b", b":1\r\n"],
    [b"HSET|d3|t|c", b":1\r\n"],
    [
        b"FT.AGGREGATE|ix|*|LOAD|1|t|WITHCURSOR|COUNT|1|MAXIDLE|100",
        b"*2\r\n*2\r\n:1\r\n*2\r\n$1\r\nt\r\n$1\r\na\r\n:5\r\n",
    ],
];

const READ: &[u8] = b"FT.CURSOR|READ|ix|5";

const DELETE: &[u8] = b"FT.CURSOR|DEL|ix|5";

const SECOND: &[u8] = b"*2\r\n*2\r\n:1\r\n*2\r\n$1\r\nt\r\n$1\r\nb\r\n:5\r\n";

const GONE: &[u8] = b"-Cursor not found\r\n";

/// Opens a cursor of three documents at the moment 1000.
fn open<R: Wait>(rt: &R, server: &Server, pass: Pass, caller: &mut Caller) -> Pass
    requires { IsOf server.now pass }
    ensures { IsOf server.now result }
{
    let mut pass = pass;
    for [line, want] in OPENS {
        pass = ask_at(rt, server, pass, caller, 1_000, line, want);
    }
    pass
}

/// Whether the cursor that one caller opens answers another one so, and at this moment is gone for both.
fn is_gone_for_both<R: Wait>(
    rt: &R,
    server: &Server,
    one: Pass,
    two: Pass,
    caller: &mut Caller,
    line: &[u8],
    want: &[u8],
    moment: u64,
) -> bool
    requires one { IsOf server.now one }
    requires two { IsOf server.now two }
{
    let one = open(rt, server, one, caller);
    let two = ask_at(rt, server, two, caller, 1_100, line, want);
    drop(ask_at(rt, server, one, caller, moment, READ, GONE));
    drop(ask_at(rt, server, two, caller, 1_100, line, GONE));
    caller.others == 0
}

/// The same of a server of its own.
fn is_gone_for_all<R: RandomSource + Wait>(
    rt: &R,
    alloc: Global,
    line: &[u8],
    want: &[u8],
    moment: u64,
) -> bool {
    let Some(mut caller) = new_caller(alloc) else {
        return false;
    };
    match server_of(rt, alloc) {
        Some((server, mut one)) => {
            let two = server.split(&mut one);
            is_gone_for_both(rt, &server, one, two, &mut caller, line, want, moment)
        }
        None => false,
    }
}

#[test]
fn a_cursor_is_of_all_callers(rt: HostRuntime) {
    // The other caller reads it, and then it is idle for longer than 100 milliseconds; or the other deletes it.
    assert!(rt; is_gone_for_all(&rt, rt.alloc(), READ, SECOND, 1_201));
    assert!(rt; is_gone_for_all(&rt, rt.alloc(), DELETE, b"+OK\r\n", 1_100));
}
