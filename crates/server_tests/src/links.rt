//! What the tests make in memory (links, doors, a clock, lists of calls that fail, words), and the server over a link: bytes
//! in, bytes out, and how the run ended. Out of memory, an answer is None, or something is left out, as the comparison
//! then shows.
ghost use Rattle.std.specs.Prelude.{◌≡◌, ◌<◌, false, length, IfSome};
ghost use Rattle.ft_server.specs.Passes.{IsOf};

use fs_ports::{ListOfCalls, MemDoor, MemLink, ScriptedClock};
use ft_base::{Bytes, ListOf};
use ft_engine::Engine;
use ft_server::{End, Exit, Pass, Server, run, serve_connection};
use std::alloc::Global;
use std::hash::RandomState;
use std::random::RandomSource;
use std::sync::Wait;

/// A command that answers `:1`.
pub const HSET: &[u8] = b"*4\r\n$4\r\nHSET\r\n$2\r\nd1\r\n$1\r\nt\r\n$11\r\nHello world\r\n";

/// A command that has a word too few.
pub const TOO_SHORT: &[u8] = b"*2\r\n$8\r\nFT.DEBUG\r\n$2\r\nix\r\n";

pub const QUIT: &[u8] = b"*1\r\n$4\r\nqUIt\r\n";

/// Which calls of a link fail, counted from 1 (a call 0 never comes), and the most bytes that it takes at once.
#[derive(Clone, Copy)]
pub struct Faults<'a> {
    pub reads: &'a [u64],
    pub writes: &'a [u64],
    pub write_max: usize,
}

/// No call fails.
pub const NONE: Faults<'static> = Faults {
    reads: &[],
    writes: &[],
    write_max: 1_000,
};

/// A link that gives the texts, a piece a read.
pub fn link_of(alloc: Global, texts: &[&[u8]], faults: &Faults<'_>) -> Option<MemLink> {
    let mut pieces = ListOf::new(alloc);
    for text in texts {
        if let Ok(piece) = Bytes::from_slice(alloc, text) {
            let _ = pieces.push(piece);
        }
    }
    let reads = calls_of(alloc, faults.reads);
    let writes = calls_of(alloc, faults.writes);
    MemLink::new(alloc, pieces, reads, writes, faults.write_max).ok()
}

/// A door of links that give a text each. The listed calls of its `accept` fail.
pub fn door_of(alloc: Global, texts: &[&[u8]], fail: &[u64]) -> Option<MemDoor<MemLink>>
    ensures { IfSome result (λ door. door.at.out ≡ false) }
{
    let mut links = ListOf::new(alloc);
    for text in texts {
        if let Some(link) = link_of(alloc, &[*text], &NONE) {
            let _ = links.push(link);
        }
    }
    MemDoor::new(alloc, links, calls_of(alloc, fail)).ok()
}

/// The calls that fail, counted from 1.
pub fn calls_of(alloc: Global, calls: &[u64]) -> ListOfCalls {
    let mut list = Vec::new(alloc);
    let _ = list.extend_from_slice(calls);
    ListOf::from_vec(list)
}

/// A clock that gives these moments, and then the last one again.
pub fn clock_of(alloc: Global, moments: &[u64]) -> Option<ScriptedClock>
    requires { 0 < length moments.now }
{
    let moments = ListOf::from_vec(moments.to_vec(alloc).ok()?);
    Some(ScriptedClock::new(moments))
}

/// Words of the command line.
pub fn words_of(alloc: Global, texts: &[&str]) -> Vec<String> {
    let mut words = Vec::new(alloc);
    for text in texts {
        if let Ok(word) = String::from_str(alloc, text) {
            let _ = words.push(word);
        }
    }
    words
}

/// How the program ends with these words over a link.
pub fn run_words<R: RandomSource + Wait>(
    rt: &R,
    alloc: Global,
    texts: &[&str],
    link: &mut MemLink,
) -> Option<Exit> {
    let hashing = RandomState::new(rt).ok()?;
    let mut clock = clock_of(alloc, &[5])?;
    let words = words_of(alloc, texts);
    Some(run(rt, alloc, hashing, words.as_slice(), link, &mut clock))
}

/// A server that has had no event, and its first pass.
pub fn server_of<R: RandomSource>(rt: &R, alloc: Global) -> Option<(Server, Pass)>
    ensures { IfSome result (λ made. IsOf made.0 made.1) }
{
    let hashing = RandomState::new(rt).ok()?;
    let engine = Engine::new(alloc, hashing).ok()?;
    Server::open(alloc, engine).ok()
}

/// How a connection over a link ends, with a server of its own.
pub fn serve<R: RandomSource + Wait>(rt: &R, alloc: Global, link: &mut MemLink) -> Option<End> {
    let (server, pass) = server_of(rt, alloc)?;
    serve_as(rt, alloc, &server, pass, link)
}

/// How a connection over a link ends, as the caller of this pass.
pub fn serve_as<R: Wait>(
    rt: &R,
    alloc: Global,
    server: &Server,
    pass: Pass,
    link: &mut MemLink,
) -> Option<End>
    requires { IsOf server.now pass }
{
    let mut clock = clock_of(alloc, &[5])?;
    Some(serve_connection(rt, alloc, server, pass, link, &mut clock).1)
}
