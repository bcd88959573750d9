//! The load: a server of its own executes its commands one after another, and four lines sum up the replies.
ghost use Rattle.std.specs.Prelude.{◌≡◌, ◌<◌, ◌≤◌, ◌*◌, ◌^◌, ◌++◌, ◌∷◌, [], ℕ, List, length, vec_capacity, IfOk, string_bytes};
ghost use Rattle.std.specs.declared.option.Option.{Option};
ghost use Rattle.ft_base.specs.Words.{KeepsLimits};
ghost use Rattle.history_core.specs.Commands.{Said};
ghost use Rattle.resp_wire.specs.Stream.{stream_of};
ghost use Rattle.resp_wire.specs.declared.fault.Stop.TheVariants.{More};
ghost use Rattle.load_maker.specs.Load.{load};
ghost use Rattle.ft_server.specs.Load.{EndsLoad, Loaded, each_reply, summary, told_of};
ghost use Rattle.ft_server.specs.Passes.{Adds, IsOf};
ghost use Rattle.ft_server.specs.Playing.{Counts, EndsLines, Played};

use crate::calls::call;
use crate::exit::Exit;
use crate::runner::open;
use crate::server::{Pass, Server};
use crate::tally::Tally;
use fs_ports::{Link, write_all};
use ft_base::NoMemory;
use load_maker::make;
use resp_wire::{Decoder, Take};
use std::alloc::{AllocError, Global};
use std::hash::RandomState;
use std::sync::Wait;

/// The room for a reply at the start. A longer reply makes more.
const REPLY_ROOM: usize = 65_536;

/// Executes the load with a new server, and writes the four lines.
pub fn run_load<L: Link, R: Wait>(
    rt: &R,
    alloc: Global,
    hashing: RandomState,
    seed: u64,
    docs: u32,
    link: &mut L,
) -> Exit
    requires some { 1 ≤ docs }
    requires few { docs ≤ 100000 }
    ensures { (given : Option (List ℕ)) → EndsLoad seed docs result
        (told_of L.Link link.old given) (told_of L.Link link.new given) }
{
    match summary_of(rt, alloc, hashing, seed, docs) {
        Ok(text) => write_lines(link, text.as_str()),
        Err(_) => Exit::NoMemory,
    }
}

/// Writes a text, and says how the load ends so.
fn write_lines<L: Link>(link: &mut L, text: &str) -> Exit
    ensures { (given : Option (List ℕ)) → EndsLines text.now result
        (told_of L.Link link.old given) (told_of L.Link link.new given) }
{
    match write_all(link, text.as_bytes()) {
        Ok(()) => Exit::Done,
        Err(_) => Exit::WriteFault,
    }
}

/// The four lines of a load.
fn summary_of<R: Wait>(
    rt: &R,
    alloc: Global,
    hashing: RandomState,
    seed: u64,
    docs: u32,
) -> Result<String, NoMemory>
    requires some { 1 ≤ docs }
    requires few { docs ≤ 100000 }
    ensures { IfOk result (λ text. (said : List Said) × Loaded (load seed docs) said
        × (string_bytes text ≡ summary (each_reply said))) }
{
    let mut decoder = requests_of(alloc, seed, docs)?;
    let tally = play_alone(rt, alloc, hashing, &mut decoder)?;
    tally.lines(alloc)
}

/// A decoder that holds the requests of a load.
fn requests_of(alloc: Global, seed: u64, docs: u32) -> Result<Decoder, NoMemory>
    requires some { 1 ≤ docs }
    requires few { docs ≤ 100000 }
    ensures commands { IfOk result (λ decoder. (stream_of decoder.left).commands ≡ load seed docs) }
    ensures stop { IfOk result (λ decoder. (stream_of decoder.left).stop ≡ More) }
{
    let bytes = make(alloc, seed, docs)?;
    let mut decoder = Decoder::open(alloc)?;
    decoder.feed(bytes.as_slice())?;
    Ok(decoder)
}

/// Executes the commands that a decoder holds with a new server, whose one caller this is.
fn play_alone<R: Wait>(
    rt: &R,
    alloc: Global,
    hashing: RandomState,
    decoder: &mut Decoder,
) -> Result<Tally, NoMemory>
    requires few { length (stream_of decoder.old.left).commands < 2 ^ 32 }
    requires waits { (stream_of decoder.old.left).stop ≡ More }
    ensures { IfOk result (λ tally. (said : List Said) × Loaded (stream_of decoder.old.left).commands said × Counts tally (each_reply said)) }
{
    let mut reply = Vec::with_capacity(alloc, REPLY_ROOM)?;
    let (server, pass) = open(alloc, hashing)?;
    let (_pass, tally) = play(rt, &server, pass, decoder, &mut reply)?;
    Ok(tally)
}

/// Executes the commands that a decoder holds, each at moment 0.
fn play<R: Wait>(
    rt: &R,
    server: &Server,
    pass: Pass,
    decoder: &mut Decoder,
    reply: &mut Vec<u8>,
) -> Result<(Pass, Tally), NoMemory>
    requires of { IsOf server.now pass }
    requires room { 64 ≤ vec_capacity reply.old }
    requires few { length (stream_of decoder.old.left).commands < 2 ^ 32 }
    requires waits { (stream_of decoder.old.left).stop ≡ More }
    ensures of { IfOk result (λ r. IsOf server.now r.0) }
    ensures played { IfOk result (λ r. Played (stream_of decoder.old.left).commands pass r.0 r.1) }
{
    let mut pass = pass;
    let mut tally = Tally::new();
    'playing: loop {
        match decoder.take() {
            Take::Words => {
                let (later, more) = play_one(rt, server, pass, decoder, reply, tally);
                pass = later;
                tally = more;
            }
            Take::More => return Ok((pass, tally)),
            // What was made has no fault.
            Take::Fault { .. } => return Ok((pass, tally)),
            Take::NoMemory => return Err(AllocError),
        }
    }
}

/// Executes the command that was taken last.
fn play_one<R: Wait>(
    rt: &R,
    server: &Server,
    pass: Pass,
    decoder: &Decoder,
    reply: &mut Vec<u8>,
    tally: Tally,
) -> (Pass, Tally)
    requires of { IsOf server.now pass }
    requires some { 0 < length decoder.now.words }
    requires limits { KeepsLimits decoder.now.words }
    requires room { 64 ≤ vec_capacity reply.old }
    requires few { tally.commands < 2 ^ 32 }
    requires errors { tally.errors ≤ tally.commands }
    requires bytes { tally.reply_bytes ≤ tally.commands * 2 ^ 63 }
    ensures of { IsOf server.now result.0 }
    ensures same { (result.0.caller ≡ pass.caller) × (result.0.alone ≡ pass.alone) }
    ensures entry { Adds pass result.0 0 decoder.now.words reply.new.items }
    ensures tally { (replies : List (List ℕ)) → Counts tally replies → Counts result.1 (replies ++ reply.new.items ∷ []) }
    ensures room { 64 ≤ vec_capacity reply.new }
{
    reply.clear();
    let pass = call(rt, server, pass, 0, decoder.words(), reply);
    (pass, tally.with(reply.as_slice()))
}
