//! What is written on a connection: what a command is answered, by what its session says of it, and the text of a fault.
ghost use Rattle.std.specs.Prelude.{◌≡◌, ◌<◌, ◌≤◌, length, vec_capacity};
ghost use Rattle.std.specs.Io.KnownBytes.{Keeps};
ghost use Rattle.std.specs.List.{All};
ghost use Rattle.ft_base.specs.Words.{KeepsLimits, is_quit};
ghost use Rattle.cmd_parse.specs.Fits.{name_fit};
ghost use Rattle.history_core.specs.Running.{AreLawful};
ghost use Rattle.tx_session.specs.Taking.{Takes};
ghost use Rattle.ft_server.specs.Answer.{Answer, BlockAnswer, went_of};
ghost use Rattle.ft_server.specs.Blocks.{IsCommand, all_words};
ghost use Rattle.ft_server.specs.Passes.{Adds, IsOf};
ghost use Rattle.ft_server.specs.Serving.{Refused, Sent};

use crate::blocks::call_block;
use crate::calls::call;
use crate::connection::End;
use crate::fault_text::write_fault;
use crate::outs::Outs;
use crate::server::{Pass, Server};
use crate::tx_texts::{say, say_out_of_memory, send_block};
use cmd_parse::name_fit;
use fs_ports::{Clock, Failed, Link, write_all};
use ft_base::{Frame, ListOf, Words};
use resp_wire::{Decoder, WireFault};
use std::alloc::Global;
use std::sync::Wait;
use tx_session::{TxSession, TxTake};

/// Does with the command that was taken last what its session says, at one moment, and writes what it is answered. No byte
/// is read.
pub fn answer<L: Link, C: Clock, R: Wait>(
    rt: &R,
    alloc: Global,
    server: &Server,
    pass: Pass,
    decoder: &Decoder,
    session: &mut TxSession,
    out: &mut Vec<u8>,
    link: &mut L,
    clock: &mut C,
) -> (Pass, Result<usize, End>)
    requires of { IsOf server.now pass }
    requires some { 0 < length decoder.now.words }
    requires limits { KeepsLimits decoder.now.words }
    requires queue { All AreLawful session.old.queue }
    requires room { 64 ≤ vec_capacity out.old }
    ensures of { IsOf server.now result.0 }
    ensures same { (result.0.caller ≡ pass.caller) × (result.0.alone ≡ pass.alone) }
    ensures answer { Answer decoder.now.words session.old session.new pass result.0
        (C.given clock.old) (C.given clock.new) result.1
        (L.written link.old) (L.written link.new) (L.write_faults link.old) (L.write_faults link.new) }
    ensures queue { All AreLawful session.new.queue }
    ensures room { 64 ≤ vec_capacity out.new }
    ensures left { Keeps (L.left link.old) (L.left link.new) }
    ensures later { L.write_faults link.old ≤ L.write_faults link.new }
    ensures other { L.read_faults link.new ≡ L.read_faults link.old }
{
    let now = clock.now();
    match take_next(decoder, session) {
        TxTake::One => execute(rt, server, pass, now, decoder, out, link),
        TxTake::Say(text) => {
            let words = decoder.words();
            (pass, goes_on(say(link, words.word(0), text)))
        }
        TxTake::Block(frames) => execute_block(rt, alloc, server, pass, now, &frames, link),
        TxTake::NoMemory => (pass, goes_on(say_out_of_memory(link))),
    }
}

/// What the session says of the command that was taken last.
fn take_next(decoder: &Decoder, session: &mut TxSession) -> TxTake
    requires some { 0 < length decoder.now.words }
    requires limits { KeepsLimits decoder.now.words }
    requires queue { All AreLawful session.old.queue }
    ensures table { Takes decoder.now.words (name_fit 0 decoder.now.words) session.old result session.new }
    ensures queue { All AreLawful session.new.queue }
{
    // Most commands are judged by their words alone, when they are executed.
    if session.passes(&decoder.words()) {
        TxTake::One
    } else {
        take_judged(decoder, session)
    }
}

/// The same of any command, by its fit.
fn take_judged(decoder: &Decoder, session: &mut TxSession) -> TxTake
    requires some { 0 < length decoder.now.words }
    requires limits { KeepsLimits decoder.now.words }
    requires queue { All AreLawful session.old.queue }
    ensures table { Takes decoder.now.words (name_fit 0 decoder.now.words) session.old result session.new }
    ensures queue { All AreLawful session.new.queue }
{
    let fit = name_fit(decoder.words());
    session.take(decoder.words(), fit)
}

/// How serving goes on behind a text that was written or not.
fn goes_on(written: Result<(), Failed>) -> Result<usize, End>
    ensures { result ≡ went_of written }
{
    let Ok(()) = written else {
        return Err(End::WriteFault);
    };
    Ok(0)
}

/// Executes the command that was taken last by itself, and writes its reply.
fn execute<L: Link, R: Wait>(
    rt: &R,
    server: &Server,
    pass: Pass,
    now: u64,
    decoder: &Decoder,
    out: &mut Vec<u8>,
    link: &mut L,
) -> (Pass, Result<usize, End>)
    requires of { IsOf server.now pass }
    requires some { 0 < length decoder.now.words }
    requires limits { KeepsLimits decoder.now.words }
    requires room { 64 ≤ vec_capacity out.old }
    ensures of { IsOf server.now result.0 }
    ensures same { (result.0.caller ≡ pass.caller) × (result.0.alone ≡ pass.alone) }
    ensures entry { Adds pass result.0 now decoder.now.words out.new.items }
    ensures sent { Sent result.1 decoder.now.words out.new.items (L.written link.old) (L.written link.new)
        (L.write_faults link.old) (L.write_faults link.new) }
    ensures room { 64 ≤ vec_capacity out.new }
    ensures left { Keeps (L.left link.old) (L.left link.new) }
    ensures later { L.write_faults link.old ≤ L.write_faults link.new }
    ensures other { L.read_faults link.new ≡ L.read_faults link.old }
{
    out.clear();
    let pass = call(rt, server, pass, now, decoder.words(), out);
    (pass, send(link, decoder, out.as_slice()))
}

/// Writes the reply to the command that was taken last. That of QUIT ends the connection.
fn send<L: Link>(link: &mut L, decoder: &Decoder, reply: &[u8]) -> Result<usize, End>
    requires some { 0 < length decoder.now.words }
    ensures sent { Sent result decoder.now.words reply.now (L.written link.old) (L.written link.new)
        (L.write_faults link.old) (L.write_faults link.new) }
    ensures left { Keeps (L.left link.old) (L.left link.new) }
    ensures later { L.write_faults link.old ≤ L.write_faults link.new }
    ensures other { L.read_faults link.new ≡ L.read_faults link.old }
{
    match write_all(link, reply) {
        Ok(()) if is_quit(&decoder.words()) => Err(End::Quit),
        Ok(()) => Ok(0),
        Err(_) => Err(End::WriteFault),
    }
}

/// Executes the commands that waited for EXEC side by side, and writes their replies. Where there is no memory for these, it
/// tells that and executes none.
fn execute_block<L: Link, R: Wait>(
    rt: &R,
    alloc: Global,
    server: &Server,
    pass: Pass,
    now: u64,
    frames: &ListOf<Frame>,
    link: &mut L,
) -> (Pass, Result<usize, End>)
    requires of { IsOf server.now pass }
    requires some { 0 < length frames.now }
    requires commands { All IsCommand frames.now }
    ensures of { IsOf server.now result.0 }
    ensures same { (result.0.caller ≡ pass.caller) × (result.0.alone ≡ pass.alone) }
    ensures block { BlockAnswer (all_words frames.now) now pass result.0 result.1
        (L.written link.old) (L.written link.new) (L.write_faults link.old) (L.write_faults link.new) }
    ensures left { Keeps (L.left link.old) (L.left link.new) }
    ensures later { L.write_faults link.old ≤ L.write_faults link.new }
    ensures other { L.read_faults link.new ≡ L.read_faults link.old }
{
    // The replies have their room before the turn begins, since a turn that began has to end with its entries.
    match Outs::open(alloc, frames.len()) {
        Ok(mut outs) => {
            let pass = call_block(rt, server, pass, now, frames, &mut outs);
            (pass, goes_on(send_block(link, &outs)))
        }
        Err(_) => (pass, goes_on(say_out_of_memory(link))),
    }
}

/// Writes the text of a fault, with which the connection ends.
pub fn refuse<L: Link>(link: &mut L, at: u64, kind: WireFault) -> End
    ensures refused { Refused result at kind (L.written link.old) (L.written link.new)
        (L.write_faults link.old) (L.write_faults link.new) }
    ensures left { Keeps (L.left link.old) (L.left link.new) }
    ensures other { L.read_faults link.new ≡ L.read_faults link.old }
{
    match write_fault(link, kind) {
        Ok(()) => End::Protocol { at, kind },
        Err(_) => End::WriteFault,
    }
}

/// Whether a command is QUIT.
fn is_quit(words: &Words) -> bool
    requires { 0 < length words.now }
    ensures { result ≡ is_quit words.now }
{
    words.word(0).eq_ignore_ascii_case(b"QUIT")
}
