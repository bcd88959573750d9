//! One connection: each command is taken as soon as it is whole, and what it is answered is written before the
//! next one is.
ghost use Rattle.std.specs.Prelude.{◌≡◌, ◌<◌, ◌≤◌, ◌+◌, ◌*◌, ◌^◌, [], length, vec_capacity, IfOk};
ghost use Rattle.std.specs.List.{All};
ghost use Rattle.history_core.specs.Running.{AreLawful};
ghost use Rattle.resp_wire.specs.Decoding.{fed};
ghost use Rattle.tx_session.specs.Table.{idle};
ghost use Rattle.ft_server.specs.Callers.{Called};
ghost use Rattle.ft_server.specs.Ends.{Ends};
ghost use Rattle.ft_server.specs.Passes.{IsOf};
ghost use Rattle.ft_server.specs.Prompt.{MayBeRead};
ghost use Rattle.ft_server.specs.Serving.{HoldsNoCommand, Leads};
ghost use Rattle.ft_server.specs.Session.{told};

use crate::input::read_more;
use crate::replies::{answer, refuse};
use crate::server::{Pass, Server};
use fs_ports::{Clock, Link};
use ft_base::NoMemory;
use resp_wire::{Decoder, Take, WireFault};
use std::alloc::Global;
use std::sync::Wait;
use tx_session::TxSession;

/// The most bytes that one read asks for.
const READ_ROOM: usize = 65_536;

/// The room for a reply at the start. A longer reply makes more.
const REPLY_ROOM: usize = 65_536;

/// How a connection ended.
#[derive(Clone, Copy, PartialEq, Eq)]
pub enum End {
    /// The link ended behind a whole request.
    Closed,
    /// QUIT was answered. What is behind it is not executed.
    Quit,
    /// The link ended within a request, of which so many bytes are there.
    CutShort { left: u64 },
    /// The bytes have a fault there, and its text was written.
    Protocol { at: u64, kind: WireFault },
    /// A read failed.
    ReadFault,
    /// A write failed.
    WriteFault,
    /// 2^40 bytes were read.
    ByteLimit,
    /// Out of memory.
    NoMemory,
}

/// What is read and written goes through these, and what waits for EXEC is held here.
#[derive(Drop)]
struct Buffers {
    alloc: Global,
    decoder: Decoder,
    input: Vec<u8>,
    reply: Vec<u8>,
    session: TxSession,
}

/// Serves a link until it ends, as the caller whose pass it is given. All room is taken first.
///
/// A command is a turn of its own; those between MULTI and EXEC are one. It may wait for a turn, and for nothing else of
/// other callers: what is read, decoded and written is read, decoded and written outside the turns.
pub fn serve_connection<L: Link, C: Clock, R: Wait>(
    rt: &R,
    alloc: Global,
    server: &Server,
    pass: Pass,
    link: &mut L,
    clock: &mut C,
) -> (Pass, End)
    requires of { IsOf server.now pass }
    // The link is read only where all that came whole was answered.
    requires prompt { MayBeRead L.Link C.Clock server.now pass link.old clock.old }

    ensures of { IsOf server.now result.0 }
    ensures same { (result.0.caller ≡ pass.caller) × (result.0.alone ≡ pass.alone) }
    // What was read, answered and written, by how the connection ended.
    ensures ends { Ends (Called pass result.0) result.1
        (told L.Link C.Clock link.old clock.old) (told L.Link C.Clock link.new clock.new) }
{
    match take_buffers(alloc) {
        Ok(mut buffers) => serve(rt, server, pass, &mut buffers, link, clock),
        Err(_) => (pass, End::NoMemory),
    }
}

/// Room for 64 KiB of input and of replies.
fn take_buffers(alloc: Global) -> Result<Buffers, NoMemory>
    ensures decoder { IfOk result (λ buffers. buffers.decoder
        ≡ record { taken = 0; left = []; words = []; spare = 65_536 }) }
    ensures input { IfOk result (λ buffers. length buffers.input.items ≡ 65_536) }
    ensures reply { IfOk result (λ buffers. vec_capacity buffers.reply ≡ 65_536) }
    ensures session { IfOk result (λ buffers. buffers.session ≡ idle) }
{
    Ok(Buffers {
        alloc,
        decoder: Decoder::open(alloc)?,
        input: vec![in alloc; 0u8; READ_ROOM]?,
        reply: Vec::with_capacity(alloc, REPLY_ROOM)?,
        session: TxSession::open(alloc),
    })
}

/// Takes the commands one by one, and reads more where none is whole.
fn serve<L: Link, C: Clock, R: Wait>(
    rt: &R,
    server: &Server,
    pass: Pass,
    buffers: &mut Buffers,
    link: &mut L,
    clock: &mut C,
) -> (Pass, End)
    requires of { IsOf server.now pass }
    requires decoder { buffers.old.decoder
        ≡ record { taken = 0; left = []; words = []; spare = 65_536 } }
    requires input { 0 < length buffers.old.input.items }
    requires reply { 64 ≤ vec_capacity buffers.old.reply }
    requires session { buffers.old.session ≡ idle }
    requires prompt { MayBeRead L.Link C.Clock server.now pass link.old clock.old }
    ensures of { IsOf server.now result.0 }
    ensures same { (result.0.caller ≡ pass.caller) × (result.0.alone ≡ pass.alone) }
    ensures ends { Ends (Called pass result.0) result.1
        (told L.Link C.Clock link.old clock.old) (told L.Link C.Clock link.new clock.new) }
{
    let mut pass = pass;
    let mut total = 0;
    'serving: loop {
        let (later, went) = step(rt, server, pass, buffers, link, clock, total);
        pass = later;
        match went {
            Ok(count) => total += count,
            Err(end) => return (pass, end),
        }
    }
}

/// Takes the next command and answers it; or reads more where none is whole, and answers how much; or says how the connection
/// ends. `total` bytes were read before.
fn step<L: Link, C: Clock, R: Wait>(
    rt: &R,
    server: &Server,
    pass: Pass,
    buffers: &mut Buffers,
    link: &mut L,
    clock: &mut C,
    total: usize,
) -> (Pass, Result<usize, End>)
    requires of { IsOf server.now pass }
    requires input { 0 < length buffers.old.input.items }
    requires reply { 64 ≤ vec_capacity buffers.old.reply }
    requires queue { All AreLawful buffers.old.session.queue }
    requires few { total ≤ 2 ^ 40 }
    requires fed { fed buffers.old.decoder ≡ total }
    requires turn { HoldsNoCommand buffers.old.decoder → total < 2 ^ 40 → L.readable link.old }
    ensures of { IsOf server.now result.0 }
    ensures same { (result.0.caller ≡ pass.caller) × (result.0.alone ≡ pass.alone) }
    // From what was served before, on or to an end.
    ensures leads { Leads buffers.old.decoder buffers.new.decoder buffers.old.session buffers.new.session pass result.0
        (told L.Link C.Clock link.old clock.old) (told L.Link C.Clock link.new clock.new) result.1 }
    ensures fed { IfOk result.1 (λ count. (fed buffers.new.decoder ≡ total + count) × (total + count ≤ 2 ^ 40)) }
    ensures less { IfOk result.1 (λ count. length buffers.new.decoder.left
        < length buffers.old.decoder.left + 2 * count) }
    ensures input { length buffers.new.input.items ≡ length buffers.old.input.items }
    ensures reply { 64 ≤ vec_capacity buffers.new.reply }
    ensures queue { All AreLawful buffers.new.session.queue }
{
    let Buffers {
        alloc,
        decoder,
        input,
        reply,
        session,
    } = buffers;
    match decoder.take() {
        Take::Words => answer(
            rt, *alloc, server, pass, decoder, session, reply, link, clock,
        ),
        Take::More => (pass, read_more(link, decoder, input.as_mut_slice(), total)),
        Take::NoMemory => (pass, Err(End::NoMemory)),
        Take::Fault { at, kind } => (pass, Err(refuse(link, at, kind))),
    }
}
