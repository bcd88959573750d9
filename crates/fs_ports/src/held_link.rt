//! A link over another one that holds back what is written until it is read. So the replies to commands that came
//! together go out together, and none waits while the next read waits for more.
//!
//! Where the link below takes no more, what is left stays held, and the link below is read on: a client may write all its
//! commands before it reads a reply.
ghost use Rattle.std.specs.Prelude.{◌≡◌, ◌<◌, ◌≤◌, ◌+◌, ◌⊎◌, ◌++◌, [], List, ℕ, None, length, vec_capacity, OnOk, OnErr, IfOk, IfSome};
ghost use Rattle.std.specs.Io.{ReadsAtMost, WritesAtMost};
ghost use Rattle.std.specs.Io.KnownBytes.{Keeps, ReadConsumes, WriteAppends, append_known};
ghost use Rattle.fs_ports.specs.Causes.{HasCause, Rose, TriesWrite, some_count};
ghost use Rattle.fs_ports.specs.Held.{ComesApart, FailedBelow, HandsOn, IsReadableBelow, fresh, written_and_held};

use crate::backlog::{Backlog, HELD_MOST, HELD_ROOM};
use crate::link::{Failed, Link, try_front, write_front};
use ft_base::NoMemory;
use std::alloc::Global;
use std::marker::Model;

/// A link over another one. It holds what is written until it is read, or until the next piece does not fit. Where the link
/// below takes no more at the moment, it holds up to `HELD_MOST` bytes.
///
/// What is held when it is dropped is lost.
#[derive(Drop)]
pub struct HeldLink<L: Link + Drop> {
    link: L,
    held: Backlog,
    read_faults: u64,
    write_faults: u64,
}

impl<L: Link + Drop> Model for HeldLink<L> {
    ghost use Rattle.std.specs.Prelude.{◌≤◌, length};
    ghost use Rattle.fs_ports.specs.declared.backlog.TheConstants.{HELD_MOST};
    ghost use Rattle.fs_ports.specs.Held.{Held};

    ghost Value = { Held L };

    ghost view = { λ h. record {
      below = h.link;
      held = h.held;
      reads = h.read_faults;
      writes = h.write_faults;
    } };

    ghost invariant = { λ h. length h.held ≤ HELD_MOST };
}

impl<L: Link + Drop> HeldLink<L> {
    /// A link over this one, which holds nothing. It takes the room for what is held.
    pub fn over(alloc: Global, link: L) -> Result<HeldLink<L>, NoMemory>
        ensures { IfOk result (λ made. made ≡ fresh link) }
    {
        let room = Vec::with_capacity(alloc, HELD_ROOM)?;
        Ok(HeldLink::with_room(link, room))
    }

    /// The same with room that was taken before.
    pub(crate) fn with_room(link: L, room: Vec<u8>) -> HeldLink<L>
        requires empty { room.items ≡ [] }
        requires room { HELD_ROOM ≤ vec_capacity room }
        ensures { result ≡ fresh link }
    {
        HeldLink {
            link,
            held: Backlog::over(room),
            read_faults: 0,
            write_faults: 0,
        }
    }

    /// The link below.
    pub fn below(&self) -> &L
        ensures { result.now ≡ self.now.below }
    {
        &self.link
    }

    /// Hands on what is held, as behind the last piece.
    pub fn finish(&mut self) -> Result<(), Failed>
        ensures written { Keeps (written_and_held L.Link self.old) (written_and_held L.Link self.new) }
        ensures left { Keeps (L.left self.old.below) (L.left self.new.below) }
        ensures whole { OnOk result (self.new.held ≡ []) }
        ensures cause { HasCause self.old.writes self.new.writes result }
        ensures below { OnErr result (Rose (L.write_faults self.old.below) (L.write_faults self.new.below)) }
        ensures other { self.new.reads ≡ self.old.reads }
    {
        match hand_on(&mut self.link, &mut self.held) {
            Ok(()) => Ok(()),
            Err(Failed) => {
                self.write_faults = self.write_faults.saturating_add(1);
                Err(Failed)
            }
        }
    }

    /// Hands on what is held as far as the link below takes it, and gives that link back, with the room.
    pub(crate) fn take_apart(self) -> (L, Vec<u8>)
        ensures below { ComesApart L.Link self result.0 }
        ensures empty { result.1.items ≡ [] }
        ensures room { HELD_ROOM ≤ vec_capacity result.1 }
    {
        let HeldLink {
            mut link,
            mut held,
            read_faults: _,
            write_faults: _,
        } = self;
        let _ = hand_on(&mut link, &mut held);
        (link, held.into_room())
    }
}

impl<L: Link + Drop> Link for HeldLink<L> {
    ghost left = { λ h. L.left h.below };

    ghost written = { λ h. written_and_held L.Link h };

    ghost read_faults = { λ h. h.reads };

    ghost write_faults = { λ h. h.writes };

    ghost readable = { λ h. IsReadableBelow L.Link h };

    fn read(&mut self, buf: &mut [u8]) -> Result<usize, Failed>
        requires turn { IsReadableBelow L.Link self.old }
        ensures bound { ReadsAtMost result buf.new }
        ensures bytes { ReadConsumes (L.left self.old.below) (L.left self.new.below) result buf.new }
        ensures written { Keeps (written_and_held L.Link self.old) (written_and_held L.Link self.new) }
        ensures cause { HasCause self.old.reads self.new.reads result }
        ensures other { self.new.writes ≡ self.old.writes }

        // A read that succeeds leaves nothing held, or a write below would have waited. One fails only where a call of the
        // link below does.
        ensures emptied { OnOk result ((self.new.held ≡ []) ⊎ Rose (L.stalls self.old.below) (L.stalls self.new.below)) }
        ensures below { OnErr result (FailedBelow L.Link self.old.below self.new.below) }
    {
        match read_behind(&mut self.link, &mut self.held, buf) {
            Ok(count) => Ok(count),
            Err(Failed) => {
                self.read_faults = self.read_faults.saturating_add(1);
                Err(Failed)
            }
        }
    }

    fn write(&mut self, piece: &[u8]) -> Result<usize, Failed>
        ensures bound { WritesAtMost result piece.now }
        ensures some { 0 < length piece.now → IfOk result (λ n. 0 < n) }
        ensures bytes { WriteAppends (written_and_held L.Link self.old) (written_and_held L.Link self.new) result piece.now }
        ensures left { Keeps (L.left self.old.below) (L.left self.new.below) }
        ensures cause { HasCause self.old.writes self.new.writes result }
        ensures other { self.new.reads ≡ self.old.reads }

        // What fits beside what is held is held too, and the link below not touched.
        ensures fits { length self.old.held + length piece.now ≤ HELD_ROOM → (result ≡ Ok (length piece.now))
            × (self.new ≡ record self.old { held = self.old.held ++ piece.now }) }
        // A piece that fits once that was handed on is taken whole.
        ensures whole { length piece.now ≤ HELD_ROOM → IfOk result (λ n. n ≡ length piece.now) }
        // More than the room is held only where a write below would have waited, and never more than the most.
        ensures more { length self.old.held ≤ HELD_ROOM → HELD_ROOM < length self.new.held
            → Rose (L.stalls self.old.below) (L.stalls self.new.below) }
        ensures few { length self.new.held ≤ HELD_MOST }
        // A write fails only where one of the link below does.
        ensures below { OnErr result (Rose (L.write_faults self.old.below) (L.write_faults self.new.below)) }
    {
        match write_behind(&mut self.link, &mut self.held, piece) {
            Ok(count) => Ok(count),
            Err(Failed) => {
                self.write_faults = self.write_faults.saturating_add(1);
                Err(Failed)
            }
        }
    }
}

// Reads the link behind what is held. While the link below takes no more of that, each read of it is only tried, so that what is
// held is tried again soon.
fn read_behind<L: Link>(link: &mut L, held: &mut Backlog, buf: &mut [u8]) -> Result<usize, Failed>
    requires turn { (after : L) (rest : List ℕ) → HandsOn L.Link link.old after held.old rest → L.readable after }
    ensures bound { ReadsAtMost result buf.new }
    ensures bytes { ReadConsumes (L.left link.old) (L.left link.new) result buf.new }
    ensures written { Keeps (append_known (L.written link.old) held.old) (append_known (L.written link.new) held.new) }
    ensures emptied { OnOk result ((held.new ≡ []) ⊎ Rose (L.stalls link.old) (L.stalls link.new)) }
    ensures fewer { length held.new ≤ length held.old }
    ensures cause { OnErr result (FailedBelow L.Link link.old link.new) }
{
    // It ends where something comes or all was handed on, and a count of rounds that no run uses up.
    'trying: for _ in 0..u64::MAX {
        try_hand_on(link, held)?;
        if held.len() == 0 {
            return link.read(buf);
        }
        if let Some(count) = link.try_read(buf)? {
            return Ok(count);
        }
    }
    hand_on(link, held)?;
    link.read(buf)
}

// Holds the piece where it fits, and hands on what is held where it does not. A piece that is longer than the room goes
// to the link, as far as that takes it.
fn write_behind<L: Link>(link: &mut L, held: &mut Backlog, piece: &[u8]) -> Result<usize, Failed>
    requires most { length held.old ≤ HELD_MOST }
    ensures bound { WritesAtMost result piece.now }
    ensures some { 0 < length piece.now → IfOk result (λ n. 0 < n) }
    ensures bytes { WriteAppends (append_known (L.written link.old) held.old) (append_known (L.written link.new) held.new) result piece.now }
    ensures left { Keeps (L.left link.old) (L.left link.new) }
    ensures fits { length held.old + length piece.now ≤ HELD_ROOM
        → (link.new ≡ link.old) × (held.new ≡ held.old ++ piece.now) × (result ≡ Ok (length piece.now)) }
    ensures whole { length piece.now ≤ HELD_ROOM → IfOk result (λ n. n ≡ length piece.now) }
    ensures more { length held.old ≤ HELD_ROOM → HELD_ROOM < length held.new → Rose (L.stalls link.old) (L.stalls link.new) }
    ensures most { length held.new ≤ HELD_MOST }
    ensures cause { OnErr result (Rose (L.write_faults link.old) (L.write_faults link.new)) }
{
    if held.hold_first(piece) {
        return Ok(piece.len());
    }
    try_hand_on(link, held)?;
    match take_behind(link, held, piece)? {
        Some(count) => Ok(count),
        None => write_waiting(link, held, piece),
    }
}

// Takes the piece in where it need not wait for the link: to the link where nothing is held and the piece is long, and
// else beside what is held. None of it where there is no memory or too much is held.
fn take_behind<L: Link>(
    link: &mut L,
    held: &mut Backlog,
    piece: &[u8],
) -> Result<Option<usize>, Failed>
    requires most { length held.old ≤ HELD_MOST }
    ensures bound { WritesAtMost (some_count result) piece.now }
    ensures some { 0 < length piece.now → IfOk result (λ taken. IfSome taken (λ n. 0 < n)) }
    ensures bytes { TriesWrite (append_known (L.written link.old) held.old) (append_known (L.written link.new) held.new) result piece.now }
    ensures left { Keeps (L.left link.old) (L.left link.new) }
    ensures whole { length piece.now ≤ HELD_ROOM → IfOk result (λ taken. IfSome taken (λ n. n ≡ length piece.now)) }
    ensures none { IfOk result (λ taken. taken ≡ None → held.new ≡ held.old) }
    ensures err { OnErr result (held.new ≡ held.old) }
    ensures more { held.old ≡ [] → HELD_ROOM < length held.new → Rose (L.stalls link.old) (L.stalls link.new) }
    ensures most { length held.new ≤ HELD_MOST }
    ensures cause { HasCause (L.write_faults link.old) (L.write_faults link.new) result }
    ensures other { L.read_faults link.new ≡ L.read_faults link.old }
    ensures stalled { L.stalls link.old ≤ L.stalls link.new }
{
    if held.len() == 0 && piece.len() > HELD_ROOM {
        if let Some(count) = link.try_write(piece)? {
            return Ok(Some(count));
        }
    }
    let few = piece.len().min(HELD_MOST - held.len());
    if (few == piece.len() || piece.len() > HELD_ROOM) && few > 0 && held.hold(&piece[..few]) {
        return Ok(Some(few));
    }
    Ok(None)
}

// Hands on what is held, however long that waits, and then holds the piece, or writes one that is longer than the room.
fn write_waiting<L: Link>(link: &mut L, held: &mut Backlog, piece: &[u8]) -> Result<usize, Failed>
    ensures bound { WritesAtMost result piece.now }
    ensures some { 0 < length piece.now → IfOk result (λ n. 0 < n) }
    ensures bytes { WriteAppends (append_known (L.written link.old) held.old) (append_known (L.written link.new) held.new) result piece.now }
    ensures left { Keeps (L.left link.old) (L.left link.new) }
    ensures whole { length piece.now ≤ HELD_ROOM → IfOk result (λ n. n ≡ length piece.now) }
    ensures few { IfOk result (λ _. length held.new ≤ HELD_ROOM) }
    ensures fewer { length held.new ≤ HELD_ROOM ⊎ (length held.new ≤ length held.old) }
    ensures cause { OnErr result (Rose (L.write_faults link.old) (L.write_faults link.new)) }
    ensures stalled { L.stalls link.old ≤ L.stalls link.new }
{
    hand_on(link, held)?;
    if piece.len() <= HELD_ROOM && held.hold(piece) {
        return Ok(piece.len());
    }
    link.write(piece)
}

// Hands on what is held, however long that waits. What the link took is no longer held, also where a write failed.
fn hand_on<L: Link>(link: &mut L, held: &mut Backlog) -> Result<(), Failed>
    ensures hands { HandsOn L.Link link.old link.new held.old held.new }
    ensures whole { OnOk result (held.new ≡ []) }
    ensures cause { OnErr result (Rose (L.write_faults link.old) (L.write_faults link.new)) }
    ensures stalled { L.stalls link.old ≤ L.stalls link.new }
{
    let (taken, went) = write_front(link, held.as_slice());
    held.let_go(taken);
    went
}

// Hands on what is held as far as the link takes it now.
fn try_hand_on<L: Link>(link: &mut L, held: &mut Backlog) -> Result<(), Failed>
    ensures hands { HandsOn L.Link link.old link.new held.old held.new }
    ensures whole { OnOk result ((held.new ≡ []) ⊎ Rose (L.stalls link.old) (L.stalls link.new)) }
    ensures cause { OnErr result (Rose (L.write_faults link.old) (L.write_faults link.new)) }
    ensures stalled { L.stalls link.old ≤ L.stalls link.new }
{
    let (taken, went) = try_front(link, held.as_slice());
    held.let_go(taken);
    went
}
