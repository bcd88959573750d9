//! Bytes that wait to be handed on, of which a front may be gone.
//!
//! To move the rest down at each byte that goes would cost the square of what waits: it is moved once at least as much is gone as
//! is left, or an eighth where more room is needed.
ghost use Rattle.std.specs.Prelude.{◌≡◌, ◌≤◌, ◌+◌, ◌++◌, [], length, drop, true, false, vec_capacity};

use std::marker::Model;

/// How many bytes are held while the link below takes more.
pub const HELD_ROOM: usize = 16_384;

/// How many bytes are held at the most, where the link below takes no more.
pub const HELD_MOST: usize = 67_108_864;

/// The bytes, in the order in which they came.
#[derive(Drop)]
pub(crate) struct Backlog {
    bytes: Vec<u8>,
    // How many bytes of the front are gone.
    gone: usize,
    // From how many bytes on it is tried to hand them on, where the link below took no more.
    due: usize,
}

impl Model for Backlog {
    ghost use Rattle.std.specs.Prelude.{List, ℕ, ◌≤◌, length, drop, vec_capacity};
    ghost use Rattle.fs_ports.specs.declared.backlog.TheConstants.{HELD_MOST, HELD_ROOM};

    ghost Value = { List ℕ };

    ghost view = { λ b. drop b.gone b.bytes.items };

    // The room was taken before, so that to hold a piece that fits into it needs no memory.
    ghost invariant = { λ b. (b.gone ≤ length b.bytes.items) × (length b.bytes.items ≤ HELD_MOST) × (HELD_ROOM ≤ vec_capacity b.bytes) };
}

impl Backlog {
    /// None, with room that was taken before.
    pub(crate) fn over(room: Vec<u8>) -> Backlog
        requires empty { room.items ≡ [] }
        requires room { HELD_ROOM ≤ vec_capacity room }
        ensures { result ≡ [] }
    {
        Backlog {
            bytes: room,
            gone: 0,
            due: HELD_ROOM,
        }
    }

    /// The room, without what is still held.
    pub(crate) fn into_room(self) -> Vec<u8>
        ensures empty { result.items ≡ [] }
        ensures room { HELD_ROOM ≤ vec_capacity result }
    {
        let Backlog {
            mut bytes,
            gone: _,
            due: _,
        } = self;
        bytes.clear();
        bytes.shrink_to(HELD_ROOM);
        bytes
    }

    /// What is held.
    pub(crate) fn as_slice(&self) -> &[u8]
        ensures { result.now ≡ self.now }
    {
        &self.bytes.as_slice()[self.gone..]
    }

    /// How many bytes are held.
    pub(crate) fn len(&self) -> usize
        ensures count { result ≡ length self.now }
        ensures most { length self.now ≤ HELD_MOST }
    {
        self.bytes.len() - self.gone
    }

    // Whether so many more bytes are held before any is handed on.
    fn waits_for(&self, more: usize) -> bool
        ensures fits { length self.now + more ≤ HELD_ROOM → result ≡ true }
        ensures past { result ≡ true → length self.now ≤ HELD_ROOM → length self.now + more ≤ HELD_ROOM }
    {
        let len = self.len();
        let until = if len > HELD_ROOM { self.due } else { HELD_ROOM };
        len <= until && more <= until - len
    }

    /// Holds the piece where nothing has to be handed on before, and answers whether it does.
    pub(crate) fn hold_first(&mut self, piece: &[u8]) -> bool
        ensures taken { result ≡ true → self.new ≡ self.old ++ piece.now }
        ensures left { result ≡ false → self.new ≡ self.old }
        ensures fits { length self.old + length piece.now ≤ HELD_ROOM → result ≡ true }
        ensures past { result ≡ true → length self.old ≤ HELD_ROOM → length self.new ≤ HELD_ROOM }
        ensures most { result ≡ true → length self.new ≤ HELD_MOST }
    {
        self.waits_for(piece.len()) && self.hold(piece)
    }

    /// Holds the piece behind what is held, and answers whether it was taken: not where there is no memory or too much is held.
    pub(crate) fn hold(&mut self, piece: &[u8]) -> bool
        ensures taken { result ≡ true → self.new ≡ self.old ++ piece.now }
        ensures left { result ≡ false → self.new ≡ self.old }
        ensures fits { length self.old + length piece.now ≤ HELD_ROOM → result ≡ true }
        ensures most { length self.new ≤ HELD_MOST }
    {
        let short = piece.len() > self.bytes.capacity().min(HELD_MOST) - self.bytes.len();
        if short && (self.gone >= self.bytes.len() / 8 || self.waits_for(piece.len())) {
            take_front(&mut self.bytes, self.gone);
            self.gone = 0;
        }
        piece.len() <= HELD_MOST - self.bytes.len() && self.bytes.extend_from_slice(piece).is_ok()
    }

    /// Lets so many bytes of the front go.
    pub(crate) fn let_go(&mut self, count: usize)
        requires { count ≤ length self.old }
        ensures { self.new ≡ drop count self.old }
    {
        self.gone += count;
        let rest = self.len();
        if self.gone >= rest {
            take_front(&mut self.bytes, self.gone);
            self.gone = 0;
        }
        if rest == 0 {
            self.bytes.shrink_to(HELD_ROOM);
        }
        self.due = rest + HELD_ROOM;
    }
}

// Takes so many bytes out from the front.
fn take_front(bytes: &mut Vec<u8>, count: usize)
    requires { count ≤ length bytes.old.items }
    ensures items { bytes.new.items ≡ drop count bytes.old.items }
    ensures room { vec_capacity bytes.new ≡ vec_capacity bytes.old }
{
    let len = bytes.len();
    bytes.copy_within(count..len, 0);
    bytes.truncate(len - count);
}
