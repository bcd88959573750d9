//! Ids that a union has read ahead, a bit for each.
ghost use Rattle.std.specs.Prelude.{◌≡◌, ◌<◌, ◌≤◌, ◌+◌, ◌-◌, ◌*◌, ◌/◌, ◌%◌, ◌^◌, ◌&&◌, ◌||◌, ℕ, false, length, nat_eq, nat_le, IfSome, OnOk};
ghost use Rattle.doc_table.specs.Pages.{bit_of};
ghost use Rattle.id_iters.specs.Least.{IsLeast};
ghost use Rattle.id_iters.specs.Stretch.{base_of, is_in, limit_of};

use ft_base::NoMemory;
use std::alloc::Global;
use std::marker::Model;

/// So many words are read ahead: 4,096 ids.
const WORDS: usize = 64;

/// The ids of a stretch that are in, a bit for each. The first word has those from 64 times `start` on. Where `frugal` is set, the
/// lists that they are read from keep no memory for what they have read ahead; no clause speaks of it.
#[derive(Drop)]
pub struct Bits {
    start: u64,
    words: Vec<u64>,
    frugal: bool,
}

impl Model for Bits {
    ghost use Rattle.std.specs.Prelude.{◌≤◌, ◌+◌, ◌^◌, length};
    ghost use Rattle.id_iters.specs.Stretch.{Stretch};

    ghost Value = { Stretch };

    ghost view = { λ b. record { start = b.start; words = b.words.items } };

    ghost invariant = { λ b. b.start + length b.words.items ≤ 2 ^ 57 };
}

impl Bits {
    /// An empty stretch, and no memory taken.
    pub(crate) fn new(alloc: Global, frugal: bool) -> Bits
        ensures base { base_of result ≡ 0 }
        ensures limit { limit_of result ≡ 0 }
    {
        Bits {
            start: 0,
            words: Vec::new(alloc),
            frugal,
        }
    }

    /// Whether lists are to keep no memory for what they have read ahead.
    pub(crate) fn is_frugal(&self) -> bool {
        self.frugal
    }

    /// Where the stretch ends.
    pub(crate) fn limit(&self) -> u64
        ensures { result ≡ limit_of self.now }
    {
        64 * (self.start + self.words.len() as u64)
    }

    /// The least id from `from` on that is in.
    #[inline(always)]
    pub(crate) fn next_from(&self, from: u64) -> Option<u64>
        requires { base_of self.now ≤ from }
        ensures next { IsLeast (is_in self.now) from result }
        ensures within { IfSome result (λ id. id < limit_of self.now) }
    {
        first_from(self.words.as_slice(), self.start, from)
    }

    /// Takes an id in.
    #[inline(always)]
    pub(crate) fn set(&mut self, id: u64)
        requires base { base_of self.old ≤ id }
        requires limit { id < limit_of self.old }
        ensures has { (other : ℕ) → base_of self.old ≤ other
            → is_in self.new other ≡ (nat_eq other id || is_in self.old other) }
        ensures base { base_of self.new ≡ base_of self.old }
        ensures limit { limit_of self.new ≡ limit_of self.old }
    {
        let at = (id / 64 - self.start) as usize;
        let word = self.words[at] | (1 << (id % 64));
        self.words[at] = word;
    }

    /// Moves the stretch to an id. None is in.
    pub(crate) fn move_to(&mut self, id: u64) -> Result<(), NoMemory>
        requires { id < 2 ^ 62 }
        ensures base { OnOk result (base_of self.new ≤ id) }
        ensures limit { OnOk result (id < limit_of self.new) }
        ensures clear { OnOk result ((other : ℕ) → is_in self.new other ≡ false) }
    {
        self.words.clear();
        self.words.resize(WORDS, 0)?;
        self.start = id / 64;
        Ok(())
    }
}

// The least id from `from` on whose bit is set.
#[inline(always)]
fn first_from(words: &[u64], start: u64, from: u64) -> Option<u64>
    requires base { 64 * start ≤ from }
    requires room { start + length words.now ≤ 2 ^ 57 }
    ensures next { IsLeast (is_in (record { start = start; words = words.now })) from result }
    ensures within { IfSome result (λ id. id < 64 * (start + length words.now)) }
{
    let first = (from / 64 - start) as usize;
    for at in first..words.len() {
        let number = start + at as u64;
        let word = bits_from(words[at], number, from);
        if word != 0 {
            return Some(64 * number + u64::from(word.trailing_zeros()));
        }
    }
    None
}

// A word without the bits of ids below `from`.
#[inline(always)]
fn bits_from(word: u64, number: u64, from: u64) -> u64
    requires { from / 64 ≤ number }
    ensures { (bit : ℕ) → bit < 64 → bit_of result bit ≡ (nat_le from (64 * number + bit) && bit_of word bit) }
{
    if number == from / 64 {
        word & (u64::MAX << (from % 64))
    } else {
        word
    }
}
