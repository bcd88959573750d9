//! What the parts of a plan may take.
ghost use Rattle.std.specs.Prelude.{◌≤◌};

use ft_base::{Fields, NoMemory};
use std::cell::Cell;

/// So many bytes the parts of a plan may take.
const ROOM: u64 = 75_000_000;
/// As long as so many are left, the leaves of a union keep what they have read ahead.
const PLENTY: u64 = 37_500_000;
/// What a leaf takes, with its place among the parts of a union, before it reads.
const LEAF: u64 = 180;
/// What it takes besides until it is put together with others: its places in the vectors of parts.
const MAKING: u64 = 220;
/// What a union takes besides its leaves: its own place among parts, and its bits.
const UNION: u64 = 900;
/// What a union takes for a place that no part needs.
const SLOT: u64 = 180;
/// What a negation or a phrase takes beside its leaves.
const PART: u64 = 300;
/// What the name of a list takes beside its bytes, and besides until its leaf is made: its place in the vector of names.
const NAME: u64 = 40;

const NAMING: u64 = 60;
/// So many entries a leaf reads ahead at most.
const AHEAD: u64 = 100;
/// What a leaf takes for each of them.
const ENTRY: u64 = 8;
/// What a copy of fields takes, and for each of them.
const FIELDS: u64 = 32;

const FIELD: u64 = 2;

/// What is left of the bytes that the parts of a plan may take. All parts of the plan share it. No clause speaks of it, as none
/// promises that memory is found.
#[derive(Drop)]
pub struct Room {
    left: Cell<u64>,
}

impl Room {
    /// Room of which nothing is taken.
    pub fn new() -> Room {
        Room {
            left: Cell::new(ROOM),
        }
    }

    /// Takes what the name of a list needs.
    pub fn take_name(&self, text: &[u8]) -> Result<(), NoMemory> {
        self.take((NAME + NAMING).saturating_add(text.len() as u64))
    }

    /// Takes what a leaf needs that looks for these fields and keeps so many entries that it reads ahead.
    pub fn take_leaf(&self, entries: u64, fields: &Fields) -> Result<(), NoMemory> {
        let copied = match fields {
            Fields::All => 0,
            Fields::Named(numbers) => FIELDS.saturating_add(FIELD.saturating_mul(
                numbers.len() as u64,
            )),
        };
        self.take((LEAF + MAKING + ENTRY * entries.min(AHEAD)).saturating_add(copied))
    }

    /// Takes what the leaf of a list of so many entries needs for those that it reads ahead.
    pub fn take_ahead(&self, entries: u64) -> Result<(), NoMemory> {
        self.take(ENTRY * entries.min(AHEAD))
    }

    /// Whether so many leaves, with so many entries in all, are to keep what they read ahead. Where they are, that is taken.
    pub fn keeps_ahead(&self, leaves: u64, entries: u64) -> bool {
        let most = AHEAD.saturating_mul(leaves);
        let bytes = ENTRY.saturating_mul(entries.min(most));
        let left = self.left.get().saturating_sub(bytes);
        if left < PLENTY {
            return false;
        }
        self.left.set(left);
        true
    }

    /// Takes what a union of so many parts needs.
    pub fn take_union(&self, parts: u64) -> Result<(), NoMemory> {
        self.take(UNION + SLOT * places_for(parts).saturating_sub(parts))
    }

    /// Takes what a negation or a phrase needs.
    pub fn take_part(&self) -> Result<(), NoMemory> {
        self.take(PART)
    }

    /// Gives back what so many leaves needed until they were put together. One alone still waits for that.
    pub fn give_leaves(&self, leaves: u64) {
        if leaves > 1 {
            self.give(MAKING.saturating_mul(leaves));
        }
    }

    /// Gives back what so many names needed until their leaves were made.
    pub fn give_names(&self, names: u64) {
        self.give(NAMING.saturating_mul(names));
    }

    // Where that is not left, there is no memory for it.
    fn take(&self, bytes: u64) -> Result<(), NoMemory> {
        let left = self.left.get();
        if left < bytes {
            return Err(NoMemory);
        }
        self.left.set(left - bytes);
        Ok(())
    }

    // What was taken is left again.
    fn give(&self, bytes: u64) {
        self.left.set(self.left.get().saturating_add(bytes));
    }
}

// For so many parts, up to sixteen, a union has places.
fn places_for(parts: u64) -> u64
    ensures { result ≤ 16 }
{
    if parts <= 4 {
        return 4;
    }
    if parts <= 8 {
        return 8;
    }
    16
}
