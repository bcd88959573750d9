//! What the lock asks of a state, of an entry and of what a turn adds.
ghost use Rattle.std.specs.Prelude.{◌≡◌, ℕ, List};

/// An entry of a log, of which the lock reads the caller's number alone.
pub trait Logged {
    /// The number of the caller that made it.
    ghost caller: { Self → ℕ };
}

/// A state that stands for a list of entries.
pub trait Chronicle {
    type Entry: Logged;

    /// The number of its first entry, which the state keeps from its opening on.
    ghost first: { Self → ℕ };

    /// Whether the state stands for these entries, the first of which has this number.
    ghost tells: { Self → List Self.Entry → ℕ → Type 0 };

    /// The number of its first entry. The lock asks for it once, as it opens.
    fn first_number(&self) -> u64
        ensures { result ≡ first self.now };
}

/// What a turn adds to the log: one entry or more, all of the caller whose turn it is.
pub trait Told<E: Logged> {
    ghost use Rattle.std.specs.Prelude.{◌≡◌, ◌<◌, ℕ, List, length};
    ghost use Rattle.turn_gate.specs.Log.{AllBy};

    /// How many entries.
    ghost size: { Self → ℕ };

    /// The entries, of the caller's number, the number of the log's first entry, and the log before the turn.
    ghost entries: { Self → ℕ → ℕ → List E → List E };

    /// How many entries it adds.
    fn count(&self) -> u64
        ensures { result ≡ size self.now };

    /// There is an entry.
    ghost some: { (told : Self) → 0 < size told };

    /// There are as many as `count` answers, whatever the log is.
    ghost sized: { (told : Self) (caller first : ℕ) (seen : List E)
        → length (entries told caller first seen) ≡ size told };

    /// They are of the caller whose turn it is.
    ghost own: { (told : Self) (caller first : ℕ) (seen : List E)
        → AllBy E.caller caller (entries told caller first seen) };
}
