//! Which hits of a list are wanted.
use crate::places::has_code_in;
use ft_base::Fields;
use posting_block::{NumHit, Payload, TextHit};

/// Which hits of a list are wanted.
pub trait HitTest<P: Payload> {
    ghost use Rattle.std.specs.Prelude.{◌≡◌, Bool, true};

    ghost wants: { Self → P → Bool };

    /// Whether every hit that a list can hold is known to be wanted, so that none need be read.
    fn takes_all(&self) -> bool
        ensures { result ≡ true → (hit : P) → P.valid hit → wants self.now hit ≡ true };

    /// Whether the hit is wanted.
    fn takes(&self, hit: &P) -> bool
        ensures { result ≡ wants self.now hit.now };
}

/// Every hit. None is read.
#[derive(Clone, Copy)]
pub struct EveryHit;

impl<P: Payload> HitTest<P> for EveryHit {
    ghost use Rattle.std.specs.Prelude.{true};

    ghost wants = { λ test hit. true };

    fn takes_all(&self) -> bool {
        true
    }

    fn takes(&self, _hit: &P) -> bool {
        true
    }
}

impl HitTest<TextHit> for Fields {
    ghost use Rattle.id_iters.specs.Entries.{counts_in};

    ghost wants = { counts_in };

    fn takes_all(&self) -> bool {
        match self {
            Fields::All => true,
            Fields::Named(_) => false,
        }
    }

    fn takes(&self, hit: &TextHit) -> bool {
        match self {
            Fields::All => true,
            Fields::Named(fields) => has_code_in(fields.as_slice(), hit.places.as_slice()),
        }
    }
}

/// The numbers from `low` to `high`, both included.
#[derive(Clone, Copy)]
pub struct Interval {
    pub low: i64,
    pub high: i64,
}

impl HitTest<NumHit> for Interval {
    ghost use Rattle.id_iters.specs.Entries.{lies_in};

    ghost wants = { λ test hit. lies_in test.low test.high hit };

    fn takes_all(&self) -> bool {
        self.low == i64::MIN && self.high == i64::MAX
    }

    fn takes(&self, hit: &NumHit) -> bool {
        self.low <= hit.value && hit.value <= self.high
    }
}
