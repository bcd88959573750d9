//! What a row knows of its values, so that a long one of equal values is not read at every entry.
ghost use Rattle.std.specs.Prelude.{◌≡◌, ◌++◌, ◌∷◌, [], ℕ, length};
ghost use Rattle.numeric_ranges.specs.Rows.{IsPart, Knows};
ghost use Rattle.numeric_ranges.specs.Values.{Entries};

/// What is known of the values of a row.
#[derive(Clone, Copy)]
pub(crate) enum Spread {
    /// Nothing: entries went, and those that are left were not read.
    Unknown,
    /// There is no value.
    Empty,
    /// All values are this one.
    One(i64),
    /// Two values differ.
    Many,
}

impl Spread {
    /// What is known with one more value.
    pub fn with(self, value: i64) -> Spread
        ensures knows { (es : Entries) (id : ℕ) → Knows self es
            → Knows result (es ++ (id, record { value = value }) ∷ []) }
        ensures unknown { self ≡ Spread.Unknown → result ≡ Spread.Unknown }
        ensures known { result ≡ Spread.Unknown → self ≡ Spread.Unknown }
    {
        match self {
            Spread::Unknown => Spread::Unknown,
            Spread::Empty => Spread::One(value),
            Spread::One(other) => {
                if other == value {
                    Spread::One(value)
                } else {
                    Spread::Many
                }
            }
            Spread::Many => Spread::Many,
        }
    }

    /// What is known once entries went, and so many are left. Of two values that differ one may be gone.
    pub fn of_part(self, left: u64) -> Spread
        ensures { (es part : Entries) → Knows self es → IsPart es part → left ≡ length part
            → Knows result part }
    {
        if left == 0 {
            return Spread::Empty;
        }
        match self {
            Spread::One(value) => Spread::One(value),
            _ => Spread::Unknown,
        }
    }
}
