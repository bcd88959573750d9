//! The ends of an interval of numbers.
ghost use Rattle.std.specs.Prelude.{◌≡◌, IfNone, IfSome, negsuc, pos};
ghost use Rattle.field_text.specs.Bounds.{bound_of, high_of, interval_of, low_of};

use crate::numbers::number;
use ft_base::is_name;

/// What a text says as an end of an interval.
#[derive(Clone, Copy)]
pub enum Bound {
    /// The least number of 64 bits.
    Least,
    /// The greatest one.
    Greatest,
    Exactly(i64),
}

/// What a text says as an end: `inf`, `+inf` or `-inf` in any case, or a number of a NUMERIC field.
pub fn read_bound(text: &[u8]) -> Option<Bound>
    ensures { result ≡ bound_of text.now }
{
    if is_name(text, b"inf") || is_name(text, b"+inf") {
        Some(Bound::Greatest)
    } else if is_name(text, b"-inf") {
        Some(Bound::Least)
    } else {
        match number(text) {
            Some(number) => Some(Bound::Exactly(number)),
            None => None,
        }
    }
}

impl Bound {
    /// The least number of an interval that begins at this end, if one has 64 bits. The end itself may
    /// be left out, unless it is infinite.
    pub fn low(self, excluded: bool) -> Option<i64>
        ensures some { IfSome result (λ n. low_of excluded self ≡ n) }
        ensures none { IfNone result (low_of excluded self ≡ pos 9223372036854775808) }
    {
        match self {
            Bound::Exactly(number) if excluded => number.checked_add(1),
            Bound::Exactly(number) => Some(number),
            Bound::Greatest => Some(i64::MAX),
            Bound::Least => Some(i64::MIN),
        }
    }

    /// The greatest number of an interval that stops at this end, if one has 64 bits.
    pub fn high(self, excluded: bool) -> Option<i64>
        ensures some { IfSome result (λ n. high_of excluded self ≡ n) }
        ensures none { IfNone result (high_of excluded self ≡ negsuc 9223372036854775808) }
    {
        match self {
            Bound::Exactly(number) if excluded => number.checked_sub(1),
            Bound::Exactly(number) => Some(number),
            Bound::Least => Some(i64::MIN),
            Bound::Greatest => Some(i64::MAX),
        }
    }
}

/// The numbers between two ends, both included, each given with whether it is left out. `None` where
/// there is no number.
pub fn interval(low: (bool, Bound), high: (bool, Bound)) -> Option<(i64, i64)>
    ensures { result ≡ interval_of (low_of low.0 low.1) (high_of high.0 high.1) }
{
    match (low.1.low(low.0), high.1.high(high.0)) {
        (Some(low), Some(high)) if low <= high => Some((low, high)),
        _ => None,
    }
}
