//! The order of two texts, as they are or with A to Z lowered.
ghost use Rattle.std.specs.Prelude.{◌≡◌};
ghost use Rattle.std.specs.Cmp.Lexicographic.{slice_cmp};
ghost use Rattle.std.specs.Ordering.{nat_cmp};
ghost use Rattle.std.specs.Str.{str_to_ascii_lowercase};
ghost use Rattle.row_sort.specs.Order.{lowered};

use std::cmp::Ordering;

/// The order of two texts by their bytes.
pub fn compare_texts(left: &[u8], right: &[u8], lower: bool) -> Ordering
    ensures { result ≡ slice_cmp nat_cmp (lowered lower left.now) (lowered lower right.now) }
{
    if lower {
        compare_lowered(left, right)
    } else {
        left.cmp(right)
    }
}

/// Their order with A to Z lowered. Each byte is lowered as it is compared, so nothing is copied.
fn compare_lowered(left: &[u8], right: &[u8]) -> Ordering
    ensures { result
        ≡ slice_cmp nat_cmp (str_to_ascii_lowercase left.now) (str_to_ascii_lowercase right.now) }
{
    let left = left.iter().map(|byte| byte.to_ascii_lowercase());
    let right = right.iter().map(|byte| byte.to_ascii_lowercase());
    left.cmp(right)
}
