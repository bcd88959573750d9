//! The next separator of a text, sixteen bytes at a time.
ghost use Rattle.std.specs.Prelude.{◌≡◌, ◌+◌, ◌≤◌, length, drop, map};
ghost use Rattle.std.specs.List.{prefix_len};
ghost use Rattle.std.specs.Simd.Lanes.{mask_l};
ghost use Rattle.ft_base.specs.Separators.{is_separator};
ghost use Rattle.lane_kernels.specs.Separating.{is_word_byte};

use ft_base::is_separator;
use std::simd::prelude::*;

/// The first place from `from` on that holds a separator, and the text's length where none does. A
/// backslash is a separator.
pub fn first_separator(text: &[u8], from: usize) -> usize
    requires inside { from ≤ length text.now }
    ensures place { result ≡ from + prefix_len is_word_byte (drop from text.now) }
    ensures bound { result ≤ length text.now }
{
    let mut i = from;
    'lanes: while text.len() - i >= 16 {
        let found = separators(u8x16::from_slice(&text[i..]));
        if found != 0 {
            return i + found.trailing_zeros() as usize;
        }
        i += 16;
    }
    last_separator(text, i)
}

/// Which of sixteen bytes part words: a bit each, the first one lowest. Counted from `a` or `0`, a byte
/// below it wraps to a large one.
#[inline(always)]
fn separators(bytes: u8x16) -> u64
    ensures { result ≡ mask_l (map is_separator bytes) }
{
    let letters = (bytes | u8x16::splat(0x20)) - u8x16::splat(b'a');
    let digits = bytes - u8x16::splat(b'0');
    (letters.simd_ge(u8x16::splat(26))
        & digits.simd_ge(u8x16::splat(10))
        & bytes.simd_ne(u8x16::splat(b'_'))
        & bytes.simd_lt(u8x16::splat(0x80))).to_bitmask()
}

/// The same a byte at a time, for the fewer than sixteen bytes that are left.
#[inline(never)]
fn last_separator(text: &[u8], from: usize) -> usize
    requires { from ≤ length text.now }
    ensures place { result ≡ from + prefix_len is_word_byte (drop from text.now) }
    ensures bound { result ≤ length text.now }
{
    let mut i = from;
    'bytes: while i < text.len() && !is_separator(text[i]) {
        i += 1;
    }
    i
}
