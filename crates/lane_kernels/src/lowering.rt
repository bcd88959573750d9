//! A text with A to Z lowered, sixteen bytes at a time.
ghost use Rattle.std.specs.Prelude.{◌≡◌, ◌≤◌, length, take};
ghost use Rattle.std.specs.Str.{str_to_ascii_lowercase};

use std::simd::prelude::*;

/// Writes the text over `out` with A to Z lowered. Each other byte is as it was, those from 0x80 on too.
pub fn lower_into(text: &[u8], out: &mut [u8])
    requires room { length text.now ≡ length out.old }
    ensures lowered { out.new ≡ str_to_ascii_lowercase text.now }
{
    let mut i = 0;
    'lanes: while text.len() - i >= 16 {
        lowered(u8x16::from_slice(&text[i..])).copy_to_slice(&mut out[i..]);
        i += 16;
    }
    lower_last(text, out, i)
}

/// The same a byte at a time, for the fewer than sixteen that are left from a place on.
fn lower_last(text: &[u8], out: &mut [u8], from: usize)
    requires room { length text.now ≡ length out.old }
    requires inside { from ≤ length text.now }
    requires lowered { take from out.old ≡ str_to_ascii_lowercase (take from text.now) }
    ensures { out.new ≡ str_to_ascii_lowercase text.now }
{
    let mut i = from;
    'bytes: while i < text.len() {
        out[i] = text[i].to_ascii_lowercase();
        i += 1;
    }
}

/// Sixteen bytes with A to Z lowered. Counted from A, a byte below it wraps to one of 191 and more.
#[inline(always)]
fn lowered(bytes: u8x16) -> u8x16
    ensures { result ≡ str_to_ascii_lowercase bytes }
{
    let capitals = (bytes - u8x16::splat(b'A')).simd_lt(u8x16::splat(26));
    capitals.select(bytes | u8x16::splat(0x20), bytes)
}
