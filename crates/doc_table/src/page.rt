//! A page: 64 ids in a row, with a bit for each.
ghost use Rattle.std.specs.Prelude.{◌≡◌, ◌<◌, ◌≤◌, ◌+◌, ◌*◌, ◌/◌, ◌&&◌, ℕ, nat_le};
ghost use Rattle.doc_table.specs.Pages.{bit_of};

/// 64 ids in a row, from 64 times `number` on, with a bit for each that is in.
#[derive(Clone, Copy)]
pub struct Page {
    pub number: u64,
    pub word: u64,
}

/// The bit of a word.
#[inline(always)]
pub fn is_set(word: u64, bit: u64) -> bool
    requires { bit < 64 }
    ensures { result ≡ bit_of word bit }
{
    (word >> bit) & 1 == 1
}

/// The page's word without the bits of ids below `from`.
pub fn bits_from(page: Page, from: u64) -> u64
    requires { from / 64 ≤ page.number }
    ensures { (bit : ℕ) → bit < 64 → bit_of result bit ≡ (nat_le from (64 * page.number + bit) && bit_of page.word bit) }
{
    if page.number == from / 64 {
        page.word & (u64::MAX << (from % 64))
    } else {
        page.word
    }
}
