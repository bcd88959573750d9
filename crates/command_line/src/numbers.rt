//! Words that are numbers: decimal digits, without a sign and without a leading zero.
ghost use Rattle.std.specs.Prelude.{◌≡◌, ◌↔◌, ℕ, Some};
ghost use Rattle.command_line.specs.Forms.{IsNumber, IsSeed};

use ft_base::read_int;

/// The most documents of a load.
const MOST_DOCS: u32 = 100_000;

/// The number from 1 to `most` that the word is.
pub(crate) fn number_in(word: &str, most: u16) -> Option<u16>
    ensures { (n : ℕ) → (result ≡ Some n) ↔ IsNumber word.now n most }
{
    match read_int(word.as_bytes()) {
        Some(number) if 1 <= number && number <= i64::from(most) => Some(number as u16),
        _ => None,
    }
}

/// The number below 2^63 that the word is.
pub(crate) fn seed_in(word: &str) -> Option<u64>
    ensures { (n : ℕ) → (result ≡ Some n) ↔ IsSeed word.now n }
{
    match read_int(word.as_bytes()) {
        Some(number) if 0 <= number => Some(number as u64),
        _ => None,
    }
}

/// The number of documents that the word is.
pub(crate) fn docs_in(word: &str) -> Option<u32>
    ensures { (n : ℕ) → (result ≡ Some n) ↔ IsNumber word.now n 100000 }
{
    match read_int(word.as_bytes()) {
        Some(number) if 1 <= number && number <= i64::from(MOST_DOCS) => Some(number as u32),
        _ => None,
    }
}
