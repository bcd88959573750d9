//! Where a page stands among pages whose numbers rise: behind all those with lower numbers.
//!
//! A page has a number above that of the page before it. So it stands no further from the first page
//! than their numbers are apart, and likewise from the last: where no page is missing the two bounds
//! meet, and nothing is searched. Else the search by halves goes over as many places as pages are
//! missing.
ghost use Rattle.std.specs.Prelude.{◌≡◌, ◌<◌, ◌≤◌, ◌^◌, ℕ, length};
ghost use Rattle.doc_table.specs.Pages.{Rises, number_at, word_of};

use crate::page::Page;

/// How many pages have lower numbers.
#[inline(never)]
pub fn place_of(pages: &[Page], number: u64) -> usize
    requires { Rises 0 (2 ^ 58) pages.now }
    ensures within { result ≤ length pages.now }
    ensures below { (k : ℕ) → k < result → number_at pages.now k < number }
    ensures above { (k : ℕ) → result ≤ k → k < length pages.now → number ≤ number_at pages.now k }
{
    let count = pages.len();
    if count == 0 {
        return 0;
    }
    let first = pages[0].number;
    if number <= first {
        return 0;
    }
    let last = pages[count - 1].number;
    if last < number {
        return count;
    }
    let ahead = (number - first).min(count as u64) as usize;
    let behind = (last - number).min(count as u64 - 1) as usize;
    place_between(pages, number, count - 1 - behind, ahead)
}

/// The word of the page with the number, which stands at the place if there is one.
#[inline(always)]
pub fn word_if_there(pages: &[Page], at: usize, number: u64) -> u64
    requires rises { Rises 0 (2 ^ 58) pages.now }
    requires below { (k : ℕ) → k < at → number_at pages.now k < number }
    requires above { (k : ℕ) → at ≤ k → k < length pages.now → number ≤ number_at pages.now k }
    ensures { result ≡ word_of number pages.now }
{
    if at < pages.len() && pages[at].number == number {
        pages[at].word
    } else {
        0
    }
}

// How many pages have lower numbers, where those before `low` have and those from `high` on have not.
#[inline(always)]
fn place_between(pages: &[Page], number: u64, low: usize, high: usize) -> usize
    requires rises { Rises 0 (2 ^ 58) pages.now }
    requires low { low ≤ length pages.now }
    requires high { high ≤ length pages.now }
    requires below { (k : ℕ) → k < low → number_at pages.now k < number }
    requires above { (k : ℕ) → high ≤ k → k < length pages.now → number ≤ number_at pages.now k }

    ensures within { result ≤ length pages.now }
    ensures below { (k : ℕ) → k < result → number_at pages.now k < number }
    ensures above { (k : ℕ) → result ≤ k → k < length pages.now → number ≤ number_at pages.now k }
{
    let mut low = low;
    let mut high = high;
    'halving: while low < high {
        let middle = low + (high - low) / 2;
        if pages[middle].number < number {
            low = middle + 1;
        } else {
            high = middle;
        }
    }
    low
}
