//! What a plan, a search and their iterators read of an index.
ghost use Rattle.std.specs.Prelude.{◌≡◌, ◌<◌, ◌≤◌, ℕ, ℤ, int_le, length, slice_get, IfOk, IsTrue};
ghost use Rattle.std.specs.Option.{option_copied};
ghost use Rattle.id_iters.specs.Held.{Held};
ghost use Rattle.id_iters.specs.Least.{IsLeast};
ghost use Rattle.id_iters.specs.Named.{Named, lies_at};
ghost use Rattle.inverted_list.specs.Names.{NamesRise, next_name};

use ft_base::{NoMemory, Span};
use inverted_list::List;
use posting_block::{NumHit, TagHit, TextHit};

/// The lists of an index and their names, which documents are live, and the numbers that they are sorted by.
pub trait Lists {
    // the lists and the live ids
    ghost held: { Self → Held };

    // the names of the lists, and the numbers that live documents are sorted by
    ghost named: { Self → Named };

    /// The list of a word.
    fn text(&self, word: &[u8]) -> Option<&List<TextHit>>
        ensures { option_copied result ≡ (held self.now).words word.now };

    /// The list of a field's tag.
    fn tag(&self, field: u16, tag: &[u8]) -> Option<&List<TagHit>>
        ensures { option_copied result ≡ (held self.now).tags field tag.now };

    /// The list of a field's range, by the range's least number.
    fn range(&self, field: u16, low: i64) -> Option<&List<NumHit>>
        ensures { option_copied result ≡ (held self.now).ranges field low };

    /// Whether a document with this id is live.
    fn is_live(&self, id: u64) -> bool
        ensures { result ≡ (held self.now).live id };

    /// The least live id from a number on.
    fn next_live(&self, from: u64) -> Option<u64>
        ensures { IsLeast (held self.now).live from result };

    /// The least word that has a list, begins with a prefix and is above another one.
    fn next_word(&self, prefix: &[u8], after: Option<&[u8]>) -> Result<Option<&[u8]>, NoMemory>
        ensures next { IfOk result (λ word. option_copied word
            ≡ next_name (named self.now).words prefix.now (option_copied after.entry)) }
        // So one is asked for behind the other, up to the last.
        ensures rise { NamesRise (named self.now).words };

    /// The same of a field's tags.
    fn next_tag(
        &self,
        field: u16,
        prefix: &[u8],
        after: Option<&[u8]>,
    ) -> Result<Option<&[u8]>, NoMemory>
        ensures next { IfOk result (λ tag. option_copied tag
            ≡ next_name ((named self.now).tags field) prefix.now (option_copied after.entry)) }
        ensures rise { NamesRise ((named self.now).tags field) };

    /// The ranges of a field in which some number from `low` to `high` lies, by their places.
    fn ranges_between(&self, field: u16, low: i64, high: i64) -> Span
        ensures ordered { result.from ≤ result.to }
        ensures within { result.to ≤ length ((named self.now).lows field) }
        ensures met { (place : ℕ) (number : ℤ) → IsTrue (int_le low number) → IsTrue (int_le number high)
            → IsTrue (lies_at ((named self.now).lows field) place number)
            → (result.from ≤ place) × (place < result.to) };

    /// Where the range at a place begins.
    fn low_at(&self, field: u16, place: usize) -> Option<i64>
        ensures { result ≡ slice_get ((named self.now).lows field) place };

    /// The number at a place of a live document's sorting vector, for a reader that walks from id to id. `near` is where it
    /// found the document before, and any value will do: no answer depends on it.
    fn number_near(&self, id: u64, place: usize, near: &mut usize) -> Option<i64>
        ensures { result ≡ (named self.now).numbers id place };
}
