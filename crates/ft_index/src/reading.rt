//! What a plan, a search and their iterators read of an index.
ghost use Rattle.ft_index.specs.Lists.{held_of, named_of};

use crate::index::FtIndex;
use ft_base::{NoMemory, Span};
use id_iters::Lists;
use inverted_list::List;
use posting_block::{NumHit, TagHit, TextHit};

impl Lists for FtIndex {
    ghost held = { λ index. held_of index.lists index.table.live };

    ghost named = { λ index. named_of index.lists index.table.live };

    fn text(&self, word: &[u8]) -> Option<&List<TextHit>> {
        self.lists().terms().list(word)
    }

    fn tag(&self, field: u16, tag: &[u8]) -> Option<&List<TagHit>> {
        self.lists().tag_lists().list(field, tag)
    }

    fn range(&self, field: u16, low: i64) -> Option<&List<NumHit>> {
        self.lists().ranges_of(field)?.by_low(low)
    }

    fn is_live(&self, id: u64) -> bool {
        self.table().is_live(id)
    }

    fn next_live(&self, from: u64) -> Option<u64> {
        let _ = self.def();
        self.table().next_live(from)
    }

    fn next_word(&self, prefix: &[u8], after: Option<&[u8]>) -> Result<Option<&[u8]>, NoMemory> {
        let terms = self.lists().terms();
        // Its clause tells that the words rise.
        let _ = terms.len();
        terms.next_name(prefix, after)
    }

    fn next_tag(
        &self,
        field: u16,
        prefix: &[u8],
        after: Option<&[u8]>,
    ) -> Result<Option<&[u8]>, NoMemory> {
        let tags = self.lists().tag_lists();
        // The same of tags.
        let _ = tags.len();
        tags.next_name(field, prefix, after)
    }

    fn ranges_between(&self, field: u16, low: i64, high: i64) -> Span {
        match self.lists().ranges_of(field) {
            Some(ranges) => ranges.between(low, high),
            None => Span { from: 0, to: 0 },
        }
    }

    fn low_at(&self, field: u16, place: usize) -> Option<i64> {
        let ranges = self.lists().ranges_of(field)?;
        if place < ranges.count() {
            Some(ranges.low(place))
        } else {
            None
        }
    }

    fn number_near(&self, id: u64, place: usize, near: &mut usize) -> Option<i64> {
        self.table().number_near(id, place, near)
    }
}
