//! Which ids are in, as bits of pages.
//!
//! A page that lost its last id is spent. It stays for a while, since to take it out moves all pages
//! behind it: they are gone over once more than an eighth of them may be spent. Where the first page
//! with an id stands is kept, so that who takes the least id out time and again does not pass over
//! the spent pages each time.
ghost use Rattle.std.specs.Prelude.{◌≡◌, ◌<◌, ◌≤◌, ◌+◌, ◌-◌, ◌/◌, ◌^◌, ℕ, [], length, IfOk, OnOk, OnErr};
ghost use Rattle.doc_table.specs.Pages.{has_id, word_at, number_at, Rises, with_id, without_id, IsNext};

use crate::changes::{clear_id, drop_spent, push_id};
use crate::page::{Page, bits_from, is_set};
use crate::places::{place_of, word_if_there};
use ft_base::NoMemory;
use std::alloc::Global;
use std::marker::Model;

/// The pages, in order of their numbers, with no page twice.
#[derive(Drop)]
pub struct IdPages {
    pages: Vec<Page>,
    // No page before this place has an id.
    start: usize,
    // How many pages were spent since they were last gone over.
    spent: usize,
}

impl Model for IdPages {
    ghost use Rattle.std.specs.Prelude.{List};
    ghost use Rattle.doc_table.specs.declared.page.Page.{Page};

    ghost Value = { List Page };

    ghost use Rattle.doc_table.specs.Pages.{ArePages};

    ghost view = { λ s. s.pages.items };

    ghost invariant = { λ s. ArePages s.start s.pages.items };
}

impl IdPages {
    /// No pages, and no memory taken.
    pub fn new(alloc: Global) -> IdPages
        ensures { result ≡ [] }
    {
        IdPages {
            pages: Vec::new(alloc),
            start: 0,
            spent: 0,
        }
    }

    /// Whether an id is in.
    #[inline]
    pub fn contains(&self, id: u64) -> bool
        ensures { result ≡ has_id self.now id }
    {
        let pages = self.pages.as_slice();
        let number = id / 64;
        let at = place_of(pages, number);
        is_set(word_if_there(pages, at, number), id % 64)
    }

    /// The least id from `from` on.
    pub fn next_from(&self, from: u64) -> Option<u64>
        ensures { IsNext (has_id self.now) from result }
    {
        let pages = self.pages.as_slice();
        first_from(pages, place_of(pages, from / 64), self.start, from)
    }

    /// The same ids once more, in pages of their own.
    pub fn copied(&self) -> Result<IdPages, NoMemory>
        ensures { IfOk result (λ ids. ids ≡ self.now) }
    {
        let pages = Vec::from_slice(*self.pages.allocator(), self.pages.as_slice())?;
        Ok(IdPages {
            pages,
            start: self.start,
            spent: self.spent,
        })
    }

    /// Takes an id in, whose page is the last one or comes behind all others.
    pub fn push(&mut self, id: u64) -> Result<(), NoMemory>
        requires { Rises 0 (id / 64 + 1) self.old }
        ensures ok { OnOk result ((other : ℕ) → has_id self.new other ≡ with_id id (has_id self.old) other) }
        ensures err { OnErr result (self.new ≡ self.old) }
        ensures bound { Rises 0 (id / 64 + 1) self.new }
    {
        push_id(&mut self.pages, id)
    }

    /// Takes an id out. It takes no memory.
    pub fn remove(&mut self, id: u64)
        ensures ids { (other : ℕ) → has_id self.new other ≡ without_id id (has_id self.old) other }
        ensures bound { (high : ℕ) → Rises 0 high self.old → Rises 0 high self.new }
    {
        let spent = clear_id(&mut self.pages, id);
        self.spent = self.spent.saturating_add(usize::from(spent));
        if self.spent > self.pages.len() / 8 {
            self.sweep();
        } else {
            self.start = first_used(&self.pages, self.start);
        }
    }

    /// Gives back what is not needed.
    pub fn compact(&mut self)
        ensures ids { (other : ℕ) → has_id self.new other ≡ has_id self.old other }
        ensures bound { (high : ℕ) → Rises 0 high self.old → Rises 0 high self.new }
    {
        self.sweep();
        self.pages.shrink_to_fit();
    }

    // Takes the spent pages out.
    fn sweep(&mut self)
        ensures ids { (other : ℕ) → has_id self.new other ≡ has_id self.old other }
        ensures bound { (high : ℕ) → Rises 0 high self.old → Rises 0 high self.new }
    {
        drop_spent(&mut self.pages);
        self.start = 0;
        self.spent = 0;
    }
}

// The least id from `from` on, given the place of its page, where no page before `start` has an id.
fn first_from(pages: &[Page], place: usize, start: usize, from: u64) -> Option<u64>
    requires rises { Rises 0 (2 ^ 58) pages.now }
    requires below { (k : ℕ) → k < place → number_at pages.now k < from / 64 }
    requires above { (k : ℕ) → place ≤ k → k < length pages.now → from / 64 ≤ number_at pages.now k }
    requires spent { (k : ℕ) → k < start → word_at pages.now k ≡ 0 }
    ensures { IsNext (has_id pages.now) from result }
{
    for at in place.max(start)..pages.len() {
        let word = bits_from(pages[at], from);
        if word != 0 {
            return Some(64 * pages[at].number + u64::from(word.trailing_zeros()));
        }
    }
    None
}

// The first place from `start` on whose page has an id.
fn first_used(pages: &[Page], start: usize) -> usize
    requires within { start ≤ length pages.now - 1 }
    requires spent { (k : ℕ) → k < start → word_at pages.now k ≡ 0 }
    ensures within { result ≤ length pages.now - 1 }
    ensures spent { (k : ℕ) → k < result → word_at pages.now k ≡ 0 }
{
    for at in start..pages.len() {
        if pages[at].word != 0 {
            return at;
        }
    }
    start
}
