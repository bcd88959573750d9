//! A posting list: ids that rise, each with its hit, in blocks of 1 to 100.
//!
//! A hundred entries behind the last block are sealed in one that is shared and no longer changes; the rest is in the tail, to
//! which the next entry goes. Blocks of fewer come of a splice, which takes dead entries out. A reader passes over blocks by their last ids, and decodes only the one that it stops in.
ghost use Rattle.std.specs.Prelude.{◌≡◌, ◌<◌, ◌≤◌, ◌+◌, ◌-◌, ◌*◌, ◌^◌, ◌↔◌, ◌++◌, IfOk, IfSome, IsSome, IsTrue, OnOk, OnErr, length, unwrap_or};
ghost use Rattle.std.specs.Option.{option_copied};
ghost use Rattle.inverted_list.specs.Blocks.{Sound, listing};
ghost use Rattle.inverted_list.specs.Listing.{Listing, RisesAbove, last_id, empty_list, joined, tail_behind, with_entry, hit_of};
ghost use Rattle.inverted_list.specs.Places.{FindsBlock, Fits, IsBlockFrom, IsSound, KeepsPlaces, behind, between, least, number_of};

use crate::block_search::{block_behind, blocks_below, blocks_from, blocks_in, is_behind};
use crate::growth::{count_of, put_last, share};
use crate::marker::Marker;
use crate::picture::{Picture, empty};
use crate::place::Place;
use crate::reading::{block_at, decode_all, entry_from, walk};
use crate::sealed::Sealed;
use ft_base::{NoMemory, Span, Steps};
use posting_block::{Block, Payload};
use std::alloc::Global;
use std::marker::Model;
use std::mem::replace;
use std::sync::ledger::Ledger;

/// The entries of one word, one tag or one range: ids that rise, each with its hit.
pub struct List<P: Payload> {
    alloc: Global,
    parts: Picture<P>,
    // The number of entries.
    count: u64,
}

// Written out, it is one step for whoever drops a list.
impl<P: Payload> Drop for List<P> {
    fn drop(self) {
        let List {
            alloc: _,
            parts,
            count: _,
        } = self;
        drop(parts);
    }
}

impl<P: Payload> Model for List<P> {
    ghost use Rattle.inverted_list.specs.Listing.{Listing};
    ghost use Rattle.inverted_list.specs.Blocks.{Kept, listing};

    ghost Value = { Listing P };

    ghost view = { λ l. listing l.parts };

    ghost invariant = { λ l. Kept l.parts l.count };
}

impl<P: Payload> List<P> {
    /// No entries, and no memory taken.
    pub fn new(alloc: Global, marker: Marker) -> List<P>
        ensures { result ≡ empty_list marker }
    {
        List {
            alloc,
            parts: empty::<P>(alloc, marker),
            count: 0,
        }
    }

    /// The number of entries.
    pub fn len(&self) -> u64
        ensures len { result ≡ length self.now.entries }
        ensures rises { RisesAbove 0 self.now.entries }
    {
        self.count
    }

    /// The name of the list's present form.
    pub fn marker(&self) -> Marker
        ensures { result ≡ self.now.marker }
    {
        self.parts.marker
    }

    /// Adds an entry behind the others, written straight into its block.
    pub fn append(&mut self, id: u64, hit: &P) -> Result<(), NoMemory>
        requires { last_id 0 self.old.entries < id }
        ensures ok { OnOk result (self.new ≡ with_entry self.old id hit.now) }
        ensures err { OnErr result (self.new ≡ self.old) }
        ensures places { KeepsPlaces id self.old self.new }
    {
        put_last::<P>(self.alloc, &mut self.parts, id, hit)?;
        self.count += 1;
        Ok(())
    }

    /// The place behind the last entry with an id of at most `after`. A hint of this list at the
    /// same id is answered as it is, and takes no step. A step is a block whose last id is looked at.
    pub fn open_at<L: Ledger>(&self, hint: Option<Place>, after: u64, steps: &mut Steps<L>) -> Place
        requires { IfSome hint (λ h. IsSound h self.now) }
        ensures marker { result.marker ≡ self.now.marker }
        ensures last { result.last ≡ after }
        ensures sound { IsSound result self.now }
        ensures hint { IfSome hint (λ h. Fits h after self.now → result ≡ h) }
        ensures free { IfSome hint (λ h. Fits h after self.now → steps.new ≡ steps.old) }
        ensures counts { steps.old ≤ steps.new }
        ensures cost { 2 ^ (steps.new - steps.old) ≤ 2 * length self.now.entries + 1 }
    {
        if let Some(place) = hint {
            if place.marker == self.parts.marker && place.last == after {
                return place;
            }
        }
        let blocks = self.parts.sealed.as_slice();
        let all = Span {
            from: 0,
            to: blocks.len(),
        };
        Place {
            marker: self.parts.marker,
            block: blocks_in::<P, L>(blocks, all, after, steps),
            last: after,
        }
    }

    /// The same place, looked for first where another place of the list stands and in the block before it: where a reader
    /// that has read a block ahead was. That one need not be sound. A step is a block of the others whose last id is looked at.
    pub fn open_near<L: Ledger>(&self, near: Place, after: u64, steps: &mut Steps<L>) -> Place
        ensures marker { result.marker ≡ self.now.marker }
        ensures last { result.last ≡ after }
        ensures sound { IsSound result self.now }
        ensures counts { steps.old ≤ steps.new }
    {
        let here = Place {
            marker: self.parts.marker,
            block: near.block,
            last: after,
        };
        if self.is_sound(here) {
            return here;
        }
        let before = Place {
            marker: self.parts.marker,
            block: near.block.saturating_sub(1),
            last: after,
        };
        if self.is_sound(before) {
            return before;
        }
        self.open_at(None, after, steps)
    }

    /// Whether a place is sound: one of another marker, or it stands where it says. Two blocks' last ids are looked at.
    pub fn is_sound(&self, place: Place) -> bool
        ensures { IsTrue result ↔ IsSound place self.now }
    {
        place.marker != self.parts.marker
            || is_behind::<P>(self.parts.sealed.as_slice(), place.block, place.last)
    }

    /// The block of the first entry with an id from `from` on, lent. The place then stands behind that block. A step is a
    /// block whose last id is looked at: at most one where the next block is it, and few where few blocks are passed over.
    pub fn next_block<L: Ledger>(
        &self,
        place: &mut Place,
        from: u64,
        steps: &mut Steps<L>,
    ) -> Option<&Block<P>>
        requires sound { IsSound place.old self.now }
        requires ahead { place.old.last < from }
        ensures found { FindsBlock from self.now.entries (option_copied result) }
        ensures rises { RisesAbove 0 self.now.entries }
        ensures marker { place.new.marker ≡ self.now.marker }
        ensures sound { IsSound place.new self.now }
        ensures last { place.new.last ≡ behind from (option_copied result) }

        // What it costs to pass over entries: from a place of this list, and from any place.
        ensures counts { steps.old ≤ steps.new }
        ensures cost { place.old.marker ≡ self.now.marker
            → 2 ^ (steps.new - steps.old) ≤ 2 * (between place.old.last from self.now.entries + 1) ^ 2 }
        ensures anew { 2 ^ (steps.new - steps.old) ≤ 2 * (between 0 from self.now.entries + 1) ^ 2 }
    {
        let number = self.number_from(place, from, steps);
        let Some(block) = self.block_of(number, from) else {
            *place = self.behind(number, from - 1);
            return None;
        };
        *place = self.behind(number, block.last());
        Some(block)
    }

    /// The least id of an entry from `from` on. The place then stands behind that entry. A step is a block whose last id is
    /// looked at, or an entry that is decoded: at most a block of these.
    pub fn seek<L: Ledger>(&self, place: &mut Place, from: u64, steps: &mut Steps<L>) -> Option<u64>
        requires sound { IsSound place.old self.now }
        requires ahead { place.old.last < from }
        ensures found { result ≡ least from self.now.entries }
        ensures marker { place.new.marker ≡ self.now.marker }
        ensures sound { IsSound place.new self.now }
        ensures last { place.new.last ≡ unwrap_or result (from - 1) }
        ensures entry { IfSome result (λ id. IsSome (hit_of id self.now)) }

        ensures counts { steps.old ≤ steps.new }
        ensures cost { place.old.marker ≡ self.now.marker
            → 2 ^ (steps.new - steps.old - 100) ≤ 2 * (between place.old.last from self.now.entries + 1) ^ 2 }
        ensures anew { 2 ^ (steps.new - steps.old - 100) ≤ 2 * (between 0 from self.now.entries + 1) ^ 2 }
    {
        let number = self.number_from(place, from, steps);
        let Some(block) = self.block_of(number, from) else {
            *place = self.behind(number, from - 1);
            return None;
        };
        let id = walk::<P, L>(block, from, steps);
        *place = self.behind(number, id);
        Some(id)
    }

    /// The hit of the entry with an id.
    pub fn hit(&self, id: u64) -> Result<P, NoMemory>
        requires { IsSome (hit_of id self.now) }
        ensures { IfOk result (λ hit. hit_of id self.now ≡ Some hit) }
    {
        let block = self.own_block(id);
        let found = entry_from::<P>(block, id);
        block.hit(self.alloc, &found)
    }

    /// All entries, decoded.
    pub fn entries(&self) -> Result<Vec<(u64, P)>, NoMemory>
        ensures { IfOk result (λ entries. entries.items ≡ self.now.entries) }
    {
        decode_all::<P>(self.alloc, self.parts.sealed.as_slice(), &self.parts.tail)
    }

    /// The sealed blocks, lent.
    pub fn sealed(&self) -> &[Sealed<P>]
        ensures { result.now ≡ self.now.sealed }
    {
        self.parts.sealed.as_slice()
    }

    /// The entries behind the sealed blocks, lent.
    pub fn tail(&self) -> &Block<P>
        ensures tail { result.now ≡ tail_behind self.now.sealed self.now.entries }
        ensures whole { joined self.now.sealed ++ result.now ≡ self.now.entries }
    {
        &self.parts.tail
    }

    /// The list as it is now: its sealed blocks are shared, and its tail is copied.
    pub fn picture(&self) -> Result<Picture<P>, NoMemory>
        ensures picture { IfOk result (λ picture. listing picture ≡ self.now) }
        ensures sound { IfOk result (λ picture. Sound picture) }
    {
        share::<P>(self.alloc, &self.parts)
    }

    /// Hands the blocks out, and leaves an empty list with the same marker.
    pub fn take_parts(&mut self) -> Picture<P>
        ensures parts { listing result ≡ self.old }
        ensures sound { Sound result }
        ensures left { self.new ≡ empty_list self.old.marker }
    {
        let rest = empty::<P>(self.alloc, self.parts.marker);
        self.count = 0;
        replace(&mut self.parts, rest)
    }

    /// Puts blocks in place of all that the list held.
    pub fn put_parts(&mut self, parts: Picture<P>)
        requires { Sound parts }
        ensures { self.new ≡ listing parts }
    {
        self.count = count_of::<P>(&parts);
        self.parts = parts;
    }

    // The number of a block up to which all entries are known to have ids of at most the place's `last`.
    fn known(&self, place: &Place) -> usize
        requires { IsSound place.now self.now }
        ensures most { result ≤ number_of place.now.last self.now }
        ensures here { place.now.marker ≡ self.now.marker → result ≡ number_of place.now.last self.now }
    {
        if place.marker == self.parts.marker {
            place.block
        } else {
            0
        }
    }

    // The number of the block in which the first entry with an id from `from` on lies or would lie.
    fn number_from<L: Ledger>(&self, place: &Place, from: u64, steps: &mut Steps<L>) -> usize
        requires sound { IsSound place.now self.now }
        requires ahead { place.now.last < from }
        ensures number { result ≡ number_of (from - 1) self.now }
        ensures counts { steps.old ≤ steps.new }
        ensures cost { place.now.marker ≡ self.now.marker
            → 2 ^ (steps.new - steps.old) ≤ 2 * (between place.now.last from self.now.entries + 1) ^ 2 }
        ensures anew { 2 ^ (steps.new - steps.old) ≤ 2 * (between 0 from self.now.entries + 1) ^ 2 }
    {
        let known = self.known(place);
        blocks_from::<P, L>(self.parts.sealed.as_slice(), known, from - 1, steps)
    }

    // The block of that number, if an entry with an id from `from` on lies there.
    fn block_of(&self, number: usize, from: u64) -> Option<&Block<P>>
        requires some { 0 < from }
        requires number { number ≡ number_of (from - 1) self.now }
        ensures found { FindsBlock from self.now.entries (option_copied result) }
        ensures next { IfSome (option_copied result) (λ block. number_of (last_id 0 block) self.now ≤ number + 1) }
        ensures rises { RisesAbove 0 self.now.entries }
    {
        let block = block_at::<P>(self.parts.sealed.as_slice(), &self.parts.tail, number);
        if block.last() < from {
            None
        } else {
            Some(block)
        }
    }

    // The block that has the entry with an id.
    fn own_block(&self, id: u64) -> &Block<P>
        requires { IsSome (hit_of id self.now) }
        ensures found { IsBlockFrom id self.now.entries result.now }
        ensures rises { RisesAbove 0 self.now.entries }
    {
        let blocks = self.parts.sealed.as_slice();
        let number = blocks_below::<P>(blocks, id);
        block_at::<P>(blocks, &self.parts.tail, number)
    }

    // The place behind an id that lies in the block of a number, or is its last one.
    fn behind(&self, number: usize, last: u64) -> Place
        requires low { number ≤ number_of last self.now }
        requires high { number_of last self.now ≤ number + 1 }
        ensures marker { result.marker ≡ self.now.marker }
        ensures sound { IsSound result self.now }
        ensures last { result.last ≡ last }
    {
        Place {
            marker: self.parts.marker,
            block: block_behind::<P>(self.parts.sealed.as_slice(), number, last),
            last,
        }
    }
}
