//! The lists of an index, by kind, and how a document's entries go into them.
ghost use Rattle.std.specs.Prelude.{◌≡◌, ◌<◌, ◌≤◌, ◌^◌, ℕ, Bool, [], length, map, IfOk, IfNone, IfSome, OnOk, option_copied};
ghost use Rattle.ft_meaning.specs.Meaning.{ValuesFit};
ghost use Rattle.ft_index.specs.Adding.{IsSeen, IsUnseen, ListsHave};
ghost use Rattle.ft_index.specs.Coming.{ListsCome};
ghost use Rattle.ft_index.specs.Lists.{rows_of};
ghost use Rattle.ft_index.specs.Markers.{AreBefore, AreGiven, GainsMarkers, MarkersDiffer};
ghost use Rattle.ft_index.specs.Parting.{behind, parted, whole_room};
ghost use Rattle.ft_index.specs.Picturing.{AreOrdered, all_named, shown};
ghost use Rattle.ft_index.specs.Records.{CountsJust, CountsLive, all_entries};
ghost use Rattle.ft_index.specs.Splicing.{FitsName, SplicesName};
ghost use Rattle.ft_index.specs.Thinned.{ListsLive, ListsThin};
ghost use Rattle.ft_index.specs.UpTo.{AreUpTo};

use crate::collecting::{collect_tags, collect_words};
use crate::collecting_ranges::collect_ranges;
use crate::numbers::{add_numbers, first_ranges};
use crate::parting::{Part, part_ranges, part_tags, part_words};
use crate::records::entries_in_ranges;
use crate::repairs::AnyRepair;
use crate::scanning::{picture_ranges, picture_tags, picture_words};
use crate::snapshots::NamedPicture;
use crate::splicing::splice_range;
use crate::sweeping::{sweep_ranges, sweep_tags, sweep_words};
use crate::tags::add_tags;
use crate::words::add_words;
use ft_base::{Doc, IndexDef, ListOf, NoMemory};
use gc_splice::{Live, Spliced};
use id_iters::ListName;
use inverted_list::{Marker, Markers};
use numeric_ranges::Ranges;
use std::alloc::Global;
use std::marker::Model;
use term_dict::{TagLists, Terms};

/// Above every integer of the wire.
const WIRE_END: u64 = 1 << 63;

/// The lists of an index: those of its words, of the tags of its TAG fields, and of the ranges of
/// its NUMERIC fields.
pub struct IndexLists {
    alloc: Global,
    terms: Terms,
    tags: TagLists,
    // By the field's number.
    ranges: Vec<Option<Ranges>>,
}

// Written out, it is one step for whoever drops the lists.
impl Drop for IndexLists {
    fn drop(self) {
        let IndexLists {
            alloc: _,
            terms,
            tags,
            ranges,
        } = self;
        drop(terms);
        drop(tags);
        drop(ranges);
    }
}

impl Model for IndexLists {
    ghost use Rattle.ft_index.specs.Lists.{AllLists};

    ghost Value = { AllLists };

    ghost view = { λ l. record {
      words = l.terms;
      tags = l.tags;
      ranges = l.ranges.items;
    } };
}

impl IndexLists {
    /// Lists without entries: none but a range over all numbers for each NUMERIC field that is not
    /// NOINDEX. Each takes a marker.
    pub fn new(alloc: Global, def: &IndexDef, markers: &mut Markers) -> Result<IndexLists, NoMemory>
        requires { length def.now.fields ≤ 1_024 }
        ensures empty { IfOk result (λ lists. ListsHave def.now lists [] []) }
        // No word and no tag has even a list without entries.
        ensures words { IfOk result (λ lists. lists.words ≡ []) }
        ensures tags { IfOk result (λ lists. lists.tags ≡ []) }
        ensures up_to { IfOk result (λ lists. AreUpTo 0 lists) }
        // Which markers its lists have.
        ensures differ { IfOk result (λ lists. MarkersDiffer lists) }
        ensures before { IfOk result (λ lists. AreBefore markers.new lists) }
        ensures given { IfOk result (λ lists. AreGiven markers.old markers.new lists) }
        ensures event { markers.new.event ≡ markers.old.event }
        ensures next { markers.old.next ≤ markers.new.next }
    {
        let ranges = first_ranges(alloc, def, markers)?;
        Ok(IndexLists {
            alloc,
            terms: Terms::new(alloc),
            tags: TagLists::new(alloc),
            ranges,
        })
    }

    /// The lists of words, lent.
    pub fn terms(&self) -> &Terms
        ensures { result.now ≡ self.now.words }
    {
        &self.terms
    }

    /// The lists of tags, lent.
    pub fn tag_lists(&self) -> &TagLists
        ensures { result.now ≡ self.now.tags }
    {
        &self.tags
    }

    /// The ranges of the field of a number: none exactly where the field has none.
    pub fn ranges_of(&self, field: u16) -> Option<&Ranges>
        ensures { option_copied result ≡ rows_of self.now.ranges field }
    {
        self.ranges.get(usize::from(field))?.as_ref()
    }

    /// The number of entries of all lists, of live documents or not: none where it does not fit an
    /// integer of the wire. The entries are counted as they come and go, so no list is looked at.
    pub fn records(&self) -> Option<u64>
        ensures some { IfSome result (λ n. n ≡ all_entries self.now) }
        ensures fits { IfSome result (λ n. n < 2 ^ 63) }
        ensures none { IfNone result (2 ^ 63 ≤ all_entries self.now) }
        // There are at least the live ones, and no others where no entry is dead.
        ensures least { CountsLive self.now result }
        ensures exact { CountsJust self.now result }
    {
        let _ = self.terms.len();
        let _ = self.tags.len();
        let words = self.terms.entries()?;
        let tags = self.tags.entries()?;
        let numbers = entries_in_ranges(self.ranges.as_slice())?;
        let all = words.checked_add(tags)?.checked_add(numbers)?;
        if all < WIRE_END { Some(all) } else { None }
    }

    /// A picture of every list, in the order of names.
    pub fn pictures(&self) -> Result<ListOf<NamedPicture>, NoMemory>
        ensures named { IfOk result (λ all. map shown all ≡ all_named self.now) }
        ensures ordered { IfOk result (λ _. AreOrdered self.now) }
    {
        let mut all = ListOf::new(self.alloc);
        picture_words(&self.terms, self.alloc, &mut all)?;
        picture_tags(&self.tags, self.alloc, &mut all)?;
        picture_ranges(self.ranges.as_slice(), &mut all)?;
        Ok(all)
    }

    /// A part of the lists, from behind a name on, or from the first.
    pub fn part<L: Live>(&self, hand: Option<&ListName>, live: &L) -> Result<Part, NoMemory>
        ensures named { IfOk result (λ part. map shown part.pictures
            ≡ parted whole_room (behind (option_copied hand.entry) (all_named self.now))) }
        ensures ordered { IfOk result (λ _. AreOrdered self.now) }
    {
        let mut part = Part::new(self.alloc);
        part_words(&self.terms, self.alloc, hand, live, &mut part)?;
        part_tags(&self.tags, self.alloc, hand, live, &mut part)?;
        part_ranges(self.ranges.as_slice(), hand, live, &mut part)?;
        Ok(part)
    }

    /// Puts a document's entries into the lists: one in the list of each of its words, of each of its
    /// tags, and in a range for each of its numbers. Out of memory, some may have come.
    pub fn add(&mut self, def: &IndexDef, doc: &Doc, markers: &mut Markers) -> Result<(), NoMemory>
        requires fields { length def.now.fields ≤ 1_024 }
        requires values { ValuesFit doc.now.hash }
        requires later { (last : ℕ) × (last < doc.now.id) × AreUpTo last self.old }
        requires differ { MarkersDiffer self.old }
        requires before { AreBefore markers.old self.old }
        // Nothing of it is seen while its id is not live, out of memory or not.
        ensures unseen { IsUnseen doc.now.id (ListsHave def.now self.old) (ListsHave def.now self.new) }
        // Once the id is live, the lists stand for the document too.
        ensures seen { OnOk result (IsSeen def.now doc.now
            (ListsHave def.now self.old) (ListsHave def.now self.new)) }
        ensures up_to { AreUpTo doc.now.id self.new }
        // Which markers its lists have.
        ensures differ { MarkersDiffer self.new }
        ensures before { AreBefore markers.new self.new }
        ensures gains { GainsMarkers self.old self.new markers.old markers.new }
        // Each list that was made before has grown from what it was.
        ensures comes { ListsCome markers.old.event self.old self.new }
        ensures event { markers.new.event ≡ markers.old.event }
        ensures next { markers.old.next ≤ markers.new.next }
    {
        add_words(&mut self.terms, self.alloc, def, doc, markers)?;
        add_tags(&mut self.tags, self.alloc, def, doc, markers)?;
        add_numbers(self.ranges.as_mut_slice(), def, doc, markers)
    }

    /// Takes the dead entries out of all lists. A list that changes gets a new marker, and a word or tag that is left without an
    /// entry goes. Out of memory, some lists still have theirs.
    pub fn collect<L: Live>(&mut self, live: &L, markers: &mut Markers) -> Result<(), NoMemory>
        requires differ { MarkersDiffer self.old }
        requires before { AreBefore markers.old self.old }
        ensures thin { ListsThin (L.is live.now) self.old self.new }
        ensures live { OnOk result (ListsLive (L.is live.now) self.new) }
        // Which markers its lists have.
        ensures differ { MarkersDiffer self.new }
        ensures before { AreBefore markers.new self.new }
        ensures gains { GainsMarkers self.old self.new markers.old markers.new }
        // A list that lost entries is made anew, and each other one stays.
        ensures comes { ListsCome markers.old.event self.old self.new }
        ensures event { markers.new.event ≡ markers.old.event }
        ensures next { markers.old.next ≤ markers.new.next }
    {
        collect_words(&mut self.terms, self.alloc, live, markers)?;
        collect_tags(&mut self.tags, self.alloc, live, markers)?;
        collect_ranges(self.ranges.as_mut_slice(), self.alloc, live, markers)
    }

    /// Takes the dead entries out of the lists of some names. A list that changes gets a new marker, and a word or tag that is left
    /// without an entry goes. Out of memory, some lists still have theirs.
    pub fn sweep<L: Live>(
        &mut self,
        names: &[ListName],
        live: &L,
        markers: &mut Markers,
    ) -> Result<(), NoMemory>
        requires differ { MarkersDiffer self.old }
        requires before { AreBefore markers.old self.old }
        ensures thin { ListsThin (L.is live.now) self.old self.new }
        // Which markers its lists have.
        ensures differ { MarkersDiffer self.new }
        ensures before { AreBefore markers.new self.new }
        ensures gains { GainsMarkers self.old self.new markers.old markers.new }
        // A list that lost entries is made anew, and each other one stays.
        ensures comes { ListsCome markers.old.event self.old self.new }
        ensures event { markers.new.event ≡ markers.old.event }
        ensures next { markers.old.next ≤ markers.new.next }
    {
        sweep_words(&mut self.terms, names, live, markers)?;
        sweep_tags(&mut self.tags, names, live, markers)?;
        sweep_ranges(self.ranges.as_mut_slice(), names, live, markers)
    }

    /// Splices a repair into the list of a name. A word or tag that is left without an entry goes. It takes no memory.
    pub fn splice(&mut self, name: &ListName, repair: &mut AnyRepair, marker: Marker) -> Spliced
        requires { (live : ℕ → Bool) × FitsName live self.old name.now repair.old }
        ensures { SplicesName name.now repair.old marker self.old self.new result }
    {
        match (name, repair) {
            (ListName::Word { text }, AnyRepair::Word(repair)) => {
                self.terms.splice(text.as_slice(), repair, marker)
            }
            (ListName::Tag { field, text }, AnyRepair::Tag(repair)) => {
                self.tags.splice(*field, text.as_slice(), repair, marker)
            }
            (ListName::Range { field, low }, AnyRepair::Range(repair)) => {
                splice_range(self.ranges.as_mut_slice(), *field, *low, repair, marker)
            }
            _ => Spliced::Gone,
        }
    }
}
