//! Posting lists by word.
ghost use Rattle.std.specs.Prelude.{◌≡◌, ◌<◌, ◌≤◌, ◌+◌, ◌^◌, ℕ, Bool, [], None, Some, is_some, length, IfOk, IfNone, IfSome, IsSome, OnOk, OnErr, if◌then◌else◌, option_copied};
ghost use Rattle.std.specs.Map.{keys_of};
ghost use Rattle.std.specs.Range.Bound.{bound_map};
ghost use Rattle.inverted_list.specs.Listing.{last_id, with_entry};
ghost use Rattle.gc_splice.specs.Splice.{Fits, picture_of};
ghost use Rattle.term_dict.specs.Rows.{lists_of};
ghost use Rattle.term_dict.specs.Splices.{CollectsWord, SplicesWord, removed_by};
ghost use Rattle.term_dict.specs.Starts.{behind, start_of, words_from, first_with};
ghost use Rattle.term_dict.specs.Terms.{Lists, Sets, WordsRise, IdsRise, IsKept, list_of, entries_of, entries_in_all, fresh_list, list_or_fresh, next_word, rows_after};

use crate::collect::{collect_word, removed, splice_word};
use crate::walk::Walk;
use ft_base::NoMemory;
use gc_splice::{Live, Repair, Spliced};
use inverted_list::{List, Marker, Markers};
use posting_block::Payload;
use std::alloc::Global;
use std::collections::BTreeMap;
use std::marker::Model;
use std::ops::Bound;

/// Posting lists by word.
#[derive(Drop)]
pub struct Dictionary<P: Payload> {
    alloc: Global,
    lists: BTreeMap<Vec<u8>, List<P>>,
    // The number of entries of all lists.
    count: u64,
}

impl<P: Payload> Model for Dictionary<P> {
    ghost Value = { Lists P };

    ghost view = { λ d. lists_of d.lists.entries };

    ghost invariant = { λ d. IsKept (lists_of d.lists.entries) d.count };
}

impl<P: Payload> Dictionary<P> {
    /// No words, and no memory taken.
    pub fn new(alloc: Global) -> Dictionary<P>
        ensures { result ≡ [] }
    {
        Dictionary {
            alloc,
            lists: BTreeMap::new(alloc),
            count: 0,
        }
    }

    /// The number of words.
    pub fn len(&self) -> usize
        ensures len { result ≡ length self.now }
        ensures words { WordsRise self.now }
        ensures ids { IdsRise self.now }
    {
        self.lists.len()
    }

    /// The number of entries of all lists: none where it is no `u64`. It is kept, so nothing is walked over.
    pub fn entries(&self) -> Option<u64>
        ensures some { IfSome result (λ n. n ≡ entries_in_all self.now) }
        ensures none { IfNone result (2 ^ 64 ≤ entries_in_all self.now) }
    {
        Some(self.count)
    }

    /// The list of a word.
    pub fn list(&self, word: &[u8]) -> Option<&List<P>>
        ensures { option_copied result ≡ list_of self.now word.now }
    {
        self.lists.get(word)
    }

    /// Adds an entry to a word's list, behind the others. A word without a list gets one, with the
    /// marker that is given next; where there is none, it counts as out of memory, and so does an entry
    /// past 2^64 - 1 of them.
    pub fn add(
        &mut self,
        word: &[u8],
        id: u64,
        hit: &P,
        markers: &mut Markers,
    ) -> Result<(), NoMemory>
        requires { last_id 0 (entries_of self.old word.now) < id }
        ensures ok { OnOk result (Sets word.now
            (Some (with_entry (list_or_fresh self.old word.now markers.old) id hit.now)) self.old self.new) }
        ensures counted { OnOk result (entries_in_all self.new ≡ entries_in_all self.old + 1) }
        ensures err { OnErr result (self.new ≡ self.old) }
        ensures kept { IsSome (list_of self.old word.now) → markers.new ≡ markers.old }
        ensures taken { OnOk result (markers.new.next
            ≡ markers.old.next + (if is_some (list_of self.old word.now) then 0 else 1)) }
        ensures event { markers.new.event ≡ markers.old.event }
        ensures rises { markers.old.next ≤ markers.new.next }
        ensures once { markers.new.next ≤ markers.old.next + 1 }
    {
        let Some(count) = self.count.checked_add(1) else {
            return Err(NoMemory);
        };
        add_entry(&mut self.lists, self.alloc, word, id, hit, markers)?;
        self.count = count;
        Ok(())
    }

    /// The least word above `after` that has the prefix. The search begins at the prefix, or behind
    /// `after`, so it walks nothing.
    pub fn next_name(&self, prefix: &[u8], after: Option<&[u8]>) -> Result<Option<&[u8]>, NoMemory>
        ensures { IfOk result (λ name. option_copied name
            ≡ next_word self.now prefix.now (option_copied after.entry)) }
    {
        let start = start_of(self.alloc, prefix, after)?;
        Ok(first_from(&self.lists, start, prefix))
    }

    /// The words above `after` in rising order, each with its list: all words where it is none.
    pub fn walk(&self, after: Option<&[u8]>) -> Result<Walk<'_, P>, NoMemory>
        ensures { IfOk result (λ walk. walk ≡ rows_after (option_copied after.entry) self.now) }
    {
        let start = behind(self.alloc, after)?;
        Ok(Walk {
            left: Some(self.lists.range((start, Bound::Unbounded))),
        })
    }

    /// Lays a repair over a word's list, which then has the marker. A list that is left without an entry goes out with its
    /// word. It takes no memory, and leaves what the list held before in the repair.
    pub fn splice(&mut self, word: &[u8], repair: &mut Repair<P>, marker: Marker) -> Spliced
        requires { IfSome (list_of self.old word.now) (λ l.
            repair.old.seen ≡ l.marker → (live : ℕ → Bool) × Fits live repair.old (picture_of l)) }
        ensures gone { IfNone (list_of self.old word.now) ((result ≡ Spliced.Gone) × (self.new ≡ self.old)) }
        ensures there { IfSome (list_of self.old word.now) (λ l.
            SplicesWord word.now repair.old marker l self.old self.new result) }
        ensures counted { entries_in_all self.new + removed_by result ≡ entries_in_all self.old }
    {
        let spliced = splice_word(&mut self.lists, word, repair, marker);
        self.count -= removed(spliced);
        spliced
    }

    /// Takes the dead entries out of a word's list, which then has the marker that is given next. A list that is left without
    /// an entry goes out with its word; one without a dead entry stays as it is. Where there is no marker left, it counts as
    /// out of memory.
    pub fn collect<L: Live>(
        &mut self,
        word: &[u8],
        live: &L,
        markers: &mut Markers,
    ) -> Result<(), NoMemory>
        ensures gone { IfNone (list_of self.old word.now) ((self.new ≡ self.old) × (markers.new ≡ markers.old)) }
        ensures ok { OnOk result (IfSome (list_of self.old word.now) (λ l.
            CollectsWord (L.is live.now) word.now l self.old self.new markers.old markers.new)) }
        ensures err { OnErr result ((self.new ≡ self.old) × (markers.new ≡ markers.old)) }
        ensures fewer { entries_in_all self.new ≤ entries_in_all self.old }
    {
        let removed = collect_word(&mut self.lists, self.alloc, word, live, markers)?;
        self.count -= removed;
        Ok(())
    }

    /// The number of entries of all lists.
    pub(crate) fn count(&self) -> u64
        ensures { result ≡ entries_in_all self.now }
    {
        self.count
    }
}

// An entry of a word goes behind the others, or into a new list.
fn add_entry<P: Payload>(
    lists: &mut BTreeMap<Vec<u8>, List<P>>,
    alloc: Global,
    word: &[u8],
    id: u64,
    hit: &P,
    markers: &mut Markers,
) -> Result<(), NoMemory>
    requires { last_id 0 (entries_of (lists_of lists.old.entries) word.now) < id }
    ensures ok { OnOk result (Sets word.now
        (Some (with_entry (list_or_fresh (lists_of lists.old.entries) word.now markers.old) id hit.now))
        (lists_of lists.old.entries) (lists_of lists.new.entries)) }
    ensures counted { OnOk result (entries_in_all (lists_of lists.new.entries)
        ≡ entries_in_all (lists_of lists.old.entries) + 1) }
    ensures err { OnErr result (lists.new.entries ≡ lists.old.entries) }
    ensures kept { IsSome (list_of (lists_of lists.old.entries) word.now) → markers.new ≡ markers.old }
    ensures taken { OnOk result (markers.new.next
        ≡ markers.old.next + (if is_some (list_of (lists_of lists.old.entries) word.now) then 0 else 1)) }
    ensures event { markers.new.event ≡ markers.old.event }
    ensures rises { markers.old.next ≤ markers.new.next }
    ensures once { markers.new.next ≤ markers.old.next + 1 }
{
    if let Some(list) = lists.get_mut(word) {
        return list.append(id, hit);
    }
    add_word(lists, alloc, word, id, hit, markers)
}

// A word without a list gets one of one entry.
fn add_word<P: Payload>(
    lists: &mut BTreeMap<Vec<u8>, List<P>>,
    alloc: Global,
    word: &[u8],
    id: u64,
    hit: &P,
    markers: &mut Markers,
) -> Result<(), NoMemory>
    requires { 0 < id }
    ensures ok { OnOk result (Sets word.now (Some (with_entry (fresh_list markers.old) id hit.now))
        (lists_of lists.old.entries) (lists_of lists.new.entries)) }
    ensures counted { list_of (lists_of lists.old.entries) word.now ≡ None
        → OnOk result (entries_in_all (lists_of lists.new.entries)
        ≡ entries_in_all (lists_of lists.old.entries) + 1) }
    ensures err { OnErr result (lists.new.entries ≡ lists.old.entries) }
    ensures taken { OnOk result (markers.new.next ≡ markers.old.next + 1) }
    ensures event { markers.new.event ≡ markers.old.event }
    ensures rises { markers.old.next ≤ markers.new.next }
    ensures once { markers.new.next ≤ markers.old.next + 1 }
{
    let name = Vec::from_slice(alloc, word)?;
    let list = first_list(alloc, id, hit, markers)?;
    lists.insert(name, list)?;
    Ok(())
}

// A list of one entry, with the next marker.
fn first_list<P: Payload>(
    alloc: Global,
    id: u64,
    hit: &P,
    markers: &mut Markers,
) -> Result<List<P>, NoMemory>
    requires { 0 < id }
    ensures ok { IfOk result (λ l. l ≡ with_entry (fresh_list markers.old) id hit.now) }
    ensures next { OnOk result (markers.new.next ≡ markers.old.next + 1) }
    ensures event { markers.new.event ≡ markers.old.event }
    ensures rises { markers.old.next ≤ markers.new.next }
    ensures once { markers.new.next ≤ markers.old.next + 1 }
{
    let Some(marker) = markers.take() else {
        return Err(NoMemory);
    };
    let mut list = List::new(alloc, marker);
    list.append(id, hit)?;
    Ok(list)
}

// Where a walk begins: behind a word, or at the first.
fn behind(alloc: Global, after: Option<&[u8]>) -> Result<Bound<Vec<u8>>, NoMemory>
    ensures { IfOk result (λ start. bound_map (λ word. word.items) start
        ≡ behind (option_copied after.entry)) }
{
    let Some(word) = after else {
        return Ok(Bound::Unbounded);
    };
    let word = Vec::from_slice(alloc, word)?;
    Ok(Bound::Excluded(word))
}

// Where a search by prefix begins: at the prefix, or behind a word above it.
fn start_of(alloc: Global, prefix: &[u8], after: Option<&[u8]>) -> Result<Bound<Vec<u8>>, NoMemory>
    ensures { IfOk result (λ start. bound_map (λ word. word.items) start
        ≡ start_of prefix.now (option_copied after.entry)) }
{
    let Some(word) = after else {
        return Ok(Bound::Included(Vec::from_slice(alloc, prefix)?));
    };
    if word.cmp(prefix).is_lt() {
        return Ok(Bound::Included(Vec::from_slice(alloc, prefix)?));
    }
    Ok(Bound::Excluded(Vec::from_slice(alloc, word)?))
}

// The first word from a start on, where it has the prefix.
fn first_from<'a, P: Payload>(
    lists: &'a BTreeMap<Vec<u8>, List<P>>,
    start: Bound<Vec<u8>>,
    prefix: &[u8],
) -> Option<&'a [u8]>
    ensures first { option_copied result ≡ first_with prefix.now
        (words_from (bound_map (λ word. word.items) start) (keys_of (lists_of lists.now.entries))) }
    ensures ordered { WordsRise (lists_of lists.now.entries) }
{
    let (word, _) = lists.range((start, Bound::Unbounded)).next()?;
    let word = word.as_slice();
    if word.starts_with(prefix) {
        Some(word)
    } else {
        None
    }
}
