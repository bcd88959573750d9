//! Posting lists by field and tag: a dictionary for each field.
ghost use Rattle.std.specs.Prelude.{◌≡◌, ◌<◌, ◌≤◌, ◌+◌, ◌^◌, ℕ, Bool, [], None, Some, is_some, length, IfOk, IfNone, IfSome, IsSome, OnOk, OnErr, if◌then◌else◌};
ghost use Rattle.std.specs.Map.{keys_of};
ghost use Rattle.std.specs.Option.{option_copied};
ghost use Rattle.inverted_list.specs.Listing.{last_id, with_entry};
ghost use Rattle.gc_splice.specs.Splice.{Fits, picture_of};
ghost use Rattle.term_dict.specs.Splices.{CollectsTag, CollectsWord, SplicesTag, removed_by};
ghost use Rattle.term_dict.specs.Terms.{Sets, entries_in_all, entries_of, list_of, list_or_fresh, next_word, rows_after};
ghost use Rattle.term_dict.specs.Tags.{FieldsRise, TagsRise, SetsTag, tags_of, list_in, entries_in, entries_in_fields, first_field};

use crate::collect::removed;
use crate::dictionary::Dictionary;
use crate::walk::Walk;
use ft_base::NoMemory;
use gc_splice::{Live, Repair, Spliced};
use inverted_list::{List, Marker, Markers};
use posting_block::TagHit;
use std::alloc::Global;
use std::collections::BTreeMap;
use std::marker::Model;

/// Posting lists by field and tag.
#[derive(Drop)]
pub struct TagLists {
    alloc: Global,
    fields: BTreeMap<u16, Dictionary<TagHit>>,
    // The number of entries of all lists.
    count: u64,
}

impl Model for TagLists {
    ghost use Rattle.term_dict.specs.Tags.{FieldTags, FieldsKept};

    ghost Value = { FieldTags };

    ghost view = { λ t. t.fields.entries };

    ghost invariant = { λ t. FieldsKept t.fields.entries t.count };
}

impl TagLists {
    /// No fields, and no memory taken.
    pub fn new(alloc: Global) -> TagLists
        ensures { result ≡ [] }
    {
        TagLists {
            alloc,
            fields: BTreeMap::new(alloc),
            count: 0,
        }
    }

    /// The number of fields that were given a tag.
    pub fn len(&self) -> usize
        ensures len { result ≡ length self.now }
        ensures fields { FieldsRise self.now }
        ensures tags { (field : ℕ) → TagsRise (tags_of self.now field) }
    {
        self.fields.len()
    }

    /// The number of entries of all lists: none where it is no `u64`. It is kept, so nothing is walked over.
    pub fn entries(&self) -> Option<u64>
        ensures some { IfSome result (λ n. n ≡ entries_in_fields self.now) }
        ensures none { IfNone result (2 ^ 64 ≤ entries_in_fields self.now) }
    {
        Some(self.count)
    }

    /// The list of a field's tag.
    pub fn list(&self, field: u16, tag: &[u8]) -> Option<&List<TagHit>>
        ensures { option_copied result ≡ list_in self.now field tag.now }
    {
        let tags = self.fields.get(&field)?;
        tags.list(tag)
    }

    /// Adds an entry to the list of a field's tag, behind the others. A tag without a list gets
    /// one, with the marker that is given next; where there is none, it counts as out of memory, and so
    /// does an entry past 2^64 - 1 of them.
    pub fn add(
        &mut self,
        field: u16,
        tag: &[u8],
        id: u64,
        hit: &TagHit,
        markers: &mut Markers,
    ) -> Result<(), NoMemory>
        requires { last_id 0 (entries_in self.old field tag.now) < id }
        ensures ok { OnOk result (SetsTag field tag.now (Some (with_entry
            (list_or_fresh (tags_of self.old field) tag.now markers.old) id hit.now))
            self.old self.new) }
        ensures counted { OnOk result (entries_in_fields self.new ≡ entries_in_fields self.old + 1) }
        ensures err { OnErr result (self.new ≡ self.old) }

        // What becomes of the markers.
        ensures kept { IsSome (list_in self.old field tag.now) → markers.new ≡ markers.old }
        ensures taken { OnOk result (markers.new.next
            ≡ markers.old.next + (if is_some (list_in self.old field tag.now) then 0 else 1)) }
        ensures event { markers.new.event ≡ markers.old.event }
        ensures rises { markers.old.next ≤ markers.new.next }
        ensures once { markers.new.next ≤ markers.old.next + 1 }
    {
        let Some(count) = self.count.checked_add(1) else {
            return Err(NoMemory);
        };
        add_entry(&mut self.fields, self.alloc, field, tag, id, hit, markers)?;
        self.count = count;
        Ok(())
    }

    /// The least tag of the field above `after` that has the prefix.
    pub fn next_name(
        &self,
        field: u16,
        prefix: &[u8],
        after: Option<&[u8]>,
    ) -> Result<Option<&[u8]>, NoMemory>
        ensures { IfOk result (λ name. option_copied name
            ≡ next_word (tags_of self.now field) prefix.now (option_copied after.entry)) }
    {
        match self.fields.get(&field) {
            Some(tags) => tags.next_name(prefix, after),
            None => Ok(None),
        }
    }

    /// The tags of a field above `after` in rising order, each with its list: all tags where it is none.
    pub fn walk(&self, field: u16, after: Option<&[u8]>) -> Result<Walk<'_, TagHit>, NoMemory>
        ensures { IfOk result (λ walk. walk
            ≡ rows_after (option_copied after.entry) (tags_of self.now field)) }
    {
        let Some(tags) = self.fields.get(&field) else {
            return Ok(Walk { left: None });
        };
        tags.walk(after)
    }

    /// The fields that were given a tag, in rising order.
    pub fn fields(&self) -> Result<Vec<u16>, NoMemory>
        ensures { IfOk result (λ fields. fields.items ≡ keys_of self.now) }
    {
        fields_of(&self.fields, self.alloc)
    }

    /// The least field of at least `from` that was given a tag.
    pub fn next_field(&self, from: u16) -> Option<u16>
        ensures { result ≡ first_field from self.now }
    {
        let (field, _) = self.fields.range(from..).next()?;
        Some(*field)
    }

    /// Lays a repair over the list of a field's tag, which then has the marker. A list that is left without an entry goes out
    /// with its tag. It takes no memory, and leaves what the list held before in the repair.
    pub fn splice(
        &mut self,
        field: u16,
        tag: &[u8],
        repair: &mut Repair<TagHit>,
        marker: Marker,
    ) -> Spliced
        requires { IfSome (list_in self.old field tag.now) (λ l.
            repair.old.seen ≡ l.marker → (live : ℕ → Bool) × Fits live repair.old (picture_of l)) }
        ensures gone { IfNone (list_in self.old field tag.now)
            ((result ≡ Spliced.Gone) × (self.new ≡ self.old)) }
        ensures there { IfSome (list_in self.old field tag.now) (λ l.
            SplicesTag field tag.now repair.old marker l self.old self.new result) }
        ensures counted { entries_in_fields self.new + removed_by result ≡ entries_in_fields self.old }
    {
        let spliced = splice_tag(&mut self.fields, field, tag, repair, marker);
        self.count -= removed(spliced);
        spliced
    }

    /// Takes the dead entries out of the list of a field's tag, which then has the marker that is given next. A list that is
    /// left without an entry goes out with its tag; one without a dead entry stays as it is. Where there is no marker left, it
    /// counts as out of memory.
    pub fn collect<L: Live>(
        &mut self,
        field: u16,
        tag: &[u8],
        live: &L,
        markers: &mut Markers,
    ) -> Result<(), NoMemory>
        ensures gone { IfNone (list_in self.old field tag.now)
            ((self.new ≡ self.old) × (markers.new ≡ markers.old)) }
        ensures ok { OnOk result (IfSome (list_in self.old field tag.now) (λ l.
            CollectsTag (L.is live.now) field tag.now l self.old self.new markers.old markers.new)) }
        ensures err { OnErr result ((self.new ≡ self.old) × (markers.new ≡ markers.old)) }
        ensures fewer { entries_in_fields self.new ≤ entries_in_fields self.old }
    {
        let removed = collect_tag(&mut self.fields, field, tag, live, markers)?;
        self.count -= removed;
        Ok(())
    }
}

fn fields_of(
    fields: &BTreeMap<u16, Dictionary<TagHit>>,
    alloc: Global,
) -> Result<Vec<u16>, NoMemory>
    ensures { IfOk result (λ numbers. numbers.items ≡ keys_of fields.now.entries) }
{
    let mut numbers = Vec::with_capacity(alloc, fields.len())?;
    for (field, _) in fields {
        numbers.push(*field)?;
    }
    Ok(numbers)
}

// An entry of a tag goes into its field's dictionary, or into one that is made with it.
fn add_entry(
    fields: &mut BTreeMap<u16, Dictionary<TagHit>>,
    alloc: Global,
    field: u16,
    tag: &[u8],
    id: u64,
    hit: &TagHit,
    markers: &mut Markers,
) -> Result<(), NoMemory>
    requires { last_id 0 (entries_in fields.old.entries field tag.now) < id }
    ensures ok { OnOk result (SetsTag field tag.now (Some (with_entry
        (list_or_fresh (tags_of fields.old.entries field) tag.now markers.old) id hit.now))
        fields.old.entries fields.new.entries) }
    ensures counted { OnOk result (entries_in_fields fields.new.entries
        ≡ entries_in_fields fields.old.entries + 1) }
    ensures err { OnErr result (fields.new.entries ≡ fields.old.entries) }
    ensures tags { OnOk result (TagsRise (tags_of fields.new.entries field)) }
    ensures kept { IsSome (list_in fields.old.entries field tag.now) → markers.new ≡ markers.old }
    ensures taken { OnOk result (markers.new.next ≡ markers.old.next
        + (if is_some (list_in fields.old.entries field tag.now) then 0 else 1)) }
    ensures event { markers.new.event ≡ markers.old.event }
    ensures rises { markers.old.next ≤ markers.new.next }
    ensures once { markers.new.next ≤ markers.old.next + 1 }
{
    if let Some(tags) = fields.get_mut(&field) {
        return add_tag(tags, tag, id, hit, markers);
    }
    let mut tags = Dictionary::new(alloc);
    add_tag(&mut tags, tag, id, hit, markers)?;
    fields.insert(field, tags)?;
    Ok(())
}

// The dictionary's own call, and what is true of any dictionary.
fn add_tag(
    tags: &mut Dictionary<TagHit>,
    tag: &[u8],
    id: u64,
    hit: &TagHit,
    markers: &mut Markers,
) -> Result<(), NoMemory>
    requires { last_id 0 (entries_of tags.old tag.now) < id }
    ensures ok { OnOk result (Sets tag.now
        (Some (with_entry (list_or_fresh tags.old tag.now markers.old) id hit.now))
        tags.old tags.new) }
    ensures counted { OnOk result (entries_in_all tags.new ≡ entries_in_all tags.old + 1) }
    ensures err { OnErr result (tags.new ≡ tags.old) }
    ensures rise { TagsRise tags.new }
    ensures kept { IsSome (list_of tags.old tag.now) → markers.new ≡ markers.old }
    ensures taken { OnOk result (markers.new.next
        ≡ markers.old.next + (if is_some (list_of tags.old tag.now) then 0 else 1)) }
    ensures event { markers.new.event ≡ markers.old.event }
    ensures rises { markers.old.next ≤ markers.new.next }
    ensures once { markers.new.next ≤ markers.old.next + 1 }
{
    let added = tags.add(tag, id, hit, markers);
    let _ = tags.len();
    added
}

// Lays a repair over the list of a field's tag, where the field has tags.
fn splice_tag(
    fields: &mut BTreeMap<u16, Dictionary<TagHit>>,
    field: u16,
    tag: &[u8],
    repair: &mut Repair<TagHit>,
    marker: Marker,
) -> Spliced
    requires { IfSome (list_in fields.old.entries field tag.now) (λ l.
        repair.old.seen ≡ l.marker → (live : ℕ → Bool) × Fits live repair.old (picture_of l)) }
    ensures gone { IfNone (list_in fields.old.entries field tag.now)
        ((result ≡ Spliced.Gone) × (fields.new.entries ≡ fields.old.entries)) }
    ensures there { IfSome (list_in fields.old.entries field tag.now) (λ l.
        SplicesTag field tag.now repair.old marker l fields.old.entries fields.new.entries result) }
    ensures counted { entries_in_fields fields.new.entries + removed_by result
        ≡ entries_in_fields fields.old.entries }
    ensures tags { ((f : ℕ) → TagsRise (tags_of fields.old.entries f))
        → (f : ℕ) → TagsRise (tags_of fields.new.entries f) }
{
    let Some(tags) = fields.get_mut(&field) else {
        return Spliced::Gone;
    };
    let spliced = tags.splice(tag, repair, marker);
    let _ = tags.len();
    spliced
}

// Takes the dead entries out of the list of a field's tag, where the field has tags, and answers how many went.
fn collect_tag<L: Live>(
    fields: &mut BTreeMap<u16, Dictionary<TagHit>>,
    field: u16,
    tag: &[u8],
    live: &L,
    markers: &mut Markers,
) -> Result<u64, NoMemory>
    ensures gone { IfNone (list_in fields.old.entries field tag.now)
        ((fields.new.entries ≡ fields.old.entries) × (markers.new ≡ markers.old)) }
    ensures ok { OnOk result (IfSome (list_in fields.old.entries field tag.now) (λ l.
        CollectsTag (L.is live.now) field tag.now l fields.old.entries fields.new.entries
        markers.old markers.new)) }
    ensures err { OnErr result
        ((fields.new.entries ≡ fields.old.entries) × (markers.new ≡ markers.old)) }
    ensures counted { IfOk result (λ removed. entries_in_fields fields.new.entries + removed
        ≡ entries_in_fields fields.old.entries) }
    ensures tags { ((f : ℕ) → TagsRise (tags_of fields.old.entries f))
        → (f : ℕ) → TagsRise (tags_of fields.new.entries f) }
{
    let Some(tags) = fields.get_mut(&field) else {
        return Ok(0);
    };
    collect_in(tags, tag, live, markers)
}

// The dictionary's own call, how many entries went, and what is true of any dictionary.
fn collect_in<L: Live>(
    tags: &mut Dictionary<TagHit>,
    tag: &[u8],
    live: &L,
    markers: &mut Markers,
) -> Result<u64, NoMemory>
    ensures gone { IfNone (list_of tags.old tag.now)
        ((tags.new ≡ tags.old) × (markers.new ≡ markers.old)) }
    ensures ok { OnOk result (IfSome (list_of tags.old tag.now) (λ l.
        CollectsWord (L.is live.now) tag.now l tags.old tags.new markers.old markers.new)) }
    ensures err { OnErr result ((tags.new ≡ tags.old) × (markers.new ≡ markers.old)) }
    ensures counted { IfOk result (λ removed.
        entries_in_all tags.new + removed ≡ entries_in_all tags.old) }
    ensures rise { TagsRise tags.new }
{
    let before = tags.count();
    let collected = tags.collect(tag, live, markers);
    let after = tags.count();
    let _ = tags.len();
    collected?;
    Ok(before - after)
}
