//! The tags of a document: each tag's list gets one entry, a TAG field at a time.
ghost use Rattle.std.specs.Prelude.{◌≡◌, ◌≤◌, List, ℕ, Some, length, IfOk, OnOk, OnErr};
ghost use Rattle.ft_index.specs.Adding.{IsSeen, IsUnseen, TagsHave, TagsUnseen};
ghost use Rattle.ft_index.specs.Entries.{searched_tags};
ghost use Rattle.ft_index.specs.Markers.{AllBefore, TakesLists, tag_list, tag_marker};
ghost use Rattle.ft_index.specs.Tagging.{AreApart, FieldTagsGain, TagGains, TagsGain};
ghost use Rattle.ft_index.specs.UpTo.{IsAboveTag, TagsUpTo};

use field_text::tags;
use ft_base::{Bytes, Doc, Field, FieldKind, IndexDef, ListOf, NoMemory};
use inverted_list::Markers;
use posting_block::TagHit;
use std::alloc::Global;
use term_dict::TagLists;

/// Puts an entry for the document into the list of each of its tags. Out of memory, some have
/// theirs.
pub fn add_tags(
    lists: &mut TagLists,
    alloc: Global,
    def: &IndexDef,
    doc: &Doc,
    markers: &mut Markers,
) -> Result<(), NoMemory>
    requires fields { length def.now.fields ≤ 1_024 }
    requires later { (field : ℕ) (tag : List ℕ) → IsAboveTag doc.now.id lists.old field tag }
    requires up_to { TagsUpTo doc.now.id lists.old }
    requires before { AllBefore markers.old (tag_marker lists.old) }
    ensures unseen { IsUnseen doc.now.id (TagsHave def.now lists.old) (TagsHave def.now lists.new) }
    ensures seen { OnOk result (IsSeen def.now doc.now (TagsHave def.now lists.old) (TagsHave def.now lists.new)) }
    ensures up_to { TagsUpTo doc.now.id lists.new }
    ensures takes { TakesLists markers.old markers.new (tag_list lists.old) (tag_list lists.new) }
{
    add_all(lists, alloc, def.fields.as_slice(), doc, markers)
}

/// Adds an entry to the list of each tag of each field.
fn add_all(
    lists: &mut TagLists,
    alloc: Global,
    fields: &[Field],
    doc: &Doc,
    markers: &mut Markers,
) -> Result<(), NoMemory>
    requires fields { length fields.now ≤ 1_024 }
    requires later { (field : ℕ) (tag : List ℕ) → IsAboveTag doc.now.id lists.old field tag }
    requires up_to { TagsUpTo doc.now.id lists.old }
    requires before { AllBefore markers.old (tag_marker lists.old) }
    ensures ok { OnOk result (TagsGain fields.now doc.now lists.old lists.new) }
    ensures unseen { TagsUnseen doc.now.id lists.old lists.new }
    ensures up_to { TagsUpTo doc.now.id lists.new }
    ensures takes { TakesLists markers.old markers.new (tag_list lists.old) (tag_list lists.new) }
{
    for (number, field) in fields.iter().enumerate() {
        let found = searched_tags(alloc, field, doc)?;
        add_field(lists, number as u16, found.as_slice(), doc.id(), markers)?;
    }
    Ok(())
}

/// The tags of a document by which a field is searched.
fn searched_tags(alloc: Global, field: &Field, doc: &Doc) -> Result<ListOf<Bytes>, NoMemory>
    ensures tags { IfOk result (λ tags. tags ≡ searched_tags (Some field.now) doc.now) }
    ensures apart { IfOk result AreApart }
{
    let FieldKind::Tag { separator, case } = field.kind else {
        return Ok(ListOf::new(alloc));
    };
    if field.noindex {
        return Ok(ListOf::new(alloc));
    }
    match doc.hash().get(field.name.as_slice()) {
        Some(value) => tags(alloc, value, separator, case),
        None => Ok(ListOf::new(alloc)),
    }
}

/// Adds an entry of this id to the list of each tag of one field.
fn add_field(
    lists: &mut TagLists,
    field: u16,
    tags: &[Bytes],
    id: u64,
    markers: &mut Markers,
) -> Result<(), NoMemory>
    requires apart { AreApart tags.now }
    requires later { (tag : List ℕ) → IsAboveTag id lists.old field tag }
    requires up_to { TagsUpTo id lists.old }
    requires before { AllBefore markers.old (tag_marker lists.old) }
    ensures ok { OnOk result (FieldTagsGain field tags.now id lists.old lists.new) }
    ensures unseen { TagsUnseen id lists.old lists.new }
    ensures up_to { TagsUpTo id lists.new }
    ensures takes { TakesLists markers.old markers.new (tag_list lists.old) (tag_list lists.new) }
{
    for tag in tags {
        add(lists, field, tag.as_slice(), id, markers)?;
    }
    Ok(())
}

/// Adds an entry of this id to the list of one tag.
fn add(
    lists: &mut TagLists,
    field: u16,
    tag: &[u8],
    id: u64,
    markers: &mut Markers,
) -> Result<(), NoMemory>
    requires later { IsAboveTag id lists.old field tag.now }
    requires up_to { TagsUpTo id lists.old }
    requires before { AllBefore markers.old (tag_marker lists.old) }
    ensures ok { OnOk result (TagGains field tag.now id lists.old lists.new) }
    ensures err { OnErr result (lists.new ≡ lists.old) }
    ensures up_to { TagsUpTo id lists.new }
    ensures takes { TakesLists markers.old markers.new (tag_list lists.old) (tag_list lists.new) }
{
    lists.add(field, tag, id, &TagHit {}, markers)
}
