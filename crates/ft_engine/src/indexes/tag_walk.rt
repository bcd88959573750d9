//! The walk over the documents of a store, which gathers the tags of their values.
ghost use Rattle.std.specs.Prelude.{◌≡◌, ◌≤◌, length, map, IfOk, OnOk, if◌then◌else◌};
ghost use Rattle.ft_base.specs.declared.reply.Reply.TheVariants.{Bulk};
ghost use Rattle.ft_meaning.specs.Holds.{field_tags};
ghost use Rattle.ft_meaning.specs.Member.{member};
ghost use Rattle.hash_store.specs.Store.{reads_after};
ghost use Rattle.field_text.specs.Seen.{seen};
ghost use Rattle.ft_machine.specs.TagValues.{tag_values, with_tags};
ghost use Rattle.ft_engine.specs.Reading.{HandsOut};

use field_text::tags;
use ft_base::{Bytes, Doc, Field, FieldKind, IndexDef, ListOf, NoMemory, Reply};
use ft_meaning::member;
use hash_store::HashStore;
use std::alloc::Global;
use std::collections::BTreeSet;

/// The distinct tags of a field's values over the members of an index, in order of their bytes. A
/// field that is not TAG has none. Memory is taken for the tags alone.
pub fn tag_values(
    alloc: Global,
    store: &mut HashStore,
    def: &IndexDef,
    field: &Field,
) -> Result<ListOf<Reply>, NoMemory>
    ensures values { IfOk result
        (λ replies. replies ≡ map Bulk (tag_values def.now field.now store.old.space)) }

    // What is read.
    ensures reads { OnOk result (store.new.reads ≡ reads_after store.old.reads (length store.old.space)) }
    ensures most { store.new.reads ≤ reads_after store.old.reads (length store.old.space) }
    ensures store { HandsOut store.old store.new }
{
    // Tells that the count of reads has 64 bits.
    let _reads = store.reads();
    let read = store.read_all();
    let mut docs = store.walk(read);
    let mut found = BTreeSet::new(alloc);
    'walking: while let Some(doc) = docs.next() {
        add_doc(alloc, &mut found, doc, def, field)?;
    }
    bulks(alloc, found)
}

// Adds the tags of a document's field, where the document is a member.
fn add_doc(
    alloc: Global,
    found: &mut BTreeSet<Vec<u8>>,
    doc: &Doc,
    def: &IndexDef,
    field: &Field,
) -> Result<(), NoMemory>
    ensures { OnOk result (seen found.new.keys
        ≡ (if member def.now doc.now then with_tags (seen found.old.keys) (field_tags doc.now field.now) else seen found.old.keys)) }
{
    if !member(def, doc) {
        return Ok(());
    }
    add_tags(found, field_tags(alloc, doc, field)?)
}

// The tags of a document's field.
fn field_tags(alloc: Global, doc: &Doc, field: &Field) -> Result<ListOf<Bytes>, NoMemory>
    ensures { IfOk result (λ tags. tags ≡ field_tags doc.now field.now) }
{
    let FieldKind::Tag { separator, case } = field.kind else {
        return Ok(ListOf::new(alloc));
    };
    match doc.hash().get(field.name.as_slice()) {
        Some(value) => tags(alloc, value, separator, case),
        None => Ok(ListOf::new(alloc)),
    }
}

// Adds tags. One that is there already is dropped, and none is copied.
fn add_tags(found: &mut BTreeSet<Vec<u8>>, tags: ListOf<Bytes>) -> Result<(), NoMemory>
    ensures { OnOk result (seen found.new.keys ≡ with_tags (seen found.old.keys) tags) }
{
    'adding: for tag in tags.into_vec() {
        found.insert(tag.into_vec())?;
    }
    Ok(())
}

// The tags as bulks, none of them copied.
fn bulks(alloc: Global, found: BTreeSet<Vec<u8>>) -> Result<ListOf<Reply>, NoMemory>
    ensures { IfOk result (λ replies. replies ≡ map Bulk (seen found.keys)) }
{
    let replies = found
        .into_iter()
        .map(Bytes::from_vec)
        .map(Reply::Bulk)
        .collect(alloc)?;
    Ok(ListOf::from_vec(replies))
}
