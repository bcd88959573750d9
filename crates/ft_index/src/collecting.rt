//! How the lists of words and tags lose their dead entries, list after list.
ghost use Rattle.std.specs.Prelude.{◌≡◌, ◌≢◌, ◌++◌, ◌∷◌, [], List, ℕ, true, false, IfOk, OnOk, if◌then◌else◌};
ghost use Rattle.std.specs.Str.{bytes_eq};
ghost use Rattle.gc_splice.specs.Alive.{all_alive};
ghost use Rattle.ft_index.specs.Collecting.{LiveBut, RowsLiveBut};
ghost use Rattle.ft_index.specs.Markers.{AllBefore, TakesLists, tag_list, tag_marker, word_marker};
ghost use Rattle.ft_index.specs.Thinned.{TagsLive, TagsThin, WordsLive, WordsThin};
ghost use Rattle.term_dict.specs.Tags.{entries_in};
ghost use Rattle.term_dict.specs.Terms.{entries_of, list_of};

use ft_base::{Bytes, ListOf, NoMemory};
use gc_splice::{Live, is_clean};
use inverted_list::Markers;
use posting_block::Payload;
use std::alloc::Global;
use term_dict::{TagLists, Terms, Walk};

/// Takes the dead entries out of the list of each word. Out of memory, some lists still have theirs.
pub fn collect_words<L: Live>(
    terms: &mut Terms,
    alloc: Global,
    live: &L,
    markers: &mut Markers,
) -> Result<(), NoMemory>
    requires before { AllBefore markers.old (word_marker terms.old) }
    ensures thin { WordsThin (L.is live.now) terms.old terms.new }
    ensures live { OnOk result (WordsLive (L.is live.now) terms.new) }
    ensures takes { TakesLists markers.old markers.new (list_of terms.old) (list_of terms.new) }
{
    let words = dead_names(terms.walk(None)?, alloc, live)?;
    for word in words.as_slice() {
        collect_word(terms, word.as_slice(), live, markers)?;
    }
    Ok(())
}

/// The names of lists that have a dead entry.
fn dead_names<P: Payload, L: Live>(
    walk: Walk<'_, P>,
    alloc: Global,
    live: &L,
) -> Result<ListOf<Bytes>, NoMemory>
    ensures { IfOk result (λ names. RowsLiveBut (L.is live.now) names walk.entry) }
{
    let mut walk = walk;
    let mut names = ListOf::new(alloc);
    'rows: while let Some((name, list)) = walk.next() {
        note_dead(&mut names, alloc, name, list, live)?;
    }
    Ok(names)
}

/// Notes the name of a list that has a dead entry.
fn note_dead<P: Payload, L: Live>(
    names: &mut ListOf<Bytes>,
    alloc: Global,
    name: &[u8],
    list: &inverted_list::List<P>,
    live: &L,
) -> Result<(), NoMemory>
    ensures { OnOk result (names.new
        ≡ (if all_alive (L.is live.now) list.now.entries then names.old else names.old ++ name.now ∷ [])) }
{
    if is_clean(list, live) {
        return Ok(());
    }
    names.push(Bytes::from_slice(alloc, name)?)
}

/// Takes the dead entries out of the list of one word.
pub fn collect_word<L: Live>(
    terms: &mut Terms,
    word: &[u8],
    live: &L,
    markers: &mut Markers,
) -> Result<(), NoMemory>
    requires before { AllBefore markers.old (word_marker terms.old) }
    ensures thin { WordsThin (L.is live.now) terms.old terms.new }
    ensures here { OnOk result (all_alive (L.is live.now) (entries_of terms.new word.now) ≡ true) }
    ensures others { (other : List ℕ) → bytes_eq word.now other ≡ false
        → entries_of terms.new other ≡ entries_of terms.old other }
    ensures takes { TakesLists markers.old markers.new (list_of terms.old) (list_of terms.new) }
{
    terms.collect(word, live, markers)
}

/// Takes the dead entries out of the list of each tag of each field. Out of memory, some lists still have theirs.
pub fn collect_tags<L: Live>(
    tags: &mut TagLists,
    alloc: Global,
    live: &L,
    markers: &mut Markers,
) -> Result<(), NoMemory>
    requires before { AllBefore markers.old (tag_marker tags.old) }
    ensures thin { TagsThin (L.is live.now) tags.old tags.new }
    ensures live { OnOk result (TagsLive (L.is live.now) tags.new) }
    ensures takes { TakesLists markers.old markers.new (tag_list tags.old) (tag_list tags.new) }
{
    let fields = tags.fields()?;
    for field in fields.as_slice() {
        collect_field(tags, *field, alloc, live, markers)?;
    }
    Ok(())
}

/// Takes the dead entries out of the list of each tag of one field.
fn collect_field<L: Live>(
    tags: &mut TagLists,
    field: u16,
    alloc: Global,
    live: &L,
    markers: &mut Markers,
) -> Result<(), NoMemory>
    requires before { AllBefore markers.old (tag_marker tags.old) }
    ensures thin { TagsThin (L.is live.now) tags.old tags.new }
    ensures here { OnOk result ((tag : List ℕ) → all_alive (L.is live.now) (entries_in tags.new field tag) ≡ true) }
    ensures others { (other : ℕ) → other ≢ field → (tag : List ℕ) → entries_in tags.new other tag ≡ entries_in tags.old other tag }
    ensures takes { TakesLists markers.old markers.new (tag_list tags.old) (tag_list tags.new) }
{
    let names = dead_names(tags.walk(field, None)?, alloc, live)?;
    for name in names.as_slice() {
        collect_tag(tags, field, name.as_slice(), live, markers)?;
    }
    Ok(())
}

/// Takes the dead entries out of the list of one tag of one field.
pub fn collect_tag<L: Live>(
    tags: &mut TagLists,
    field: u16,
    tag: &[u8],
    live: &L,
    markers: &mut Markers,
) -> Result<(), NoMemory>
    requires before { AllBefore markers.old (tag_marker tags.old) }
    ensures thin { TagsThin (L.is live.now) tags.old tags.new }
    ensures here { OnOk result (all_alive (L.is live.now) (entries_in tags.new field tag.now) ≡ true) }
    ensures others { (other : List ℕ) → bytes_eq tag.now other ≡ false
        → entries_in tags.new field other ≡ entries_in tags.old field other }
    ensures fields { (other : ℕ) → other ≢ field → (name : List ℕ) → entries_in tags.new other name ≡ entries_in tags.old other name }
    ensures takes { TakesLists markers.old markers.new (tag_list tags.old) (tag_list tags.new) }
{
    tags.collect(field, tag, live, markers)
}
