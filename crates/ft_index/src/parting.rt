//! How a part of the lists of an index is taken, in the order of names and from a name on.
//!
//! The first lists are pictured whatever they are, and behind them those that have a sealed block. Of a list that is not
//! pictured the name is noted where it has a dead entry, so that it is swept where it stands.
ghost use Rattle.std.specs.Prelude.{◌≡◌, ◌++◌, ◌∷◌, [], None, Some, false, ℕ, length, map, IfOk, IfSome, OnOk, if◌then◌else◌, option_copied};
ghost use Rattle.std.specs.Map.{keys_of};
ghost use Rattle.numeric_ranges.specs.Ranges.{LowsRise};
ghost use Rattle.term_dict.specs.Tags.{FieldsRise, tags_of};
ghost use Rattle.term_dict.specs.Terms.{WordsRise};
ghost use Rattle.ft_index.specs.Lists.{rows_of};
ghost use Rattle.ft_index.specs.Parting.{Takes, behind, is_behind, is_spent, picks, whole_room};
ghost use Rattle.ft_index.specs.Picturing.{field_named, fields_named, rows_named, shown, slot_named, slots_named, words_named};
ghost use Rattle.ft_index.specs.Snapshots.{RangeList, TagList, WordList};
ghost use Rattle.id_iters.specs.declared.list_name.ListName.TheVariants as names;

use crate::room::Room;
use crate::scanning::{range_picture, tag_picture, word_picture};
use crate::snapshots::NamedPicture;
use ft_base::{Bytes, ListOf, NoMemory};
use gc_splice::{Live, is_clean};
use id_iters::ListName;
use inverted_list::List;
use numeric_ranges::Ranges;
use posting_block::{NumHit, TagHit, TextHit};
use std::alloc::Global;
use term_dict::{TagLists, Terms, Walk};

/// A part that is being taken.
pub struct Part {
    pub room: Room,
    pub pictures: ListOf<NamedPicture>,
    // The names of lists that are not pictured and have a dead entry.
    pub dead: ListOf<ListName>,
    // The last name, once there is no room left.
    pub end: Option<ListName>,
}

// Written out, it is one step for whoever drops a part.
impl Drop for Part {
    fn drop(self) {
        let Part {
            room: _,
            pictures,
            dead,
            end,
        } = self;
        drop(pictures);
        drop(dead);
        drop(end);
    }
}

impl Part {
    /// A part that took no list yet.
    pub fn new(alloc: Global) -> Part
        ensures room { result.room ≡ whole_room }
        ensures pictures { result.pictures ≡ [] }
    {
        Part {
            room: Room::whole(),
            pictures: ListOf::new(alloc),
            dead: ListOf::new(alloc),
            end: None,
        }
    }

    /// Its pictures, the names of the lists to be swept, and the last name, where there may be lists behind it.
    pub fn into_parts(self) -> (ListOf<NamedPicture>, ListOf<ListName>, Option<ListName>)
        ensures { result.0 ≡ self.pictures }
    {
        let Part {
            room: _,
            pictures,
            dead,
            end,
        } = self;
        (pictures, dead, end)
    }
}

/// Takes the lists of words whose names are behind the hand.
pub fn part_words<L: Live>(
    terms: &Terms,
    alloc: Global,
    hand: Option<&ListName>,
    live: &L,
    part: &mut Part,
) -> Result<(), NoMemory>
    ensures takes { OnOk result (Takes (behind (option_copied hand.entry) (words_named terms.now)) part.old part.new) }
    ensures rise { WordsRise terms.now }
{
    // Its clause tells that the words rise.
    let _ = terms.len();
    match hand {
        None => part_walk(terms.walk(None)?, alloc, live, part),
        Some(ListName::Word { text }) => {
            part_walk(terms.walk(Some(text.as_slice()))?, alloc, live, part)
        }
        Some(ListName::Tag { .. }) => Ok(()),
        Some(ListName::Range { .. }) => Ok(()),
    }
}

// The words that are left, while there is room.
fn part_walk<L: Live>(
    walk: Walk<'_, TextHit>,
    alloc: Global,
    live: &L,
    part: &mut Part,
) -> Result<(), NoMemory>
    ensures { OnOk result (Takes (words_named walk.entry) part.old part.new) }
{
    let mut walk = walk;
    'rows: while let Some((word, list)) = walk.next() {
        if part.room.is_spent() {
            return Ok(());
        }
        part_word(alloc, word, list, live, part)?;
    }
    Ok(())
}

fn part_word<L: Live>(
    alloc: Global,
    word: &[u8],
    list: &List<TextHit>,
    live: &L,
    part: &mut Part,
) -> Result<(), NoMemory>
    requires { is_spent part.old.room ≡ false }
    ensures { OnOk result (Takes ((names.Word word.now, WordList list.now) ∷ []) part.old part.new) }
{
    let blocks = list.sealed().len() as u64;
    show_word(alloc, word, list, blocks, live, part)?;
    part.room = part.room.behind(blocks);
    if part.room.is_spent() {
        part.end = Some(word_name(alloc, word)?);
    }
    Ok(())
}

// Pictures the list of a word, or notes its name where it has a dead entry.
fn show_word<L: Live>(
    alloc: Global,
    word: &[u8],
    list: &List<TextHit>,
    blocks: u64,
    live: &L,
    part: &mut Part,
) -> Result<(), NoMemory>
    ensures room { part.new.room ≡ part.old.room }
    ensures shown { OnOk result (map shown part.new.pictures ≡ map shown part.old.pictures
        ++ (if picks part.old.room blocks then (names.Word word.now, WordList list.now) ∷ [] else [])) }
{
    if part.room.picks(blocks) {
        return part.pictures.push(word_picture(alloc, word, list)?);
    }
    if is_clean(list, live) {
        return Ok(());
    }
    part.dead.push(word_name(alloc, word)?)
}

fn word_name(alloc: Global, word: &[u8]) -> Result<ListName, NoMemory> {
    let text = Bytes::from_slice(alloc, word)?;
    Ok(ListName::Word { text })
}

/// Takes the lists of tags whose names are behind the hand.
pub fn part_tags<L: Live>(
    tags: &TagLists,
    alloc: Global,
    hand: Option<&ListName>,
    live: &L,
    part: &mut Part,
) -> Result<(), NoMemory>
    ensures takes { OnOk result (Takes (behind (option_copied hand.entry) (fields_named tags.now (keys_of tags.now))) part.old part.new) }
    ensures fields { FieldsRise tags.now }
    ensures rise { (field : ℕ) → WordsRise (tags_of tags.now field) }
{
    // Its clauses tell that fields and tags rise.
    let _ = tags.len();
    let fields = tags.fields()?;
    for field in fields.as_slice() {
        part_field(tags, *field, alloc, hand, live, part)?;
    }
    Ok(())
}

fn part_field<L: Live>(
    tags: &TagLists,
    field: u16,
    alloc: Global,
    hand: Option<&ListName>,
    live: &L,
    part: &mut Part,
) -> Result<(), NoMemory>
    ensures { OnOk result (Takes (behind (option_copied hand.entry) (field_named field (tags_of tags.now field))) part.old part.new) }
{
    match hand {
        None => part_rows(tags.walk(field, None)?, field, alloc, live, part),
        Some(ListName::Word { .. }) => {
            part_rows(tags.walk(field, None)?, field, alloc, live, part)
        }
        Some(ListName::Tag { field: from, text }) => {
            part_from(tags, field, alloc, *from, text.as_slice(), live, part)
        }
        Some(ListName::Range { .. }) => Ok(()),
    }
}

// The tags of a field that are behind the tag of a field.
fn part_from<L: Live>(
    tags: &TagLists,
    field: u16,
    alloc: Global,
    from: u16,
    text: &[u8],
    live: &L,
    part: &mut Part,
) -> Result<(), NoMemory>
    ensures { OnOk result (Takes (behind (Some (names.Tag from text.now)) (field_named field (tags_of tags.now field))) part.old part.new) }
{
    if field < from {
        return Ok(());
    }
    if field == from {
        return part_rows(tags.walk(field, Some(text))?, field, alloc, live, part);
    }
    part_rows(tags.walk(field, None)?, field, alloc, live, part)
}

// The tags of a field that are left, while there is room.
fn part_rows<L: Live>(
    walk: Walk<'_, TagHit>,
    field: u16,
    alloc: Global,
    live: &L,
    part: &mut Part,
) -> Result<(), NoMemory>
    ensures { OnOk result (Takes (field_named field walk.entry) part.old part.new) }
{
    let mut walk = walk;
    'rows: while let Some((tag, list)) = walk.next() {
        if part.room.is_spent() {
            return Ok(());
        }
        part_tag(field, tag, alloc, list, live, part)?;
    }
    Ok(())
}

fn part_tag<L: Live>(
    field: u16,
    tag: &[u8],
    alloc: Global,
    list: &List<TagHit>,
    live: &L,
    part: &mut Part,
) -> Result<(), NoMemory>
    requires { is_spent part.old.room ≡ false }
    ensures { OnOk result (Takes ((names.Tag field tag.now, TagList list.now) ∷ []) part.old part.new) }
{
    let blocks = list.sealed().len() as u64;
    show_tag(field, tag, alloc, list, blocks, live, part)?;
    part.room = part.room.behind(blocks);
    if part.room.is_spent() {
        part.end = Some(tag_name(alloc, field, tag)?);
    }
    Ok(())
}

// Pictures the list of a tag, or notes its name where it has a dead entry.
fn show_tag<L: Live>(
    field: u16,
    tag: &[u8],
    alloc: Global,
    list: &List<TagHit>,
    blocks: u64,
    live: &L,
    part: &mut Part,
) -> Result<(), NoMemory>
    ensures room { part.new.room ≡ part.old.room }
    ensures shown { OnOk result (map shown part.new.pictures ≡ map shown part.old.pictures
        ++ (if picks part.old.room blocks then (names.Tag field tag.now, TagList list.now) ∷ [] else [])) }
{
    if part.room.picks(blocks) {
        return part.pictures.push(tag_picture(alloc, field, tag, list)?);
    }
    if is_clean(list, live) {
        return Ok(());
    }
    part.dead.push(tag_name(alloc, field, tag)?)
}

fn tag_name(alloc: Global, field: u16, tag: &[u8]) -> Result<ListName, NoMemory> {
    let text = Bytes::from_slice(alloc, tag)?;
    Ok(ListName::Tag { field, text })
}

/// Takes the lists of ranges whose names are behind the hand. A field past those that a name can tell counts as out of memory.
pub fn part_ranges<L: Live>(
    ranges: &[Option<Ranges>],
    hand: Option<&ListName>,
    live: &L,
    part: &mut Part,
) -> Result<(), NoMemory>
    ensures takes { OnOk result (Takes (behind (option_copied hand.entry) (slots_named 0 ranges.now)) part.old part.new) }
    ensures rise { OnOk result ((field : ℕ) → IfSome (rows_of ranges.now field) LowsRise) }
{
    'fields: for number in 0..ranges.len() {
        let Ok(field) = u16::try_from(number) else {
            return Err(NoMemory);
        };
        part_slot(&ranges[number], field, hand, live, part)?;
    }
    Ok(())
}

fn part_slot<L: Live>(
    slot: &Option<Ranges>,
    field: u16,
    hand: Option<&ListName>,
    live: &L,
    part: &mut Part,
) -> Result<(), NoMemory>
    ensures takes { OnOk result (Takes (behind (option_copied hand.entry) (slot_named field slot.now)) part.old part.new) }
    ensures rise { IfSome slot.now LowsRise }
{
    match slot {
        Some(rows) => part_lows(rows, field, hand, live, part),
        None => Ok(()),
    }
}

fn part_lows<L: Live>(
    rows: &Ranges,
    field: u16,
    hand: Option<&ListName>,
    live: &L,
    part: &mut Part,
) -> Result<(), NoMemory>
    ensures takes { OnOk result (Takes (behind (option_copied hand.entry) (rows_named field rows.now)) part.old part.new) }
    ensures rise { LowsRise rows.now }
{
    'rows: for at in 0..rows.count() {
        part_row(field, rows.low(at), rows.range(at), hand, live, part)?;
    }
    Ok(())
}

// One range, where it is behind the hand and there is room.
fn part_row<L: Live>(
    field: u16,
    low: i64,
    list: &List<NumHit>,
    hand: Option<&ListName>,
    live: &L,
    part: &mut Part,
) -> Result<(), NoMemory>
    ensures { OnOk result (Takes (behind (option_copied hand.entry) ((names.Range field low, RangeList list.now) ∷ [])) part.old part.new) }
{
    if part.room.is_spent() {
        return Ok(());
    }
    if is_past(hand, field, low) {
        return part_range(field, low, list, live, part);
    }
    Ok(())
}

// Whether a range is behind the hand.
fn is_past(hand: Option<&ListName>, field: u16, low: i64) -> bool
    ensures { result ≡ is_behind (option_copied hand.entry) (names.Range field low) }
{
    match hand {
        Some(
            ListName::Range {
                field: from,
                low: bound,
            },
        ) => { *from < field || (*from == field && *bound < low) }
        _ => true,
    }
}

fn part_range<L: Live>(
    field: u16,
    low: i64,
    list: &List<NumHit>,
    live: &L,
    part: &mut Part,
) -> Result<(), NoMemory>
    requires { is_spent part.old.room ≡ false }
    ensures { OnOk result (Takes ((names.Range field low, RangeList list.now) ∷ []) part.old part.new) }
{
    let blocks = list.sealed().len() as u64;
    show_range(field, low, list, blocks, live, part)?;
    part.room = part.room.behind(blocks);
    if part.room.is_spent() {
        part.end = Some(ListName::Range { field, low });
    }
    Ok(())
}

// Pictures the list of a range, or notes its name where it has a dead entry.
fn show_range<L: Live>(
    field: u16,
    low: i64,
    list: &List<NumHit>,
    blocks: u64,
    live: &L,
    part: &mut Part,
) -> Result<(), NoMemory>
    ensures room { part.new.room ≡ part.old.room }
    ensures shown { OnOk result (map shown part.new.pictures ≡ map shown part.old.pictures
        ++ (if picks part.old.room blocks then (names.Range field low, RangeList list.now) ∷ [] else [])) }
{
    if part.room.picks(blocks) {
        return part.pictures.push(range_picture(field, low, list)?);
    }
    if is_clean(list, live) {
        return Ok(());
    }
    part.dead.push(ListName::Range { field, low })
}
