//! How pictures of the lists of an index are taken, list after list in the order of names.
ghost use Rattle.std.specs.Prelude.{◌≡◌, ◌++◌, ◌<◌, Some, ℕ, map, length, IfOk, IfSome, OnOk};
ghost use Rattle.std.specs.Map.{keys_of};
ghost use Rattle.numeric_ranges.specs.Ranges.{LowsRise};
ghost use Rattle.term_dict.specs.Tags.{FieldsRise, tags_of};
ghost use Rattle.term_dict.specs.Terms.{WordsRise};
ghost use Rattle.ft_index.specs.Lists.{rows_of};
ghost use Rattle.ft_index.specs.Picturing.{field_named, fields_named, rows_named, shown, slot_named, slots_named, words_named};
ghost use Rattle.ft_index.specs.Snapshots.{RangeList, TagList, WordList};
ghost use Rattle.id_iters.specs.declared.list_name.ListName.TheVariants as names;

use crate::snapshots::{AnyPicture, NamedPicture};
use ft_base::{Bytes, ListOf, NoMemory};
use id_iters::ListName;
use inverted_list::List;
use numeric_ranges::Ranges;
use posting_block::{NumHit, TagHit, TextHit};
use std::alloc::Global;
use term_dict::{TagLists, Terms};

/// Adds a picture of the list of each word.
pub fn picture_words(
    terms: &Terms,
    alloc: Global,
    all: &mut ListOf<NamedPicture>,
) -> Result<(), NoMemory>
    ensures named { OnOk result (map shown all.new ≡ map shown all.old ++ words_named terms.now) }
    ensures rise { WordsRise terms.now }
{
    // Its clause tells that the words rise.
    let _ = terms.len();
    let mut walk = terms.walk(None)?;
    'rows: while let Some((word, list)) = walk.next() {
        all.push(word_picture(alloc, word, list)?)?;
    }
    Ok(())
}

pub fn word_picture(
    alloc: Global,
    word: &[u8],
    list: &List<TextHit>,
) -> Result<NamedPicture, NoMemory>
    ensures { IfOk result (λ named. shown named ≡ (names.Word word.now, WordList list.now)) }
{
    let picture = AnyPicture::Word(list.picture()?);
    let text = Bytes::from_slice(alloc, word)?;
    Ok(NamedPicture {
        name: ListName::Word { text },
        picture,
    })
}

/// Adds a picture of the list of each tag of each field.
pub fn picture_tags(
    tags: &TagLists,
    alloc: Global,
    all: &mut ListOf<NamedPicture>,
) -> Result<(), NoMemory>
    ensures named { OnOk result (map shown all.new ≡ map shown all.old ++ fields_named tags.now (keys_of tags.now)) }
    ensures fields { FieldsRise tags.now }
    ensures rise { (field : ℕ) → WordsRise (tags_of tags.now field) }
{
    // Its clauses tell that fields and tags rise.
    let _ = tags.len();
    let fields = tags.fields()?;
    for field in fields.as_slice() {
        picture_field(tags, *field, alloc, all)?;
    }
    Ok(())
}

fn picture_field(
    tags: &TagLists,
    field: u16,
    alloc: Global,
    all: &mut ListOf<NamedPicture>,
) -> Result<(), NoMemory>
    ensures { OnOk result (map shown all.new ≡ map shown all.old ++ field_named field (tags_of tags.now field)) }
{
    let mut walk = tags.walk(field, None)?;
    'rows: while let Some((tag, list)) = walk.next() {
        all.push(tag_picture(alloc, field, tag, list)?)?;
    }
    Ok(())
}

pub fn tag_picture(
    alloc: Global,
    field: u16,
    tag: &[u8],
    list: &List<TagHit>,
) -> Result<NamedPicture, NoMemory>
    ensures { IfOk result (λ named. shown named ≡ (names.Tag field tag.now, TagList list.now)) }
{
    let picture = AnyPicture::Tag(list.picture()?);
    let text = Bytes::from_slice(alloc, tag)?;
    Ok(NamedPicture {
        name: ListName::Tag { field, text },
        picture,
    })
}

/// Adds a picture of the list of each range of each field. A field past those that a name can tell counts as out of memory.
pub fn picture_ranges(
    ranges: &[Option<Ranges>],
    all: &mut ListOf<NamedPicture>,
) -> Result<(), NoMemory>
    ensures named { OnOk result (map shown all.new ≡ map shown all.old ++ slots_named 0 ranges.now) }
    ensures rise { OnOk result ((field : ℕ) → IfSome (rows_of ranges.now field) LowsRise) }
{
    'fields: for number in 0..ranges.len() {
        let Ok(field) = u16::try_from(number) else {
            return Err(NoMemory);
        };
        picture_slot(&ranges[number], field, all)?;
    }
    Ok(())
}

fn picture_slot(
    slot: &Option<Ranges>,
    field: u16,
    all: &mut ListOf<NamedPicture>,
) -> Result<(), NoMemory>
    ensures named { OnOk result (map shown all.new ≡ map shown all.old ++ slot_named field slot.now) }
    ensures rise { IfSome slot.now LowsRise }
{
    match slot {
        Some(rows) => picture_rows(rows, field, all),
        None => Ok(()),
    }
}

fn picture_rows(rows: &Ranges, field: u16, all: &mut ListOf<NamedPicture>) -> Result<(), NoMemory>
    ensures named { OnOk result (map shown all.new ≡ map shown all.old ++ rows_named field rows.now) }
    ensures rise { LowsRise rows.now }
{
    'rows: for at in 0..rows.count() {
        all.push(range_picture(field, rows.low(at), rows.range(at))?)?;
    }
    Ok(())
}

pub fn range_picture(field: u16, low: i64, list: &List<NumHit>) -> Result<NamedPicture, NoMemory>
    ensures { IfOk result (λ named. shown named ≡ (names.Range field low, RangeList list.now)) }
{
    let picture = AnyPicture::Range(list.picture()?);
    Ok(NamedPicture {
        name: ListName::Range { field, low },
        picture,
    })
}
