//! How the lists of noted names lose their dead entries where they stand.
ghost use Rattle.std.specs.Prelude.{◌<◌, length};
ghost use Rattle.ft_index.specs.Lists.{list_from};
ghost use Rattle.ft_index.specs.Markers.{AllBefore, TakesLists, range_list, range_marker, slot_marker, tag_list, tag_marker, word_marker};
ghost use Rattle.ft_index.specs.Thinned.{RangesThin, SlotThins, TagsThin, WordsThin};
ghost use Rattle.term_dict.specs.Terms.{list_of};

use crate::collecting::{collect_tag, collect_word};
use crate::collecting_ranges::collect_row;
use ft_base::NoMemory;
use gc_splice::Live;
use id_iters::ListName;
use inverted_list::Markers;
use numeric_ranges::Ranges;
use term_dict::{TagLists, Terms};

/// Takes the dead entries out of the lists of those of the names that are words.
pub fn sweep_words<L: Live>(
    terms: &mut Terms,
    names: &[ListName],
    live: &L,
    markers: &mut Markers,
) -> Result<(), NoMemory>
    requires before { AllBefore markers.old (word_marker terms.old) }
    ensures thin { WordsThin (L.is live.now) terms.old terms.new }
    ensures takes { TakesLists markers.old markers.new (list_of terms.old) (list_of terms.new) }
{
    for name in names {
        sweep_word(terms, name, live, markers)?;
    }
    Ok(())
}

fn sweep_word<L: Live>(
    terms: &mut Terms,
    name: &ListName,
    live: &L,
    markers: &mut Markers,
) -> Result<(), NoMemory>
    requires before { AllBefore markers.old (word_marker terms.old) }
    ensures thin { WordsThin (L.is live.now) terms.old terms.new }
    ensures takes { TakesLists markers.old markers.new (list_of terms.old) (list_of terms.new) }
{
    match name {
        ListName::Word { text } => collect_word(terms, text.as_slice(), live, markers),
        _ => Ok(()),
    }
}

/// Takes the dead entries out of the lists of those of the names that are tags.
pub fn sweep_tags<L: Live>(
    tags: &mut TagLists,
    names: &[ListName],
    live: &L,
    markers: &mut Markers,
) -> Result<(), NoMemory>
    requires before { AllBefore markers.old (tag_marker tags.old) }
    ensures thin { TagsThin (L.is live.now) tags.old tags.new }
    ensures takes { TakesLists markers.old markers.new (tag_list tags.old) (tag_list tags.new) }
{
    for name in names {
        sweep_tag(tags, name, live, markers)?;
    }
    Ok(())
}

fn sweep_tag<L: Live>(
    tags: &mut TagLists,
    name: &ListName,
    live: &L,
    markers: &mut Markers,
) -> Result<(), NoMemory>
    requires before { AllBefore markers.old (tag_marker tags.old) }
    ensures thin { TagsThin (L.is live.now) tags.old tags.new }
    ensures takes { TakesLists markers.old markers.new (tag_list tags.old) (tag_list tags.new) }
{
    match name {
        ListName::Tag { field, text } => {
            collect_tag(tags, *field, text.as_slice(), live, markers)
        }
        _ => Ok(()),
    }
}

/// Takes the dead entries out of the lists of those of the names that are ranges.
pub fn sweep_ranges<L: Live>(
    ranges: &mut [Option<Ranges>],
    names: &[ListName],
    live: &L,
    markers: &mut Markers,
) -> Result<(), NoMemory>
    requires before { AllBefore markers.old (range_marker ranges.old) }
    ensures thin { RangesThin (L.is live.now) ranges.old ranges.new }
    ensures takes { TakesLists markers.old markers.new (range_list ranges.old) (range_list ranges.new) }
{
    for name in names {
        sweep_range(ranges, name, live, markers)?;
    }
    Ok(())
}

fn sweep_range<L: Live>(
    ranges: &mut [Option<Ranges>],
    name: &ListName,
    live: &L,
    markers: &mut Markers,
) -> Result<(), NoMemory>
    requires before { AllBefore markers.old (range_marker ranges.old) }
    ensures thin { RangesThin (L.is live.now) ranges.old ranges.new }
    ensures takes { TakesLists markers.old markers.new (range_list ranges.old) (range_list ranges.new) }
{
    match name {
        ListName::Range { field, low } => {
            sweep_field(ranges, usize::from(*field), *low, live, markers)
        }
        _ => Ok(()),
    }
}

// The list of the range of a field that begins at a low.
fn sweep_field<L: Live>(
    ranges: &mut [Option<Ranges>],
    number: usize,
    low: i64,
    live: &L,
    markers: &mut Markers,
) -> Result<(), NoMemory>
    requires before { AllBefore markers.old (range_marker ranges.old) }
    ensures thin { RangesThin (L.is live.now) ranges.old ranges.new }
    ensures takes { TakesLists markers.old markers.new (range_list ranges.old) (range_list ranges.new) }
{
    if ranges.len() <= number {
        return Ok(());
    }
    sweep_at(ranges, number, low, live, markers)
}

fn sweep_at<L: Live>(
    ranges: &mut [Option<Ranges>],
    number: usize,
    low: i64,
    live: &L,
    markers: &mut Markers,
) -> Result<(), NoMemory>
    requires within { number < length ranges.old }
    requires before { AllBefore markers.old (range_marker ranges.old) }
    ensures thin { RangesThin (L.is live.now) ranges.old ranges.new }
    ensures takes { TakesLists markers.old markers.new (range_list ranges.old) (range_list ranges.new) }
{
    sweep_slot(&mut ranges[number], low, live, markers)
}

fn sweep_slot<L: Live>(
    slot: &mut Option<Ranges>,
    low: i64,
    live: &L,
    markers: &mut Markers,
) -> Result<(), NoMemory>
    requires before { AllBefore markers.old (slot_marker slot.old) }
    ensures thin { SlotThins (L.is live.now) slot.old slot.new }
    ensures takes { TakesLists markers.old markers.new (list_from slot.old) (list_from slot.new) }
{
    match slot {
        Some(rows) => collect_row(rows, low, live, markers),
        None => Ok(()),
    }
}
