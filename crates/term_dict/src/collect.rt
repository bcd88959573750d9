//! Dead entries go out of the list of one word of a map, and a word goes with its last one.
//!
//! The list is changed in its place in the map. Only then is the word looked up again, to be taken out where its list was
//! left without an entry.
ghost use Rattle.std.specs.Prelude.{◌≡◌, ◌<◌, ◌≤◌, ◌+◌, ℕ, Bool, Ok, IfNone, IfSome, IfOk, OnOk, OnErr};
ghost use Rattle.inverted_list.specs.Listing.{RisesAbove};
ghost use Rattle.gc_splice.specs.Splice.{Fits, picture_of};
ghost use Rattle.term_dict.specs.Changes.{CollectsList, CollectsRow, SplicesRow, is_drained};
ghost use Rattle.term_dict.specs.Rows.{lists_of};
ghost use Rattle.term_dict.specs.Splices.{CollectsWord, SplicesWord, removed_by, some_filled};
ghost use Rattle.term_dict.specs.Terms.{IdsRise, Sets, entries_in_all, list_of};

use ft_base::NoMemory;
use gc_splice::{Live, Repair, Spliced, collect_list, splice_list};
use inverted_list::{List, Marker, Markers};
use posting_block::Payload;
use std::alloc::Global;
use std::collections::BTreeMap;

/// How many entries a splice took out.
pub(crate) fn removed(spliced: Spliced) -> u64
    ensures { result ≡ removed_by spliced }
{
    match spliced {
        Spliced::Done { removed, .. } => removed,
        _ => 0,
    }
}

/// Lays a repair over the list of a word, which goes with its last entry.
pub(crate) fn splice_word<P: Payload>(
    lists: &mut BTreeMap<Vec<u8>, List<P>>,
    word: &[u8],
    repair: &mut Repair<P>,
    marker: Marker,
) -> Spliced
    requires { IfSome (list_of (lists_of lists.old.entries) word.now) (λ l.
        repair.old.seen ≡ l.marker → (live : ℕ → Bool) × Fits live repair.old (picture_of l)) }
    ensures gone { IfNone (list_of (lists_of lists.old.entries) word.now)
        ((result ≡ Spliced.Gone) × (lists.new.entries ≡ lists.old.entries)) }
    ensures there { IfSome (list_of (lists_of lists.old.entries) word.now) (λ l.
        SplicesWord word.now repair.old marker l (lists_of lists.old.entries) (lists_of lists.new.entries) result) }
    ensures counted { entries_in_all (lists_of lists.new.entries) + removed_by result
        ≡ entries_in_all (lists_of lists.old.entries) }
    ensures ids { IdsRise (lists_of lists.old.entries) → IdsRise (lists_of lists.new.entries) }
{
    match splice_row(lists, word, repair, marker) {
        Spliced::Done { removed, tail_kept } => {
            drop_drained(lists, word);
            Spliced::Done { removed, tail_kept }
        }
        other => other,
    }
}

/// Takes the dead entries out of the list of a word, which goes with its last entry, and answers how many went.
pub(crate) fn collect_word<P: Payload, L: Live>(
    lists: &mut BTreeMap<Vec<u8>, List<P>>,
    alloc: Global,
    word: &[u8],
    live: &L,
    markers: &mut Markers,
) -> Result<u64, NoMemory>
    ensures gone { IfNone (list_of (lists_of lists.old.entries) word.now)
        ((lists.new.entries ≡ lists.old.entries) × (markers.new ≡ markers.old)) }
    ensures ok { OnOk result (IfSome (list_of (lists_of lists.old.entries) word.now) (λ l.
        CollectsWord (L.is live.now) word.now l (lists_of lists.old.entries) (lists_of lists.new.entries)
        markers.old markers.new)) }
    ensures err { OnErr result ((lists.new.entries ≡ lists.old.entries) × (markers.new ≡ markers.old)) }
    ensures counted { IfOk result (λ removed. entries_in_all (lists_of lists.new.entries) + removed
        ≡ entries_in_all (lists_of lists.old.entries)) }
    ensures ids { IdsRise (lists_of lists.old.entries) → IdsRise (lists_of lists.new.entries) }
{
    let removed = collect_row(lists, alloc, word, live, markers)?;
    if removed == 0 {
        return Ok(0);
    }
    drop_drained(lists, word);
    Ok(removed)
}

// Lays a repair over the list of a word, which may be left without an entry.
fn splice_row<P: Payload>(
    lists: &mut BTreeMap<Vec<u8>, List<P>>,
    word: &[u8],
    repair: &mut Repair<P>,
    marker: Marker,
) -> Spliced
    requires { IfSome (list_of (lists_of lists.old.entries) word.now) (λ l.
        repair.old.seen ≡ l.marker → (live : ℕ → Bool) × Fits live repair.old (picture_of l)) }
    ensures gone { IfNone (list_of (lists_of lists.old.entries) word.now)
        ((result ≡ Spliced.Gone) × (lists.new.entries ≡ lists.old.entries)) }
    ensures there { IfSome (list_of (lists_of lists.old.entries) word.now) (λ l.
        SplicesRow word.now repair.old marker l lists.old.entries lists.new.entries result) }
{
    let Some(list) = lists.get_mut(word) else {
        return Spliced::Gone;
    };
    let spliced = splice_list(list, repair, marker);
    let _ = list.len();
    spliced
}

// Takes the dead entries out of the list of a word, which may be left without an entry, and answers how many went.
fn collect_row<P: Payload, L: Live>(
    lists: &mut BTreeMap<Vec<u8>, List<P>>,
    alloc: Global,
    word: &[u8],
    live: &L,
    markers: &mut Markers,
) -> Result<u64, NoMemory>
    ensures gone { IfNone (list_of (lists_of lists.old.entries) word.now)
        ((result ≡ Ok 0) × (lists.new.entries ≡ lists.old.entries) × (markers.new ≡ markers.old)) }
    ensures there { IfSome (list_of (lists_of lists.old.entries) word.now) (λ l.
        CollectsRow (L.is live.now) word.now l lists.old.entries lists.new.entries
        markers.old markers.new result) }
{
    let Some(list) = lists.get_mut(word) else {
        return Ok(0);
    };
    collect_counted(alloc, list, live, markers)
}

// Takes the dead entries out of a list, and answers how many went.
fn collect_counted<P: Payload, L: Live>(
    alloc: Global,
    list: &mut List<P>,
    live: &L,
    markers: &mut Markers,
) -> Result<u64, NoMemory>
    ensures collects { CollectsList (L.is live.now) list.old list.new markers.old markers.new result }
    ensures rises { RisesAbove 0 list.new.entries }
{
    let before = list.len();
    let collected = collect_list(alloc, list, live, markers);
    let after = list.len();
    collected?;
    Ok(before - after)
}

// Takes a word out whose list has no entry.
fn drop_drained<P: Payload>(lists: &mut BTreeMap<Vec<u8>, List<P>>, word: &[u8])
    ensures sets { IfSome (list_of (lists_of lists.old.entries) word.now) (λ l.
        Sets word.now (some_filled l) (lists_of lists.old.entries) (lists_of lists.new.entries)) }
    ensures counted { entries_in_all (lists_of lists.new.entries)
        ≡ entries_in_all (lists_of lists.old.entries) }
{
    if is_drained(lists, word) {
        lists.remove(word);
    }
}

// Whether a word's list is there and has no entry.
fn is_drained<P: Payload>(lists: &BTreeMap<Vec<u8>, List<P>>, word: &[u8]) -> bool
    ensures { result ≡ is_drained (list_of (lists_of lists.now.entries) word.now) }
{
    match lists.get(word) {
        Some(list) => list.len() == 0,
        None => false,
    }
}
