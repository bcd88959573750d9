//! Places that a reader knows, by the names of their lists.
ghost use Rattle.std.specs.Prelude.{◌≡◌, IfOk, IsSome, OnOk};
ghost use Rattle.id_iters.specs.Fitting.{IsOpenAt};
ghost use Rattle.id_iters.specs.declared.list_name.ListName.{ListName as Name};
ghost use Rattle.list_plan.specs.Known.{Adds, KnownFit, KnowsAll, group_of, place_of, text_of};

use ft_base::NoMemory;
use id_iters::{Hint, ListName, Lists};
use inverted_list::Place;
use std::alloc::Global;
use std::collections::BTreeMap;

/// What a list's name says beside its text: which kind of list, of which field, and from which number on.
pub type Group = (u8, u16, i64);

/// The places that are known in lists, by the texts of the lists' names in each group.
pub type Known<'h> = BTreeMap<Group, BTreeMap<&'h [u8], Place>>;

/// The places of the hints that fit: they are opened in their lists behind the ids up to `after`, and sound. Where there are
/// no hints no memory is taken.
pub fn known_places<'h, T: Lists>(
    alloc: Global,
    lists: &T,
    hints: &'h [Hint],
    after: u64,
) -> Result<Known<'h>, NoMemory>
    ensures fit { IfOk result (λ known. KnownFit (T.held lists.now) after (place_of known)) }
    ensures all { IfOk result (λ known. KnowsAll (T.held lists.now) after (place_of known) hints.now) }
{
    let mut known = BTreeMap::new(alloc);
    'hints: for hint in hints {
        add_hint(alloc, lists, &mut known, hint, after)?;
    }
    Ok(known)
}

// The place of a hint becomes known where the hint fits.
fn add_hint<'h, T: Lists>(
    alloc: Global,
    lists: &T,
    known: &mut Known<'h>,
    hint: &'h Hint,
    after: u64,
) -> Result<(), NoMemory>
    ensures fit { OnOk result (KnownFit (T.held lists.now) after (place_of known.old)
        → KnownFit (T.held lists.now) after (place_of known.new)) }
    ensures here { OnOk result (IsOpenAt (T.held lists.now) hint.now.list after hint.now.place
        → IsSome (place_of known.new hint.now.list)) }
    ensures kept { OnOk result ((list : Name)
        → IsSome (place_of known.old list) → IsSome (place_of known.new list)) }
{
    if !hint.list.is_open_at(lists, hint.place, after) {
        return Ok(());
    }
    add_place(alloc, known, &hint.list, hint.place)?;
    Ok(())
}

// A place becomes known in a list.
fn add_place<'h>(
    alloc: Global,
    known: &mut Known<'h>,
    list: &'h ListName,
    place: Place,
) -> Result<(), NoMemory>
    ensures { OnOk result (Adds (place_of known.old) (place_of known.new) list.now place) }
{
    let group = group_of(list);
    let mut places = known.remove(&group).unwrap_or(BTreeMap::new(alloc));
    places.insert(text_of(list), place)?;
    known.insert(group, places)?;
    Ok(())
}

/// The place that is known in a list.
pub fn place_of(known: &Known, list: &ListName) -> Option<Place>
    ensures { result ≡ place_of known.now list.now }
{
    match known.get(&group_of(list)) {
        Some(places) => match places.get(text_of(list)) {
            Some(place) => Some(*place),
            None => None,
        },
        None => None,
    }
}

fn group_of(list: &ListName) -> Group
    ensures { result ≡ group_of list.now }
{
    match list {
        ListName::Word { .. } => (0, 0, 0),
        ListName::Tag { field, .. } => (1, *field, 0),
        ListName::Range { field, low } => (2, *field, *low),
    }
}

fn text_of(list: &ListName) -> &[u8]
    ensures { result.now ≡ text_of list.now }
{
    match list {
        ListName::Word { text } => text.as_slice(),
        ListName::Tag { text, .. } => text.as_slice(),
        ListName::Range { .. } => &[],
    }
}
