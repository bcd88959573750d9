//! A list of named items, in which a name is found without a walk.
//!
//! A short list is walked, which is faster and takes no memory. A longer one notes where the first item of each name stands.
ghost use Rattle.std.specs.Prelude.{◌≡◌, ◌<◌, [], ◌∷◌, None, ◌++◌, length, IfOk, IfSome, OnOk, OnErr};
ghost use Rattle.std.specs.List.{list_any};
ghost use Rattle.std.specs.Option.{option_copied};
ghost use Rattle.std.specs.Str.{bytes_eq};
ghost use Rattle.ft_base.specs.Named.{FindsFirst, IsNoted, item_of, place_of};
ghost use Rattle.ft_base.specs.Cells.{value_set};

use crate::NoMemory;
use crate::has_name::HasName;
use crate::places::Places;
use crate::row::{Cell, Value};
use std::alloc::Global;
use std::marker::Model;

/// So many items are walked: to compare with each costs less than to find the hash of a name.
const MOST_WALKED: usize = 32;

/// Items that a contract sees as a list. Names may come more than once.
#[derive(Drop)]
pub struct NamedList<T: HasName> {
    items: Vec<T>,
    places: Option<Box<Places>>,
}

impl<T: HasName> Model for NamedList<T> {
    ghost use Rattle.std.specs.Prelude.{List, IfSome};
    ghost use Rattle.std.specs.Coded.{coded_list};

    ghost Value = { List T };

    ghost coded = { coded_list T.code };

    ghost use Rattle.ft_base.specs.Named.{FindsFirst};

    ghost view = { λ l. l.items.items };

    ghost invariant = { λ l. IfSome l.places (λ places. FindsFirst T.name_of l.items.items places.value) };
}

impl<T: HasName> NamedList<T> {
    /// No items, and no memory taken.
    pub fn new(alloc: Global) -> NamedList<T>
        ensures { result ≡ [] }
    {
        NamedList {
            items: Vec::new(alloc),
            places: None,
        }
    }

    /// Takes a vector over as it is.
    pub fn from_vec(items: Vec<T>) -> Result<NamedList<T>, NoMemory>
        ensures { IfOk result (λ list. list ≡ items.items) }
    {
        let places = if items.len() > MOST_WALKED {
            Some(boxed_places(*items.allocator(), items.as_slice())?)
        } else {
            None
        };
        Ok(NamedList { items, places })
    }

    /// The number of items.
    pub fn len(&self) -> usize
        ensures { result ≡ length self.now }
    {
        self.items.len()
    }

    /// The items, lent.
    pub fn as_slice(&self) -> &[T]
        ensures { result.now ≡ self.now }
    {
        self.items.as_slice()
    }

    /// The place of the first item of a name.
    pub fn place(&self, name: &[u8]) -> Option<usize>
        ensures { result ≡ place_of T.name_of self.now name.now }
    {
        match &self.places {
            Some(places) => places.get(name),
            None => walk(self.items.as_slice(), name),
        }
    }

    /// The first item of a name.
    pub fn get(&self, name: &[u8]) -> Option<&T>
        ensures { option_copied result ≡ item_of T.name_of self.now name.now }
    {
        match self.place(name) {
            Some(place) => self.items.get(place),
            None => None,
        }
    }

    /// Whether an item has the name.
    pub fn has(&self, name: &[u8]) -> bool
        ensures { result ≡ list_any (λ item. bytes_eq name.now (T.name_of item)) self.now }
    {
        self.place(name).is_some()
    }

    /// Adds an item at the end. Out of memory, the item is dropped.
    pub fn push(&mut self, item: T) -> Result<(), NoMemory>
        ensures ok { OnOk result (self.new ≡ self.old ++ item ∷ []) }
        ensures err { OnErr result (self.new ≡ self.old) }
    {
        note_next(
            *self.items.allocator(),
            &mut self.places,
            self.items.as_slice(),
            &item,
        )?;
        let pushed = push_item(&mut self.items, item);
        if pushed.is_err() {
            self.places = None;
        }
        pushed
    }

    /// Hands the vector out as it is.
    pub fn into_vec(self) -> Vec<T>
        ensures { result.items ≡ self }
    {
        self.items
    }
}

impl NamedList<Cell> {
    /// The cell at a place gets another value.
    pub fn set_value(&mut self, place: usize, value: Value)
        requires { place < length self.old }
        ensures { self.new ≡ value_set self.old place value }
    {
        self.items[place].value = value;
    }
}

/// The place of the first item of a name, by a walk.
fn walk<T: HasName>(items: &[T], name: &[u8]) -> Option<usize>
    ensures { result ≡ place_of T.name_of items.now name.now }
{
    items.iter().position(|item| item.name() == name)
}

fn push_item<T: Drop>(items: &mut Vec<T>, item: T) -> Result<(), NoMemory>
    ensures ok { OnOk result (items.new.items ≡ items.old.items ++ item ∷ []) }
    ensures err { OnErr result (items.new.items ≡ items.old.items) }
{
    items.push(item)?;
    Ok(())
}

/// Notes the place of an item that comes behind these. Out of memory, no places are noted.
fn note_next<T: HasName>(
    alloc: Global,
    places: &mut Option<Box<Places>>,
    items: &[T],
    item: &T,
) -> Result<(), NoMemory>
    requires { IfSome places.old (λ places. FindsFirst T.name_of items.now places.value) }
    ensures ok { OnOk result (IfSome places.new (λ places.
        FindsFirst T.name_of (items.now ++ item.now ∷ []) places.value)) }
    ensures err { OnErr result (places.new ≡ None) }
{
    let old = places.take();
    *places = places_with(alloc, old, items, item)?;
    Ok(())
}

/// The places of the items and of one that comes behind them.
fn places_with<T: HasName>(
    alloc: Global,
    places: Option<Box<Places>>,
    items: &[T],
    item: &T,
) -> Result<Option<Box<Places>>, NoMemory>
    requires { IfSome places (λ places. FindsFirst T.name_of items.now places.value) }
    ensures { IfOk result (λ later. IfSome later (λ places.
        FindsFirst T.name_of (items.now ++ item.now ∷ []) places.value)) }
{
    match places {
        Some(places) => Ok(Some(noted(places, item.name(), items.len())?)),
        None if items.len() < MOST_WALKED => Ok(None),
        None => {
            let places = boxed_places(alloc, items)?;
            Ok(Some(noted(places, item.name(), items.len())?))
        }
    }
}

fn noted(places: Box<Places>, name: &[u8], place: usize) -> Result<Box<Places>, NoMemory>
    ensures { IfOk result (λ later. IsNoted name.now place places.value later.value) }
{
    let mut places = places;
    places.note(name, place)?;
    Ok(places)
}

fn boxed_places<T: HasName>(alloc: Global, items: &[T]) -> Result<Box<Places>, NoMemory>
    ensures { IfOk result (λ places. FindsFirst T.name_of items.now places.value) }
{
    Ok(Box::new(alloc, places_of(alloc, items)?)?)
}

/// The places of the items.
fn places_of<T: HasName>(alloc: Global, items: &[T]) -> Result<Places, NoMemory>
    ensures { IfOk result (λ places. FindsFirst T.name_of items.now places) }
{
    let mut places = Places::new(alloc);
    for i in 0..items.len() {
        places.note(items[i].name(), i)?;
    }
    Ok(places)
}
