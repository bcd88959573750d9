//! The names of an index's lists.
ghost use Rattle.std.specs.Prelude.{◌≡◌, ◌≤◌, ◌↔◌, IfOk, IfSome, IsTrue};
ghost use Rattle.std.specs.Option.{option_copied};
ghost use Rattle.id_iters.specs.Fitting.{IsOpenAt};
ghost use Rattle.id_iters.specs.Leaves.{word_list};
ghost use Rattle.id_iters.specs.Places.{FitsList, IsOpened, IsOpenedIn, IsSoundIn};

use crate::lists::Lists;
use ft_base::{Bytes, NoMemory, Steps};
use inverted_list::{List, Marker, Place};
use posting_block::{Payload, TextHit};
use std::sync::ledger::Ledger;

/// Which list: that of a word, of a tag of a field, or of a range of a field's numbers by its least number.
pub enum ListName {
    Word { text: Bytes },
    Tag { field: u16, text: Bytes },
    Range { field: u16, low: i64 },
}

// Written out, it is one step for whoever drops a name, where a derived one has an arm for each kind.
impl Drop for ListName {
    fn drop(self) {
        match self {
            ListName::Word { text } => drop(text),
            ListName::Tag { field: _, text } => drop(text),
            ListName::Range { field: _, low: _ } => {}
        }
    }
}

impl ListName {
    /// A copy of the name.
    pub fn copy(&self) -> Result<ListName, NoMemory>
        ensures { IfOk result (λ name. name ≡ self.now) }
    {
        match self {
            ListName::Word { text } => Ok(ListName::Word {
                text: text.clone()?,
            }),
            ListName::Tag { field, text } => Ok(ListName::Tag {
                field: *field,
                text: text.clone()?,
            }),
            ListName::Range { field, low } => Ok(ListName::Range {
                field: *field,
                low: *low,
            }),
        }
    }

    /// A place in the list behind the ids up to `after`. A hint that is such a place is answered as it is, and costs no
    /// step.
    pub fn open_at<T: Lists, L: Ledger>(
        &self,
        lists: &T,
        hint: Option<Place>,
        after: u64,
        steps: &mut Steps<L>,
    ) -> Place
        requires { IfSome hint (λ place. FitsList (T.held lists.now) self.now place) }
        ensures fits { FitsList (T.held lists.now) self.now result }
        ensures opened { IsOpened (T.held lists.now) self.now after result }
        ensures last { result.last ≡ after }
        // What a hint saves.
        ensures hint { IfSome hint (λ place. IsOpened (T.held lists.now) self.now after place → result ≡ place) }
        ensures free { IfSome hint
            (λ place. IsOpened (T.held lists.now) self.now after place → steps.new ≡ steps.old) }
        ensures counts { steps.old ≤ steps.new }
    {
        match self {
            ListName::Word { text } => open_in(lists.text(text.as_slice()), hint, after, steps),
            ListName::Tag { field, text } => {
                open_in(lists.tag(*field, text.as_slice()), hint, after, steps)
            }
            ListName::Range { field, low } => open_in(
                lists.range(*field, *low),
                hint,
                after,
                steps,
            ),
        }
    }

    /// The same place, looked for first where another place of the list stands and in the block before it.
    pub fn open_near<T: Lists, L: Ledger>(
        &self,
        lists: &T,
        near: Place,
        after: u64,
        steps: &mut Steps<L>,
    ) -> Place
        ensures opened { IsOpenAt (T.held lists.now) self.now after result }
        ensures counts { steps.old ≤ steps.new }
    {
        match self {
            ListName::Word { text } => open_close(lists.text(text.as_slice()), near, after, steps),
            ListName::Tag { field, text } => {
                open_close(lists.tag(*field, text.as_slice()), near, after, steps)
            }
            ListName::Range { field, low } => open_close(
                lists.range(*field, *low),
                near,
                after,
                steps,
            ),
        }
    }

    /// Whether a place is the one that is opened in the list behind the ids up to `after`, and sound there.
    pub fn is_open_at<T: Lists>(&self, lists: &T, place: Place, after: u64) -> bool
        ensures { IsTrue result ↔ IsOpenAt (T.held lists.now) self.now after place }
    {
        match self {
            ListName::Word { text } => is_open_in(lists.text(text.as_slice()), place, after),
            ListName::Tag { field, text } => {
                is_open_in(lists.tag(*field, text.as_slice()), place, after)
            }
            ListName::Range { field, low } => is_open_in(lists.range(*field, *low), place, after),
        }
    }

    /// The list, where it is that of a word and there is one.
    pub(crate) fn word_list<'a, T: Lists>(&self, lists: &'a T) -> Option<&'a List<TextHit>>
        ensures { option_copied result ≡ word_list (T.held lists.now) self.now }
    {
        match self {
            ListName::Word { text } => lists.text(text.as_slice()),
            _ => None,
        }
    }
}

// A place in the list, where there is one, behind the ids up to `after`.
fn open_in<P: Payload, L: Ledger>(
    list: Option<&List<P>>,
    hint: Option<Place>,
    after: u64,
    steps: &mut Steps<L>,
) -> Place
    requires { IfSome hint (λ place. IsSoundIn (option_copied list) place) }
    ensures sound { IsSoundIn (option_copied list.entry) result }
    ensures opened { IsOpenedIn (option_copied list.entry) after result }
    ensures last { result.last ≡ after }
    ensures hint { IfSome hint (λ place. IsOpenedIn (option_copied list.entry) after place → result ≡ place) }
    ensures free { IfSome hint
        (λ place. IsOpenedIn (option_copied list.entry) after place → steps.new ≡ steps.old) }
    ensures counts { steps.old ≤ steps.new }
{
    match list {
        Some(list) => list.open_at(hint, after, steps),
        None => first(after),
    }
}

// The same, looked for first where another place of the list stands and in the block before it.
fn open_close<P: Payload, L: Ledger>(
    list: Option<&List<P>>,
    near: Place,
    after: u64,
    steps: &mut Steps<L>,
) -> Place
    ensures sound { IsSoundIn (option_copied list.entry) result }
    ensures opened { IsOpenedIn (option_copied list.entry) after result }
    ensures counts { steps.old ≤ steps.new }
{
    match list {
        Some(list) => list.open_near(near, after, steps),
        None => first(after),
    }
}

// Whether a place is the one that is opened in the list, where there is one, behind the ids up to `after`, and sound there.
fn is_open_in<P: Payload>(list: Option<&List<P>>, place: Place, after: u64) -> bool
    ensures { IsTrue result ↔ (IsSoundIn (option_copied list.entry) place
        × IsOpenedIn (option_copied list.entry) after place) }
{
    match list {
        Some(list) => {
            list.marker() == place.marker && place.last == after && list.is_sound(place)
        }
        None => is_first(place, after),
    }
}

// The first place of all.
fn first(after: u64) -> Place
    ensures { result ≡ record {
      marker = record { event = 0; nth = 0 };
      block = 0;
      last = after;
    } }
{
    Place {
        marker: Marker { event: 0, nth: 0 },
        block: 0,
        last: after,
    }
}

// Whether a place is the first of all.
fn is_first(place: Place, after: u64) -> bool
    ensures { IsTrue result ↔ (place ≡ record {
      marker = record { event = 0; nth = 0 };
      block = 0;
      last = after;
    }) }
{
    let marker = Marker { event: 0, nth: 0 };
    place.marker == marker && place.block == 0 && place.last == after
}
