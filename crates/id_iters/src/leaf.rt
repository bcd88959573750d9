//! The ids of one list.
ghost use Rattle.std.specs.Prelude.{◌≡◌, ◌<◌, ◌≤◌, ◌+◌, ◌&&◌, ℕ, [], IfOk, IfSome};
ghost use Rattle.id_iters.specs.Entries.{codes_at};
ghost use Rattle.id_iters.specs.Held.{Held, AreLists};
ghost use Rattle.id_iters.specs.Least.{IsLeast, NoneBetween};
ghost use Rattle.id_iters.specs.Leaves.{has_word, leaf_has, word_entries};
ghost use Rattle.id_iters.specs.Places.{FitsList, LeafReady, StandAt, WordReady};
ghost use Rattle.id_iters.specs.declared.list_name.ListName.TheVariants as names;

use crate::blocks::read_in;
use crate::hit_test::{EveryHit, Interval};
use crate::list_name::ListName;
use crate::lists::Lists;
use crate::read_ahead::ReadAhead;
use ft_base::{Fields, NoMemory, Steps};
use inverted_list::Place;
use posting_block::{ListOfPlaces, TextHit};
use std::alloc::Global;
use std::sync::ledger::Ledger;

/// The ids of a list that count: by `fields` in the list of a word, from `low` to `high` in that of a range. The ids `ahead`
/// are those up to the place that were read and not given out.
pub struct Leaf {
    pub list: ListName,
    pub place: Place,
    pub fields: Fields,
    pub low: i64,
    pub high: i64,
    pub ahead: ReadAhead,
}

// Written out, it is one step for whoever drops a leaf.
impl Drop for Leaf {
    fn drop(self) {
        let Leaf {
            list,
            place: _,
            fields,
            low: _,
            high: _,
            ahead,
        } = self;
        drop(list);
        drop(fields);
        drop(ahead);
    }
}

impl Leaf {
    /// A leaf that was not asked. It takes no memory.
    pub fn new(
        alloc: Global,
        list: ListName,
        place: Place,
        fields: Fields,
        low: i64,
        high: i64,
    ) -> Leaf
        ensures leaf { result ≡ record {
          list = list;
          place = place;
          fields = fields;
          low = low;
          high = high;
          ahead = [];
        } }
        ensures ready { (held : Held) (from : ℕ)
            → FitsList held list place → place.last < from → LeafReady held result from }
        ensures word_ready { (held : Held) (from : ℕ)
            → FitsList held list place → place.last < from → WordReady held result from }
    {
        Leaf {
            list,
            place,
            fields,
            low,
            high,
            ahead: ReadAhead::new(alloc),
        }
    }

    /// The least live id from `from` on that the leaf has. After `NoMemory` the leaf may only be dropped.
    #[inline(always)]
    pub fn seek<T: Lists, L: Ledger>(
        &mut self,
        lists: &T,
        from: u64,
        steps: &mut Steps<L>,
    ) -> Result<Option<u64>, NoMemory>
        requires lists { AreLists (T.held lists.now) }
        requires ready { LeafReady (T.held lists.now) self.old from }
        ensures least { IfOk result (λ r. IsLeast
            (λ id. (T.held lists.now).live id && leaf_has (T.held lists.now) self.old id) from r) }
        ensures same { self.new ≡ record self.old { place = self.new.place; ahead = self.new.ahead } }
        ensures ready { IfOk result (λ r. IfSome r (λ id.
            LeafReady (T.held lists.now) self.new (id + 1))) }
        ensures counts { steps.old ≤ steps.new }
    {
        if let Some(id) = self.ahead.next_live(lists, from) {
            return Ok(Some(id));
        }
        self.read_on(lists, from, steps)
    }

    /// Gives the memory of the ids ahead back. The leaf then stands behind an id, and reads on from there.
    pub(crate) fn rest<T: Lists, L: Ledger>(&mut self, lists: &T, id: u64, steps: &mut Steps<L>)
        ensures same { self.new ≡ record self.old { place = self.new.place; ahead = self.new.ahead } }
        ensures ready { LeafReady (T.held lists.now) self.new (id + 1) }
        ensures counts { steps.old ≤ steps.new }
    {
        self.place = self.list.open_near(lists, self.place, id, steps);
        self.ahead.forget();
    }

    // The least live id from `from` on, where none is left up to the place. The list is looked up by its name.
    #[inline(never)]
    fn read_on<T: Lists, L: Ledger>(
        &mut self,
        lists: &T,
        from: u64,
        steps: &mut Steps<L>,
    ) -> Result<Option<u64>, NoMemory>
        requires lists { AreLists (T.held lists.now) }
        requires sound { FitsList (T.held lists.now) self.old.list self.old.place }
        requires used { NoneBetween (λ id. (T.held lists.now).live id
            && leaf_has (T.held lists.now) self.old id) from (self.old.place.last + 1) }
        ensures least { IfOk result (λ r. IsLeast
            (λ id. (T.held lists.now).live id && leaf_has (T.held lists.now) self.old id) from r) }
        ensures same { self.new ≡ record self.old { place = self.new.place; ahead = self.new.ahead } }
        ensures ready { IfOk result (λ r. IfSome r (λ id.
            LeafReady (T.held lists.now) self.new (id + 1))) }
        ensures counts { steps.old ≤ steps.new }
    {
        match &self.list {
            ListName::Word { text } => read_in(
                lists.text(text.as_slice()),
                &self.fields,
                &mut self.place,
                &mut self.ahead,
                lists,
                from,
                steps,
            ),
            ListName::Tag { field, text } => read_in(
                lists.tag(*field, text.as_slice()),
                &EveryHit,
                &mut self.place,
                &mut self.ahead,
                lists,
                from,
                steps,
            ),
            ListName::Range { field, low } => {
                let (field, low) = (*field, *low);
                self.read_range(lists, field, low, from, steps)
            }
        }
    }

    // The same in the list of this range.
    fn read_range<T: Lists, L: Ledger>(
        &mut self,
        lists: &T,
        field: u16,
        low: i64,
        from: u64,
        steps: &mut Steps<L>,
    ) -> Result<Option<u64>, NoMemory>
        requires range { self.old.list ≡ names.Range field low }
        requires lists { AreLists (T.held lists.now) }
        requires sound { FitsList (T.held lists.now) self.old.list self.old.place }
        requires used { NoneBetween (λ id. (T.held lists.now).live id
            && leaf_has (T.held lists.now) self.old id) from (self.old.place.last + 1) }
        ensures least { IfOk result (λ r. IsLeast
            (λ id. (T.held lists.now).live id && leaf_has (T.held lists.now) self.old id) from r) }
        ensures same { self.new ≡ record self.old { place = self.new.place; ahead = self.new.ahead } }
        ensures ready { IfOk result (λ r. IfSome r (λ id.
            LeafReady (T.held lists.now) self.new (id + 1))) }
        ensures counts { steps.old ≤ steps.new }
    {
        let interval = self.interval();
        read_in(
            lists.range(field, low),
            &interval,
            &mut self.place,
            &mut self.ahead,
            lists,
            from,
            steps,
        )
    }

    // The numbers that count.
    fn interval(&self) -> Interval
        ensures low { result.low ≡ self.now.low }
        ensures high { result.high ≡ self.now.high }
    {
        Interval {
            low: self.low,
            high: self.high,
        }
    }

    /// The least live id from `from` on that has the leaf's word, in any field.
    #[inline(always)]
    pub(crate) fn seek_word<T: Lists, L: Ledger>(
        &mut self,
        lists: &T,
        from: u64,
        steps: &mut Steps<L>,
    ) -> Result<Option<u64>, NoMemory>
        requires lists { AreLists (T.held lists.now) }
        requires ready { WordReady (T.held lists.now) self.old from }
        ensures least { IfOk result (λ r. IsLeast
            (λ id. (T.held lists.now).live id
            && has_word (T.held lists.now) self.old.list id) from r) }
        ensures same { self.new ≡ record self.old { place = self.new.place; ahead = self.new.ahead } }
        ensures at { IfOk result (λ r. IfSome r (λ id.
            StandAt (T.held lists.now) self.new id)) }
        ensures counts { steps.old ≤ steps.new }
    {
        if let Some(id) = self.ahead.next_live(lists, from) {
            return Ok(Some(id));
        }
        self.read_word(lists, from, steps)
    }

    // The same, where no id is left up to the place.
    #[inline(never)]
    fn read_word<T: Lists, L: Ledger>(
        &mut self,
        lists: &T,
        from: u64,
        steps: &mut Steps<L>,
    ) -> Result<Option<u64>, NoMemory>
        requires lists { AreLists (T.held lists.now) }
        requires sound { FitsList (T.held lists.now) self.old.list self.old.place }
        requires used { NoneBetween (λ id. (T.held lists.now).live id
            && has_word (T.held lists.now) self.old.list id) from (self.old.place.last + 1) }
        ensures least { IfOk result (λ r. IsLeast
            (λ id. (T.held lists.now).live id
            && has_word (T.held lists.now) self.old.list id) from r) }
        ensures same { self.new ≡ record self.old { place = self.new.place; ahead = self.new.ahead } }
        ensures at { IfOk result (λ r. IfSome r (λ id.
            StandAt (T.held lists.now) self.new id)) }
        ensures counts { steps.old ≤ steps.new }
    {
        read_in(
            self.list.word_list(lists),
            &EveryHit,
            &mut self.place,
            &mut self.ahead,
            lists,
            from,
            steps,
        )
    }

    /// The codes of the leaf's word in a document that has it.
    pub(crate) fn codes<T: Lists>(&self, lists: &T, id: u64) -> Result<ListOfPlaces, NoMemory>
        requires { StandAt (T.held lists.now) self.now id }
        ensures { IfOk result (λ codes. codes
            ≡ codes_at (word_entries (T.held lists.now) self.now.list) id) }
    {
        let Some(list) = self.list.word_list(lists) else {
            unreachable!()
        };
        let TextHit { places } = list.hit(id)?;
        Ok(places)
    }
}
