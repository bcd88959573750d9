//! One range: where it begins, its list, and what is known of its values.
ghost use Rattle.std.specs.Prelude.{◌≡◌, ◌<◌, ◌+◌, ℕ, Bool, [], ◌∷◌, ◌++◌, true, false, length, OnOk, OnErr, IfOk, IfSome, IfNone};
ghost use Rattle.gc_splice.specs.Splice.{Fits, SplicesList, picture_of};
ghost use Rattle.inverted_list.specs.Listing.{RisesAbove, last_id, with_entry, filled_list};
ghost use Rattle.numeric_ranges.specs.Rows.{IsPart, Knows};
ghost use Rattle.numeric_ranges.specs.Splicing.{CollectsList};
ghost use Rattle.numeric_ranges.specs.Values.{splits};

use crate::spread::Spread;
use ft_base::NoMemory;
use gc_splice::{Live, Repair, Spliced, collect_list, splice_list};
use inverted_list::{List, Marker, Markers};
use posting_block::NumHit;
use std::alloc::Global;

/// Over so many entries a range with two distinct values splits.
pub(crate) const LIMIT: u64 = 1024;

/// A range: its low, its list, and what is known of its values.
pub(crate) struct Row {
    pub low: i64,
    pub list: List<NumHit>,
    pub spread: Spread,
}

// Written out, it is one step for whoever drops a range.
impl Drop for Row {
    fn drop(self) {
        let Row {
            low: _,
            list,
            spread: _,
        } = self;
        drop(list);
    }
}

impl Row {
    /// A range without entries.
    pub fn new(alloc: Global, low: i64, marker: Marker) -> Row
        ensures low { result.low ≡ low }
        ensures list { result.list ≡ filled_list marker [] }
        ensures knows { Knows result.spread result.list.entries }
    {
        Row {
            low,
            list: List::new(alloc, marker),
            spread: Spread::Empty,
        }
    }

    /// One more entry, behind the others.
    pub fn push(&mut self, id: u64, hit: &NumHit) -> Result<(), NoMemory>
        requires { last_id 0 self.old.list.entries < id }
        ensures low { self.new.low ≡ self.old.low }
        ensures ok { OnOk result (self.new.list ≡ with_entry self.old.list id hit.now) }
        ensures err { OnErr result (self.new.list ≡ self.old.list) }
        ensures knows { Knows self.old.spread self.old.list.entries
            → Knows self.new.spread self.new.list.entries }
    {
        let spread = self.spread.with(hit.value);
        self.list.append(id, hit)?;
        self.spread = spread;
        Ok(())
    }

    /// Splices a repair into the list.
    pub fn splice(&mut self, repair: &mut Repair<NumHit>, marker: Marker) -> Spliced
        requires fits { repair.old.seen ≡ self.old.list.marker
            → (live : ℕ → Bool) × Fits live repair.old (picture_of self.old.list) }
        requires knows { Knows self.old.spread self.old.list.entries }
        ensures low { self.new.low ≡ self.old.low }
        ensures list { SplicesList repair.old marker self.old.list self.new.list result }
        ensures part { IsPart self.old.list.entries self.new.list.entries }
        ensures rises { RisesAbove 0 self.new.list.entries }
        ensures knows { Knows self.new.spread self.new.list.entries }
    {
        let spliced = splice_list::<NumHit>(&mut self.list, repair, marker);
        let left = self.list.len();
        if let Spliced::Done { .. } = spliced {
            self.spread = self.spread.of_part(left);
        }
        spliced
    }

    /// Takes the dead entries out of the list, and answers how many there were.
    pub fn collect<L: Live>(
        &mut self,
        alloc: Global,
        live: &L,
        markers: &mut Markers,
    ) -> Result<u64, NoMemory>
        requires knows { Knows self.old.spread self.old.list.entries }
        ensures low { self.new.low ≡ self.old.low }
        ensures ok { OnOk result (CollectsList (L.is live.now) markers.old self.old.list self.new.list
            markers.new) }
        ensures removed { IfOk result (λ removed.
            length self.new.list.entries + removed ≡ length self.old.list.entries) }
        ensures err { OnErr result ((self.new.list ≡ self.old.list) × (markers.new ≡ markers.old)) }
        ensures part { IsPart self.old.list.entries self.new.list.entries }
        ensures rises { RisesAbove 0 self.new.list.entries }
        ensures knows { Knows self.new.spread self.new.list.entries }
    {
        let before = self.list.len();
        collect_list::<NumHit, L>(alloc, &mut self.list, live, markers)?;
        let left = self.list.len();
        if left < before {
            self.spread = self.spread.of_part(left);
        }
        Ok(before - left)
    }

    /// What is known of the values, which are read if nothing is.
    fn known(&self) -> Result<Spread, NoMemory>
        requires knows { Knows self.now.spread self.now.list.entries }
        ensures knows { IfOk result (λ spread. Knows spread self.now.list.entries) }
        ensures known { IfOk result (λ spread. ¬ (spread ≡ Spread.Unknown)) }
    {
        if let Spread::Unknown = self.spread {
            let entries = self.list.entries()?;
            return Ok(spread_of(entries.as_slice()));
        }
        Ok(self.spread)
    }

    /// What is known of the values with one more entry, or None where the range then splits.
    pub fn grown(&self, id: u64, hit: &NumHit) -> Result<Option<Spread>, NoMemory>
        requires knows { Knows self.now.spread self.now.list.entries }
        ensures some { IfOk result (λ grown. IfSome grown (λ spread.
            Knows spread (self.now.list.entries ++ (id, hit.now) ∷ []))) }
        ensures whole { IfOk result (λ grown. IfSome grown (λ _.
            splits (self.now.list.entries ++ (id, hit.now) ∷ []) ≡ false)) }
        ensures splits { IfOk result (λ grown. IfNone grown
            (splits (self.now.list.entries ++ (id, hit.now) ∷ []) ≡ true)) }
    {
        if self.list.len() < LIMIT {
            return Ok(Some(self.spread.with(hit.value)));
        }
        let grown = self.known()?.with(hit.value);
        match grown {
            Spread::Many => Ok(None),
            _ => Ok(Some(grown)),
        }
    }
}

/// What is known of the values of entries once they are read.
fn spread_of(entries: &[(u64, NumHit)]) -> Spread
    ensures knows { Knows result entries.now }
    ensures known { ¬ (result ≡ Spread.Unknown) }
{
    let mut spread = Spread::Empty;
    'values: for (_, hit) in entries {
        spread = spread.with(hit.value);
    }
    spread
}
