//! The ranges of a field: rows of a low and a posting list, in rising order of the lows.
ghost use Rattle.std.specs.Prelude.{◌≡◌, ◌<◌, ◌≤◌, ◌+◌, ◌-◌, ◌*◌, ◌^◌, ◌↔◌, ◌++◌, ◌∷◌, [], ℕ, Bool, negsuc, Some, length, insert, set, slice_get, IfOk, IfNone, IfSome, IsTrue, OnOk, OnErr, option_copied, option_map};
ghost use Rattle.gc_splice.specs.Splice.{Fits, picture_of};
ghost use Rattle.inverted_list.specs.Listing.{marker_of, filled_list};
ghost use Rattle.numeric_ranges.specs.Added.{added};
ghost use Rattle.numeric_ranges.specs.Ranges.{Rows, AreParted, IsPartition, IsAbove, entries_in_rows, list_at, meets};
ghost use Rattle.numeric_ranges.specs.Rows.{Counted, Held, rows_of};
ghost use Rattle.numeric_ranges.specs.Splicing.{CollectsRange, SplicesRange, removed_by};
ghost use Rattle.numeric_ranges.specs.Values.{Entries};

use crate::halving::{halves_of, next_marker};
use crate::row::Row;
use crate::search::{index_of, reach};
use ft_base::{NoMemory, Span};
use gc_splice::{Live, Repair, Spliced};
use inverted_list::{List, Marker, Markers};
use posting_block::NumHit;
use std::alloc::Global;
use std::marker::Model;

/// The ranges of one numeric field. Together they are one posting list of ids and values.
#[derive(Drop)]
pub struct Ranges {
    alloc: Global,
    rows: Vec<Row>,
    // The number of entries of all rows.
    entries: u64,
}

impl Model for Ranges {
    ghost Value = { Rows };

    ghost view = { λ r. rows_of r.rows.items };

    ghost invariant = { λ r. Counted r.rows.items r.entries };
}

impl Ranges {
    /// One range over all values, without entries and with the marker that is given next. Where
    /// there is none, it counts as out of memory.
    pub fn new(alloc: Global, markers: &mut Markers) -> Result<Ranges, NoMemory>
        ensures ok { IfOk result (λ ranges. ranges ≡ (
          negsuc 9223372036854775807,
          filled_list (marker_of markers.old) [],
        ) ∷ []) }
        ensures partition { IfOk result IsPartition }
        ensures taken { OnOk result (markers.new.next ≡ markers.old.next + 1) }
        ensures event { markers.new.event ≡ markers.old.event }
        ensures rises { markers.old.next ≤ markers.new.next }
        ensures once { markers.new.next ≤ markers.old.next + 1 }
    {
        let marker = next_marker(markers)?;
        let mut rows = Vec::new(alloc);
        rows.push(Row::new(alloc, i64::MIN, marker))?;
        Ok(Ranges {
            alloc,
            rows,
            entries: 0,
        })
    }

    /// The number of ranges.
    pub fn count(&self) -> usize
        ensures count { result ≡ length self.now }
        ensures partition { IsPartition self.now }
    {
        self.rows.len()
    }

    /// The number of entries of all ranges: none where it is no `u64`. It is counted as entries come
    /// and go, so no range is looked at.
    pub fn entries(&self) -> Option<u64>
        ensures some { IfSome result (λ n. n ≡ entries_in_rows self.now) }
        ensures none { IfNone result (2 ^ 64 ≤ entries_in_rows self.now) }
        ensures partition { IsPartition self.now }
    {
        Some(self.entries)
    }

    /// Where the range at an index begins.
    pub fn low(&self, i: usize) -> i64
        requires { i < length self.now }
        ensures { option_map (λ row. row.0) (slice_get self.now i) ≡ Some result }
    {
        self.rows[i].low
    }

    /// The list of the range at an index.
    pub fn range(&self, i: usize) -> &List<NumHit>
        requires { i < length self.now }
        ensures { option_map (λ row. row.1) (slice_get self.now i) ≡ Some result.now }
    {
        &self.rows[i].list
    }

    /// The list of the range that begins at a low.
    pub fn by_low(&self, low: i64) -> Option<&List<NumHit>>
        ensures { option_copied result ≡ list_at self.now low }
    {
        let at = index_of(self.rows.as_slice(), low)?;
        Some(&self.rows[at].list)
    }

    /// The ranges in which some number from `low` to `high` lies, by their indexes.
    pub fn between(&self, low: i64, high: i64) -> Span
        ensures ordered { result.from ≤ result.to }
        ensures within { result.to ≤ length self.now }
        ensures met { (i : ℕ) → i < length self.now
            → ((result.from ≤ i) × (i < result.to)) ↔ IsTrue (meets self.now i low high) }
    {
        if high < low {
            return Span { from: 0, to: 0 };
        }
        Span {
            from: reach(self.rows.as_slice(), low) - 1,
            to: reach(self.rows.as_slice(), high),
        }
    }

    /// Adds a value to the range that it lies in, behind the other entries. The range then splits
    /// if it has over 1,024 entries and two distinct values. A number of entries that is no `u64`
    /// counts as out of memory.
    pub fn add(&mut self, id: u64, value: i64, markers: &mut Markers) -> Result<(), NoMemory>
        requires { IsAbove id self.old }
        ensures ok { OnOk result (self.new ≡ added self.old id value markers.old) }
        ensures parts { OnOk result ((es : Entries) → AreParted es self.old
            → AreParted (es ++ (id, record { value = value }) ∷ []) self.new) }
        ensures err { OnErr result (self.new ≡ self.old) }
        ensures partition { IsPartition self.new }

        // What becomes of the markers: two are taken where a range splits.
        ensures taken { OnOk result (markers.new.next
            ≡ markers.old.next + 2 * (length self.new - length self.old)) }
        ensures event { markers.new.event ≡ markers.old.event }
        ensures rises { markers.old.next ≤ markers.new.next }
        ensures twice { markers.new.next ≤ markers.old.next + 2 }
    {
        let Some(entries) = self.entries.checked_add(1) else {
            return Err(NoMemory);
        };
        add_entry(&mut self.rows, self.alloc, id, &NumHit { value }, markers)?;
        self.entries = entries;
        Ok(())
    }

    /// Splices a repair into the list of the range that begins at a low. The range stays, also
    /// without entries. It takes no memory: what went is then in the repair, for the caller to drop.
    pub fn splice(&mut self, low: i64, repair: &mut Repair<NumHit>, marker: Marker) -> Spliced
        requires { IfSome (list_at self.old low) (λ l. repair.old.seen ≡ l.marker
            → (live : ℕ → Bool) × Fits live repair.old (picture_of l)) }
        ensures gone { IfNone (list_at self.old low)
            ((result ≡ Spliced.Gone) × (self.new ≡ self.old)) }
        ensures there { IfSome (list_at self.old low) (λ l.
            SplicesRange low repair.old marker l self.old self.new result) }
    {
        let spliced = splice_row(&mut self.rows, low, repair, marker);
        if let Spliced::Done { removed, .. } = spliced {
            self.entries -= removed;
        }
        spliced
    }

    /// Takes the dead entries out of the list of the range that begins at a low. The list then has
    /// the marker that is given next; one without a dead entry stays as it is. The range stays, also
    /// without entries. Where there is no marker to give, it counts as out of memory.
    pub fn collect<L: Live>(
        &mut self,
        low: i64,
        live: &L,
        markers: &mut Markers,
    ) -> Result<(), NoMemory>
        ensures gone { IfNone (list_at self.old low)
            ((self.new ≡ self.old) × (markers.new ≡ markers.old)) }
        ensures there { OnOk result (IfSome (list_at self.old low) (λ l.
            CollectsRange (L.is live.now) low markers.old l self.old self.new markers.new)) }
        ensures err { OnErr result ((self.new ≡ self.old) × (markers.new ≡ markers.old)) }
    {
        let dead = collect_row::<L>(&mut self.rows, self.alloc, low, live, markers)?;
        self.entries -= dead;
        Ok(())
    }
}

// A value goes into the row that it lies in, which may split.
fn add_entry(
    rows: &mut Vec<Row>,
    alloc: Global,
    id: u64,
    hit: &NumHit,
    markers: &mut Markers,
) -> Result<(), NoMemory>
    requires held { Held rows.old.items }
    requires above { IsAbove id (rows_of rows.old.items) }
    ensures ok { OnOk result (rows_of rows.new.items
        ≡ added (rows_of rows.old.items) id hit.now.value markers.old) }
    ensures err { OnErr result (rows_of rows.new.items ≡ rows_of rows.old.items) }
    ensures held { Held rows.new.items }
    ensures more { OnOk result (entries_in_rows (rows_of rows.new.items)
        ≡ entries_in_rows (rows_of rows.old.items) + 1) }
    ensures parts { OnOk result ((es : Entries) → AreParted es (rows_of rows.old.items)
        → AreParted (es ++ (id, hit.now) ∷ []) (rows_of rows.new.items)) }
    ensures taken { OnOk result (markers.new.next
        ≡ markers.old.next + 2 * (length rows.new.items - length rows.old.items)) }
    ensures event { markers.new.event ≡ markers.old.event }
    ensures rises { markers.old.next ≤ markers.new.next }
    ensures twice { markers.new.next ≤ markers.old.next + 2 }
{
    let at = reach(rows.as_slice(), hit.value) - 1;
    match rows[at].grown(id, hit)? {
        Some(spread) => {
            let row = &mut rows[at];
            row.list.append(id, hit)?;
            row.spread = spread;
        }
        None => {
            let halves = halves_of(alloc, &rows[at], id, hit, markers)?;
            put_halves(rows, at, halves)?;
        }
    }
    Ok(())
}

// Two rows stand in the place of one.
fn put_halves(rows: &mut Vec<Row>, at: usize, halves: (Row, Row)) -> Result<(), NoMemory>
    requires { at < length rows.old.items }
    ensures ok { OnOk result (rows.new.items ≡ set (insert rows.old.items (at + 1) halves.1) at halves.0) }
    ensures err { OnErr result (rows.new.items ≡ rows.old.items) }
{
    let (left, right) = halves;
    rows.insert(at + 1, right)?;
    rows[at] = left;
    Ok(())
}

// A repair goes into the list of the row that begins at a low.
fn splice_row(rows: &mut Vec<Row>, low: i64, repair: &mut Repair<NumHit>, marker: Marker) -> Spliced
    requires held { Held rows.old.items }
    requires fits { IfSome (list_at (rows_of rows.old.items) low) (λ l. repair.old.seen ≡ l.marker
        → (live : ℕ → Bool) × Fits live repair.old (picture_of l)) }
    ensures gone { IfNone (list_at (rows_of rows.old.items) low)
        ((result ≡ Spliced.Gone) × (rows_of rows.new.items ≡ rows_of rows.old.items)) }
    ensures there { IfSome (list_at (rows_of rows.old.items) low) (λ l.
        SplicesRange low repair.old marker l (rows_of rows.old.items) (rows_of rows.new.items) result) }
    ensures held { Held rows.new.items }
    ensures fewer { entries_in_rows (rows_of rows.new.items) + removed_by result
        ≡ entries_in_rows (rows_of rows.old.items) }
{
    let Some(at) = index_of(rows.as_slice(), low) else {
        return Spliced::Gone;
    };
    let row = &mut rows[at];
    row.splice(repair, marker)
}

// The dead entries go out of the list of the row that begins at a low. It answers how many there were.
fn collect_row<L: Live>(
    rows: &mut Vec<Row>,
    alloc: Global,
    low: i64,
    live: &L,
    markers: &mut Markers,
) -> Result<u64, NoMemory>
    requires held { Held rows.old.items }
    ensures gone { IfNone (list_at (rows_of rows.old.items) low)
        ((rows_of rows.new.items ≡ rows_of rows.old.items) × (markers.new ≡ markers.old)) }
    ensures there { OnOk result (IfSome (list_at (rows_of rows.old.items) low) (λ l.
        CollectsRange (L.is live.now) low markers.old l (rows_of rows.old.items) (rows_of rows.new.items)
        markers.new)) }
    ensures err { OnErr result ((rows_of rows.new.items ≡ rows_of rows.old.items)
        × (markers.new ≡ markers.old)) }
    ensures held { Held rows.new.items }
    ensures fewer { IfOk result (λ dead. entries_in_rows (rows_of rows.new.items) + dead
        ≡ entries_in_rows (rows_of rows.old.items)) }
{
    let Some(at) = index_of(rows.as_slice(), low) else {
        return Ok(0);
    };
    let row = &mut rows[at];
    row.collect::<L>(alloc, live, markers)
}
