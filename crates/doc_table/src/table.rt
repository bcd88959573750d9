//! The rows of documents by id, of which the last may wait to be committed, and a bit for each id that has a
//! row. So a search that asks whether an id is live reads a bit and no row, and a document that is
//! killed leaves neither.
ghost use Rattle.std.specs.Prelude.{◌≡◌, ℕ, ◌+◌, ◌/◌, ◌<◌, ◌++◌, ◌∷◌, [], None, Some, nat_eq, nat_le, is_some, length, map, find, IfOk, IfSome, OnOk, OnErr, option_map};
ghost use Rattle.std.specs.List.Sorted.{IsStrictlyIncreasing};
ghost use Rattle.std.specs.Map.{lookup, remove_entry};
ghost use Rattle.ft_base.specs.Rows.{live_rows, Below};
ghost use Rattle.doc_table.specs.Pages.{has_id, Rises, with_id, without_waiting};
ghost use Rattle.doc_table.specs.Table.{number_in};

use crate::doc_rows::DocRows;
use crate::live_ids::LiveIds;
use crate::pages::IdPages;
use crate::sorting_vector::SortingVector;
use ft_base::{ListOf, NoMemory};
use std::alloc::Global;
use std::marker::Model;

/// Ids of documents.
pub type IdList = ListOf<u64>;

/// The documents of an index: the live ones, and one that was prepared and may become live.
#[derive(Drop)]
pub struct DocTable {
    alloc: Global,
    docs: DocRows,
    // The ids of all rows.
    ids: IdPages,
    // The id of the row that still waits to be committed.
    pending: Option<u64>,
    last: u64,
}

impl Model for DocTable {
    ghost use Rattle.doc_table.specs.Table.{Table};

    ghost Value = { Table };

    ghost use Rattle.doc_table.specs.Rows.{table_of, IsTable, AreMarked};

    ghost view = { λ t. table_of t.pending t.last t.docs };

    ghost invariant = { λ t. IsTable t.pending t.last t.docs × AreMarked t.last t.ids t.docs };
}

impl DocTable {
    /// A table without documents, and no memory taken.
    pub fn new(alloc: Global) -> DocTable
        ensures { result ≡ record { live = []; ready = None; last = 0 } }
    {
        DocTable {
            alloc,
            docs: DocRows::new(alloc),
            ids: IdPages::new(alloc),
            pending: None,
            last: 0,
        }
    }

    /// Makes room for a document, which is not live yet. One that was prepared before and never
    /// committed is gone.
    pub fn prepare(&mut self, id: u64, vector: SortingVector) -> Result<(), NoMemory>
        requires { self.old.last < id }
        ensures ok { OnOk result (self.new ≡ record self.old { ready = Some (id, vector); last = id }) }
        ensures err { OnErr result (self.new ≡ self.old) }
    {
        put_in(&mut self.docs, &mut self.ids, id, vector)?;
        // What was abandoned goes only now, so that being out of memory leaves all as it was.
        take_out(&mut self.docs, &mut self.ids, self.pending);
        self.pending = Some(id);
        self.last = id;
        Ok(())
    }

    /// The document that was prepared last becomes live. It takes no memory.
    pub fn commit(&mut self, id: u64)
        requires { option_map (λ row. row.0) self.old.ready ≡ Some id }
        ensures { IfSome self.old.ready
            (λ row. self.new ≡ record self.old { live = self.old.live ++ row ∷ []; ready = None }) }
    {
        if self.pending == Some(id) {
            self.pending = None;
        }
    }

    /// Takes a live document out, and answers whether it was live. It takes no memory.
    pub fn kill(&mut self, id: u64) -> bool
        ensures was { result ≡ is_some (lookup (nat_eq id) self.old.live) }
        ensures gone { self.new ≡ record self.old { live = remove_entry (nat_eq id) self.old.live } }
    {
        if self.pending == Some(id) {
            return false; // It was never live.
        }
        self.ids.remove(id);
        self.docs.remove(id)
    }

    /// Whether a document is live.
    #[inline]
    pub fn is_live(&self, id: u64) -> bool
        ensures { result ≡ is_some (lookup (nat_eq id) self.now.live) }
    {
        if self.pending == Some(id) {
            return false;
        }
        self.ids.contains(id)
    }

    /// The least live id from `from` on.
    pub fn next_live(&self, from: u64) -> Option<u64>
        ensures { result ≡ find (λ id. nat_le from id) (map (λ row. row.0) self.now.live) }
    {
        let id = self.ids.next_from(from)?;
        if self.pending == Some(id) {
            return None;
        }
        Some(id)
    }

    /// The number at a place of a live document's sorting vector, for a reader that walks from id to id. `near` is where it
    /// found the row before, and any value will do.
    #[inline]
    pub fn number_near(&self, id: u64, place: usize, near: &mut usize) -> Option<i64>
        ensures { result ≡ number_in (lookup (nat_eq id) self.now.live) place }
    {
        if self.pending == Some(id) {
            return None; // It is not live yet.
        }
        self.docs.number_near(id, place, near)
    }

    /// The live ids, rising.
    pub fn live_ids(&self) -> Result<IdList, NoMemory>
        ensures ids { IfOk result (λ ids. ids ≡ map (λ row. row.0) self.now.live) }
        ensures rising { IfOk result IsStrictlyIncreasing }
    {
        // A document that waits has the greatest id, so the live ones come first.
        let ids = self.docs.first_ids(self.alloc, self.len())?;
        Ok(ListOf::from_vec(ids))
    }

    /// Which ids are live, copied as bits: it goes over all pages and over no row.
    pub fn live_bits(&self) -> Result<LiveIds, NoMemory>
        ensures { IfOk result (λ ids. (id : ℕ) → has_id ids id ≡ is_some (lookup (nat_eq id) self.now.live)) }
    {
        let mut ids = self.ids.copied()?;
        clear(&mut ids, self.pending);
        Ok(LiveIds::new(ids))
    }

    /// Takes a document out that was prepared and never committed. It goes over all pages of ids, and
    /// gives back what they do not need.
    pub fn compact(&mut self)
        ensures { self.new ≡ record self.old { ready = None } }
    {
        take_out(&mut self.docs, &mut self.ids, self.pending.take());
        self.ids.compact();
    }

    /// The number of live documents.
    pub fn len(&self) -> usize
        ensures { result ≡ length self.now.live }
    {
        self.docs.len() - usize::from(self.pending.is_some())
    }
}

// Takes a row in with its bit, behind all others.
fn put_in(
    docs: &mut DocRows,
    ids: &mut IdPages,
    id: u64,
    vector: SortingVector,
) -> Result<(), NoMemory>
    requires below { Below id docs.old }
    requires bound { Rises 0 (id / 64 + 1) ids.old }
    ensures rows { OnOk result (docs.new ≡ docs.old ++ (id, vector) ∷ []) }
    ensures ids { OnOk result ((other : ℕ) → has_id ids.new other ≡ with_id id (has_id ids.old) other) }
    ensures err { OnErr result ((docs.new ≡ docs.old) × (ids.new ≡ ids.old)) }
    ensures bound { Rises 0 (id / 64 + 1) ids.new }
{
    docs.push(id, vector)?;
    if let Err(fault) = ids.push(id) {
        docs.remove(id); // Being out of memory for the bit leaves the rows as they were too.
        return Err(fault);
    }
    Ok(())
}

// Takes the row that waits out with its bit, if there is one.
fn take_out(docs: &mut DocRows, ids: &mut IdPages, pending: Option<u64>)
    ensures rows { docs.new ≡ live_rows pending docs.old }
    ensures ids { (other : ℕ) → has_id ids.new other ≡ without_waiting pending (has_id ids.old) other }
    ensures bound { (high : ℕ) → Rises 0 high ids.old → Rises 0 high ids.new }
{
    if let Some(id) = pending {
        docs.remove(id);
        ids.remove(id);
    }
}

// Takes the bit of the id that waits out, if there is one.
fn clear(ids: &mut IdPages, pending: Option<u64>)
    ensures { (other : ℕ) → has_id ids.new other ≡ without_waiting pending (has_id ids.old) other }
{
    if let Some(id) = pending {
        ids.remove(id);
    }
}
