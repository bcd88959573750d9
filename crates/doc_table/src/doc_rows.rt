//! The rows of documents: their sorting vectors by id.
ghost use Rattle.std.specs.Prelude.{◌≡◌, ◌++◌, ◌∷◌, [], nat_eq, is_some, length, take, IfOk, OnOk, OnErr};
ghost use Rattle.std.specs.Map.{keys_of, lookup, remove_entry};
ghost use Rattle.ft_base.specs.Rows.{Below};
ghost use Rattle.doc_table.specs.Table.{number_in};

use crate::doc_row::DocRow;
use crate::sorting_vector::SortingVector;
use ft_base::NoMemory;
use id_rows::IdRows;
use std::alloc::Global;
use std::marker::Model;

/// The rows, which a contract sees as pairs of id and sorting vector.
#[derive(Drop)]
pub struct DocRows {
    rows: IdRows<DocRow>,
}

impl Model for DocRows {
    ghost use Rattle.ft_base.specs.Rows.{Rows};
    ghost use Rattle.doc_table.specs.Table.{Vector};

    ghost Value = { Rows Vector };

    ghost use Rattle.doc_table.specs.Vectors.{vectors_of};

    ghost view = { λ r. vectors_of r.rows };
}

impl DocRows {
    /// No rows, and no memory taken.
    pub fn new(alloc: Global) -> DocRows
        ensures { result ≡ [] }
    {
        DocRows {
            rows: IdRows::new(alloc),
        }
    }

    /// The number of rows.
    #[inline]
    pub fn len(&self) -> usize
        ensures { result ≡ length self.now }
    {
        self.rows.len()
    }

    /// The number at a place of the sorting vector of an id, for a reader that walks from id to id. `near` is where it found the row
    /// before.
    #[inline]
    pub fn number_near(&self, id: u64, place: usize, near: &mut usize) -> Option<i64>
        ensures { result ≡ number_in (lookup (nat_eq id) self.now) place }
    {
        self.rows.get_near(id, near)?.vector.number(place)
    }

    /// The ids of the first rows, so many.
    pub fn first_ids(&self, alloc: Global, count: usize) -> Result<Vec<u64>, NoMemory>
        ensures { IfOk result (λ ids. ids.items ≡ take count (keys_of self.now)) }
    {
        self.rows.first_ids(alloc, count)
    }

    /// Takes a row in, behind all others.
    pub fn push(&mut self, id: u64, vector: SortingVector) -> Result<(), NoMemory>
        requires { Below id self.old }
        ensures ok { OnOk result (self.new ≡ self.old ++ (id, vector) ∷ []) }
        ensures err { OnErr result (self.new ≡ self.old) }
    {
        self.rows.push(DocRow { id, vector })
    }

    /// Takes the row of an id out, and answers whether there was one. It takes no memory.
    pub fn remove(&mut self, id: u64) -> bool
        ensures was { result ≡ is_some (lookup (nat_eq id) self.old) }
        ensures gone { self.new ≡ remove_entry (nat_eq id) self.old }
    {
        self.rows.remove(id).is_some()
    }
}
