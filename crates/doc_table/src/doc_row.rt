//! One document's row.

use crate::sorting_vector::SortingVector;
use ft_base::HasId;

/// A document's id and its sorting vector.
#[derive(Drop)]
pub struct DocRow {
    pub id: u64,
    pub vector: SortingVector,
}

impl HasId for DocRow {
    ghost id_of = { λ row. row.id };

    #[inline]
    fn id(&self) -> u64 {
        self.id
    }
}
