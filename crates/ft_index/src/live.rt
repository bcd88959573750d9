//! Which ids of an index are live, as whoever takes dead entries out asks.
ghost use Rattle.std.specs.Prelude.{◌≡◌};
ghost use Rattle.ft_index.specs.Lists.{has_id};

use doc_table::DocTable;
use gc_splice::Live;

/// The ids of the live documents of a table. It copies none of them.
#[derive(Clone, Copy)]
pub(crate) struct LiveTable<'a> {
    pub table: &'a DocTable,
}

impl Live for LiveTable<'_> {
    ghost is = { λ live id. has_id live.table.now.live id };

    fn is_live(&self, id: u64) -> bool {
        self.table.is_live(id)
    }
}
