//! The ids that were live at a moment, apart from the table, which goes on.
ghost use Rattle.std.specs.Prelude.{◌≡◌};
ghost use Rattle.doc_table.specs.Pages.{has_id};

use crate::pages::IdPages;
use std::marker::Model;

/// Which ids were live when they were copied: 16 bytes for 64 ids side by side. A contract sees the pages, and `has_id` is its test of an id.
#[derive(Drop)]
pub struct LiveIds {
    ids: IdPages,
}

impl Model for LiveIds {
    ghost use Rattle.std.specs.Prelude.{List};
    ghost use Rattle.doc_table.specs.declared.page.Page.{Page};

    ghost Value = { List Page };

    ghost view = { λ l. l.ids };
}

impl LiveIds {
    /// The ids of these pages.
    pub(crate) fn new(ids: IdPages) -> LiveIds
        ensures { result ≡ ids }
    {
        LiveIds { ids }
    }

    /// Whether an id was live.
    #[inline]
    pub fn contains(&self, id: u64) -> bool
        ensures { result ≡ has_id self.now id }
    {
        self.ids.contains(id)
    }
}
