//! What becomes of a document that an index is asked to take.
ghost use Rattle.std.specs.Prelude.{◌≡◌};
ghost use Rattle.ft_index.specs.Fits.{fit_of};

use ft_base::{Doc, IndexDef};
use ft_meaning::{failed, member};

/// Whether a document is one for an index.
#[derive(Clone, Copy)]
pub enum Fit {
    /// It is a member.
    Member,
    /// Its key begins with none of the index's prefixes.
    NoPrefix,
    /// A NUMERIC field of the index has something else than a number in it.
    Failed,
}

/// A document that was prepared: a member has its postings in the lists, and is not live yet.
#[derive(Clone, Copy)]
pub struct Ready {
    pub id: u64,
    pub fit: Fit,
}

/// How a document fits an index. It takes no memory.
pub fn fit_of(def: &IndexDef, doc: &Doc) -> Fit
    ensures { result ≡ fit_of def.now doc.now }
{
    if member(def, doc) {
        Fit::Member
    } else if failed(def, doc) {
        Fit::Failed
    } else {
        Fit::NoPrefix
    }
}
