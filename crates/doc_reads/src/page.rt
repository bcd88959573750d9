//! What an unsorted search keeps: how many documents count so far, and the rows of those in the window.
ghost use Rattle.std.specs.Prelude.{◌≡◌, ◌<◌, ◌+◌, ◌^◌, ◌∷◌, ◌++◌, [], List, false, IfOk, IsTrue, OnOk};
ghost use Rattle.ft_base.specs.Docs.{Doc};
ghost use Rattle.doc_reads.specs.Pages.{Shows, in_window};
ghost use Rattle.doc_reads.specs.Shapes.{page_by};
ghost use Rattle.doc_reads.specs.declared.shape.Shape.{Shape};

use crate::shape::{Shape, push_key, push_row};
use ft_base::{Doc, ListOf, NoMemory, Reply};
use std::alloc::Global;

/// The most documents for whose rows there is room from the start: more than the ten that a search shows by default.
const ROOM: usize = 16;

/// The number of the documents so far, and the rows of those in the window. Before the rows stands a 0, which keeps the
/// place of the number.
#[derive(Drop)]
pub struct Page {
    total: usize,
    rows: Vec<Reply>,
}

impl Page {
    /// A page of no document, for a window of so many.
    pub fn new(alloc: Global, num: usize) -> Result<Page, NoMemory>
        ensures none { IfOk result (λ page. (shape : Shape) → Shows shape [] page) }
    {
        let mut rows = Vec::with_capacity(alloc, 1 + 2 * num.min(ROOM))?;
        rows.push(Reply::Number(0))?;
        Ok(Page { total: 0, rows })
    }

    /// Whether the next document is in the window.
    pub fn shows_next(&self, shape: &Shape<'_>) -> bool
        ensures { result ≡ in_window shape.now self.now.total }
    {
        shape.offset <= self.total && self.total - shape.offset < shape.num
    }

    /// Counts the next document and shows it.
    pub fn note(&mut self, alloc: Global, shape: &Shape<'_>, doc: &Doc) -> Result<(), NoMemory>
        requires few { self.old.total < 2 ^ 62 }
        requires shown { IsTrue (in_window shape.now self.old.total) }
        ensures shown { OnOk result ((docs : List Doc)
            → Shows shape.now docs self.old → Shows shape.now (docs ++ doc.now ∷ []) self.new) }
        ensures total { OnOk result (self.new.total ≡ self.old.total + 1) }
    {
        push_row(alloc, shape, doc, &mut self.rows)?;
        self.total += 1;
        Ok(())
    }

    /// Counts the next document and shows it by its key alone.
    pub fn note_key(&mut self, alloc: Global, key: &[u8]) -> Result<(), NoMemory>
        requires few { self.old.total < 2 ^ 62 }
        ensures shown { OnOk result ((shape : Shape) (docs : List Doc) (doc : Doc)
            → IsTrue shape.no_content → IsTrue (in_window shape self.old.total) → doc.key ≡ key.now
            → Shows shape docs self.old → Shows shape (docs ++ doc ∷ []) self.new) }
        ensures total { OnOk result (self.new.total ≡ self.old.total + 1) }
    {
        push_key(alloc, key, &mut self.rows)?;
        self.total += 1;
        Ok(())
    }

    /// Counts the next document, which is not in the window.
    pub fn note_unseen(&mut self)
        requires few { self.old.total < 2 ^ 62 }
        ensures shown { (shape : Shape) (docs : List Doc) (doc : Doc)
            → in_window shape self.old.total ≡ false
            → Shows shape docs self.old → Shows shape (docs ++ doc ∷ []) self.new }
        ensures total { self.new.total ≡ self.old.total + 1 }
    {
        self.total += 1;
    }

    /// The reply that shows the page.
    pub fn into_reply(self) -> Reply
        requires few { self.total < 2 ^ 63 }
        ensures reply { (shape : Shape) (docs : List Doc) → Shows shape docs self → result ≡ page_by shape docs }
    {
        let mut replies = self.rows;
        if let Some(number) = replies.first_mut() {
            *number = Reply::Number(self.total as i64);
        }
        Reply::Array(ListOf::from_vec(replies))
    }
}
