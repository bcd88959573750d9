//! The ids where words stand together.
ghost use Rattle.std.specs.Prelude.{◌≡◌, ◌≤◌, ◌+◌, ◌&&◌, true, map, IfOk, IfSome, OnOk};
ghost use Rattle.std.specs.List.{list_all};
ghost use Rattle.id_iters.specs.Entries.{codes_at};
ghost use Rattle.id_iters.specs.Held.{AreLists};
ghost use Rattle.id_iters.specs.Least.{IsLeast};
ghost use Rattle.id_iters.specs.Leaves.{has_word, list_names, phrase_ids, word_entries};
ghost use Rattle.id_iters.specs.Places.{LeavesReady, AllStandAt};

use crate::leaf::Leaf;
use crate::lists::Lists;
use crate::places::stand_together;
use ft_base::{Fields, ListOf, NoMemory, Steps};
use posting_block::ListOfPlaces;
use std::alloc::Global;
use std::sync::ledger::Ledger;

/// The documents where one field has all the words, with at most `slop` places between them for others. Of the leaves
/// only the lists are looked at, which are those of the words, and not their fields. A word that the phrase repeats has one
/// leaf, and `order` tells of each word of the phrase the place of its leaf.
pub struct PhraseIter {
    pub alloc: Global,
    pub words: ListOf<Leaf>,
    pub order: ListOf<usize>,
    pub fields: Fields,
    pub slop: Option<u32>,
    pub in_order: bool,
}

// Written out, it is one step for whoever drops a phrase.
impl Drop for PhraseIter {
    fn drop(self) {
        let PhraseIter {
            alloc: _,
            words,
            order,
            fields,
            slop: _,
            in_order: _,
        } = self;
        drop(words);
        drop(order);
        drop(fields);
    }
}

impl PhraseIter {
    /// The least live id from `from` on where the words stand together. Places are read only in documents that have
    /// every word. After `NoMemory` the phrase may only be dropped.
    pub fn seek<T: Lists, L: Ledger>(
        &mut self,
        lists: &T,
        from: u64,
        steps: &mut Steps<L>,
    ) -> Result<Option<u64>, NoMemory>
        requires lists { AreLists (T.held lists.now) }
        requires ready { LeavesReady (T.held lists.now) self.old.words from }
        ensures least { IfOk result (λ r. IsLeast
            (λ id. (T.held lists.now).live id
            && phrase_ids (T.held lists.now) self.old id) from r) }
        ensures same { self.new ≡ record self.old { words = self.new.words } }
        ensures names { OnOk result (list_names self.new.words ≡ list_names self.old.words) }
        ensures ready { IfOk result (λ r. IfSome r (λ id.
            LeavesReady (T.held lists.now) self.new.words (id + 1))) }
        ensures counts { steps.old ≤ steps.new }
    {
        let mut next = from;
        'met: while let Some(id) = meet(&mut self.words, lists, next, steps)? {
            if self.stands(lists, id)? {
                return Ok(Some(id));
            }
            next = id + 1;
        }
        Ok(None)
    }

    // Whether the words stand together in a document that has each of them.
    fn stands<T: Lists>(&self, lists: &T, id: u64) -> Result<bool, NoMemory>
        requires lists { AreLists (T.held lists.now) }
        requires live { (T.held lists.now).live id ≡ true }
        requires at { AllStandAt (T.held lists.now) self.now.words id }
        ensures { IfOk result (λ answer. answer ≡ phrase_ids (T.held lists.now) self.now id) }
    {
        let codes = codes_of(self.alloc, self.words.as_slice(), lists, id)?;
        stand_together(
            self.alloc,
            codes.as_slice(),
            self.order.as_slice(),
            &self.fields,
            self.slop,
            self.in_order,
        )
    }
}

// The codes of each leaf's word in a document that has them all.
fn codes_of<T: Lists>(
    alloc: Global,
    words: &[Leaf],
    lists: &T,
    id: u64,
) -> Result<ListOf<ListOfPlaces>, NoMemory>
    requires { AllStandAt (T.held lists.now) words.now id }
    ensures { IfOk result (λ codes. codes
        ≡ map (λ word. codes_at (word_entries (T.held lists.now) word.list) id) words.now) }
{
    let mut codes = ListOf::new(alloc);
    'words: for word in words {
        codes.push(word.codes(lists, id)?)?;
    }
    Ok(codes)
}

// The least live id from `from` on that has every word. The candidate is that of one word, which is not asked again.
fn meet<T: Lists, L: Ledger>(
    words: &mut ListOf<Leaf>,
    lists: &T,
    from: u64,
    steps: &mut Steps<L>,
) -> Result<Option<u64>, NoMemory>
    requires lists { AreLists (T.held lists.now) }
    requires ready { LeavesReady (T.held lists.now) words.old from }
    ensures least { IfOk result (λ r. IsLeast (λ id. (T.held lists.now).live id
        && list_all (λ name. has_word (T.held lists.now) name id) (list_names words.old)) from r) }
    ensures names { OnOk result (list_names words.new ≡ list_names words.old) }
    ensures at { IfOk result (λ r. IfSome r (λ id. AllStandAt (T.held lists.now) words.new id)) }
    ensures counts { steps.old ≤ steps.new }
{
    let Some(first) = lists.next_live(from) else {
        return Ok(None);
    };
    let mut id = first;
    let mut lead = words.len();
    let mut at = 0;
    'words: while at < words.len() {
        if at == lead {
            at += 1;
            continue;
        }
        let Some(next) = words.get_mut(at).seek_word(lists, id, steps)? else {
            return Ok(None);
        };
        if id < next {
            id = next;
            lead = at;
            at = 0;
            continue;
        }
        at += 1;
    }
    Ok(Some(id))
}
