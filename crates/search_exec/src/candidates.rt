//! The ids that a search goes through, and with INKEYS only those of the keys that it names.
ghost use Rattle.std.specs.Prelude.{◌≡◌, ◌≤◌, ◌+◌, ℕ, true, IfOk, IfSome, OnOk};
ghost use Rattle.id_iters.specs.Held.{AreLists};
ghost use Rattle.id_iters.specs.Least.{IsLeast};
ghost use Rattle.id_iters.specs.Ready.{Ready};
ghost use Rattle.id_iters.specs.Sets.{about, in_set};
ghost use Rattle.search_exec.specs.Candidates.{about_candidates, candidate, ids_named, ids_with, in_candidates, is_id_of, AreBehind, AreNamed, IsBehind, MayAsk};
ghost use Rattle.doc_reads.specs.Ids.{docs_in, docs_of};

use ft_base::{NoMemory, Steps, Words};
use hash_store::HashStore;
use id_iters::{Iter, Lists};
use std::alloc::Global;
use std::sync::ledger::Ledger;

/// The ids of the keys that a search names, in rising order.
#[derive(Drop)]
pub struct NamedIds {
    ids: Vec<u64>,
    /// How many of them lie behind.
    behind: usize,
}

/// The ids of an iterator, of the keys that are named where some are.
#[derive(Drop)]
pub struct Candidates {
    iter: Iter,
    named: Option<NamedIds>,
}

impl Candidates {
    /// The ids of an iterator. With `keys` they are those of the documents with these keys alone; no document is read.
    pub fn new<T: Lists>(
        alloc: Global,
        lists: &T,
        store: &HashStore,
        iter: Iter,
        keys: &Option<Words<'_>>,
    ) -> Result<Candidates, NoMemory>
        requires ready { Ready (T.held lists.now) iter 1 }
        ensures docs { IfOk result (λ candidates. docs_in (in_candidates (T.held lists.now) candidates) store.now.space
            ≡ docs_of keys.now (docs_in (in_set (T.held lists.now) iter) store.now.space)) }
        ensures among { IfOk result (λ candidates. (id : ℕ)
            → in_candidates (T.held lists.now) candidates id ≡ true → in_set (T.held lists.now) iter id ≡ true) }
        ensures ready { IfOk result (λ candidates. MayAsk (T.held lists.now) candidates 1) }
    {
        match named_by(alloc, store, keys) {
            Ok(named) => Ok(Candidates { iter, named }),
            Err(fault) => {
                drop(iter);
                Err(fault)
            }
        }
    }

    /// The least of the ids from `from` on, and None exactly where there is none. After an id it may be asked for higher
    /// ones.
    pub fn seek<T: Lists, L: Ledger>(
        &mut self,
        lists: &T,
        from: u64,
        steps: &mut Steps<L>,
    ) -> Result<Option<u64>, NoMemory>
        requires lists { AreLists (T.held lists.now) }
        requires ready { MayAsk (T.held lists.now) self.old from }
        ensures least { IfOk result (λ r. IsLeast (in_candidates (T.held lists.now) self.old) from r) }
        ensures same { OnOk result (about_candidates (T.held lists.now) self.new
            ≡ about_candidates (T.held lists.now) self.old) }
        ensures ready { IfOk result (λ r. IfSome r (λ id. MayAsk (T.held lists.now) self.new (id + 1))) }
        ensures counts { steps.old ≤ steps.new }
    {
        match &mut self.named {
            None => self.iter.seek(lists, from, steps),
            Some(named) => named.seek(&mut self.iter, lists, from, steps),
        }
    }
}

// The ids of the keys, where some are named. Without names no memory is taken.
fn named_by(
    alloc: Global,
    store: &HashStore,
    keys: &Option<Words<'_>>,
) -> Result<Option<NamedIds>, NoMemory>
    ensures named { IfOk result (λ named. AreNamed (ids_named named) keys.now store.now.space) }
    ensures behind { IfOk result (λ named. AreBehind named 1) }
{
    match keys {
        None => Ok(None),
        Some(keys) => Ok(Some(NamedIds::of(alloc, store, keys)?)),
    }
}

impl NamedIds {
    // The ids of the documents with these keys.
    fn of(alloc: Global, store: &HashStore, keys: &Words<'_>) -> Result<NamedIds, NoMemory>
        ensures named { IfOk result (λ named.
            AreNamed (Some named.ids.items) (Some keys.now) store.now.space) }
        ensures behind { IfOk result (λ named. IsBehind named 1) }
    {
        let mut ids = look_up(alloc, store, keys)?;
        ids.sort_unstable();
        // This tells that the ids of the documents rise and that their keys differ.
        let _count = store.len();
        Ok(NamedIds { ids, behind: 0 })
    }

    // The least id from `from` on that the iterator has and that is named. After an id it may be asked for higher ones.
    // The iterator is asked at most once for each id that is named.
    fn seek<T: Lists, L: Ledger>(
        &mut self,
        iter: &mut Iter,
        lists: &T,
        from: u64,
        steps: &mut Steps<L>,
    ) -> Result<Option<u64>, NoMemory>
        requires lists { AreLists (T.held lists.now) }
        requires ready { Ready (T.held lists.now) iter.old from }
        requires behind { IsBehind self.old from }
        ensures least { IfOk result (λ r. IsLeast (candidate (T.held lists.now).live
            (about (T.held lists.now) iter.old, Some self.old.ids.items)) from r) }
        ensures ids { self.new.ids.items ≡ self.old.ids.items }
        ensures same { OnOk result (about (T.held lists.now) iter.new
            ≡ about (T.held lists.now) iter.old) }
        ensures ready { IfOk result (λ r. IfSome r (λ id.
            Ready (T.held lists.now) iter.new (id + 1))) }
        ensures behind { IfOk result (λ r. IfSome r (λ id. IsBehind self.new (id + 1))) }
        ensures counts { steps.old ≤ steps.new }
    {
        let mut next = from;
        'naming: while let Some(id) = self.next_from(next) {
            let Some(found) = iter.seek(lists, id, steps)? else {
                return Ok(None);
            };
            if self.has(found) {
                return Ok(Some(found));
            }
            // Neither is asked for an id that it answered before.
            next = found + 1;
        }
        Ok(None)
    }

    // Whether the id is named. Those below it are passed over.
    fn has(&mut self, id: u64) -> bool
        requires behind { IsBehind self.old id }
        ensures named { result ≡ is_id_of self.old.ids.items id }
        ensures ids { self.new.ids.items ≡ self.old.ids.items }
        ensures behind { IsBehind self.new id }
    {
        self.next_from(id) == Some(id)
    }

    // The least id that is named from `from` on. Those below it are passed over.
    fn next_from(&mut self, from: u64) -> Option<u64>
        requires behind { IsBehind self.old from }
        ensures least { IsLeast (is_id_of self.old.ids.items) from result }
        ensures ids { self.new.ids.items ≡ self.old.ids.items }
        ensures behind { IsBehind self.new from }
    {
        'passing: while let Some(&id) = self.ids.get(self.behind) {
            if from <= id {
                return Some(id);
            }
            self.behind += 1;
        }
        None
    }
}

// The ids of the documents with these keys, in the order of the keys.
fn look_up(alloc: Global, store: &HashStore, keys: &Words<'_>) -> Result<Vec<u64>, NoMemory>
    ensures { IfOk result (λ ids. ids.items ≡ ids_with store.now.space keys.now) }
{
    let mut ids = Vec::with_capacity(alloc, keys.len())?;
    'keys: for at in 0..keys.len() {
        if let Some(id) = store.has(keys.word(at)) {
            ids.push(id)?;
        }
    }
    Ok(ids)
}
