//! The places that a reader has come to, for the one that reads on from there.
ghost use Rattle.std.specs.Prelude.{◌≤◌, ◌∷◌, [], IfOk, OnOk};
ghost use Rattle.std.specs.List.{flat_map};
ghost use Rattle.id_iters.specs.Fitting.{Hinted, HintsFit, leaves_of, leaves_of_ahead};

use crate::hint::{Hint, Hints};
use crate::iter::{Ahead, Iter};
use crate::leaf::Leaf;
use crate::lists::Lists;
use ft_base::{ListOf, NoMemory, Steps};
use std::alloc::Global;
use std::sync::ledger::Ledger;

impl Iter {
    /// One hint for each leaf, in the order of the leaves: its list, and the place there behind the ids up to `after`. The place
    /// of a leaf that has read no more than a block beyond `after` is at hand. A step is a block whose last id is looked at
    /// for one of the others.
    pub fn hints<T: Lists, L: Ledger>(
        &self,
        alloc: Global,
        lists: &T,
        after: u64,
        steps: &mut Steps<L>,
    ) -> Result<Hints, NoMemory>
        ensures fit { IfOk result (λ hints. HintsFit (T.held lists.now) after (leaves_of self.now) hints.0) }
        ensures counts { steps.old ≤ steps.new }
    {
        let mut hints = Vec::new(alloc);
        add_hints(self, lists, after, &mut hints, steps)?;
        Ok(Hints(ListOf::from_vec(hints)))
    }
}

// The hints of an iterator go behind the others.
#[cycle(add_hints)]
fn add_hints<T: Lists, L: Ledger>(
    iter: &Iter,
    lists: &T,
    after: u64,
    hints: &mut Vec<Hint>,
    steps: &mut Steps<L>,
) -> Result<(), NoMemory>
    ensures hinted { OnOk result (Hinted (T.held lists.now) after (leaves_of iter.now) hints.old.items hints.new.items) }
    ensures counts { steps.old ≤ steps.new }
{
    match iter {
        Iter::Leaf(leaf) => add_leaf(leaf, lists, after, hints, steps),
        Iter::And(parts) => add_parts(parts, lists, after, hints, steps),
        Iter::Or { parts, .. } => add_union(parts, lists, after, hints, steps),
        Iter::Not(part) => add_ahead(part, lists, after, hints, steps),
        Iter::Optional(part) => add_hints(part, lists, after, hints, steps),
        Iter::Phrase(phrase) => add_words(&phrase.words, lists, after, hints, steps),
        // The others have no lists.
        _ => Ok(()),
    }
}

// Those of the parts of an intersection.
#[cycle(add_hints)]
fn add_parts<T: Lists, L: Ledger>(
    parts: &ListOf<Iter>,
    lists: &T,
    after: u64,
    hints: &mut Vec<Hint>,
    steps: &mut Steps<L>,
) -> Result<(), NoMemory>
    ensures hinted { OnOk result
        (Hinted (T.held lists.now) after (flat_map leaves_of parts.now) hints.old.items hints.new.items) }
    ensures counts { steps.old ≤ steps.new }
{
    'parts: for part in parts.as_slice() {
        add_hints(part, lists, after, hints, steps)?;
    }
    Ok(())
}

// Those of the parts of a union.
#[cycle(add_hints)]
fn add_union<T: Lists, L: Ledger>(
    parts: &ListOf<Ahead>,
    lists: &T,
    after: u64,
    hints: &mut Vec<Hint>,
    steps: &mut Steps<L>,
) -> Result<(), NoMemory>
    ensures hinted { OnOk result
        (Hinted (T.held lists.now) after (flat_map leaves_of_ahead parts.now) hints.old.items hints.new.items) }
    ensures counts { steps.old ≤ steps.new }
{
    'parts: for part in parts.as_slice() {
        add_ahead(part, lists, after, hints, steps)?;
    }
    Ok(())
}

// Those of a part of a union, or of what must not be met.
#[cycle(add_hints)]
fn add_ahead<T: Lists, L: Ledger>(
    part: &Ahead,
    lists: &T,
    after: u64,
    hints: &mut Vec<Hint>,
    steps: &mut Steps<L>,
) -> Result<(), NoMemory>
    ensures hinted { OnOk result (Hinted (T.held lists.now) after (leaves_of_ahead part.now) hints.old.items hints.new.items) }
    ensures counts { steps.old ≤ steps.new }
{
    add_hints(&part.iter, lists, after, hints, steps)
}

// Those of the words of a phrase.
fn add_words<T: Lists, L: Ledger>(
    words: &ListOf<Leaf>,
    lists: &T,
    after: u64,
    hints: &mut Vec<Hint>,
    steps: &mut Steps<L>,
) -> Result<(), NoMemory>
    ensures hinted { OnOk result (Hinted (T.held lists.now) after words.now hints.old.items hints.new.items) }
    ensures counts { steps.old ≤ steps.new }
{
    'words: for word in words.as_slice() {
        add_leaf(word, lists, after, hints, steps)?;
    }
    Ok(())
}

// That of a leaf.
fn add_leaf<T: Lists, L: Ledger>(
    leaf: &Leaf,
    lists: &T,
    after: u64,
    hints: &mut Vec<Hint>,
    steps: &mut Steps<L>,
) -> Result<(), NoMemory>
    ensures hinted { OnOk result (Hinted (T.held lists.now) after (leaf.now ∷ []) hints.old.items hints.new.items) }
    ensures counts { steps.old ≤ steps.new }
{
    let list = leaf.list.copy()?;
    let place = leaf.list.open_near(lists, leaf.place, after, steps);
    hints.push(Hint { list, place })?;
    Ok(())
}
