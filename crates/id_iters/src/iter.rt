//! Iterators of document ids: sets of ids that are asked for their least live id from a number on.
ghost use Rattle.std.specs.Prelude.{◌≡◌, ◌<◌, ◌≤◌, ◌+◌, ◌^◌, ◌&&◌, ◌||◌, not, false, ℕ, map, max, IfOk, IfSome, OnOk};
ghost use Rattle.std.specs.List.{All};
ghost use Rattle.id_iters.specs.Fitting.{leaves_of, leaves_of_ahead};
ghost use Rattle.id_iters.specs.Held.{Held, AreLists};
ghost use Rattle.id_iters.specs.Least.{IsLeast, lesser_of};
ghost use Rattle.id_iters.specs.Ready.{kept_answer, Ready, AheadReady, UnionReady};
ghost use Rattle.id_iters.specs.Sets.{about, about_ahead, all_have, any_has, in_set, living};
ghost use Rattle.id_iters.specs.Stretch.{base_of, is_in, limit_of};

use crate::bits::Bits;
use crate::leaf::Leaf;
use crate::lists::Lists;
use crate::phrase::PhraseIter;
use ft_base::{ListOf, NoMemory, Steps};
use std::sync::ledger::Ledger;

/// A set of ids, and how far it was read.
#[cycle(iter)]
pub enum Iter {
    /// The ids of a list.
    Leaf(Leaf),
    /// The ids that every part has; without a part all.
    And(ListOf<Iter>),
    /// The ids that some part has, and those of them that were read ahead.
    Or { parts: ListOf<Ahead>, stretch: Bits },
    /// The ids that the part has not.
    Not(Box<Ahead>),
    /// All ids; the part is not asked.
    Optional(Box<Iter>),
    /// All ids.
    All,
    /// The ids where words stand together.
    Phrase(PhraseIter),
    /// No id.
    Empty,
}

// Written out, it is one step for whoever drops an iterator, where a derived one has an arm for each form.
impl Drop for Iter {
    #[cycle(drop)]
    fn drop(self) {
        match self {
            Iter::Leaf(leaf) => drop(leaf),
            Iter::And(parts) => drop(parts),
            Iter::Or { parts, stretch } => {
                drop(parts);
                drop(stretch);
            }
            Iter::Not(part) => drop(part),
            Iter::Optional(part) => drop(part),
            Iter::All => {}
            Iter::Phrase(phrase) => drop(phrase),
            Iter::Empty => {}
        }
    }
}

/// A part that keeps its last answer, which may lie ahead of what the whole has come to.
#[derive(Drop)]
#[cycle(iter)]
pub struct Ahead {
    pub iter: Iter,
    pub asked: bool,
    pub next: Option<u64>,
}

impl Ahead {
    /// The part, which was not asked.
    pub fn new(iter: Iter) -> Ahead
        ensures set { (held : Held) → about_ahead held result ≡ about held iter }
        ensures ready { (held : Held) (from : ℕ)
            → Ready held iter from → AheadReady held result from }
        ensures leaves { leaves_of_ahead result ≡ leaves_of iter }
    {
        Ahead {
            iter,
            asked: false,
            next: None,
        }
    }

    // The kept answer, where it answers `from`.
    fn kept(&self, from: u64) -> Option<Option<u64>>
        ensures { result ≡ kept_answer self.now.asked self.now.next from }
    {
        if !self.asked {
            return None;
        }
        match self.next {
            None => Some(None),
            Some(id) => { if from <= id { Some(Some(id)) } else { None } }
        }
    }

    /// The least live id of the part from `from` on. It may be asked from the same number again. After `NoMemory` the
    /// part may only be dropped.
    #[cycle(seek)]
    pub fn seek<T: Lists, L: Ledger>(
        &mut self,
        lists: &T,
        from: u64,
        steps: &mut Steps<L>,
    ) -> Result<Option<u64>, NoMemory>
        requires lists { AreLists (T.held lists.now) }
        requires ready { AheadReady (T.held lists.now) self.old from }
        ensures least { IfOk result (λ r. IsLeast
            (living (T.held lists.now).live (about_ahead (T.held lists.now) self.old)) from r) }
        ensures same { OnOk result (about_ahead (T.held lists.now) self.new
            ≡ about_ahead (T.held lists.now) self.old) }
        ensures ready { OnOk result (AheadReady (T.held lists.now) self.new from) }
        ensures counts { steps.old ≤ steps.new }
    {
        if let Some(answer) = self.kept(from) {
            return Ok(answer);
        }
        self.next = self.iter.seek(lists, from, steps)?;
        self.asked = true;
        Ok(self.next)
    }

    // Where it keeps an id and is to be frugal, a part that is a leaf gives the memory of what it has read ahead back.
    fn rest<T: Lists, L: Ledger>(&mut self, frugal: bool, lists: &T, steps: &mut Steps<L>)
        ensures same { about_ahead (T.held lists.now) self.new ≡ about_ahead (T.held lists.now) self.old }
        ensures ready { (from : ℕ)
            → AheadReady (T.held lists.now) self.old from → AheadReady (T.held lists.now) self.new from }
        ensures counts { steps.old ≤ steps.new }
    {
        if !frugal || !self.asked {
            return;
        }
        if let Some(id) = self.next {
            self.iter.rest(lists, id, steps);
        }
    }
}

impl Iter {
    /// The least live id of the set from `from` on, and None exactly where there is none. After an id it may be asked
    /// from higher numbers on; after None it is not asked again. After `NoMemory` it may only be dropped.
    #[cycle(seek)]
    pub fn seek<T: Lists, L: Ledger>(
        &mut self,
        lists: &T,
        from: u64,
        steps: &mut Steps<L>,
    ) -> Result<Option<u64>, NoMemory>
        requires lists { AreLists (T.held lists.now) }
        requires ready { Ready (T.held lists.now) self.old from }
        ensures least { IfOk result (λ r. IsLeast (in_set (T.held lists.now) self.old) from r) }
        ensures same { OnOk result (about (T.held lists.now) self.new
            ≡ about (T.held lists.now) self.old) }
        ensures ready { IfOk result (λ r. IfSome r (λ id.
            Ready (T.held lists.now) self.new (id + 1))) }
        ensures counts { steps.old ≤ steps.new }
    {
        match self {
            Iter::Leaf(leaf) => leaf.seek(lists, from, steps),
            Iter::And(parts) => seek_all(parts, lists, from, steps),
            Iter::Or { parts, stretch } => seek_some(parts, stretch, lists, from, steps),
            Iter::Not(part) => seek_other(part, lists, from, steps),
            Iter::Optional(_) => Ok(lists.next_live(from)),
            Iter::All => Ok(lists.next_live(from)),
            Iter::Phrase(phrase) => phrase.seek(lists, from, steps),
            Iter::Empty => Ok(None),
        }
    }

    // A leaf gives the memory of what it has read ahead back, behind an id.
    fn rest<T: Lists, L: Ledger>(&mut self, lists: &T, id: u64, steps: &mut Steps<L>)
        ensures same { about (T.held lists.now) self.new ≡ about (T.held lists.now) self.old }
        ensures ready { (from : ℕ) → id < from
            → Ready (T.held lists.now) self.old from → Ready (T.held lists.now) self.new from }
        ensures counts { steps.old ≤ steps.new }
    {
        match self {
            Iter::Leaf(leaf) => leaf.rest(lists, id, steps),
            _ => {}
        }
    }
}

// The least live id from `from` on that the part has not.
#[cycle(seek)]
fn seek_other<T: Lists, L: Ledger>(
    part: &mut Ahead,
    lists: &T,
    from: u64,
    steps: &mut Steps<L>,
) -> Result<Option<u64>, NoMemory>
    requires lists { AreLists (T.held lists.now) }
    requires ready { AheadReady (T.held lists.now) part.old from }
    ensures least { IfOk result (λ r. IsLeast
        (λ id. (T.held lists.now).live id
        && not ((about_ahead (T.held lists.now) part.old).has id)) from r) }
    ensures same { OnOk result (about_ahead (T.held lists.now) part.new
        ≡ about_ahead (T.held lists.now) part.old) }
    ensures ready { IfOk result (λ r. IfSome r (λ id.
        AheadReady (T.held lists.now) part.new (id + 1))) }
    ensures counts { steps.old ≤ steps.new }
{
    let mut next = from;
    'live: while let Some(id) = lists.next_live(next) {
        if part.seek(lists, id, steps)? != Some(id) {
            return Ok(Some(id));
        }
        next = id + 1;
    }
    Ok(None)
}

// The least live id from `from` on that some part has. In the stretch it is the next bit; beyond it the parts are asked, and
// the stretch is moved to their answer and filled.
#[cycle(seek)]
fn seek_some<T: Lists, L: Ledger>(
    parts: &mut ListOf<Ahead>,
    stretch: &mut Bits,
    lists: &T,
    from: u64,
    steps: &mut Steps<L>,
) -> Result<Option<u64>, NoMemory>
    requires lists { AreLists (T.held lists.now) }
    requires ready { UnionReady (T.held lists.now) parts.old stretch.old from }
    ensures least { IfOk result (λ r. IsLeast
        (λ id. (T.held lists.now).live id
        && any_has (map (about_ahead (T.held lists.now)) parts.old) id) from r) }
    ensures same { OnOk result (map (about_ahead (T.held lists.now)) parts.new
        ≡ map (about_ahead (T.held lists.now)) parts.old) }
    ensures ready { IfOk result (λ r. IfSome r (λ id.
        UnionReady (T.held lists.now) parts.new stretch.new (id + 1))) }
    ensures counts { steps.old ≤ steps.new }
{
    if let Some(id) = stretch.next_from(from) {
        return Ok(Some(id));
    }
    let next = from.max(stretch.limit());
    let Some(id) = seek_any(parts, lists, next, steps)? else {
        return Ok(None);
    };
    fill(parts, stretch, lists, id, steps)?;
    Ok(Some(id))
}

// Moves the stretch to an id, and sets the bits of the live ids from there on that some part has.
#[cycle(seek)]
fn fill<T: Lists, L: Ledger>(
    parts: &mut ListOf<Ahead>,
    stretch: &mut Bits,
    lists: &T,
    from: u64,
    steps: &mut Steps<L>,
) -> Result<(), NoMemory>
    requires lists { AreLists (T.held lists.now) }
    requires ready { All (λ part. AheadReady (T.held lists.now) part from) parts.old }
    requires small { from < 2 ^ 62 }
    ensures same { OnOk result (map (about_ahead (T.held lists.now)) parts.new
        ≡ map (about_ahead (T.held lists.now)) parts.old) }
    ensures ready { OnOk result (UnionReady (T.held lists.now) parts.new stretch.new from) }
    ensures counts { steps.old ≤ steps.new }
{
    stretch.move_to(from)?;
    'parts: for at in 0..parts.len() {
        mark(parts.get_mut(at), stretch, lists, from, steps)?;
    }
    Ok(())
}

// Sets the bits of the live ids from `from` on that the part has.
#[cycle(seek)]
fn mark<T: Lists, L: Ledger>(
    part: &mut Ahead,
    stretch: &mut Bits,
    lists: &T,
    from: u64,
    steps: &mut Steps<L>,
) -> Result<(), NoMemory>
    requires lists { AreLists (T.held lists.now) }
    requires ready { AheadReady (T.held lists.now) part.old from }
    requires base { base_of stretch.old ≤ from }
    requires limit { from < limit_of stretch.old }
    ensures has { OnOk result ((id : ℕ) → from ≤ id → id < limit_of stretch.old
        → is_in stretch.new id ≡ (is_in stretch.old id
        || living (T.held lists.now).live (about_ahead (T.held lists.now) part.old) id)) }
    ensures base { base_of stretch.new ≡ base_of stretch.old }
    ensures limit { limit_of stretch.new ≡ limit_of stretch.old }
    ensures same { OnOk result (about_ahead (T.held lists.now) part.new
        ≡ about_ahead (T.held lists.now) part.old) }
    ensures ready { OnOk result (AheadReady (T.held lists.now) part.new (limit_of stretch.old)) }
    ensures counts { steps.old ≤ steps.new }
{
    let limit = stretch.limit();
    let mut next = from;
    'ids: while let Some(id) = part.seek(lists, next, steps)? {
        if limit <= id {
            part.rest(stretch.is_frugal(), lists, steps);
            return Ok(());
        }
        stretch.set(id);
        next = id + 1;
    }
    Ok(())
}

// The least live id from `from` on that some part has.
#[cycle(seek)]
fn seek_any<T: Lists, L: Ledger>(
    parts: &mut ListOf<Ahead>,
    lists: &T,
    from: u64,
    steps: &mut Steps<L>,
) -> Result<Option<u64>, NoMemory>
    requires lists { AreLists (T.held lists.now) }
    requires ready { All (λ part. AheadReady (T.held lists.now) part from) parts.old }
    ensures least { IfOk result (λ r. IsLeast
        (λ id. (T.held lists.now).live id
        && any_has (map (about_ahead (T.held lists.now)) parts.old) id) from r) }
    ensures same { OnOk result (map (about_ahead (T.held lists.now)) parts.new
        ≡ map (about_ahead (T.held lists.now)) parts.old) }
    ensures ready { OnOk result (All (λ part. AheadReady (T.held lists.now) part from) parts.new) }
    ensures counts { steps.old ≤ steps.new }
{
    let mut best = None;
    'parts: for at in 0..parts.len() {
        let answer = parts.get_mut(at).seek(lists, from, steps)?;
        best = lesser(best, answer);
    }
    Ok(best)
}

fn lesser(answer: Option<u64>, other: Option<u64>) -> Option<u64>
    ensures { result ≡ lesser_of answer other }
{
    match (answer, other) {
        (None, other) => other,
        (answer, None) => answer,
        (Some(id), Some(next)) => Some(if id <= next { id } else { next }),
    }
}

// The least live id from `from` on that every part has. The candidate is always live, and the part that it came from
// is not asked for it again.
#[cycle(seek)]
fn seek_all<T: Lists, L: Ledger>(
    parts: &mut ListOf<Iter>,
    lists: &T,
    from: u64,
    steps: &mut Steps<L>,
) -> Result<Option<u64>, NoMemory>
    requires lists { AreLists (T.held lists.now) }
    requires ready { All (λ part. Ready (T.held lists.now) part from) parts.old }
    ensures least { IfOk result (λ r. IsLeast
        (λ id. (T.held lists.now).live id
        && all_have (map (about (T.held lists.now)) parts.old) id) from r) }
    ensures same { OnOk result (map (about (T.held lists.now)) parts.new
        ≡ map (about (T.held lists.now)) parts.old) }
    ensures ready { IfOk result (λ r. IfSome r (λ id.
        All (λ part. Ready (T.held lists.now) part (id + 1)) parts.new)) }
    ensures counts { steps.old ≤ steps.new }
{
    let Some(first) = lists.next_live(from) else {
        return Ok(None);
    };
    let mut id = first;
    let mut lead = parts.len();
    let mut at = 0;
    'parts: while at < parts.len() {
        if at == lead {
            at += 1;
            continue;
        }
        let Some(next) = parts.get_mut(at).seek(lists, id, steps)? else {
            return Ok(None);
        };
        if id < next {
            id = next;
            lead = at;
            at = 0;
            continue;
        }
        at += 1;
    }
    Ok(Some(id))
}
