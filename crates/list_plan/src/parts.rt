//! Parts that may be negated, put together. A negation is kept as a mark for as long as it can be, so that many of them become one
//! of a union: an And of negations is the negation of an Or, and an Or of negations that of an And.
ghost use Rattle.std.specs.Prelude.{◌≡◌, ℕ, [], not, map, IfOk, IsTrue, OnOk};
ghost use Rattle.id_iters.specs.Fitting.{leaves_of};
ghost use Rattle.id_iters.specs.Held.{Held};
ghost use Rattle.id_iters.specs.Ready.{Ready};
ghost use Rattle.id_iters.specs.declared.iter.Iter.TheVariants as variant;
ghost use Rattle.list_plan.specs.Parts.{Combines, Denies, IsAny, IsEvery, JoinsSides, Sorts, Splits, part_has};
ghost use Rattle.list_plan.specs.Plans.{Gains, ids_of};

use crate::room::Room;
use crate::size::Planned;
use crate::union::{every_of, other_of, some_of};
use ft_base::NoMemory;
use id_iters::Iter;
use std::alloc::Global;

/// The ids of a planned set or, where the part is negated, all others.
#[derive(Drop)]
pub struct Part {
    pub planned: Planned,
    pub negated: bool,
}

impl Part {
    /// The ids of a planned set. All ids are none, negated.
    pub fn new(planned: Planned) -> Part
        ensures set { (held : Held) (id : ℕ) → part_has held result id ≡ ids_of held planned id }
        ensures ready { (held : Held) (from : ℕ)
            → Ready held planned.iter from → Ready held result.planned.iter from }
        ensures leaves { leaves_of result.planned.iter ≡ leaves_of planned.iter }
    {
        if is_all(&planned.iter) {
            return Part {
                planned: Planned::none(),
                negated: true,
            };
        }
        Part {
            planned,
            negated: false,
        }
    }

    /// The ids that the part has not.
    pub fn other(self) -> Part
        ensures planned { result.planned ≡ self.planned }
        ensures negated { result.negated ≡ not self.negated }
    {
        Part {
            planned: self.planned,
            negated: !self.negated,
        }
    }

    /// The part as one set.
    pub fn whole(self, alloc: Global, room: &Room) -> Result<Planned, NoMemory>
        ensures set { IfOk result (λ made. (held : Held) (id : ℕ)
            → ids_of held made id ≡ part_has held self id) }
        ensures ready { IfOk result (λ made. (held : Held) (from : ℕ)
            → Ready held self.planned.iter from → Ready held made.iter from) }
        ensures leaves { IfOk result (λ made. leaves_of made.iter ≡ leaves_of self.planned.iter) }
    {
        if !self.negated {
            return Ok(self.planned);
        }
        if is_none(&self.planned.iter) {
            return Ok(Planned::all());
        }
        Ok(other_of(alloc, room, self.planned)?)
    }
}

// Whether an iterator is that of all ids.
fn is_all(iter: &Iter) -> bool
    ensures { IsTrue result → iter.now ≡ variant.All }
{
    match iter {
        Iter::All => true,
        _ => false,
    }
}

// Whether it is that of no id.
fn is_none(iter: &Iter) -> bool
    ensures { IsTrue result → iter.now ≡ variant.Empty }
{
    match iter {
        Iter::Empty => true,
        _ => false,
    }
}

/// Puts a part behind the others, where it could be made.
pub fn add_part(parts: &mut Vec<Part>, made: Result<Part, NoMemory>) -> Result<(), NoMemory>
    ensures { OnOk result (Gains made parts.old.items parts.new.items) }
{
    let part = made?;
    parts.push(part)?;
    Ok(())
}

/// The ids that every part has. Those that are negated are one negation of a union, and those that have all ids are not asked.
pub fn every_part(alloc: Global, room: &Room, parts: Vec<Part>) -> Result<Part, NoMemory>
    ensures { IfOk result (λ made. IsEvery parts.items made) }
{
    let mut found = Vec::new(alloc);
    let mut denied = Vec::new(alloc);
    split(parts, &mut found, &mut denied)?;
    Ok(put_together(alloc, room, found, denied)?)
}

/// The ids that some part has: those that the others of every part have not.
pub fn some_part(alloc: Global, room: &Room, parts: Vec<Part>) -> Result<Part, NoMemory>
    ensures { IfOk result (λ made. IsAny parts.items made) }
{
    let others = others_of(alloc, parts)?;
    let made = every_part(alloc, room, others)?;
    Ok(made.other())
}

// The others of each part.
fn others_of(alloc: Global, parts: Vec<Part>) -> Result<Vec<Part>, NoMemory>
    ensures { IfOk result (λ others. others.items
        ≡ map (λ part. record { planned = part.planned; negated = not part.negated }) parts.items) }
{
    let others = parts
        .into_iter()
        .map(|part| Part {
            planned: part.planned,
            negated: !part.negated,
        })
        .collect(alloc)?;
    Ok(others)
}

// The sets of the parts go to those that must have an id, or to those that must not. Both vectors have none.
fn split(
    parts: Vec<Part>,
    found: &mut Vec<Planned>,
    denied: &mut Vec<Planned>,
) -> Result<(), NoMemory>
    requires found { found.old.items ≡ [] }
    requires denied { denied.old.items ≡ [] }
    ensures { OnOk result (Splits parts.items found.new.items denied.new.items) }
{
    'parts: for part in parts {
        sort(part, found, denied)?;
    }
    Ok(())
}

// The set of a part goes where it belongs. One that has all ids asks for nothing.
fn sort(part: Part, found: &mut Vec<Planned>, denied: &mut Vec<Planned>) -> Result<(), NoMemory>
    ensures { OnOk result
        (Sorts part found.old.items denied.old.items found.new.items denied.new.items) }
{
    if !part.negated {
        found.push(part.planned)?;
        return Ok(());
    }
    if is_none(&part.planned.iter) {
        return Ok(());
    }
    denied.push(part.planned)?;
    Ok(())
}

// The ids that every found set has, and no denied one. Without a found set they are those that no denied one has.
fn put_together(
    alloc: Global,
    room: &Room,
    found: Vec<Planned>,
    denied: Vec<Planned>,
) -> Result<Part, NoMemory>
    ensures { IfOk result (λ made. JoinsSides found.items denied.items made) }
{
    if found.len() == 0 {
        return Ok(Part {
            planned: some_of(alloc, room, denied)?,
            negated: true,
        });
    }
    let all = with_denied(alloc, room, found, denied)?;
    Ok(Part {
        planned: every_of(alloc, room, all)?,
        negated: false,
    })
}

// The found sets and, where there are denied ones, what none of these has.
fn with_denied(
    alloc: Global,
    room: &Room,
    found: Vec<Planned>,
    denied: Vec<Planned>,
) -> Result<Vec<Planned>, NoMemory>
    ensures { IfOk result (λ all. Combines found.items denied.items all.items) }
{
    if denied.len() == 0 {
        return Ok(found);
    }
    let none = none_of(alloc, room, denied)?;
    let mut all = found;
    all.push(none)?;
    Ok(all)
}

// The ids that no set has.
fn none_of(alloc: Global, room: &Room, plans: Vec<Planned>) -> Result<Planned, NoMemory>
    ensures { IfOk result (λ made. Denies plans.items made) }
{
    let some = some_of(alloc, room, plans)?;
    Ok(other_of(alloc, room, some)?)
}
