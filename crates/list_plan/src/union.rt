//! Parts put together.
ghost use Rattle.std.specs.Prelude.{◌≡◌, ◌≤◌, ◌+◌, ◌-◌, ◌*◌, ◌++◌, not, ℕ, [], ◌∷◌, length, IfOk, OnOk};
ghost use Rattle.std.specs.List.{list_all};
ghost use Rattle.id_iters.specs.Fitting.{leaves_of};
ghost use Rattle.id_iters.specs.Held.{Held};
ghost use Rattle.id_iters.specs.Ready.{Ready};
ghost use Rattle.list_plan.specs.Groups.{Gathers};
ghost use Rattle.list_plan.specs.Plans.{AllOpen, AllReady, Joins, KnowsLeavesOf, PartsOpen, ids_of};

use crate::room::Room;
use crate::size::Planned;
use ft_base::{ListOf, NoMemory};
use id_iters::{Ahead, Iter};
use std::alloc::Global;

/// So many parts a union has at most.
const GROUP: usize = 16;

/// The ids that some part has. The parts are put together in groups, and the groups again, so that no union asks many.
pub fn some_of(alloc: Global, room: &Room, plans: Vec<Planned>) -> Result<Planned, NoMemory>
    ensures { IfOk result (λ made. Joins plans.items (made ∷ [])) }
{
    let mut left = plans;
    'rounds: while left.len() > 1 {
        left = grouped(alloc, room, left)?;
    }
    match left.pop() {
        Some(planned) => Ok(planned),
        None => Ok(Planned::none()),
    }
}

// At most half as many parts, from the last one on.
fn grouped(alloc: Global, room: &Room, plans: Vec<Planned>) -> Result<Vec<Planned>, NoMemory>
    ensures joins { IfOk result (λ groups. Joins plans.items groups.items) }
    ensures fewer { IfOk result (λ groups. 2 * length groups.items ≤ length plans.items + 1) }
{
    let mut left = plans;
    let mut groups = Vec::new(alloc);
    'groups: while let Some(last) = left.pop() {
        groups.push(with_others(alloc, room, last, &mut left)?)?;
    }
    Ok(groups)
}

// The ids that a part has or some of the last of those left. Where little room is left, the union is frugal.
fn with_others(
    alloc: Global,
    room: &Room,
    last: Planned,
    left: &mut Vec<Planned>,
) -> Result<Planned, NoMemory>
    ensures joins { IfOk result (λ made. Joins (left.old.items ++ last ∷ []) (left.new.items ++ made ∷ [])) }
    ensures fewer { OnOk result (length left.new.items ≤ length left.old.items - 1) }
{
    if left.len() == 0 {
        return Ok(last);
    }
    let first = last.size;
    let mut parts = with_part(ListOf::new(alloc), Ahead::new(last.iter))?;
    let size = gather(left, &mut parts, first)?;
    room.take_union(parts.len() as u64)?;
    let frugal = !room.keeps_ahead(leaves_among(parts.as_slice()), size);
    Ok(Planned {
        iter: Iter::of_some(alloc, parts, frugal),
        size,
    })
}

// How many parts of a union are leaves.
fn leaves_among(parts: &[Ahead]) -> u64 {
    parts.iter().filter(|part| is_leaf(&part.iter)).count() as u64
}

// Whether an iterator is that of one list.
fn is_leaf(iter: &Iter) -> bool {
    match iter {
        Iter::Leaf(_) => true,
        _ => false,
    }
}

// Those that are left go to the parts, from the last one on, until they are enough for a union. It answers the size of all.
fn gather(left: &mut Vec<Planned>, parts: &mut ListOf<Ahead>, first: u64) -> Result<u64, NoMemory>
    requires { length parts.old ≡ 1 }
    ensures gathers { OnOk result (Gathers left.old.items parts.old left.new.items parts.new) }
    ensures fewer { OnOk result (length left.new.items ≤ length left.old.items - 1) }
{
    let mut size = first;
    'parts: while parts.len() < GROUP {
        let Some(other) = left.pop() else {
            return Ok(size);
        };
        size = size.saturating_add(other.size);
        parts.push(Ahead::new(other.iter))?;
    }
    Ok(size)
}

fn with_part(parts: ListOf<Ahead>, part: Ahead) -> Result<ListOf<Ahead>, NoMemory>
    ensures { IfOk result (λ made. made ≡ parts ++ part ∷ []) }
{
    let mut made = parts;
    made.push(part)?;
    Ok(made)
}

/// The ids that every part has. The part with the fewest is asked first; a part that is alone is the whole.
pub fn every_of(alloc: Global, room: &Room, plans: Vec<Planned>) -> Result<Planned, NoMemory>
    ensures set { IfOk result (λ made. (held : Held) (id : ℕ)
        → ids_of held made id ≡ list_all (λ planned. ids_of held planned id) plans.items) }
    ensures ready { IfOk result (λ made. (held : Held) (from : ℕ)
        → AllReady held plans.items from → Ready held made.iter from) }
    ensures placed { IfOk result (λ made. (held : Held) (after : ℕ)
        → PartsOpen held after plans.items → AllOpen held after (leaves_of made.iter)) }
    ensures known { IfOk result (KnowsLeavesOf plans.items) }
{
    if plans.len() != 1 {
        return every_in_order(alloc, room, plans);
    }
    let mut alone = plans;
    match alone.pop() {
        Some(planned) => Ok(planned),
        None => unreachable!(),
    }
}

// The ids that every part has, of which that with the fewest is asked first.
fn every_in_order(alloc: Global, room: &Room, plans: Vec<Planned>) -> Result<Planned, NoMemory>
    ensures set { IfOk result (λ made. (held : Held) (id : ℕ)
        → ids_of held made id ≡ list_all (λ planned. ids_of held planned id) plans.items) }
    ensures ready { IfOk result (λ made. (held : Held) (from : ℕ)
        → AllReady held plans.items from → Ready held made.iter from) }
    ensures placed { IfOk result (λ made. (held : Held) (after : ℕ)
        → PartsOpen held after plans.items → AllOpen held after (leaves_of made.iter)) }
    ensures known { IfOk result (KnowsLeavesOf plans.items) }
{
    take_each_ahead(room, plans.as_slice())?;
    let mut ordered = plans;
    ordered.sort_by_key(|planned| planned.size)?;
    let size = ordered.first().map_or(u64::MAX, |planned| planned.size);
    let parts = ordered
        .into_iter()
        .map(|planned| planned.iter)
        .collect(alloc)?;
    Ok(Planned {
        iter: Iter::of_every(ListOf::from_vec(parts)),
        size,
    })
}

// Takes room for what the parts that are leaves read ahead.
fn take_each_ahead(room: &Room, plans: &[Planned]) -> Result<(), NoMemory> {
    for planned in plans {
        take_ahead(room, planned)?;
    }
    Ok(())
}

// Takes room for what a part reads ahead where it is a leaf.
fn take_ahead(room: &Room, planned: &Planned) -> Result<(), NoMemory> {
    if !is_leaf(&planned.iter) {
        return Ok(());
    }
    room.take_ahead(planned.size)
}

/// The ids that the part has not.
pub fn other_of(alloc: Global, room: &Room, planned: Planned) -> Result<Planned, NoMemory>
    ensures set { IfOk result (λ made. (held : Held) (id : ℕ)
        → ids_of held made id ≡ not (ids_of held planned id)) }
    ensures ready { IfOk result (λ made. (held : Held) (from : ℕ)
        → Ready held planned.iter from → Ready held made.iter from) }
    ensures leaves { IfOk result (λ made. leaves_of made.iter ≡ leaves_of planned.iter) }
{
    take_ahead(room, &planned)?;
    Ok(Planned {
        iter: Iter::of_other(alloc, planned.iter)?,
        size: u64::MAX,
    })
}
