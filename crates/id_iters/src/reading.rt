//! The ids of a block, all or those whose hit is wanted.
ghost use Rattle.std.specs.Prelude.{◌≡◌, ◌&&◌, ◌++◌, ◌∷◌, if◌then◌else◌, [], List, ℕ, map, nat_le, IfOk, OnOk};
ghost use Rattle.id_iters.specs.Ahead.{ids_from, wanted_ids};
ghost use Rattle.posting_block.specs.Coded.{AllFit};
ghost use Rattle.posting_block.specs.Places.{IsFound};
ghost use Rattle.posting_block.specs.Rising.{RisesAbove};

use crate::hit_test::HitTest;
use ft_base::NoMemory;
use posting_block::{Block, Found, Payload};
use std::alloc::Global;

/// Reads the ids of a block from `from` on whose hit is wanted, and maybe some before them. Where every hit is wanted none
/// is read.
pub(crate) fn read_ids<P: Payload, H: HitTest<P>>(
    block: &Block<P>,
    test: &H,
    from: u64,
    ids: &mut Vec<u64>,
) -> Result<(), NoMemory>
    ensures { OnOk result (ids_from from ids.new.items ≡ wanted_ids (H.wants test.now) from block.now) }
{
    if test.takes_all() {
        read_all(block, ids)
    } else {
        read_wanted(block, test, from, ids)
    }
}

// All ids.
fn read_all<P: Payload>(block: &Block<P>, ids: &mut Vec<u64>) -> Result<(), NoMemory>
    ensures ids { OnOk result (ids.new.items ≡ map (λ e. e.0) block.now) }
    ensures rises { RisesAbove 0 block.now }
    ensures fits { OnOk result (AllFit P.valid block.now) }
{
    widen(ids, block.len())?;
    ids.resize(block.len(), 0)?;
    let _ = block.ids_into(ids.as_mut_slice());
    Ok(())
}

// Room for so many ids and no more, where there is less. The ids there may go.
fn widen(ids: &mut Vec<u64>, count: usize) -> Result<(), NoMemory> {
    if ids.capacity() < count {
        make_room(ids, count)?;
    }
    Ok(())
}

// The ids from `from` on whose hit is wanted. No hit of a lower id is read.
fn read_wanted<P: Payload, H: HitTest<P>>(
    block: &Block<P>,
    test: &H,
    from: u64,
    ids: &mut Vec<u64>,
) -> Result<(), NoMemory>
    ensures { OnOk result (ids.new.items ≡ wanted_ids (H.wants test.now) from block.now) }
{
    make_room(ids, block.len())?;
    let alloc = *ids.allocator();
    let mut at = 0;
    let mut before = 0;
    'entries: while let Some(found) = block.next(at, before) {
        read_entry(alloc, block, &found, test, from, ids)?;
        at = found.to;
        before = found.id;
    }
    Ok(())
}

// No ids, and room for some, which is no more than they need or than there was.
fn make_room(ids: &mut Vec<u64>, count: usize) -> Result<(), NoMemory>
    ensures { OnOk result (ids.new.items ≡ []) }
{
    ids.clear();
    ids.reserve_exact(count)?;
    Ok(())
}

// The id of an entry goes behind the others, where it is from `from` on and its hit is wanted.
fn read_entry<P: Payload, H: HitTest<P>>(
    alloc: Global,
    block: &Block<P>,
    found: &Found,
    test: &H,
    from: u64,
    ids: &mut Vec<u64>,
) -> Result<(), NoMemory>
    requires { (done left : List (ℕ × P)) × (e : ℕ × P) × IsFound P.spelled block.now found.now done e left }
    ensures { (done left : List (ℕ × P)) → (e : ℕ × P) → IsFound P.spelled block.now found.now done e left
        → OnOk result (ids.new.items ≡ (if nat_le from e.0 && H.wants test.now e.1
        then ids.old.items ++ found.now.id ∷ [] else ids.old.items)) }
{
    let wanted = is_wanted(alloc, block, found, test, from)?;
    push_if(wanted, found.id, ids)
}

// Whether an entry has an id from `from` on and a hit that is wanted.
fn is_wanted<P: Payload, H: HitTest<P>>(
    alloc: Global,
    block: &Block<P>,
    found: &Found,
    test: &H,
    from: u64,
) -> Result<bool, NoMemory>
    requires { (done left : List (ℕ × P)) × (e : ℕ × P) × IsFound P.spelled block.now found.now done e left }
    ensures { (done left : List (ℕ × P)) → (e : ℕ × P) → IsFound P.spelled block.now found.now done e left
        → IfOk result (λ answer. answer ≡ (nat_le from e.0 && H.wants test.now e.1)) }
{
    if found.id < from {
        return Ok(false);
    }
    let hit = block.hit(alloc, found)?;
    Ok(test.takes(&hit))
}

fn push_if(wanted: bool, id: u64, ids: &mut Vec<u64>) -> Result<(), NoMemory>
    ensures { OnOk result (ids.new.items ≡ (if wanted then ids.old.items ++ id ∷ [] else ids.old.items)) }
{
    if wanted {
        ids.push(id)?;
    }
    Ok(())
}
