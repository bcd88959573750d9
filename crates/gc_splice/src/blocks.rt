//! What becomes of sealed blocks.
//!
//! The ids of a block are read at once, into a buffer that all blocks share, and each is asked for. Memory is taken for the
//! first repair only once a block has a dead entry, and for a block only where it is written anew.
ghost use Rattle.std.specs.Prelude.{◌≡◌, ◌<◌, ◌≤◌, ◌++◌, map, take, length, IfOk, OnOk, true, false};
ghost use Rattle.inverted_list.specs.Blocks.{joined};
ghost use Rattle.gc_splice.specs.Alive.{alive, all_alive};
ghost use Rattle.gc_splice.specs.Repaired.{repair_of_block};

use crate::keep::{keep_so_many, live_in};
use crate::live::Live;
use crate::repair::{BlockRepair, MOST_ENTRIES};
use ft_base::{ListOf, NoMemory};
use inverted_list::Sealed;
use posting_block::{Block, Payload};
use std::alloc::Global;

/// The number of the first block that has a dead entry, and the number of blocks where none has.
pub(crate) fn first_dead<P: Payload, L: Live>(
    blocks: &[Sealed<P>],
    live: &L,
    ids: &mut [u64],
) -> usize
    requires { 100 ≤ length ids.old }
    ensures within { result ≤ length blocks.now }
    ensures before { all_alive (L.is live.now) (joined (take result blocks.now)) ≡ true }
    ensures dead { result < length blocks.now → all_alive (L.is live.now) (joined blocks.now) ≡ false }
{
    'each: for (i, block) in blocks.iter().enumerate() {
        if live_in::<P, L>(block.block(), live, ids) < block.len() {
            return i;
        }
    }
    blocks.len()
}

// A sealed block without the dead entries of another one, of which so many are live.
fn without_dead<P: Payload, L: Live>(
    alloc: Global,
    block: &Block<P>,
    live: &L,
    left: usize,
) -> Result<Sealed<P>, NoMemory>
    ensures { IfOk result (λ b. b ≡ alive (L.is live.now) block.now) }
{
    let kept = keep_so_many::<P, L>(alloc, block, live, left)?;
    Sealed::new(alloc, kept)
}

// What becomes of a block.
fn repair_block<P: Payload, L: Live>(
    alloc: Global,
    block: &Sealed<P>,
    live: &L,
    ids: &mut [u64],
) -> Result<BlockRepair<P>, NoMemory>
    requires { 100 ≤ length ids.old }
    ensures { IfOk result (λ r. r ≡ repair_of_block (L.is live.now) block.now) }
{
    let left = live_in::<P, L>(block.block(), live, ids);
    if left == block.len() {
        return Ok(BlockRepair::Same);
    }
    if left == 0 {
        return Ok(BlockRepair::Gone);
    }
    let kept = without_dead::<P, L>(alloc, block.block(), live, left)?;
    Ok(BlockRepair::Changed(kept))
}

/// What becomes of one block, where no buffer of ids is in hand.
pub fn repair_one<P: Payload, L: Live>(
    alloc: Global,
    block: &Sealed<P>,
    live: &L,
) -> Result<BlockRepair<P>, NoMemory>
    ensures { IfOk result (λ r. r ≡ repair_of_block (L.is live.now) block.now) }
{
    let mut ids = [0; MOST_ENTRIES];
    repair_block::<P, L>(alloc, block, live, &mut ids)
}

// The repairs of blocks without a dead entry, with room for those of all blocks.
fn repairs_before<P: Payload, L: Live>(
    alloc: Global,
    blocks: &[Sealed<P>],
    front: usize,
    live: &L,
) -> Result<Vec<BlockRepair<P>>, NoMemory>
    requires within { front ≤ length blocks.now }
    requires live { all_alive (L.is live.now) (joined (take front blocks.now)) ≡ true }
    ensures { IfOk result (λ rs. rs.items ≡ map (repair_of_block (L.is live.now)) (take front blocks.now)) }
{
    let mut repairs = Vec::with_capacity(alloc, blocks.len())?;
    'each: for _i in 0..front {
        repairs.push(BlockRepair::Same)?;
    }
    Ok(repairs)
}

// Adds the repairs of the other blocks.
fn repair_from<P: Payload, L: Live>(
    alloc: Global,
    blocks: &[Sealed<P>],
    live: &L,
    ids: &mut [u64],
    repairs: &mut Vec<BlockRepair<P>>,
) -> Result<(), NoMemory>
    requires { 100 ≤ length ids.old }
    ensures { OnOk result (repairs.new.items ≡ repairs.old.items ++ map (repair_of_block (L.is live.now)) blocks.now) }
{
    'each: for block in blocks {
        repairs.push(repair_block::<P, L>(alloc, block, live, ids)?)?;
    }
    Ok(())
}

/// What becomes of blocks, of which the first `front` have no dead entry.
pub(crate) fn repair_blocks<P: Payload, L: Live>(
    alloc: Global,
    blocks: &[Sealed<P>],
    front: usize,
    live: &L,
    ids: &mut [u64],
) -> Result<ListOf<BlockRepair<P>>, NoMemory>
    requires room { 100 ≤ length ids.old }
    requires within { front ≤ length blocks.now }
    requires live { all_alive (L.is live.now) (joined (take front blocks.now)) ≡ true }
    ensures { IfOk result (λ rs. rs ≡ map (repair_of_block (L.is live.now)) blocks.now) }
{
    let mut repairs = repairs_before::<P, L>(alloc, blocks, front, live)?;
    repair_from::<P, L>(alloc, &blocks[front..], live, ids, &mut repairs)?;
    Ok(ListOf::from_vec(repairs))
}
