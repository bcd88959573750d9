//! The blocks of a picture are repaired side by side.
ghost use Rattle.std.specs.Prelude.{◌≡◌, if◌then◌else◌, map, IfOk, None, Some};
ghost use Rattle.inverted_list.specs.Blocks.{entries};
ghost use Rattle.gc_splice.specs.Alive.{all_alive};
ghost use Rattle.gc_splice.specs.Repaired.{repair_of_block, repaired};

use crate::parts::repair_of;
use ft_base::NoMemory;
use gc_splice::{BlockRepair, Live, Repair, keep_live, repair_here, repair_one};
use inverted_list::{Picture, Sealed};
use posting_block::Payload;
use rayon::prelude::*;
use std::alloc::Global;
use std::thread::Threads;

/// The fewest sealed blocks for which threads are started.
const MANY_BLOCKS: usize = 1024;

// What becomes of blocks, side by side.
fn repair_blocks<P: Payload + Send + Sync, L: Live + Sync>(
    rt: &(impl Threads + Sync),
    alloc: Global,
    blocks: &[Sealed<P>],
    live: &L,
) -> Result<Vec<BlockRepair<P>>, NoMemory>
    ensures { IfOk result (λ rs. rs.items ≡ map (repair_of_block (L.is live.now)) blocks.now) }
{
    let made: Result<Result<Vec<BlockRepair<P>>, NoMemory>, NoMemory> = blocks
        .par_iter()
        .with_min_len(256)
        .map(
            |block: &Sealed<P>| -> Result<BlockRepair<P>, NoMemory>
                ensures { IfOk result (λ r. r ≡ repair_of_block (L.is live.entry.now) block.now) }
            { repair_one::<P, L>(alloc, block, live) },
        )
        .collect(rt, alloc);
    made?
}

/// What a repair makes of a list that was pictured, and None where the list has no dead entry. Where there are many sealed
/// blocks, threads repair them side by side.
pub fn repair<P: Payload + Send + Sync, L: Live + Sync>(
    rt: &(impl Threads + Sync),
    alloc: Global,
    picture: &Picture<P>,
    live: &L,
) -> Result<Option<Repair<P>>, NoMemory>
    ensures { IfOk result (λ o. o ≡ (if all_alive (L.is live.now) (entries picture.now)
        then None
        else Some (repaired (L.is live.now) picture.now))) }
{
    let blocks = picture.sealed.as_slice();
    if blocks.len() < MANY_BLOCKS {
        return repair_here::<P, L>(alloc, picture, live);
    }
    let sealed = repair_blocks::<P, L>(rt, alloc, blocks, live)?;
    let tail = keep_live::<P, L>(alloc, &picture.tail, live)?;
    Ok(repair_of::<P>(picture, sealed, tail))
}
