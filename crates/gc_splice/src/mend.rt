//! A repair is laid over sealed blocks in place. It takes no memory and frees none.
//!
//! The blocks that stay move to the front, over those that went, and none moves where none went. What a changed block
//! was before, and a block that went, is left where its repair stood.
ghost use Rattle.std.specs.Prelude.{◌≡◌, ◌<◌, ◌≤◌, ◌+◌, ◌++◌, ◌∷◌, [], take, drop, length, List, ℕ};
ghost use Rattle.gc_splice.specs.Splice.{mended};
ghost use Rattle.gc_splice.specs.Written.{Written};

use crate::repair::BlockRepair;
use ft_base::ListOf;
use inverted_list::Sealed;
use posting_block::Payload;
use std::mem::swap;

// Moves a block to the front part, behind the blocks that stay.
fn keep_block<P: Payload>(blocks: &mut Vec<Sealed<P>>, kept: usize, i: usize)
    requires order { kept ≤ i }
    requires within { i < length blocks.old.items }
    ensures first { take (kept + 1) blocks.new.items ≡ take kept blocks.old.items ++ take 1 (drop i blocks.old.items) }
    ensures behind { drop (i + 1) blocks.new.items ≡ drop (i + 1) blocks.old.items }
    ensures len { length blocks.new.items ≡ length blocks.old.items }
{
    if kept < i {
        blocks.swap(kept, i);
    }
}

// Lays a block's repair over it, and answers how many blocks stay so far.
fn mend_block<P: Payload>(
    blocks: &mut Vec<Sealed<P>>,
    kept: usize,
    i: usize,
    repair: &mut BlockRepair<P>,
) -> usize
    requires order { kept ≤ i }
    requires within { i < length blocks.old.items }
    ensures { (start : List (List (ℕ × P))) → (taken : List (BlockRepair P)) → length taken ≡ i
        → Written start taken i kept blocks.old.items
        → Written start (taken ++ repair.old ∷ []) (i + 1) result blocks.new.items }
{
    match repair {
        BlockRepair::Gone => return kept,
        BlockRepair::Changed(block) => swap(block, &mut blocks[i]),
        BlockRepair::Same => {}
    }
    keep_block::<P>(blocks, kept, i);
    kept + 1
}

// Lays the repairs over the first blocks, and answers how many of these stay.
fn mend_first<P: Payload>(
    blocks: &mut Vec<Sealed<P>>,
    repairs: &mut ListOf<BlockRepair<P>>,
) -> usize
    requires { length repairs.old ≤ length blocks.old.items }
    ensures { Written blocks.old.items repairs.old (length repairs.old) result blocks.new.items }
{
    let mut kept = 0;
    'each: for i in 0..repairs.len() {
        kept = mend_block::<P>(blocks, kept, i, repairs.get_mut(i));
    }
    kept
}

// Moves the blocks behind them to the others that stay, and answers how many these are.
fn keep_behind<P: Payload>(blocks: &mut Vec<Sealed<P>>, mut kept: usize, from: usize) -> usize
    requires order { kept ≤ from }
    requires within { from ≤ length blocks.old.items }
    ensures { (start : List (List (ℕ × P))) → (taken : List (BlockRepair P)) → length taken ≡ from
        → Written start taken from kept blocks.old.items → take result blocks.new.items ≡ mended taken start }
{
    'each: for i in from..blocks.len() {
        keep_block::<P>(blocks, kept, i);
        kept += 1;
    }
    kept
}

// Leaves a block with the repair by which it went, if there is one behind the blocks that stay.
fn leave_block<P: Payload>(blocks: &mut Vec<Sealed<P>>, kept: usize, repair: &mut BlockRepair<P>)
    ensures { take kept blocks.new.items ≡ take kept blocks.old.items }
{
    if let BlockRepair::Gone = repair {
        if kept < blocks.len() {
            if let Some(block) = blocks.pop() {
                *repair = BlockRepair::Changed(block);
            }
        }
    }
}

// Leaves the blocks that went with their repairs. There are as many as repairs by which a block goes, so none is freed.
fn leave_gone<P: Payload>(
    blocks: &mut Vec<Sealed<P>>,
    kept: usize,
    repairs: &mut ListOf<BlockRepair<P>>,
)
    ensures { blocks.new.items ≡ take kept blocks.old.items }
{
    if blocks.len() <= kept {
        return;
    }
    'each: for i in 0..repairs.len() {
        leave_block::<P>(blocks, kept, repairs.get_mut(i));
    }
    blocks.truncate(kept);
}

/// The blocks with the repairs laid over the first of them.
pub(crate) fn mend<P: Payload>(
    mut blocks: Vec<Sealed<P>>,
    repairs: &mut ListOf<BlockRepair<P>>,
) -> Vec<Sealed<P>>
    requires { length repairs.old ≤ length blocks.items }
    ensures { result.items ≡ mended repairs.old blocks.items }
{
    let repaired = repairs.len();
    let kept = mend_first::<P>(&mut blocks, repairs);
    let kept = keep_behind::<P>(&mut blocks, kept, repaired);
    leave_gone::<P>(&mut blocks, kept, repairs);
    blocks
}
