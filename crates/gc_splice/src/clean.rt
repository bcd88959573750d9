//! Whether a list has a dead entry.
ghost use Rattle.std.specs.Prelude.{◌≡◌, ◌≤◌, length};
ghost use Rattle.inverted_list.specs.Blocks.{joined};
ghost use Rattle.gc_splice.specs.Alive.{all_alive};

use crate::blocks::first_dead;
use crate::keep::live_in;
use crate::live::Live;
use crate::repair::MOST_ENTRIES;
use inverted_list::{List, Sealed};
use posting_block::{Block, Payload};

/// Whether each entry of a list is live. It takes no memory.
#[tactic(auto, using(crate::proofs::AliveLaws::all_append))]
pub fn is_clean<P: Payload, L: Live>(list: &List<P>, live: &L) -> bool
    ensures { result ≡ all_alive (L.is live.now) list.now.entries }
{
    let tail = list.tail();
    let mut ids = [0; MOST_ENTRIES];
    are_clean::<P, L>(list.sealed(), live, &mut ids) && is_live::<P, L>(tail, live, &mut ids)
}

// Whether each entry of blocks is live.
fn are_clean<P: Payload, L: Live>(blocks: &[Sealed<P>], live: &L, ids: &mut [u64]) -> bool
    requires { 100 ≤ length ids.old }
    ensures { result ≡ all_alive (L.is live.now) (joined blocks.now) }
{
    if first_dead::<P, L>(blocks, live, ids) < blocks.len() {
        return false;
    }
    true
}

// Whether each entry of a block is live.
fn is_live<P: Payload, L: Live>(block: &Block<P>, live: &L, ids: &mut [u64]) -> bool
    requires { 100 ≤ length ids.old }
    ensures { result ≡ all_alive (L.is live.now) block.now }
{
    if live_in::<P, L>(block, live, ids) < block.len() {
        return false;
    }
    true
}
