//! The live entries of a block are counted, and written anew.
ghost use Rattle.std.specs.Prelude.{◌≡◌, ◌<◌, ◌≤◌, ◌+◌, ◌++◌, ◌∷◌, [], ◌↔◌, if◌then◌else◌, filter, length, IfOk, OnOk, List, ℕ};
ghost use Rattle.posting_block.specs.Rising.{last_id};
ghost use Rattle.posting_block.specs.Places.{IsFound};
ghost use Rattle.gc_splice.specs.Alive.{alive};

use crate::live::Live;
use ft_base::NoMemory;
use posting_block::{Block, Found, Payload};
use std::alloc::Global;

// How many of the ids are live.
fn live_among<L: Live>(ids: &[u64], live: &L) -> usize
    ensures { result ≡ length (filter (L.is live.now) ids.now) }
{
    ids.iter().filter(|id| live.is_live(**id)).count()
}

/// How many entries of a block are live. The buffer has room for the ids of a block.
pub(crate) fn live_in<P: Payload, L: Live>(block: &Block<P>, live: &L, ids: &mut [u64]) -> usize
    requires { 100 ≤ length ids.old }
    ensures live { result ≡ length (alive (L.is live.now) block.now) }
    ensures few { result ≤ length block.now }
{
    if block.len() == 0 {
        return 0;
    }
    let len = block.ids_into(ids);
    live_among::<L>(&ids[..len], live)
}

// Adds an entry that was found, where it is live.
fn keep_one<P: Payload, L: Live>(
    kept: &mut Block<P>,
    block: &Block<P>,
    found: &Found,
    live: &L,
) -> Result<(), NoMemory>
    requires found { (done left : List (ℕ × P)) × (e : ℕ × P) × IsFound P.spelled block.now found.now done e left }
    requires above { last_id 0 kept.old < found.now.id }
    requires room { length kept.old < 100 }
    ensures { (done left : List (ℕ × P)) → (e : ℕ × P) → IsFound P.spelled block.now found.now done e left
        → OnOk result (kept.new ≡ kept.old ++ (if L.is live.now e.0 then e ∷ [] else [])) }
{
    if live.is_live(found.id) {
        kept.push_from(block, found)?;
    }
    Ok(())
}

/// A block without its dead entries.
pub fn keep_live<P: Payload, L: Live>(
    alloc: Global,
    block: &Block<P>,
    live: &L,
) -> Result<Block<P>, NoMemory>
    ensures { IfOk result (λ b. b ≡ alive (L.is live.now) block.now) }
{
    keep_in::<P, L>(Block::new(alloc), block, live)
}

/// The same, where so many entries are live. It takes about as much memory as they need, at once.
pub(crate) fn keep_so_many<P: Payload, L: Live>(
    alloc: Global,
    block: &Block<P>,
    live: &L,
    left: usize,
) -> Result<Block<P>, NoMemory>
    ensures { IfOk result (λ b. b ≡ alive (L.is live.now) block.now) }
{
    let bytes = block.bytes().len().saturating_mul(left) / block.len().max(1);
    keep_in::<P, L>(Block::with_room(alloc, bytes)?, block, live)
}

// Fills a block that is empty.
fn keep_in<P: Payload, L: Live>(
    empty: Block<P>,
    block: &Block<P>,
    live: &L,
) -> Result<Block<P>, NoMemory>
    requires { empty ≡ [] }
    ensures { IfOk result (λ b. b ≡ alive (L.is live.now) block.now) }
{
    let mut kept = empty;
    let mut at = 0;
    let mut before = 0;
    let len = block.len();
    'entries: for index in 0..len {
        let Some(found) = block.next(at, before) else {
            unreachable!();
        };
        keep_one::<P, L>(&mut kept, block, &found, live)?;
        at = found.to;
        before = found.id;
    }
    Ok(kept)
}
