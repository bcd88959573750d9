//! Repairs of pictures, made away from the lists.
ghost use Rattle.std.specs.Prelude.{◌≡◌, ◌≤◌, if◌then◌else◌, length, take, IfOk, IfSome, MatchOption, None, Some, true, false};
ghost use Rattle.inverted_list.specs.Blocks.{entries, joined};
ghost use Rattle.gc_splice.specs.Alive.{all_alive};
ghost use Rattle.gc_splice.specs.Repaired.{repaired};

use crate::blocks::{first_dead, repair_blocks};
use crate::keep::{keep_live, live_in};
use crate::live::Live;
use ft_base::{ListOf, NoMemory};
use inverted_list::{Marker, Picture, Sealed};
use posting_block::{Block, Payload};
use std::alloc::Global;

/// The most entries of a block, and so the ids that are read at once.
pub(crate) const MOST_ENTRIES: usize = 100;

/// What a repair makes of one sealed block.
#[derive(Drop)]
pub enum BlockRepair<P: Payload> {
    /// It has no dead entry, and stays as it is.
    Same,
    /// It has no live entry.
    Gone,
    /// Its live entries, written anew.
    Changed(Sealed<P>),
}

/// What a repair makes of a list that was pictured.
pub struct Repair<P: Payload> {
    /// The marker of the list when it was pictured.
    pub seen: Marker,
    /// What becomes of each sealed block, in their order.
    pub sealed: ListOf<BlockRepair<P>>,
    /// The live entries of the tail.
    pub tail: Block<P>,
    /// The number of entries that the tail had.
    pub tail_len: usize,
}

// Written out, it is one step for whoever drops a repair.
impl<P: Payload> Drop for Repair<P> {
    fn drop(self) {
        let Repair {
            seen: _,
            sealed,
            tail,
            tail_len: _,
        } = self;
        drop(sealed);
        drop(tail);
    }
}

// The number of the first sealed block that has a dead entry, and of the blocks where only the tail has one.
fn first_dead_of<P: Payload, L: Live>(
    picture: &Picture<P>,
    live: &L,
    ids: &mut [u64],
) -> Option<usize>
    requires { 100 ≤ length ids.old }
    ensures dead { MatchOption result
        (all_alive (L.is live.now) (entries picture.now) ≡ true)
        (λ _. all_alive (L.is live.now) (entries picture.now) ≡ false) }
    ensures within { IfSome result (λ front. front ≤ length picture.now.sealed) }
    ensures before { IfSome result (λ front.
        all_alive (L.is live.now) (joined (take front picture.now.sealed)) ≡ true) }
{
    let blocks = picture.sealed.as_slice();
    let front = first_dead::<P, L>(blocks, live, ids);
    if front == blocks.len() && live_in::<P, L>(&picture.tail, live, ids) == picture.tail.len() {
        return None;
    }
    Some(front)
}

// What a repair makes of a list that was pictured, of whose sealed blocks the first `front` have no dead entry.
fn repair_from<P: Payload, L: Live>(
    alloc: Global,
    picture: &Picture<P>,
    front: usize,
    live: &L,
    ids: &mut [u64],
) -> Result<Repair<P>, NoMemory>
    requires room { 100 ≤ length ids.old }
    requires within { front ≤ length picture.now.sealed }
    requires live { all_alive (L.is live.now) (joined (take front picture.now.sealed)) ≡ true }
    ensures { IfOk result (λ repair. repair ≡ repaired (L.is live.now) picture.now) }
{
    let blocks = picture.sealed.as_slice();
    Ok(Repair {
        seen: picture.marker,
        sealed: repair_blocks::<P, L>(alloc, blocks, front, live, ids)?,
        tail: keep_live::<P, L>(alloc, &picture.tail, live)?,
        tail_len: picture.tail.len(),
    })
}

/// What a repair makes of a list that was pictured, and None where the list has no dead entry.
pub fn repair_here<P: Payload, L: Live>(
    alloc: Global,
    picture: &Picture<P>,
    live: &L,
) -> Result<Option<Repair<P>>, NoMemory>
    ensures { IfOk result (λ o. o ≡ (if all_alive (L.is live.now) (entries picture.now)
        then None
        else Some (repaired (L.is live.now) picture.now))) }
{
    let mut ids = [0; MOST_ENTRIES];
    let Some(front) = first_dead_of::<P, L>(picture, live, &mut ids) else {
        return Ok(None);
    };
    let repair = repair_from::<P, L>(alloc, picture, front, live, &mut ids)?;
    Ok(Some(repair))
}
