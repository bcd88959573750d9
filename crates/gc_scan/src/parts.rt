//! The parts of a repair are put together, where anything is dead.
ghost use Rattle.std.specs.Prelude.{◌≡◌, if◌then◌else◌, map, ℕ, Bool, None, Some};
ghost use Rattle.std.specs.List.{list_all};
ghost use Rattle.inverted_list.specs.Blocks.{entries};
ghost use Rattle.gc_splice.specs.Alive.{alive, all_alive};
ghost use Rattle.gc_splice.specs.Repaired.{repair_of_block, repaired};
ghost use Rattle.gc_scan.specs.Staying.{stays};

use ft_base::ListOf;
use gc_splice::{BlockRepair, Repair};
use inverted_list::Picture;
use posting_block::{Block, Payload};

// Whether a block stays as it is.
fn stays<P: Payload>(repair: &BlockRepair<P>) -> bool
    ensures { result ≡ stays repair.now }
{
    matches!(repair, BlockRepair::Same)
}

// Whether each block stays as it is.
fn all_stay<P: Payload>(repairs: &[BlockRepair<P>]) -> bool
    ensures { result ≡ list_all stays repairs.now }
{
    repairs.iter().all(|repair| stays::<P>(repair))
}

/// The repair of a picture from what becomes of its blocks and of its tail, and None where each entry of both is live.
pub(crate) fn repair_of<P: Payload>(
    picture: &Picture<P>,
    sealed: Vec<BlockRepair<P>>,
    tail: Block<P>,
) -> Option<Repair<P>>
    ensures { (live : ℕ → Bool) → sealed.items ≡ map (repair_of_block live) picture.now.sealed
        → tail ≡ alive live picture.now.tail
        → result ≡ (if all_alive live (entries picture.now) then None else Some (repaired live picture.now)) }
{
    if all_stay::<P>(sealed.as_slice()) && tail.len() == picture.tail.len() {
        return None;
    }
    Some(Repair {
        seen: picture.marker,
        sealed: ListOf::from_vec(sealed),
        tail,
        tail_len: picture.tail.len(),
    })
}
