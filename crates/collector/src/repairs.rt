//! The repair of a picture, by the kind of its list.
ghost use Rattle.std.specs.Prelude.{◌≡◌, true};
ghost use Rattle.doc_table.specs.Pages.{has_id};
ghost use Rattle.ft_engine.specs.Pictures.{RepairsPicture, all_in};
ghost use Rattle.history_core.specs.Running.{Repairs};

use ft_base::NoMemory;
use ft_index::{AnyPicture, AnyRepair, Snapshot};
use gc_scan::repair;
use posting_block::{NumHit, TagHit, TextHit};
use std::alloc::Global;
use std::thread::Threads;

/// What a repair makes of a picture of a snapshot, and None exactly where each of its entries was live at the scan. It holds up
/// nobody, and a long list's blocks are repaired side by side.
pub fn repair_any<R: Threads + Sync>(
    rt: &R,
    alloc: Global,
    picture: &AnyPicture,
    snapshot: &Snapshot,
) -> Result<Option<AnyRepair>, NoMemory>
    ensures { Repairs (λ p. all_in (has_id snapshot.now.live) p ≡ true) (RepairsPicture (has_id snapshot.now.live)) picture.now result }
{
    match picture {
        AnyPicture::Word(list) => {
            let made = repair::<TextHit, Snapshot>(rt, alloc, list, snapshot)?;
            Ok(made.map(AnyRepair::Word))
        }
        AnyPicture::Tag(list) => {
            let made = repair::<TagHit, Snapshot>(rt, alloc, list, snapshot)?;
            Ok(made.map(AnyRepair::Tag))
        }
        AnyPicture::Range(list) => {
            let made = repair::<NumHit, Snapshot>(rt, alloc, list, snapshot)?;
            Ok(made.map(AnyRepair::Range))
        }
    }
}
