//! A list without its dead entries, in one step.
ghost use Rattle.std.specs.Prelude.{◌≡◌, ℕ, Bool, if◌then◌else◌, IfOk, None, Some, true, false, OnOk, OnErr};
ghost use Rattle.inverted_list.specs.Listing.{marker_of};
ghost use Rattle.gc_splice.specs.Alive.{alive, all_alive};
ghost use Rattle.gc_splice.specs.Markers.{marker_after};
ghost use Rattle.gc_splice.specs.Repaired.{repaired};
ghost use Rattle.gc_splice.specs.Splice.{BlocksComeFirst, Fits, picture_of, spliced};

use crate::live::Live;
use crate::repair::{Repair, repair_here};
use crate::splice::splice_list;
use ft_base::NoMemory;
use inverted_list::{List, Markers};
use posting_block::Payload;
use std::alloc::Global;

// The repair of a list as it is now, and None where it has no dead entry. The list's parts are taken out and put back, so
// that no block is shared for it and no tail copied.
fn repair_of<P: Payload, L: Live>(
    alloc: Global,
    list: &mut List<P>,
    live: &L,
) -> Result<Option<Repair<P>>, NoMemory>
    ensures same { list.new ≡ list.old }
    ensures repair { IfOk result (λ o. o ≡ (if all_alive (L.is live.now) list.old.entries
        then None
        else Some (repaired (L.is live.now) (picture_of list.old)))) }
    ensures blocks { BlocksComeFirst list.old }
{
    let parts = list.take_parts();
    let made = repair_here::<P, L>(alloc, &parts, live);
    list.put_parts(parts);
    made
}

// Lays a repair over a list, which then has the next marker. No marker left is out of memory.
fn splice_next<P: Payload>(
    list: &mut List<P>,
    repair: &mut Repair<P>,
    markers: &mut Markers,
) -> Result<(), NoMemory>
    requires { repair.old.seen ≡ list.old.marker
        → (live : ℕ → Bool) × Fits live repair.old (picture_of list.old) }
    ensures ok { repair.old.seen ≡ list.old.marker
        → OnOk result (list.new ≡ spliced list.old repair.old (marker_of markers.old)) }
    ensures next { OnOk result (markers.new ≡ marker_after markers.old) }
    ensures err { OnErr result ((list.new ≡ list.old) × (markers.new ≡ markers.old)) }
{
    let Some(marker) = markers.take() else {
        return Err(NoMemory);
    };
    splice_list::<P>(list, repair, marker);
    Ok(())
}

/// Takes the dead entries out of a list, which then has the next marker. A list without dead entries stays as it is, and no
/// marker is given. Where there is no marker left, that is out of memory.
pub fn collect_list<P: Payload, L: Live>(
    alloc: Global,
    list: &mut List<P>,
    live: &L,
    markers: &mut Markers,
) -> Result<(), NoMemory>
    ensures entries { OnOk result (list.new.entries ≡ alive (L.is live.now) list.old.entries) }
    ensures clean { all_alive (L.is live.now) list.old.entries ≡ true
        → (list.new ≡ list.old) × (markers.new ≡ markers.old) }
    ensures marker { all_alive (L.is live.now) list.old.entries ≡ false
        → OnOk result ((list.new.marker ≡ marker_of markers.old) × (markers.new ≡ marker_after markers.old)) }
    ensures err { OnErr result ((list.new ≡ list.old) × (markers.new ≡ markers.old)) }
{
    let Some(mut repair) = repair_of::<P, L>(alloc, list, live)? else {
        return Ok(());
    };
    splice_next::<P>(list, &mut repair, markers)
}
