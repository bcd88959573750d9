//! The turns of a collector: the scan of a part of an index, and the splice of one list that it pictured.
ghost use Rattle.std.specs.Prelude.{◌≡◌, ◌+◌};
ghost use Rattle.std.specs.List.{Contains};
ghost use Rattle.doc_table.specs.Pages.{has_id};
ghost use Rattle.history_core.specs.Entries.{Scan, Splice};
ghost use Rattle.ft_engine.specs.Kept.{scanned};
ghost use Rattle.ft_engine.specs.Pictures.{RepairsPicture};
ghost use Rattle.ft_server.specs.Passes.{AddsEntry, ChangesNothing, IsOf, TookLast, WasSpliced, last_scan};

use crate::logged_engine::LogEntry;
use crate::server::{Pass, Server};
use ft_base::NoMemory;
use ft_index::{AnyRepair, NamedPicture, Snapshot};
use gc_splice::Spliced;
use id_iters::ListName;
use std::sync::Wait;
use turn_gate::Told;

/// What a scan's turn adds to the log: the scan with what it took.
#[derive(Drop)]
struct ScanNote<'a> {
    index: &'a [u8],
    taken: &'a Result<Option<Snapshot>, NoMemory>,
}

impl<'a> Told<LogEntry> for ScanNote<'a> {
    ghost use Rattle.std.specs.Prelude.{◌∷◌, [], refl};
    ghost use Rattle.std.proofs.Common.{arith};
    ghost use Rattle.history_core.specs.Entries.{Scan};
    ghost use Rattle.ft_engine.specs.Kept.{scanned};

    ghost size = { λ _. 1 };

    ghost entries = { λ note caller first seen. Scan caller note.index.now (scanned note.taken.now) ∷ [] };

    fn count(&self) -> u64 {
        1
    }

    ghost some = { λ _. Prim.omega arith };

    ghost sized = { λ note caller first seen. refl };

    ghost own = { λ note caller first seen. (refl, tt) };
}

/// What a splice's turn adds to the log: the splice of a list that the caller's last scan pictured, with its answer.
#[derive(Drop)]
struct SpliceNote<'a> {
    name: &'a ListName,
    answer: Spliced,
}

impl<'a> Told<LogEntry> for SpliceNote<'a> {
    ghost use Rattle.std.specs.Prelude.{◌∷◌, [], refl};
    ghost use Rattle.std.proofs.Common.{arith};
    ghost use Rattle.history_core.specs.Entries.{Splice};
    ghost use Rattle.ft_server.specs.Passes.{last_scan};

    ghost size = { λ _. 1 };

    ghost entries = { λ note caller first seen. Splice caller (last_scan caller seen) note.name.now note.answer ∷ [] };

    fn count(&self) -> u64 {
        1
    }

    ghost some = { λ _. Prim.omega arith };

    ghost sized = { λ note caller first seen. refl };

    ghost own = { λ note caller first seen. (refl, tt) };
}

/// Takes pictures of the next part of the lists of the index of a name, in a turn of this caller. None where there is no such
/// index. It may wait for its turn.
pub fn scan_turn<R: Wait>(
    rt: &R,
    server: &Server,
    pass: Pass,
    index: &[u8],
) -> (Pass, Result<Option<Snapshot>, NoMemory>)
    requires of { IsOf server.now pass }
    ensures of { IsOf server.now result.0 }
    ensures same { (result.0.caller ≡ pass.caller) × (result.0.alone ≡ pass.alone) }
    ensures turns { result.0.turns ≡ pass.turns + 1 }
    // The history goes on with entries of others, none where the pass is alone, and then with this scan.
    ensures entry { AddsEntry pass result.0 (Scan pass.caller index.now (scanned result.1)) }
{
    let mut turn = server.gate.enter(rt, pass);
    let taken = turn.state().engine.scan_next(index);
    let pass = server.gate.leave(
        turn,
        &ScanNote {
            index,
            taken: &taken,
        },
    );
    (pass, taken)
}

/// Splices the repair of a list that this caller's last scan pictured, in a turn of its own. It may wait for its turn. What the
/// splice takes out is freed behind the turn.
pub fn splice_turn<R: Wait>(
    rt: &R,
    server: &Server,
    pass: Pass,
    snapshot: &Snapshot,
    named: &NamedPicture,
    mut repair: AnyRepair,
) -> (Pass, Spliced)
    requires of { IsOf server.now pass }
    requires took { TookLast pass snapshot.now }
    requires there { Contains snapshot.now.lists named.now }
    requires repairs { RepairsPicture (has_id snapshot.now.live) named.now.picture repair }
    ensures of { IsOf server.now result.0 }
    ensures same { (result.0.caller ≡ pass.caller) × (result.0.alone ≡ pass.alone) }
    ensures turns { result.0.turns ≡ pass.turns + 1 }
    // The history goes on with entries of others, none where the pass is alone, and then with this splice.
    ensures entry { AddsEntry pass result.0
        (Splice pass.caller (last_scan pass.caller pass.seen) named.now.name result.1) }
    // A list that was spliced as that scan pictured it, by this caller or another, is not spliced so again.
    ensures again { WasSpliced pass.seen (last_scan pass.caller pass.seen) named.now.name → ChangesNothing result.1 }
{
    let mut turn = server.gate.enter(rt, pass);
    let answer = turn
        .state()
        .engine
        .splice(snapshot.serial, &named.name, &mut repair);
    let name = &named.name;
    let pass = server.gate.leave(turn, &SpliceNote { name, answer });
    (pass, answer)
}
