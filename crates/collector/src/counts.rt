//! The answers of a cycle's splices are counted.
ghost use Rattle.std.specs.Prelude.{◌≡◌};
ghost use Rattle.collector.specs.Ways.{HasRoom, counted_step, ended};

use crate::cycle::{Cycle, Step};
use gc_splice::Spliced;

/// The lists that were spliced, had moved on and were gone, and the entries that were taken out, of which 2^64 - 1 are counted at
/// most.
#[derive(Clone, Copy)]
pub(crate) struct Counts {
    pub(crate) spliced: u64,
    pub(crate) moved: u64,
    pub(crate) gone: u64,
    pub(crate) removed: u64,
}

/// Nothing was tried yet.
pub(crate) const NOTHING: Counts = Counts {
    spliced: 0,
    moved: 0,
    gone: 0,
    removed: 0,
};

/// The counts behind a step more.
pub(crate) fn count_step(mut counts: Counts, step: Step) -> Counts
    requires { HasRoom counts }
    ensures { result ≡ counted_step counts step }
{
    match step {
        Step::Tried(Spliced::Done { removed, .. }) => {
            counts.spliced += 1;
            counts.removed = counts.removed.saturating_add(removed);
        }
        Step::Tried(Spliced::Moved { .. }) => counts.moved += 1,
        Step::Tried(Spliced::Gone) => counts.gone += 1,
        _ => {}
    }
    counts
}

/// The end of a cycle in which each list was tried.
pub(crate) fn done_with(counts: Counts) -> Cycle
    ensures { result ≡ ended counts }
{
    Cycle::Done {
        spliced: counts.spliced,
        moved: counts.moved,
        gone: counts.gone,
        removed: counts.removed,
    }
}
