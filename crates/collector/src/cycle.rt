//! How a cycle ended, and what was done with one list of it.
ghost use Rattle.std.specs.Prelude.{◌≡◌};
ghost use Rattle.collector.specs.Ways.{ending};

use gc_splice::Spliced;

/// How a cycle ended.
#[derive(Clone, Copy)]
pub enum Cycle {
    /// Each pictured list with a dead entry was tried: so many were spliced, had moved on, and were gone. So many entries were
    /// taken out by the splices, of which 2^64 - 1 are told where there are more.
    Done {
        spliced: u64,
        moved: u64,
        gone: u64,
        removed: u64,
    },
    /// There is no index of the name.
    NoIndex,
    /// The pace said to stop.
    Stopped,
    /// Memory ran out in the scan or in a repair.
    NoMemory,
    /// There is no number left for the event of a splice.
    LastEvent,
}

/// What was done with one pictured list.
#[derive(Clone, Copy)]
pub(crate) enum Step {
    /// It has no dead entry.
    Clean,
    /// Its repair was tried, and this was the answer.
    Tried(Spliced),
    /// The pace said to stop.
    Stopped,
    /// Memory ran out in its repair.
    NoMemory,
}

/// The end of the cycle that a step brings, if it does.
pub(crate) fn end_of(step: Step) -> Option<Cycle>
    ensures { result ≡ ending step }
{
    match step {
        Step::Tried(Spliced::LastEvent) => Some(Cycle::LastEvent),
        Step::Clean | Step::Tried(_) => None,
        Step::Stopped => Some(Cycle::Stopped),
        Step::NoMemory => Some(Cycle::NoMemory),
    }
}
