//! The collector's cycle: a scan of a part of an index, and the splices of what it pictured.
//!
//! A cycle has its work in turns of its own: one for the scan, and one for each splice. Each pictured list is repaired beside
//! them, while commands go on, and the pace is asked behind each repair. Read `specs/Cycles.antt`, which says what a cycle does,
//! then `src/cycle.rt` and `src/collecting.rt`.
#![tactic(auto)]

mod collecting;
mod counts;
mod cycle;
mod repairs;

/// One cycle.
pub use collecting::collect_cycle;
/// How a cycle ended.
pub use cycle::Cycle;
/// The repair of a picture, of whatever kind its list is.
pub use repairs::repair_any;
