//! Workers that serve the links of doors side by side, and a collector, each in a thread of its own, over one server.
//!
//! `serve` makes a worker for each door and one collector, starts them all and waits for them. A worker serves one link after
//! another; what it did is told by the pass, the door and the clock that come back (`specs/Visits.antt`). The collector works in
//! rounds; what it did is told by the pass and the pace that come back (`specs/Rounds.antt`).
//! Read `specs/Jobs.antt` and `serving.rt` first, then `work.rt`, `worker.rt` and `rounds.rt`.
#![tactic(auto)]

mod jobs;
mod names;
mod rounds;
mod serving;
mod starting;
mod waiting;
mod work;
mod worker;

/// All doors served, until each has ended or failed.
pub use serving::serve;
/// What a thread does, and what it gives back.
pub use work::{Work, Worked};
