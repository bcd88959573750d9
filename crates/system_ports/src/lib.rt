//! The ports of `fs_ports` over the system: its streams, its clock, connections on 127.0.0.1, and threads.
//!
//! Each keeps the clauses of its trait, counts each call that fails, and tells no bytes, no links and no moments, since the
//! system tells none. Begin with `tcp.rt`, the doors and connections of a server.
#![tactic(auto)]

mod making;
mod sleep_pace;
mod std_link;
mod tcp;
mod threads;

pub use making::{NoDoors, make_clocks, make_doors, make_pace};
pub use sleep_pace::SleepPace;
pub use std_link::{StdLink, SystemClock};
pub use tcp::{TcpDoor, TcpLink};
pub use threads::{Awaits, Doing, ThreadSpawner, start_thread};
