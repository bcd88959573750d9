//! What a machine is asked, and what that came to.
use ft_base::{Bytes, Frame};

/// What a machine is asked.
#[derive(Drop)]
pub enum Event {
    /// A caller's command, at a moment in milliseconds.
    Exec {
        caller: u64,
        now: u64,
        frame: Frame,
    },
    /// A scan of the index of a name.
    Scan {
        caller: u64,
        index: Bytes,
    },
    /// A splice of a list that was pictured: the list of a number of the scan of a number, both from 0, the scans
    /// counted among those of this run.
    Splice {
        caller: u64,
        scan: usize,
        list: usize,
    },
}

/// What an event came to, where `A` is what a splice answers.
#[derive(Drop)]
pub enum Outcome<A> {
    /// A command was executed, and this is its reply.
    Replied(Bytes),
    /// A scan pictured so many lists.
    Scanned { lists: usize },
    /// There is no index that could be scanned.
    NoIndex,
    /// A repair was laid over the list, and this is what became of it.
    Spliced(A),
    /// The picture has no dead entry, so nothing was done.
    Clean,
    /// There is no such picture, so nothing was done.
    NoPicture,
    /// Memory ran out in a scan, or before a splice, for the repair.
    NoMemory,
}
