//! The numbers that FT.INFO tells.

/// How many documents an index has, how many entries its lists have, how often a hash failed to be
/// indexed, and how many cursors are open on it.
#[derive(Clone, Copy)]
pub struct Counts {
    pub docs: u64,
    pub records: u64,
    pub failures: u64,
    pub cursors: u64,
}
