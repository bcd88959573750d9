//! What a plan is made from.
use crate::known::Known;
use crate::room::Room;
use ft_base::{Fields, IndexDef};
use std::alloc::Global;

/// The definition of an index and its lists, where a reader starts: behind an id, in some lists at places that are known, and what
/// its leaves may take.
#[derive(Drop)]
pub struct Sources<'a, 'h, T> {
    pub alloc: Global,
    pub def: &'a IndexDef,
    pub lists: &'a T,
    pub known: &'a Known<'h>,
    pub after: u64,
    pub room: Room,
}

/// Which hits of a list count: of a word those in some fields, of a range the numbers from `low` to `high`. What does
/// not belong to the kind of list is not looked at.
#[derive(Clone, Copy)]
pub struct Wanted<'a> {
    pub fields: &'a Fields,
    pub low: i64,
    pub high: i64,
}
