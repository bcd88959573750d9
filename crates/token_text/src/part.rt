//! Where the word of a token lies.

/// A part of a buffer, from a place up to another.
#[derive(Clone, Copy, Drop)]
pub(crate) struct Part {
    pub from: u32,
    pub to: u32,
}
