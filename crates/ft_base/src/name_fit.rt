//! What a command's first word and its number of words say of it.

/// Whether a command's name is known, and its number of words one that a command of that name may have.
#[derive(Clone, Copy, PartialEq, Eq)]
pub enum NameFit {
    /// The name is known, and the number of words may be.
    Fits,
    /// No command has this name.
    Unknown,
    /// A command of this name has more words, or fewer.
    Arity,
}
