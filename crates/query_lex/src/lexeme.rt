//! What a query's text is made of.
use ft_base::Bytes;

/// A lexeme, and the offset of its first byte.
#[derive(Drop)]
pub struct Lexeme {
    pub at: usize,
    pub kind: LexKind,
}

/// What a lexeme is. Words, prefixes and tags are without the backslashes that escape their bytes; the
/// inside of a quote is as it stands in the text.
pub enum LexKind {
    Word(Bytes),
    /// A word directly followed by `*`.
    Prefix(Bytes),
    /// The name behind a `$`.
    Param(Bytes),
    /// A parameter directly followed by `*`.
    ParamPrefix(Bytes),
    Quote(Bytes),
    /// A number or a value, in brackets or in the braces of attributes.
    Raw(Bytes),
    /// A piece of a tag brace. A prefix stands for each tag that begins with it.
    Tag { text: Bytes, prefix: bool },
    /// A form of query language that is left out, by its first byte or word: `%`, `*`, `w` or `W`.
    Foreign(Bytes),
    Sign(Sign),
}

// Written out, it is one step for whoever drops a lexeme, where a derived one has an arm for each kind.
impl Drop for LexKind {
    fn drop(self) {
        match self {
            LexKind::Word(bytes) => drop(bytes),
            LexKind::Prefix(bytes) => drop(bytes),
            LexKind::Param(bytes) => drop(bytes),
            LexKind::ParamPrefix(bytes) => drop(bytes),
            LexKind::Quote(bytes) => drop(bytes),
            LexKind::Raw(bytes) => drop(bytes),
            LexKind::Tag { text, prefix: _ } => drop(text),
            LexKind::Foreign(bytes) => drop(bytes),
            LexKind::Sign(_) => {}
        }
    }
}

/// A lexeme without bytes of its own.
#[derive(Clone, Copy)]
pub enum Sign {
    /// `*` alone.
    Star,
    Open,
    Close,
    Pipe,
    Minus,
    Tilde,
    At,
    Colon,
    /// `=>`
    Arrow,
    RangeOpen,
    RangeClose,
    TagOpen,
    TagClose,
    AttrOpen,
    AttrClose,
    Semi,
    /// A brace or bracket where none may stand, or a `*` that is the whole piece of a tag brace.
    Stray,
}
