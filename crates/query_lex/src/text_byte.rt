//! Bytes of a text that a backslash may escape.
ghost use Rattle.std.specs.Prelude.{◌≡◌};
ghost use Rattle.query_lex.specs.Quotes.{plain, escaped};

/// A byte of a text, and whether a backslash before it escapes it.
#[derive(Clone, Copy)]
pub struct TextByte {
    pub byte: u8,
    pub escaped: bool,
}

/// A byte that stands for itself.
pub fn plain(byte: u8) -> TextByte
    ensures { result ≡ plain byte }
{
    TextByte {
        byte,
        escaped: false,
    }
}

/// A byte behind a backslash.
pub fn escaped(byte: u8) -> TextByte
    ensures { result ≡ escaped byte }
{
    TextByte {
        byte,
        escaped: true,
    }
}
