//! Bytes of a query's text, and what comes next in it.
ghost use Rattle.std.specs.Prelude.{◌≡◌, ◌≤◌, [], ◌∷◌, drop, length, IfSome, IfNone};
ghost use Rattle.query_lex.specs.Bytes.{begins_word, is_of_name, comes, is_at};
ghost use Rattle.ft_base.specs.Separators.{is_separator};

use ft_base::is_separator;

/// Whether the byte is of a word, or a backslash.
pub fn begins_word(byte: u8) -> bool
    ensures { result ≡ begins_word byte }
{
    byte == b'\\' || !is_separator(byte)
}

/// Whether the byte may be of a parameter's name.
pub fn is_of_name(byte: u8) -> bool
    ensures { result ≡ is_of_name byte }
{
    matches!(byte, b'0'..=b'9' | b'A'..=b'Z' | b'_' | b'a'..=b'z')
}

/// Whether a separator comes next.
pub fn separator_comes(bytes: &[u8]) -> bool
    ensures { result ≡ comes is_separator bytes.now }
{
    match bytes {
        [] => false,
        [byte, ..] => is_separator(*byte),
    }
}

/// Whether a word comes next.
pub fn word_comes(bytes: &[u8]) -> bool
    ensures { result ≡ comes begins_word bytes.now }
{
    match bytes {
        [] => false,
        [byte, ..] => begins_word(*byte),
    }
}

/// Whether this byte comes next.
pub fn is_at(byte: u8, bytes: &[u8]) -> bool
    ensures { result ≡ is_at byte bytes.now }
{
    match bytes {
        [] => false,
        [first, ..] => *first == byte,
    }
}

/// The bytes behind the first.
pub fn past(bytes: &[u8]) -> &[u8]
    ensures rest { result.now ≡ drop 1 bytes.now }
    ensures within { length result.now ≤ length bytes.now }
{
    match bytes {
        [] => bytes,
        [_, rest @ ..] => rest,
    }
}

/// The first byte, and those behind it.
pub fn first(bytes: &[u8]) -> Option<(u8, &[u8])>
    ensures some { IfSome result (λ x. bytes.now ≡ x.0 ∷ x.1.now) }
    ensures none { IfNone result (bytes.now ≡ []) }
{
    match bytes {
        [] => None,
        [first, rest @ ..] => Some((*first, rest)),
    }
}
