//! Rows of text: what each part is, and whether a reply is as a row has it, with a blank in place of each end of a line.

/// What stands before the first `=` of a row, and what stands behind it.
pub fn cut(row: &[u8]) -> (&[u8], &[u8]) {
    match row.iter().position(|byte| *byte == b'=') {
        Some(at) => (row[..at].trim_ascii(), row[at + 1..].trim_ascii()),
        None => (row.trim_ascii(), b""),
    }
}

/// What a row has behind a reply that it begins with; None where it does not. Blanks at its end may be left out.
pub fn behind<'a>(reply: &[u8], want: &'a [u8]) -> Option<&'a [u8]> {
    let mut rest = want;
    for byte in reply {
        match (byte, rest) {
            (b'\r', _) => {}
            (b'\n', [b' ', others @ ..]) => rest = others,
            (b'\n', []) => {}
            (_, [first, others @ ..]) if byte == first => rest = others,
            _ => return None,
        }
    }
    Some(rest)
}

/// Whether a reply is as a row has it.
pub fn is_spelled(reply: &[u8], want: &[u8]) -> bool {
    match behind(reply, want) {
        Some(rest) => rest.is_empty(),
        None => false,
    }
}
