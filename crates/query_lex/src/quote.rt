//! Quotes: from a `"` to the next one that no backslash escapes.
ghost use Rattle.std.specs.Prelude.{◌≡◌, ◌<◌, ◌≤◌, ◌++◌, [], ◌∷◌, ◌==◌, length, not};
ghost use Rattle.std.specs.Prelude.{IfOk, IfSome, IfNone, OnOk};
ghost use Rattle.query_lex.specs.Gives.{Gives, GivesNext};
ghost use Rattle.query_lex.specs.Reading.{stop_at};
ghost use Rattle.query_lex.specs.Quotes.{spelled, is_closed, lone_or_open};
ghost use Rattle.query_lex.specs.Quotes.{quoted_escape_at, next_quoted, quoted_at, quote_at};

use crate::fault::{Cause, Stop};
use crate::lexeme::LexKind;
use crate::separators::past;
use crate::text_byte::{TextByte, escaped, plain};
use ft_base::{Bytes, NoMemory, is_separator};
use std::alloc::Global;

/// The bytes of an open quote behind the next one and what it escapes; none where the quote or the
/// text ends.
fn past_quoted(bytes: &[u8]) -> Option<&[u8]>
    ensures more { IfSome result (λ rest. is_closed bytes.now ≡ is_closed rest.now) }
    ensures shorter { IfSome result (λ rest. length rest.now < length bytes.now) }
    ensures closed { IfNone result (is_closed bytes.now ≡ not (length bytes.now == 0)) }
{
    match bytes {
        [] | [b'"', ..] => None,
        [b'\\', escaped, rest @ ..] if is_separator(*escaped) => Some(rest),
        [_, rest @ ..] => Some(rest),
    }
}

/// Whether a quote that has these bytes left is closed.
fn is_closed(bytes: &[u8]) -> bool
    ensures { result ≡ is_closed bytes.now }
{
    let mut rest = bytes;
    'closing: while let Some(behind) = past_quoted(rest) {
        rest = behind;
    }
    !rest.is_empty()
}

/// The fault of a backslash before the bytes `rest`, in a quote with the bytes `inside`.
fn lone_or_open(inside: &[u8], rest: &[u8]) -> Stop
    ensures { result ≡ lone_or_open inside.now rest.now }
{
    if is_closed(rest) {
        Stop::Fault {
            cause: Cause::LoneEscape,
            left: rest.len() + 1,
        }
    } else {
        open_quote(inside)
    }
}

/// The fault of a quote with these bytes behind its first.
fn open_quote(inside: &[u8]) -> Stop
    ensures { result ≡ stop_at Cause.OpenQuote (34 ∷ inside.now) }
{
    Stop::Fault {
        cause: Cause::OpenQuote,
        left: inside.len() + 1,
    }
}

/// The byte that a backslash before the bytes escapes.
fn quoted_escape<'a>(inside: &[u8], bytes: &'a [u8]) -> Result<Option<(TextByte, &'a [u8])>, Stop>
    ensures read { GivesNext (λ x. (x.0, x.1.now)) result (quoted_escape_at inside.now bytes.now) }
    ensures within { IfOk result (λ next. IfSome next (λ x. length x.1.now ≤ length bytes.now)) }
{
    match bytes {
        [byte, rest @ ..] if is_separator(*byte) => Ok(Some((escaped(*byte), rest))),
        _ => Err(lone_or_open(inside, bytes)),
    }
}

/// The next byte in a quote.
#[tactic(auto, unfolding(crate::specs::Quotes::next_quoted))]
fn next_quoted<'a>(inside: &[u8], bytes: &'a [u8]) -> Result<Option<(TextByte, &'a [u8])>, Stop>
    ensures read { GivesNext (λ x. (x.0, x.1.now)) result (next_quoted inside.now bytes.now) }
    ensures shorter { IfOk result
        (λ next. IfSome next (λ x. length x.1.now < length bytes.now)) }
{
    match bytes {
        [] => Err(open_quote(inside)),
        [b'"', ..] => Ok(None),
        [b'\\', rest @ ..] => quoted_escape(inside, rest),
        [byte, rest @ ..] => Ok(Some((plain(*byte), rest))),
    }
}

/// Adds a byte as it stands in the text.
fn add(text: &mut Bytes, byte: TextByte) -> Result<(), NoMemory>
    ensures { OnOk result (text.new ≡ text.old ++ spelled (byte ∷ [])) }
{
    if byte.escaped {
        text.push(b'\\')?;
    }
    text.push(byte.byte)
}

/// What is in a quote, and the bytes from its end on.
fn quoted<'a>(alloc: Global, inside: &'a [u8]) -> Result<(Bytes, &'a [u8]), Stop>
    ensures read { Gives (λ x. (x.0, x.1.now)) result
        (quoted_at inside.now) }
    ensures within { IfOk result (λ x. length x.1.now ≤ length inside.now) }
{
    let mut text = Bytes::new(alloc);
    let mut rest = inside;
    'reading: loop {
        match next_quoted(inside, rest) {
            Ok(Some((byte, behind))) => {
                add(&mut text, byte)?;
                rest = behind;
            }
            Ok(None) => return Ok((text, rest)),
            Err(stop) => return Err(stop),
        }
    }
}

/// A quote with these bytes behind its first.
#[tactic(auto, unfolding(crate::specs::Quotes::quote_at))]
pub fn quote(alloc: Global, inside: &[u8]) -> Result<(Option<LexKind>, &[u8]), Stop>
    ensures read { Gives (λ x. (x.0, x.1.now)) result (quote_at inside.now) }
    ensures within { IfOk result (λ x. length x.1.now ≤ length inside.now) }
{
    match quoted(alloc, inside) {
        Ok((text, rest)) => Ok((Some(LexKind::Quote(text)), past(rest))),
        Err(stop) => Err(stop),
    }
}
