//! Raw bytes in brackets and in the braces of attributes, as they stand.
ghost use Rattle.std.specs.Prelude.{◌<◌, ◌≤◌, length, Ok, IfOk, IfSome};
ghost use Rattle.query_lex.specs.Gives.{Gives, GivesNext};
ghost use Rattle.query_lex.specs.Reading.{with_first, run_at};
ghost use Rattle.query_lex.specs.Raw.{raw_byte_at, next_raw, raw_at};

use crate::context::Context;
use crate::fault::{Cause, Stop};
use crate::lexeme::LexKind;
use crate::role::is_raw;
use crate::separators::separator_comes;
use ft_base::Bytes;
use std::alloc::Global;

/// A byte that is kept, before the bytes `rest`.
fn raw_byte(byte: u8, rest: &[u8]) -> Result<(u8, &[u8]), Stop>
    ensures read { Gives (λ x. (x.0, x.1.now)) result (raw_byte_at byte rest.now) }
    ensures within { IfOk result (λ x. length x.1.now ≤ length rest.now) }
{
    if byte == b'\\' && !separator_comes(rest) {
        return Err(Stop::Fault {
            cause: Cause::LoneEscape,
            left: rest.len() + 1,
        });
    }
    Ok((byte, rest))
}

/// The next byte of a run.
#[tactic(auto, unfolding(crate::specs::Raw::next_raw))]
fn next_raw(context: Context, bytes: &[u8]) -> Result<Option<(u8, &[u8])>, Stop>
    ensures read { GivesNext (λ x. (x.0, x.1.now)) result (next_raw context bytes.now) }
    ensures shorter { IfOk result
        (λ next. IfSome next (λ x. length x.1.now < length bytes.now)) }
{
    match bytes {
        [byte, rest @ ..] if is_raw(context, *byte) => match raw_byte(*byte, rest) {
            Ok(read) => Ok(Some(read)),
            Err(stop) => Err(stop),
        },
        _ => Ok(None),
    }
}

/// The longest run, behind its first byte.
fn others(alloc: Global, context: Context, first: u8, bytes: &[u8]) -> Result<(Bytes, &[u8]), Stop>
    ensures read { Gives (λ x. (x.0, x.1.now)) result
        (with_first first (run_at (next_raw context) bytes.now)) }
    ensures within { IfOk result (λ x. length x.1.now ≤ length bytes.now) }
{
    let mut run = Bytes::new(alloc);
    run.push(first)?;
    let mut rest = bytes;
    'reading: loop {
        match next_raw(context, rest) {
            Ok(Some((byte, behind))) => {
                run.push(byte)?;
                rest = behind;
            }
            Ok(None) => return Ok((run, rest)),
            Err(stop) => return Err(stop),
        }
    }
}

/// A longest run of raw bytes, of which this is the first.
#[tactic(auto, unfolding(crate::specs::Raw::raw_at))]
pub fn raw(
    alloc: Global,
    context: Context,
    first: u8,
    bytes: &[u8],
) -> Result<(Option<LexKind>, &[u8]), Stop>
    ensures read { Gives (λ x. (x.0, x.1.now)) result (raw_at context first bytes.now) }
    ensures within { IfOk result (λ x. length x.1.now ≤ length bytes.now) }
{
    let (first, rest) = match raw_byte(first, bytes) {
        Ok(read) => read,
        Err(stop) => return Err(stop),
    };
    match others(alloc, context, first, rest) {
        Ok((run, rest)) => Ok((Some(LexKind::Raw(run)), rest)),
        Err(stop) => Err(stop),
    }
}
