//! The pieces of a tag brace: parameters, tags and prefixes of tags.
ghost use Rattle.std.specs.Prelude.{◌≡◌, ◌<◌, ◌≤◌, [], length, Ok, IfOk, IfSome};
ghost use Rattle.std.specs.List.{list_all};
ghost use Rattle.query_lex.specs.Gives.{Gives, GivesNext};
ghost use Rattle.query_lex.specs.Reading.{with_first, run_at};
ghost use Rattle.query_lex.specs.Pieces.{tag_escape_at, tag_byte_at, next_of_tag, is_plain, trimmed};
ghost use Rattle.query_lex.specs.Pieces.{bytes_of, is_plain_of_name, is_name, is_param, ends_in};
ghost use Rattle.query_lex.specs.Pieces.{starred_kind, piece_kind, piece_at};

use crate::fault::{Cause, Stop};
use crate::lexeme::{LexKind, Sign};
use crate::separators::is_of_name;
use crate::text_byte::{TextByte, escaped, plain};
use ft_base::{Bytes, NoMemory};
use std::alloc::Global;

/// The byte that a backslash before the bytes escapes.
fn tag_escape(bytes: &[u8]) -> Result<(TextByte, &[u8]), Stop>
    ensures read { Gives (λ x. (x.0, x.1.now)) result (tag_escape_at bytes.now) }
    ensures within { IfOk result (λ x. length x.1.now ≤ length bytes.now) }
{
    match bytes {
        [] => Err(Stop::Fault {
            cause: Cause::LoneEscape,
            left: 1,
        }),
        [byte, rest @ ..] => Ok((escaped(*byte), rest)),
    }
}

/// The byte of a piece that this byte is, or that it escapes.
fn tag_byte(first: u8, bytes: &[u8]) -> Result<(TextByte, &[u8]), Stop>
    ensures read { Gives (λ x. (x.0, x.1.now)) result (tag_byte_at first bytes.now) }
    ensures within { IfOk result (λ x. length x.1.now ≤ length bytes.now) }
{
    if first == b'\\' {
        tag_escape(bytes)
    } else {
        Ok((plain(first), bytes))
    }
}

/// The next byte of a piece.
#[tactic(auto, unfolding(crate::specs::Pieces::next_of_tag))]
fn next_of_tag(bytes: &[u8]) -> Result<Option<(TextByte, &[u8])>, Stop>
    ensures read { GivesNext (λ x. (x.0, x.1.now)) result (next_of_tag bytes.now) }
    ensures shorter { IfOk result
        (λ next. IfSome next (λ x. length x.1.now < length bytes.now)) }
{
    match bytes {
        [] | [b'|' | b'}', ..] => Ok(None),
        [first, rest @ ..] => match tag_byte(*first, rest) {
            Ok(read) => Ok(Some(read)),
            Err(stop) => Err(stop),
        },
    }
}

/// The bytes of a piece up to its end, behind the first.
fn others(alloc: Global, first: TextByte, bytes: &[u8]) -> Result<(Vec<TextByte>, &[u8]), Stop>
    ensures read { Gives (λ x. (x.0.items, x.1.now)) result
        (with_first first (run_at next_of_tag bytes.now)) }
    ensures within { IfOk result (λ x. length x.1.now ≤ length bytes.now) }
{
    let mut piece = Vec::new(alloc);
    piece.push(first)?;
    let mut rest = bytes;
    'reading: loop {
        match next_of_tag(rest) {
            Ok(Some((byte, behind))) => {
                piece.push(byte)?;
                rest = behind;
            }
            Ok(None) => return Ok((piece, rest)),
            Err(stop) => return Err(stop),
        }
    }
}

/// Whether it is this byte, and not escaped.
fn is_plain(byte: u8, unit: TextByte) -> bool
    ensures { result ≡ is_plain byte unit }
{
    !unit.escaped && unit.byte == byte
}

/// Whether the last byte is this one, and not escaped.
fn ends_in(byte: u8, piece: &[TextByte]) -> bool
    ensures { result ≡ ends_in byte piece.now }
{
    let (_, last) = piece.split_at(piece.len().saturating_sub(1));
    last.iter().any(|last| is_plain(byte, *last))
}

/// Takes the blanks at the end off that are not escaped.
fn trim(piece: &mut Vec<TextByte>)
    ensures { piece.new.items ≡ trimmed piece.old.items }
{
    'trimming: while ends_in(b' ', piece.as_slice()) {
        piece.pop();
    }
}

/// The bytes that a piece means.
fn bytes_of(alloc: Global, piece: &[TextByte]) -> Result<Bytes, NoMemory>
    ensures { IfOk result (λ bytes. bytes ≡ bytes_of piece.now) }
{
    let mut bytes = Vec::with_capacity(alloc, piece.len())?;
    for unit in piece {
        bytes.push(unit.byte)?;
    }
    Ok(Bytes::from_vec(bytes))
}

fn is_plain_of_name(unit: TextByte) -> bool
    ensures { result ≡ is_plain_of_name unit }
{
    !unit.escaped && is_of_name(unit.byte)
}

fn all_of_name(piece: &[TextByte]) -> bool
    ensures { result ≡ list_all is_plain_of_name piece.now }
{
    piece.iter().all(|unit| is_plain_of_name(*unit))
}

fn is_name(piece: &[TextByte]) -> bool
    ensures { result ≡ is_name piece.now }
{
    !piece.is_empty() && all_of_name(piece)
}

/// Whether a piece is `$` and a name.
fn is_param(piece: &[TextByte]) -> bool
    ensures { result ≡ is_param piece.now }
{
    match piece {
        [] => false,
        [first, name @ ..] => is_plain(b'$', *first) && is_name(name),
    }
}

/// What a trimmed piece is.
fn piece_kind(alloc: Global, piece: &[TextByte]) -> Result<LexKind, NoMemory>
    ensures { IfOk result (λ kind. kind ≡ piece_kind piece.now) }
{
    if is_param(piece) {
        let (_, name) = piece.split_at(1);
        return Ok(LexKind::Param(bytes_of(alloc, name)?));
    }
    if ends_in(b'*', piece) {
        let (front, _) = piece.split_at(piece.len().saturating_sub(1));
        return starred_kind(alloc, front);
    }
    Ok(LexKind::Tag {
        text: bytes_of(alloc, piece)?,
        prefix: false,
    })
}

/// What stands before a `*` at a piece's end.
fn starred_kind(alloc: Global, front: &[TextByte]) -> Result<LexKind, NoMemory>
    ensures { IfOk result (λ kind. kind ≡ starred_kind front.now) }
{
    if front.is_empty() {
        return Ok(LexKind::Sign(Sign::Stray));
    }
    Ok(LexKind::Tag {
        text: bytes_of(alloc, front)?,
        prefix: true,
    })
}

/// A piece whose first byte is this one, or is escaped by it.
#[tactic(auto, unfolding(crate::specs::Pieces::piece_at))]
pub fn piece(alloc: Global, first: u8, bytes: &[u8]) -> Result<(Option<LexKind>, &[u8]), Stop>
    ensures read { Gives (λ x. (x.0, x.1.now)) result (piece_at first bytes.now) }
    ensures within { IfOk result (λ x. length x.1.now ≤ length bytes.now) }
{
    let (first, rest) = match tag_byte(first, bytes) {
        Ok(read) => read,
        Err(stop) => return Err(stop),
    };
    let (mut piece, rest) = match others(alloc, first, rest) {
        Ok(read) => read,
        Err(stop) => return Err(stop),
    };
    trim(&mut piece);
    let kind = piece_kind(alloc, piece.as_slice())?;
    Ok((Some(kind), rest))
}
