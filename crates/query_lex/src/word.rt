//! Words, parameters, and the signs of more than one byte.
ghost use Rattle.std.specs.Prelude.{◌≡◌, ◌<◌, ◌≤◌, length, position, IfOk, IfSome, Ok};
ghost use Rattle.query_lex.specs.Gives.{Gives, GivesNext};
ghost use Rattle.query_lex.specs.Reading.{with_first, run_at};
ghost use Rattle.query_lex.specs.Words.{escaped_at, letter_at, next_letter, is_w, word_with, word_at};
ghost use Rattle.query_lex.specs.Words.{ends_name, name_length, param_with, param_at, star_at, arrow_at};

use crate::fault::{Cause, Stop};
use crate::lexeme::{LexKind, Sign};
use crate::separators::{begins_word, is_at, is_of_name, past, word_comes};
use ft_base::{Bytes, NoMemory, is_separator};
use std::alloc::Global;

/// The separator that a backslash before the bytes escapes.
fn escaped(bytes: &[u8]) -> Result<(u8, &[u8]), Stop>
    ensures read { Gives (λ x. (x.0, x.1.now)) result (escaped_at bytes.now) }
    ensures within { IfOk result (λ x. length x.1.now ≤ length bytes.now) }
{
    match bytes {
        [byte, rest @ ..] if is_separator(*byte) => Ok((*byte, rest)),
        _ => Err(Stop::Fault {
            cause: Cause::LoneEscape,
            left: bytes.len() + 1,
        }),
    }
}

/// The byte of a word that this byte is, or that it escapes.
fn letter(first: u8, bytes: &[u8]) -> Result<(u8, &[u8]), Stop>
    ensures read { Gives (λ x. (x.0, x.1.now)) result (letter_at first bytes.now) }
    ensures within { IfOk result (λ x. length x.1.now ≤ length bytes.now) }
{
    if first == b'\\' {
        escaped(bytes)
    } else {
        Ok((first, bytes))
    }
}

/// The next byte of a word.
#[tactic(auto, unfolding(crate::specs::Words::next_letter))]
fn next_letter(bytes: &[u8]) -> Result<Option<(u8, &[u8])>, Stop>
    ensures read { GivesNext (λ x. (x.0, x.1.now)) result (next_letter bytes.now) }
    ensures shorter { IfOk result
        (λ next. IfSome next (λ x. length x.1.now < length bytes.now)) }
{
    match bytes {
        [first, rest @ ..] if begins_word(*first) => match letter(*first, rest) {
            Ok(read) => Ok(Some(read)),
            Err(stop) => Err(stop),
        },
        _ => Ok(None),
    }
}

/// The longest run of a word's bytes, behind its first.
fn letters(alloc: Global, first: u8, bytes: &[u8]) -> Result<(Bytes, &[u8]), Stop>
    ensures read { Gives (λ x. (x.0, x.1.now)) result
        (with_first first (run_at next_letter bytes.now)) }
    ensures within { IfOk result (λ x. length x.1.now ≤ length bytes.now) }
{
    let mut word = Bytes::new(alloc);
    word.push(first)?;
    let mut rest = bytes;
    'reading: loop {
        match next_letter(rest) {
            Ok(Some((byte, behind))) => {
                word.push(byte)?;
                rest = behind;
            }
            Ok(None) => return Ok((word, rest)),
            Err(stop) => return Err(stop),
        }
    }
}

/// A word whose first byte is this one, or is escaped by it.
#[tactic(auto, unfolding(crate::specs::Words::word_at))]
pub fn word(alloc: Global, first: u8, bytes: &[u8]) -> Result<(Option<LexKind>, &[u8]), Stop>
    ensures read { Gives (λ x. (x.0, x.1.now)) result (word_at first bytes.now) }
    ensures within { IfOk result (λ x. length x.1.now ≤ length bytes.now) }
{
    let (first, rest) = match letter(first, bytes) {
        Ok(read) => read,
        Err(stop) => return Err(stop),
    };
    let (word, rest) = match letters(alloc, first, rest) {
        Ok(read) => read,
        Err(stop) => return Err(stop),
    };
    Ok(word_with(word, rest))
}

/// A word by what directly follows it.
fn word_with(word: Bytes, rest: &[u8]) -> (Option<LexKind>, &[u8])
    ensures read { (result.0, result.1.now) ≡ word_with word rest.now }
    ensures within { length result.1.now ≤ length rest.now }
{
    if is_at(b'*', rest) {
        (Some(LexKind::Prefix(word)), past(rest))
    } else if is_w(word.as_slice()) && is_at(b'\'', rest) {
        (Some(LexKind::Foreign(word)), rest)
    } else {
        (Some(LexKind::Word(word)), rest)
    }
}

fn is_w(word: &[u8]) -> bool
    ensures { result ≡ is_w word.now }
{
    word == b"w".as_slice() || word == b"W".as_slice()
}

/// How many bytes of a name come.
fn name_length(bytes: &[u8]) -> usize
    ensures length { result ≡ name_length bytes.now }
    ensures within { result ≤ length bytes.now }
{
    match name_end(bytes) {
        Some(place) => place,
        None => bytes.len(),
    }
}

/// Where the first byte is that is of no name.
fn name_end(bytes: &[u8]) -> Option<usize>
    ensures place { result ≡ position ends_name bytes.now }
    ensures within { IfSome result (λ place. place < length bytes.now) }
{
    bytes.iter().position(|byte| !is_of_name(*byte))
}

/// What stands behind a `$`: a parameter, or nothing.
#[tactic(auto, unfolding(crate::specs::Words::param_at))]
pub fn param(
    alloc: Global,
    may_be_prefix: bool,
    bytes: &[u8],
) -> Result<(Option<LexKind>, &[u8]), Stop>
    ensures read { Gives (λ x. (x.0, x.1.now)) result (Ok (param_at may_be_prefix bytes.now)) }
    ensures within { IfOk result (λ x. length x.1.now ≤ length bytes.now) }
{
    let (name, rest) = bytes.split_at(name_length(bytes));
    Ok(param_with(alloc, may_be_prefix, name, rest)?)
}

fn param_with<'a>(
    alloc: Global,
    may_be_prefix: bool,
    name: &[u8],
    rest: &'a [u8],
) -> Result<(Option<LexKind>, &'a [u8]), NoMemory>
    ensures read { IfOk result (λ x. (x.0, x.1.now) ≡ param_with may_be_prefix name.now rest.now) }
    ensures within { IfOk result (λ x. length x.1.now ≤ length rest.now) }
{
    if name.is_empty() {
        return Ok((None, rest));
    }
    let name = Bytes::from_slice(alloc, name)?;
    if may_be_prefix && is_at(b'*', rest) {
        Ok((Some(LexKind::ParamPrefix(name)), past(rest)))
    } else {
        Ok((Some(LexKind::Param(name)), rest))
    }
}

/// A `*` that is no word's.
pub fn star(alloc: Global, rest: &[u8]) -> Result<(Option<LexKind>, &[u8]), Stop>
    ensures read { Gives (λ x. (x.0, x.1.now)) result (Ok (star_at rest.now)) }
    ensures within { IfOk result (λ x. length x.1.now ≤ length rest.now) }
{
    if word_comes(rest) {
        Ok((
            Some(LexKind::Foreign(Bytes::from_slice(alloc, b"*")?)),
            rest,
        ))
    } else {
        Ok((Some(LexKind::Sign(Sign::Star)), rest))
    }
}

/// What stands behind a `=`: the rest of an arrow, or nothing.
pub fn arrow(rest: &[u8]) -> (Option<LexKind>, &[u8])
    ensures read { (result.0, result.1.now) ≡ arrow_at rest.now }
    ensures within { length result.1.now ≤ length rest.now }
{
    if is_at(b'>', rest) {
        (Some(LexKind::Sign(Sign::Arrow)), past(rest))
    } else {
        (None, rest)
    }
}
