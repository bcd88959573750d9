//! The words of properties, expressions and cursors in FT.AGGREGATE, with one reader for each of
//! `specs/AggregateWords.antt`.
ghost use Rattle.std.specs.Prelude.{◌≡◌, ◌≢◌, ◌<◌, ◌≤◌, [], length, Err, IfOk};
ghost use Rattle.cmd_parse.specs.AggregateWords.{are_behind, as_at, bare_name, count_at, counted_names, cursor_at, expression_at, expression_stop, limited_at, name_at, name_of, named_at, names_up_to, number_or, property_name, some_name};
ghost use Rattle.cmd_parse.specs.Gives.{Gives, IsSeen};
ghost use Rattle.cmd_parse.specs.declared.stop.Stop.TheVariants.{NoMemory};

use crate::aggregate_names::NameForm;
use crate::reading::{fault, number, word};
use crate::stop::{Cause, Stop};
use expr_eval::{Expr, ExprFault, parse_expr};
use ft_base::{Bytes, ListOf, Words, is_name};
use std::alloc::Global;

/// The most rows of a read of a cursor, and how many they are where COUNT does not say.
pub const MAX_COUNT: usize = 1_000_000;

const USUAL_COUNT: usize = 1_000;

/// The most milliseconds between two reads of a cursor, and how many they are where MAXIDLE does not say.
pub const MAX_IDLE: usize = 2_147_483_647;

const USUAL_IDLE: usize = 300_000;

/// WITHCURSOR: the rows of a read, and the milliseconds after which the cursor is gone.
#[derive(Clone, Copy)]
pub struct CursorSpec {
    pub count: u32,
    pub max_idle: u32,
}

/// The name that a word gives, or what is wrong with the word.
#[tactic(auto, unfolding(crate::specs::AggregateWords::name_of))]
fn name_of<'a>(form: NameForm, word: &'a [u8]) -> Result<&'a [u8], Cause>
    ensures { IsSeen (λ x. x.now) result (name_of form word.now) }
{
    match form {
        NameForm::Property => property_name(word),
        NameForm::Loaded if is_name(word, b"AS") => Err(Cause::OutOfScope),
        NameForm::Loaded => bare_name(word),
    }
}

fn property_name<'a>(word: &'a [u8]) -> Result<&'a [u8], Cause>
    ensures { IsSeen (λ x. x.now) result (property_name word.now) }
{
    match word {
        [b'@', name @ ..] => some_name(name),
        _ => Err(Cause::Syntax),
    }
}

fn bare_name<'a>(word: &'a [u8]) -> Result<&'a [u8], Cause>
    ensures { IsSeen (λ x. x.now) result (bare_name word.now) }
{
    match word {
        [b'@', name @ ..] => some_name(name),
        _ => some_name(word),
    }
}

/// A name of one byte at least.
fn some_name<'a>(name: &'a [u8]) -> Result<&'a [u8], Cause>
    ensures { IsSeen (λ x. x.now) result (some_name name.now) }
{
    match name {
        [] => Err(Cause::Syntax),
        _ => Ok(name),
    }
}

/// The next word as a name.
pub fn named<'a>(form: NameForm, words: &Words<'a>) -> Result<(&'a [u8], Words<'a>), Stop>
    ensures read { Gives (λ x. (x.0.now, x.1)) result (named_at form words.now) }
    ensures shorter { IfOk result (λ x. length x.1 < length words.now) }
{
    let Some((word, rest)) = words.split_first() else {
        return Err(fault(Cause::Syntax, words));
    };
    match name_of(form, word) {
        Ok(name) => Ok((name, rest)),
        Err(cause) => Err(fault(cause, words)),
    }
}

/// A number, and how many words stand behind so many.
pub fn count<'a>(words: &Words<'a>) -> Result<(usize, Words<'a>), Stop>
    ensures read { Gives (λ x. x) result (count_at words.now) }
    ensures shorter { IfOk result (λ x. length x.1 < length words.now) }
{
    let (count, rest) = match number(words) {
        Ok(read) => read,
        Err(stop) => return Err(stop),
    };
    if rest.len() < count {
        return Err(fault(Cause::Syntax, words));
    }
    Ok((rest.len() - count, rest))
}

/// Whether the words left are those behind the counted ones.
pub fn are_behind(behind: usize, words: &Words<'_>) -> bool
    ensures { result ≡ are_behind behind words.now }
{
    words.len() <= behind
}

/// A number, and so many names.
pub fn counted_names<'a>(
    alloc: Global,
    form: NameForm,
    words: &Words<'a>,
) -> Result<(ListOf<Bytes>, Words<'a>), Stop>
    ensures read { Gives (λ x. x) result (counted_names form words.now) }
    ensures shorter { IfOk result (λ x. length x.1 < length words.now) }
{
    let (behind, rest) = match count(words) {
        Ok(read) => read,
        Err(stop) => return Err(stop),
    };
    names_up_to(alloc, form, behind, &rest)
}

/// The names up to the words behind.
fn names_up_to<'a>(
    alloc: Global,
    form: NameForm,
    behind: usize,
    words: &Words<'a>,
) -> Result<(ListOf<Bytes>, Words<'a>), Stop>
    ensures read { Gives (λ x. x) result (names_up_to form behind words.now) }
    ensures within { IfOk result (λ x. length x.1 ≤ length words.now) }
{
    let mut names = ListOf::new(alloc);
    let mut rest = words.rest(0);
    'reading: while !are_behind(behind, &rest) {
        rest = match name(alloc, form, &mut names, &rest) {
            Ok(after) => after,
            Err(stop) => return Err(stop),
        };
    }
    Ok((names, rest))
}

/// A name behind others, which it is put among; the words behind it.
#[tactic(auto, unfolding(crate::specs::AggregateWords::name_at))]
fn name<'a>(
    alloc: Global,
    form: NameForm,
    names: &mut ListOf<Bytes>,
    words: &Words<'a>,
) -> Result<Words<'a>, Stop>
    ensures read { Gives (λ x. (names.new, x)) result (name_at form names.old words.now) }
    ensures shorter { IfOk result (λ x. length x < length words.now) }
{
    let (name, rest) = match named(form, words) {
        Ok(read) => read,
        Err(stop) => return Err(stop),
    };
    names.push(Bytes::from_slice(alloc, name)?)?;
    Ok(rest)
}

/// The next word as an expression.
pub fn expression<'a>(alloc: Global, words: &Words<'a>) -> Result<(Expr, Words<'a>), Stop>
    ensures read { Gives (λ x. x) result (expression_at words.now) }
    ensures shorter { IfOk result (λ x. length x.1 < length words.now) }
{
    let Some((text, rest)) = words.split_first() else {
        return Err(fault(Cause::Syntax, words));
    };
    match parse_expr(alloc, text) {
        Ok(tree) => Ok((tree, rest)),
        Err(found) => Err(expression_stop(found, words)),
    }
}

/// A fault of an expression, the first of these words, is one of its word.
fn expression_stop(found: ExprFault, words: &Words<'_>) -> Stop
    ensures { result ≡ expression_stop found words.now }
{
    match found {
        ExprFault::Syntax { .. } | ExprFault::TooDeep { .. } => fault(Cause::Syntax, words),
        ExprFault::NoMemory => Stop::NoMemory,
    }
}

/// AS, and a name as it is.
pub fn name_behind_as<'a>(words: &Words<'a>) -> Result<(&'a [u8], Words<'a>), Stop>
    ensures read { Gives (λ x. (x.0.now, x.1)) result (as_at words.now) }
    ensures shorter { IfOk result (λ x. length x.1 < length words.now) }
{
    let Some((found, rest)) = words.split_first() else {
        return Err(fault(Cause::Syntax, words));
    };
    if !is_name(found, b"AS") {
        return Err(fault(Cause::Syntax, words));
    }
    word(&rest)
}

/// A number from 1 up to a limit.
pub fn limited<'a>(most: usize, words: &Words<'a>) -> Result<(usize, Words<'a>), Stop>
    ensures read { Gives (λ x. x) result (limited_at most words.now) }
    ensures memory { result ≢ Err NoMemory }
    ensures limit { IfOk result (λ x. x.0 ≤ most) }
    ensures shorter { IfOk result (λ x. length x.1 < length words.now) }
{
    let (number, rest) = match number(words) {
        Ok(read) => read,
        Err(stop) => return Err(stop),
    };
    if number < 1 || most < number {
        return Err(fault(Cause::Limit, words));
    }
    Ok((number, rest))
}

/// The number behind a word of this name; where the word is not there, another.
fn number_or<'a>(
    name: &[u8],
    most: usize,
    other: usize,
    words: &Words<'a>,
) -> Result<(usize, Words<'a>), Stop>
    requires { other ≤ most }
    ensures read { Gives (λ x. x) result (number_or name.now most other words.now) }
    ensures limit { IfOk result (λ x. x.0 ≤ most) }
    ensures within { IfOk result (λ x. length x.1 ≤ length words.now) }
{
    match words.split_first() {
        Some((word, rest)) if is_name(word, name) => limited(most, &rest),
        _ => Ok((other, words.rest(0))),
    }
}

/// WITHCURSOR: COUNT and MAXIDLE, in this order.
pub fn cursor<'a>(words: &Words<'a>) -> Result<(CursorSpec, Words<'a>), Stop>
    ensures read { Gives (λ x. x) result (cursor_at words.now) }
    ensures within { IfOk result (λ x. length x.1 ≤ length words.now) }
{
    let (count, behind) = match number_or(b"COUNT", MAX_COUNT, USUAL_COUNT, words) {
        Ok(read) => read,
        Err(stop) => return Err(stop),
    };
    let (idle, rest) = match number_or(b"MAXIDLE", MAX_IDLE, USUAL_IDLE, &behind) {
        Ok(read) => read,
        Err(stop) => return Err(stop),
    };
    let spec = CursorSpec {
        count: count as u32,
        max_idle: idle as u32,
    };
    Ok((spec, rest))
}
