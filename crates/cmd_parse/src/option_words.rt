//! The words behind an option's name, with one reader for each of `specs/Options.antt` and of
//! `specs/Filters.antt`.
ghost use Rattle.std.specs.Prelude.{◌≡◌, ◌<◌, ◌≤◌, ◌+◌, [], nat_le, length, IfOk, IfSome};
ghost use Rattle.std.specs.List.{position_from};
ghost use Rattle.cmd_parse.specs.Filters.{end_of, end_at, filter_at};
ghost use Rattle.cmd_parse.specs.Gives.{Gives};
ghost use Rattle.cmd_parse.specs.Options.{dialect_at, direction_at, is_as, keys_at, most_rows, names_at, sort_at, window_at};
ghost use Rattle.cmd_parse.specs.Seen.{filter_of, sort_of};
ghost use Rattle.ft_base.specs.declared.limits.TheConstants.{MAX_WORDS};

use crate::reading::{counted, fault, number, word};
use crate::stop::{Cause, Stop};
use field_text::{Bound, interval, read_bound};
use ft_base::{Words, is_name};

/// The most rows up to the end of a window.
pub const MAX_ROWS: usize = 1_000_000;

/// A field whose number has to lie in an interval.
#[derive(Clone, Copy)]
pub struct FilterSpec<'a> {
    /// The number of the word that names the field.
    pub at: u32,
    pub field: &'a [u8],
    /// The least number and the greatest; `None` where there is no number in it.
    pub interval: Option<(i64, i64)>,
}

/// The field by which what is found is sorted.
#[derive(Clone, Copy)]
pub struct SortSpec<'a> {
    /// The number of the word that names the field.
    pub at: u32,
    pub field: &'a [u8],
    pub descending: bool,
}

/// RETURN: the names of fields.
pub fn names<'a>(words: &Words<'a>) -> Result<(Words<'a>, Words<'a>), Stop>
    requires { length words.now ≤ MAX_WORDS }
    ensures read { Gives (λ x. x) result (names_at words.now) }
    ensures shorter { IfOk result (λ x. length x.1 < length words.now) }
{
    let (names, rest) = match counted(words) {
        Ok(read) => read,
        Err(stop) => return Err(stop),
    };
    match first_as(&names, 1) {
        Some(place) => Err(fault(Cause::OutOfScope, &words.rest(place))),
        None => Ok((names, rest)),
    }
}

/// The place of the first word that is AS, where the first of the words is at place `from`.
fn first_as(words: &Words<'_>, from: usize) -> Option<usize>
    requires { from + length words.now ≤ MAX_WORDS }
    ensures first { result ≡ position_from is_as from words.now }
    ensures within { IfSome result (λ at. at < from + length words.now) }
{
    for place in 0..words.len() {
        if is_name(words.word(place), b"AS") {
            return Some(from + place);
        }
    }
    None
}

/// INKEYS: one key at least.
pub fn keys<'a>(words: &Words<'a>) -> Result<(Words<'a>, Words<'a>), Stop>
    ensures read { Gives (λ x. x) result (keys_at words.now) }
    ensures shorter { IfOk result (λ x. length x.1 < length words.now) }
{
    let (keys, rest) = match counted(words) {
        Ok(read) => read,
        Err(stop) => return Err(stop),
    };
    if keys.len() == 0 {
        return Err(fault(Cause::Syntax, words));
    }
    Ok((keys, rest))
}

/// FILTER: a field, and the two ends of an interval. The command has `total` words.
pub fn filter<'a>(total: usize, words: &Words<'a>) -> Result<(FilterSpec<'a>, Words<'a>), Stop>
    requires place { length words.now ≤ total }
    requires limit { total ≤ MAX_WORDS }
    ensures read { Gives (λ x. (filter_of x.0, x.1)) result (filter_at total words.now) }
    ensures shorter { IfOk result (λ x. length x.1 < length words.now) }
{
    let at = (total - words.len()) as u32;
    let (field, behind) = match word(words) {
        Ok(read) => read,
        Err(stop) => return Err(stop),
    };
    let (low, behind_low) = match end(&behind) {
        Ok(read) => read,
        Err(stop) => return Err(stop),
    };
    let (high, rest) = match end(&behind_low) {
        Ok(read) => read,
        Err(stop) => return Err(stop),
    };
    let interval = interval(low, high);
    Ok((
        FilterSpec {
            at,
            field,
            interval,
        },
        rest,
    ))
}

/// An end of an interval, and whether it is left out.
fn end<'a>(words: &Words<'a>) -> Result<((bool, Bound), Words<'a>), Stop>
    ensures read { Gives (λ x. x) result (end_at words.now) }
    ensures shorter { IfOk result (λ x. length x.1 < length words.now) }
{
    let Some((word, rest)) = words.split_first() else {
        return Err(fault(Cause::Syntax, words));
    };
    match end_of(word) {
        Some(end) => Ok((end, rest)),
        None => Err(fault(Cause::Syntax, words)),
    }
}

/// The end that a word says. A parenthesis before it leaves it out.
fn end_of(word: &[u8]) -> Option<(bool, Bound)>
    ensures { result ≡ end_of word.now }
{
    match word {
        [] => None,
        [b'(', text @ ..] => Some((true, read_bound(text)?)),
        text => Some((false, read_bound(text)?)),
    }
}

/// SORTBY: a field, and a direction or none. The command has `total` words.
pub fn sort<'a>(total: usize, words: &Words<'a>) -> Result<(SortSpec<'a>, Words<'a>), Stop>
    requires place { length words.now ≤ total }
    requires limit { total ≤ MAX_WORDS }
    ensures read { Gives (λ x. (sort_of x.0, x.1)) result (sort_at total words.now) }
    ensures shorter { IfOk result (λ x. length x.1 < length words.now) }
{
    let at = (total - words.len()) as u32;
    let (field, behind) = match word(words) {
        Ok(read) => read,
        Err(stop) => return Err(stop),
    };
    let (descending, rest) = direction(&behind);
    let spec = SortSpec {
        at,
        field,
        descending,
    };
    Ok((spec, rest))
}

/// Whether the direction is DESC, and the words behind a direction.
pub fn direction<'a>(words: &Words<'a>) -> (bool, Words<'a>)
    ensures read { result ≡ direction_at words.now }
    ensures within { length result.1 ≤ length words.now }
{
    match words.split_first() {
        Some((word, rest)) if is_name(word, b"ASC") => (false, rest),
        Some((word, rest)) if is_name(word, b"DESC") => (true, rest),
        _ => (false, words.rest(0)),
    }
}

/// LIMIT: the place of the first row, and how many.
pub fn window<'a>(words: &Words<'a>) -> Result<((u32, u32), Words<'a>), Stop>
    ensures read { Gives (λ x. x) result (window_at words.now) }
    ensures shorter { IfOk result (λ x. length x.1 < length words.now) }
{
    let (offset, behind) = match number(words) {
        Ok(read) => read,
        Err(stop) => return Err(stop),
    };
    let (num, rest) = match number(&behind) {
        Ok(read) => read,
        Err(stop) => return Err(stop),
    };
    if !fits(offset, num) {
        return Err(fault(Cause::Limit, words));
    }
    Ok(((offset as u32, num as u32), rest))
}

/// Whether a window of so many rows behind others ends within the most rows.
fn fits(offset: usize, num: usize) -> bool
    ensures { result ≡ nat_le (offset + num) most_rows }
{
    offset <= MAX_ROWS && num <= MAX_ROWS - offset
}

/// DIALECT: 2 alone.
pub fn dialect<'a>(words: &Words<'a>) -> Result<Words<'a>, Stop>
    ensures read { Gives (λ x. (2, x)) result (dialect_at words.now) }
    ensures shorter { IfOk result (λ x. length x < length words.now) }
{
    let (dialect, rest) = match number(words) {
        Ok(read) => read,
        Err(stop) => return Err(stop),
    };
    if dialect != 2 {
        return Err(fault(Cause::OutOfScope, words));
    }
    Ok(rest)
}
