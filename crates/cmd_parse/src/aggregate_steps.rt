//! The words of LOAD and of each step of FT.AGGREGATE, with one reader for each of
//! `specs/AggregateSteps.antt`.
ghost use Rattle.std.specs.Prelude.{◌≡◌, ◌<◌, ◌≤◌, ◌++◌, ◌∷◌, length, IfOk, None};
ghost use Rattle.std.specs.Option.{option_copied};
ghost use Rattle.cmd_parse.specs.AggregateSteps.{apply_at, argument_at, argument_with, cell_at, direction_before, group_at, is_count, is_no_reduce, keep_at, key_at, keys_up_to, kind_at, limit_at, load_at, max_at, reduce_at, reducer_at, reducers_at, sorted_at, step_at, usual_name};
ghost use Rattle.cmd_parse.specs.Gives.{Gives};
ghost use Rattle.cmd_parse.specs.Words.{word_at};

use crate::aggregate_names::{NameForm, StepName, reducer_name, reducer_of};
use crate::aggregate_words::{are_behind, count, counted_names, expression, name_behind_as, named};
use crate::option_words::{direction, window};
use crate::reading::{fault, number, word};
use crate::stop::{Cause, Stop};
use agg_pipeline::{Load, ReduceKind, Reducer, SortKey, Step};
use ft_base::{Bytes, ListOf, NoMemory, Words, is_name};
use std::alloc::Global;

/// LOAD: `*`, or a number and so many names.
#[tactic(auto, unfolding(crate::specs::AggregateSteps::load_at))]
pub fn load<'a>(alloc: Global, words: &Words<'a>) -> Result<(Load, Words<'a>), Stop>
    ensures read { Gives (λ x. x) result (load_at words.now) }
    ensures shorter { IfOk result (λ x. length x.1 < length words.now) }
{
    let Some((word, rest)) = words.split_first() else {
        return Err(fault(Cause::Syntax, words));
    };
    if is_name(word, b"*") {
        return Ok((Load::All, rest));
    }
    match counted_names(alloc, NameForm::Loaded, words) {
        Ok((names, rest)) => Ok((Load::Fields(names), rest)),
        Err(stop) => Err(stop),
    }
}

/// The words of a step, behind its name.
#[tactic(auto, unfolding(crate::specs::AggregateSteps::step_at))]
pub fn step<'a>(alloc: Global, name: StepName, words: &Words<'a>) -> Result<(Step, Words<'a>), Stop>
    ensures read { Gives (λ x. x) result (step_at name words.now) }
    ensures shorter { IfOk result (λ x. length x.1 < length words.now) }
{
    match name {
        StepName::Group => group(alloc, words),
        StepName::Sort => sort(alloc, words),
        StepName::Apply => apply(alloc, words),
        StepName::Filter => keep(alloc, words),
        StepName::Limit => limit(words),
    }
}

/// GROUPBY: a number, so many properties, and reducers.
fn group<'a>(alloc: Global, words: &Words<'a>) -> Result<(Step, Words<'a>), Stop>
    ensures read { Gives (λ x. x) result (group_at words.now) }
    ensures shorter { IfOk result (λ x. length x.1 < length words.now) }
{
    let (by, behind) = match counted_names(alloc, NameForm::Property, words) {
        Ok(read) => read,
        Err(stop) => return Err(stop),
    };
    match reducers(alloc, &behind) {
        Ok((reduce, rest)) => Ok((Step::Group { by, reduce }, rest)),
        Err(stop) => Err(stop),
    }
}

/// The reducers of a GROUPBY, up to a word that is not REDUCE.
fn reducers<'a>(alloc: Global, words: &Words<'a>) -> Result<(ListOf<Reducer>, Words<'a>), Stop>
    ensures read { Gives (λ x. x) result (reducers_at words.now) }
    ensures within { IfOk result (λ x. length x.1 ≤ length words.now) }
{
    let mut list = ListOf::new(alloc);
    let mut rest = words.rest(0);
    'reading: while !is_no_reduce(&rest) {
        rest = match reducer(alloc, &mut list, &rest) {
            Ok(behind) => behind,
            Err(stop) => return Err(stop),
        };
    }
    Ok((list, rest))
}

/// Whether no further REDUCE follows.
fn is_no_reduce(words: &Words<'_>) -> bool
    ensures { result ≡ is_no_reduce words.now }
{
    match words.split_first() {
        Some((word, _)) => !is_name(word, b"REDUCE"),
        None => true,
    }
}

/// A reducer behind others, which it is put among; the words behind it.
#[tactic(auto, unfolding(crate::specs::AggregateSteps::reducer_at))]
fn reducer<'a>(
    alloc: Global,
    list: &mut ListOf<Reducer>,
    words: &Words<'a>,
) -> Result<Words<'a>, Stop>
    ensures read { Gives (λ x. (list.new, x)) result (reducer_at list.old words.now) }
    ensures shorter { IfOk result (λ x. length x < length words.now) }
{
    let Some((_, behind)) = words.split_first() else {
        return Err(fault(Cause::Syntax, words));
    };
    let (reducer, rest) = match reduce(alloc, &behind) {
        Ok(read) => read,
        Err(stop) => return Err(stop),
    };
    list.push(reducer)?;
    Ok(rest)
}

/// A reducer behind REDUCE.
fn reduce<'a>(alloc: Global, words: &Words<'a>) -> Result<(Reducer, Words<'a>), Stop>
    ensures read { Gives (λ x. x) result (reduce_at words.now) }
    ensures shorter { IfOk result (λ x. length x.1 < length words.now) }
{
    let (kind, behind) = match kind(words) {
        Ok(read) => read,
        Err(stop) => return Err(stop),
    };
    let (property, behind) = match argument(kind, &behind) {
        Ok(read) => read,
        Err(stop) => return Err(stop),
    };
    let (name, rest) = match cell(alloc, kind, property, &behind) {
        Ok(read) => read,
        Err(stop) => return Err(stop),
    };
    let of = copied(alloc, property)?;
    Ok((Reducer { kind, of, name }, rest))
}

/// The reducer that the next word names.
fn kind<'a>(words: &Words<'a>) -> Result<(ReduceKind, Words<'a>), Stop>
    ensures read { Gives (λ x. x) result (kind_at words.now) }
    ensures shorter { IfOk result (λ x. length x.1 < length words.now) }
{
    let Some((word, rest)) = words.split_first() else {
        return Err(fault(Cause::Syntax, words));
    };
    match reducer_of(word) {
        Ok(kind) => Ok((kind, rest)),
        Err(cause) => Err(fault(cause, words)),
    }
}

/// Whether a reducer has no property.
fn is_count(kind: ReduceKind) -> bool
    ensures { result ≡ is_count kind }
{
    matches!(kind, ReduceKind::Count)
}

/// A reducer's property, behind the number of arguments.
fn argument<'a>(kind: ReduceKind, words: &Words<'a>) -> Result<(Option<&'a [u8]>, Words<'a>), Stop>
    ensures read { Gives (λ x. (option_copied x.0, x.1)) result (argument_at kind words.now) }
    ensures shorter { IfOk result (λ x. length x.1 < length words.now) }
{
    let (count, rest) = match number(words) {
        Ok(read) => read,
        Err(stop) => return Err(stop),
    };
    let wanted = if is_count(kind) { 0 } else { 1 };
    if count != wanted || rest.len() < count {
        return Err(fault(Cause::Syntax, words));
    }
    argument_with(is_count(kind), &rest)
}

/// A property, unless there is none.
fn argument_with<'a>(none: bool, words: &Words<'a>) -> Result<(Option<&'a [u8]>, Words<'a>), Stop>
    ensures read { Gives (λ x. (option_copied x.0, x.1)) result (argument_with none words.now) }
    ensures within { IfOk result (λ x. length x.1 ≤ length words.now) }
{
    if none {
        return Ok((None, words.rest(0)));
    }
    match named(NameForm::Property, words) {
        Ok((name, rest)) => Ok((Some(name), rest)),
        Err(stop) => Err(stop),
    }
}

/// The name of a reducer's cell: the one behind AS, or the usual one.
#[tactic(auto, unfolding(crate::specs::AggregateSteps::cell_at))]
fn cell<'a>(
    alloc: Global,
    kind: ReduceKind,
    property: Option<&[u8]>,
    words: &Words<'a>,
) -> Result<(Bytes, Words<'a>), Stop>
    ensures read { Gives (λ x. x) result (cell_at kind (option_copied property.entry) words.now) }
    ensures within { IfOk result (λ x. length x.1 ≤ length words.now) }
{
    match words.split_first() {
        Some((found, behind)) if is_name(found, b"AS") => named_cell(alloc, &behind),
        _ => Ok((usual_name(alloc, kind, property)?, words.rest(0))),
    }
}

/// The next word as a cell's name, copied.
fn named_cell<'a>(alloc: Global, words: &Words<'a>) -> Result<(Bytes, Words<'a>), Stop>
    ensures read { Gives (λ x. x) result (word_at words.now) }
    ensures shorter { IfOk result (λ x. length x.1 < length words.now) }
{
    let (name, rest) = match word(words) {
        Ok(read) => read,
        Err(stop) => return Err(stop),
    };
    Ok((Bytes::from_slice(alloc, name)?, rest))
}

/// The name of a reducer's cell without AS.
fn usual_name(alloc: Global, kind: ReduceKind, property: Option<&[u8]>) -> Result<Bytes, NoMemory>
    ensures { IfOk result (λ name. name ≡ usual_name kind (option_copied property.entry)) }
{
    match property {
        Some(property) => joined(alloc, reducer_name(kind), property),
        None => Ok(Bytes::from_slice(alloc, reducer_name(kind))?),
    }
}

/// Two names with `_` between them.
fn joined(alloc: Global, first: &[u8], second: &[u8]) -> Result<Bytes, NoMemory>
    ensures { IfOk result (λ name. name ≡ first.now ++ 95 ∷ second.now) }
{
    let mut name = Vec::new(alloc);
    name.extend_from_slice(first)?;
    name.push(b'_')?;
    name.extend_from_slice(second)?;
    Ok(Bytes::from_vec(name))
}

fn copied(alloc: Global, name: Option<&[u8]>) -> Result<Option<Bytes>, NoMemory>
    ensures { IfOk result (λ copy. copy ≡ option_copied name.entry) }
{
    match name {
        Some(name) => Ok(Some(Bytes::from_slice(alloc, name)?)),
        None => Ok(None),
    }
}

/// SORTBY: a number, so many words of properties with directions, and MAX.
fn sort<'a>(alloc: Global, words: &Words<'a>) -> Result<(Step, Words<'a>), Stop>
    ensures read { Gives (λ x. x) result (sorted_at words.now) }
    ensures shorter { IfOk result (λ x. length x.1 < length words.now) }
{
    let (behind, counted) = match count(words) {
        Ok(read) => read,
        Err(stop) => return Err(stop),
    };
    let (keys, behind) = match keys_up_to(alloc, behind, &counted) {
        Ok(read) => read,
        Err(stop) => return Err(stop),
    };
    match max(&behind) {
        Ok((max, rest)) => Ok((Step::Sort { keys, max }, rest)),
        Err(stop) => Err(stop),
    }
}

/// Properties with their directions, up to the words behind.
fn keys_up_to<'a>(
    alloc: Global,
    behind: usize,
    words: &Words<'a>,
) -> Result<(ListOf<SortKey>, Words<'a>), Stop>
    ensures read { Gives (λ x. x) result (keys_up_to behind words.now) }
    ensures within { IfOk result (λ x. length x.1 ≤ length words.now) }
{
    let mut keys = ListOf::new(alloc);
    let mut rest = words.rest(0);
    'reading: while !are_behind(behind, &rest) {
        rest = match key(alloc, behind, &mut keys, &rest) {
            Ok(after) => after,
            Err(stop) => return Err(stop),
        };
    }
    Ok((keys, rest))
}

/// A property to sort by, put behind others, and its direction; the words behind them.
#[tactic(auto, unfolding(crate::specs::AggregateSteps::key_at))]
fn key<'a>(
    alloc: Global,
    behind: usize,
    keys: &mut ListOf<SortKey>,
    words: &Words<'a>,
) -> Result<Words<'a>, Stop>
    ensures read { Gives (λ x. (keys.new, x)) result (key_at behind keys.old words.now) }
    ensures shorter { IfOk result (λ x. length x < length words.now) }
{
    let (name, after) = match named(NameForm::Property, words) {
        Ok(read) => read,
        Err(stop) => return Err(stop),
    };
    let (descending, rest) = direction_before(behind, &after);
    let name = Bytes::from_slice(alloc, name)?;
    keys.push(SortKey { name, descending })?;
    Ok(rest)
}

/// Whether the direction is DESC, where one stands before the words behind; the words behind it.
fn direction_before<'a>(behind: usize, words: &Words<'a>) -> (bool, Words<'a>)
    ensures read { result ≡ direction_before behind words.now }
    ensures within { length result.1 ≤ length words.now }
{
    if are_behind(behind, words) {
        return (false, words.rest(0));
    }
    direction(words)
}

/// MAX and a number, where it follows.
#[tactic(auto, unfolding(crate::specs::AggregateSteps::max_at))]
fn max<'a>(words: &Words<'a>) -> Result<(Option<u64>, Words<'a>), Stop>
    ensures read { Gives (λ x. x) result (max_at words.now) }
    ensures within { IfOk result (λ x. length x.1 ≤ length words.now) }
{
    match words.split_first() {
        Some((word, behind)) if is_name(word, b"MAX") => match number(&behind) {
            Ok((max, rest)) => Ok((Some(max as u64), rest)),
            Err(stop) => Err(stop),
        },
        _ => Ok((None, words.rest(0))),
    }
}

/// APPLY: an expression, AS and a name.
fn apply<'a>(alloc: Global, words: &Words<'a>) -> Result<(Step, Words<'a>), Stop>
    ensures read { Gives (λ x. x) result (apply_at words.now) }
    ensures shorter { IfOk result (λ x. length x.1 < length words.now) }
{
    let (expr, behind) = match expression(alloc, words) {
        Ok(read) => read,
        Err(stop) => return Err(stop),
    };
    let (name, rest) = match name_behind_as(&behind) {
        Ok(read) => read,
        Err(stop) => return Err(stop),
    };
    let name = Bytes::from_slice(alloc, name)?;
    Ok((Step::Apply { expr, name }, rest))
}

/// FILTER: an expression.
fn keep<'a>(alloc: Global, words: &Words<'a>) -> Result<(Step, Words<'a>), Stop>
    ensures read { Gives (λ x. x) result (keep_at words.now) }
    ensures shorter { IfOk result (λ x. length x.1 < length words.now) }
{
    match expression(alloc, words) {
        Ok((expr, rest)) => Ok((Step::Keep { expr }, rest)),
        Err(stop) => Err(stop),
    }
}

/// LIMIT.
fn limit<'a>(words: &Words<'a>) -> Result<(Step, Words<'a>), Stop>
    ensures read { Gives (λ x. x) result (limit_at words.now) }
    ensures shorter { IfOk result (λ x. length x.1 < length words.now) }
{
    match window(words) {
        Ok(((offset, num), rest)) => Ok((Step::Limit { offset, num }, rest)),
        Err(stop) => Err(stop),
    }
}
