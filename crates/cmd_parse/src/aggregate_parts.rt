//! The parts of FT.AGGREGATE one after another, with one reader for each of `specs/Aggregate.antt`.
ghost use Rattle.std.specs.Prelude.{◌≡◌, ◌<◌, ◌≤◌, length, Err, IfOk};
ghost use Rattle.cmd_parse.specs.Aggregate.{all_parts_at, has_steps, is_past, no_parts, part_at, part_with, with_cursor_at, with_dialect_at, with_load_at, with_params_at, with_step_at, with_timeout_at};
ghost use Rattle.cmd_parse.specs.Gives.{Gives};
ghost use Rattle.cmd_parse.specs.declared.stop.Stop.TheVariants.{NoMemory};
ghost use Rattle.ft_base.specs.declared.limits.TheConstants.{MAX_WORDS};

use crate::aggregate_names::{PartName, StepName, part_of};
use crate::aggregate_steps::{load, step};
use crate::aggregate_words::{CursorSpec, cursor};
use crate::option_words::dialect;
use crate::options::is_at_end;
use crate::params::params;
use crate::reading::{fault, number};
use crate::stop::{Cause, Stop};
use agg_pipeline::{Load, Step};
use ft_base::{ListOf, Param, Words};
use std::alloc::Global;

/// The parts that were there so far.
#[derive(Drop)]
pub struct Parts {
    pub verbatim: bool,
    pub timeout: bool,
    pub dialect: bool,
    pub params: Option<ListOf<Param>>,
    pub cursor: Option<CursorSpec>,
    pub load: Option<Load>,
    pub steps: ListOf<Step>,
}

/// The parts up to the end of a command.
pub fn all_parts(alloc: Global, words: &Words<'_>) -> Result<Parts, Stop>
    requires { length words.now ≤ MAX_WORDS }
    ensures read { Gives (λ x. x) result (all_parts_at words.now) }
    ensures memory { result ≡ Err NoMemory → 0 < length words.now }
{
    let mut parts = no_parts(alloc);
    let mut rest = words.rest(0);
    'reading: while !is_at_end(&rest) {
        rest = match part(alloc, &mut parts, &rest) {
            Ok(behind) => behind,
            Err(stop) => return Err(stop),
        };
    }
    Ok(parts)
}

fn no_parts(alloc: Global) -> Parts
    ensures { result ≡ no_parts }
{
    Parts {
        verbatim: false,
        timeout: false,
        dialect: false,
        params: None,
        cursor: None,
        load: None,
        steps: ListOf::new(alloc),
    }
}

/// A part behind others, which it is put among; the words behind it.
#[tactic(auto, unfolding(crate::specs::Aggregate::part_at))]
fn part<'a>(alloc: Global, parts: &mut Parts, words: &Words<'a>) -> Result<Words<'a>, Stop>
    requires { length words.now ≤ MAX_WORDS }
    ensures read { Gives (λ x. (parts.new, x)) result (part_at parts.old words.now) }
    ensures shorter { IfOk result (λ x. length x < length words.now) }
{
    let Some((word, rest)) = words.split_first() else {
        return Err(fault(Cause::Syntax, words));
    };
    let name = part_of(word);
    if is_past(parts, name) {
        return Err(fault(Cause::Syntax, words));
    }
    part_with(alloc, name, parts, words, &rest)
}

/// Whether a part may not come any more.
fn is_past(parts: &Parts, name: PartName) -> bool
    ensures { result ≡ is_past parts.now name }
{
    match name {
        PartName::Verbatim => parts.verbatim,
        PartName::Timeout => parts.timeout,
        PartName::Dialect => parts.dialect,
        PartName::Params => parts.params.is_some(),
        PartName::Cursor => parts.cursor.is_some(),
        PartName::Load => parts.load.is_some() || has_steps(&parts.steps),
        PartName::Step(_) | PartName::LeftOut | PartName::Other => false,
    }
}

fn has_steps(steps: &ListOf<Step>) -> bool
    ensures { result ≡ has_steps steps.now }
{
    steps.len() != 0
}

/// What stands behind a part's name, put among the parts; the words behind it.
#[tactic(auto, unfolding(crate::specs::Aggregate::part_with))]
fn part_with<'a>(
    alloc: Global,
    name: PartName,
    parts: &mut Parts,
    from: &Words<'a>,
    words: &Words<'a>,
) -> Result<Words<'a>, Stop>
    requires { length words.now ≤ MAX_WORDS }
    ensures read { Gives (λ x. (parts.new, x)) result
        (part_with name parts.old from.now words.now) }
    ensures within { IfOk result (λ x. length x ≤ length words.now) }
{
    match name {
        PartName::Verbatim => {
            parts.verbatim = true;
            Ok(words.rest(0))
        }
        PartName::Timeout => with_timeout(parts, words),
        PartName::Dialect => with_dialect(parts, words),
        PartName::Params => with_params(alloc, parts, words),
        PartName::Cursor => with_cursor(parts, words),
        PartName::Load => with_load(alloc, parts, words),
        PartName::Step(name) => with_step(alloc, name, parts, words),
        PartName::LeftOut => Err(fault(Cause::OutOfScope, from)),
        PartName::Other => Err(fault(Cause::Syntax, from)),
    }
}

/// TIMEOUT: a number, without effect.
fn with_timeout<'a>(parts: &mut Parts, words: &Words<'a>) -> Result<Words<'a>, Stop>
    ensures read { Gives (λ x. (parts.new, x)) result (with_timeout_at parts.old words.now) }
    ensures within { IfOk result (λ x. length x ≤ length words.now) }
{
    let (_, rest) = match number(words) {
        Ok(read) => read,
        Err(stop) => return Err(stop),
    };
    parts.timeout = true;
    Ok(rest)
}

/// DIALECT, without effect.
fn with_dialect<'a>(parts: &mut Parts, words: &Words<'a>) -> Result<Words<'a>, Stop>
    ensures read { Gives (λ x. (parts.new, x)) result (with_dialect_at parts.old words.now) }
    ensures within { IfOk result (λ x. length x ≤ length words.now) }
{
    let rest = match dialect(words) {
        Ok(read) => read,
        Err(stop) => return Err(stop),
    };
    parts.dialect = true;
    Ok(rest)
}

/// PARAMS.
fn with_params<'a>(alloc: Global, parts: &mut Parts, words: &Words<'a>) -> Result<Words<'a>, Stop>
    requires { length words.now ≤ MAX_WORDS }
    ensures read { Gives (λ x. (parts.new, x)) result (with_params_at parts.old words.now) }
    ensures within { IfOk result (λ x. length x ≤ length words.now) }
{
    let (params, rest) = match params(alloc, words) {
        Ok(read) => read,
        Err(stop) => return Err(stop),
    };
    parts.params = Some(params);
    Ok(rest)
}

/// WITHCURSOR.
fn with_cursor<'a>(parts: &mut Parts, words: &Words<'a>) -> Result<Words<'a>, Stop>
    ensures read { Gives (λ x. (parts.new, x)) result (with_cursor_at parts.old words.now) }
    ensures within { IfOk result (λ x. length x ≤ length words.now) }
{
    let (cursor, rest) = match cursor(words) {
        Ok(read) => read,
        Err(stop) => return Err(stop),
    };
    parts.cursor = Some(cursor);
    Ok(rest)
}

/// LOAD.
fn with_load<'a>(alloc: Global, parts: &mut Parts, words: &Words<'a>) -> Result<Words<'a>, Stop>
    ensures read { Gives (λ x. (parts.new, x)) result (with_load_at parts.old words.now) }
    ensures within { IfOk result (λ x. length x ≤ length words.now) }
{
    let (load, rest) = match load(alloc, words) {
        Ok(read) => read,
        Err(stop) => return Err(stop),
    };
    parts.load = Some(load);
    Ok(rest)
}

/// A step, behind those that were there before.
fn with_step<'a>(
    alloc: Global,
    name: StepName,
    parts: &mut Parts,
    words: &Words<'a>,
) -> Result<Words<'a>, Stop>
    ensures read { Gives (λ x. (parts.new, x)) result (with_step_at name parts.old words.now) }
    ensures within { IfOk result (λ x. length x ≤ length words.now) }
{
    let (step, rest) = match step(alloc, name, words) {
        Ok(read) => read,
        Err(stop) => return Err(stop),
    };
    parts.steps.push(step)?;
    Ok(rest)
}
