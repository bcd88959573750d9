//! PARAMS of FT.SEARCH: names and their values in turn.
ghost use Rattle.std.specs.Prelude.{◌≡◌, ◌<◌, ◌≤◌, ◌+◌, ◌%◌, [], List, ℕ, length, IfOk, IfSome};
ghost use Rattle.cmd_parse.specs.Gives.{Gives};
ghost use Rattle.cmd_parse.specs.Params.{first_repeat, params_at, params_of, params_with};
ghost use Rattle.ft_base.specs.declared.limits.TheConstants.{MAX_WORDS};

use crate::reading::{counted, fault};
use crate::stop::{Cause, Stop};
use ft_base::{Bytes, ListOf, NoMemory, Param, Words};
use std::alloc::Global;
use std::collections::BTreeSet;

/// PARAMS: the parameters, copied, and the words behind them.
pub fn params<'a>(alloc: Global, words: &Words<'a>) -> Result<(ListOf<Param>, Words<'a>), Stop>
    requires { length words.now ≤ MAX_WORDS }
    ensures read { Gives (λ x. x) result (params_at words.now) }
    ensures shorter { IfOk result (λ x. length x.1 < length words.now) }
{
    let (given, rest) = match counted(words) {
        Ok(read) => read,
        Err(stop) => return Err(stop),
    };
    match distinct(alloc, words, &given) {
        Ok(params) => Ok((params, rest)),
        Err(stop) => Err(stop),
    }
}

/// The parameters of words that stand behind their number, the first of `from`, where they are pairs and
/// no name repeats.
fn distinct(alloc: Global, from: &Words<'_>, given: &Words<'_>) -> Result<ListOf<Param>, Stop>
    requires within { length given.now < length from.now }
    requires limit { length from.now ≤ MAX_WORDS }
    ensures { (words : List (List ℕ))
        → Gives (λ x. (x, words)) result (params_with from.now given.now words) }
{
    if given.len() % 2 != 0 {
        return Err(fault(Cause::Syntax, from));
    }
    if let Some(place) = first_repeat(alloc, given, 1)? {
        return Err(fault(Cause::Syntax, &from.rest(place)));
    }
    Ok(params_of(alloc, given)?)
}

/// The place of the first word that repeats a name, where the first of the words is at place `from`.
fn first_repeat(alloc: Global, words: &Words<'_>, from: usize) -> Result<Option<usize>, NoMemory>
    requires { from + length words.now ≤ MAX_WORDS }
    ensures first { IfOk result (λ found. found ≡ first_repeat from [] (params_of words.now)) }
    ensures within { IfOk result (λ found. IfSome found (λ at. at < from + length words.now)) }
{
    let mut names = BTreeSet::new(alloc);
    for place in 0..words.len() / 2 {
        if !names.insert(words.word(2 * place))? {
            return Ok(Some(from + 2 * place));
        }
    }
    Ok(None)
}

/// Copies of the parameters that words give.
fn params_of(alloc: Global, words: &Words<'_>) -> Result<ListOf<Param>, NoMemory>
    requires { length words.now % 2 ≡ 0 }
    ensures { IfOk result (λ params. params ≡ params_of words.now) }
{
    let mut copies = Vec::with_capacity(alloc, words.len() / 2)?;
    for place in 0..words.len() / 2 {
        let (name, value) = (words.word(2 * place), words.word(2 * place + 1));
        copies.push(param(alloc, name, value)?)?;
    }
    Ok(ListOf::from_vec(copies))
}

fn param(alloc: Global, name: &[u8], value: &[u8]) -> Result<Param, NoMemory>
    ensures { IfOk result (λ param. param ≡ record { name = name.now; value = value.now }) }
{
    Ok(Param {
        name: Bytes::from_slice(alloc, name)?,
        value: Bytes::from_slice(alloc, value)?,
    })
}
