//! The options of FT.SEARCH one after another, with one reader for each of `specs/Search.antt`.
ghost use Rattle.std.specs.Prelude.{◌≡◌, ◌<◌, ◌≤◌, length, true, Err, IfOk};
ghost use Rattle.cmd_parse.specs.Gives.{Gives};
ghost use Rattle.cmd_parse.specs.Given.{is_given, nothing_given};
ghost use Rattle.cmd_parse.specs.Search.{in_keys_at, is_at_end, limit_at, option_at, option_with, options_at, return_at, sort_by_at, timeout_at, with_dialect_at, with_filter_at, with_params_at};
ghost use Rattle.cmd_parse.specs.Seen.{given_of};
ghost use Rattle.cmd_parse.specs.declared.stop.Stop.TheVariants.{NoMemory};
ghost use Rattle.ft_base.specs.declared.limits.TheConstants.{MAX_WORDS};

use crate::option_names::{SearchOption, option_of};
use crate::option_words::{FilterSpec, SortSpec, dialect, filter, keys, names, sort, window};
use crate::params::params;
use crate::reading::{fault, number};
use crate::stop::{Cause, Stop};
use ft_base::{ListOf, Param, Words};
use std::alloc::Global;

/// The options that were there so far.
#[derive(Drop)]
pub struct Given<'a> {
    pub no_content: bool,
    pub verbatim: bool,
    pub timeout: bool,
    pub dialect: bool,
    pub fields: Option<Words<'a>>,
    pub keys: Option<Words<'a>>,
    pub filters: ListOf<FilterSpec<'a>>,
    pub sort: Option<SortSpec<'a>>,
    /// The place of the first row, and how many.
    pub window: Option<(u32, u32)>,
    pub params: Option<ListOf<Param>>,
}

/// The options up to the end of a command of `total` words.
pub fn options<'a>(alloc: Global, total: usize, words: &Words<'a>) -> Result<Given<'a>, Stop>
    requires place { length words.now ≤ total }
    requires limit { total ≤ MAX_WORDS }
    ensures read { Gives given_of result (options_at total words.now) }
    ensures memory { result ≡ Err NoMemory → 0 < length words.now }
{
    let mut given = nothing_given(alloc);
    let mut rest = words.rest(0);
    'reading: while !is_at_end(&rest) {
        rest = match option(alloc, total, &mut given, &rest) {
            Ok(behind) => behind,
            Err(stop) => return Err(stop),
        };
    }
    Ok(given)
}

pub fn is_at_end(words: &Words<'_>) -> bool
    ensures { result ≡ is_at_end words.now }
{
    words.len() == 0
}

fn nothing_given<'a>(alloc: Global) -> Given<'a>
    ensures { given_of result ≡ nothing_given }
{
    Given {
        no_content: false,
        verbatim: false,
        timeout: false,
        dialect: false,
        fields: None,
        keys: None,
        filters: ListOf::new(alloc),
        sort: None,
        window: None,
        params: None,
    }
}

/// An option behind others, which it is put among; the words behind it.
#[tactic(auto, unfolding(crate::specs::Search::option_at))]
fn option<'a>(
    alloc: Global,
    total: usize,
    given: &mut Given<'a>,
    words: &Words<'a>,
) -> Result<Words<'a>, Stop>
    requires place { length words.now ≤ total }
    requires limit { total ≤ MAX_WORDS }
    ensures read { Gives (λ x. (given_of given.new, x)) result
        (option_at total (given_of given.old) words.now) }
    ensures shorter { IfOk result (λ x. length x < length words.now) }
{
    let Some((word, rest)) = words.split_first() else {
        return Err(fault(Cause::Syntax, words));
    };
    let option = option_of(word);
    if is_given(given, option) {
        return Err(fault(Cause::Syntax, words));
    }
    option_with(alloc, total, option, given, words, &rest)
}

/// Whether an option was there before.
fn is_given(given: &Given<'_>, option: SearchOption) -> bool
    ensures { result ≡ is_given (given_of given.now) option }
{
    match option {
        SearchOption::NoContent => given.no_content,
        SearchOption::Verbatim => given.verbatim,
        SearchOption::Timeout => given.timeout,
        SearchOption::Dialect => given.dialect,
        SearchOption::Return => given.fields.is_some(),
        SearchOption::InKeys => given.keys.is_some(),
        SearchOption::SortBy => given.sort.is_some(),
        SearchOption::Limit => given.window.is_some(),
        SearchOption::Params => given.params.is_some(),
        SearchOption::Filter | SearchOption::LeftOut | SearchOption::Other => false,
    }
}

/// What stands behind an option's name, put among the options; the words behind it.
#[tactic(auto, unfolding(crate::specs::Search::option_with))]
fn option_with<'a>(
    alloc: Global,
    total: usize,
    option: SearchOption,
    given: &mut Given<'a>,
    from: &Words<'a>,
    words: &Words<'a>,
) -> Result<Words<'a>, Stop>
    requires place { length words.now ≤ total }
    requires limit { total ≤ MAX_WORDS }
    ensures read { Gives (λ x. (given_of given.new, x)) result
        (option_with total option (given_of given.old) from.now words.now) }
    ensures within { IfOk result (λ x. length x ≤ length words.now) }
{
    match option {
        SearchOption::NoContent => {
            given.no_content = true;
            Ok(words.rest(0))
        }
        SearchOption::Verbatim => {
            given.verbatim = true;
            Ok(words.rest(0))
        }
        SearchOption::Timeout => with_timeout(given, words),
        SearchOption::Dialect => with_dialect(given, words),
        SearchOption::Return => with_names(given, words),
        SearchOption::InKeys => with_keys(given, words),
        SearchOption::Filter => with_filter(total, given, words),
        SearchOption::SortBy => with_sort(total, given, words),
        SearchOption::Limit => with_window(given, words),
        SearchOption::Params => with_params(alloc, given, words),
        SearchOption::LeftOut => Err(fault(Cause::OutOfScope, from)),
        SearchOption::Other => Err(fault(Cause::Syntax, from)),
    }
}

/// TIMEOUT: a number, without effect.
fn with_timeout<'a>(given: &mut Given<'a>, words: &Words<'a>) -> Result<Words<'a>, Stop>
    ensures read { Gives (λ x. (given_of given.new, x)) result
        (timeout_at (given_of given.old) words.now) }
    ensures within { IfOk result (λ x. length x ≤ length words.now) }
{
    let (_, rest) = match number(words) {
        Ok(read) => read,
        Err(stop) => return Err(stop),
    };
    given.timeout = true;
    Ok(rest)
}

/// DIALECT, without effect.
fn with_dialect<'a>(given: &mut Given<'a>, words: &Words<'a>) -> Result<Words<'a>, Stop>
    ensures read { Gives (λ x. (given_of given.new, x)) result
        (with_dialect_at (given_of given.old) words.now) }
    ensures within { IfOk result (λ x. length x ≤ length words.now) }
{
    let rest = match dialect(words) {
        Ok(read) => read,
        Err(stop) => return Err(stop),
    };
    given.dialect = true;
    Ok(rest)
}

/// RETURN.
fn with_names<'a>(given: &mut Given<'a>, words: &Words<'a>) -> Result<Words<'a>, Stop>
    requires { length words.now ≤ MAX_WORDS }
    ensures read { Gives (λ x. (given_of given.new, x)) result
        (return_at (given_of given.old) words.now) }
    ensures within { IfOk result (λ x. length x ≤ length words.now) }
{
    let (names, rest) = match names(words) {
        Ok(read) => read,
        Err(stop) => return Err(stop),
    };
    given.fields = Some(names);
    Ok(rest)
}

/// INKEYS.
fn with_keys<'a>(given: &mut Given<'a>, words: &Words<'a>) -> Result<Words<'a>, Stop>
    ensures read { Gives (λ x. (given_of given.new, x)) result
        (in_keys_at (given_of given.old) words.now) }
    ensures within { IfOk result (λ x. length x ≤ length words.now) }
{
    let (keys, rest) = match keys(words) {
        Ok(read) => read,
        Err(stop) => return Err(stop),
    };
    given.keys = Some(keys);
    Ok(rest)
}

/// FILTER, behind those that were there before.
fn with_filter<'a>(
    total: usize,
    given: &mut Given<'a>,
    words: &Words<'a>,
) -> Result<Words<'a>, Stop>
    requires place { length words.now ≤ total }
    requires limit { total ≤ MAX_WORDS }
    ensures read { Gives (λ x. (given_of given.new, x)) result
        (with_filter_at total (given_of given.old) words.now) }
    ensures within { IfOk result (λ x. length x ≤ length words.now) }
{
    let (filter, rest) = match filter(total, words) {
        Ok(read) => read,
        Err(stop) => return Err(stop),
    };
    given.filters.push(filter)?;
    Ok(rest)
}

/// SORTBY.
fn with_sort<'a>(total: usize, given: &mut Given<'a>, words: &Words<'a>) -> Result<Words<'a>, Stop>
    requires place { length words.now ≤ total }
    requires limit { total ≤ MAX_WORDS }
    ensures read { Gives (λ x. (given_of given.new, x)) result
        (sort_by_at total (given_of given.old) words.now) }
    ensures within { IfOk result (λ x. length x ≤ length words.now) }
{
    let (sort, rest) = match sort(total, words) {
        Ok(read) => read,
        Err(stop) => return Err(stop),
    };
    given.sort = Some(sort);
    Ok(rest)
}

/// LIMIT.
fn with_window<'a>(given: &mut Given<'a>, words: &Words<'a>) -> Result<Words<'a>, Stop>
    ensures read { Gives (λ x. (given_of given.new, x)) result
        (limit_at (given_of given.old) words.now) }
    ensures within { IfOk result (λ x. length x ≤ length words.now) }
{
    let (window, rest) = match window(words) {
        Ok(read) => read,
        Err(stop) => return Err(stop),
    };
    given.window = Some(window);
    Ok(rest)
}

/// PARAMS.
fn with_params<'a>(
    alloc: Global,
    given: &mut Given<'a>,
    words: &Words<'a>,
) -> Result<Words<'a>, Stop>
    requires { length words.now ≤ MAX_WORDS }
    ensures read { Gives (λ x. (given_of given.new, x)) result
        (with_params_at (given_of given.old) words.now) }
    ensures within { IfOk result (λ x. length x ≤ length words.now) }
{
    let (params, rest) = match params(alloc, words) {
        Ok(read) => read,
        Err(stop) => return Err(stop),
    };
    given.params = Some(params);
    Ok(rest)
}
