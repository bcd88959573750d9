//! The options of an index, one reader for each of `specs/Options.antt`.
ghost use Rattle.std.specs.Prelude.{◌≡◌, ◌<◌, ◌≤◌, length, IfOk};
ghost use Rattle.ft_schema.specs.Gives.{Gives};
ghost use Rattle.ft_schema.specs.Options.{no_options, has_option, on_at, prefixes_with, prefixes_at, stops_with, stops_at, score_at};
ghost use Rattle.ft_schema.specs.Options.{option_with, option_at};
ghost use Rattle.ft_schema.specs.Options.{is_at_schema, options_at};

use crate::fault::{Cause, Stop};
use crate::names::{IndexOption, index_option_of};
use crate::reading::{copies, count, fault, weight, word};
use ft_base::{Bytes, ListOf, Words};
use std::alloc::Global;

/// The options that were there so far.
#[derive(Drop)]
pub struct IndexOptions {
    pub on_hash: bool,
    pub prefixes: Option<ListOf<Bytes>>,
    pub stops: Option<ListOf<Bytes>>,
    pub max_text_fields: bool,
    pub no_highlights: bool,
    pub no_frequencies: bool,
    pub score: bool,
}

/// The options up to SCHEMA, and the words from it on.
pub fn options<'a>(alloc: Global, words: &Words<'a>) -> Result<(IndexOptions, Words<'a>), Stop>
    ensures { Gives (λ x. x) result (options_at words.now) }
{
    let mut given = no_options();
    let mut rest = words.rest(0);
    'reading: while !is_at_schema(&rest) {
        let (next, behind) = match option(alloc, given, &rest) {
            Ok(read) => read,
            Err(stop) => return Err(stop),
        };
        given = next;
        rest = behind;
    }
    Ok((given, rest))
}

fn no_options() -> IndexOptions
    ensures { result ≡ no_options }
{
    IndexOptions {
        on_hash: false,
        prefixes: None,
        stops: None,
        max_text_fields: false,
        no_highlights: false,
        no_frequencies: false,
        score: false,
    }
}

fn is_at_schema(words: &Words<'_>) -> bool
    ensures { result ≡ is_at_schema words.now }
{
    match words.split_first() {
        Some((word, _)) => word.eq_ignore_ascii_case(b"SCHEMA"),
        None => false,
    }
}

/// An option behind others.
#[tactic(auto, unfolding(crate::specs::Options::option_at))]
fn option<'a>(
    alloc: Global,
    given: IndexOptions,
    words: &Words<'a>,
) -> Result<(IndexOptions, Words<'a>), Stop>
    ensures read { Gives (λ x. x) result (option_at given words.now) }
    ensures shorter { IfOk result (λ x. length x.1 < length words.now) }
{
    let Some((word, rest)) = words.split_first() else {
        return Err(fault(Cause::BadOption, words));
    };
    let option = index_option_of(word);
    if has_option(&given, option) {
        return Err(fault(Cause::BadOption, words));
    }
    option_with(alloc, option, given, words, &rest)
}

fn has_option(given: &IndexOptions, option: IndexOption) -> bool
    ensures { result ≡ has_option given.now option }
{
    match option {
        IndexOption::On => given.on_hash,
        IndexOption::Prefix => given.prefixes.is_some(),
        IndexOption::StopWords => given.stops.is_some(),
        IndexOption::MaxTextFields => given.max_text_fields,
        IndexOption::NoHighlights => given.no_highlights,
        IndexOption::NoFrequencies => given.no_frequencies,
        IndexOption::Score => given.score,
        IndexOption::LeftOut | IndexOption::Other => false,
    }
}

/// The words behind an option's name.
#[tactic(auto, unfolding(crate::specs::Options::option_with))]
fn option_with<'a>(
    alloc: Global,
    option: IndexOption,
    mut given: IndexOptions,
    from: &Words<'a>,
    words: &Words<'a>,
) -> Result<(IndexOptions, Words<'a>), Stop>
    ensures read { Gives (λ x. x) result (option_with option given from.now words.now) }
    ensures within { IfOk result (λ x. length x.1 ≤ length words.now) }
{
    match option {
        IndexOption::On => on_hash(given, words),
        IndexOption::Prefix => prefixes(alloc, given, words),
        IndexOption::StopWords => stops(alloc, given, words),
        IndexOption::MaxTextFields => {
            given.max_text_fields = true;
            Ok((given, words.rest(0)))
        }
        IndexOption::NoHighlights => {
            given.no_highlights = true;
            Ok((given, words.rest(0)))
        }
        IndexOption::NoFrequencies => {
            given.no_frequencies = true;
            Ok((given, words.rest(0)))
        }
        IndexOption::Score => score(given, words),
        IndexOption::LeftOut => Err(fault(Cause::OutOfScope, from)),
        IndexOption::Other => Err(fault(Cause::BadOption, from)),
    }
}

/// ON: hashes are indexed, and nothing else.
fn on_hash<'a>(given: IndexOptions, words: &Words<'a>) -> Result<(IndexOptions, Words<'a>), Stop>
    ensures read { Gives (λ x. x) result (on_at given words.now) }
    ensures within { IfOk result (λ x. length x.1 ≤ length words.now) }
{
    let (name, rest) = match word(words) {
        Ok(read) => read,
        Err(stop) => return Err(stop),
    };
    if !name.eq_ignore_ascii_case(b"HASH") {
        return Err(fault(Cause::OutOfScope, words));
    }
    Ok((
        IndexOptions {
            on_hash: true,
            ..given
        },
        rest,
    ))
}

/// PREFIX: at least one beginning of the keys that are taken.
fn prefixes<'a>(
    alloc: Global,
    given: IndexOptions,
    words: &Words<'a>,
) -> Result<(IndexOptions, Words<'a>), Stop>
    ensures read { Gives (λ x. x) result (prefixes_at given words.now) }
    ensures within { IfOk result (λ x. length x.1 ≤ length words.now) }
{
    let (number, rest) = match count(1, words) {
        Ok(read) => read,
        Err(stop) => return Err(stop),
    };
    with_prefixes(alloc, given, number, &rest)
}

/// The options with so many prefixes, and the words behind them.
fn with_prefixes<'a>(
    alloc: Global,
    mut given: IndexOptions,
    number: usize,
    words: &Words<'a>,
) -> Result<(IndexOptions, Words<'a>), Stop>
    requires { number ≤ length words.now }
    ensures read { Gives (λ x. x) result (prefixes_with given number words.now) }
    ensures within { IfOk result (λ x. length x.1 ≤ length words.now) }
{
    let prefixes = copies(alloc, words, number, false)?;
    given.prefixes = Some(prefixes);
    Ok((given, words.rest(number)))
}

/// STOPWORDS: the words, lowered, in place of the default list.
fn stops<'a>(
    alloc: Global,
    given: IndexOptions,
    words: &Words<'a>,
) -> Result<(IndexOptions, Words<'a>), Stop>
    ensures read { Gives (λ x. x) result (stops_at given words.now) }
    ensures within { IfOk result (λ x. length x.1 ≤ length words.now) }
{
    let (number, rest) = match count(0, words) {
        Ok(read) => read,
        Err(stop) => return Err(stop),
    };
    with_stops(alloc, given, number, &rest)
}

/// The options with so many stop words, and the words behind them.
fn with_stops<'a>(
    alloc: Global,
    mut given: IndexOptions,
    number: usize,
    words: &Words<'a>,
) -> Result<(IndexOptions, Words<'a>), Stop>
    requires { number ≤ length words.now }
    ensures read { Gives (λ x. x) result (stops_with given number words.now) }
    ensures within { IfOk result (λ x. length x.1 ≤ length words.now) }
{
    let stops = copies(alloc, words, number, true)?;
    given.stops = Some(stops);
    Ok((given, words.rest(number)))
}

/// SCORE: a weight, without effect.
fn score<'a>(given: IndexOptions, words: &Words<'a>) -> Result<(IndexOptions, Words<'a>), Stop>
    ensures read { Gives (λ x. x) result (score_at given words.now) }
    ensures within { IfOk result (λ x. length x.1 ≤ length words.now) }
{
    let rest = match weight(words) {
        Ok(rest) => rest,
        Err(stop) => return Err(stop),
    };
    Ok((
        IndexOptions {
            score: true,
            ..given
        },
        rest,
    ))
}
