//! The options of a field, one reader for each of `specs/Fields.antt`.
ghost use Rattle.std.specs.Prelude.{◌≡◌, ◌<◌, ◌≤◌, length, IfOk};
ghost use Rattle.ft_schema.specs.Gives.{Gives};
ghost use Rattle.ft_schema.specs.Fields.{no_field_options, has_field_option, separator_at};
ghost use Rattle.ft_schema.specs.Fields.{is_at_unf, field_option_with, field_option_at};
ghost use Rattle.ft_schema.specs.Fields.{is_past_options, field_options_at, weighted_at, parted_at, sortable_at};

use crate::fault::{Cause, Stop};
use crate::names::{FieldOption, field_option_of};
use crate::reading::{fault, weight};
use ft_base::{FieldKind, Words};

/// The options that were there so far.
#[derive(Clone, Copy)]
pub struct FieldOptions {
    pub no_stem: bool,
    pub weight: bool,
    pub separator: Option<u8>,
    pub case_sensitive: bool,
    pub sortable: bool,
    pub unf: bool,
    pub no_index: bool,
}

/// The options of a field of this kind, and the words behind them.
#[tactic(auto, unfolding(crate::specs::Fields::field_options_at))]
pub fn options<'a>(kind: FieldKind, words: &Words<'a>) -> Result<(FieldOptions, Words<'a>), Stop>
    ensures read { Gives (λ x. x) result (field_options_at kind words.now) }
    ensures within { IfOk result (λ x. length x.1 ≤ length words.now) }
{
    let mut given = no_options();
    let mut rest = words.rest(0);
    'reading: while !is_past(kind, &rest) {
        let (next, behind) = match option(kind, given, &rest) {
            Ok(read) => read,
            Err(stop) => return Err(stop),
        };
        given = next;
        rest = behind;
    }
    Ok((given, rest))
}

fn no_options() -> FieldOptions
    ensures { result ≡ no_field_options }
{
    FieldOptions {
        no_stem: false,
        weight: false,
        separator: None,
        case_sensitive: false,
        sortable: false,
        unf: false,
        no_index: false,
    }
}

/// Whether no option of the field follows.
#[tactic(auto, unfolding(crate::specs::Fields::is_past_options))]
fn is_past(kind: FieldKind, words: &Words<'_>) -> bool
    ensures { result ≡ is_past_options kind words.now }
{
    match words.split_first() {
        Some((word, _)) => field_option_of(kind, word).is_none(),
        None => true,
    }
}

/// An option behind others.
#[tactic(auto, unfolding(crate::specs::Fields::field_option_at))]
fn option<'a>(
    kind: FieldKind,
    given: FieldOptions,
    words: &Words<'a>,
) -> Result<(FieldOptions, Words<'a>), Stop>
    ensures read { Gives (λ x. x) result (field_option_at kind given words.now) }
    ensures shorter { IfOk result (λ x. length x.1 < length words.now) }
{
    let Some((word, rest)) = words.split_first() else {
        return Err(fault(Cause::BadOption, words));
    };
    let Some(option) = field_option_of(kind, word) else {
        return Err(fault(Cause::BadOption, words));
    };
    if has_option(given, option) {
        return Err(fault(Cause::BadOption, words));
    }
    option_with(option, given, words, &rest)
}

fn has_option(given: FieldOptions, option: FieldOption) -> bool
    ensures { result ≡ has_field_option given option }
{
    match option {
        FieldOption::NoStem => given.no_stem,
        FieldOption::Weight => given.weight,
        FieldOption::Separator => given.separator.is_some(),
        FieldOption::CaseSensitive => given.case_sensitive,
        FieldOption::Sortable => given.sortable,
        FieldOption::NoIndex => given.no_index,
        FieldOption::LeftOut => false,
    }
}

/// The words behind an option's name.
#[tactic(auto, unfolding(crate::specs::Fields::field_option_with))]
fn option_with<'a>(
    option: FieldOption,
    given: FieldOptions,
    from: &Words<'a>,
    words: &Words<'a>,
) -> Result<(FieldOptions, Words<'a>), Stop>
    ensures read { Gives (λ x. x) result (field_option_with option given from.now words.now) }
    ensures within { IfOk result (λ x. length x.1 ≤ length words.now) }
{
    match option {
        FieldOption::NoStem => Ok((
            FieldOptions {
                no_stem: true,
                ..given
            },
            words.rest(0),
        )),
        FieldOption::Weight => weighted(given, words),
        FieldOption::Separator => parted(given, words),
        FieldOption::CaseSensitive => Ok((
            FieldOptions {
                case_sensitive: true,
                ..given
            },
            words.rest(0),
        )),
        FieldOption::Sortable => Ok(sortable(given, words)),
        FieldOption::NoIndex => Ok((
            FieldOptions {
                no_index: true,
                ..given
            },
            words.rest(0),
        )),
        FieldOption::LeftOut => Err(fault(Cause::OutOfScope, from)),
    }
}

/// WEIGHT, without effect.
fn weighted<'a>(given: FieldOptions, words: &Words<'a>) -> Result<(FieldOptions, Words<'a>), Stop>
    ensures read { Gives (λ x. x) result (weighted_at given words.now) }
    ensures within { IfOk result (λ x. length x.1 ≤ length words.now) }
{
    match weight(words) {
        Ok(rest) => Ok((
            FieldOptions {
                weight: true,
                ..given
            },
            rest,
        )),
        Err(stop) => Err(stop),
    }
}

/// SEPARATOR, and the byte that parts the tags.
fn parted<'a>(given: FieldOptions, words: &Words<'a>) -> Result<(FieldOptions, Words<'a>), Stop>
    ensures read { Gives (λ x. x) result (parted_at given words.now) }
    ensures within { IfOk result (λ x. length x.1 ≤ length words.now) }
{
    match separator(words) {
        Ok((byte, rest)) => Ok((
            FieldOptions {
                separator: Some(byte),
                ..given
            },
            rest,
        )),
        Err(stop) => Err(stop),
    }
}

/// A separator, which is one byte.
fn separator<'a>(words: &Words<'a>) -> Result<(u8, Words<'a>), Stop>
    ensures read { Gives (λ x. x) result (separator_at words.now) }
    ensures within { IfOk result (λ x. length x.1 ≤ length words.now) }
{
    let Some((word, rest)) = words.split_first() else {
        return Err(fault(Cause::BadOption, words));
    };
    match word {
        [byte] => Ok((*byte, rest)),
        _ => Err(fault(Cause::BadOption, words)),
    }
}

/// SORTABLE, with UNF or without.
fn sortable<'a>(given: FieldOptions, words: &Words<'a>) -> (FieldOptions, Words<'a>)
    ensures read { result ≡ sortable_at given words.now }
    ensures within { length result.1 ≤ length words.now }
{
    let unf = is_at_unf(words);
    let rest = if unf { words.rest(1) } else { words.rest(0) };
    (
        FieldOptions {
            sortable: true,
            unf,
            ..given
        },
        rest,
    )
}

fn is_at_unf(words: &Words<'_>) -> bool
    ensures { result ≡ is_at_unf words.now }
{
    match words.split_first() {
        Some((word, _)) => word.eq_ignore_ascii_case(b"UNF"),
        None => false,
    }
}
