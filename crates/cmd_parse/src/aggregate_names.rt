//! The words that name parts and reducers of FT.AGGREGATE, read in any case.
ghost use Rattle.std.specs.Prelude.{◌≡◌};
ghost use Rattle.cmd_parse.specs.AggregateNames.{is_reducer_left_out, part_of, reducer_name, reducer_of};

use crate::option_names::is_left_out;
use crate::stop::Cause;
use agg_pipeline::ReduceKind;
use ft_base::is_name;

/// A part of FT.AGGREGATE behind the index and the query.
#[derive(Clone, Copy)]
pub enum PartName {
    Verbatim,
    Timeout,
    Dialect,
    Params,
    /// WITHCURSOR.
    Cursor,
    Load,
    Step(StepName),
    /// An option of RediSearch that is left out.
    LeftOut,
    /// A word that names none.
    Other,
}

/// What is done with the rows.
#[derive(Clone, Copy)]
pub enum StepName {
    Group,
    Sort,
    Apply,
    Filter,
    Limit,
}

/// How a property is named.
#[derive(Clone, Copy)]
pub enum NameForm {
    /// `@` and a name.
    Property,
    /// The same, where `@` may be left out, as in LOAD.
    Loaded,
}

/// The part that a word begins.
#[tactic(auto, unfolding(crate::specs::AggregateNames::part_of))]
pub fn part_of(word: &[u8]) -> PartName
    ensures { result ≡ part_of word.now }
{
    if is_name(word, b"VERBATIM") {
        PartName::Verbatim
    } else if is_name(word, b"TIMEOUT") {
        PartName::Timeout
    } else if is_name(word, b"DIALECT") {
        PartName::Dialect
    } else if is_name(word, b"PARAMS") {
        PartName::Params
    } else if is_name(word, b"WITHCURSOR") {
        PartName::Cursor
    } else if is_name(word, b"LOAD") {
        PartName::Load
    } else if is_name(word, b"GROUPBY") {
        PartName::Step(StepName::Group)
    } else if is_name(word, b"SORTBY") {
        PartName::Step(StepName::Sort)
    } else if is_name(word, b"APPLY") {
        PartName::Step(StepName::Apply)
    } else if is_name(word, b"FILTER") {
        PartName::Step(StepName::Filter)
    } else if is_name(word, b"LIMIT") {
        PartName::Step(StepName::Limit)
    } else if is_left_out(word) {
        PartName::LeftOut
    } else {
        PartName::Other
    }
}

/// The reducer that a word names, or what is wrong with the word.
#[tactic(auto, unfolding(crate::specs::AggregateNames::reducer_of))]
pub fn reducer_of(word: &[u8]) -> Result<ReduceKind, Cause>
    ensures { result ≡ reducer_of word.now }
{
    if is_name(word, b"COUNT") {
        Ok(ReduceKind::Count)
    } else if is_name(word, b"COUNT_DISTINCT") {
        Ok(ReduceKind::CountDistinct)
    } else if is_name(word, b"SUM") {
        Ok(ReduceKind::Sum)
    } else if is_name(word, b"MIN") {
        Ok(ReduceKind::Min)
    } else if is_name(word, b"MAX") {
        Ok(ReduceKind::Max)
    } else if is_name(word, b"TOLIST") {
        Ok(ReduceKind::ToList)
    } else if is_name(word, b"FIRST_VALUE") {
        Ok(ReduceKind::FirstValue)
    } else if is_reducer_left_out(word) {
        Err(Cause::OutOfScope)
    } else {
        Err(Cause::Syntax)
    }
}

fn is_reducer_left_out(word: &[u8]) -> bool
    ensures { result ≡ is_reducer_left_out word.now }
{
    is_name(word, b"AVG")
        || is_name(word, b"STDDEV")
        || is_name(word, b"QUANTILE")
        || is_name(word, b"RANDOM_SAMPLE")
        || is_name(word, b"COUNT_DISTINCTISH")
}

/// A reducer's name in lower case.
pub fn reducer_name(kind: ReduceKind) -> &'static [u8]
    ensures { result.now ≡ reducer_name kind }
{
    match kind {
        ReduceKind::Count => b"count",
        ReduceKind::CountDistinct => b"count_distinct",
        ReduceKind::Sum => b"sum",
        ReduceKind::Min => b"min",
        ReduceKind::Max => b"max",
        ReduceKind::ToList => b"tolist",
        ReduceKind::FirstValue => b"first_value",
    }
}
