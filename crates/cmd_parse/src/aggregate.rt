//! What FT.AGGREGATE asks: an index, a query, and what is done with the rows of the documents found.
ghost use Rattle.std.specs.Prelude.{◌≡◌, ◌≢◌, ◌≤◌, length, Err, Ok, MatchResult};
ghost use Rattle.cmd_parse.specs.Aggregating.{aggregate, aggregate_of, aggregating_of};
ghost use Rattle.cmd_parse.specs.declared.command.CmdFault.TheVariants.{NoMemory};
ghost use Rattle.ft_base.specs.declared.limits.TheConstants.{MAX_WORDS};

use crate::aggregate_parts::{Parts, all_parts};
use crate::aggregate_words::CursorSpec;
use crate::command::CmdFault;
use crate::search::placed;
use agg_pipeline::{Load, Step};
use ft_base::{ListOf, Param, Words};
use std::alloc::Global;

/// What FT.AGGREGATE asks. The query is parsed by the engine, which knows the index's fields.
#[derive(Drop)]
pub struct AggregateSpec<'a> {
    pub index: &'a [u8],
    pub query: &'a [u8],
    /// The properties that have cells from the start.
    pub load: Load,
    /// What is done with the rows, in order.
    pub steps: ListOf<Step>,
    /// The values of the query's parameters, whose names differ.
    pub params: ListOf<Param>,
    /// How the rows are read, where they are read by a cursor.
    pub cursor: Option<CursorSpec>,
}

/// Reads FT.AGGREGATE. The index and the query are lent.
pub fn read_aggregate<'a>(alloc: Global, words: &Words<'a>) -> Result<AggregateSpec<'a>, CmdFault>
    requires number { 3 ≤ length words.now }
    requires limit { length words.now ≤ MAX_WORDS }
    ensures exact { MatchResult result
        (λ spec. aggregate words.now ≡ Ok (aggregate_of spec))
        (λ fault. fault ≢ NoMemory → aggregate words.now ≡ Err fault) }
    ensures memory { result ≡ Err NoMemory → 4 ≤ length words.now }
{
    match all_parts(alloc, &words.rest(3)) {
        Ok(parts) => Ok(aggregate_with(alloc, words.word(1), words.word(2), parts)),
        Err(stop) => Err(placed(words.len(), stop)),
    }
}

/// An aggregate by its parts.
fn aggregate_with<'a>(
    alloc: Global,
    index: &'a [u8],
    query: &'a [u8],
    parts: Parts,
) -> AggregateSpec<'a>
    ensures { aggregate_of result ≡ aggregating_of index.now query.now parts }
{
    AggregateSpec {
        index,
        query,
        load: parts.load.unwrap_or(Load::Nothing),
        steps: parts.steps,
        params: parts.params.unwrap_or(ListOf::new(alloc)),
        cursor: parts.cursor,
    }
}
