//! What FT.SEARCH asks: an index, a query, and which of the documents found are shown, and how.
ghost use Rattle.std.specs.Prelude.{◌≡◌, ◌≢◌, ◌<◌, ◌≤◌, ◌^◌, length, Err, Ok, MatchResult, unwrap_or};
ghost use Rattle.cmd_parse.specs.Searching.{fault_at, names_none, placed, search, searching_of};
ghost use Rattle.cmd_parse.specs.Seen.{given_of, search_of};
ghost use Rattle.cmd_parse.specs.declared.command.CmdFault.TheVariants.{NoMemory};
ghost use Rattle.ft_base.specs.declared.limits.TheConstants.{MAX_WORDS};

use crate::command::CmdFault;
use crate::option_words::{FilterSpec, SortSpec};
use crate::options::{Given, options};
use crate::stop::{Cause, Stop};
use ft_base::{ListOf, Param, Words};
use std::alloc::Global;

/// What FT.SEARCH asks. The query is parsed by the engine, which knows the index's fields.
#[derive(Drop)]
pub struct SearchSpec<'a> {
    pub index: &'a [u8],
    pub query: &'a [u8],
    /// Whether documents are shown by their keys alone.
    pub no_content: bool,
    /// The fields that are shown, where they are named.
    pub fields: Option<Words<'a>>,
    /// The keys that count, where they are named.
    pub keys: Option<Words<'a>>,
    /// Each has to let a document through.
    pub filters: ListOf<FilterSpec<'a>>,
    pub sort: Option<SortSpec<'a>>,
    /// The place of the first row that is shown, counted from 0.
    pub offset: u32,
    /// How many rows are shown at the most.
    pub num: u32,
    /// The values of the query's parameters, whose names differ.
    pub params: ListOf<Param>,
}

/// Reads FT.SEARCH. Only its parameters are copied.
pub fn read_search<'a>(alloc: Global, words: &Words<'a>) -> Result<SearchSpec<'a>, CmdFault>
    requires number { 3 ≤ length words.now }
    requires limit { length words.now ≤ MAX_WORDS }
    ensures exact { MatchResult result
        (λ spec. search words.now ≡ Ok (search_of spec))
        (λ fault. fault ≢ NoMemory → search words.now ≡ Err fault) }
    ensures memory { result ≡ Err NoMemory → 4 ≤ length words.now }
{
    match options(alloc, words.len(), &words.rest(3)) {
        Ok(given) => Ok(search_with(alloc, words.word(1), words.word(2), given)),
        Err(stop) => Err(placed(words.len(), stop)),
    }
}

/// A search by its options.
fn search_with<'a>(
    alloc: Global,
    index: &'a [u8],
    query: &'a [u8],
    given: Given<'a>,
) -> SearchSpec<'a>
    ensures { search_of result ≡ searching_of index.now query.now (given_of given.entry) }
{
    let (offset, num) = given.window.unwrap_or((0, 10));
    SearchSpec {
        index,
        query,
        no_content: given.no_content || names_none(&given.fields),
        fields: given.fields,
        keys: given.keys,
        filters: given.filters,
        sort: given.sort,
        offset,
        num,
        params: given.params.unwrap_or(ListOf::new(alloc)),
    }
}

/// Whether RETURN names no field, so that none is shown.
fn names_none(fields: &Option<Words<'_>>) -> bool
    ensures { result ≡ names_none fields.now }
{
    match fields {
        Some(names) => names.len() == 0,
        None => false,
    }
}

/// The fault of a stop, placed by the number of all words.
pub fn placed(total: usize, stop: Stop) -> CmdFault
    requires { total < 2 ^ 32 }
    ensures { result ≡ placed total stop }
{
    match stop {
        Stop::Fault { cause, left } => fault_at(cause, total.saturating_sub(left) as u32),
        Stop::NoMemory => CmdFault::NoMemory,
    }
}

fn fault_at(cause: Cause, at: u32) -> CmdFault
    ensures { result ≡ fault_at cause at }
{
    match cause {
        Cause::Syntax => CmdFault::Syntax { at },
        Cause::Limit => CmdFault::Limit { at },
        Cause::OutOfScope => CmdFault::OutOfScope { at },
    }
}
