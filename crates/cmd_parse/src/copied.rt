//! The commands of which something is copied: the words of a schema, the options of a search and
//! the parts of an aggregate. Only these are read with memory.
ghost use Rattle.std.specs.Prelude.{◌≡◌, ◌≢◌, ◌≤◌, [], length, slice_index_or, Err, Ok, IfOk, MatchResult};
ghost use Rattle.cmd_parse.specs.Aggregating.{aggregate};
ghost use Rattle.cmd_parse.specs.Lawful.{HasSerial, IsLawful};
ghost use Rattle.cmd_parse.specs.Read.{aggregated, altered, created, searched};
ghost use Rattle.cmd_parse.specs.Reading.{command_of};
ghost use Rattle.cmd_parse.specs.Searching.{search};
ghost use Rattle.ft_base.specs.declared.limits.TheConstants.{MAX_WORDS};
ghost use Rattle.ft_schema.specs.Schema.{alter, create};

use crate::aggregate::read_aggregate;
use crate::command::{CmdFault, Command};
use crate::search::read_search;
use ft_base::{Boxed, Words};
use ft_schema::{SchemaFault, read_alter, read_create};
use std::alloc::Global;

/// FT.CREATE.
pub(crate) fn create<'a>(
    alloc: Global,
    words: &Words<'a>,
    serial: u64,
) -> Result<Command<'a>, CmdFault>
    requires number { 5 ≤ length words.now }
    requires limit { length words.now ≤ MAX_WORDS }
    ensures exact { MatchResult result
        (λ command. created (create words.now serial) ≡ Ok (command_of command))
        (λ fault. fault ≢ CmdFault.NoMemory → created (create words.now serial) ≡ Err fault) }
    ensures lawful { IfOk result (λ command. IsLawful words.now (command_of command)) }
    ensures serial { IfOk result (λ command. HasSerial serial (command_of command)) }
{
    match read_create(alloc, words.rest(0), serial) {
        Ok(index) => Ok(Command::Create(Boxed::new(alloc, index)?)),
        Err(SchemaFault::NoMemory) => Err(CmdFault::NoMemory),
        Err(fault) => Err(CmdFault::Schema(fault)),
    }
}

/// FT.ALTER.
pub(crate) fn alter<'a>(alloc: Global, words: &Words<'a>) -> Result<Command<'a>, CmdFault>
    requires number { 6 ≤ length words.now }
    requires limit { length words.now ≤ MAX_WORDS }
    ensures exact { MatchResult result
        (λ command. altered (slice_index_or words.now 1 []) (alter words.now) ≡ Ok (command_of command))
        (λ fault. fault ≢ CmdFault.NoMemory → altered (slice_index_or words.now 1 []) (alter words.now) ≡ Err fault) }
    ensures lawful { IfOk result (λ command. IsLawful words.now (command_of command)) }
{
    match read_alter(alloc, words.rest(0)) {
        Ok(fields) => Ok(Command::Alter {
            index: words.word(1),
            fields,
        }),
        Err(SchemaFault::NoMemory) => Err(CmdFault::NoMemory),
        Err(fault) => Err(CmdFault::Schema(fault)),
    }
}

/// FT.SEARCH.
pub(crate) fn search<'a>(alloc: Global, words: &Words<'a>) -> Result<Command<'a>, CmdFault>
    requires number { 3 ≤ length words.now }
    requires limit { length words.now ≤ MAX_WORDS }
    ensures exact { MatchResult result
        (λ command. searched (search words.now) ≡ Ok (command_of command))
        (λ fault. fault ≢ CmdFault.NoMemory → searched (search words.now) ≡ Err fault) }
    ensures memory { result ≡ Err CmdFault.NoMemory → 4 ≤ length words.now }
    ensures lawful { IfOk result (λ command. IsLawful words.now (command_of command)) }
{
    match read_search(alloc, words) {
        Ok(spec) => Ok(Command::Search(spec)),
        Err(fault) => Err(fault),
    }
}

/// FT.AGGREGATE.
pub(crate) fn aggregate<'a>(alloc: Global, words: &Words<'a>) -> Result<Command<'a>, CmdFault>
    requires number { 3 ≤ length words.now }
    requires limit { length words.now ≤ MAX_WORDS }
    ensures exact { MatchResult result
        (λ command. aggregated (aggregate words.now) ≡ Ok (command_of command))
        (λ fault. fault ≢ CmdFault.NoMemory → aggregated (aggregate words.now) ≡ Err fault) }
    ensures memory { result ≡ Err CmdFault.NoMemory → 4 ≤ length words.now }
    ensures lawful { IfOk result (λ command. IsLawful words.now (command_of command)) }
{
    match read_aggregate(alloc, words) {
        Ok(spec) => Ok(Command::Aggregate(spec)),
        Err(fault) => Err(fault),
    }
}
