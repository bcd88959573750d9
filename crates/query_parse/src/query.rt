//! The tree of a text.
ghost use Rattle.std.specs.Prelude.{◌≡◌, ◌≤◌, Err, Result, length};
ghost use Rattle.ft_base.specs.declared.limits.TheConstants.{MAX_WORD_BYTES};
ghost use Rattle.query_grammar.specs.Answer.{IsAnswer};
ghost use Rattle.ft_base.specs.declared.query.Query.{Query};
ghost use Rattle.query_grammar.specs.Reading as reading;
ghost use Rattle.query_grammar.specs.Reading.{answer_of, whole_at};
ghost use Rattle.query_parse.specs.Answer.{IsRead, ParsedAs, lexical};
ghost use Rattle.query_parse.specs.Gives.{Gives, Stops};

use crate::params::Params;
use crate::parser::{Parser, union};
use crate::phrases::union_of;
use crate::stop::Stop;
use crate::tokens::place_of;
use ft_base::{Fields, IndexDef, ListOf, MAX_WORD_BYTES, Param, Query};
use query_grammar::{QueryFault, reading_answers};
use query_lex::{LexFault, Lexeme, lex};
use std::alloc::Global;

/// How many levels a query may have within one another.
const LEVELS: u32 = 32;

/// The tree of a text, or the first of its faults. Fields are named by their aliases in the index;
/// `$name` stands for the value of the first parameter of that name.
pub fn parse(
    alloc: Global,
    text: &[u8],
    def: &IndexDef,
    params: &ListOf<Param>,
) -> Result<Query, QueryFault>
    requires text { length text.now ≤ MAX_WORD_BYTES }
    requires fields { length def.now.fields ≤ 1_024 }
    ensures exact { IsAnswer def.now params.now text.now result }
    ensures read { ParsedAs def.now params.now text.now result }
{
    let lexemes = match lex(alloc, text) {
        Ok(lexemes) => lexemes,
        Err(fault) => return Err(lexical(fault)),
    };
    reading_answers();
    answer(
        alloc,
        def,
        params.as_slice(),
        text.len(),
        lexemes.as_slice(),
    )
}

/// The tree of the lexemes of a text of so many bytes, or the first fault. What the parser keeps has
/// one lifetime.
fn answer<'p>(
    alloc: Global,
    def: &'p IndexDef,
    params: &'p [Param],
    end: usize,
    lexemes: &[Lexeme],
) -> Result<Query, QueryFault>
    requires { length def.now.fields ≤ 1_024 }
    ensures { IsRead result (answer_of end (whole_at def.now params.now lexemes.now)) }
{
    let parser = Parser {
        alloc,
        def,
        params: Params::new(alloc, params)?,
    };
    match whole(&parser, lexemes) {
        Ok(query) => Ok(query),
        Err(stop) => Err(fault_of(end, stop)),
    }
}

/// The fault of a text of so many bytes where reading stops.
fn fault_of(end: usize, stop: Stop<'_>) -> QueryFault
    ensures { (read : Result Query reading.Stop) → Stops stop.entry read
        → IsRead (Err result) (answer_of end read) }
{
    match stop {
        Stop::Broken(rest) => QueryFault::Syntax {
            at: place_of(end, rest),
        },
        Stop::Found(fault, _) => fault,
        Stop::Cut(fault, _) => fault,
        Stop::NoMemory => QueryFault::NoMemory,
    }
}

/// A fault of the lexemes.
fn lexical(fault: LexFault) -> QueryFault
    ensures { result ≡ lexical fault }
{
    match fault {
        LexFault::OpenQuote { at } | LexFault::LoneEscape { at } => QueryFault::Syntax { at },
        LexFault::NoMemory => QueryFault::NoMemory,
    }
}

/// The tree of a text's lexemes.
#[tactic(auto, unfolding(query_grammar::specs::Reading::whole_at))]
fn whole<'a>(parser: &Parser<'_>, lexemes: &'a [Lexeme]) -> Result<Query, Stop<'a>>
    ensures { Gives (λ x. x) result
        (whole_at parser.now.def.now parser.now.params lexemes.now) }
{
    if lexemes.is_empty() {
        return Ok(Query::Empty);
    }
    let (sides, rest) = match union(parser, &Fields::All, LEVELS, lexemes) {
        Ok(read) => read,
        Err(stop) => return Err(stop),
    };
    match rest {
        [] => Ok(union_of(sides)),
        _ => Err(Stop::Broken(rest)),
    }
}
