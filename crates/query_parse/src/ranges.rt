//! Ranges of numbers in their brackets.
ghost use Rattle.std.specs.Prelude.{◌≡◌, ◌<◌, ◌≤◌, IfNone, IfOk, IfSome, length, negsuc, pos};
ghost use Rattle.ft_base.specs.declared.definition.IndexDef.{IndexDef};
ghost use Rattle.query_grammar.specs.Grammar.{is_edge};
ghost use Rattle.query_grammar.specs.Meaning.{edge_bound, range_high, range_low};
ghost use Rattle.query_grammar.specs.Reading.{edge_at, range_at, range_by, range_target, value_at};
ghost use Rattle.query_parse.specs.Gives.{Gives, GivesPart};
ghost use Rattle.query_parse.specs.Seen.{edge_of};

use crate::fields::{Needed, has_other};
use crate::params::Params;
use crate::parser::Parser;
use crate::stop::{Read, Stop};
use crate::tokens::{behind, next_sign, place_of};
use crate::values::{fault_at, is_value, value_of};
use field_text::{Bound, read_bound};
use ft_base::Query;
use query_grammar::QueryFault;
use query_lex::{LexKind, Lexeme, Sign};

/// An end of a range: its value, and whether the value itself is left out.
#[derive(Clone, Copy)]
pub struct Edge<'a> {
    pub excluded: bool,
    pub value: &'a Lexeme,
}

/// What is asked of a NUMERIC field, at the bracket behind its colon.
pub fn range_target<'a>(
    parser: &Parser<'_>,
    numbers: &[u16],
    lexemes: &'a [Lexeme],
) -> Read<'a, Option<Query>>
    ensures read { GivesPart result
        (range_target parser.now.def.now parser.now.params numbers.now lexemes.now) }
    ensures within { IfOk result (λ x. length x.1.now ≤ length lexemes.now) }
{
    let [field] = numbers else {
        return Err(Stop::Broken(lexemes));
    };
    if has_other(Needed::Numeric, parser.def, numbers) {
        let fault = QueryFault::WrongKind {
            at: place_of(0, lexemes),
        };
        return Err(Stop::Found(fault, behind(lexemes)));
    }
    range(parser, *field, behind(lexemes))
}

/// A range of a field, behind its opening bracket.
#[tactic(auto, unfolding(query_grammar::specs::Reading::range_at))]
fn range<'a>(parser: &Parser<'_>, field: u16, lexemes: &'a [Lexeme]) -> Read<'a, Option<Query>>
    ensures read { GivesPart result
        (range_at parser.now.def.now parser.now.params field lexemes.now) }
    ensures within { IfOk result (λ x. length x.1.now ≤ length lexemes.now) }
{
    let (low, behind_low) = next_edge(&parser.params, lexemes)?;
    let (high, rest) = next_edge(&parser.params, behind_low)?;
    match next_sign(rest) {
        Some(Sign::RangeClose) => {
            let range = range_by(&parser.params, field, &low, &high);
            Ok((Some(range), behind(rest)))
        }
        _ => Err(Stop::Broken(rest)),
    }
}

/// An end of a range, with its parenthesis or without.
fn next_edge<'a>(params: &Params<'_>, lexemes: &'a [Lexeme]) -> Read<'a, Edge<'a>>
    ensures read { (def : IndexDef)
        → Gives (λ x. (edge_of x.0, x.1.now)) result (edge_at def params.now lexemes.now) }
    ensures within { IfOk result (λ x. length x.1.now ≤ length lexemes.now) }
{
    match next_sign(lexemes) {
        Some(Sign::Open) => value(params, true, behind(lexemes)),
        _ => value(params, false, lexemes),
    }
}

/// The value of an end.
#[tactic(auto, unfolding(query_grammar::specs::Reading::value_at))]
fn value<'a>(params: &Params<'_>, excluded: bool, lexemes: &'a [Lexeme]) -> Read<'a, Edge<'a>>
    ensures read { (def : IndexDef)
        → Gives (λ x. (edge_of x.0, x.1.now)) result
        (value_at def params.now excluded lexemes.now) }
    ensures within { IfOk result (λ x. length x.1.now ≤ length lexemes.now) }
{
    let [value, rest @ ..] = lexemes else {
        return Err(Stop::Broken(lexemes));
    };
    if !is_edge(params, &value.kind) {
        return Err(Stop::Broken(lexemes));
    }
    match fault_at(params, value) {
        Some(fault) => Err(Stop::Found(fault, rest)),
        None => Ok((Edge { excluded, value }, rest)),
    }
}

/// Whether a lexeme may be an end of a range.
fn is_edge(params: &Params<'_>, kind: &LexKind) -> bool
    ensures { result ≡ is_edge params.now kind.now }
{
    if !is_value(kind) {
        return false;
    }
    match value_of(params, kind) {
        Some(value) => read_bound(value).is_some(),
        None => true,
    }
}

fn edge_bound(params: &Params<'_>, edge: &Edge<'_>) -> Option<Bound>
    ensures { result ≡ edge_bound params.now (edge_of edge.now) }
{
    match value_of(params, &edge.value.kind) {
        Some(value) => read_bound(value),
        None => None,
    }
}

/// The range between two ends; no document where no number lies between them.
fn range_by(params: &Params<'_>, field: u16, low: &Edge<'_>, high: &Edge<'_>) -> Query
    ensures { (def : IndexDef)
        → result ≡ range_by def params.now field (edge_of low.now) (edge_of high.now) }
{
    let low = range_low(low.excluded, edge_bound(params, low));
    let high = range_high(high.excluded, edge_bound(params, high));
    match (low, high) {
        (Some(low), Some(high)) if low <= high => Query::Range { field, low, high },
        _ => Query::Empty,
    }
}

/// The least number of a range, if it has 64 bits.
fn range_low(excluded: bool, bound: Option<Bound>) -> Option<i64>
    ensures some { IfSome result (λ n. range_low excluded bound ≡ n) }
    ensures none { IfNone result (range_low excluded bound ≡ pos 9223372036854775808) }
{
    match bound {
        Some(bound) => bound.low(excluded),
        None => Some(i64::MIN),
    }
}

/// The greatest number of a range, if it has 64 bits.
fn range_high(excluded: bool, bound: Option<Bound>) -> Option<i64>
    ensures some { IfSome result (λ n. range_high excluded bound ≡ n) }
    ensures none { IfNone result (range_high excluded bound ≡ negsuc 9223372036854775808) }
{
    match bound {
        Some(bound) => bound.high(excluded),
        None => Some(i64::MAX),
    }
}
