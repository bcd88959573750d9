//! What attributes make of the part before them, and their faults.
ghost use Rattle.std.specs.Prelude.{◌≡◌, ◌≤◌, IfErr, IfOk, length, option_map, option_to_list, flat_map};
ghost use Rattle.query_grammar.specs.Faults.{attribute_faults, has_no_order, pair_faults};
ghost use Rattle.query_grammar.specs.Meaning.{asks_order, attribute_of, attributed, order_in, slop_in};
ghost use Rattle.query_grammar.specs.Reading.{Closed, behind_atom, broken_by, next_sign, with_block};
ghost use Rattle.query_parse.specs.Blocks.{IsBehindArrow, StopsBehindArrow, block_of, rest_of};
ghost use Rattle.query_parse.specs.Faults.{first};
ghost use Rattle.query_parse.specs.Gives.{GivesPart};
ghost use Rattle.query_parse.specs.Seen.{pair_of, pairs_of};

use crate::blocks::{Block, Pair, pairs};
use crate::params::Params;
use crate::parser::Parser;
use crate::phrases::{arranged, is_else};
use crate::settings::{flag_of, is_known, slop_of};
use crate::stop::{Read, Stop};
use crate::tokens::{behind, next_sign, place_of};
use crate::values::{fault_at, value_of};
use ft_base::{NoMemory, Query};
use query_grammar::QueryFault;
use query_lex::{Lexeme, Sign};

/// A part with the attributes behind it, if there are any.
pub fn attributed<'a>(
    parser: &Parser<'_>,
    is_quote: bool,
    part: Option<Query>,
    lexemes: &'a [Lexeme],
) -> Read<'a, Option<Query>>
    ensures read { GivesPart result
        (behind_atom parser.now.def.now parser.now.params is_quote
        (option_to_list part) (next_sign lexemes.now) lexemes.now) }
    ensures within { IfOk result (λ x. length x.1.now ≤ length lexemes.now) }
{
    let Some(Sign::Arrow) = next_sign(lexemes) else {
        return Ok((part, lexemes));
    };
    match block_at(parser, behind(lexemes)) {
        Ok(block) => with_block(parser, place_of(0, lexemes), is_quote, part, block),
        Err(stop) => {
            drop(part);
            Err(stop)
        }
    }
}

/// The attributes in braces that stand behind an arrow.
fn block_at<'a>(parser: &Parser<'_>, lexemes: &'a [Lexeme]) -> Result<Block<'a>, Stop<'a>>
    ensures read { IfOk result
        (IsBehindArrow parser.now.def.now parser.now.params lexemes.now) }
    ensures stops { IfErr result
        (StopsBehindArrow parser.now.def.now parser.now.params lexemes.now) }
    ensures within { IfOk result (λ block. length (rest_of block) ≤ length lexemes.now) }
{
    let Some(Sign::AttrOpen) = next_sign(lexemes) else {
        return Err(Stop::Broken(lexemes));
    };
    Ok(pairs(parser, behind(lexemes))?)
}

/// A part with its attributes, or the first fault of these.
fn with_block<'a>(
    parser: &Parser<'_>,
    at: usize,
    is_quote: bool,
    part: Option<Query>,
    block: Block<'a>,
) -> Read<'a, Option<Query>>
    ensures read { GivesPart result
        (with_block parser.now.def.now parser.now.params at is_quote (option_to_list part)
        (block_of parser.now.def.now parser.now.params block.entry)) }
    ensures rest { IfOk result (λ x. x.1.now ≡ rest_of block.entry) }
{
    match block {
        Block::Closed(pairs, rest) => with_pairs(
            parser,
            at,
            is_quote,
            part,
            pairs.as_slice(),
            rest,
        ),
        Block::Open(pairs, rest) => behind_pairs(parser, at, part, pairs.as_slice(), rest),
    }
}

/// A part with attributes that are closed, or the first fault of these.
#[tactic(auto, using(crate::proofs::FaultLemmas::by_first))]
fn with_pairs<'a>(
    parser: &Parser<'_>,
    at: usize,
    is_quote: bool,
    part: Option<Query>,
    pairs: &[Pair<'_>],
    rest: &'a [Lexeme],
) -> Read<'a, Option<Query>>
    ensures read { GivesPart result
        (with_block parser.now.def.now parser.now.params at is_quote (option_to_list part)
        (Closed (pairs_of pairs.now) rest.now)) }
    ensures rest { IfOk result (λ x. x.1.now ≡ rest.now) }
{
    match first_fault(&parser.params, at, pairs, &part) {
        Some(fault) => {
            drop(part);
            Err(Stop::Found(fault, rest))
        }
        None => Ok((ordered(parser, is_quote, pairs, part)?, rest)),
    }
}

/// The first fault of attributes that are not closed, or that they are not.
#[tactic(auto, using(crate::proofs::FaultLemmas::by_first))]
fn behind_pairs<'a>(
    parser: &Parser<'_>,
    at: usize,
    part: Option<Query>,
    pairs: &[Pair<'_>],
    rest: &'a [Lexeme],
) -> Read<'a, Option<Query>>
    ensures read { GivesPart result
        (Err (broken_by parser.now.def.now parser.now.params
        (attribute_faults parser.now.params at (pairs_of pairs.now) (option_to_list part)) rest.now)) }
    ensures rest { IfOk result (λ x. x.1.now ≡ rest.now) }
{
    let fault = first_fault(&parser.params, at, pairs, &part);
    drop(part);
    match fault {
        Some(fault) => Err(Stop::Cut(fault, rest)),
        None => Err(Stop::Broken(rest)),
    }
}

/// The first fault of the attributes behind an arrow at an offset: that the part has no order, or
/// that of one of them.
fn first_fault(
    params: &Params<'_>,
    at: usize,
    pairs: &[Pair<'_>],
    part: &Option<Query>,
) -> Option<QueryFault>
    ensures { result ≡ first (attribute_faults params.now at (pairs_of pairs.now)
        (option_to_list part.now)) }
{
    if asks_order(pairs) && has_no_order(part) {
        return Some(QueryFault::OutOfScope { at });
    }
    pairs_fault(params, pairs)
}

/// The first fault of attributes.
#[tactic(auto, using(crate::proofs::FaultLemmas::first_of))]
fn pairs_fault(params: &Params<'_>, pairs: &[Pair<'_>]) -> Option<QueryFault>
    ensures { result ≡ first (flat_map (pair_faults params.now) (pairs_of pairs.now)) }
{
    for pair in pairs {
        if let Some(fault) = pair_fault(params, pair) {
            return Some(fault);
        }
    }
    None
}

fn pair_fault(params: &Params<'_>, pair: &Pair<'_>) -> Option<QueryFault>
    ensures { result ≡ first (pair_faults params.now (pair_of pair.now)) }
{
    if !is_known(pair.name) {
        return Some(QueryFault::OutOfScope { at: pair.at });
    }
    match pair.value {
        Some(value) => fault_at(params, value),
        None => None,
    }
}

/// Whether attributes ask how words stand.
fn asks_order(pairs: &[Pair<'_>]) -> bool
    ensures { result ≡ asks_order (pairs_of pairs.now) }
{
    for pair in pairs {
        if pair.name == b"slop".as_slice() || pair.name == b"inorder".as_slice() {
            return true;
        }
    }
    false
}

/// Whether a part that is not cut is no word and no words.
fn has_no_order(part: &Option<Query>) -> bool
    ensures { result ≡ has_no_order (option_to_list part.now) }
{
    match part {
        Some(query) => is_else(query),
        None => false,
    }
}

/// A part whose attributes have no fault.
fn ordered(
    parser: &Parser<'_>,
    is_quote: bool,
    pairs: &[Pair<'_>],
    part: Option<Query>,
) -> Result<Option<Query>, NoMemory>
    ensures { IfOk result (λ left. option_to_list left
        ≡ attributed parser.now.params is_quote (pairs_of pairs.now) (option_to_list part)) }
{
    let Some(query) = part else {
        return Ok(None);
    };
    if !asks_order(pairs) {
        return Ok(Some(query));
    }
    let slop = slop_in(&parser.params, is_quote, pairs);
    let in_order = order_in(&parser.params, is_quote, pairs);
    Ok(Some(arranged(parser.alloc, slop, in_order, query)?))
}

fn slop_in(params: &Params<'_>, is_quote: bool, pairs: &[Pair<'_>]) -> Option<u32>
    ensures { result ≡ slop_in params.now is_quote (pairs_of pairs.now) }
{
    match attribute(params, b"slop", pairs) {
        Some(value) => slop_of(value),
        None => if is_quote { Some(0) } else { None },
    }
}

fn order_in(params: &Params<'_>, is_quote: bool, pairs: &[Pair<'_>]) -> bool
    ensures { result ≡ order_in params.now is_quote (pairs_of pairs.now) }
{
    match attribute(params, b"inorder", pairs) {
        Some(value) => flag_of(value).unwrap_or(is_quote),
        None => is_quote,
    }
}

/// The value of the attribute of this name, where it is there.
fn attribute<'v>(params: &'v Params<'_>, name: &[u8], pairs: &'v [Pair<'v>]) -> Option<&'v [u8]>
    ensures { option_map (λ v. v.now) result
        ≡ attribute_of params.now name.now (pairs_of pairs.now) }
{
    for pair in pairs {
        if name == pair.name {
            return match pair.value {
                Some(value) => value_of(params, &value.kind),
                None => None,
            };
        }
    }
    None
}
