//! All that may hold one another: unions, the parts side by side in them, the signs before these,
//! groups and fields.
ghost use Rattle.std.specs.Prelude.{◌≤◌, ◌<◌, length, IfOk};
ghost use Rattle.query_grammar.specs.Grammar.{Atom, Inter, Part, Unary, Union};
ghost use Rattle.query_grammar.specs.Meaning.{denied, optional};
ghost use Rattle.query_grammar.specs.Reading.{deeper, field_at, group_at, next_sign, part_target, signed_at, target_with};
ghost use Rattle.query_parse.specs.Gives.{Gives, GivesPart};
ghost use Rattle.query_parse.specs.Reads.{reads, reads_inside};

use crate::atoms::{closed, single};
use crate::attributes::attributed;
use crate::fields::{Needed, has_other, names};
use crate::params::Params;
use crate::phrases::{add, add_side, denied, optional};
use crate::ranges::range_target;
use crate::stop::{Read, Stop};
use crate::tags::tags_target;
use crate::tokens::{
    bar, begins_atom, begins_unary, behind, group_ends, is_atom, next_sign, place_of, quote_comes,
};
use ft_base::{Fields, IndexDef, ListOf, Query};
use query_grammar::QueryFault;
use query_lex::{LexKind, Lexeme, Sign};
use std::alloc::Global;

/// What a text is read by.
#[derive(Drop)]
pub struct Parser<'p> {
    pub alloc: Global,
    pub def: &'p IndexDef,
    pub params: Params<'p>,
    ghost few_fields: { length def.now.fields ≤ 1024 },
}

/// The sides of a union.
#[cycle(parser)]
pub fn union<'a>(
    parser: &Parser<'_>,
    fields: &Fields,
    levels: u32,
    lexemes: &'a [Lexeme],
) -> Read<'a, Vec<Query>>
    ensures read { Gives (λ x. (x.0.items, x.1.now)) result
        (reads parser.now.def.now parser.now.params fields.now levels Union lexemes.now) }
    ensures shorter { IfOk result (λ x. length x.1.now < length lexemes.now) }
{
    let (parts, behind_first) = match inter(parser, fields, levels, lexemes) {
        Ok(read) => read,
        Err(stop) => return Err(stop),
    };
    let mut sides = Vec::new(parser.alloc);
    add_side(&mut sides, parts)?;
    let mut rest = behind_first;
    'joining: while let Some(behind) = bar(rest) {
        let (parts, after) = match inter(parser, fields, levels, behind) {
            Ok(read) => read,
            Err(stop) => return Err(stop),
        };
        add_side(&mut sides, parts)?;
        rest = after;
    }
    Ok((sides, rest))
}

/// The parts of a side, as far as they come.
#[cycle(parser)]
fn inter<'a>(
    parser: &Parser<'_>,
    fields: &Fields,
    levels: u32,
    lexemes: &'a [Lexeme],
) -> Read<'a, Vec<Query>>
    ensures read { Gives (λ x. (x.0.items, x.1.now)) result
        (reads parser.now.def.now parser.now.params fields.now levels Inter lexemes.now) }
    ensures shorter { IfOk result (λ x. length x.1.now < length lexemes.now) }
{
    let (first, behind_first) = match unary(parser, fields, levels, lexemes) {
        Ok(read) => read,
        Err(stop) => return Err(stop),
    };
    let mut parts = Vec::new(parser.alloc);
    add(&mut parts, first)?;
    let mut rest = behind_first;
    'joining: while begins_unary(rest) {
        let (next, after) = match unary(parser, fields, levels, rest) {
            Ok(read) => read,
            Err(stop) => return Err(stop),
        };
        add(&mut parts, next)?;
        rest = after;
    }
    Ok((parts, rest))
}

/// A part with the signs before it.
#[cycle(parser)]
#[tactic(auto, unfolding(query_grammar::specs::Reading::unary_at))]
fn unary<'a>(
    parser: &Parser<'_>,
    fields: &Fields,
    levels: u32,
    lexemes: &'a [Lexeme],
) -> Read<'a, Option<Query>>
    ensures read { GivesPart result
        (reads parser.now.def.now parser.now.params fields.now levels Unary lexemes.now) }
    ensures shorter { IfOk result (λ x. length x.1.now < length lexemes.now) }
{
    match next_sign(lexemes) {
        Some(Sign::Minus) => {
            denied_part(
                parser,
                fields,
                levels,
                place_of(0, lexemes),
                behind(lexemes),
            )
        }
        Some(Sign::Tilde) => {
            optional_part(
                parser,
                fields,
                levels,
                place_of(0, lexemes),
                behind(lexemes),
            )
        }
        Some(Sign::At) => field(parser, levels, place_of(0, lexemes), behind(lexemes)),
        _ => part(parser, fields, levels, lexemes),
    }
}

/// A part behind a minus sign at an offset, which opens a level.
#[cycle(parser)]
fn denied_part<'a>(
    parser: &Parser<'_>,
    fields: &Fields,
    levels: u32,
    at: usize,
    lexemes: &'a [Lexeme],
) -> Read<'a, Option<Query>>
    ensures read { GivesPart result
        (signed_at parser.now.def.now parser.now.params denied
        (deeper parser.now.def.now parser.now.params levels) fields.now at lexemes.now) }
    ensures within { IfOk result (λ x. length x.1.now ≤ length lexemes.now) }
{
    if levels == 0 {
        return Err(Stop::Found(QueryFault::TooDeep { at }, lexemes));
    }
    let (part, rest) = unary(parser, fields, levels - 1, lexemes)?;
    Ok((denied(parser.alloc, part)?, rest))
}

/// A part behind a tilde sign at an offset, which opens a level.
#[cycle(parser)]
fn optional_part<'a>(
    parser: &Parser<'_>,
    fields: &Fields,
    levels: u32,
    at: usize,
    lexemes: &'a [Lexeme],
) -> Read<'a, Option<Query>>
    ensures read { GivesPart result
        (signed_at parser.now.def.now parser.now.params optional
        (deeper parser.now.def.now parser.now.params levels) fields.now at lexemes.now) }
    ensures within { IfOk result (λ x. length x.1.now ≤ length lexemes.now) }
{
    if levels == 0 {
        return Err(Stop::Found(QueryFault::TooDeep { at }, lexemes));
    }
    let (part, rest) = unary(parser, fields, levels - 1, lexemes)?;
    Ok((optional(parser.alloc, part)?, rest))
}

/// A part with the attributes behind it.
#[cycle(parser)]
#[tactic(auto, unfolding(query_grammar::specs::Reading::part_at))]
fn part<'a>(
    parser: &Parser<'_>,
    fields: &Fields,
    levels: u32,
    lexemes: &'a [Lexeme],
) -> Read<'a, Option<Query>>
    ensures read { GivesPart result
        (reads parser.now.def.now parser.now.params fields.now levels Part lexemes.now) }
    ensures shorter { IfOk result (λ x. length x.1.now < length lexemes.now) }
{
    let is_quote = quote_comes(lexemes);
    let (part, rest) = atom(parser, fields, levels, lexemes)?;
    attributed(parser, is_quote, part, rest)
}

/// A part by itself, or a group.
#[cycle(parser)]
#[tactic(auto, unfolding(query_grammar::specs::Reading::atom_at))]
fn atom<'a>(
    parser: &Parser<'_>,
    fields: &Fields,
    levels: u32,
    lexemes: &'a [Lexeme],
) -> Read<'a, Option<Query>>
    ensures read { GivesPart result
        (reads parser.now.def.now parser.now.params fields.now levels Atom lexemes.now) }
    ensures shorter { IfOk result (λ x. length x.1.now < length lexemes.now) }
{
    let [first, rest @ ..] = lexemes else {
        return Err(Stop::Broken(lexemes));
    };
    match &first.kind {
        LexKind::Sign(Sign::Open) => group(parser, fields, levels, first.at, rest),
        kind => {
            if is_atom(kind) {
                single(parser, fields, first, rest)
            } else {
                Err(Stop::Broken(lexemes))
            }
        }
    }
}

/// A group, behind its parenthesis at an offset.
#[cycle(parser)]
fn group<'a>(
    parser: &Parser<'_>,
    fields: &Fields,
    levels: u32,
    at: usize,
    lexemes: &'a [Lexeme],
) -> Read<'a, Option<Query>>
    ensures read { GivesPart result
        (group_at parser.now.def.now parser.now.params
        (deeper parser.now.def.now parser.now.params levels) fields.now at lexemes.now) }
    ensures within { IfOk result (λ x. length x.1.now ≤ length lexemes.now) }
{
    if levels == 0 {
        return Err(Stop::Found(QueryFault::TooDeep { at }, lexemes));
    }
    if group_ends(lexemes) {
        return Ok((None, behind(lexemes)));
    }
    inside(parser, fields, levels - 1, lexemes)
}

/// The union in a group, and its closing parenthesis.
#[cycle(parser)]
fn inside<'a>(
    parser: &Parser<'_>,
    fields: &Fields,
    levels: u32,
    lexemes: &'a [Lexeme],
) -> Read<'a, Option<Query>>
    ensures read { GivesPart result
        (reads_inside parser.now.def.now parser.now.params fields.now levels lexemes.now) }
    ensures within { IfOk result (λ x. length x.1.now ≤ length lexemes.now) }
{
    let (sides, rest) = union(parser, fields, levels, lexemes)?;
    closed(sides, rest)
}

/// What is asked of fields, behind the sign at an offset that begins their names.
#[cycle(parser)]
fn field<'a>(
    parser: &Parser<'_>,
    levels: u32,
    at: usize,
    lexemes: &'a [Lexeme],
) -> Read<'a, Option<Query>>
    ensures read { GivesPart result
        (field_at parser.now.def.now parser.now.params
        (deeper parser.now.def.now parser.now.params levels) at lexemes.now) }
    ensures within { IfOk result (λ x. length x.1.now ≤ length lexemes.now) }
{
    if levels == 0 {
        return Err(Stop::Found(QueryFault::TooDeep { at }, lexemes));
    }
    let (numbers, rest) = names(parser, lexemes)?;
    match next_sign(rest) {
        Some(Sign::Colon) => target(parser, levels - 1, numbers, behind(rest)),
        _ => Err(Stop::Broken(rest)),
    }
}

/// What is asked of the fields of these numbers, behind their colon.
#[cycle(parser)]
fn target<'a>(
    parser: &Parser<'_>,
    levels: u32,
    numbers: Vec<u16>,
    lexemes: &'a [Lexeme],
) -> Read<'a, Option<Query>>
    ensures read { GivesPart result
        (target_with parser.now.def.now parser.now.params
        (λ fields sort. reads parser.now.def.now parser.now.params fields levels sort)
        numbers.items (next_sign lexemes.now) lexemes.now) }
    ensures within { IfOk result (λ x. length x.1.now ≤ length lexemes.now) }
{
    match next_sign(lexemes) {
        Some(Sign::RangeOpen) => range_target(parser, numbers.as_slice(), lexemes),
        Some(Sign::TagOpen) => tags_target(parser, numbers.as_slice(), lexemes),
        _ => part_target(parser, levels, numbers, lexemes),
    }
}

/// A part within the fields of these numbers.
#[cycle(parser)]
fn part_target<'a>(
    parser: &Parser<'_>,
    levels: u32,
    numbers: Vec<u16>,
    lexemes: &'a [Lexeme],
) -> Read<'a, Option<Query>>
    ensures read { GivesPart result
        (part_target parser.now.def.now parser.now.params
        (λ fields sort. reads parser.now.def.now parser.now.params fields levels sort)
        numbers.items lexemes.now) }
    ensures within { IfOk result (λ x. length x.1.now ≤ length lexemes.now) }
{
    if !begins_atom(lexemes) {
        return Err(Stop::Broken(lexemes));
    }
    if has_other(Needed::Text, parser.def, numbers.as_slice()) {
        let fault = QueryFault::WrongKind {
            at: place_of(0, lexemes),
        };
        return Err(Stop::Found(fault, behind(lexemes)));
    }
    let fields = Fields::Named(ListOf::from_vec(numbers));
    part(parser, &fields, levels, lexemes)
}
