//! Tags in their braces.
ghost use Rattle.std.specs.Prelude.{◌≡◌, ◌<◌, ◌≤◌, [], IfOk, length, slice_get};
ghost use Rattle.query_grammar.specs.Meaning.{case_of, tag_text};
ghost use Rattle.query_grammar.specs.Reading.{tags_at, tags_target};
ghost use Rattle.query_parse.specs.Gives.{Gives, GivesPart};
ghost use Rattle.query_parse.specs.Steps.{tag_at};

use crate::fields::{Needed, has_other};
use crate::parser::Parser;
use crate::stop::{Read, Stop};
use crate::tokens::{behind, place_of, tags_end};
use ft_base::{Bytes, FieldKind, IndexDef, ListOf, NoMemory, Query, TagPart};
use query_grammar::QueryFault;
use query_lex::{LexKind, Lexeme};
use std::alloc::Global;

/// What is asked of a TAG field, at the brace behind its colon.
pub fn tags_target<'a>(
    parser: &Parser<'_>,
    numbers: &[u16],
    lexemes: &'a [Lexeme],
) -> Read<'a, Option<Query>>
    ensures read { GivesPart result
        (tags_target parser.now.def.now parser.now.params numbers.now lexemes.now) }
    ensures within { IfOk result (λ x. length x.1.now ≤ length lexemes.now) }
{
    let [field] = numbers else {
        return Err(Stop::Broken(lexemes));
    };
    if has_other(Needed::Tag, parser.def, numbers) {
        let fault = QueryFault::WrongKind {
            at: place_of(0, lexemes),
        };
        return Err(Stop::Found(fault, behind(lexemes)));
    }
    let (tags, rest) = tags(parser, has_case(parser.def, *field), behind(lexemes))?;
    let tags = ListOf::from_vec(tags);
    Ok((
        Some(Query::Tags {
            field: *field,
            tags,
        }),
        rest,
    ))
}

/// Whether case matters for the tags of a field.
fn has_case(def: &IndexDef, field: u16) -> bool
    ensures { result ≡ case_of (slice_get def.now.fields field) }
{
    match def.fields.as_slice().get(usize::from(field)) {
        Some(field) => match field.kind {
            FieldKind::Tag { case, .. } => case,
            FieldKind::Text | FieldKind::Numeric => false,
        },
        None => false,
    }
}

/// The tags up to their closing brace.
fn tags<'a>(parser: &Parser<'_>, case: bool, lexemes: &'a [Lexeme]) -> Read<'a, Vec<TagPart>>
    ensures read { Gives (λ x. (x.0.items, x.1.now)) result
        (tags_at parser.now.def.now parser.now.params case [] lexemes.now) }
    ensures shorter { IfOk result (λ x. length x.1.now < length lexemes.now) }
{
    let mut parts = Vec::new(parser.alloc);
    let mut rest = lexemes;
    'reading: loop {
        if tags_end(rest) {
            return Ok((parts, behind(rest)));
        }
        let (part, after) = match tag(parser, case, rest) {
            Ok(read) => read,
            Err(stop) => return Err(stop),
        };
        parts.push(part)?;
        rest = after;
    }
}

/// The tag that comes next.
fn tag<'a>(parser: &Parser<'_>, case: bool, lexemes: &'a [Lexeme]) -> Read<'a, TagPart>
    ensures read { Gives (λ x. (x.0, x.1.now)) result
        (tag_at parser.now.params case lexemes.now) }
    ensures shorter { IfOk result (λ x. length x.1.now < length lexemes.now) }
{
    let [first, rest @ ..] = lexemes else {
        return Err(Stop::Broken(lexemes));
    };
    match &first.kind {
        LexKind::Tag { text, prefix } => {
            let text = tag_text(parser.alloc, case, text.as_slice())?;
            Ok((
                TagPart {
                    text,
                    prefix: *prefix,
                },
                rest,
            ))
        }
        LexKind::Param(name) => match parser.params.get(name.as_slice()) {
            Some(value) => {
                let text = tag_text(parser.alloc, case, value)?;
                Ok((
                    TagPart {
                        text,
                        prefix: false,
                    },
                    rest,
                ))
            }
            None => Err(Stop::Found(QueryFault::NoParam { at: first.at }, rest)),
        },
        _ => Err(Stop::Broken(lexemes)),
    }
}

/// A tag as it is compared.
fn tag_text(alloc: Global, case: bool, text: &[u8]) -> Result<Bytes, NoMemory>
    ensures { IfOk result (λ tag. tag ≡ tag_text case text.now) }
{
    if case {
        Bytes::from_slice(alloc, text)
    } else {
        Ok(Bytes::from_vec(text.to_ascii_lowercase(alloc)?))
    }
}
