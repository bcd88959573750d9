//! Parts by themselves: words, prefixes, parameters and quotes; and the end of a group.
ghost use Rattle.std.specs.Prelude.{◌≡◌, ◌∷◌, [], ◌≤◌, IfOk, length, map, option_to_list};
ghost use Rattle.query_grammar.specs.Meaning.{quote_parts, quoted, word_parts};
ghost use Rattle.query_parse.specs.Gives.{GivesClosed, GivesPart, GivesValue};
ghost use Rattle.query_parse.specs.Steps.{single_of};
ghost use Rattle.ft_base.specs.declared.query.Query.TheVariants as tree;
ghost use Rattle.query_lex.specs.declared.lexeme.LexKind.TheVariants as kinds;
ghost use Rattle.token_text.specs.Tokens.{is_stop, lowered};
ghost use Rattle.token_text.specs.declared.token.Token.{Token};

use crate::params::Params;
use crate::parser::Parser;
use crate::phrases::any_of;
use crate::stop::{Read, Stop, followed};
use crate::tokens::{behind, next_sign};
use ft_base::{Bytes, Fields, ListOf, MAX_WORD_BYTES, NoMemory, Query, StopWords};
use query_grammar::QueryFault;
use query_lex::{LexKind, Lexeme, Sign};
use std::alloc::Global;
use token_text::{TextTokens, tokens};

/// The union that a group holds, at its end.
pub fn closed<'a>(sides: Vec<Query>, lexemes: &'a [Lexeme]) -> Read<'a, Option<Query>>
    ensures read { GivesClosed sides.items lexemes.now result }
    ensures within { IfOk result (λ x. length x.1.now ≤ length lexemes.now) }
{
    match next_sign(lexemes) {
        Some(Sign::Close) => Ok((any_of(sides), behind(lexemes))),
        _ => Err(Stop::Broken(lexemes)),
    }
}

/// A part by itself, which the lexemes follow.
pub fn single<'a>(
    parser: &Parser<'_>,
    fields: &Fields,
    lexeme: &Lexeme,
    rest: &'a [Lexeme],
) -> Read<'a, Option<Query>>
    ensures read { GivesPart result
        (single_of parser.now.def.now parser.now.params fields.now lexeme.now rest.now) }
    ensures rest { IfOk result (λ x. x.1.now ≡ rest.now) }
{
    match &lexeme.kind {
        LexKind::Word(word) => followed(word_part(parser, fields, word.as_slice()), rest),
        LexKind::Prefix(word) => followed(prefix_part(parser.alloc, fields, word.as_slice()), rest),
        LexKind::Param(name) => word_param(parser, fields, name.as_slice(), lexeme.at, rest),
        LexKind::ParamPrefix(name) => {
            prefix_param(parser, fields, name.as_slice(), lexeme.at, rest)
        }
        LexKind::Quote(text) => followed(quote_part(parser, fields, text.as_slice()), rest),
        LexKind::Foreign(_) => Err(Stop::Found(QueryFault::OutOfScope { at: lexeme.at }, rest)),
        LexKind::Sign(Sign::Star) => Ok((Some(Query::All), rest)),
        _ => Ok((None, rest)),
    }
}

/// A word that is a parameter's value.
fn word_param<'a>(
    parser: &Parser<'_>,
    fields: &Fields,
    name: &[u8],
    at: usize,
    rest: &'a [Lexeme],
) -> Read<'a, Option<Query>>
    ensures read { GivesPart result
        (single_of parser.now.def.now parser.now.params fields.now
        (record { at = at; kind = kinds.Param name.now }) rest.now) }
    ensures rest { IfOk result (λ x. x.1.now ≡ rest.now) }
{
    let value = param_at(&parser.params, name, at, rest)?;
    Ok((word_part(parser, fields, value)?, rest))
}

/// A prefix that is a parameter's value.
fn prefix_param<'a>(
    parser: &Parser<'_>,
    fields: &Fields,
    name: &[u8],
    at: usize,
    rest: &'a [Lexeme],
) -> Read<'a, Option<Query>>
    ensures read { GivesPart result
        (single_of parser.now.def.now parser.now.params fields.now
        (record { at = at; kind = kinds.ParamPrefix name.now }) rest.now) }
    ensures rest { IfOk result (λ x. x.1.now ≡ rest.now) }
{
    let value = param_at(&parser.params, name, at, rest)?;
    Ok((prefix_part(parser.alloc, fields, value)?, rest))
}

/// The value of a parameter at an offset.
fn param_at<'p, 'a>(
    params: &'p Params<'_>,
    name: &[u8],
    at: usize,
    rest: &'a [Lexeme],
) -> Result<&'p [u8], Stop<'a>>
    ensures { GivesValue params.now name.now at rest.now result }
{
    match params.get(name) {
        Some(value) => Ok(value),
        None => Err(Stop::Found(QueryFault::NoParam { at }, rest)),
    }
}

/// A word, lowered, unless it is a stop word.
fn word_part(parser: &Parser<'_>, fields: &Fields, word: &[u8]) -> Result<Option<Query>, NoMemory>
    ensures { IfOk result (λ part.
        option_to_list part ≡ word_parts parser.now.def.now.stops.words fields.now word.now) }
{
    let text = word.to_ascii_lowercase(parser.alloc)?;
    if is_stop(&parser.def.stops, text.as_slice()) {
        return Ok(None);
    }
    let text = Bytes::from_vec(text);
    let fields = fields.copy(parser.alloc)?;
    Ok(Some(Query::Word { fields, text }))
}

fn is_stop(stops: &StopWords, word: &[u8]) -> bool
    ensures { result ≡ is_stop stops.now.words word.now }
{
    stops.words.has(word)
}

/// A prefix, lowered.
fn prefix_part(alloc: Global, fields: &Fields, word: &[u8]) -> Result<Option<Query>, NoMemory>
    ensures { IfOk result (λ part.
        option_to_list part ≡ tree.Prefix fields.now (lowered word.now) ∷ []) }
{
    let text = Bytes::from_vec(word.to_ascii_lowercase(alloc)?);
    let fields = fields.copy(alloc)?;
    Ok(Some(Query::Prefix { fields, text }))
}

/// The words of a quote.
fn quote_part(parser: &Parser<'_>, fields: &Fields, text: &[u8]) -> Result<Option<Query>, NoMemory>
    ensures { IfOk result (λ part.
        option_to_list part ≡ quote_parts parser.now.def.now.stops.words fields.now text.now) }
{
    // `tokens` takes no longer text. No quote of a text that is parsed is longer.
    if text.len() > MAX_WORD_BYTES {
        return Err(NoMemory);
    }
    let found = tokens(parser.alloc, text, &parser.def.stops)?;
    let words = words_of(parser.alloc, &found)?;
    quoted(parser.alloc, fields, words)
}

fn words_of(alloc: Global, found: &TextTokens) -> Result<Vec<Bytes>, NoMemory>
    ensures { IfOk result (λ words. words.items ≡ map (λ (token : Token). token.word) found.now) }
{
    let mut words = Vec::with_capacity(alloc, found.len())?;
    for i in 0..found.len() {
        words.push(Bytes::from_slice(alloc, found.word(i))?)?;
    }
    Ok(words)
}

/// Words in order and side by side.
fn quoted(alloc: Global, fields: &Fields, words: Vec<Bytes>) -> Result<Option<Query>, NoMemory>
    ensures { IfOk result (λ part. option_to_list part ≡ quoted fields.now words.items) }
{
    let mut words = words;
    if words.len() < 2 {
        return match words.pop() {
            None => Ok(None),
            Some(text) => {
                let fields = fields.copy(alloc)?;
                Ok(Some(Query::Word { fields, text }))
            }
        };
    }
    Ok(Some(Query::Phrase {
        fields: fields.copy(alloc)?,
        words: ListOf::from_vec(words),
        slop: Some(0),
        in_order: true,
    }))
}
