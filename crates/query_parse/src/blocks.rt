//! Attributes in their braces, up to the closing one or to where the grammar goes no further.
ghost use Rattle.std.specs.Prelude.{◌≡◌, ◌++◌, ◌∷◌, ◌||◌, ◌≤◌, ℕ, [], IfOk, List, OnOk, length, bytes_eq};
ghost use Rattle.query_grammar.specs.Reading.{pairs_at};
ghost use Rattle.query_parse.specs.Blocks.{IsBehindName, IsClosed, IsNext, IsOpen, IsShorter, IsWithin, and_one, block_of, rest_of};
ghost use Rattle.query_parse.specs.NameKeys.{HasNames, holds};
ghost use Rattle.query_parse.specs.Seen.{pairs_of};

use crate::name_set::{NameSet, add_name, has_name, no_names};
use crate::params::Params;
use crate::parser::Parser;
use crate::settings::is_attribute;
use crate::tokens::{behind, next_sign};
use ft_base::NoMemory;
use query_lex::{LexKind, Lexeme, Sign};
use std::alloc::Global;

/// An attribute: its name and where it stands, and its value, which is missing where the text
/// breaks off.
#[derive(Clone, Copy)]
pub struct Pair<'a> {
    pub at: usize,
    pub name: &'a [u8],
    pub value: Option<&'a Lexeme>,
}

/// Attributes in their braces and the lexemes behind; or those before the lexeme at which the
/// grammar goes no further.
#[derive(Drop)]
pub enum Block<'a> {
    Closed(Vec<Pair<'a>>, &'a [Lexeme]),
    Open(Vec<Pair<'a>>, &'a [Lexeme]),
}

/// What stands next in the braces: an attribute and a semicolon, and what comes then; the closing
/// brace, behind an attribute or not; or a lexeme at which the grammar goes no further, the last of
/// whose attributes may have no value.
#[derive(Clone, Copy)]
pub enum Step<'a> {
    More(Pair<'a>, &'a [Lexeme]),
    Closed(Option<Pair<'a>>, &'a [Lexeme]),
    Open(Option<Pair<'a>>, &'a [Lexeme]),
}

/// The attributes in braces, behind their opening one.
pub fn pairs<'a>(parser: &Parser<'_>, lexemes: &'a [Lexeme]) -> Result<Block<'a>, NoMemory>
    ensures read { IfOk result (λ block. block_of parser.now.def.now parser.now.params block
        ≡ pairs_at parser.now.def.now parser.now.params [] lexemes.now) }
    ensures within { IfOk result (λ block. length (rest_of block) ≤ length lexemes.now) }
{
    let mut names = no_names(parser.alloc);
    let block = pairs_named(parser, &mut names, lexemes);
    drop(names);
    block
}

/// The same, where the names of the attributes so far are none, and are noted.
fn pairs_named<'a>(
    parser: &Parser<'_>,
    names: &mut NameSet,
    lexemes: &'a [Lexeme],
) -> Result<Block<'a>, NoMemory>
    requires none { HasNames names.old [] }
    ensures read { IfOk result (λ block. block_of parser.now.def.now parser.now.params block
        ≡ pairs_at parser.now.def.now parser.now.params [] lexemes.now) }
    ensures within { IfOk result (λ block. length (rest_of block) ≤ length lexemes.now) }
{
    let mut pairs = Vec::new(parser.alloc);
    let mut rest = lexemes;
    'reading: loop {
        match next_step(&parser.params, names, rest) {
            Step::More(pair, behind) => {
                note(parser.alloc, names, &mut pairs, pair)?;
                rest = behind;
            }
            Step::Closed(pair, behind) => return closed(pairs, pair, behind),
            Step::Open(pair, behind) => return open(pairs, pair, behind),
        }
    }
}

/// Adds an attribute and its name.
fn note<'a>(
    alloc: Global,
    names: &mut NameSet,
    pairs: &mut Vec<Pair<'a>>,
    pair: Pair<'a>,
) -> Result<(), NoMemory>
    ensures names { OnOk result ((other : List ℕ)
        → holds names.new other ≡ (bytes_eq other pair.entry.name.now || holds names.old other)) }
    ensures pairs { OnOk result (pairs.new.items ≡ pairs.old.items ++ pair.entry ∷ []) }
{
    add_name(alloc, names, pair.name)?;
    pairs.push(pair)?;
    Ok(())
}

fn closed<'a>(
    pairs: Vec<Pair<'a>>,
    last: Option<Pair<'a>>,
    rest: &'a [Lexeme],
) -> Result<Block<'a>, NoMemory>
    ensures read { IfOk result (IsClosed pairs.entry.items last.entry rest.now) }
    ensures rest { IfOk result (λ block. rest_of block ≡ rest.now) }
{
    Ok(Block::Closed(and_one(pairs, last)?, rest))
}

fn open<'a>(
    pairs: Vec<Pair<'a>>,
    last: Option<Pair<'a>>,
    rest: &'a [Lexeme],
) -> Result<Block<'a>, NoMemory>
    ensures read { IfOk result (IsOpen pairs.entry.items last.entry rest.now) }
    ensures rest { IfOk result (λ block. rest_of block ≡ rest.now) }
{
    Ok(Block::Open(and_one(pairs, last)?, rest))
}

/// Attributes and one more, if there is one.
fn and_one<'a>(pairs: Vec<Pair<'a>>, pair: Option<Pair<'a>>) -> Result<Vec<Pair<'a>>, NoMemory>
    ensures { IfOk result (λ made. pairs_of made.items ≡ and_one (pairs_of pairs.entry.items) pair.entry) }
{
    let mut made = pairs;
    if let Some(pair) = pair {
        made.push(pair)?;
    }
    Ok(made)
}

/// What stands next, behind attributes of these names.
fn next_step<'a>(params: &Params<'_>, names: &NameSet, lexemes: &'a [Lexeme]) -> Step<'a>
    ensures read { IsNext params.now names.now lexemes.now result }
    ensures shorter { IsShorter result lexemes.now }
{
    let [first, ..] = lexemes else {
        return Step::Open(None, lexemes);
    };
    match &first.kind {
        LexKind::Sign(Sign::AttrClose) => Step::Closed(None, behind(lexemes)),
        LexKind::Param(name) => {
            if has_name(names, name.as_slice()) {
                Step::Open(None, lexemes)
            } else {
                named(params, first.at, name.as_slice(), behind(lexemes))
            }
        }
        _ => Step::Open(None, lexemes),
    }
}

/// What stands behind the name of an attribute.
fn named<'a>(params: &Params<'_>, at: usize, name: &'a [u8], lexemes: &'a [Lexeme]) -> Step<'a>
    ensures read { IsBehindName params.now at name.now lexemes.now result }
    ensures shorter { IsWithin result lexemes.now }
{
    let Some(Sign::Colon) = next_sign(lexemes) else {
        return Step::Open(
            Some(Pair {
                at,
                name,
                value: None,
            }),
            lexemes,
        );
    };
    match behind(lexemes) {
        [value, rest @ ..] if is_attribute(params, name, &value.kind) => {
            let pair = Pair {
                at,
                name,
                value: Some(value),
            };
            match next_sign(rest) {
                Some(Sign::Semi) => Step::More(pair, behind(rest)),
                Some(Sign::AttrClose) => Step::Closed(Some(pair), behind(rest)),
                _ => Step::Open(Some(pair), rest),
            }
        }
        rest => Step::Open(
            Some(Pair {
                at,
                name,
                value: None,
            }),
            rest,
        ),
    }
}
