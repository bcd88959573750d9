//! The fields that are named before a colon, and their kinds.
ghost use Rattle.std.specs.Prelude.{◌≡◌, ◌<◌, [], IfOk, IfSome, length, slice_get};
ghost use Rattle.ft_base.specs.declared.query.Fields.TheVariants as asked;
ghost use Rattle.query_grammar.specs.Faults.{has_other, is_of};
ghost use Rattle.query_grammar.specs.Meaning.{number_of_alias};
ghost use Rattle.query_grammar.specs.Reading.{name_at, names_at};
ghost use Rattle.query_parse.specs.Gives.{Gives};
ghost use Rattle.query_parse.specs.Kinds.{passes};

use crate::parser::Parser;
use crate::stop::{Read, Stop};
use crate::tokens::{behind, next_sign};
use ft_base::{FieldKind, IndexDef};
use query_grammar::QueryFault;
use query_lex::{LexKind, Lexeme, Sign};

/// The kind of field that a target needs.
#[derive(Clone, Copy)]
pub enum Needed {
    Text,
    Tag,
    Numeric,
}

/// The numbers of the fields that are named.
pub fn names<'a>(parser: &Parser<'_>, lexemes: &'a [Lexeme]) -> Read<'a, Vec<u16>>
    ensures read { Gives (λ x. (x.0.items, x.1.now)) result
        (names_at parser.now.def.now parser.now.params [] lexemes.now) }
    ensures shorter { IfOk result (λ x. length x.1.now < length lexemes.now) }
{
    let mut numbers = Vec::new(parser.alloc);
    let mut rest = lexemes;
    'naming: loop {
        let (number, after) = match name(parser, rest) {
            Ok(read) => read,
            Err(stop) => return Err(stop),
        };
        numbers.push(number)?;
        match next_sign(after) {
            Some(Sign::Pipe) => rest = behind(after),
            _ => return Ok((numbers, after)),
        }
    }
}

/// The number of the field whose name comes next.
#[tactic(auto, unfolding(query_grammar::specs::Reading::name_at))]
fn name<'a>(parser: &Parser<'_>, lexemes: &'a [Lexeme]) -> Read<'a, u16>
    ensures read { Gives (λ x. (x.0, x.1.now)) result
        (name_at parser.now.def.now parser.now.params lexemes.now) }
    ensures shorter { IfOk result (λ x. length x.1.now < length lexemes.now) }
{
    let [first, rest @ ..] = lexemes else {
        return Err(Stop::Broken(lexemes));
    };
    match &first.kind {
        LexKind::Word(alias) => match number_of(parser, alias.as_slice()) {
            Some(number) => Ok((number, rest)),
            None => Err(Stop::Found(QueryFault::UnknownField { at: first.at }, rest)),
        },
        LexKind::Foreign(alias) => match number_of(parser, alias.as_slice()) {
            Some(_) => Err(Stop::Found(QueryFault::OutOfScope { at: first.at }, rest)),
            None => Err(Stop::Found(QueryFault::UnknownField { at: first.at }, rest)),
        },
        _ => Err(Stop::Broken(lexemes)),
    }
}

/// The number of the field with an alias.
fn number_of(parser: &Parser<'_>, alias: &[u8]) -> Option<u16>
    ensures { result ≡ number_of_alias parser.now.def.now.fields alias.now }
{
    match place_of(parser.def, alias) {
        Some(place) => Some(place as u16),
        None => None,
    }
}

fn place_of(def: &IndexDef, alias: &[u8]) -> Option<usize>
    ensures place { result ≡ number_of_alias def.now.fields alias.now }
    ensures within { IfSome result (λ place. place < length def.now.fields) }
{
    def.fields.place(alias)
}

/// Whether some of these fields is of another kind than is needed.
pub fn has_other(needed: Needed, def: &IndexDef, numbers: &[u16]) -> bool
    ensures { result ≡ has_other (passes needed) def.now.fields (asked.Named numbers.now) }
{
    numbers.iter().any(|number| !is_of(needed, def, *number))
}

fn is_of(needed: Needed, def: &IndexDef, number: u16) -> bool
    ensures { result ≡ is_of (passes needed) (slice_get def.now.fields number) }
{
    match def.fields.as_slice().get(usize::from(number)) {
        Some(field) => passes(needed, field.kind),
        None => true,
    }
}

fn passes(needed: Needed, kind: FieldKind) -> bool
    ensures { result ≡ passes needed kind }
{
    match needed {
        Needed::Text => kind.is_text(),
        Needed::Tag => kind.is_tag(),
        Needed::Numeric => kind.is_numeric(),
    }
}
