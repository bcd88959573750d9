//! Why reading stops.
ghost use Rattle.std.specs.Prelude.{◌≡◌, List, IfOk, option_to_list};
ghost use Rattle.ft_base.specs.declared.query.Query.{Query};
ghost use Rattle.query_parse.specs.Gives.{GivesPart};
ghost use Rattle.query_parse.specs.declared.stop.Stop.TheVariants as stops;

use ft_base::{NoMemory, Query};
use query_grammar::QueryFault;
use query_lex::Lexeme;
use std::alloc::AllocFailed;

/// What was read, and the lexemes behind it.
pub type Read<'a, T> = Result<(T, &'a [Lexeme]), Stop<'a>>;

#[derive(Clone, Copy)]
pub enum Stop<'a> {
    /// The grammar goes no further at the first of these lexemes.
    Broken(&'a [Lexeme]),
    /// A fault that the lexeme before these settles.
    Found(QueryFault, &'a [Lexeme]),
    /// A fault before the first of these lexemes, at which the grammar goes no further.
    Cut(QueryFault, &'a [Lexeme]),
    NoMemory,
}

impl<'a> From<NoMemory> for Stop<'a> {
    ghost from_gives = { λ _ made. made ≡ stops.NoMemory };

    fn from(_: NoMemory) -> Stop<'a> {
        Stop::NoMemory
    }
}

impl<'a, T: Drop> From<AllocFailed<T>> for Stop<'a> {
    ghost from_gives = { λ _ made. made ≡ stops.NoMemory };

    fn from(_: AllocFailed<T>) -> Stop<'a> {
        Stop::NoMemory
    }
}

/// A part that the lexemes follow, where there was memory for it.
pub fn followed<'a>(
    part: Result<Option<Query>, NoMemory>,
    rest: &'a [Lexeme],
) -> Read<'a, Option<Query>>
    ensures read { (parts : List Query) → IfOk part (λ left. option_to_list left ≡ parts)
        → GivesPart result (Ok (parts, rest.now)) }
    ensures rest { IfOk result (λ x. x.1.now ≡ rest.now) }
{
    Ok((part?, rest))
}
