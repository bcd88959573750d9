//! What lexemes stand for as values, and the faults of those that have none.
ghost use Rattle.std.specs.Prelude.{◌≡◌, option_map, option_to_list};
ghost use Rattle.query_grammar.specs.Faults.{faults_at};
ghost use Rattle.query_grammar.specs.Values.{is_value, value_of};

use crate::params::Params;
use query_grammar::QueryFault;
use query_lex::{LexKind, Lexeme};

/// Whether a lexeme may stand for a value.
pub fn is_value(kind: &LexKind) -> bool
    ensures { result ≡ is_value kind.now }
{
    matches!(kind, LexKind::Raw(_) | LexKind::Param(_))
}

/// What a lexeme stands for as a value.
pub fn value_of<'v>(params: &'v Params<'_>, kind: &'v LexKind) -> Option<&'v [u8]>
    ensures { option_map (λ v. v.now) result ≡ value_of params.now kind.now }
{
    match kind {
        LexKind::Raw(text) => Some(text.as_slice()),
        LexKind::Param(name) => params.get(name.as_slice()),
        _ => None,
    }
}

/// The fault of a lexeme that stands for a value, a tag or a part.
pub fn fault_at(params: &Params<'_>, lexeme: &Lexeme) -> Option<QueryFault>
    ensures { option_to_list result ≡ faults_at params.now lexeme.now }
{
    match &lexeme.kind {
        LexKind::Param(name) | LexKind::ParamPrefix(name) => {
            match params.get(name.as_slice()) {
                Some(_) => None,
                None => Some(QueryFault::NoParam { at: lexeme.at }),
            }
        }
        LexKind::Foreign(_) => Some(QueryFault::OutOfScope { at: lexeme.at }),
        _ => None,
    }
}
