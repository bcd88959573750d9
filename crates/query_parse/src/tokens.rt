//! The next lexeme: small tests on it, and the lexemes behind it.
ghost use Rattle.std.specs.Prelude.{◌≡◌, ◌<◌, ◌≤◌, drop, length, option_map, IfSome, IsTrue, List};
ghost use Rattle.query_grammar.specs.Answer.{place_of};
ghost use Rattle.query_grammar.specs.Grammar.{is_atom};
ghost use Rattle.ft_base.specs.declared.definition.IndexDef.{IndexDef};
ghost use Rattle.ft_base.specs.declared.query.Param.{Param};
ghost use Rattle.query_grammar.specs.Reading.{bar_at, begins_atom, begins_unary, comes, is_quote_kind, next_sign, sign_in};
ghost use Rattle.query_parse.specs.Steps.{ends_group, ends_tags};

use query_lex::{LexKind, Lexeme, Sign};

/// The sign that comes next.
pub fn next_sign(lexemes: &[Lexeme]) -> Option<Sign>
    ensures { result ≡ next_sign lexemes.now }
{
    match lexemes {
        [first, ..] => sign_in(&first.kind),
        [] => None,
    }
}

/// The sign that a lexeme is.
pub fn sign_in(kind: &LexKind) -> Option<Sign>
    ensures { result ≡ sign_in kind.now }
{
    match kind {
        LexKind::Sign(sign) => Some(*sign),
        _ => None,
    }
}

/// The lexemes behind the next.
pub fn behind(lexemes: &[Lexeme]) -> &[Lexeme]
    ensures value { result.now ≡ drop 1 lexemes.now }
    ensures within { length result.now ≤ length lexemes.now }
    ensures shorter { 0 < length lexemes.now → length result.now < length lexemes.now }
{
    match lexemes {
        [_, rest @ ..] => rest,
        [] => lexemes,
    }
}

/// Where the next lexeme begins, or the end where none comes.
pub fn place_of(end: usize, lexemes: &[Lexeme]) -> usize
    ensures { result ≡ place_of end lexemes.now }
{
    match lexemes {
        [first, ..] => first.at,
        [] => end,
    }
}

/// Whether a lexeme is a part by itself.
pub fn is_atom(kind: &LexKind) -> bool
    ensures { result ≡ is_atom kind.now }
{
    match kind {
        LexKind::Word(_)
        | LexKind::Foreign(_)
        | LexKind::Prefix(_)
        | LexKind::Param(_)
        | LexKind::ParamPrefix(_)
        | LexKind::Quote(_)
        | LexKind::Sign(Sign::Star) => true,
        _ => false,
    }
}

/// Whether a part by itself comes next, other than a group.
fn atom_comes(lexemes: &[Lexeme]) -> bool
    ensures { result ≡ comes is_atom lexemes.now }
{
    match lexemes {
        [first, ..] => is_atom(&first.kind),
        [] => false,
    }
}

/// Whether an atom comes next.
pub fn begins_atom(lexemes: &[Lexeme]) -> bool
    ensures { (def : IndexDef) (params : List Param)
        → result ≡ begins_atom def params (next_sign lexemes.now) lexemes.now }
{
    match next_sign(lexemes) {
        Some(Sign::Open) => true,
        _ => atom_comes(lexemes),
    }
}

/// The lexemes behind the bar that comes next.
pub fn bar(lexemes: &[Lexeme]) -> Option<&[Lexeme]>
    ensures bar { option_map (λ rest. rest.now) result ≡ bar_at lexemes.now }
    ensures shorter { IfSome result (λ rest. length rest.now < length lexemes.now) }
{
    match next_sign(lexemes) {
        Some(Sign::Pipe) => Some(behind(lexemes)),
        _ => None,
    }
}

/// Whether a part comes next, with a sign before it or without.
pub fn begins_unary(lexemes: &[Lexeme]) -> bool
    ensures { result ≡ begins_unary lexemes.now }
{
    match next_sign(lexemes) {
        Some(Sign::Open | Sign::Minus | Sign::Tilde | Sign::At) => true,
        _ => atom_comes(lexemes),
    }
}

/// Whether a quote comes next.
pub fn quote_comes(lexemes: &[Lexeme]) -> bool
    ensures { (def : IndexDef) (params : List Param)
        → result ≡ comes (is_quote_kind def params) lexemes.now }
{
    match lexemes {
        [first, ..] => matches!(first.kind, LexKind::Quote(_)),
        [] => false,
    }
}

/// Whether the brace comes next that closes tags.
pub fn tags_end(lexemes: &[Lexeme]) -> bool
    ensures end { result ≡ ends_tags (next_sign lexemes.now) }
    ensures some { IsTrue result → 0 < length lexemes.now }
{
    match next_sign(lexemes) {
        Some(Sign::TagClose) => true,
        _ => false,
    }
}

/// Whether the parenthesis comes next that closes a group.
pub fn group_ends(lexemes: &[Lexeme]) -> bool
    ensures { result ≡ ends_group (next_sign lexemes.now) }
{
    match next_sign(lexemes) {
        Some(Sign::Close) => true,
        _ => false,
    }
}
