//! The lexemes of a text, read from the left up to the first fault.
ghost use Rattle.std.specs.Prelude.{◌≡◌, ◌≤◌, ◌++◌, length, Ok, IfOk, IfErr, OnOk};
ghost use Rattle.query_lex.specs.Gives.{Gives, IsFaultOf};
ghost use Rattle.query_lex.specs.Lexemes.{percent_at, lexeme_at, at_place, lexed, fault_at, fault_of, lexemes};
ghost use Rattle.query_lex.specs.Places.{Rise};

use crate::context::{Context, context_behind, is_enclosed};
use crate::fault::{Cause, LexFault, Stop};
use crate::lexeme::{LexKind, Lexeme};
use crate::piece::piece;
use crate::quote::quote;
use crate::raw::raw;
use crate::role::{Role, role_in};
use crate::separators::first;
use crate::word::{arrow, param, star, word};
use ft_base::{Bytes, ListOf, NoMemory};
use std::alloc::Global;

/// The lexemes of a text, or its first fault. Any text may want memory.
#[tactic(auto, unfolding(crate::specs::Lexemes::lexemes))]
pub fn lex(alloc: Global, text: &[u8]) -> Result<ListOf<Lexeme>, LexFault>
    ensures ok { IfOk result (λ found. lexemes text.now ≡ Ok found) }
    ensures err { IfErr result (λ fault. IsFaultOf fault (lexemes text.now)) }
    ensures places { IfOk result (λ found. Rise 0 (length text.now) found) }
{
    match lexed(alloc, text) {
        Ok(found) => Ok(ListOf::from_vec(found)),
        Err(stop) => Err(fault_of(text.len(), stop)),
    }
}

/// A fault at its place, in a text of so many bytes.
fn fault_of(total: usize, stop: Stop) -> LexFault
    ensures { result ≡ fault_of total stop }
{
    match stop {
        Stop::Fault { cause, left } => fault_at(cause, total.saturating_sub(left)),
        Stop::NoMemory => LexFault::NoMemory,
    }
}

fn fault_at(cause: Cause, at: usize) -> LexFault
    ensures { result ≡ fault_at cause at }
{
    match cause {
        Cause::OpenQuote => LexFault::OpenQuote { at },
        Cause::LoneEscape => LexFault::LoneEscape { at },
    }
}

/// The lexemes of a text.
fn lexed(alloc: Global, text: &[u8]) -> Result<Vec<Lexeme>, Stop>
    ensures read { Gives (λ found. found.items) result (lexed text.now) }
    ensures places { IfOk result (λ found. Rise 0 (length text.now) found.items) }
{
    let mut found = Vec::new(alloc);
    let mut context = Context::Text;
    let mut rest = text;
    'lexing: while let Some((byte, behind)) = first(rest) {
        let (kind, behind) = match lexeme(alloc, context, byte, behind) {
            Ok(read) => read,
            Err(stop) => return Err(stop),
        };
        context = context_behind(context, &kind);
        add(&mut found, text.len() - rest.len(), kind)?;
        rest = behind;
    }
    Ok(found)
}

/// Adds a lexeme, if there is one.
fn add(found: &mut Vec<Lexeme>, at: usize, kind: Option<LexKind>) -> Result<(), NoMemory>
    ensures { OnOk result (found.new.items ≡ found.old.items ++ at_place at kind) }
{
    match kind {
        Some(kind) => {
            found.push(Lexeme { at, kind })?;
            Ok(())
        }
        None => Ok(()),
    }
}

/// The lexeme that a byte begins, or none where it only separates; and the bytes behind.
#[tactic(auto, unfolding(crate::specs::Lexemes::lexeme_at))]
fn lexeme(
    alloc: Global,
    context: Context,
    byte: u8,
    rest: &[u8],
) -> Result<(Option<LexKind>, &[u8]), Stop>
    ensures read { Gives (λ x. (x.0, x.1.now)) result (lexeme_at context byte rest.now) }
    ensures within { IfOk result (λ x. length x.1.now ≤ length rest.now) }
{
    match role_in(context, byte) {
        Role::Word => word(alloc, byte, rest),
        Role::Dollar => param(alloc, !is_enclosed(context), rest),
        Role::Quote => quote(alloc, rest),
        Role::Star => star(alloc, rest),
        Role::Equals => Ok(arrow(rest)),
        Role::Percent => percent(alloc, rest),
        Role::Sign(sign) => Ok((Some(LexKind::Sign(sign)), rest)),
        Role::Raw => raw(alloc, context, byte, rest),
        Role::Piece => piece(alloc, byte, rest),
        Role::Blank => Ok((None, rest)),
    }
}

/// A `%`, which begins a form that is left out.
fn percent(alloc: Global, rest: &[u8]) -> Result<(Option<LexKind>, &[u8]), Stop>
    ensures read { Gives (λ x. (x.0, x.1.now)) result (percent_at rest.now) }
    ensures within { IfOk result (λ x. length x.1.now ≤ length rest.now) }
{
    Ok((
        Some(LexKind::Foreign(Bytes::from_slice(alloc, b"%")?)),
        rest,
    ))
}
