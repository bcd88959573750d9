//! What a byte begins where it stands.
ghost use Rattle.std.specs.Prelude.{◌≡◌};
ghost use Rattle.query_lex.specs.Roles.{bracket_in, brace_in, sign_role, text_role, range_role};
ghost use Rattle.query_lex.specs.Roles.{tag_role, attribute_role, role_in, is_raw};

use crate::context::Context;
use crate::lexeme::Sign;
use crate::separators::begins_word;

/// What a byte begins.
#[derive(Clone, Copy)]
pub enum Role {
    Word,
    Dollar,
    Quote,
    Star,
    Equals,
    Percent,
    /// A lexeme of its own.
    Sign(Sign),
    /// A run of bytes as they stand.
    Raw,
    /// A piece of a tag brace.
    Piece,
    /// Nothing: it only separates.
    Blank,
}

/// What a byte begins there.
pub fn role_in(context: Context, byte: u8) -> Role
    ensures { result ≡ role_in context byte }
{
    match context {
        Context::Text | Context::AfterColon | Context::AfterArrow => text_role(context, byte),
        Context::Range => range_role(byte),
        Context::Tags => tag_role(byte),
        Context::Attributes => attribute_role(byte),
    }
}

#[tactic(auto, unfolding(crate::specs::Roles::text_role))]
fn text_role(context: Context, byte: u8) -> Role
    ensures { result ≡ text_role context byte }
{
    if begins_word(byte) {
        return Role::Word;
    }
    match byte {
        b'$' => Role::Dollar,
        b'"' => Role::Quote,
        b'*' => Role::Star,
        b'=' => Role::Equals,
        b'%' => Role::Percent,
        _ => sign_role(context, byte),
    }
}

#[tactic(auto, unfolding(crate::specs::Roles::sign_role))]
fn sign_role(context: Context, byte: u8) -> Role
    ensures { result ≡ sign_role context byte }
{
    match byte {
        b'(' => Role::Sign(Sign::Open),
        b')' => Role::Sign(Sign::Close),
        b'|' => Role::Sign(Sign::Pipe),
        b'-' => Role::Sign(Sign::Minus),
        b'~' => Role::Sign(Sign::Tilde),
        b'@' => Role::Sign(Sign::At),
        b':' => Role::Sign(Sign::Colon),
        b'[' => Role::Sign(bracket_in(context)),
        b'{' => Role::Sign(brace_in(context)),
        b']' | b'}' => Role::Sign(Sign::Stray),
        _ => Role::Blank,
    }
}

fn bracket_in(context: Context) -> Sign
    ensures { result ≡ bracket_in context }
{
    match context {
        Context::AfterColon => Sign::RangeOpen,
        _ => Sign::Stray,
    }
}

fn brace_in(context: Context) -> Sign
    ensures { result ≡ brace_in context }
{
    match context {
        Context::AfterColon => Sign::TagOpen,
        Context::AfterArrow => Sign::AttrOpen,
        _ => Sign::Stray,
    }
}

#[tactic(auto, unfolding(crate::specs::Roles::range_role))]
fn range_role(byte: u8) -> Role
    ensures { result ≡ range_role byte }
{
    match byte {
        b' ' => Role::Blank,
        b'(' => Role::Sign(Sign::Open),
        b'[' => Role::Sign(Sign::Stray),
        b']' => Role::Sign(Sign::RangeClose),
        b'$' => Role::Dollar,
        _ => Role::Raw,
    }
}

#[tactic(auto, unfolding(crate::specs::Roles::tag_role))]
fn tag_role(byte: u8) -> Role
    ensures { result ≡ tag_role byte }
{
    match byte {
        b' ' | b'|' => Role::Blank,
        b'}' => Role::Sign(Sign::TagClose),
        _ => Role::Piece,
    }
}

#[tactic(auto, unfolding(crate::specs::Roles::attribute_role))]
fn attribute_role(byte: u8) -> Role
    ensures { result ≡ attribute_role byte }
{
    match byte {
        b' ' => Role::Blank,
        b';' => Role::Sign(Sign::Semi),
        b'}' => Role::Sign(Sign::AttrClose),
        b':' => Role::Sign(Sign::Colon),
        b'$' => Role::Dollar,
        _ => Role::Raw,
    }
}

/// Whether a byte is kept there as it stands.
pub fn is_raw(context: Context, byte: u8) -> bool
    ensures { result ≡ is_raw context byte }
{
    matches!(role_in(context, byte), Role::Raw)
}
