//! Where lexemes stand.
ghost use Rattle.std.specs.Prelude.{◌≡◌};
ghost use Rattle.query_lex.specs.Context.{is_enclosed, behind, behind_colon, behind_sign, context_behind};

use crate::lexeme::{LexKind, Sign};

/// Where a lexeme stands: in the text, there directly behind a colon or an arrow, in brackets, or in
/// the braces of tags or attributes.
#[derive(Clone, Copy)]
pub enum Context {
    Text,
    AfterColon,
    AfterArrow,
    Range,
    Tags,
    Attributes,
}

/// Whether it is within brackets or braces.
pub fn is_enclosed(context: Context) -> bool
    ensures { result ≡ is_enclosed context }
{
    match context {
        Context::Range | Context::Tags | Context::Attributes => true,
        Context::Text | Context::AfterColon | Context::AfterArrow => false,
    }
}

/// Where the next lexeme stands behind one, or behind what only separates.
pub fn context_behind(context: Context, kind: &Option<LexKind>) -> Context
    ensures { result ≡ context_behind context kind.now }
{
    match kind {
        None => context,
        Some(LexKind::Sign(sign)) => behind_sign(context, *sign),
        Some(_) => behind(context),
    }
}

fn behind_sign(context: Context, sign: Sign) -> Context
    ensures { result ≡ behind_sign context sign }
{
    match sign {
        Sign::Colon => behind_colon(context),
        Sign::Arrow => Context::AfterArrow,
        Sign::RangeOpen => Context::Range,
        Sign::TagOpen => Context::Tags,
        Sign::AttrOpen => Context::Attributes,
        Sign::RangeClose | Sign::TagClose | Sign::AttrClose => Context::Text,
        _ => behind(context),
    }
}

fn behind_colon(context: Context) -> Context
    ensures { result ≡ behind_colon context }
{
    match context {
        Context::Text | Context::AfterColon | Context::AfterArrow => Context::AfterColon,
        Context::Range | Context::Tags | Context::Attributes => context,
    }
}

fn behind(context: Context) -> Context
    ensures { result ≡ behind context }
{
    match context {
        Context::Text | Context::AfterColon | Context::AfterArrow => Context::Text,
        Context::Range | Context::Tags | Context::Attributes => context,
    }
}
