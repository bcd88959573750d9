//! The words of a document's TEXT fields.
ghost use Rattle.std.specs.Prelude.{◌≡◌, IfOk};
ghost use Rattle.ft_meaning.specs.Meaning.{ValuesFit, field_tokens};

use ft_base::{Doc, Field, IndexDef, NoMemory};
use std::alloc::Global;
use token_text::{TextTokens, tokens};

/// The tokens of a document's field: none where the field is not there, is no TEXT field, or is not
/// to be indexed.
pub fn field_tokens(
    alloc: Global,
    def: &IndexDef,
    doc: &Doc,
    field: &Field,
) -> Result<TextTokens, NoMemory>
    requires { ValuesFit doc.now.hash }
    ensures { IfOk result (λ found. found ≡ field_tokens def.now doc.now field.now) }
{
    if !field.kind.is_text() || field.noindex {
        return Ok(TextTokens::new(alloc));
    }
    match doc.hash().get(field.name.as_slice()) {
        Some(value) => tokens(alloc, value, &def.stops),
        None => Ok(TextTokens::new(alloc)),
    }
}
