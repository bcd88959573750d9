//! Whether a document is in an index, from its key and hash alone. Nothing here takes memory.
ghost use Rattle.std.specs.Prelude.{◌≡◌};
ghost use Rattle.ft_meaning.specs.Member.{has_prefix, takes_key, field_reads};
ghost use Rattle.ft_meaning.specs.Member.{numbers_read, member, failed};

use field_text::number;
use ft_base::{Bytes, Doc, Field, HashView, IndexDef};

/// Whether a document is a member of an index.
pub fn member(def: &IndexDef, doc: &Doc) -> bool
    ensures { result ≡ member def.now doc.now }
{
    takes_key(def.prefixes.as_slice(), doc.key())
        && numbers_read(def.fields.as_slice(), &doc.hash())
}

/// Whether a document that an index takes by its key is no member of it.
pub fn failed(def: &IndexDef, doc: &Doc) -> bool
    ensures { result ≡ failed def.now doc.now }
{
    takes_key(def.prefixes.as_slice(), doc.key())
        && !numbers_read(def.fields.as_slice(), &doc.hash())
}

fn takes_key(prefixes: &[Bytes], key: &[u8]) -> bool
    ensures { result ≡ takes_key prefixes.now key.now }
{
    match prefixes {
        [] => true,
        [_, ..] => has_prefix(prefixes, key),
    }
}

fn has_prefix(prefixes: &[Bytes], key: &[u8]) -> bool
    ensures { result ≡ has_prefix prefixes.now key.now }
{
    prefixes
        .iter()
        .any(|prefix| key.starts_with(prefix.as_slice()))
}

fn numbers_read(fields: &[Field], hash: &HashView<'_>) -> bool
    ensures { result ≡ numbers_read fields.now hash.now }
{
    fields.iter().all(|field| field_reads(hash, field))
}

fn field_reads(hash: &HashView<'_>, field: &Field) -> bool
    ensures { result ≡ field_reads hash.now field.now }
{
    if !field.kind.is_numeric() {
        return true;
    }
    match hash.get(field.name.as_slice()) {
        Some(value) => number(value).is_some(),
        None => true,
    }
}
