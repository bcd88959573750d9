//! The fields of an index, each with its options.
ghost use Rattle.std.specs.Prelude.{◌≡◌, ◌++◌, map, IfOk, IsTrue, OnOk};
ghost use Rattle.ft_base.specs.Reply.{fits_wire};
ghost use Rattle.ft_base.specs.declared.reply.Reply.TheVariants.{Array};
ghost use Rattle.ft_machine.specs.Info.{attribute, kind_words, names, options};

use crate::indexes::info_words::{push_pair, push_word, push_word_if};
use ft_base::{Bytes, Field, FieldKind, ListOf, NoMemory, Reply};
use std::alloc::Global;

/// One array a field, in order of declaration.
pub fn attributes(alloc: Global, fields: &[Field]) -> Result<Reply, NoMemory>
    ensures reply { IfOk result (λ reply. reply ≡ Array (map attribute fields.now)) }
    ensures fits { IfOk result (λ reply. IsTrue (fits_wire reply)) }
{
    let mut replies = Vec::new(alloc);
    for field in fields {
        replies.push(attribute(alloc, field)?)?;
    }
    Ok(Reply::Array(ListOf::from_vec(replies)))
}

fn attribute(alloc: Global, field: &Field) -> Result<Reply, NoMemory>
    ensures reply { IfOk result (λ reply. reply ≡ attribute field.now) }
    ensures fits { IfOk result (λ reply. IsTrue (fits_wire reply)) }
{
    let mut words = names(alloc, field)?;
    push_word(alloc, &mut words, b"type")?;
    push_kind(alloc, &mut words, field.kind)?;
    push_options(alloc, &mut words, field)?;
    Ok(Reply::Array(ListOf::from_vec(words)))
}

fn push_options(alloc: Global, words: &mut Vec<Reply>, field: &Field) -> Result<(), NoMemory>
    ensures { OnOk result (words.new.items ≡ words.old.items ++ options field.now) }
{
    push_word_if(alloc, words, field.sortable, b"SORTABLE")?;
    push_word_if(alloc, words, field.unf, b"UNF")?;
    push_word_if(alloc, words, field.noindex, b"NOINDEX")?;
    Ok(())
}

/// The field of the hash, and the alias.
fn names(alloc: Global, field: &Field) -> Result<Vec<Reply>, NoMemory>
    ensures { IfOk result (λ words. words.items ≡ names field.now) }
{
    let mut words = Vec::new(alloc);
    let name = field.name.clone()?;
    push_pair(alloc, &mut words, b"identifier", Reply::Bulk(name))?;
    let alias = field.alias.clone()?;
    push_pair(alloc, &mut words, b"attribute", Reply::Bulk(alias))?;
    Ok(words)
}

fn push_kind(alloc: Global, words: &mut Vec<Reply>, kind: FieldKind) -> Result<(), NoMemory>
    ensures { OnOk result (words.new.items ≡ words.old.items ++ kind_words kind) }
{
    match kind {
        FieldKind::Text => {
            push_word(alloc, words, b"TEXT")?;
            push_word(alloc, words, b"NOSTEM")
        }
        FieldKind::Tag { separator, case } => push_tag(alloc, words, separator, case),
        FieldKind::Numeric => push_word(alloc, words, b"NUMERIC"),
    }
}

fn push_tag(
    alloc: Global,
    words: &mut Vec<Reply>,
    separator: u8,
    case: bool,
) -> Result<(), NoMemory>
    ensures { OnOk result (words.new.items ≡ words.old.items ++ kind_words (FieldKind.Tag separator case)) }
{
    push_word(alloc, words, b"TAG")?;
    let separator = Bytes::from_slice(alloc, &[separator])?;
    push_pair(alloc, words, b"SEPARATOR", Reply::Bulk(separator))?;
    push_word_if(alloc, words, case, b"CASESENSITIVE")?;
    Ok(())
}
