//! The fields of a schema, one reader for each of `specs/Fields.antt`.
ghost use Rattle.std.specs.Prelude.{◌≡◌, ◌<◌, ◌≤◌, [], false, length, Err, None, IfOk, IfSome};
ghost use Rattle.ft_schema.specs.Gives.{Gives, GivesSome};
ghost use Rattle.ft_schema.specs.Fields.{has_alias, alias_at, admitted, kind_at, kind_admitted};
ghost use Rattle.ft_base.specs.Reading.{parts_at};
ghost use Rattle.ft_schema.specs.Fields.{kind_by, field_by, field_at, next_field_at, is_at_end, fields_at};

use crate::fault::{Cause, Stop};
use crate::field_list::FieldList;
use crate::field_options::{FieldOptions, options};
use crate::names::{Kind, kind_of};
use crate::reading::fault;
use ft_base::{Bytes, Field, FieldKind, NoMemory, Words};
use std::alloc::Global;

/// The fields up to the end of the words, at least one.
#[tactic(auto, unfolding(crate::specs::Fields::fields_at))]
pub fn fields<'a>(alloc: Global, words: &Words<'a>) -> Result<(FieldList, Words<'a>), Stop>
    ensures { Gives (λ x. x) result (fields_at words.now) }
{
    if words.len() == 0 {
        return Err(fault(Cause::BadOption, words));
    }
    fields_behind(alloc, words)
}

/// Fields up to the end of the words.
fn fields_behind<'a>(alloc: Global, words: &Words<'a>) -> Result<(FieldList, Words<'a>), Stop>
    ensures { Gives (λ x. x) result (parts_at is_at_end next_field_at [] words.now) }
{
    let mut before = FieldList::new(alloc);
    let mut rest = words.rest(0);
    'reading: while !is_at_end(&rest) {
        let (next, behind) = match next_field(alloc, before, &rest) {
            Ok(read) => read,
            Err(stop) => return Err(stop),
        };
        before = next;
        rest = behind;
    }
    Ok((before, rest))
}

fn is_at_end(words: &Words<'_>) -> bool
    ensures { result ≡ is_at_end words.now }
{
    words.split_first().is_none()
}

/// The fields with one more, and the words behind it.
fn next_field<'a>(
    alloc: Global,
    before: FieldList,
    words: &Words<'a>,
) -> Result<(FieldList, Words<'a>), Stop>
    ensures read { Gives (λ x. x) result (next_field_at before words.now) }
    ensures shorter { IfOk result (λ x. length x.1 < length words.now) }
{
    let (field, rest) = match field(alloc, &before, words) {
        Ok(read) => read,
        Err(stop) => return Err(stop),
    };
    let list = before.with(field)?;
    Ok((list, rest))
}

/// A field behind others.
#[tactic(auto, unfolding(crate::specs::Fields::field_at))]
fn field<'a>(
    alloc: Global,
    before: &FieldList,
    words: &Words<'a>,
) -> Result<(Field, Words<'a>), Stop>
    ensures read { Gives (λ x. x) result (field_at before.now words.now) }
    ensures new { IfOk result (λ x. has_alias before.now x.0.alias ≡ false) }
    ensures shorter { IfOk result (λ x. length x.1 < length words.now) }
{
    let Some((name, rest)) = words.split_first() else {
        return Err(fault(Cause::BadOption, words));
    };
    let (alias, rest) = match new_alias(before, words, name, &rest) {
        Ok(read) => read,
        Err(stop) => return Err(stop),
    };
    let (kind, rest) = match new_kind(before, words, &rest) {
        Ok(read) => read,
        Err(stop) => return Err(stop),
    };
    let (options, rest) = match options(kind, &rest) {
        Ok(read) => read,
        Err(stop) => return Err(stop),
    };
    let field = field_by(alloc, name, alias, kind, options)?;
    Ok((field, rest))
}

/// The alias of a field whose name is the first of the words `from`.
fn new_alias<'a>(
    before: &FieldList,
    from: &Words<'a>,
    name: &'a [u8],
    words: &Words<'a>,
) -> Result<(&'a [u8], Words<'a>), Stop>
    ensures read { Gives (λ x. (x.0.now, x.1)) result
        (admitted before.now from.now (alias_at name.now words.now)) }
    ensures new { IfOk result (λ x. has_alias before.now x.0.now ≡ false) }
    ensures within { IfOk result (λ x. length x.1 ≤ length words.now) }
{
    let Some((alias, rest)) = alias(name, words) else {
        return Err(missing_alias(before, from));
    };
    if before.has(alias) {
        return Err(fault(Cause::DuplicateField, from));
    }
    if before.is_full() {
        return Err(fault(Cause::TooManyFields, from));
    }
    Ok((alias, rest))
}

/// The fault where AS is the last word: one field too many is one without its alias, too.
fn missing_alias(before: &FieldList, from: &Words<'_>) -> Stop
    ensures { admitted before.now from.now None ≡ Err result }
{
    if before.is_full() {
        fault(Cause::TooManyFields, from)
    } else {
        Stop::Fault {
            cause: Cause::BadOption,
            left: 0,
        }
    }
}

/// The alias of a field, `None` where it is missing behind AS.
fn alias<'a>(name: &'a [u8], words: &Words<'a>) -> Option<(&'a [u8], Words<'a>)>
    ensures read { GivesSome (λ x. (x.0.now, x.1)) result (alias_at name.now words.now) }
    ensures within { IfSome result (λ x. length x.1 ≤ length words.now) }
{
    match words.split_first() {
        Some((word, rest)) => {
            if word.eq_ignore_ascii_case(b"AS") {
                rest.split_first()
            } else {
                Some((name, words.rest(0)))
            }
        }
        None => Some((name, words.rest(0))),
    }
}

/// The kind of a field whose name is the first of the words `from`.
fn new_kind<'a>(
    before: &FieldList,
    from: &Words<'a>,
    words: &Words<'a>,
) -> Result<(FieldKind, Words<'a>), Stop>
    ensures read { Gives (λ x. x) result (kind_admitted before.now from.now (kind_at words.now)) }
    ensures shorter { IfOk result (λ x. length x.1 < length words.now) }
{
    let (kind, rest) = match kind(words) {
        Ok(read) => read,
        Err(stop) => return Err(stop),
    };
    if kind.is_text() && before.is_full_of_texts() {
        return Err(fault(Cause::TooManyFields, from));
    }
    Ok((kind, rest))
}

/// The kind of a field, without options.
#[tactic(auto, unfolding(crate::specs::Fields::kind_at))]
fn kind<'a>(words: &Words<'a>) -> Result<(FieldKind, Words<'a>), Stop>
    ensures read { Gives (λ x. x) result (kind_at words.now) }
    ensures shorter { IfOk result (λ x. length x.1 < length words.now) }
{
    let Some((word, rest)) = words.split_first() else {
        return Err(fault(Cause::BadOption, words));
    };
    match kind_of(word) {
        Kind::Text => Ok((FieldKind::Text, rest)),
        Kind::Tag => Ok((
            FieldKind::Tag {
                separator: b',',
                case: false,
            },
            rest,
        )),
        Kind::Numeric => Ok((FieldKind::Numeric, rest)),
        Kind::LeftOut => Err(fault(Cause::OutOfScope, words)),
        Kind::Other => Err(fault(Cause::BadKind, words)),
    }
}

/// A field of its parts.
fn field_by(
    alloc: Global,
    name: &[u8],
    alias: &[u8],
    kind: FieldKind,
    options: FieldOptions,
) -> Result<Field, NoMemory>
    ensures { IfOk result (λ field. field ≡ field_by name.now alias.now kind options) }
{
    Ok(Field {
        name: Bytes::from_slice(alloc, name)?,
        alias: Bytes::from_slice(alloc, alias)?,
        kind: kind_by(kind, options),
        sortable: options.sortable,
        unf: options.unf,
        noindex: options.no_index,
    })
}

/// The kind with its options.
fn kind_by(kind: FieldKind, options: FieldOptions) -> FieldKind
    ensures { result ≡ kind_by kind options }
{
    match kind {
        FieldKind::Tag { separator, .. } => FieldKind::Tag {
            separator: options.separator.unwrap_or(separator),
            case: options.case_sensitive,
        },
        FieldKind::Text | FieldKind::Numeric => kind,
    }
}
