//! The words of FT.CREATE and FT.ALTER, read from the left up to the first fault.
ghost use Rattle.std.specs.Prelude.{◌≡◌, ◌≤◌, ◌<◌, ◌^◌, length, map, unwrap_or, Ok, IfOk, IfErr};
ghost use Rattle.ft_base.specs.declared.limits.TheConstants.{MAX_WORDS};
ghost use Rattle.ft_schema.specs.Gives.{Gives, IsFaultOf};
ghost use Rattle.ft_schema.specs.Lawful.{IsLawful};
ghost use Rattle.ft_schema.specs.Schema.{default_stops, index_by, index_behind, index_at, keyword_at, added_at};
ghost use Rattle.ft_schema.specs.Schema.{fault_at, placed_fault, create, alter};

use crate::fault::{Cause, SchemaFault, Stop};
use crate::fields::fields;
use crate::index_options::{IndexOptions, options};
use crate::reading::fault;
use ft_base::{Bytes, Field, IndexDef, ListOf, NamedList, NoMemory, Schema, StopWords, Words};
use std::alloc::Global;

/// The index that the words of FT.CREATE define. Its serial is given. Each call may want memory.
#[tactic(auto, unfolding(crate::specs::Schema::create))]
pub fn read_create(alloc: Global, words: Words<'_>, serial: u64) -> Result<IndexDef, SchemaFault>
    requires number { 5 ≤ length words }
    requires limit { length words ≤ MAX_WORDS }
    ensures ok { IfOk result (λ index. create words.entry serial ≡ Ok index) }
    ensures serial { IfOk result (λ index. index.serial ≡ serial) }
    ensures err { IfErr result (λ fault. IsFaultOf fault (create words.entry serial)) }
    ensures lawful { IfOk result (λ index. IsLawful index.fields) }
{
    match index(alloc, serial, &words.rest(1)) {
        Ok(index) => Ok(index),
        Err(stop) => Err(placed(words.len(), stop)),
    }
}

/// The fields that the words of FT.ALTER add. Each call may want memory.
#[tactic(auto, unfolding(crate::specs::Schema::alter))]
pub fn read_alter(alloc: Global, words: Words<'_>) -> Result<ListOf<Field>, SchemaFault>
    requires number { 6 ≤ length words }
    requires limit { length words ≤ MAX_WORDS }
    ensures ok { IfOk result (λ fields. alter words.entry ≡ Ok fields) }
    ensures err { IfErr result (λ fault. IsFaultOf fault (alter words.entry)) }
    ensures lawful { IfOk result (λ fields. IsLawful fields) }
{
    match added(alloc, &words.rest(2)) {
        Ok(fields) => Ok(fields),
        Err(stop) => Err(placed(words.len(), stop)),
    }
}

/// The fault of a stop, placed by the number of all words.
fn placed(total: usize, stop: Stop) -> SchemaFault
    requires { total < 2 ^ 32 }
    ensures { result ≡ placed_fault total stop }
{
    match stop {
        Stop::Fault { cause, left } => fault_at(cause, total.saturating_sub(left) as u32),
        Stop::NoMemory => SchemaFault::NoMemory,
    }
}

fn fault_at(cause: Cause, at: u32) -> SchemaFault
    ensures { result ≡ fault_at cause at }
{
    match cause {
        Cause::BadOption => SchemaFault::BadOption { at },
        Cause::BadKind => SchemaFault::BadKind { at },
        Cause::DuplicateField => SchemaFault::DuplicateField { at },
        Cause::TooManyFields => SchemaFault::TooManyFields { at },
        Cause::BadNumber => SchemaFault::BadNumber { at },
        Cause::OutOfScope => SchemaFault::OutOfScope { at },
    }
}

/// The index that the words behind FT.CREATE define.
#[tactic(auto, unfolding(crate::specs::Schema::index_at))]
fn index(alloc: Global, serial: u64, words: &Words<'_>) -> Result<IndexDef, Stop>
    ensures { Gives (λ x. x) result (index_at serial words.now) }
{
    let Some((name, rest)) = words.split_first() else {
        return Err(fault(Cause::BadOption, words));
    };
    match options(alloc, &rest) {
        Ok((options, rest)) => index_behind(alloc, name, serial, options, &rest),
        Err(stop) => Err(stop),
    }
}

/// The index of a name and options, whose fields follow.
fn index_behind(
    alloc: Global,
    name: &[u8],
    serial: u64,
    options: IndexOptions,
    words: &Words<'_>,
) -> Result<IndexDef, Stop>
    ensures { Gives (λ x. x) result (index_behind name.now serial options words.now) }
{
    let rest = match keyword(b"SCHEMA", words) {
        Ok(rest) => rest,
        Err(stop) => return Err(stop),
    };
    let (fields, _) = match fields(alloc, &rest) {
        Ok(read) => read,
        Err(stop) => return Err(stop),
    };
    let index = index_by(alloc, name, serial, options, fields.into_schema()?)?;
    Ok(index)
}

/// An index of its parts.
fn index_by(
    alloc: Global,
    name: &[u8],
    serial: u64,
    options: IndexOptions,
    fields: Schema,
) -> Result<IndexDef, NoMemory>
    ensures { IfOk result (λ index. index ≡ index_by name.now serial options fields) }
{
    let IndexOptions {
        prefixes,
        stops,
        ..
    } = options;
    let stops = stop_words(stops_or_default(alloc, stops)?)?;
    Ok(IndexDef {
        name: Bytes::from_slice(alloc, name)?,
        serial,
        prefixes: prefixes.unwrap_or(ListOf::new(alloc)),
        stops,
        fields,
    })
}

/// Stop words, each found without a walk.
pub fn stop_words(words: ListOf<Bytes>) -> Result<StopWords, NoMemory>
    ensures { IfOk result (λ stops. stops.words ≡ words) }
{
    let words = NamedList::from_vec(words.into_vec())?;
    Ok(StopWords { words })
}

fn stops_or_default(alloc: Global, stops: Option<ListOf<Bytes>>) -> Result<ListOf<Bytes>, NoMemory>
    ensures { IfOk result (λ words. words ≡ unwrap_or stops default_stops) }
{
    match stops {
        Some(words) => Ok(words),
        None => default_stops(alloc),
    }
}

/// The stop words of an index that names none.
fn default_stops(alloc: Global) -> Result<ListOf<Bytes>, NoMemory>
    ensures { IfOk result (λ stops. stops ≡ default_stops) }
{
    owned(
        alloc,
        &[
            b"a", b"is", b"the", b"an", b"and", b"are", b"as", b"at", b"be", b"but", b"by", b"for",
            b"if", b"in", b"into", b"it", b"no", b"not", b"of", b"on", b"or", b"such", b"that",
            b"their", b"then", b"there", b"these", b"they", b"this", b"to", b"was", b"will",
            b"with",
        ],
    )
}

/// Copies of the words, in order.
fn owned(alloc: Global, words: &[&[u8]]) -> Result<ListOf<Bytes>, NoMemory>
    ensures { IfOk result (λ copies. copies ≡ map (λ word. word.now) words.now) }
{
    let mut copies = Vec::with_capacity(alloc, words.len())?;
    for word in words {
        copies.push(Bytes::from_slice(alloc, word)?)?;
    }
    Ok(ListOf::from_vec(copies))
}

/// The fields that the words behind FT.ALTER and the index's name add.
#[tactic(auto, unfolding(crate::specs::Schema::added_at))]
fn added(alloc: Global, words: &Words<'_>) -> Result<ListOf<Field>, Stop>
    ensures { Gives (λ x. x) result (added_at words.now) }
{
    let rest = match keyword(b"SCHEMA", words) {
        Ok(rest) => rest,
        Err(stop) => return Err(stop),
    };
    let rest = match keyword(b"ADD", &rest) {
        Ok(rest) => rest,
        Err(stop) => return Err(stop),
    };
    match fields(alloc, &rest) {
        Ok((fields, _)) => Ok(fields.into_list()),
        Err(stop) => Err(stop),
    }
}

/// A word that has to stand there; the words behind it.
fn keyword<'a>(name: &[u8], words: &Words<'a>) -> Result<Words<'a>, Stop>
    ensures { Gives (λ x. x) result (keyword_at name.now words.now) }
{
    match words.split_first() {
        Some((word, rest)) => {
            if word.eq_ignore_ascii_case(name) {
                Ok(rest)
            } else {
                Err(fault(Cause::BadOption, words))
            }
        }
        None => Err(fault(Cause::BadOption, words)),
    }
}
