//! An index with more fields, as FT.ALTER adds them.
ghost use Rattle.std.specs.Prelude.{◌≡◌, ◌||◌, ◌++◌, List, ℕ, Ok, IfOk, IfErr, OnOk, bytes_eq};
ghost use Rattle.std.specs.List.{list_any};
ghost use Rattle.ft_base.specs.declared.definition.Field.{Field};
ghost use Rattle.ft_schema.specs.Fields.{has_alias, text_count};
ghost use Rattle.ft_schema.specs.Gives.{IsFaultOf};
ghost use Rattle.ft_schema.specs.Lawful.{IsLawful};
ghost use Rattle.ft_schema.specs.Schema.{has_any_alias, is_over, extended};

use crate::alias_set::AliasSet;
use crate::fault::SchemaFault;
use crate::limits::{MAX_FIELDS, MAX_TEXT_FIELDS};
use crate::schema::stop_words;
use ft_base::{Bytes, Field, IndexDef, ListOf, NoMemory, Schema, StopWords};
use std::alloc::Global;

/// The word of FT.ALTER at which the faults stand that an index finds, whichever field it is.
const FIELDS_AT: u32 = 5;

/// The index with more fields behind its own. Each call may want memory.
#[tactic(auto, unfolding(crate::specs::Schema::extended))]
pub fn extend(
    alloc: Global,
    def: &IndexDef,
    fields: &ListOf<Field>,
) -> Result<IndexDef, SchemaFault>
    ensures ok { IfOk result (λ index. extended def.now fields.now ≡ Ok index) }
    ensures err { IfErr result (λ fault. IsFaultOf fault (extended def.now fields.now)) }
    ensures lawful { IsLawful def.now.fields → IsLawful fields.now
        → IfOk result (λ index. IsLawful index.fields) }
{
    if has_any_alias(alloc, def.fields.as_slice(), fields.as_slice())? {
        return Err(SchemaFault::DuplicateField { at: FIELDS_AT });
    }
    if is_over(def.fields.as_slice(), fields.as_slice()) {
        return Err(SchemaFault::TooManyFields { at: FIELDS_AT });
    }
    let index = joined(alloc, def, fields.as_slice())?;
    Ok(index)
}

/// Whether an alias of the new fields is one of the old.
fn has_any_alias(alloc: Global, old: &[Field], new: &[Field]) -> Result<bool, NoMemory>
    ensures { IfOk result (λ found. found ≡ has_any_alias old.now new.now) }
{
    let aliases = aliases_of(alloc, old)?;
    Ok(any_in(&aliases, new))
}

fn any_in(aliases: &AliasSet, fields: &[Field]) -> bool
    ensures { result ≡ list_any (λ (field : Field). list_any (bytes_eq field.alias) aliases.now) fields.now }
{
    fields
        .iter()
        .any(|field| aliases.has(field.alias.as_slice()))
}

/// The aliases of fields, each once.
fn aliases_of(alloc: Global, fields: &[Field]) -> Result<AliasSet, NoMemory>
    ensures { IfOk result (λ aliases. (alias : List ℕ)
        → list_any (bytes_eq alias) aliases ≡ has_alias fields.now alias) }
{
    let mut aliases = AliasSet::new(alloc);
    for field in fields {
        add_once(&mut aliases, field.alias.as_slice())?;
    }
    Ok(aliases)
}

fn add_once(aliases: &mut AliasSet, alias: &[u8]) -> Result<(), NoMemory>
    ensures { OnOk result ((other : List ℕ) → list_any (bytes_eq other) aliases.new
        ≡ (list_any (bytes_eq other) aliases.old || bytes_eq other alias.now)) }
{
    if aliases.has(alias) {
        return Ok(());
    }
    aliases.add(alias)
}

/// Whether the fields together are too many.
fn is_over(old: &[Field], new: &[Field]) -> bool
    ensures { result ≡ is_over old.now new.now }
{
    MAX_TEXT_FIELDS < text_count(old) + text_count(new) || MAX_FIELDS < old.len() + new.len()
}

/// How many TEXT fields there are.
fn text_count(fields: &[Field]) -> usize
    ensures { result ≡ text_count fields.now }
{
    fields.iter().filter(|field| field.kind.is_text()).count()
}

/// An index with more fields, copied.
fn joined(alloc: Global, def: &IndexDef, fields: &[Field]) -> Result<IndexDef, NoMemory>
    ensures { IfOk result (λ index. index ≡ record def.now { fields = def.now.fields ++ fields.now }) }
{
    let fields = joined_fields(alloc, def.fields.as_slice(), fields)?;
    let stops = stop_words(byte_copies(alloc, def.stops.words.as_slice())?)?;
    with_lists(alloc, def, fields, stops)
}

/// An index with other fields and stop words.
fn with_lists(
    alloc: Global,
    def: &IndexDef,
    fields: Schema,
    stops: StopWords,
) -> Result<IndexDef, NoMemory>
    ensures { IfOk result (λ index. index ≡ record def.now { fields = fields; stops = stops }) }
{
    let prefixes = byte_copies(alloc, def.prefixes.as_slice())?;
    Ok(IndexDef {
        name: def.name.clone()?,
        serial: def.serial,
        prefixes,
        stops,
        fields,
    })
}

/// The fields of an index and those behind them, copied.
fn joined_fields(alloc: Global, old: &[Field], new: &[Field]) -> Result<Schema, NoMemory>
    ensures { IfOk result (λ all. all ≡ old.now ++ new.now) }
{
    let mut all = Vec::with_capacity(alloc, old.len() + new.len())?;
    push_copies(&mut all, old)?;
    push_copies(&mut all, new)?;
    Schema::from_vec(all)
}

/// Adds copies of fields at the end.
fn push_copies(out: &mut Vec<Field>, fields: &[Field]) -> Result<(), NoMemory>
    ensures { OnOk result (out.new.items ≡ out.old.items ++ fields.now) }
{
    for field in fields {
        out.push(field_copy(field)?)?;
    }
    Ok(())
}

fn field_copy(field: &Field) -> Result<Field, NoMemory>
    ensures { IfOk result (λ copy. copy ≡ field.now) }
{
    Ok(Field {
        name: field.name.clone()?,
        alias: field.alias.clone()?,
        kind: field.kind,
        sortable: field.sortable,
        unf: field.unf,
        noindex: field.noindex,
    })
}

/// Copies of byte strings, in order.
fn byte_copies(alloc: Global, items: &[Bytes]) -> Result<ListOf<Bytes>, NoMemory>
    ensures { IfOk result (λ copies. copies ≡ items.now) }
{
    let mut copies = Vec::with_capacity(alloc, items.len())?;
    for item in items {
        copies.push(item.clone()?)?;
    }
    Ok(ListOf::from_vec(copies))
}
