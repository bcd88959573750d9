//! The fields that were read so far, with what it takes to admit one more.
ghost use Rattle.std.specs.Prelude.{◌≡◌, false, [], ◌∷◌, ◌++◌, length, nat_le, IfOk, OnOk};
ghost use Rattle.std.specs.List.{list_any};
ghost use Rattle.std.specs.Str.{bytes_eq};
ghost use Rattle.ft_schema.specs.Fields.{has_alias, text_count};
ghost use Rattle.ft_schema.specs.FieldAliases.{field_aliases};
ghost use Rattle.ft_schema.specs.Limits.{most_fields, most_texts};

use crate::alias_set::AliasSet;
use crate::limits::{MAX_FIELDS, MAX_TEXT_FIELDS};
use ft_base::{Field, ListOf, NoMemory, Schema};
use std::alloc::Global;
use std::marker::Model;

/// Fields, which a contract sees as a list.
#[derive(Drop)]
pub struct FieldList {
    fields: Vec<Field>,
    aliases: AliasSet,
    texts: usize,
    ghost known: { aliases ≡ field_aliases fields.items },
    ghost counted: { texts ≡ text_count fields.items },
}

impl Model for FieldList {
    ghost use Rattle.std.specs.Prelude.{List};
    ghost use Rattle.ft_base.specs.declared.definition.Field.{Field};

    ghost Value = { List Field };

    ghost view = { λ l. l.fields.items };
}

impl FieldList {
    /// No fields, and no memory taken.
    pub fn new(alloc: Global) -> FieldList
        ensures { result ≡ [] }
    {
        FieldList {
            fields: Vec::new(alloc),
            aliases: AliasSet::new(alloc),
            texts: 0,
        }
    }

    /// Whether a field has this alias.
    pub fn has(&self, alias: &[u8]) -> bool
        ensures { result ≡ has_alias self.now alias.now }
    {
        self.aliases.has(alias)
    }

    /// Whether one field more is too many.
    pub fn is_full(&self) -> bool
        ensures { result ≡ nat_le most_fields (length self.now) }
    {
        MAX_FIELDS <= self.fields.len()
    }

    /// Whether one TEXT field more is too many.
    pub fn is_full_of_texts(&self) -> bool
        ensures { result ≡ nat_le most_texts (text_count self.now) }
    {
        MAX_TEXT_FIELDS <= self.texts
    }

    /// The fields with one more, whose alias is new.
    pub fn with(self, field: Field) -> Result<FieldList, NoMemory>
        requires new { has_alias self field.alias ≡ false }
        ensures { IfOk result (λ list. list ≡ self ++ field ∷ []) }
    {
        let FieldList {
            mut fields,
            mut aliases,
            texts,
        } = self;
        let texts = texts + usize::from(field.kind.is_text());
        push(&mut fields, &mut aliases, field)?;
        Ok(FieldList {
            fields,
            aliases,
            texts,
        })
    }

    /// The fields alone, as those of an index.
    pub fn into_schema(self) -> Result<Schema, NoMemory>
        ensures { IfOk result (λ schema. schema ≡ self) }
    {
        Schema::from_vec(self.fields)
    }

    /// The fields alone.
    pub fn into_list(self) -> ListOf<Field>
        ensures { result ≡ self }
    {
        ListOf::from_vec(self.fields)
    }
}

/// Adds a field and its alias, which is new.
fn push(fields: &mut Vec<Field>, aliases: &mut AliasSet, field: Field) -> Result<(), NoMemory>
    requires new { list_any (bytes_eq field.alias) aliases.old ≡ false }
    ensures fields { OnOk result (fields.new.items ≡ fields.old.items ++ field ∷ []) }
    ensures aliases { OnOk result (aliases.new ≡ aliases.old ++ field.alias ∷ []) }
{
    aliases.add(field.alias.as_slice())?;
    fields.push(field)?;
    Ok(())
}
