//! The fields of an index, among which an alias is found without a walk.
ghost use Rattle.std.specs.Prelude.{◌≡◌, ◌<◌, ◌&&◌, [], IfOk, IfSome, length, position};
ghost use Rattle.std.specs.List.{find, list_any};
ghost use Rattle.std.specs.Option.{option_copied};
ghost use Rattle.std.specs.Str.{bytes_eq};
ghost use Rattle.ft_base.specs.Kinds.{is_numeric};
ghost use Rattle.ft_base.specs.Numerics.{numeric_names};

use crate::NoMemory;
use crate::bytes::Bytes;
use crate::definition::Field;
use crate::named_list::NamedList;
use std::alloc::Global;
use std::marker::Model;

/// The fields of an index in their order (SCHEMA of FT.CREATE), which a contract sees as a list. A field's number is its place.
#[derive(Drop)]
pub struct Schema {
    fields: NamedList<Field>,
    numeric: NamedList<Bytes>,
}

impl Model for Schema {
    ghost use Rattle.std.specs.Prelude.{◌≡◌, List};
    ghost use Rattle.ft_base.specs.declared.definition.Field.{Field};

    ghost Value = { List Field };

    ghost use Rattle.ft_base.specs.Numerics.{numeric_names};

    ghost view = { λ s. s.fields };

    ghost invariant = { λ s. s.numeric ≡ numeric_names s.fields };
}

impl Schema {
    /// No fields, and no memory taken.
    pub fn new(alloc: Global) -> Schema
        ensures { result ≡ [] }
    {
        Schema {
            fields: NamedList::new(alloc),
            numeric: NamedList::new(alloc),
        }
    }

    /// Takes a vector over as it is.
    pub fn from_vec(fields: Vec<Field>) -> Result<Schema, NoMemory>
        ensures { IfOk result (λ schema. schema ≡ fields.items) }
    {
        let numeric = numeric_names(*fields.allocator(), fields.as_slice())?;
        let fields = NamedList::from_vec(fields)?;
        Ok(Schema { fields, numeric })
    }

    /// The number of fields.
    pub fn len(&self) -> usize
        ensures { result ≡ length self.now }
    {
        self.fields.len()
    }

    /// The fields, lent.
    pub fn as_slice(&self) -> &[Field]
        ensures { result.now ≡ self.now }
    {
        self.fields.as_slice()
    }

    /// The place of the first field that has an alias.
    pub fn place(&self, alias: &[u8]) -> Option<usize>
        ensures place { result ≡ position (λ field. bytes_eq alias.now field.alias) self.now }
        ensures within { IfSome result (λ place. place < length self.now) }
    {
        self.fields.place(alias)
    }

    /// The first field that has an alias.
    pub fn get(&self, alias: &[u8]) -> Option<&Field>
        ensures { option_copied result ≡ find (λ field. bytes_eq alias.now field.alias) self.now }
    {
        self.fields.get(alias)
    }

    /// Whether a field has an alias.
    pub fn has(&self, alias: &[u8]) -> bool
        ensures { result ≡ list_any (λ field. bytes_eq alias.now field.alias) self.now }
    {
        self.fields.has(alias)
    }

    /// Whether a NUMERIC field has an alias. The fields are walked only where the first one of the alias is of another kind.
    pub fn has_numeric(&self, alias: &[u8]) -> bool
        ensures { result ≡ list_any (λ field. is_numeric field.kind && bytes_eq alias.now field.alias) self.now }
    {
        match self.get(alias) {
            Some(field) if field.kind.is_numeric() => true,
            Some(_) => has_numeric(self.as_slice(), alias),
            None => false,
        }
    }

    /// Whether a NUMERIC field reads this field of hashes.
    pub fn reads_number(&self, name: &[u8]) -> bool
        ensures { result ≡ list_any (λ field. is_numeric field.kind && bytes_eq field.name name.now) self.now }
    {
        self.numeric.has(name)
    }
}

/// Whether a NUMERIC field has an alias, by a walk.
fn has_numeric(fields: &[Field], alias: &[u8]) -> bool
    ensures { result ≡ list_any (λ field. is_numeric field.kind && bytes_eq alias.now field.alias) fields.now }
{
    fields.iter().any(|field| field.kind.is_numeric() && alias == field.alias.as_slice())
}

/// The hash fields that NUMERIC fields read, each found without a walk.
fn numeric_names(alloc: Global, fields: &[Field]) -> Result<NamedList<Bytes>, NoMemory>
    ensures { IfOk result (λ names. names ≡ numeric_names fields.now) }
{
    let mut names = NamedList::new(alloc);
    for field in fields {
        if field.kind.is_numeric() {
            names.push(field.name.clone()?)?;
        }
    }
    Ok(names)
}
