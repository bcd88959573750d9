//! Where the value of a property stands: in a cell of a row, or in a field of a hash.
ghost use Rattle.std.specs.Prelude.{◌≡◌};
ghost use Rattle.std.specs.Option.{option_map, option_copied};
ghost use Rattle.expr_eval.specs.Lending.{value_lent};
ghost use Rattle.expr_eval.specs.Properties.{cell_of, alias_of, seen_as, by_alias, by_name, in_hash};

use crate::lent::Lent;
use field_text::number;
use ft_base::{Cell, Field, HashView, NamedList, Schema, Value};

/// The value of the cell of a name.
pub fn cell_of<'a>(cells: &'a NamedList<Cell>, name: &[u8]) -> Option<&'a Value>
    ensures { option_copied result ≡ cell_of cells.now name.now }
{
    match cells.get(name) {
        Some(cell) => Some(&cell.value),
        None => None,
    }
}

/// The hash's field that an alias names, else the hash's field of this very name.
pub fn in_hash<'a>(name: &[u8], hash: &HashView<'a>, fields: &Schema) -> Lent<'a>
    ensures { value_lent result ≡ in_hash name.now hash.now fields.now }
{
    match by_alias(name, hash, fields) {
        Some(value) => value,
        None => match by_name(name, hash, fields) {
            Some(value) => value,
            None => Lent::Null,
        },
    }
}

/// The hash's field that an alias names.
pub fn by_alias<'a>(name: &[u8], hash: &HashView<'a>, fields: &Schema) -> Option<Lent<'a>>
    ensures { option_map value_lent result ≡ by_alias name.now hash.now fields.now }
{
    let field = alias_of(fields, name)?;
    let text = hash.get(field.name.as_slice())?;
    Some(seen_as(field.kind.is_numeric(), text))
}

/// The field that has this alias.
fn alias_of<'a>(fields: &'a Schema, name: &[u8]) -> Option<&'a Field>
    ensures { option_copied result ≡ alias_of fields.now name.now }
{
    fields.get(name)
}

/// The hash's field of this very name.
pub fn by_name<'a>(name: &[u8], hash: &HashView<'a>, fields: &Schema) -> Option<Lent<'a>>
    ensures { option_map value_lent result ≡ by_name name.now hash.now fields.now }
{
    let text = hash.get(name)?;
    Some(seen_as(fields.reads_number(name), text))
}

/// What a stored text is seen as.
pub fn seen_as(numeric: bool, text: &[u8]) -> Lent<'_>
    ensures { value_lent result ≡ seen_as numeric text.now }
{
    if numeric {
        Lent::num_or_null(number(text))
    } else {
        Lent::Text(text)
    }
}
