//! The spelling of values, by which equal ones are found.
ghost use Rattle.std.specs.Prelude.{◌≡◌, [], ◌∷◌, ◌++◌, length, map, OnOk};
ghost use Rattle.std.specs.Int.{cast_unsigned, w64};
ghost use Rattle.ft_base.specs.Reply.{joined};
ghost use Rattle.expr_eval.specs.Properties.{property_value};
ghost use Rattle.expr_eval.specs.Lending.{row_of};
ghost use Rattle.agg_pipeline.specs.Equal.{eight_bytes, spelled, spelled_all};
ghost use Rattle.agg_pipeline.specs.Grouping.{tuple_of};
ghost use Rattle.agg_pipeline.specs.Seen.{seen};

use crate::seen::Seen;
use expr_eval::LentRow;
use ft_base::{Bytes, IndexDef, NoMemory, Value};

/// Appends the spelling of a value.
#[cycle(spell)]
pub fn spell(value: &Value, out: &mut Vec<u8>) -> Result<(), NoMemory>
    ensures { OnOk result (out.new.items ≡ out.old.items ++ spelled value.now) }
{
    match value {
        Value::Null => spell_null(out),
        Value::Num(n) => spell_number(*n, out),
        Value::Text(text) => spell_text(text.as_slice(), out),
        Value::List(values) => spell_list(values.as_slice(), out),
    }
}

#[cycle(spell)]
fn spell_list(values: &[Value], out: &mut Vec<u8>) -> Result<(), NoMemory>
    ensures { OnOk result (out.new.items
        ≡ out.old.items ++ 3 ∷ (eight_bytes (length values.now) ++ joined (map spelled values.now))) }
{
    spell_head(3, values.len() as u64, out)?;
    for value in values {
        spell(value, out)?;
    }
    Ok(())
}

fn spell_null(out: &mut Vec<u8>) -> Result<(), NoMemory>
    ensures { OnOk result (out.new.items ≡ out.old.items ++ 0 ∷ []) }
{
    out.push(0)?;
    Ok(())
}

fn spell_number(n: i64, out: &mut Vec<u8>) -> Result<(), NoMemory>
    ensures { OnOk result (out.new.items ≡ out.old.items ++ 1 ∷ eight_bytes (cast_unsigned w64 n)) }
{
    out.push(1)?;
    out.extend_from_slice(&n.to_le_bytes())
}

fn spell_text(text: &[u8], out: &mut Vec<u8>) -> Result<(), NoMemory>
    ensures { OnOk result (out.new.items
        ≡ out.old.items ++ 2 ∷ (eight_bytes (length text.now) ++ text.now)) }
{
    spell_head(2, text.len() as u64, out)?;
    out.extend_from_slice(text)
}

fn spell_head(kind: u8, length: u64, out: &mut Vec<u8>) -> Result<(), NoMemory>
    ensures { OnOk result (out.new.items ≡ out.old.items ++ kind ∷ eight_bytes length) }
{
    out.push(kind)?;
    out.extend_from_slice(&length.to_le_bytes())
}

/// Appends the spelling of a value that is lent.
pub fn spell_seen(value: Seen<'_>, out: &mut Vec<u8>) -> Result<(), NoMemory>
    ensures { OnOk result (out.new.items ≡ out.old.items ++ spelled (seen value.entry)) }
{
    match value {
        Seen::Null => spell_null(out),
        Seen::Num(n) => spell_number(n, out),
        Seen::Text(text) => spell_text(text, out),
        Seen::List(values) => spell_list(values, out),
    }
}

/// Appends the spellings of a row's values of these properties.
pub fn spell_tuple(
    def: &IndexDef,
    by: &[Bytes],
    row: LentRow<'_>,
    out: &mut Vec<u8>,
) -> Result<(), NoMemory>
    ensures { OnOk result (out.new.items
        ≡ out.old.items ++ spelled_all (tuple_of def.now by.now (row_of row.entry))) }
{
    for name in by {
        spell_property(def, name.as_slice(), row, out)?;
    }
    Ok(())
}

fn spell_property(
    def: &IndexDef,
    name: &[u8],
    row: LentRow<'_>,
    out: &mut Vec<u8>,
) -> Result<(), NoMemory>
    ensures { OnOk result (out.new.items
        ≡ out.old.items ++ spelled (property_value name.now (row_of row.entry) def.now)) }
{
    let value = row.property(name, def);
    spell_seen(Seen::of(&value), out)
}
