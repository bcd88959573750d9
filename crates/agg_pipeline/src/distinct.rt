//! Distinct values in order of first appearance, found by their spelling.
ghost use Rattle.std.specs.Prelude.{◌≡◌, [], OnOk, IfOk};
ghost use Rattle.agg_pipeline.specs.Distinct.{AreSpelled, IsNew, TakesValue, with_value};
ghost use Rattle.agg_pipeline.specs.Equal.{spelled};
ghost use Rattle.agg_pipeline.specs.Seen.{seen};

use crate::seen::Seen;
use crate::spelling::spell_seen;
use ft_base::{ListOf, NoMemory, Value};
use indexmap::IndexMap;
use std::alloc::Global;
use std::marker::Model;

/// Distinct values, which a contract sees as their list.
#[derive(Drop)]
pub struct Distinct {
    values: IndexMap<Vec<u8>, Value>,
}

impl Model for Distinct {
    ghost use Rattle.std.specs.Map.{values_of};
    ghost use Rattle.agg_pipeline.specs.Distinct.{AreSpelled, Values, values_code};

    ghost Value = { Values };

    ghost coded = { values_code };

    ghost view = { λ d. values_of d.values.entries };

    ghost invariant = { λ d. AreSpelled d.values.entries };
}

impl Distinct {
    /// No values, and no memory taken.
    pub fn new(alloc: Global) -> Distinct
        ensures { result ≡ [] }
    {
        Distinct {
            values: IndexMap::new(alloc),
        }
    }

    /// Adds a value, where it is not there. What was in the room for the spelling is gone.
    pub fn add(&mut self, value: Seen<'_>, room: &mut Vec<u8>) -> Result<(), NoMemory>
        ensures { OnOk result (self.new ≡ with_value self.old (seen value.entry)) }
    {
        room.clear();
        spell_seen(value, room)?;
        if self.values.contains_key(room.as_slice()) {
            return Ok(());
        }
        insert(&mut self.values, room.as_slice(), value)
    }

    /// The values.
    pub fn into_list(self) -> Result<ListOf<Value>, NoMemory>
        ensures { IfOk result (λ list. list ≡ self) }
    {
        let mut list = Vec::new(*self.values.allocator());
        for (_, value) in self.values {
            list.push(value)?;
        }
        Ok(ListOf::from_vec(list))
    }
}

/// Adds a value that is not there, under its spelling.
fn insert(
    values: &mut IndexMap<Vec<u8>, Value>,
    spelling: &[u8],
    value: Seen<'_>,
) -> Result<(), NoMemory>
    requires spelled { spelling.now ≡ spelled (seen value) }
    requires absent { IsNew spelling.now values.old.entries }
    ensures kept { AreSpelled values.old.entries → AreSpelled values.new.entries }
    ensures ok { OnOk result (TakesValue (seen value.entry) values.old.entries values.new.entries) }
{
    let alloc = *values.allocator();
    let key = Vec::from_slice(alloc, spelling)?;
    let value = value.own(alloc)?;
    values.insert(key, value)?;
    Ok(())
}
