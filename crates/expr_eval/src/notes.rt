//! What properties of a row were found to be worth, so that one that comes again is not looked up again.
ghost use Rattle.std.specs.Prelude.{◌≡◌, ◌<◌, IfSome};
ghost use Rattle.expr_eval.specs.Lending.{operand_seen, row_of};
ghost use Rattle.expr_eval.specs.Noting.{AreNoted, IsSlot, operand_noted};
ghost use Rattle.expr_eval.specs.Properties.{property_value};
ghost use Rattle.expr_eval.specs.Values.{operand_of};

use crate::lent::Lent;
use crate::lent_row::LentRow;
use crate::seen::Seen;
use ft_base::IndexDef;
use std::alloc::Global;

/// So many properties are noted at a time. A property has one slot, by its name.
const SLOTS: usize = 8;

/// What an expression is worked out in.
#[derive(Clone, Copy)]
pub struct Context<'a> {
    pub alloc: Global,
    pub row: LentRow<'a>,
    pub def: &'a IndexDef,
}

/// A property, and what is seen of its value.
#[derive(Clone, Copy)]
pub struct Note<'a> {
    pub name: &'a [u8],
    pub seen: Seen<'a>,
}

/// Notes of one row. They take no memory.
#[derive(Clone, Copy)]
pub struct Notes<'a> {
    pub slots: [Option<Note<'a>>; 8],
}

impl<'a> Notes<'a> {
    /// No notes.
    pub fn new(at: &Context<'a>) -> Notes<'a>
        ensures { AreNoted at.now result }
    {
        Notes { slots: [None; 8] }
    }

    /// What is seen of a property's value, where it can be kept.
    pub fn property(&mut self, name: &'a [u8], at: &Context<'a>) -> Option<Seen<'a>>
        requires noted { AreNoted at.now self.old }
        ensures value { IfSome result (λ seen. operand_seen seen ≡ operand_noted at.now name.now) }
        ensures noted { AreNoted at.now self.new }
    {
        let slot = slot_of(name);
        if let Some(note) = self.slots[slot]
            && note.name == name
        {
            return Some(note.seen);
        }
        let seen = at.row.property(name, at.def).kept()?;
        self.slots[slot] = Some(Note { name, seen });
        Some(seen)
    }
}

/// The slot of a name, by its last byte and its length.
fn slot_of(name: &[u8]) -> usize
    ensures { result < 8 }
{
    match name.last() {
        Some(byte) => (*byte as usize ^ name.len()) % SLOTS,
        None => 0,
    }
}
