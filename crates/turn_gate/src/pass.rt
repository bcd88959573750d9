//! What a caller holds between its turns.
use crate::chronicle::Chronicle;
use crate::view::View;
use atomic_table::Seat;
use std::marker::Model;

/// A caller's own number, and what it has seen of the log. It has no bytes, and may go to another thread.
///
/// A pass that is dropped leaves its entries in the log, and its number goes to no other pass.
#[derive(Drop)]
pub struct Pass<S: Chronicle> {
    pub(crate) seat: Seat<Option<S>, View<S::Entry>>,
}

impl<S: Chronicle> Model for Pass<S> {
    ghost use Rattle.std.specs.Prelude.{◌≡◌, false, []};
    ghost use Rattle.turn_gate.specs.Known.{Known};

    ghost Value = { Known S.Entry };

    ghost view = { λ p. record {
      gate = record { table = p.seat.table_id; first = p.seat.me.0.first };
      caller = p.seat.id;
      seen = p.seat.me.0.seen;
      turns = p.seat.me.0.turns;
      alone = p.seat.me.0.alone;
    } };

    ghost invariant = { λ p. (p.seat.me.0.in_turn ≡ false) × (p.seat.me.0.spent ≡ false)
        × (p.seat.me.1 ≡ []) };
}
