//! What a caller holds in its turn.
use crate::chronicle::Chronicle;
use crate::view::View;
use atomic_table::Seat;
use std::marker::Model;

/// A turn, with the state that stands for the log. It can't be dropped: it must be left.
pub struct Turn<S: Chronicle> {
    pub(crate) seat: Seat<Option<S>, View<S::Entry>>,
    pub(crate) state: S,
}

impl<S: Chronicle> Model for Turn<S> {
    ghost use Rattle.std.specs.Prelude.{◌≡◌, true, false, [], ◌∷◌, None};
    ghost use Rattle.turn_gate.specs.Known.{InTurn};

    ghost Value = { InTurn S S.Entry };

    ghost view = { λ t. record {
      gate = record { table = t.seat.table_id; first = t.seat.me.0.first };
      caller = t.seat.id;
      seen = t.seat.me.0.seen;
      turns = t.seat.me.0.turns;
      alone = t.seat.me.0.alone;
      state = t.state;
    } };

    ghost invariant = { λ t. (t.seat.me.0.in_turn ≡ true) × (t.seat.me.0.spent ≡ false)
        × (t.seat.me.1 ≡ (0, None) ∷ []) };
}
