//! The state of a turn. It has a file of its own, since its clause names the row of `Turn`.
ghost use Rattle.std.specs.Prelude.{◌≡◌};
ghost use Rattle.std.specs.Borrow.{Lends, sem};
ghost use Rattle.turn_gate.specs.contracts.turn.Turn.{the_row};
ghost use Rattle.turn_gate.specs.Known.{with_state};

use crate::chronicle::Chronicle;
use crate::turn::Turn;

impl<S: Chronicle> Turn<S> {
    /// The state. When the borrow ends, the turn has what was written through it.
    pub fn state(&mut self) -> &mut S
        ensures* writes_back { sem 𝓛 (Lends (the_row S.row S.Entry.row S.Chronicle S.Entry.Logged) S.row
            self.entry result (with_state self.old)) }
        ensures value { result.now ≡ self.old.state }
    {
        &mut self.state
    }
}
