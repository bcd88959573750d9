//! The steps of a turn, of a split and of a join.
//!
//! A call picks its caller's number and what it adds, since the steps of the table can't see them.
ghost use Rattle.std.specs.Prelude.{◌≡◌, ◌≢◌, ◌<◌, ◌≤◌, true, false, [], ◌∷◌, None};
ghost use Rattle.turn_gate.specs.Log.{StartsWith};
ghost use Rattle.turn_gate.specs.Steps.{Entered};
ghost use Rattle.turn_gate.specs.Views.{with_entries, out_of_turn, with_passes, joined};

use crate::chronicle::{Chronicle, Told};
use crate::plays::{Check, Compare, Count, GiveBack, Lock, Log, Passes, Picked, Try};
use crate::view::View;
use atomic_table::{Seat, Shared};

/// Tries to begin a turn. The answer is 0 where it has begun, and else nothing has changed.
pub(crate) fn try_turn<S: Chronicle, B: Picked<S::Entry>>(
    shared: &Shared<Option<S>, View<S::Entry>, u64, Lock>,
    seat: &mut Seat<Option<S>, View<S::Entry>>,
) -> u64
    requires table { (seat.old.table_id ≡ shared.now.table_id) × (shared.now.table_id.words ≡ 2) }
    requires pass { (seat.old.me.0.spent ≡ false) × (seat.old.me.1 ≡ []) }
    requires picked { B.caller ≡ seat.old.id }
    ensures same { (seat.new.table_id ≡ seat.old.table_id) × (seat.new.id ≡ seat.old.id) }
    ensures begun { result ≡ 0 → Entered S.Entry.caller S.tells seat.old.id seat.old.me seat.new.me }
    ensures taken { result ≢ 0 → seat.new.me ≡ seat.old.me }
{
    shared.swap::<Try<B>>(seat, 0, 1)
}

/// Adds the turn's entries to the log, by counting them in word 1.
pub(crate) fn log_entries<S: Chronicle, T: Told<S::Entry>, B: Picked<S::Entry>>(
    shared: &Shared<Option<S>, View<S::Entry>, u64, Lock>,
    seat: &mut Seat<Option<S>, View<S::Entry>>,
    told: &T,
)
    requires table { (seat.old.table_id ≡ shared.now.table_id) × (shared.now.table_id.words ≡ 2) }
    requires turn { (seat.old.me.0.in_turn ≡ true) × (seat.old.me.0.spent ≡ false) }
    requires picked { B.added ≡ T.entries told.now seat.old.id seat.old.me.0.first seat.old.me.0.seen }
    ensures same { (seat.new.table_id ≡ seat.old.table_id) × (seat.new.id ≡ seat.old.id)
        × (seat.new.me.1 ≡ seat.old.me.1) }
    ensures logged { seat.new.me.0 ≡ with_entries seat.old.me.0
        (T.entries told.now seat.old.id seat.old.me.0.first seat.old.me.0.seen) }
{
    let added = told.count();
    shared.fetch_add::<Log<B>>(seat, 1, added);
}

/// Puts the state back and ends the turn.
pub(crate) fn give_back<S: Chronicle + Drop>(
    shared: &Shared<Option<S>, View<S::Entry>, u64, Lock>,
    seat: &mut Seat<Option<S>, View<S::Entry>>,
    state: S,
)
    requires table { (seat.old.table_id ≡ shared.now.table_id) × (shared.now.table_id.words ≡ 2)
        × (shared.now.table_id.slots ≡ 1) }
    requires turn { (seat.old.me.0.in_turn ≡ true) × (seat.old.me.0.spent ≡ false)
        × (seat.old.me.1 ≡ (0, None) ∷ []) }
    requires state { S.tells state seat.old.me.0.seen seat.old.me.0.first }
    ensures same { (seat.new.table_id ≡ seat.old.table_id) × (seat.new.id ≡ seat.old.id) }
    ensures over { seat.new.me ≡ (out_of_turn seat.old.me.0, []) }
{
    drop(shared.exchange(seat, 0, Some(state)));
    shared.store::<GiveBack>(seat, 0, 0);
}

/// Finds how many passes were made, of which this one is one.
pub(crate) fn count_passes<S: Chronicle, B: Picked<S::Entry>>(
    shared: &Shared<Option<S>, View<S::Entry>, u64, Lock>,
    seat: &mut Seat<Option<S>, View<S::Entry>>,
)
    requires table { (seat.old.table_id ≡ shared.now.table_id) × (shared.now.table_id.words ≡ 2) }
    requires pass { (seat.old.me.0.in_turn ≡ false) × (seat.old.me.0.spent ≡ false) }
    requires picked { B.caller ≡ seat.old.id }
    ensures same { (seat.new.table_id ≡ seat.old.table_id) × (seat.new.id ≡ seat.old.id) }
    ensures passes { seat.new.me ≡ (with_passes seat.old.me.0 seat.new.me.0.passes, seat.old.me.1) }
    ensures one { seat.old.id < seat.new.me.0.passes }
{
    shared.load::<Count<B>>(seat, 0);
}

/// Finds that a new pass has none of the numbers that were given before it.
pub(crate) fn compare_number<S: Chronicle, B: Picked<S::Entry>>(
    shared: &Shared<Option<S>, View<S::Entry>, u64, Lock>,
    seat: &mut Seat<Option<S>, View<S::Entry>>,
)
    requires table { (seat.old.table_id ≡ shared.now.table_id) × (shared.now.table_id.words ≡ 2) }
    requires pass { seat.old.me.0.spent ≡ false }
    requires picked { B.caller ≡ seat.old.id }
    ensures same { (seat.new.table_id ≡ seat.old.table_id) × (seat.new.id ≡ seat.old.id)
        × (seat.new.me ≡ seat.old.me) }
    ensures behind { seat.old.me.0.before ≤ seat.old.id }
{
    shared.load::<Compare<B>>(seat, 0);
}

/// Joins the other pass to this one, and finds that the shorter of their lists begins the longer one.
pub(crate) fn join_seats<S: Chronicle>(
    shared: &Shared<Option<S>, View<S::Entry>, u64, Lock>,
    seat: &mut Seat<Option<S>, View<S::Entry>>,
    other: Seat<Option<S>, View<S::Entry>>,
)
    requires table { (seat.old.table_id ≡ shared.now.table_id) × (other.table_id ≡ shared.now.table_id)
        × (shared.now.table_id.words ≡ 2) }
    requires pass { (seat.old.me.0.in_turn ≡ false) × (seat.old.me.0.spent ≡ false) }
    requires other { (other.me.0.in_turn ≡ false) × (other.me.0.spent ≡ false) × (other.me.1 ≡ []) }
    ensures same { (seat.new.table_id ≡ seat.old.table_id) × (seat.new.id ≡ seat.old.id) }
    ensures joined { seat.new.me ≡ (joined seat.old.me.0 other.me.0, seat.old.me.1) }
    ensures begun { StartsWith seat.new.me.0.seen seat.new.me.0.told }
{
    shared.join_seat::<Passes>(seat, other);
    shared.load::<Check>(seat, 0);
}
