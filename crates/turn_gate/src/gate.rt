//! The lock: how a pass enters a turn and leaves it, and how passes are split and joined.
ghost use Rattle.std.specs.Prelude.{◌≡◌, ◌+◌, ◌<◌, true, false, [], ◌++◌, ◌∷◌, IfOk, Some};
ghost use Rattle.turn_gate.specs.Log.{StartsWith, OthersSince, longer};
ghost use Rattle.turn_gate.specs.Steps.{Entered};

use crate::chronicle::{Chronicle, Told};
use crate::pass::Pass;
use crate::plays::{Lock, Passes};
use crate::steps::{compare_number, count_passes, give_back, join_seats, log_entries, try_turn};
use crate::turn::Turn;
use crate::view::View;
use atomic_table::{Refused, Seat, Shared, Table};
use ft_base::NoMemory;
use std::alloc::Global;
use std::marker::{Brand, Model};
use std::sync::Wait;
use std::sync::atomic::AtomicU32;
use std::sync::atomic::Ordering::SeqCst;
use std::thread::yield_now;

/// How often a waiter tries, with other threads let run between, before it sleeps. A short turn is over by then, and
/// sleeping and waking cost more than that; a long one leaves its waiters asleep.
const TRIES: u32 = 32;

/// A lock round a state, whose turns add their entries to one log.
#[derive(Drop)]
pub struct Gate<S: Chronicle> {
    table: Table<Option<S>, View<S::Entry>, u64, Lock, Global>,
    // How many waiters sleep or are about to. No contract tells of it.
    sleepers: AtomicU32,
}

impl<S: Chronicle> Model for Gate<S> {
    ghost use Rattle.std.specs.Prelude.{◌≡◌};
    ghost use Rattle.turn_gate.specs.Known.{GateName};

    ghost Value = { GateName };

    ghost view = { λ g. record { table = g.table.shared.table_id; first = g.table.shared.key } };

    ghost invariant = { λ g. (g.table.shared.table_id.words ≡ 2) × (g.table.shared.table_id.slots ≡ 1) };
}

impl<S: Chronicle + Drop> Gate<S> {
    /// A gate round a state that stands for no entry, and its first pass, which is alone. When out of memory the state
    /// is dropped.
    ///
    /// No other call takes memory.
    pub fn open(alloc: Global, state: S) -> Result<(Gate<S>, Pass<S>), NoMemory>
        requires empty { S.tells state [] (S.first state) }
        ensures gate { IfOk result (λ r. (r.0.first ≡ S.first state) × (r.1.gate ≡ r.0)) }
        ensures pass { IfOk result (λ r. (r.1.seen ≡ []) × (r.1.turns ≡ 0) × (r.1.alone ≡ true)
            × (r.1.caller ≡ 0)) }
    {
        let first = state.first_number();
        match Table::new(alloc, &[0, 0], one_slot(alloc, state)?, &first) {
            Ok((table, seat)) => {
                let sleepers = AtomicU32::new(0);
                Ok((Gate { table, sleepers }, Pass { seat }))
            }
            Err(Refused { slots: _ }) => Err(NoMemory),
        }
    }

    /// Waits for a turn and begins it.
    ///
    /// The turn's log begins with what the pass had seen and goes on with entries of others, of which there are none
    /// while the pass is alone. The state stands for it.
    pub fn enter<R: Wait>(&self, rt: &R, pass: Pass<S>) -> Turn<S>
        requires gate { pass.gate ≡ self.now }
        ensures same { (result.gate ≡ pass.gate) × (result.caller ≡ pass.caller)
            × (result.alone ≡ pass.alone) }
        ensures turns { result.turns ≡ pass.turns + 1 }
        ensures log { OthersSince S.Entry.caller pass.caller pass.seen result.seen }
        ensures alone { pass.alone ≡ true → result.seen ≡ pass.seen }
        ensures state { S.tells result.state result.seen pass.gate.first }
    {
        let Pass { mut seat } = pass;
        let shared = &self.table.shared;
        begin_turn(rt, shared, &self.sleepers, &mut seat);
        let state = shared.exchange(&mut seat, 0, None).unwrap();
        Turn { seat, state }
    }

    /// Ends the turn, adds the entries that `told` stands for to the log, and wakes a caller that sleeps, if one does.
    ///
    /// The state has to stand for the log with these entries. The pass has then seen all of it.
    pub fn leave<T: Told<S::Entry>>(&self, turn: Turn<S>, told: &T) -> Pass<S>
        requires gate { turn.gate ≡ self.now }
        requires state { S.tells turn.state
            (turn.seen ++ T.entries told.now turn.caller turn.gate.first turn.seen) turn.gate.first }
        ensures same { (result.gate ≡ turn.gate) × (result.caller ≡ turn.caller)
            × (result.turns ≡ turn.turns) × (result.alone ≡ turn.alone) }
        ensures log { result.seen ≡ turn.seen ++ T.entries told.now turn.caller turn.gate.first turn.seen }
    {
        let Turn { mut seat, state } = turn;
        let shared = &self.table.shared;
        log_entries::<S, T, Brand>(shared, &mut seat, told);
        give_back(shared, &mut seat, state);
        // No wake is lost: the store of word 0, this load and a sleeper's addition are sequentially consistent, and `park`
        // sleeps only where word 0 is still 1. So either the sleeper is counted here, or it finds word 0 given back.
        if self.sleepers.load(SeqCst) > 0 {
            shared.wake_one(0);
        }
        Pass { seat }
    }

    /// A new pass, which has seen as much, has taken no turn and has a caller's number of its own. From then on neither
    /// is alone.
    pub fn split(&self, pass: &mut Pass<S>) -> Pass<S>
        requires gate { pass.old.gate ≡ self.now }
        ensures same { pass.new ≡ record pass.old { alone = false } }
        ensures new { (result.gate ≡ pass.old.gate) × (result.seen ≡ pass.old.seen) × (result.turns ≡ 0)
            × (result.alone ≡ false) }
        ensures own { pass.old.caller < result.caller }
    {
        let shared = &self.table.shared;
        count_passes::<S, Brand>(shared, &mut pass.seat);
        let mut seat = shared.split_seat::<Passes>(&mut pass.seat);
        compare_number::<S, Brand>(shared, &mut seat);
        Pass { seat }
    }

    /// Gives a pass what the other has seen, and ends the other. Of the two lists one began the other.
    pub fn join(&self, pass: &mut Pass<S>, other: Pass<S>)
        requires gate { (pass.old.gate ≡ self.now) × (other.gate ≡ self.now) }
        ensures same { (pass.new.gate ≡ pass.old.gate) × (pass.new.caller ≡ pass.old.caller)
            × (pass.new.turns ≡ pass.old.turns) × (pass.new.alone ≡ pass.old.alone) }
        ensures log { pass.new.seen ≡ longer pass.old.seen other.seen }
        ensures both { StartsWith pass.new.seen pass.old.seen × StartsWith pass.new.seen other.seen }
    {
        let Pass { seat: other } = other;
        join_seats(&self.table.shared, &mut pass.seat, other);
    }
}

/// The slot of a gate's table, with its state.
fn one_slot<S: Drop>(alloc: Global, state: S) -> Result<Vec<Option<S>>, NoMemory>
    ensures { IfOk result (λ slots. slots.items ≡ Some state ∷ []) }
{
    let mut slots = Vec::with_capacity(alloc, 1)?;
    slots.push_reserved(Some(state));
    Ok(slots)
}

/// Waits until a turn begins.
fn begin_turn<S: Chronicle, R: Wait>(
    rt: &R,
    shared: &Shared<Option<S>, View<S::Entry>, u64, Lock>,
    sleepers: &AtomicU32,
    seat: &mut Seat<Option<S>, View<S::Entry>>,
)
    requires table { (seat.old.table_id ≡ shared.now.table_id) × (shared.now.table_id.words ≡ 2) }
    requires pass { (seat.old.me.0.spent ≡ false) × (seat.old.me.1 ≡ []) }
    ensures same { (seat.new.table_id ≡ seat.old.table_id) × (seat.new.id ≡ seat.old.id) }
    ensures begun { Entered S.Entry.caller S.tells seat.old.id seat.old.me seat.new.me }
{
    let mut tries = 0;
    for _ in rt.forever() {
        if try_turn::<S, Brand>(shared, seat) == 0 {
            return;
        }
        back_off(rt, shared, sleepers, tries);
        tries = tries.saturating_add(1);
    }
    unreachable!()
}

/// Lets other threads run after one of the first tries, and after a later one sleeps until a turn ends. It counts itself
/// among the sleepers before it looks at word 0 once more, since `leave` wakes nobody where none is counted.
fn back_off<S: Chronicle, R: Wait>(
    rt: &R,
    shared: &Shared<Option<S>, View<S::Entry>, u64, Lock>,
    sleepers: &AtomicU32,
    tries: u32,
)
    requires table { shared.now.table_id.words ≡ 2 }
{
    if tries < TRIES {
        yield_now();
    } else {
        sleepers.fetch_add(1, SeqCst);
        shared.park(rt, 0, 1);
        sleepers.fetch_sub(1, SeqCst);
    }
}
