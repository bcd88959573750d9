//! The ids of a list, read ahead block by block.
ghost use Rattle.std.specs.Prelude.{◌≡◌, ◌<◌, ◌≤◌, ◌+◌, ◌&&◌, max, true, false, IfOk, IfSome};
ghost use Rattle.std.specs.Option.{option_copied};
ghost use Rattle.id_iters.specs.Ahead.{IsAhead, ids_from};
ghost use Rattle.id_iters.specs.Entries.{has_entry};
ghost use Rattle.id_iters.specs.Held.{AreLists, entries_of};
ghost use Rattle.id_iters.specs.Least.{IsLeast, NoneBetween, NoneFrom};
ghost use Rattle.id_iters.specs.Places.{IsSoundIn};
ghost use Rattle.inverted_list.specs.Places.{IsSound};

use crate::hit_test::HitTest;
use crate::lists::Lists;
use crate::read_ahead::ReadAhead;
use ft_base::{NoMemory, Steps};
use inverted_list::{List, Place};
use posting_block::Payload;
use std::sync::ledger::Ledger;

/// The least live id from `from` on whose hit is wanted in the list, where there is one. Nothing is left between `from` and
/// the place. Behind an id the ids ahead are those up to the place; at the list's end their memory is given back.
pub(crate) fn read_in<P: Payload, H: HitTest<P>, T: Lists, L: Ledger>(
    list: Option<&List<P>>,
    test: &H,
    place: &mut Place,
    ahead: &mut ReadAhead,
    lists: &T,
    from: u64,
    steps: &mut Steps<L>,
) -> Result<Option<u64>, NoMemory>
    requires lists { AreLists (T.held lists.now) }
    requires sound { IsSoundIn (option_copied list) place.old }
    requires used { NoneBetween (λ id. (T.held lists.now).live id
        && has_entry (H.wants test.now) (entries_of (option_copied list)) id) from (place.old.last + 1) }
    ensures least { IfOk result (λ r. IsLeast
        (λ id. (T.held lists.now).live id
        && has_entry (H.wants test.now) (entries_of (option_copied list.entry)) id) from r) }
    ensures sound { IsSoundIn (option_copied list.entry) place.new }
    ensures ahead { IfOk result (λ r. IfSome r (λ id.
        IsAhead (has_entry (H.wants test.now) (entries_of (option_copied list.entry))) place.new.last (id + 1) ahead.new)) }
    ensures counts { steps.old ≤ steps.new }
{
    match list {
        Some(list) => read_list(list, test, place, ahead, lists, from, steps),
        None => Ok(None),
    }
}

// The same in a list.
fn read_list<P: Payload, H: HitTest<P>, T: Lists, L: Ledger>(
    list: &List<P>,
    test: &H,
    place: &mut Place,
    ahead: &mut ReadAhead,
    lists: &T,
    from: u64,
    steps: &mut Steps<L>,
) -> Result<Option<u64>, NoMemory>
    requires lists { AreLists (T.held lists.now) }
    requires sound { IsSound place.old list.now }
    requires used { NoneBetween (λ id. (T.held lists.now).live id
        && has_entry (H.wants test.now) list.now.entries id) from (place.old.last + 1) }
    ensures least { IfOk result (λ r. IsLeast
        (λ id. (T.held lists.now).live id
        && has_entry (H.wants test.now) list.now.entries id) from r) }
    ensures sound { IsSound place.new list.now }
    ensures ahead { IfOk result (λ r. IfSome r (λ id.
        IsAhead (has_entry (H.wants test.now) list.now.entries) place.new.last (id + 1) ahead.new)) }
    ensures counts { steps.old ≤ steps.new }
{
    'read: while place.last < u64::MAX {
        let start = later(from, place.last + 1);
        match read_block(list, test, place, ahead, start, steps) {
            Ok(true) => {}
            Ok(false) => {
                ahead.forget();
                return Ok(None);
            }
            Err(fault) => return Err(fault),
        }
        if let Some(id) = ahead.next_live(lists, start) {
            return Ok(Some(id));
        }
    }
    Ok(None)
}

// Reads the ids of the block of the first entry from `from` on, and tells whether there is one.
fn read_block<P: Payload, H: HitTest<P>, L: Ledger>(
    list: &List<P>,
    test: &H,
    place: &mut Place,
    ahead: &mut ReadAhead,
    from: u64,
    steps: &mut Steps<L>,
) -> Result<bool, NoMemory>
    requires sound { IsSound place.old list.now }
    requires ahead { place.old.last < from }
    ensures none { IfOk result (λ there. there ≡ false
        → NoneFrom (has_entry (H.wants test.now) list.now.entries) from) }
    ensures some { IfOk result (λ there. there ≡ true
        → IsAhead (has_entry (H.wants test.now) list.now.entries) place.new.last from (ids_from from ahead.new)) }
    ensures forward { IfOk result (λ there. there ≡ true → from ≤ place.new.last) }
    ensures sound { IsSound place.new list.now }
    ensures counts { steps.old ≤ steps.new }
{
    let Some(block) = list.next_block(place, from, steps) else {
        return Ok(false);
    };
    ahead.fill(block, test, from)?;
    Ok(true)
}

fn later(from: u64, other: u64) -> u64
    ensures { result ≡ max from other }
{
    if from <= other { other } else { from }
}
