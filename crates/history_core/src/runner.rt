//! Events given to a machine in order.
ghost use Rattle.std.specs.Prelude.{◌≡◌, ◌≤◌, ◌<◌, ◌+◌, [], List, length, vec_capacity, IfOk, OnErr};
ghost use Rattle.std.specs.List.{All};
ghost use Rattle.std.specs.Option.{option_copied};
ghost use Rattle.ft_base.specs.Spans.{words_of};
ghost use Rattle.history_core.specs.Entries.{Entry};
ghost use Rattle.history_core.specs.Events.{AllGood, Did, Happens, Scanning};
ghost use Rattle.history_core.specs.Histories.{Leads};
ghost use Rattle.history_core.specs.Pictures.{listed};
ghost use Rattle.history_core.specs.Running.{AreLawful, IsLawful, IsStep, Runs};

use crate::event::{Event, Outcome};
use crate::machine::Machine;
use ft_base::{Bytes, Frame, ListOf, NoMemory};
use std::alloc::Global;

/// The room for a reply at the start. A longer reply makes more.
const REPLY_ROOM: usize = 64;

/// Gives the events to the machine in order, and answers one outcome for each. Out of
/// memory, some of the first events happened, and the others did not.
pub fn run<M: Machine>(
    alloc: Global,
    machine: &mut M,
    events: &[Event],
) -> Result<ListOf<Outcome<M::Answer>>, NoMemory>
    requires lawful { All IsLawful events.now }
    requires ready { M.ready machine.old }

    // One outcome an event, and these are the outcomes of a history that leads to the machine's state: the events in order,
    // but for those that are no entry.
    ensures count { IfOk result (λ outcomes. length outcomes ≡ length events.now) }
    ensures legal { IfOk result (λ outcomes. (entries : List (Entry M.Snapshot M.Name M.Answer))
        × Runs M.pictures M.name M.clean [] events.now outcomes entries
        × Leads (IsStep M.step M.scans M.splices M.pictures M.name) [] machine.old entries machine.new) }
    // The same of the events that happened, out of memory.
    ensures first { OnErr result ((outcomes : List (Outcome M.Answer)) × (length outcomes ≤ length events.now)
        × (entries : List (Entry M.Snapshot M.Name M.Answer))
        × Runs M.pictures M.name M.clean [] events.now outcomes entries
        × Leads (IsStep M.step M.scans M.splices M.pictures M.name) [] machine.old entries machine.new) }

    ensures ready { M.ready machine.new }
{
    let mut outcomes = Vec::with_capacity(alloc, events.len())?;
    let mut scans = Vec::with_capacity(alloc, events.len())?;
    for event in events {
        // Room for the outcome is taken before the event happens, so what happens is told.
        let reply = Vec::with_capacity(alloc, REPLY_ROOM)?;
        outcomes.push_reserved(take(machine, event, reply, &mut scans));
    }
    Ok(ListOf::from_vec(outcomes))
}

// Gives one event to the machine. A command's reply is written to the buffer, which the outcome takes over; what a scan
// pictured goes behind what the scans before it did.
fn take<M: Machine>(
    machine: &mut M,
    event: &Event,
    reply: Vec<u8>,
    scans: &mut Vec<Option<ListOf<M::Picture>>>,
) -> Outcome<M::Answer>
    requires lawful { IsLawful event.now }
    requires room { 64 ≤ vec_capacity reply }
    requires space { length scans.old.items < vec_capacity scans.old }
    requires good { AllGood M.good scans.old.items machine.old }
    requires ready { M.ready machine.old }
    ensures happens { Happens M.step M.scans M.splices M.pictures M.name M.clean
        event.now result machine.old machine.new scans.old.items scans.new.items }
    ensures good { AllGood M.good scans.new.items machine.new }
    ensures few { length scans.new.items ≤ length scans.old.items + 1 }
    ensures space { vec_capacity scans.old ≤ vec_capacity scans.new }
    ensures ready { M.ready machine.new }
{
    match event {
        Event::Exec {
            caller: _,
            now,
            frame,
        } => Outcome::Replied(answer(machine, *now, frame, reply)),
        Event::Scan { caller: _, index } => scan(machine, index, scans),
        Event::Splice {
            caller: _,
            scan,
            list,
        } => match find(scans.as_slice(), *scan, *list) {
            Some(picture) => splice(machine, picture),
            None => Outcome::NoPicture,
        },
    }
}

// Executes a command at a moment, and answers the buffer with its reply.
fn answer<M: Machine>(machine: &mut M, now: u64, frame: &Frame, mut reply: Vec<u8>) -> Bytes
    requires lawful { AreLawful (words_of frame.now.bytes frame.now.spans) }
    requires room { 64 ≤ vec_capacity reply }
    requires ready { M.ready machine.old }
    ensures step { M.step machine.old now (words_of frame.now.bytes frame.now.spans) result machine.new }
    ensures keeps { (picture : M.Picture) → M.good picture machine.old → M.good picture machine.new }
    ensures ready { M.ready machine.new }
{
    machine.exec(now, frame.words(), &mut reply);
    Bytes::from_vec(reply)
}

// Scans the index of a name, and keeps what it pictured behind what the scans before it did.
fn scan<M: Machine>(
    machine: &mut M,
    index: &Bytes,
    scans: &mut Vec<Option<ListOf<M::Picture>>>,
) -> Outcome<M::Answer>
    requires space { length scans.old.items < vec_capacity scans.old }
    requires good { AllGood M.good scans.old.items machine.old }
    requires ready { M.ready machine.old }
    ensures scanning { Scanning M.scans M.pictures index.now result machine.old machine.new scans.old.items scans.new.items }
    ensures good { AllGood M.good scans.new.items machine.new }
    ensures few { length scans.new.items ≡ length scans.old.items + 1 }
    ensures space { vec_capacity scans.old ≤ vec_capacity scans.new }
    ensures ready { M.ready machine.new }
{
    match machine.scan(index.as_slice()) {
        Ok(Some(lists)) => {
            let count = lists.len();
            scans.push_reserved(Some(lists));
            Outcome::Scanned { lists: count }
        }
        Ok(None) => {
            scans.push_reserved(None);
            Outcome::NoIndex
        }
        Err(_) => {
            scans.push_reserved(None);
            Outcome::NoMemory
        }
    }
}

// The picture of a number of the scan of a number, both from 0.
fn find<P>(scans: &[Option<ListOf<P>>], scan: usize, list: usize) -> Option<&P>
    ensures { option_copied result ≡ listed scans.now scan list }
{
    match scans.get(scan) {
        Some(Some(pictures)) => pictures.as_slice().get(list),
        _ => None,
    }
}

// Repairs a picture, and splices the repair, if there is one.
fn splice<M: Machine>(machine: &mut M, picture: &M::Picture) -> Outcome<M::Answer>
    requires good { M.good picture.now machine.old }
    requires ready { M.ready machine.old }
    ensures did { Did M.splices M.clean picture.now result machine.old machine.new }
    ensures keeps { (other : M.Picture) → M.good other machine.old → M.good other machine.new }
    ensures ready { M.ready machine.new }
{
    match machine.repair(picture) {
        Ok(Some(repair)) => Outcome::Spliced(machine.splice(picture, repair)),
        Ok(None) => Outcome::Clean,
        Err(_) => Outcome::NoMemory,
    }
}
