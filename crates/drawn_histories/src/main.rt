//! Histories of commands, scans and splices that are drawn from seeds, and the replies of each compared with those of its commands alone.
//!
//! Standard input has the words that a command may have and the commands: `grammar.rt` says how. A history is a list of events:
//! commands, scans of an index, and splices of what any earlier scan pictured, in any order. It is given to one engine, and its
//! commands alone to another, with a PING in place of each scan and each splice that happened, so that the events have
//! the same numbers. The replies must be the same, but for the number of records that FT.INFO tells, which a splice changes.
//! Read `drawing.rt` next, then `comparing.rt`. The last line counts what was drawn and what differs.
#![tactic(auto)]

mod comparing;
mod drawing;
mod grammar;

use crate::comparing::{Tally, compare};
use crate::drawing::draw_events;
use crate::grammar::read_grammar;
use rand_pcg::Lcg64Xsh32;
use std::io;

/// How many histories are drawn.
const HISTORIES: u64 = 300;

fn main(rt: HostRuntime) -> io::Result<()> {
    let alloc = rt.alloc();
    let text = io::read_to_string(alloc, rt.reader())?;
    let grammar = read_grammar(alloc, text.as_str())?;
    let mut tally = Tally::default();
    for seed in 0..HISTORIES {
        let mut rng = Lcg64Xsh32::new(seed, 1);
        let events = draw_events(alloc, &grammar, &mut rng)?;
        compare(&rt, alloc, events, &mut tally)?;
    }
    print(&rt, &tally)
}

// Prints what was drawn, what the splices came to, and how many histories differ.
fn print(rt: &HostRuntime, tally: &Tally) -> io::Result<()> {
    println!(rt;
        "{} histories of {} commands and {} scans; lists spliced {}, moved {}, gone {}, clean {}",
        HISTORIES, tally.commands, tally.scans, tally.done, tally.moved, tally.gone, tally.clean
    )?;
    println!(rt; "{} histories differ", tally.differ)
}
