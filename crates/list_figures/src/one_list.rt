//! What the picture, the repair and the splice of one list cost.
//!
//! Tags keep nothing beside an id. Numbers are the negatives of the ids, so that most take three bytes.
ghost use Rattle.std.specs.Prelude.{◌≡◌, ◌<◌, IfOk, IfSome, OnOk};
ghost use Rattle.gc_splice.specs.Repaired.{repaired};
ghost use Rattle.inverted_list.specs.Blocks.{listing};
ghost use Rattle.inverted_list.specs.Listing.{last_id};
ghost use Rattle.list_figures.specs.Figures.{IsRepairOf, but_tenth};

use crate::clock::{tell, tell_each};
use ft_base::NoMemory;
use gc_splice::{Live, Repair, repair_here, splice_list};
use inverted_list::{List, Marker, Picture};
use posting_block::{NumHit, Payload, TagHit};
use std::alloc::Global;
use std::io;
use std::time::Instant;

/// The marker of a list before it is spliced.
const PICTURED: Marker = Marker { event: 1, nth: 0 };

/// The marker of a list once it was spliced.
const SPLICED: Marker = Marker { event: 2, nth: 0 };

/// Each tenth id up to one is dead.
#[derive(Clone, Copy)]
struct Tenth {
    till: u64,
}

impl Live for Tenth {
    ghost is = { λ tenth id. but_tenth tenth.till id };

    fn is_live(&self, id: u64) -> bool {
        !(id % 10 == 0 && id <= self.till)
    }
}

/// What a list that is measured keeps beside an id.
trait Sample: Payload {
    /// What stands beside the id.
    fn beside(id: u64) -> Self;
}

impl Sample for TagHit {
    fn beside(id: u64) -> TagHit {
        TagHit {}
    }
}

impl Sample for NumHit {
    fn beside(id: u64) -> NumHit {
        let value = 0i64.saturating_sub(i64::try_from(id).unwrap_or(0));
        NumHit { value }
    }
}

/// Prints the figures of lists without a dead entry, with one, and with each tenth dead.
pub fn print(rt: &HostRuntime) -> io::Result<()> {
    for till in [0, 10, 1_000_000] {
        print_kind::<TagHit>(rt, "tags", till)?;
        print_kind::<NumHit>(rt, "numbers", till)?;
    }
    Ok(())
}

fn print_kind<P: Sample>(rt: &HostRuntime, kind: &str, till: u64) -> io::Result<()> {
    print_list::<P>(rt, kind, 100_000, Tenth { till })?;
    print_list::<P>(rt, kind, 1_000_000, Tenth { till })
}

// A list of the ids from 1 on.
fn print_list<P: Sample>(
    rt: &HostRuntime,
    kind: &str,
    entries: u64,
    live: Tenth,
) -> io::Result<()> {
    print_head(rt, kind, entries, live.till)?;
    let mut list = listed::<P>(rt.alloc(), entries)?;
    print_steps::<P>(rt, &mut list, entries, &live)
}

fn print_head(rt: &HostRuntime, kind: &str, entries: u64, till: u64) -> io::Result<()> {
    print!(rt; "list of {entries} {kind}, each tenth dead up to {till}")
}

fn listed<P: Sample>(alloc: Global, entries: u64) -> Result<List<P>, NoMemory> {
    let mut list = List::new(alloc, PICTURED);
    'ids: for before in 0..entries {
        add::<P>(&mut list, before + 1)?;
    }
    Ok(list)
}

// Adds an entry behind the others.
#[tactic(auto, using(crate::proofs::FigureLaws::last_id_push))]
fn add<P: Sample>(list: &mut List<P>, id: u64) -> Result<(), NoMemory>
    requires { last_id 0 list.old.entries < id }
    ensures { OnOk result (last_id 0 list.new.entries ≡ id) }
{
    list.append(id, &P::beside(id))
}

fn print_steps<P: Sample>(
    rt: &HostRuntime,
    list: &mut List<P>,
    entries: u64,
    live: &Tenth,
) -> io::Result<()> {
    if let Some(repair) = made::<P>(rt, list, entries, live)? {
        print_spliced::<P>(rt, list, repair, live)?;
    }
    println!(rt; "")
}

fn made<P: Sample>(
    rt: &HostRuntime,
    list: &List<P>,
    entries: u64,
    live: &Tenth,
) -> io::Result<Option<Repair<P>>>
    ensures { IfOk result (λ made. IfSome made (λ repair. IsRepairOf (but_tenth live.now.till) list.now repair)) }
{
    let picture = pictured::<P>(rt, list)?;
    repair_of::<P>(rt, &picture, entries, live)
}

fn pictured<P: Sample>(rt: &HostRuntime, list: &List<P>) -> io::Result<Picture<P>>
    ensures { IfOk result (λ picture. listing picture ≡ list.now) }
{
    let start = Instant::now(rt)?;
    let picture = list.picture()?;
    tell(rt, "picture", start)?;
    Ok(picture)
}

fn repair_of<P: Sample>(
    rt: &HostRuntime,
    picture: &Picture<P>,
    entries: u64,
    live: &Tenth,
) -> io::Result<Option<Repair<P>>>
    ensures { IfOk result (λ made. IfSome made (λ repair. repair ≡ repaired (but_tenth live.now.till) picture.now)) }
{
    let start = Instant::now(rt)?;
    let made = repair_here(rt.alloc(), picture, live)?;
    tell_each(rt, "repair", entries, start)?;
    Ok(made)
}

fn print_spliced<P: Sample>(
    rt: &HostRuntime,
    list: &mut List<P>,
    repair: Repair<P>,
    live: &Tenth,
) -> io::Result<()>
    requires { IsRepairOf (but_tenth live.now.till) list.old repair }
{
    let mut repair = repair;
    let start = Instant::now(rt)?;
    splice_list(list, &mut repair, SPLICED);
    tell(rt, "splice", start)
}
