//! A collector's round over the lists of an index, part after part.
//!
//! A walk lends the lists, so a part only notes the names of the lists that are to be swept. They are swept when the next
//! part is taken.
ghost use Rattle.std.specs.Prelude.{◌≡◌, ◌≤◌, IfOk};
ghost use Rattle.ft_index.specs.Coming.{ListsCome};
ghost use Rattle.ft_index.specs.Lists.{has_id};
ghost use Rattle.ft_index.specs.Markers.{AreBefore, GainsMarkers, MarkersDiffer};
ghost use Rattle.ft_index.specs.Parting.{ArePictures, PicturesPart};
ghost use Rattle.ft_index.specs.Thinned.{ListsThin};

use crate::lists::IndexLists;
use crate::live::LiveTable;
use crate::parting::Part;
use crate::snapshots::NamedPicture;
use doc_table::DocTable;
use ft_base::{ListOf, NoMemory};
use id_iters::ListName;
use inverted_list::Markers;
use std::alloc::Global;

/// At this number nothing is swept: the markers of the lists would be of it, and no later event has a number.
const LAST_EVENT: u64 = 4_611_686_018_427_387_904;

/// Where a round stands. No contract sees it.
pub struct Round {
    // The name behind which the last part ended, while a round is under way.
    hand: Option<ListName>,
    // The names of lists that are to be swept.
    dead: ListOf<ListName>,
    // How many ids died since a round began, those of documents that were prepared and never committed among them.
    died: u64,
}

// Written out, it is one step for whoever drops a round.
impl Drop for Round {
    fn drop(self) {
        let Round {
            hand,
            dead,
            died: _,
        } = self;
        drop(hand);
        drop(dead);
    }
}

impl Round {
    /// No round is under way, and no id died.
    pub fn new(alloc: Global) -> Round {
        Round {
            hand: None,
            dead: ListOf::new(alloc),
            died: 0,
        }
    }

    /// Counts an id, where it died.
    pub fn count(&mut self, died: bool) {
        if died {
            self.died = self.died.saturating_add(1);
        }
    }

    /// Takes back the count of an id, which lives.
    pub fn uncount(&mut self) {
        self.died = self.died.saturating_sub(1);
    }

    /// Whether no part is due: no round is under way, and fewer than an eighth of the live documents died, or none.
    fn is_idle(&self, docs: u64) -> bool {
        self.hand.is_none() && (self.died == 0 || self.died.saturating_mul(8) < docs)
    }

    /// Goes on behind a part, and hands its pictures out.
    fn go_on(&mut self, part: Part) -> ListOf<NamedPicture>
        ensures { result ≡ part.pictures }
    {
        if self.hand.is_none() {
            self.died = 0;
        }
        let (pictures, dead, end) = part.into_parts();
        self.dead = dead;
        self.hand = end;
        pictures
    }

    /// Ends the round, where all lists were collected.
    pub fn end(&mut self, collected: &Result<(), NoMemory>) {
        if collected.is_ok() {
            self.hand = None;
            self.died = 0;
        }
    }
}

/// Sweeps the lists that the last part noted, and takes the next part, where one is due.
pub fn next_pictures(
    alloc: Global,
    table: &DocTable,
    lists: &mut IndexLists,
    round: &mut Round,
    number: u64,
    markers: &mut Markers,
) -> Result<ListOf<NamedPicture>, NoMemory>
    requires differ { MarkersDiffer lists.old }
    requires before { AreBefore markers.old lists.old }
    ensures pictures { IfOk result (ArePictures lists.new) }
    ensures part { IfOk result (PicturesPart lists.new) }
    ensures still { 4_611_686_018_427_387_904 ≤ number → (lists.new ≡ lists.old) × (markers.new ≡ markers.old) }
    ensures thin { ListsThin (has_id table.now.live) lists.old lists.new }
    // Which markers its lists have.
    ensures differ { MarkersDiffer lists.new }
    ensures before { AreBefore markers.new lists.new }
    ensures gains { GainsMarkers lists.old lists.new markers.old markers.new }
    // A list that lost entries is made anew, and each other one stays.
    ensures comes { ListsCome markers.old.event lists.old lists.new }
    ensures event { markers.new.event ≡ markers.old.event }
    ensures next { markers.old.next ≤ markers.new.next }
{
    if LAST_EVENT <= number {
        return Ok(ListOf::new(alloc));
    }
    lists.sweep(round.dead.as_slice(), &LiveTable { table }, markers)?;
    round.dead = ListOf::new(alloc);
    take_part(alloc, table, lists, round)
}

// The pictures of the next part, where one is due.
fn take_part(
    alloc: Global,
    table: &DocTable,
    lists: &IndexLists,
    round: &mut Round,
) -> Result<ListOf<NamedPicture>, NoMemory>
    ensures pictures { IfOk result (ArePictures lists.now) }
    ensures part { IfOk result (PicturesPart lists.now) }
{
    if round.is_idle(table.len() as u64) {
        return Ok(ListOf::new(alloc));
    }
    let part = lists.part(round.hand.as_ref(), &LiveTable { table })?;
    Ok(round.go_on(part))
}
