//! The engine as a machine that a run gives events to.
ghost use Rattle.std.specs.Prelude.{◌≡◌, true, IfOk};
ghost use Rattle.ft_engine.specs.Pictures.{IsCleanShown, RepairsPicture, RepairsShown, all_in, named_at, shown_in};
ghost use Rattle.std.specs.Option.{option_copied};
ghost use Rattle.doc_table.specs.Pages.{has_id};
ghost use Rattle.history_core.specs.Running.{Repairs};

use crate::engine::Engine;
use ft_base::{ListOf, NoMemory, Words};
use ft_index::{AnyPicture, AnyRepair, NamedPicture, Snapshot};
use gc_splice::{Spliced, repair_here};
use history_core::Machine;
use id_iters::ListName;
use posting_block::{NumHit, TagHit, TextHit};
use std::alloc::Global;
use std::marker::Model;
use std::sync::Arc;

/// A list of a snapshot, by its place there. The pictures of one snapshot share it.
#[derive(Drop)]
pub struct ListPicture {
    snapshot: Arc<Snapshot, Global>,
    at: usize,
}

impl Model for ListPicture {
    ghost use Rattle.std.specs.Arc.{arc_value};
    ghost use Rattle.ft_engine.specs.Pictures.{Shown, shown_code};

    ghost Value = { Shown };

    ghost coded = { shown_code };

    ghost view = { λ p. record { snapshot = arc_value p.snapshot; place = p.at } };
}

impl Machine for Engine {
    type Snapshot = Snapshot;

    type Name = ListName;

    type Picture = ListPicture;

    type Repair = AnyRepair;

    type Answer = Spliced;

    ghost use Rattle.std.specs.Prelude.{◌≡◌, false};
    ghost use Rattle.ft_engine.specs.Pictures.{IsCleanShown, IsGoodShown, RepairsShown, ScansBy, SplicesBy, name_at, shown_in};
    ghost use Rattle.ft_engine.specs.Stepping.{Steps};

    ghost step = { Steps };

    ghost scans = { ScansBy };

    ghost splices = { λ old shown outcome new. SplicesBy old shown outcome new };

    ghost ready = { λ engine. engine.pending ≡ false };

    ghost pictures = { shown_in };

    ghost name = { name_at };

    ghost clean = { IsCleanShown };

    ghost repairs = { RepairsShown };

    ghost good = { IsGoodShown };

    fn exec(&mut self, now: u64, words: Words<'_>, out: &mut Vec<u8>) {
        Engine::exec(self, now, words, out);
    }

    fn scan(&mut self, index: &[u8]) -> Result<Option<ListOf<ListPicture>>, NoMemory> {
        let alloc = self.alloc();
        match Engine::scan(self, index)? {
            Some(snapshot) => Ok(Some(lists_of(alloc, snapshot)?)),
            None => Ok(None),
        }
    }

    fn repair(&self, picture: &ListPicture) -> Result<Option<AnyRepair>, NoMemory> {
        repair_shown(self.alloc(), picture)
    }

    fn splice(&mut self, picture: &ListPicture, mut repair: AnyRepair) -> Spliced {
        let serial = serial_of(picture);
        match named_list(picture) {
            Some(named) => Engine::splice(self, serial, &named.name, &mut repair),
            None => Spliced::Gone,
        }
    }
}

// The serial of the index that was pictured.
fn serial_of(picture: &ListPicture) -> u64
    ensures { result ≡ picture.now.snapshot.serial }
{
    picture.snapshot.serial
}

// The list's picture, with its name.
fn named_list(picture: &ListPicture) -> Option<&NamedPicture>
    ensures { option_copied result ≡ named_at picture.now }
{
    picture.snapshot.lists.as_slice().get(picture.at)
}

// A picture of each list of a snapshot.
fn lists_of(alloc: Global, snapshot: Snapshot) -> Result<ListOf<ListPicture>, NoMemory>
    ensures { IfOk result (λ lists. lists ≡ shown_in snapshot) }
{
    let count = snapshot.lists.len();
    let shared = Arc::new(alloc, snapshot)?;
    let mut lists = Vec::with_capacity(alloc, count)?;
    for at in 0..count {
        lists.push_reserved(ListPicture {
            snapshot: Arc::try_clone(&shared)?,
            at,
        });
    }
    Ok(ListOf::from_vec(lists))
}

// What a repair makes of a pictured list, and None where the list has no dead entry.
fn repair_shown(alloc: Global, picture: &ListPicture) -> Result<Option<AnyRepair>, NoMemory>
    ensures { Repairs IsCleanShown RepairsShown picture.now result }
{
    match picture.snapshot.lists.as_slice().get(picture.at) {
        Some(named) => repair_picture(alloc, &named.picture, &picture.snapshot),
        None => Ok(None),
    }
}

// The same of a picture of a snapshot.
fn repair_picture(
    alloc: Global,
    picture: &AnyPicture,
    snapshot: &Snapshot,
) -> Result<Option<AnyRepair>, NoMemory>
    ensures { Repairs (λ p. all_in (has_id snapshot.now.live) p ≡ true) (RepairsPicture (has_id snapshot.now.live)) picture.now result }
{
    match picture {
        AnyPicture::Word(list) => match repair_here::<TextHit, Snapshot>(alloc, list, snapshot)? {
            Some(repair) => Ok(Some(AnyRepair::Word(repair))),
            None => Ok(None),
        },
        AnyPicture::Tag(list) => match repair_here::<TagHit, Snapshot>(alloc, list, snapshot)? {
            Some(repair) => Ok(Some(AnyRepair::Tag(repair))),
            None => Ok(None),
        },
        AnyPicture::Range(list) => match repair_here::<NumHit, Snapshot>(alloc, list, snapshot)? {
            Some(repair) => Ok(Some(AnyRepair::Range(repair))),
            None => Ok(None),
        },
    }
}
