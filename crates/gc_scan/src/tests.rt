//! A list of many blocks is repaired side by side, and by one thread.
ghost use Rattle.std.specs.Prelude.{nat_lt};

use crate::repair;
use ft_base::{ListOf, NoMemory};
use gc_splice::{BlockRepair, Live, Repair, repair_here};
use inverted_list::{Marker, Picture, Sealed};
use posting_block::{Block, NumHit};
use std::alloc::Global;
use std::thread::Threads;

/// The ids below a number are live.
#[derive(Clone, Copy)]
pub struct Below(pub u64);

impl Live for Below {
    ghost is = { λ below id. nat_lt id below.0 };

    fn is_live(&self, id: u64) -> bool {
        id < self.0
    }
}

// A block of a hundred ids from one on.
fn block_from(alloc: Global, first: u64) -> Result<Block<NumHit>, NoMemory> {
    let mut block = Block::new(alloc);
    for id in first..first.saturating_add(100) {
        if block.len() < 100 && block.last() < id {
            block.push(id, &NumHit { value: 7 })?;
        }
    }
    Ok(block)
}

// Blocks of the ids from 1, from 101 and from 201 on, in turn.
fn blocks(alloc: Global, count: u64) -> Result<Vec<Sealed<NumHit>>, NoMemory> {
    let mut blocks = Vec::new(alloc);
    for i in 0..count {
        let block = block_from(alloc, i % 3 * 100 + 1)?;
        blocks.push(Sealed::new(alloc, block)?)?;
    }
    Ok(blocks)
}

fn picture(alloc: Global, count: u64) -> Result<Picture<NumHit>, NoMemory> {
    Ok(Picture {
        marker: Marker { event: 1, nth: 0 },
        sealed: ListOf::from_vec(blocks(alloc, count)?),
        tail: Block::new(alloc),
    })
}

// How many entries are left of a block: none is a block that goes, and 1,000 one that stays.
fn left(repair: &BlockRepair<NumHit>) -> usize {
    match repair {
        BlockRepair::Same => 1_000,
        BlockRepair::Gone => 0,
        BlockRepair::Changed(block) => block.len(),
    }
}

// How many blocks have so many entries left.
fn count(repair: &Repair<NumHit>, wanted: usize) -> usize {
    let blocks = repair.sealed.as_slice();
    blocks.iter().filter(|block| left(block) == wanted).count()
}

fn agree(one: &Repair<NumHit>, other: &Repair<NumHit>) -> bool {
    let ones = one.sealed.as_slice();
    let others = other.sealed.as_slice();
    ones.len() == others.len() && ones.iter().zip(others).all(|(a, b)| left(a) == left(b))
}

// The repair of a picture by threads, where the ids below 150 are live.
fn repaired_aside<R: Threads + Sync>(
    rt: &R,
    alloc: Global,
    picture: &Picture<NumHit>,
) -> Option<Repair<NumHit>> {
    repair(rt, alloc, picture, &Below(150)).ok()?
}

// The same by one thread.
fn repaired_here(alloc: Global, picture: &Picture<NumHit>) -> Option<Repair<NumHit>> {
    repair_here(alloc, picture, &Below(150)).ok()?
}

// How many blocks stay, go and are left with 49 entries, where both repairs say so of each.
fn outcome<R: Threads + Sync>(
    rt: &R,
    alloc: Global,
    picture: &Picture<NumHit>,
) -> Option<(usize, usize, usize)> {
    let aside = repaired_aside(rt, alloc, picture)?;
    let here = repaired_here(alloc, picture)?;
    if !agree(&aside, &here) {
        return None;
    }
    Some((count(&aside, 1_000), count(&aside, 0), count(&aside, 49)))
}

// Whether nothing of a picture is dead, where all ids are live.
fn is_clean<R: Threads + Sync>(rt: &R, alloc: Global, picture: &Picture<NumHit>) -> bool {
    matches!(repair(rt, alloc, picture, &Below(301)), Ok(None))
}

#[test]
fn repairs_as_one_thread_does(rt: HostRuntime) {
    let made = picture(rt.alloc(), 1_500).ok();
    let Some(made) = made else {
        return assert!(rt; false);
    };
    assert!(rt; outcome(&rt, rt.alloc(), &made) == Some((500, 500, 500)));
}

#[test]
fn finds_nothing_dead_side_by_side(rt: HostRuntime) {
    let made = picture(rt.alloc(), 1_500).ok();
    let Some(made) = made else {
        return assert!(rt; false);
    };
    assert!(rt; is_clean(&rt, rt.alloc(), &made));
}
