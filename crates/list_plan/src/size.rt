//! Planned parts, and how many ids each has at most.
ghost use Rattle.std.specs.Prelude.{◌≡◌, [], true, false, OnOk};
ghost use Rattle.id_iters.specs.Fitting.{leaves_of};
ghost use Rattle.list_plan.specs.Plans.{AlwaysReady, Gains, HasAllIf};

use ft_base::NoMemory;
use id_iters::{Iter, ListName, Lists};

/// A set of ids, and how many of them its lists can have. Where that is not known it is as large as can be.
#[derive(Drop)]
pub struct Planned {
    pub iter: Iter,
    pub size: u64,
}

impl Planned {
    /// No id.
    pub fn none() -> Planned
        ensures set { HasAllIf false result }
        ensures ready { AlwaysReady result }
        ensures leaves { leaves_of result.iter ≡ [] }
    {
        Planned {
            iter: Iter::of_none(),
            size: 0,
        }
    }

    /// All ids.
    pub fn all() -> Planned
        ensures set { HasAllIf true result }
        ensures ready { AlwaysReady result }
        ensures leaves { leaves_of result.iter ≡ [] }
    {
        Planned {
            iter: Iter::of_all(),
            size: u64::MAX,
        }
    }
}

/// Puts a part behind the others, where it could be made.
pub fn add_planned(
    plans: &mut Vec<Planned>,
    made: Result<Planned, NoMemory>,
) -> Result<(), NoMemory>
    ensures { OnOk result (Gains made plans.old.items plans.new.items) }
{
    let planned = made?;
    plans.push(planned)?;
    Ok(())
}

/// The number of entries of a list, and 0 where there is none.
pub fn list_size<T: Lists>(lists: &T, name: &ListName) -> u64 {
    match name {
        ListName::Word { text } => word_size(lists, text.as_slice()),
        ListName::Tag { field, text } => match lists.tag(*field, text.as_slice()) {
            Some(list) => list.len(),
            None => 0,
        },
        ListName::Range { field, low } => match lists.range(*field, *low) {
            Some(list) => list.len(),
            None => 0,
        },
    }
}

/// The number of entries of a word's list.
pub fn word_size<T: Lists>(lists: &T, word: &[u8]) -> u64 {
    match lists.text(word) {
        Some(list) => list.len(),
        None => 0,
    }
}
