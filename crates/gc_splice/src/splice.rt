//! The repair of a picture is laid over the list as it is now, which may have grown since.
ghost use Rattle.std.specs.Prelude.{◌≡◌, ◌≤◌, not, length, ℕ, Bool};
ghost use Rattle.gc_splice.specs.Splice.{Fits, SplicesList, picture_of, splice_of, tail_stands};

use crate::mend::mend;
use crate::repair::Repair;
use ft_base::ListOf;
use inverted_list::{List, Marker, Picture};
use posting_block::Payload;
use std::mem::swap;

/// What became of a repair.
#[derive(Clone, Copy)]
pub enum Spliced {
    /// It was laid over the list: so many entries went, and whether the list's tail was left as it is.
    Done { removed: u64, tail_kept: bool },
    /// The list is not in the form that was pictured any more: the form's marker, and the list's.
    Moved { seen: Marker, now: Marker },
    /// There is no such list any more.
    Gone,
    /// There is no number left for the event that the splice would be.
    LastEvent,
}

// Whether the tail is left as it is: it isn't the one that was repaired.
fn is_tail_kept<P: Payload>(parts: &Picture<P>, repair: &Repair<P>) -> bool
    ensures { result ≡ not (tail_stands parts.now repair.now) }
{
    !(parts.sealed.len() == repair.sealed.len() && parts.tail.len() == repair.tail_len)
}

// The parts with the repair in place of what it repairs.
fn splice_parts<P: Payload>(parts: Picture<P>, repair: &mut Repair<P>, marker: Marker) -> Picture<P>
    requires { length repair.old.sealed ≤ length parts.sealed }
    ensures { result ≡ splice_of parts repair.old marker }
{
    let stays = is_tail_kept::<P>(&parts, repair);
    let Picture {
        marker: _,
        sealed,
        mut tail,
    } = parts;
    if !stays {
        swap(&mut tail, &mut repair.tail);
    }
    let sealed = mend::<P>(sealed.into_vec(), &mut repair.sealed);
    Picture {
        marker,
        sealed: ListOf::from_vec(sealed),
        tail,
    }
}

/// Lays a repair over the list as it is now, and gives the list the marker. What the list held in its place is then in the
/// repair, for the caller to drop when it suits.
pub fn splice_list<P: Payload>(
    list: &mut List<P>,
    repair: &mut Repair<P>,
    marker: Marker,
) -> Spliced
    requires { repair.old.seen ≡ list.old.marker
        → (live : ℕ → Bool) × Fits live repair.old (picture_of list.old) }
    ensures { SplicesList repair.old marker list.old list.new result }
{
    let now = list.marker();
    if repair.seen != now {
        return Spliced::Moved {
            seen: repair.seen,
            now,
        };
    }
    let before = list.len();
    let parts = list.take_parts();
    let tail_kept = is_tail_kept::<P>(&parts, repair);
    list.put_parts(splice_parts::<P>(parts, repair, marker));
    Spliced::Done {
        removed: before - list.len(),
        tail_kept,
    }
}
