//! A door whose links hold back what is written.
ghost use Rattle.std.specs.Prelude.{◌≡◌, [], false, true, IfOk};
ghost use Rattle.fs_ports.specs.Causes.{HasCause};
ghost use Rattle.fs_ports.specs.Doors.{Accepts, handed_back};
ghost use Rattle.fs_ports.specs.HeldDoors.{AcceptsBelow, GoesBack, without_links};

use crate::backlog::HELD_ROOM;
use crate::door::Door;
use crate::held_link::HeldLink;
use crate::link::Failed;
use ft_base::NoMemory;
use std::alloc::Global;
use std::marker::Model;
use std::mem::replace;

/// A door over another one. Its links are those of the door below, each of which holds back what is written.
#[derive(Drop)]
pub struct HeldDoor<D: Door + Drop> {
    door: D,
    // The room of the link that comes next. A link that is out has it.
    room: Vec<u8>,
}

impl<D: Door + Drop> Model for HeldDoor<D> {
    ghost use Rattle.std.specs.Prelude.{◌≡◌, ◌≤◌, [], false, vec_capacity};
    ghost use Rattle.fs_ports.specs.declared.backlog.TheConstants.{HELD_ROOM};

    // In a clause it is the door below.
    ghost Value = { D };

    ghost view = { λ d. d.door };

    ghost invariant = { λ d. (d.room.items ≡ []) × ((D.at d.door).out ≡ false → HELD_ROOM ≤ vec_capacity d.room) };
}

impl<D: Door + Drop> HeldDoor<D> {
    /// A door over this one, of which no link is out. It takes the room for what its links hold.
    pub fn new(alloc: Global, door: D) -> Result<HeldDoor<D>, NoMemory>
        ensures { IfOk result (λ made. made ≡ door) }
    {
        let room = Vec::with_capacity(alloc, HELD_ROOM)?;
        Ok(HeldDoor { door, room })
    }

    /// The door below.
    pub fn into_inner(self) -> D
        ensures { result ≡ self }
    {
        let HeldDoor { door, room: _ } = self;
        door
    }
}

impl<D: Door + Drop> Door for HeldDoor<D>
where
    D::Link: Drop,
{
    type Link = HeldLink<D::Link>;

    // It tells no links.
    ghost at = { λ d. without_links (D.at d) };

    fn accept(&mut self) -> Result<Option<HeldLink<D::Link>>, Failed>
        requires idle { (D.at self.old).out ≡ false }
        ensures gives { Accepts (without_links (D.at self.old)) (without_links (D.at self.new)) result }
        ensures cause { HasCause (D.at self.old).faults (D.at self.new).faults result }

        // Which link it is.
        ensures below { AcceptsBelow (D.at self.old) (D.at self.new) result }
    {
        match self.door.accept()? {
            Some(link) => Ok(Some(HeldLink::with_room(link, take_room(&mut self.room)))),
            None => Ok(None),
        }
    }

    fn hand_back(&mut self, link: HeldLink<D::Link>)
        requires out { (D.at self.old).out ≡ true }
        ensures back { without_links (D.at self.new) ≡ handed_back (without_links (D.at self.old)) link }

        // What the link held is handed on before.
        ensures below { GoesBack D.Link.Link (D.at self.old) (D.at self.new) link }
    {
        let (below, room) = link.take_apart();
        self.room = room;
        self.door.hand_back(below);
    }
}

// The room, for which none is left here.
fn take_room(room: &mut Vec<u8>) -> Vec<u8>
    ensures all { result ≡ room.old }
    ensures none { room.new.items ≡ [] }
{
    let none = Vec::new(*room.allocator());
    replace(room, none)
}
