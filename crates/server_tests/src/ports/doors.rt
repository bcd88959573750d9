//! The door in memory: which link comes at which call, and which links are handed back.
ghost use Rattle.std.specs.Prelude.{◌≡◌, false};

use super::*;

// Writes what one read of the link gives back to it, and says how much that is.
fn echo(link: &mut MemLink) -> usize {
    let mut buf = [0; 3];
    let count = link.read(&mut buf).unwrap_or(0).min(3);
    let _ = write_all(link, &buf[..count]);
    count
}

// How many bytes the next link has, which is handed back with them.
fn visited(door: &mut MemDoor<MemLink>) -> Result<Option<usize>, Failed>
    requires { door.old.at.out ≡ false }
    ensures { door.new.at.out ≡ false }
{
    let Some(mut link) = door.accept()? else {
        return Ok(None);
    };
    let count = echo(&mut link);
    door.hand_back(link);
    Ok(Some(count))
}

// Whether these bytes were written to the link that was handed back at this place, counted from 0.
fn has_back(door: &MemDoor<MemLink>, place: usize, text: &str) -> bool {
    match door.back().get(place) {
        Some(link) => link.output() == text.as_bytes(),
        None => false,
    }
}

// Whether the links come in order, and behind them none, with the listed call failing between, and go back in order.
fn come_and_go(door: &mut MemDoor<MemLink>) -> bool
    requires { door.old.at.out ≡ false }
{
    let came = visited(door) == Ok(Some(1))
        && visited(door) == Err(Failed)
        && visited(door) == Ok(Some(2))
        && visited(door) == Ok(None)
        && visited(door) == Ok(None);
    came && has_back(door, 0, "a") && has_back(door, 1, "bc") && door.back().len() == 2
}

#[test]
fn links_come_and_go_back_in_order(rt: HostRuntime) {
    let ordered = match door_of(rt.alloc(), &[b"a", b"bc"], &[2]) {
        Some(mut door) => come_and_go(&mut door),
        None => false,
    };
    assert!(rt; ordered);
}
