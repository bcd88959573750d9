//! The streams and the clock of the system, behind the traits of the outside.
//! They tell no bytes and no moments, so what they do beyond their traits is shown by the stored run of `rsearch`.
ghost use Rattle.std.specs.Prelude.{◌≡◌, None};
ghost use Rattle.system_ports.specs.Faults.{Faults};

use fs_ports::{Clock, Failed, Link};
use std::io::{Read, Write};
use std::marker::Model;
use std::time::SystemTime;

/// A link over a reader and a writer of the system.
#[derive(Drop)]
pub struct StdLink<R: Read + Drop, W: Write + Drop> {
    reader: R,
    writer: W,
    read_faults: u64,
    write_faults: u64,
}

impl<R: Read + Drop, W: Write + Drop> Model for StdLink<R, W> {
    ghost Value = { Faults };

    ghost view = { λ link. record { reads = link.read_faults; writes = link.write_faults; stalls = 0 } };
}

impl<R: Read + Drop, W: Write + Drop> StdLink<R, W> {
    /// A link that has not failed yet.
    pub fn new(reader: R, writer: W) -> StdLink<R, W>
        ensures { result ≡ record { reads = 0; writes = 0; stalls = 0 } }
    {
        StdLink {
            reader,
            writer,
            read_faults: 0,
            write_faults: 0,
        }
    }
}

impl<R: Read + Drop, W: Write + Drop> Link for StdLink<R, W> {
    ghost left = { λ _. None };

    ghost written = { λ _. None };

    ghost read_faults = { λ link. link.reads };

    ghost write_faults = { λ link. link.writes };

    fn read(&mut self, buf: &mut [u8]) -> Result<usize, Failed> {
        match self.reader.read(buf) {
            Ok(count) => Ok(count),
            Err(_) => {
                self.read_faults = self.read_faults.saturating_add(1);
                Err(Failed)
            }
        }
    }

    fn write(&mut self, piece: &[u8]) -> Result<usize, Failed> {
        match self.writer.write(piece) {
            Ok(count) if count > 0 || piece.is_empty() => Ok(count),
            _ => {
                self.write_faults = self.write_faults.saturating_add(1);
                Err(Failed)
            }
        }
    }
}

/// The system's clock in milliseconds since 1970, and 0 where it tells nothing.
#[derive(Drop)]
pub struct SystemClock<R: std::rt::Clock + Drop> {
    pub rt: R,
}

impl<R: std::rt::Clock + Drop> Clock for SystemClock<R> {
    ghost given = { λ _. None };

    fn now(&mut self) -> u64 {
        let Ok(moment) = SystemTime::now(&self.rt) else {
            return 0;
        };
        match moment.duration_since(SystemTime::UNIX_EPOCH) {
            Ok(since) => u64::try_from(since.as_millis()).unwrap_or(u64::MAX),
            Err(_) => 0,
        }
    }
}
