//! Connections on 127.0.0.1, behind the traits of the outside. They tell no bytes and no links.
//!
//! A peer that vanishes shows as a read or a write that fails, and nowhere else. The standard
//! library writes to sockets so that a peer that is gone raises no signal.
//!
//! A write that is only tried waits for a moment. Where that is not enough the peer is slow to read, and from then on tried
//! writes do not wait at all, until the connection is read or written as usual again.
ghost use Rattle.std.specs.Prelude.{◌≡◌, None, false, IfOk};
ghost use Rattle.std.specs.Io.{ReadsAtMost, WritesAtMost};
ghost use Rattle.fs_ports.specs.Doors.{AtDoor};
ghost use Rattle.system_ports.specs.Faults.{Faults};

use fs_ports::{Door, Failed, Link};
use std::io;
use std::io::{ErrorKind, Read, Write};
use std::marker::Model;
use std::net::{Ipv4Addr, Net, Shutdown, TcpListener, TcpStream};
use std::time::Duration;

/// The milliseconds that a tried write waits at the most. The system rounds them up to its own steps.
const WRITE_WAIT: u64 = 1;

/// The milliseconds that a tried read waits at the most.
const READ_WAIT: u64 = 5;

/// A connection.
#[derive(Drop)]
pub struct TcpLink {
    // None where the peer was gone before the connection was accepted.
    stream: Option<TcpStream>,
    // Whether the peer is slow to read, so that no call of the stream waits.
    slow: bool,
    read_faults: u64,
    write_faults: u64,
    stalls: u64,
}

impl Model for TcpLink {
    ghost Value = { Faults };

    ghost view = { λ link. record {
      reads = link.read_faults;
      writes = link.write_faults;
      stalls = link.stalls;
    } };
}

impl TcpLink {
    // A link that has not failed yet.
    fn new(stream: Option<TcpStream>) -> TcpLink
        ensures { result ≡ record { reads = 0; writes = 0; stalls = 0 } }
    {
        TcpLink {
            stream,
            slow: false,
            read_faults: 0,
            write_faults: 0,
            stalls: 0,
        }
    }

    // From here on calls of the stream do not wait, or wait again.
    fn be_slow(&mut self, slow: bool)
        ensures { self.new ≡ self.old }
    {
        if self.slow == slow {
            return;
        }
        if let Some(stream) = &self.stream {
            if stream.set_nonblocking(slow).is_ok() {
                self.slow = slow;
            }
        }
    }
}

impl Link for TcpLink {
    ghost left = { λ _. None };

    ghost written = { λ _. None };

    ghost read_faults = { λ link. link.reads };

    ghost write_faults = { λ link. link.writes };

    ghost stalls = { λ link. link.stalls };

    fn read(&mut self, buf: &mut [u8]) -> Result<usize, Failed> {
        self.be_slow(false);
        if let Some(stream) = &mut self.stream {
            if let Ok(count) = stream.read(buf) {
                return Ok(count);
            }
        }
        self.read_faults = self.read_faults.saturating_add(1);
        Err(Failed)
    }

    fn write(&mut self, piece: &[u8]) -> Result<usize, Failed> {
        self.be_slow(false);
        if let Some(stream) = &mut self.stream {
            match write_waiting(stream, piece) {
                Ok(count) if count > 0 || piece.is_empty() => return Ok(count),
                _ => {}
            }
        }
        self.write_faults = self.write_faults.saturating_add(1);
        Err(Failed)
    }

    fn try_read(&mut self, buf: &mut [u8]) -> Result<Option<usize>, Failed> {
        self.be_slow(true);
        if let Some(stream) = &mut self.stream {
            match read_for_a_while(stream, buf) {
                Ok(count) => return Ok(Some(count)),
                Err(fault) if fault.kind() == ErrorKind::WouldBlock => return Ok(None),
                Err(_) => {}
            }
        }
        self.read_faults = self.read_faults.saturating_add(1);
        Err(Failed)
    }

    fn try_write(&mut self, piece: &[u8]) -> Result<Option<usize>, Failed> {
        if let Some(stream) = &mut self.stream {
            match stream.write(piece) {
                Ok(count) if count > 0 || piece.is_empty() => return Ok(Some(count)),
                Err(fault) if fault.kind() == ErrorKind::WouldBlock => {
                    self.be_slow(true);
                    self.stalls = self.stalls.saturating_add(1);
                    return Ok(None);
                }
                _ => {}
            }
        }
        self.write_faults = self.write_faults.saturating_add(1);
        Err(Failed)
    }
}

// Writes a front of the piece, however long that waits, to a stream whose writes wait for a moment.
fn write_waiting(stream: &mut TcpStream, piece: &[u8]) -> io::Result<usize>
    ensures { WritesAtMost result piece.now }
{
    match stream.write(piece) {
        Err(fault) if fault.kind() == ErrorKind::WouldBlock => {}
        went => return went,
    }
    stream.set_write_timeout(None)?;
    let went = stream.write(piece);
    stream.set_write_timeout(Some(Duration::from_millis(WRITE_WAIT)))?;
    went
}

// Reads what comes within a while, from a stream whose calls do not wait.
fn read_for_a_while(stream: &mut TcpStream, buf: &mut [u8]) -> io::Result<usize>
    ensures { ReadsAtMost result buf.new }
{
    match stream.read(buf) {
        Err(fault) if fault.kind() == ErrorKind::WouldBlock => {}
        came => return came,
    }
    stream.set_nonblocking(false)?;
    stream.set_read_timeout(Some(Duration::from_millis(READ_WAIT)))?;
    let came = stream.read(buf);
    stream.set_read_timeout(None)?;
    stream.set_nonblocking(true)?;
    came
}

// Without the first a reply may come later, and is the same. Without the second each write waits until the peer reads.
fn make_ready(stream: &TcpStream) -> io::Result<()> {
    stream.set_nodelay(true)?;
    stream.set_write_timeout(Some(Duration::from_millis(WRITE_WAIT)))
}

/// A listener that may be shared with further doors. It never ends.
#[derive(Drop)]
pub struct TcpDoor {
    listener: TcpListener,
    out: bool,
    faults: u64,
}

impl Model for TcpDoor {
    ghost Value = { AtDoor Faults };

    ghost view = { λ d. record { faults = d.faults; out = d.out; ended = false; coming = None; back = None } };
}

impl TcpDoor {
    /// Listens at this port of 127.0.0.1, or at any that is free where the port is 0.
    pub fn bind<R: Net<Listener = TcpListener, Stream = TcpStream>>(
        rt: &R,
        port: u16,
    ) -> io::Result<TcpDoor>
        ensures { IfOk result (λ door.
            door ≡ record { faults = 0; out = false; ended = false; coming = None; back = None }) }
    {
        let listener = TcpListener::bind(rt, (Ipv4Addr::LOCALHOST, port))?;
        Ok(TcpDoor {
            listener,
            out: false,
            faults: 0,
        })
    }

    /// Another door of the same port. A connection comes to one of them.
    pub fn another(&self) -> io::Result<TcpDoor>
        ensures { IfOk result (λ door.
            door ≡ record { faults = 0; out = false; ended = false; coming = None; back = None }) }
    {
        Ok(TcpDoor {
            listener: self.listener.try_clone()?,
            out: false,
            faults: 0,
        })
    }

    /// The port that it listens at.
    pub fn port(&self) -> io::Result<u16> {
        Ok(self.listener.local_addr()?.port())
    }
}

impl Door for TcpDoor {
    type Link = TcpLink;

    ghost at = { λ d. d };

    fn accept(&mut self) -> Result<Option<TcpLink>, Failed> {
        match self.listener.accept() {
            Ok((stream, _)) => {
                if make_ready(&stream).is_err() {
                    self.faults = self.faults.saturating_add(1);
                }
                self.out = true;
                Ok(Some(TcpLink::new(Some(stream))))
            }
            Err(fault) if fault.kind() == ErrorKind::ConnectionAborted => {
                self.out = true;
                Ok(Some(TcpLink::new(None)))
            }
            Err(_) => {
                self.faults = self.faults.saturating_add(1);
                Err(Failed)
            }
        }
    }

    fn hand_back(&mut self, link: TcpLink) {
        // Bytes that were not read, as those behind QUIT, make the system reset the connection. The
        // peer hears first that no more will come, so that it reads its replies to their end.
        if let Some(stream) = &link.stream {
            let _ = stream.shutdown(Shutdown::Write);
        }
        drop(link);
        self.out = false;
    }
}
