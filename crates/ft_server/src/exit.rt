//! How the program ends, and the status that says so.
ghost use Rattle.std.specs.Prelude.{◌≡◌};
ghost use Rattle.ft_server.specs.Ends.{exit_of};
ghost use Rattle.ft_server.specs.Status.{status_of};

use crate::connection::End;

/// How a run of the program ended.
#[derive(Clone, Copy, PartialEq, Eq)]
pub enum Exit {
    /// The input ended behind a whole request or at QUIT, and every reply was written. All workers ended at the end of
    /// their doors.
    Done,
    /// The input ended within a request; the replies before it were written.
    CutShort,
    /// The input has a fault of the wire; its text was written behind the replies before it.
    Protocol,
    /// The words of the command line are no form, or one that another call does.
    Usage,
    /// A read failed; the replies to what was read before were written.
    ReadFault,
    /// A write failed.
    WriteFault,
    /// 2^40 bytes were read without an end; the replies to them were written.
    ByteLimit,
    /// Out of memory.
    NoMemory,
    /// A door failed.
    DoorFault,
    /// No thread could be started.
    NoThread,
}

impl Exit {
    /// How the program ends where its connection ended so.
    pub fn at(end: End) -> Exit
        ensures { result ≡ exit_of end }
    {
        match end {
            End::Closed | End::Quit => Exit::Done,
            End::CutShort { .. } => Exit::CutShort,
            End::Protocol { .. } => Exit::Protocol,
            End::ReadFault => Exit::ReadFault,
            End::WriteFault => Exit::WriteFault,
            End::ByteLimit => Exit::ByteLimit,
            End::NoMemory => Exit::NoMemory,
        }
    }

    /// The status of the process.
    pub fn status(&self) -> u8
        ensures { result ≡ status_of self.now }
    {
        match self {
            Exit::Done => 0,
            Exit::CutShort | Exit::Protocol => 1,
            Exit::Usage => 2,
            Exit::ReadFault => 3,
            Exit::WriteFault => 4,
            Exit::ByteLimit => 5,
            Exit::NoMemory => 6,
            Exit::DoorFault => 7,
            Exit::NoThread => 8,
        }
    }
}
