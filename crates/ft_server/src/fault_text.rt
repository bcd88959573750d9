//! What a client is told of a fault of the wire. It takes no memory.
ghost use Rattle.std.specs.Prelude.{◌≡◌, OnOk, OnErr};
ghost use Rattle.std.specs.Io.KnownBytes.{Appends, Keeps};
ghost use Rattle.fs_ports.specs.Causes.{HasCause, WritesFront};
ghost use Rattle.resp_wire.specs.declared.fault.WireFault.TheVariants.{NoDollar};
ghost use Rattle.ft_server.specs.FaultText.{fault_text, shown};

use fs_ports::{Failed, Link, write_all};
use resp_wire::WireFault;

/// Writes the text of a fault.
pub fn write_fault<L: Link>(link: &mut L, kind: WireFault) -> Result<(), Failed>
    ensures sent { OnOk result (Appends (L.written link.old) (L.written link.new) (fault_text kind)) }
    ensures cut { OnErr result
        (WritesFront (L.written link.old) (L.written link.new) (fault_text kind)) }
    ensures left { Keeps (L.left link.old) (L.left link.new) }
    ensures cause { HasCause (L.write_faults link.old) (L.write_faults link.new) result }
    ensures other { L.read_faults link.new ≡ L.read_faults link.old }
{
    match kind {
        WireFault::MultiLength => {
            write_all(link, b"-ERR Protocol error: invalid multibulk length\r\n")
        }
        WireFault::BulkLength => write_all(link, b"-ERR Protocol error: invalid bulk length\r\n"),
        WireFault::NoDollar { got } => write_all(link, no_dollar(got).as_slice()),
    }
}

/// The text of a fault that shows a byte.
fn no_dollar(got: u8) -> [u8; 44]
    ensures { result ≡ fault_text (NoDollar got) }
{
    let mut text = *b"-ERR Protocol error: expected '$', got '?'\r\n";
    text[40] = shown(got);
    text
}

/// The byte, or a question mark where it is no printable one of ASCII.
fn shown(byte: u8) -> u8
    ensures { result ≡ shown byte }
{
    if byte >= 32 && byte <= 126 {
        byte
    } else {
        b'?'
    }
}
