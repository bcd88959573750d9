//! Reading: what a link gives goes to the decoder, never more of it than the decoder has room for.
ghost use Rattle.std.specs.Prelude.{◌≡◌, ◌<◌, ◌≤◌, ◌+◌, ◌^◌, length, IfOk, IfErr};
ghost use Rattle.std.specs.Io.KnownBytes.{Keeps};
ghost use Rattle.resp_wire.specs.Decoding.{fed};
ghost use Rattle.resp_wire.specs.Stream.{ended, stream_of};
ghost use Rattle.resp_wire.specs.declared.fault.Stop.TheVariants.{More};
ghost use Rattle.ft_server.specs.Reading.{AtEnd, Further, NoMore};

use crate::connection::End;
use fs_ports::Link;
use resp_wire::Decoder;

/// The most bytes that are read of one connection.
const MAX_BYTES: usize = 1 << 40;

/// Reads more of the link into the decoder, and answers how much; or how the connection ends. `total`
/// bytes were read before.
pub fn read_more<L: Link>(
    link: &mut L,
    decoder: &mut Decoder,
    buf: &mut [u8],
    total: usize,
) -> Result<usize, End>
    requires room { 0 < length buf.old }
    requires few { total ≤ 2 ^ 40 }
    requires fed { fed decoder.old ≡ total }
    // No command is whole, so all that came before was answered.
    requires taken { stream_of decoder.old.left ≡ ended More decoder.old.left }
    requires turn { total < 2 ^ 40 → L.readable link.old }
    ensures further { Further decoder.old decoder.new (L.left link.old) (L.left link.new) }
    ensures count { IfOk result (λ n. (0 < n) × (total + n ≤ 2 ^ 40)
        × (length decoder.new.left ≡ length decoder.old.left + n)) }
    ensures same { IfErr result (λ _. decoder.new.left ≡ decoder.old.left) }
    ensures end { IfErr result (λ end. NoMore end total decoder.new.left (L.left link.new)
        (L.read_faults link.old) (L.read_faults link.new)) }
    ensures written { Keeps (L.written link.old) (L.written link.new) }
    ensures later { L.read_faults link.old ≤ L.read_faults link.new }
    ensures other { L.write_faults link.new ≡ L.write_faults link.old }
{
    if total >= MAX_BYTES {
        return Err(End::ByteLimit);
    }
    let Ok(()) = decoder.reserve() else {
        return Err(End::NoMemory);
    };
    let room = decoder.spare().min(buf.len()).min(MAX_BYTES - total);
    let Ok(count) = link.read(&mut buf[..room]) else {
        return Err(End::ReadFault);
    };
    if count == 0 {
        return Err(at_end(decoder));
    }
    let Ok(()) = decoder.feed(&buf[..count]) else {
        return Err(End::NoMemory);
    };
    Ok(count)
}

/// How a connection ends whose link is at its end.
fn at_end(decoder: &Decoder) -> End
    ensures { AtEnd result (length decoder.now.left) }
{
    match decoder.rest().len() {
        0 => End::Closed,
        left => End::CutShort { left: left as u64 },
    }
}
