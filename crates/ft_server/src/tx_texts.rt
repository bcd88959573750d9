//! What is written of a transaction: what its session says, and the replies of its block. It takes no memory, since none may
//! be wanted behind a turn: the pieces of a text are written one by one, and not copied together.
ghost use Rattle.std.specs.Prelude.{◌≡◌, map, OnOk, OnErr};
ghost use Rattle.std.specs.Io.KnownBytes.{Appends, Keeps};
ghost use Rattle.ft_base.specs.Reply.{joined};
ghost use Rattle.fs_ports.specs.Causes.{HasCause, WritesFront};
ghost use Rattle.std.specs.Str.{str_to_ascii_lowercase};
ghost use Rattle.ft_server.specs.Items.{block_text};
ghost use Rattle.ft_server.specs.Talk.{out_of_memory, said_text};
ghost use Rattle.tx_session.specs.declared.kinds.TxText.TheVariants.{Arity};

use crate::outs::Outs;
use fs_ports::{Failed, Link, write_all};
use itoa::Buffer;
use tx_session::TxText;

/// Writes what a session says to a command of this name.
pub fn say<L: Link>(link: &mut L, name: &[u8], text: TxText) -> Result<(), Failed>
    ensures sent { OnOk result
        (Appends (L.written link.old) (L.written link.new) (said_text name.now text)) }
    ensures cut { OnErr result
        (WritesFront (L.written link.old) (L.written link.new) (said_text name.now text)) }
    ensures left { Keeps (L.left link.old) (L.left link.new) }
    ensures cause { HasCause (L.write_faults link.old) (L.write_faults link.new) result }
    ensures other { L.read_faults link.new ≡ L.read_faults link.old }
{
    match text {
        TxText::Done => write_all(link, b"+OK\r\n"),
        TxText::Queued => write_all(link, b"+QUEUED\r\n"),
        TxText::Nested => write_all(link, b"-ERR MULTI calls can not be nested\r\n"),
        TxText::NoExec => write_all(link, b"-ERR EXEC without MULTI\r\n"),
        TxText::NoDiscard => write_all(link, b"-ERR DISCARD without MULTI\r\n"),
        TxText::Abort => write_all(
            link,
            b"-EXECABORT Transaction discarded because of previous errors.\r\n",
        ),
        TxText::Nothing => write_all(link, b"*0\r\n"),
        TxText::Unknown => write_all(link, b"-ERR unknown command\r\n"),
        TxText::Arity => say_arity(link, name),
    }
}

/// Writes that memory ran out.
pub fn say_out_of_memory<L: Link>(link: &mut L) -> Result<(), Failed>
    ensures sent { OnOk result (Appends (L.written link.old) (L.written link.new) out_of_memory) }
    ensures cut { OnErr result
        (WritesFront (L.written link.old) (L.written link.new) out_of_memory) }
    ensures left { Keeps (L.left link.old) (L.left link.new) }
    ensures cause { HasCause (L.write_faults link.old) (L.write_faults link.new) result }
    ensures other { L.read_faults link.new ≡ L.read_faults link.old }
{
    write_all(link, b"-OOM out of memory\r\n")
}

/// Writes the reply to a block: the number of its replies, and each of them.
pub fn send_block<L: Link>(link: &mut L, outs: &Outs) -> Result<(), Failed>
    ensures sent { OnOk result
        (Appends (L.written link.old) (L.written link.new) (block_text outs.now)) }
    ensures cut { OnErr result
        (WritesFront (L.written link.old) (L.written link.new) (block_text outs.now)) }
    ensures left { Keeps (L.left link.old) (L.left link.new) }
    ensures cause { HasCause (L.write_faults link.old) (L.write_faults link.new) result }
    ensures other { L.read_faults link.new ≡ L.read_faults link.old }
{
    let mut buffer = Buffer::new();
    let digits = buffer.format(outs.len()).as_bytes();
    write_pieces(link, &[b"*", digits, b"\r\n"])?;
    for at in 0..outs.len() {
        write_all(link, outs.reply(at))?;
    }
    Ok(())
}

/// Writes that the number of words is wrong, with the name in small letters.
fn say_arity<L: Link>(link: &mut L, name: &[u8]) -> Result<(), Failed>
    ensures sent { OnOk result
        (Appends (L.written link.old) (L.written link.new) (said_text name.now Arity)) }
    ensures cut { OnErr result
        (WritesFront (L.written link.old) (L.written link.new) (said_text name.now Arity)) }
    ensures left { Keeps (L.left link.old) (L.left link.new) }
    ensures cause { HasCause (L.write_faults link.old) (L.write_faults link.new) result }
    ensures other { L.read_faults link.new ≡ L.read_faults link.old }
{
    write_all(link, b"-ERR wrong number of arguments for '")?;
    write_lowered(link, name)?;
    write_all(link, b"' command\r\n")
}

/// Writes a word in small letters.
fn write_lowered<L: Link>(link: &mut L, word: &[u8]) -> Result<(), Failed>
    ensures sent { OnOk result
        (Appends (L.written link.old) (L.written link.new) (str_to_ascii_lowercase word.now)) }
    ensures cut { OnErr result
        (WritesFront (L.written link.old) (L.written link.new) (str_to_ascii_lowercase word.now)) }
    ensures left { Keeps (L.left link.old) (L.left link.new) }
    ensures cause { HasCause (L.write_faults link.old) (L.write_faults link.new) result }
    ensures other { L.read_faults link.new ≡ L.read_faults link.old }
{
    for byte in word {
        write_all(link, &[byte.to_ascii_lowercase()])?;
    }
    Ok(())
}

/// Writes pieces, one after another.
fn write_pieces<L: Link>(link: &mut L, pieces: &[&[u8]]) -> Result<(), Failed>
    ensures sent { OnOk result
        (Appends (L.written link.old) (L.written link.new) (joined (map (λ piece. piece.now) pieces.now))) }
    ensures cut { OnErr result
        (WritesFront (L.written link.old) (L.written link.new) (joined (map (λ piece. piece.now) pieces.now))) }
    ensures left { Keeps (L.left link.old) (L.left link.new) }
    ensures cause { HasCause (L.write_faults link.old) (L.write_faults link.new) result }
    ensures other { L.read_faults link.new ≡ L.read_faults link.old }
{
    for piece in pieces {
        write_all(link, piece)?;
    }
    Ok(())
}
