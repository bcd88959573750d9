//! Replies whose making or writing may run out of memory.
ghost use Rattle.std.specs.Prelude.{◌≡◌, ◌≤◌, false, true, vec_capacity, IsTrue};
ghost use Rattle.ft_base.specs.Memory.{out_of_memory};
ghost use Rattle.ft_base.specs.Reply.{fits_wire, spelling};
ghost use Rattle.ft_machine.specs.Step.{Told};
ghost use Rattle.reply_buffer.specs.Written.{CanBeWritten, IsCleared, IsWritten};

use crate::short_reply::put_no_memory;
use ft_base::{NoMemory, Reply, put_reply};

/// Writes a reply, or that memory ran out.
pub fn put_made(made: Result<Reply, NoMemory>, out: &mut Vec<u8>)
    requires fits { CanBeWritten made }
    requires cleared { IsCleared out.old }
    ensures told { Told made out.new.items }
    ensures room { vec_capacity out.old ≤ vec_capacity out.new }
{
    let _written = put_if_made(made, out);
}

/// The same, and answers whether it was made and written.
pub fn put_if_made(made: Result<Reply, NoMemory>, out: &mut Vec<u8>) -> bool
    requires fits { CanBeWritten made }
    requires cleared { IsCleared out.old }
    ensures written { result ≡ true → IsWritten made out.new.items }
    ensures wanting { result ≡ false → out.new.items ≡ spelling out_of_memory }
    ensures room { vec_capacity out.old ≤ vec_capacity out.new }
{
    match made {
        Ok(reply) => put_tree(&reply, out),
        Err(_) => {
            put_no_memory(out);
            false
        }
    }
}

fn put_tree(reply: &Reply, out: &mut Vec<u8>) -> bool
    requires fits { IsTrue (fits_wire reply.now) }
    requires cleared { IsCleared out.old }
    ensures written { result ≡ true → out.new.items ≡ spelling reply.now }
    ensures wanting { result ≡ false → out.new.items ≡ spelling out_of_memory }
    ensures room { vec_capacity out.old ≤ vec_capacity out.new }
{
    match put_reply(out, reply) {
        Ok(()) => true,
        Err(_) => {
            put_no_memory(out);
            false
        }
    }
}
