//! A message that is written back as it came.
ghost use Rattle.std.specs.Prelude.{◌≡◌, ◌≤◌, ◌++◌, vec_capacity, OnOk, OnErr};
ghost use Rattle.ft_base.specs.Reply.{spelling};
ghost use Rattle.ft_base.specs.declared.reply.Reply.TheVariants.{Bulk};
ghost use Rattle.reply_buffer.specs.Written.{IsCleared, IsEchoed};

use crate::short_reply::put_no_memory;
use ft_base::{Bytes, NoMemory, Reply, put_reply};
use std::alloc::Global;

/// Writes a message, or that memory ran out.
pub fn put_message(alloc: Global, message: &[u8], out: &mut Vec<u8>)
    requires { IsCleared out.old }
    ensures reply { IsEchoed message.now out.new.items }
    ensures room { vec_capacity out.old ≤ vec_capacity out.new }
{
    match put_bulk(alloc, message, out) {
        Ok(()) => {}
        Err(_) => put_no_memory(out),
    }
}

fn put_bulk(alloc: Global, message: &[u8], out: &mut Vec<u8>) -> Result<(), NoMemory>
    ensures ok { OnOk result (out.new.items ≡ out.old.items ++ spelling (Bulk message.now)) }
    ensures err { OnErr result (out.new.items ≡ out.old.items) }
    ensures room { vec_capacity out.old ≤ vec_capacity out.new }
{
    put_reply(out, &Reply::Bulk(Bytes::from_slice(alloc, message)?))
}
