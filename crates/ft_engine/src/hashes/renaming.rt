//! RENAME.
ghost use Rattle.std.specs.Prelude.{◌≡◌, ◌<◌, ◌≤◌, length, IfOk, is_some, true};
ghost use Rattle.cmd_parse.specs.Read.{Plain};
ghost use Rattle.cmd_parse.specs.declared.command.Verb.TheVariants.{Rename};
ghost use Rattle.ft_base.specs.Space.{doc_of};
ghost use Rattle.ft_machine.specs.Step.{last_number};
ghost use Rattle.ft_engine.specs.Hashes.{hash_held};
ghost use Rattle.indexed_store.specs.Preparing.{Prepares, Stays, WaitsFor};

use ft_base::{NoMemory, Words};
use hash_store::ReadyPut;
use indexed_store::{Change, IndexedStore};
use reply_buffer::ReplyBuffer;

/// Prepares RENAME, and writes the reply.
pub fn rename<'a>(held: &mut IndexedStore, args: &Words<'a>, reply: &mut ReplyBuffer) -> Change<'a>
    requires number { held.old.next < last_number }
    requires two { length args.now ≡ 2 }
    ensures prepares { Prepares (Plain Rename args.now) held.old held.new reply.new.bytes result }
    ensures room { reply.old.room ≤ reply.new.room }
{
    let (from, to) = (args.word(0), args.word(1));
    if !held.has(from) {
        reply.set_fault(b"ERR no such key");
        return Change::Nothing;
    }
    if from == to {
        reply.set_short(b"+OK\r\n");
        return Change::Nothing;
    }
    match copy_under(held, from, to) {
        Ok(put) => {
            reply.set_short(b"+OK\r\n");
            Change::Move(put, from)
        }
        Err(_) => {
            reply.set_no_memory();
            Change::Nothing
        }
    }
}

/// Lets a copy of a key's hash wait under another key.
fn copy_under(held: &mut IndexedStore, from: &[u8], to: &[u8]) -> Result<ReadyPut, NoMemory>
    requires number { held.old.next < last_number }
    requires there { is_some (doc_of held.old.space from.now) ≡ true }
    ensures waits { IfOk result (λ put. WaitsFor to.now (hash_held held.old from.now) put held.old held.new) }
    ensures stays { Stays held.old held.new }
{
    let hash = held.copy_of(from)?;
    held.prepare_hash(to, hash)
}
