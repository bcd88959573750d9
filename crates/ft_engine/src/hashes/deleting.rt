//! HDEL.
ghost use Rattle.std.specs.Prelude.{◌<◌, ◌≤◌, length, IfOk};
ghost use Rattle.cmd_parse.specs.Read.{Plain};
ghost use Rattle.cmd_parse.specs.declared.command.Verb.TheVariants.{Hdel};
ghost use Rattle.ft_machine.specs.Step.{last_number};
ghost use Rattle.ft_engine.specs.Hashes.{TakesOut};
ghost use Rattle.indexed_store.specs.Preparing.{Prepares, Stays};

use ft_base::{NoMemory, Words};
use indexed_store::{Change, IndexedStore};
use reply_buffer::ReplyBuffer;

/// Prepares HDEL, and writes the reply.
pub fn hdel<'a>(held: &mut IndexedStore, args: &Words<'a>, reply: &mut ReplyBuffer) -> Change<'a>
    requires number { held.old.next < last_number }
    requires some { 2 ≤ length args.now }
    ensures prepares { Prepares (Plain Hdel args.now) held.old held.new reply.new.bytes result }
    ensures room { reply.old.room ≤ reply.new.room }
{
    let fields = args.rest(1);
    match take_fields(held, args.word(0), &fields) {
        Ok((change, gone)) => {
            reply.set_number(gone);
            change
        }
        Err(_) => {
            reply.set_no_memory();
            Change::Nothing
        }
    }
}

/// Takes fields out of a key's hash, and answers the change and how many there were.
fn take_fields<'a>(
    held: &mut IndexedStore,
    key: &'a [u8],
    fields: &Words<'_>,
) -> Result<(Change<'a>, usize), NoMemory>
    requires number { held.old.next < last_number }
    ensures change { IfOk result (TakesOut key.now fields.now held.old held.new) }
    ensures stays { Stays held.old held.new }
{
    let (before, left) = held.left_of(key, fields)?;
    let gone = before - left.len();
    if gone == 0 {
        drop(left);
        return Ok((Change::Nothing, 0));
    }
    if left.len() == 0 {
        drop(left);
        return Ok((Change::EraseKey(key), gone));
    }
    let put = held.prepare_hash(key, left)?;
    Ok((Change::Write(put), gone))
}
