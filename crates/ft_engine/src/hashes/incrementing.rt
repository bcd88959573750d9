//! HINCRBY.
ghost use Rattle.std.specs.Prelude.{◌≡◌, ◌<◌, ◌≤◌, length, IfOk, OnOk};
ghost use Rattle.cmd_parse.specs.Asking.{AreWords};
ghost use Rattle.cmd_parse.specs.Lawful.{HasNumber};
ghost use Rattle.cmd_parse.specs.Read.{Plain};
ghost use Rattle.cmd_parse.specs.declared.command.Verb.TheVariants.{Hincrby};
ghost use Rattle.ft_machine.specs.Step.{last_number};
ghost use Rattle.ft_engine.specs.Hashes.{SetsNumber, hash_held, with_number};
ghost use Rattle.indexed_store.specs.Preparing.{Prepares, Stays, WaitsFor};

use ft_base::{HashRec, NoMemory, Words, read_int};
use hash_store::ReadyPut;
use indexed_store::{Change, IndexedStore};
use itoa::Buffer;
use reply_buffer::ReplyBuffer;

/// Prepares HINCRBY, and writes the reply.
pub fn hincrby<'a>(held: &mut IndexedStore, args: &Words<'a>, reply: &mut ReplyBuffer) -> Change<'a>
    requires number { held.old.next < last_number }
    requires three { length args.now ≡ 3 }
    requires increment { HasNumber Hincrby args.now }
    requires words { AreWords args.now }
    ensures prepares { Prepares (Plain Hincrby args.now) held.old held.new reply.new.bytes result }
    ensures room { reply.old.room ≤ reply.new.room }
{
    let (key, field) = (args.word(0), args.word(1));
    let Some(by) = read_int(args.word(2)) else {
        unreachable!()
    };
    let Some(old) = held.number_of(key, field) else {
        reply.set_fault(b"ERR hash value is not an integer");
        return Change::Nothing;
    };
    let Some(sum) = old.checked_add(by) else {
        reply.set_fault(b"ERR increment or decrement would overflow");
        return Change::Nothing;
    };
    match set_number(held, key, field, sum) {
        Ok(put) => {
            reply.set_signed(sum);
            Change::Write(put)
        }
        Err(_) => {
            reply.set_no_memory();
            Change::Nothing
        }
    }
}

/// Sets a field of a key's hash to a number.
fn set_number(
    held: &mut IndexedStore,
    key: &[u8],
    field: &[u8],
    number: i64,
) -> Result<ReadyPut, NoMemory>
    requires number { held.old.next < last_number }
    ensures waits { IfOk result (λ put.
        WaitsFor key.now (with_number (hash_held held.old key.now) field.now number) put held.old held.new) }
    ensures stays { Stays held.old held.new }
{
    let mut hash = held.copy_of(key)?;
    set_to(&mut hash, field, number)?;
    held.prepare_hash(key, hash)
}

fn set_to(hash: &mut HashRec, field: &[u8], number: i64) -> Result<(), NoMemory>
    ensures set { OnOk result (SetsNumber field.now number hash.old hash.new) }
{
    let mut buffer = Buffer::new();
    hash.put(field, buffer.format(number).as_bytes())?;
    Ok(())
}
