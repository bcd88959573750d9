//! HSET and HSETNX.
ghost use Rattle.std.specs.Prelude.{◌≡◌, ◌<◌, ◌≤◌, length, IfOk};
ghost use Rattle.cmd_parse.specs.Asking.{AreWords};
ghost use Rattle.cmd_parse.specs.Read.{Plain};
ghost use Rattle.cmd_parse.specs.declared.command.Verb.TheVariants.{Hset, Hsetnx};
ghost use Rattle.ft_machine.specs.Step.{last_number};
ghost use Rattle.ft_meaning.specs.Meaning.{ValuesFit};
ghost use Rattle.ft_engine.specs.Hashes.{fresh_fields, hash_with};
ghost use Rattle.indexed_store.specs.Preparing.{OnlyReads, Prepares, Stays, WaitsFor};

use ft_base::{HashRec, NoMemory, Words};
use hash_store::ReadyPut;
use indexed_store::{Change, IndexedStore, set_pairs};
use reply_buffer::ReplyBuffer;

/// Prepares HSET, and writes the reply.
pub fn hset<'a>(held: &mut IndexedStore, args: &Words<'a>, reply: &mut ReplyBuffer) -> Change<'a>
    requires number { held.old.next < last_number }
    requires some { 3 ≤ length args.now }
    requires words { AreWords args.now }
    ensures prepares { Prepares (Plain Hset args.now) held.old held.new reply.new.bytes result }
    ensures room { reply.old.room ≤ reply.new.room }
{
    let pairs = args.rest(1);
    match set_fields(held, args.word(0), &pairs) {
        Ok((put, fresh)) => {
            reply.set_number(fresh);
            Change::Write(put)
        }
        Err(_) => {
            reply.set_no_memory();
            Change::Nothing
        }
    }
}

/// Sets pairs of fields and values of a key's hash, and answers how many of the fields are new.
fn set_fields(
    held: &mut IndexedStore,
    key: &[u8],
    pairs: &Words<'_>,
) -> Result<(ReadyPut, usize), NoMemory>
    requires number { held.old.next < last_number }
    requires some { 2 ≤ length pairs.now }
    requires words { AreWords pairs.now }
    ensures waits { IfOk result (λ made.
        WaitsFor key.now (hash_with held.old key.now pairs.now) made.0 held.old held.new) }
    ensures fresh { IfOk result (λ made. made.1 ≡ fresh_fields held.old key.now pairs.now) }
    ensures stays { Stays held.old held.new }
{
    let (hash, fresh) = copy_with(held, key, pairs)?;
    let put = held.prepare_hash(key, hash)?;
    Ok((put, fresh))
}

/// A copy of a key's hash with pairs set from the left, and how many of the fields are new.
fn copy_with(
    held: &mut IndexedStore,
    key: &[u8],
    pairs: &Words<'_>,
) -> Result<(HashRec, usize), NoMemory>
    requires some { 2 ≤ length pairs.now }
    requires words { AreWords pairs.now }
    ensures hash { IfOk result (λ made. made.0 ≡ hash_with held.old key.now pairs.now) }
    ensures fresh { IfOk result (λ made. made.1 ≡ fresh_fields held.old key.now pairs.now) }
    ensures filled { IfOk result (λ made. 0 < length made.0) }
    ensures fits { IfOk result (λ made. ValuesFit made.0) }
    ensures stays { OnlyReads held.old held.new }
{
    let mut hash = held.copy_of(key)?;
    let before = hash.len();
    set_pairs(&mut hash, pairs)?;
    let fresh = hash.len() - before;
    Ok((hash, fresh))
}

/// Prepares HSETNX, which is HSET where the field is not there, and writes the reply.
pub fn hsetnx<'a>(held: &mut IndexedStore, args: &Words<'a>, reply: &mut ReplyBuffer) -> Change<'a>
    requires number { held.old.next < last_number }
    requires three { length args.now ≡ 3 }
    requires words { AreWords args.now }
    ensures prepares { Prepares (Plain Hsetnx args.now) held.old held.new reply.new.bytes result }
    ensures room { reply.old.room ≤ reply.new.room }
{
    if held.has_field(args.word(0), args.word(1)) {
        reply.set_number(0);
        return Change::Nothing;
    }
    hset(held, args, reply)
}
