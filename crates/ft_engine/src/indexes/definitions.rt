//! FT.CREATE, FT.ALTER and FT.DROPINDEX.
ghost use Rattle.std.specs.Prelude.{◌≡◌, ◌<◌, ◌≤◌, length};
ghost use Rattle.cmd_parse.specs.Lawful.{LawfulNumber};
ghost use Rattle.cmd_parse.specs.Read.{AlterIndex, CreateIndex, Plain};
ghost use Rattle.cmd_parse.specs.declared.command.Verb.TheVariants.{DropIndex};
ghost use Rattle.ft_machine.specs.Step.{last_number};
ghost use Rattle.ft_schema.specs.Lawful.{IsLawful};
ghost use Rattle.indexed_store.specs.Preparing.{Prepares};

use ft_base::{Field, IndexDef, ListOf, Words};
use ft_schema::extend;
use indexed_store::{Change, IndexedStore, MOST_INDEXES};
use reply_buffer::ReplyBuffer;

/// Prepares FT.CREATE over the documents that are there, and writes the reply.
pub fn create<'a>(held: &mut IndexedStore, def: IndexDef, reply: &mut ReplyBuffer) -> Change<'a>
    requires number { held.old.next < last_number }
    requires lawful { IsLawful def.fields }
    ensures prepares { Prepares (CreateIndex def) held.old held.new reply.new.bytes result }
    ensures room { reply.old.room ≤ reply.new.room }
{
    if held.index_named(def.name.as_slice()).is_some() {
        drop(def);
        reply.set_fault(b"Index already exists");
        return Change::Nothing;
    }
    if MOST_INDEXES <= held.index_count() {
        drop(def);
        reply.set_fault(b"Too many indexes");
        return Change::Nothing;
    }
    match held.index_over(def, 0) {
        Ok(index) => {
            reply.set_short(b"+OK\r\n");
            Change::Create(index)
        }
        Err(_) => {
            reply.set_no_memory();
            Change::Nothing
        }
    }
}

/// Prepares FT.ALTER, and writes the reply.
pub fn alter<'a>(
    held: &mut IndexedStore,
    name: &[u8],
    fields: &ListOf<Field>,
    reply: &mut ReplyBuffer,
) -> Change<'a>
    requires number { held.old.next < last_number }
    requires some { 0 < length fields.now }
    ensures prepares { Prepares (AlterIndex name.now fields.now) held.old held.new reply.new.bytes result }
    ensures room { reply.old.room ≤ reply.new.room }
{
    let alloc = held.alloc;
    let Some(index) = held.index_named(name) else {
        reply.set_fault(b"Unknown index name");
        return Change::Nothing;
    };
    let failures = index.failures();
    let def = match extend(alloc, index.def(), fields) {
        Ok(def) => def,
        Err(fault) => {
            reply.set_schema_refusal(fault);
            return Change::Nothing;
        }
    };
    match held.index_over(def, failures) {
        Ok(extended) => {
            reply.set_short(b"+OK\r\n");
            Change::Alter(extended)
        }
        Err(_) => {
            reply.set_no_memory();
            Change::Nothing
        }
    }
}

/// Prepares FT.DROPINDEX, and writes the reply. It takes no memory.
pub fn drop_named<'a>(
    held: &mut IndexedStore,
    args: &Words<'a>,
    reply: &mut ReplyBuffer,
) -> Change<'a>
    requires words { LawfulNumber DropIndex (length args.now) }
    ensures prepares { Prepares (Plain DropIndex args.now) held.old held.new reply.new.bytes result }
    // What is held is only looked at.
    ensures same { held.new ≡ held.old }
    ensures room { reply.old.room ≤ reply.new.room }
{
    let name = args.word(0);
    if held.index_named(name).is_none() {
        reply.set_fault(b"Unknown index name");
        return Change::Nothing;
    }
    reply.set_short(b"+OK\r\n");
    if args.len() == 1 {
        return Change::Drop(name);
    }
    Change::DropMembers(name)
}
