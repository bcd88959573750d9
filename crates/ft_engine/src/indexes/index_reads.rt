//! FT._LIST and FT.TAGVALS.
ghost use Rattle.std.specs.Prelude.{◌≡◌, ◌≤◌, Some, length, map, option_copied, IfOk, IsTrue};
ghost use Rattle.cmd_parse.specs.Read.{Plain};
ghost use Rattle.cmd_parse.specs.declared.command.Verb.TheVariants.{ListIndexes, TagVals};
ghost use Rattle.ft_base.specs.Reply.{fits_wire};
ghost use Rattle.ft_machine.specs.Indexes.{listed, name_bulk, tag_field, tags_reply};
ghost use Rattle.ft_engine.specs.Reading.{HandsOut, IsAnswered, IsAnsweredOver};
ghost use Rattle.indexed_store.specs.DefinitionsOf.{definitions_of};
ghost use Rattle.indexed_store.specs.Preparing.{OnlyReads};

use crate::indexes::tag_walk::tag_values;
use ft_base::{Field, IndexDef, ListOf, NoMemory, Reply, Words};
use ft_index::FtIndex;
use hash_store::HashStore;
use indexed_store::{IndexedStore, index_named};
use reply_buffer::ReplyBuffer;
use std::alloc::Global;

/// Does FT._LIST, and writes the reply: the names of the indexes, in order of creation.
pub fn answer_names(held: &mut IndexedStore, _args: &Words<'_>, reply: &mut ReplyBuffer)
    ensures does { IsAnswered (Plain ListIndexes _args.now) held.old reply.new.bytes }
    ensures stays { OnlyReads held.old held.new }
    ensures reads { held.new.reads ≡ held.old.reads }
    ensures room { reply.old.room ≤ reply.new.room }
{
    reply.set_made(names_of_indexes(held.indexes.as_slice(), held.alloc));
}

/// The names of the indexes, in order of creation.
fn names_of_indexes(indexes: &[FtIndex], alloc: Global) -> Result<Reply, NoMemory>
    ensures reply { IfOk result (λ reply. reply ≡ listed (definitions_of indexes.now)) }
    ensures fits { IfOk result (λ reply. IsTrue (fits_wire reply)) }
{
    let names = bulks_of_names(indexes, alloc)?;
    Ok(Reply::Array(names))
}

fn bulks_of_names(indexes: &[FtIndex], alloc: Global) -> Result<ListOf<Reply>, NoMemory>
    ensures { IfOk result (λ names. names ≡ map name_bulk (definitions_of indexes.now)) }
{
    let mut names = Vec::new(alloc);
    for index in indexes {
        names.push(Reply::Bulk(index.def().name.clone()?))?;
    }
    Ok(ListOf::from_vec(names))
}

/// Does FT.TAGVALS, and writes the reply.
pub fn answer_tag_vals(held: &mut IndexedStore, args: &Words<'_>, reply: &mut ReplyBuffer)
    requires words { length args.now ≡ 2 }
    ensures does { IsAnswered (Plain TagVals args.now) held.old reply.new.bytes }
    ensures stays { OnlyReads held.old held.new }
    ensures room { reply.old.room ≤ reply.new.room }
{
    answer_tags_in(
        &mut held.store,
        held.indexes.as_slice(),
        held.alloc,
        args,
        reply,
    );
}

/// The same over the documents and the indexes by themselves.
fn answer_tags_in(
    store: &mut HashStore,
    indexes: &[FtIndex],
    alloc: Global,
    args: &Words<'_>,
    reply: &mut ReplyBuffer,
)
    requires words { length args.now ≡ 2 }
    ensures does { IsAnsweredOver (Plain TagVals args.now) store.old.space indexes.now reply.new.bytes }
    ensures store { HandsOut store.old store.new }
    ensures room { reply.old.room ≤ reply.new.room }
{
    let Some(index) = index_named(indexes, args.word(0)) else {
        return reply.set_fault(b"Unknown index name");
    };
    let def = index.def();
    let Some(field) = tag_field(def.fields.as_slice(), args.word(1)) else {
        return reply.set_fault(b"Unknown field at word 2");
    };
    reply.set_made(tags_reply(store, alloc, def, field));
}

/// The distinct tags of a field over an index's members.
fn tags_reply(
    store: &mut HashStore,
    alloc: Global,
    def: &IndexDef,
    field: &Field,
) -> Result<Reply, NoMemory>
    ensures reply { IfOk result (λ reply. reply ≡ tags_reply (Some field.now) def.now store.old.space) }
    ensures fits { IfOk result (λ reply. IsTrue (fits_wire reply)) }
    ensures store { HandsOut store.old store.new }
{
    let tags = tag_values(alloc, store, def, field)?;
    Ok(Reply::Array(tags))
}

/// The TAG field of an alias.
fn tag_field<'a>(fields: &'a [Field], alias: &[u8]) -> Option<&'a Field>
    ensures { option_copied result ≡ tag_field fields.now alias.now }
{
    fields.iter().find(|field| field.kind.is_tag() && alias == field.alias.as_slice())
}
