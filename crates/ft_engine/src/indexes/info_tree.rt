//! The reply as a whole.
ghost use Rattle.std.specs.Prelude.{◌≡◌, ◌<◌, ◌^◌, ◌∷◌, ◌++◌, [], codes, map, pos, IfOk, IsTrue, OnOk};
ghost use Rattle.ft_base.specs.Reply.{fits_wire};
ghost use Rattle.ft_base.specs.declared.reply.Reply.TheVariants.{Array, Bulk, Number};
ghost use Rattle.ft_machine.specs.Info.{attribute, definition, info_reply};

use crate::indexes::attributes::attributes;
use crate::indexes::info_words::push_pair;
use ft_base::{Bytes, IndexDef, ListOf, NoMemory, Reply};
use ft_machine::Counts;
use std::alloc::Global;

/// What FT.INFO tells of an index with these counts.
pub fn info_reply(alloc: Global, def: &IndexDef, counts: Counts) -> Result<Reply, NoMemory>
    requires docs { counts.docs < 2 ^ 63 }
    requires records { counts.records < 2 ^ 63 }
    requires failures { counts.failures < 2 ^ 63 }
    requires cursors { counts.cursors < 2 ^ 63 }
    ensures reply { IfOk result (λ reply. reply ≡ info_reply def.now counts) }
    ensures fits { IfOk result (λ reply. IsTrue (fits_wire reply)) }
{
    let mut replies = definition(alloc, def)?;
    push_count(alloc, &mut replies, b"num_docs", counts.docs)?;
    push_count(alloc, &mut replies, b"num_records", counts.records)?;
    push_count(
        alloc,
        &mut replies,
        b"hash_indexing_failures",
        counts.failures,
    )?;
    push_count(alloc, &mut replies, b"cursors", counts.cursors)?;
    Ok(Reply::Array(ListOf::from_vec(replies)))
}

/// The name, the prefixes and the fields.
fn definition(alloc: Global, def: &IndexDef) -> Result<Vec<Reply>, NoMemory>
    ensures replies { IfOk result (λ replies. replies.items ≡ definition def.now) }
    ensures fits { IfOk result (λ replies. IsTrue (fits_wire (Array replies.items))) }
{
    let mut replies = Vec::new(alloc);
    let name = def.name.clone()?;
    push_pair(alloc, &mut replies, b"index_name", Reply::Bulk(name))?;
    push_prefixes(alloc, &mut replies, def)?;
    push_fields(alloc, &mut replies, def)?;
    Ok(replies)
}

fn push_prefixes(alloc: Global, replies: &mut Vec<Reply>, def: &IndexDef) -> Result<(), NoMemory>
    ensures pushed { OnOk result (replies.new.items
        ≡ replies.old.items ++ Bulk (codes "prefixes") ∷ Array (map Bulk def.now.prefixes) ∷ []) }
    ensures fits { OnOk result (IsTrue (fits_wire (Array (map Bulk def.now.prefixes)))) }
{
    let prefixes = bulks(alloc, def.prefixes.as_slice())?;
    push_pair(alloc, replies, b"prefixes", prefixes)?;
    Ok(())
}

fn push_fields(alloc: Global, replies: &mut Vec<Reply>, def: &IndexDef) -> Result<(), NoMemory>
    ensures pushed { OnOk result (replies.new.items
        ≡ replies.old.items ++ Bulk (codes "attributes") ∷ Array (map attribute def.now.fields) ∷ []) }
    ensures fits { OnOk result (IsTrue (fits_wire (Array (map attribute def.now.fields)))) }
{
    let fields = attributes(alloc, def.fields.as_slice())?;
    push_pair(alloc, replies, b"attributes", fields)?;
    Ok(())
}

fn bulks(alloc: Global, texts: &[Bytes]) -> Result<Reply, NoMemory>
    ensures reply { IfOk result (λ reply. reply ≡ Array (map Bulk texts.now)) }
    ensures fits { IfOk result (λ reply. IsTrue (fits_wire reply)) }
{
    let mut replies = Vec::new(alloc);
    for text in texts {
        replies.push(Reply::Bulk(text.clone()?))?;
    }
    Ok(Reply::Array(ListOf::from_vec(replies)))
}

fn push_count(
    alloc: Global,
    replies: &mut Vec<Reply>,
    name: &[u8],
    count: u64,
) -> Result<(), NoMemory>
    requires { count < 2 ^ 63 }
    ensures { OnOk result (replies.new.items ≡ replies.old.items ++ Bulk name.now ∷ Number (pos count) ∷ []) }
{
    push_pair(alloc, replies, name, Reply::Number(count as i64))
}
