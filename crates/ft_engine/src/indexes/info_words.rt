//! Words at the end of a reply that is being made.
ghost use Rattle.std.specs.Prelude.{◌≡◌, [], ◌∷◌, ◌++◌, OnOk};
ghost use Rattle.ft_base.specs.declared.reply.Reply.TheVariants.{Bulk};
ghost use Rattle.ft_machine.specs.Info.{word_if};

use ft_base::{Bytes, NoMemory, Reply};
use std::alloc::Global;

pub fn push_word(alloc: Global, replies: &mut Vec<Reply>, word: &[u8]) -> Result<(), NoMemory>
    ensures { OnOk result (replies.new.items ≡ replies.old.items ++ Bulk word.now ∷ []) }
{
    replies.push(Reply::Bulk(Bytes::from_slice(alloc, word)?))?;
    Ok(())
}

pub fn push_word_if(
    alloc: Global,
    replies: &mut Vec<Reply>,
    declared: bool,
    word: &[u8],
) -> Result<(), NoMemory>
    ensures { OnOk result (replies.new.items ≡ replies.old.items ++ word_if declared word.now) }
{
    if declared {
        push_word(alloc, replies, word)?;
    }
    Ok(())
}

/// Pushes a name and what it says.
pub fn push_pair(
    alloc: Global,
    replies: &mut Vec<Reply>,
    name: &[u8],
    said: Reply,
) -> Result<(), NoMemory>
    ensures { OnOk result (replies.new.items ≡ replies.old.items ++ Bulk name.now ∷ said ∷ []) }
{
    push_word(alloc, replies, name)?;
    replies.push(said)?;
    Ok(())
}
