//! FT.INFO: what there is to tell of an index.
ghost use Rattle.std.specs.Prelude.{◌≡◌, ◌<◌, ◌≤◌, ◌^◌, None, length, IfOk};
ghost use Rattle.cmd_parse.specs.Read.{Plain};
ghost use Rattle.cmd_parse.specs.declared.command.Verb.TheVariants.{Info};
ghost use Rattle.ft_machine.specs.Step.{last_number};
ghost use Rattle.ft_engine.specs.Exactness.{TellsExactly};
ghost use Rattle.ft_engine.specs.Reading.{IsAnswered};
ghost use Rattle.ft_engine.specs.Told.{TellsIndex};
ghost use Rattle.indexed_store.specs.Preparing.{OnlyReads};

use crate::indexes::info_tree::info_reply;
use ft_base::{NoMemory, Reply, Words};
use ft_index::FtIndex;
use ft_machine::Counts;
use indexed_store::IndexedStore;
use reply_buffer::ReplyBuffer;
use std::alloc::{AllocError, Global};

/// Does FT.INFO, and writes the reply.
pub fn answer_info(held: &mut IndexedStore, args: &Words<'_>, reply: &mut ReplyBuffer)
    requires number { held.old.next < last_number }
    requires words { length args.now ≡ 1 }
    requires none { held.old.opens ≡ None }
    ensures does { IsAnswered (Plain Info args.now) held.old reply.new.bytes }
    // As many records are told as the lists have entries.
    ensures records { TellsExactly (Plain Info args.now) held.old.indexes reply.new.bytes }
    ensures stays { OnlyReads held.old held.new }
    ensures reads { held.new.reads ≡ held.old.reads }
    ensures room { reply.old.room ≤ reply.new.room }
{
    let alloc = held.alloc;
    // Tells that each index stands for the documents.
    held.stand();
    let Some(index) = held.index_named(args.word(0)) else {
        return reply.set_fault(b"Unknown index name");
    };
    let cursors = held.cursor_count(index.def().serial);
    reply.set_made(told(index, alloc, cursors));
}

/// What there is to tell of an index. Where its lists have more entries than a reply can say, or it has more cursors, that
/// counts as running out of memory.
fn told(index: &FtIndex, alloc: Global, cursors: usize) -> Result<Reply, NoMemory>
    requires few { index.now.table.last < 2 ^ 62 }
    ensures tells { IfOk result (TellsIndex index.now cursors) }
{
    let Some(records) = index.lists().records() else {
        return Err(AllocError);
    };
    if cursors > i64::MAX as usize {
        return Err(AllocError);
    }
    let counts = Counts {
        docs: index.docs(),
        records,
        failures: index.failures(),
        cursors: cursors as u64,
    };
    info_reply(alloc, index.def(), counts)
}
