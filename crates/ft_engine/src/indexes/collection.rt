//! FT.DEBUG GC_FORCEINVOKE.
ghost use Rattle.std.specs.Prelude.{◌≡◌, ◌<◌, ◌≤◌, length};
ghost use Rattle.cmd_parse.specs.Read.{Plain};
ghost use Rattle.cmd_parse.specs.declared.command.Verb.TheVariants.{Debug};
ghost use Rattle.ft_engine.specs.Collecting.{Collects};
ghost use Rattle.ft_machine.specs.Step.{last_number};
ghost use Rattle.indexed_store.specs.Preparing.{Prepares};
ghost use Rattle.indexed_store.specs.declared.change.Change.TheVariants.{Nothing};

use ft_base::Words;
use indexed_store::{Change, IndexedStore};
use reply_buffer::ReplyBuffer;

/// Takes the dead entries out of all lists of an index, in this event, and writes the reply. As nobody sees such an entry,
/// nothing is left for a commit.
pub fn collect<'a>(held: &mut IndexedStore, args: &Words<'a>, reply: &mut ReplyBuffer) -> Change<'a>
    requires number { held.old.next < last_number }
    requires words { length args.now ≡ 2 }
    ensures prepares { Prepares (Plain Debug args.now) held.old held.new reply.new.bytes result }
    ensures collects { Collects (Plain Debug args.now) held.new.indexes reply.new.bytes }
    ensures nothing { result ≡ Nothing }
    ensures room { reply.old.room ≤ reply.new.room }
{
    let name = args.word(1);
    if held.index_named(name).is_none() {
        reply.set_fault(b"Unknown index name");
        return Change::Nothing;
    }
    match held.collect(name) {
        Ok(()) => {
            reply.set_short(b"+DONE\r\n");
            Change::Nothing
        }
        Err(_) => {
            reply.set_no_memory();
            Change::Nothing
        }
    }
}
