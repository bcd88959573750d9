//! DEL and FLUSHALL: removals, prepared without memory but where DEL has very many keys.
ghost use Rattle.std.specs.Prelude.{◌≡◌, ◌≤◌};
ghost use Rattle.cmd_parse.specs.Read.{Plain};
ghost use Rattle.cmd_parse.specs.declared.command.Verb.TheVariants.{Del, Flushall};
ghost use Rattle.indexed_store.specs.Preparing.{Prepares};

use ft_base::Words;
use indexed_store::{Change, IndexedStore};
use reply_buffer::ReplyBuffer;

/// Prepares FLUSHALL, and writes the reply.
pub fn flush<'a>(held: &mut IndexedStore, args: &Words<'a>, reply: &mut ReplyBuffer) -> Change<'a>
    ensures prepares { Prepares (Plain Flushall args.now) held.old held.new reply.new.bytes result }
    ensures same { held.new ≡ held.old }
    ensures room { reply.old.room ≤ reply.new.room }
{
    reply.set_short(b"+OK\r\n");
    if held.len() == 0 && held.index_count() == 0 {
        // No index is left that could have cursors, but nothing says so here.
        return Change::CloseCursors;
    }
    Change::Flush
}

/// Prepares DEL, and writes the reply.
pub fn del<'a>(held: &mut IndexedStore, args: &Words<'a>, reply: &mut ReplyBuffer) -> Change<'a>
    ensures prepares { Prepares (Plain Del args.now) held.old held.new reply.new.bytes result }
    ensures same { held.new ≡ held.old }
    ensures room { reply.old.room ≤ reply.new.room }
{
    let Ok(count) = held.count_found(args) else {
        reply.set_no_memory();
        return Change::Nothing;
    };
    reply.set_number(count);
    if count == 0 {
        return Change::Nothing;
    }
    Change::EraseKeys(args.rest(0))
}
