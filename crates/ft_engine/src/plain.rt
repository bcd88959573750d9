//! The plain commands, each given to the call that does it.
ghost use Rattle.std.specs.Prelude.{◌≡◌, ◌≤◌, ◌<◌, None};
ghost use Rattle.cmd_parse.specs.Asked.{Plain};
ghost use Rattle.cmd_parse.specs.Asking.{AreWords};
ghost use Rattle.cmd_parse.specs.Lawful.{Lawful};
ghost use Rattle.ft_machine.specs.Step.{last_number};
ghost use Rattle.ft_engine.specs.Collecting.{Collects};
ghost use Rattle.ft_engine.specs.Exactness.{TellsExactly};
ghost use Rattle.ft_engine.specs.Quiet.{ChangesNothing, IsQuietFor};
ghost use Rattle.ft_engine.specs.Reading.{IsAnswered};
ghost use Rattle.indexed_store.specs.Preparing.{OnlyReads, Prepares};

use crate::connection::answer_connection;
use crate::hashes::deleting::hdel;
use crate::hashes::incrementing::hincrby;
use crate::hashes::reads::{answer_count, answer_values};
use crate::hashes::removals::{del, flush};
use crate::hashes::renaming::rename;
use crate::hashes::setting::{hset, hsetnx};
use crate::indexes::collection::collect;
use crate::indexes::definitions::drop_named;
use crate::indexes::index_reads::{answer_names, answer_tag_vals};
use crate::indexes::info::answer_info;
use cmd_parse::Verb;
use ft_base::Words;
use indexed_store::{Change, IndexedStore};
use reply_buffer::ReplyBuffer;

/// Prepares a plain command in this event, writes the reply, and answers the change.
pub fn prepare_plain<'a>(
    held: &mut IndexedStore,
    verb: Verb,
    args: &Words<'a>,
    reply: &mut ReplyBuffer,
) -> Change<'a>
    requires number { held.old.next < last_number }
    requires lawful { Lawful verb args.now }
    requires words { AreWords args.now }
    requires none { held.old.opens ≡ None }
    ensures prepares { Prepares (Plain verb args.now) held.old held.new reply.new.bytes result }
    ensures records { TellsExactly (Plain verb args.now) held.old.indexes reply.new.bytes }
    ensures collects { Collects (Plain verb args.now) held.new.indexes reply.new.bytes }
    ensures quiet { IsQuietFor (Plain verb args.now) result }
    ensures room { reply.old.room ≤ reply.new.room }
{
    match verb {
        Verb::Hset => hset(held, args, reply),
        Verb::Hsetnx => hsetnx(held, args, reply),
        Verb::Hdel => hdel(held, args, reply),
        Verb::Hincrby => hincrby(held, args, reply),
        Verb::Rename => rename(held, args, reply),
        Verb::Del => del(held, args, reply),
        Verb::Flushall => flush(held, args, reply),
        Verb::DropIndex => drop_named(held, args, reply),
        Verb::Debug => collect(held, args, reply),
        _ => {
            answer_plain(held, verb, args, reply);
            Change::Nothing
        }
    }
}

/// Answers a plain command that changes nothing, and writes the reply.
fn answer_plain(held: &mut IndexedStore, verb: Verb, args: &Words<'_>, reply: &mut ReplyBuffer)
    requires read { ChangesNothing verb }
    requires number { held.old.next < last_number }
    requires lawful { Lawful verb args.now }
    requires none { held.old.opens ≡ None }
    ensures does { IsAnswered (Plain verb args.now) held.old reply.new.bytes }
    ensures records { TellsExactly (Plain verb args.now) held.old.indexes reply.new.bytes }
    ensures stays { OnlyReads held.old held.new }
    ensures room { reply.old.room ≤ reply.new.room }
{
    match verb {
        Verb::ListIndexes => answer_names(held, args, reply),
        Verb::Info => answer_info(held, args, reply),
        Verb::TagVals => answer_tag_vals(held, args, reply),
        Verb::Ping | Verb::Echo | Verb::Select | Verb::Quit => answer_connection(
            held, verb, args, reply,
        ),
        Verb::Hget | Verb::Hmget | Verb::Hgetall | Verb::Hkeys | Verb::Hvals => {
            answer_values(held, verb, args, reply)
        }
        _ => answer_count(held, verb, args, reply),
    }
}
