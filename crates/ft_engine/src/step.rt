//! What a command asks is prepared: the reply is written, and what it needs is made ready.
ghost use Rattle.std.specs.Prelude.{◌≡◌, ◌<◌, ◌≤◌, None, Option, true};
ghost use Rattle.ft_engine.specs.Commands.{CollectsAsAsked, IsLawful, IsPreparedAs, IsQuietAsAsked, ReadsAsAsked, TellsAsAsked};
ghost use Rattle.ft_engine.specs.Stands.{IsIndexed, stands_of};
ghost use Rattle.ft_engine.specs.declared.last_splice.LastSplice.{LastSplice};
ghost use Rattle.ft_machine.specs.Step.{last_number};
ghost use Rattle.indexed_store.specs.Holding.{begun};
ghost use Rattle.indexed_store.specs.Standing.{AreWritten};

use crate::indexes::aggregation::aggregate;
use crate::indexes::cursors::{delete_cursor, read_cursor};
use crate::indexes::definitions::{alter, create};
use crate::plain::prepare_plain;
use crate::searching::prepare_search;
use cmd_parse::Command;
use indexed_store::{Change, IndexedStore};
use reply_buffer::ReplyBuffer;

/// Begins the event of this number at a moment, prepares what is asked in it, writes the reply, and answers the change.
pub fn begin_command<'a>(
    held: &mut IndexedStore,
    number: u64,
    moment: u64,
    command: Command<'a>,
    reply: &mut ReplyBuffer,
) -> Change<'a>
    requires earlier { held.old.next ≤ number }
    requires number { number < last_number }
    requires asked { IsLawful command }
    ensures documents { AreWritten held.old.space number }
    ensures indexed { (last : Option LastSplice) → IsIndexed (stands_of held.new number true last) }

    // What is asked is prepared in the event that has begun.
    ensures prepares { IsPreparedAs command.entry (begun number moment held.old) held.new reply.new.bytes result }
    ensures reads { ReadsAsAsked command.entry reply.new.bytes held.old.reads held.new.reads }
    ensures records { TellsAsAsked command.entry held.old.indexes reply.new.bytes }
    ensures collects { CollectsAsAsked command.entry held.new.indexes reply.new.bytes }
    ensures quiet { IsQuietAsAsked command.entry result }
    ensures room { reply.old.room ≤ reply.new.room }
{
    held.stand();
    held.begin(number, moment);
    let change = prepare_command(held, command, reply);
    held.stand();
    change
}

/// Prepares what is asked in this event, writes the reply, and answers the change.
fn prepare_command<'a>(
    held: &mut IndexedStore,
    command: Command<'a>,
    reply: &mut ReplyBuffer,
) -> Change<'a>
    requires number { held.old.next < last_number }
    requires asked { IsLawful command }
    requires none { held.old.opens ≡ None }
    ensures prepares { IsPreparedAs command.entry held.old held.new reply.new.bytes result }
    ensures reads { ReadsAsAsked command.entry reply.new.bytes held.old.reads held.new.reads }
    ensures records { TellsAsAsked command.entry held.old.indexes reply.new.bytes }
    ensures collects { CollectsAsAsked command.entry held.new.indexes reply.new.bytes }
    ensures quiet { IsQuietAsAsked command.entry result }
    ensures room { reply.old.room ≤ reply.new.room }
{
    match command {
        Command::Plain { verb, args } => prepare_plain(held, verb, &args, reply),
        Command::Create(def) => create(held, def.into_inner(), reply),
        Command::Alter { index, fields } => alter(held, index, &fields, reply),
        Command::Search(search) => prepare_search(held, search, reply),
        Command::Aggregate(asked) => aggregate(held, asked, reply),
        Command::CursorRead { index, id, count } => read_cursor(held, index, id, count, reply),
        Command::CursorDel { index, id } => delete_cursor(held, index, id, reply),
    }
}
