//! The commands of the connection, which read nothing: PING, ECHO, SELECT and QUIT.
ghost use Rattle.std.specs.Prelude.{◌≤◌};
ghost use Rattle.cmd_parse.specs.Asked.{Plain};
ghost use Rattle.cmd_parse.specs.Lawful.{Lawful};
ghost use Rattle.ft_engine.specs.Kinds.{IsConnection};
ghost use Rattle.ft_engine.specs.Reading.{IsAnswered};
ghost use Rattle.indexed_store.specs.Preparing.{OnlyReads};
ghost use Rattle.reply_buffer.specs.Written.{IsEchoed};

use cmd_parse::Verb;
use ft_base::Words;
use indexed_store::IndexedStore;
use reply_buffer::ReplyBuffer;

/// Answers a command of the connection.
pub fn answer_connection(
    held: &mut IndexedStore,
    verb: Verb,
    args: &Words<'_>,
    reply: &mut ReplyBuffer,
)
    requires read { IsConnection verb }
    requires lawful { Lawful verb args.now }
    ensures does { IsAnswered (Plain verb args.now) held.old reply.new.bytes }
    ensures stays { OnlyReads held.old held.new }
    ensures room { reply.old.room ≤ reply.new.room }
{
    match verb {
        Verb::Ping if args.len() == 0 => reply.set_short(b"+PONG\r\n"),
        Verb::Ping => answer_message(held, args.word(0), reply),
        Verb::Echo => answer_message(held, args.word(0), reply),
        Verb::Select => reply.set_short(b"+OK\r\n"),
        Verb::Quit => reply.set_short(b"+OK\r\n"),
        _ => unreachable!(),
    }
}

/// Answers with a message as it came.
fn answer_message(held: &IndexedStore, message: &[u8], reply: &mut ReplyBuffer)
    ensures bytes { IsEchoed message.now reply.new.bytes }
    ensures room { reply.old.room ≤ reply.new.room }
{
    reply.set_message(held.alloc, message);
}
