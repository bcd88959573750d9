//! The commands that read hashes and keys.
ghost use Rattle.std.specs.Prelude.{◌≤◌};
ghost use Rattle.cmd_parse.specs.Asked.{Plain};
ghost use Rattle.cmd_parse.specs.Lawful.{Lawful};
ghost use Rattle.ft_engine.specs.Kinds.{IsCount, IsValue};
ghost use Rattle.ft_engine.specs.Reading.{IsAnswered};
ghost use Rattle.indexed_store.specs.Preparing.{OnlyReads};

use cmd_parse::Verb;
use ft_base::Words;
use indexed_store::IndexedStore;
use reply_buffer::ReplyBuffer;

/// Answers with values and names of fields.
pub fn answer_values(held: &mut IndexedStore, verb: Verb, args: &Words<'_>, reply: &mut ReplyBuffer)
    requires read { IsValue verb }
    requires lawful { Lawful verb args.now }
    ensures does { IsAnswered (Plain verb args.now) held.old reply.new.bytes }
    ensures stays { OnlyReads held.old held.new }
    ensures room { reply.old.room ≤ reply.new.room }
{
    match verb {
        Verb::Hget => reply.set_made(held.hget(args.word(0), args.word(1))),
        Verb::Hmget => reply.set_made(held.hmget(args)),
        Verb::Hgetall => reply.set_made(held.hgetall(args.word(0))),
        Verb::Hkeys => reply.set_made(held.hkeys(args.word(0))),
        Verb::Hvals => reply.set_made(held.hvals(args.word(0))),
        _ => unreachable!(),
    }
}

/// Answers with a number, or with the type of a key's value.
pub fn answer_count(held: &mut IndexedStore, verb: Verb, args: &Words<'_>, reply: &mut ReplyBuffer)
    requires read { IsCount verb }
    requires lawful { Lawful verb args.now }
    ensures does { IsAnswered (Plain verb args.now) held.old reply.new.bytes }
    ensures stays { OnlyReads held.old held.new }
    ensures room { reply.old.room ≤ reply.new.room }
{
    match verb {
        Verb::Hlen => reply.set_number(held.hlen(args.word(0))),
        Verb::Hexists => reply.set_flag(held.has_field(args.word(0), args.word(1))),
        Verb::Exists => reply.set_number(held.present(args)),
        Verb::TypeOf => reply.set_kind(held.has(args.word(0))),
        Verb::Dbsize => reply.set_number(held.len()),
        _ => unreachable!(),
    }
}
