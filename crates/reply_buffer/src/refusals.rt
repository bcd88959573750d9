//! Replies to words that ask nothing, and to queries that are none. They take no memory.
ghost use Rattle.std.specs.Prelude.{◌≡◌, ◌≤◌, ◌+◌, ◌++◌, length, vec_capacity};
ghost use Rattle.std.specs.Fmt.{decimal};
ghost use Rattle.ft_base.specs.Reply.{spelling};
ghost use Rattle.ft_base.specs.declared.reply.Reply.TheVariants.{Fault};
ghost use Rattle.reply_buffer.specs.Refused.{HasShortName, field_refused, query_refused, refused, schema_refused, wrong_number};
ghost use Rattle.reply_buffer.specs.Written.{IsCleared};
ghost use Rattle.token_text.specs.Tokens.{lowered};

use crate::short_reply::{put_fault, put_no_memory, put_short};
use cmd_parse::CmdFault;
use ft_schema::SchemaFault;
use itoa::Buffer;
use query_grammar::QueryFault;

/// Writes why the words of a command of this name ask nothing.
pub fn put_refusal(name: &[u8], fault: CmdFault, out: &mut Vec<u8>)
    requires name { HasShortName name.now fault }
    requires cleared { IsCleared out.old }
    ensures fault { out.new.items ≡ refused name.now fault }
    ensures room { vec_capacity out.old ≤ vec_capacity out.new }
{
    match fault {
        CmdFault::Unknown => put_fault(out, b"ERR unknown command"),
        CmdFault::Arity => put_arity(name, out),
        CmdFault::Syntax { at } => put_at(b"ERR syntax error at word ", at, out),
        CmdFault::Limit { at } => put_at(b"ERR limit exceeded at word ", at, out),
        CmdFault::OutOfScope { at } => put_at(b"ERR not supported at word ", at, out),
        CmdFault::NotInteger => put_fault(out, b"ERR value is not an integer or out of range"),
        CmdFault::BadDb => put_fault(out, b"ERR DB index is out of range"),
        CmdFault::Schema(fault) => put_schema_refusal(fault, out),
        CmdFault::NoMemory => put_no_memory(out),
    }
}

/// Writes that the number of words is wrong. No command has a longer name than twelve bytes.
fn put_arity(name: &[u8], out: &mut Vec<u8>)
    requires name { length name.now ≤ 12 }
    requires cleared { IsCleared out.old }
    ensures fault { out.new.items ≡ wrong_number name.now }
    ensures room { vec_capacity out.old ≤ vec_capacity out.new }
{
    put_short(out, b"-ERR wrong number of arguments for '");
    put_lowered(out, name);
    put_short(out, b"' command\r\n");
}

/// Writes a word with small letters, for which there is room.
fn put_lowered(out: &mut Vec<u8>, word: &[u8])
    requires { length out.old.items + length word.now ≤ vec_capacity out.old }
    ensures text { out.new.items ≡ out.old.items ++ lowered word.now }
    ensures room { vec_capacity out.old ≤ vec_capacity out.new }
{
    for byte in word {
        put_short(out, &[byte.to_ascii_lowercase()]);
    }
}

/// Writes why words are no schema.
pub fn put_schema_refusal(fault: SchemaFault, out: &mut Vec<u8>)
    requires { IsCleared out.old }
    ensures fault { out.new.items ≡ schema_refused fault }
    ensures room { vec_capacity out.old ≤ vec_capacity out.new }
{
    match fault {
        SchemaFault::BadOption { at } => put_at(b"ERR bad option at word ", at, out),
        SchemaFault::BadKind { at } => put_at(b"ERR bad field type at word ", at, out),
        SchemaFault::DuplicateField { at } => put_at(b"ERR duplicate field at word ", at, out),
        SchemaFault::TooManyFields { at } => put_at(b"ERR too many fields at word ", at, out),
        SchemaFault::BadNumber { at } => put_at(b"ERR bad number at word ", at, out),
        SchemaFault::OutOfScope { at } => put_at(b"ERR not supported at word ", at, out),
        SchemaFault::NoMemory => put_no_memory(out),
    }
}

/// Writes why a text is no query.
pub fn put_query_refusal(fault: QueryFault, out: &mut Vec<u8>)
    requires { IsCleared out.old }
    ensures fault { out.new.items ≡ query_refused fault }
    ensures room { vec_capacity out.old ≤ vec_capacity out.new }
{
    match fault {
        QueryFault::Syntax { at } => put_place(b"Syntax error at offset ", at, out),
        QueryFault::UnknownField { at } => put_place(b"Unknown field at offset ", at, out),
        QueryFault::WrongKind { at } => put_place(b"Wrong field kind at offset ", at, out),
        QueryFault::NoParam { at } => put_place(b"No such parameter at offset ", at, out),
        QueryFault::TooDeep { at } => put_place(b"Query too deep at offset ", at, out),
        QueryFault::OutOfScope { at } => put_place(b"Not supported at offset ", at, out),
        QueryFault::NoMemory => put_no_memory(out),
    }
}

/// Writes that the name at a word is no field's of the index.
pub fn put_unknown_field(at: u32, out: &mut Vec<u8>)
    requires { IsCleared out.old }
    ensures fault { out.new.items ≡ field_refused at }
    ensures room { vec_capacity out.old ≤ vec_capacity out.new }
{
    put_at(b"Unknown field at word ", at, out);
}

/// Writes a text and a word's number behind it.
fn put_at(text: &[u8], at: u32, out: &mut Vec<u8>)
    requires text { length text.now ≤ 40 }
    requires cleared { IsCleared out.old }
    ensures fault { out.new.items ≡ spelling (Fault (text.now ++ decimal at)) }
    ensures room { vec_capacity out.old ≤ vec_capacity out.new }
{
    put_place(text, at as usize, out);
}

/// Writes a text and a number behind it.
fn put_place(text: &[u8], at: usize, out: &mut Vec<u8>)
    requires text { length text.now ≤ 40 }
    requires cleared { IsCleared out.old }
    ensures fault { out.new.items ≡ spelling (Fault (text.now ++ decimal at)) }
    ensures room { vec_capacity out.old ≤ vec_capacity out.new }
{
    let mut buffer = Buffer::new();
    put_short(out, b"-");
    put_short(out, text);
    put_short(out, buffer.format(at).as_bytes());
    put_short(out, b"\r\n");
}
