//! The table of commands: every name, and what stands for it.
ghost use Rattle.std.specs.Prelude.{◌≡◌, IfSome, map};
ghost use Rattle.cmd_parse.specs.Commands.{fits, form_in, form_of};
ghost use Rattle.cmd_parse.specs.Lawful.{IsLawfulForm};

use crate::command::Verb;
use ft_base::is_name;

/// How a command is read. The numbers are numbers of words, the command's name among them.
#[derive(Clone, Copy)]
pub enum Form {
    /// A plain command of at least and at most so many words.
    Between(Verb, usize, usize),
    /// A plain command of so many words or more.
    AtLeast(Verb, usize),
    /// The same where only even numbers are lawful.
    InPairs(Verb, usize),
    /// FT.CREATE, and likewise the others, of so many words or more.
    Create(usize),
    /// FT.ALTER.
    Alter(usize),
    /// FT.SEARCH.
    Search(usize),
    /// FT.AGGREGATE.
    Aggregate(usize),
    /// FT.CURSOR.
    Cursor(usize),
}

/// What stands for a name, in any case; `None` where it is none.
pub fn form_of(name: &[u8]) -> Option<Form>
    ensures form { result ≡ form_of name.now }
    ensures lawful { IfSome result IsLawfulForm }
{
    let rows: &[(&[u8], Form)] = &[
        (b"PING", Form::Between(Verb::Ping, 1, 2)),
        (b"ECHO", Form::Between(Verb::Echo, 2, 2)),
        (b"SELECT", Form::Between(Verb::Select, 2, 2)),
        (b"QUIT", Form::AtLeast(Verb::Quit, 1)),
        (b"HSET", Form::InPairs(Verb::Hset, 4)),
        (b"HSETNX", Form::Between(Verb::Hsetnx, 4, 4)),
        (b"HGET", Form::Between(Verb::Hget, 3, 3)),
        (b"HMGET", Form::AtLeast(Verb::Hmget, 3)),
        (b"HGETALL", Form::Between(Verb::Hgetall, 2, 2)),
        (b"HDEL", Form::AtLeast(Verb::Hdel, 3)),
        (b"HLEN", Form::Between(Verb::Hlen, 2, 2)),
        (b"HEXISTS", Form::Between(Verb::Hexists, 3, 3)),
        (b"HINCRBY", Form::Between(Verb::Hincrby, 4, 4)),
        (b"HKEYS", Form::Between(Verb::Hkeys, 2, 2)),
        (b"HVALS", Form::Between(Verb::Hvals, 2, 2)),
        (b"DEL", Form::AtLeast(Verb::Del, 2)),
        (b"EXISTS", Form::AtLeast(Verb::Exists, 2)),
        (b"TYPE", Form::Between(Verb::TypeOf, 2, 2)),
        (b"DBSIZE", Form::Between(Verb::Dbsize, 1, 1)),
        (b"RENAME", Form::Between(Verb::Rename, 3, 3)),
        (b"FLUSHALL", Form::Between(Verb::Flushall, 1, 2)),
        (b"FT.CREATE", Form::Create(5)),
        (b"FT.ALTER", Form::Alter(6)),
        (b"FT.DROPINDEX", Form::Between(Verb::DropIndex, 2, 3)),
        (b"FT._LIST", Form::Between(Verb::ListIndexes, 1, 1)),
        (b"FT.INFO", Form::Between(Verb::Info, 2, 2)),
        (b"FT.TAGVALS", Form::Between(Verb::TagVals, 3, 3)),
        (b"FT.SEARCH", Form::Search(3)),
        (b"FT.AGGREGATE", Form::Aggregate(3)),
        (b"FT.CURSOR", Form::Cursor(4)),
        (b"FT.DEBUG", Form::Between(Verb::Debug, 3, 3)),
    ];
    find(name, rows)
}

/// The form of the first row whose name a word is, in any case.
fn find(word: &[u8], rows: &[(&[u8], Form)]) -> Option<Form>
    ensures { result ≡ form_in (map (λ row. (row.0.now, row.1)) rows.now) word.now }
{
    for row in rows {
        if is_name(word, row.0) {
            return Some(row.1);
        }
    }
    None
}

/// Whether a command of this form may have so many words.
pub fn fits(form: Form, count: usize) -> bool
    ensures { result ≡ fits form count }
{
    match form {
        Form::Between(_, least, most) => least <= count && count <= most,
        Form::InPairs(_, least) => least <= count && count % 2 == 0,
        Form::AtLeast(_, least) => least <= count,
        Form::Create(least) => least <= count,
        Form::Alter(least) => least <= count,
        Form::Search(least) => least <= count,
        Form::Aggregate(least) => least <= count,
        Form::Cursor(least) => least <= count,
    }
}
