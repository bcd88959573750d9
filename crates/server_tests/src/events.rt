//! Events: what is prepared and not committed, and the last event. Each table is a session, a row a command, which the
//! rows before it have left as it finds it.
use crate::rows::{behind, cut, is_spelled};
use crate::session::{Session, begin_at};
use std::alloc::Global;
use std::hash::RandomState;
use std::random::RandomSource;

/// What the rows of a table say.
#[derive(Clone, Copy)]
enum Table {
    /// An abandoned command, its reply, and whether it writes. It leaves all as it was.
    Abandoned,
    /// A command that is committed or abandoned, whether it writes, and what is seen then.
    Committed,
    /// A line and its reply; one behind `!` is abandoned.
    Waiting,
    /// A command that is refused for the last event.
    Late,
}

/// The document h and the index ix.
const FILL: &[&[u8]] = &[b"FT.CREATE|ix|SCHEMA|t|TEXT", b"HSET|h|t|red"];

/// All that is seen of them.
const SEEN: &[u8] = b"*2 $1 t $3 red *2 :1 $1 h :1 +none";

/// Commands that are prepared and abandoned, their replies, and whether they write.
const ABANDONED: &str = "PING = +PONG = reads
HGET|h|t = $3 red = reads
HSET|h|t|blue = :0 = writes
HSET|i|t|red = :1 = writes
HSETNX|h|t|x = :0 = reads
HSETNX|h|u|x = :1 = writes
HDEL|h|z = :0 = reads
HDEL|h|t = :1 = writes
HINCRBY|h|n|1 = :1 = writes
HINCRBY|h|t|1 = -ERR hash value is not an integer = reads
DEL|i|z = :0 = reads
DEL|i|h|h = :1 = writes
RENAME|h|h = +OK = reads
RENAME|i|h = -ERR no such key = reads
RENAME|h|i = +OK = writes
FT.CREATE|ix|SCHEMA|u|TEXT = -Index already exists = reads
FT.CREATE|iy|SCHEMA|t|TEXT = +OK = writes
FT.SEARCH|iy|red|NOCONTENT = -Unknown index name = reads
FT.ALTER|ix|SCHEMA|ADD|u|TAG = +OK = writes
FT.ALTER|iy|SCHEMA|ADD|u|TAG = -Unknown index name = reads
FT.DROPINDEX|ix = +OK = writes
FT.DROPINDEX|ix|DD = +OK = writes
FT.DROPINDEX|iy = -Unknown index name = reads
FT._LIST = *1 $2 ix = reads
FT.TAGVALS|ix|t = -Unknown field at word 2 = reads
FLUSHALL = +OK = writes";

/// Commands that are committed or abandoned, and what is seen behind each. In the end nothing is left to flush.
const COMMITTED: &str = "HSET|h|t|blue = abandoned = writes = *2 $1 t $3 red *2 :1 $1 h :1 +none
HSET|h|u|1 = committed = writes = *4 $1 t $3 red $1 u $1 1 *2 :1 $1 h :1 +none
HDEL|h|u = committed = writes = *2 $1 t $3 red *2 :1 $1 h :1 +none
RENAME|h|i = committed = writes = *0 *2 :1 $1 i :1 +hash
FLUSHALL = abandoned = writes = *0 *2 :1 $1 i :1 +hash
RENAME|i|h = committed = writes = *2 $1 t $3 red *2 :1 $1 h :1 +none
FLUSHALL = committed = writes = *0 -Unknown index name :0 +none
FLUSHALL = committed = reads = *0 -Unknown index name :0 +none";

/// The documents b and c are prepared and abandoned: their words and tags are in the lists of the index, where no
/// search and no removal finds them, and those that are written later are found beside them.
const WAITING: &str = "FT.CREATE|ix|SCHEMA|t|TEXT|t|AS|g|TAG = +OK
HSET|a|t|fox = :1
! HSET|b|t|lost red = :1
FT.SEARCH|ix|lost|NOCONTENT = *1 :0
FT.SEARCH|ix|*|NOCONTENT = *2 :1 $1 a
FT.SEARCH|ix|-fox|NOCONTENT = *1 :0
FT.TAGVALS|ix|g = *1 $3 fox
HLEN|b = :0
HSET|c|t|fox = :1
! HSET|c|t|lost = :0
FT.SEARCH|ix|fox|NOCONTENT = *3 :2 $1 a $1 c
FT.SEARCH|ix|lost|NOCONTENT = *1 :0
FT.SEARCH|ix|@g:{lost*}|NOCONTENT = *1 :0
DEL|b = :0
HSET|b|t|lost = :1
FT.SEARCH|ix|*|NOCONTENT = *4 :3 $1 a $1 c $1 b
FT.SEARCH|ix|@g:{lost*}|NOCONTENT = *2 :1 $1 b
DBSIZE = :3";

/// The number at which no event can begin.
const LAST: u64 = 4_611_686_018_427_387_904;

const REFUSED: &[u8] = b"-ERR last event reached\r\n";

/// Commands at the last event.
const LATE: &str = "PING
HGET|h|t
HSET|h|t|blue
DEL|h
FLUSHALL
FT.CREATE|ix|SCHEMA|t|TEXT
NOPE
HSET|h
SELECT|1
QUIT";

/// Whether all that is seen of the hash h, the index, the documents and the hash i is as a row has it.
fn is_seen(session: &mut Session, want: &[u8]) -> bool {
    session.ask(b"HGETALL|h", b'|');
    let Some(want) = behind(session.reply(), want) else {
        return false;
    };
    session.ask(b"FT.SEARCH|ix|red|NOCONTENT", b'|');
    let Some(want) = behind(session.reply(), want) else {
        return false;
    };
    session.ask(b"DBSIZE", b'|');
    let Some(want) = behind(session.reply(), want) else {
        return false;
    };
    session.ask(b"TYPE|i", b'|');
    is_spelled(session.reply(), want)
}

/// Whether a command, abandoned, is one event that leaves all as it was.
fn is_undone(alloc: Global, session: &mut Session, row: &[u8]) -> bool {
    let (line, said) = cut(row);
    let (want, deed) = cut(said);
    let number = session.next();
    let writes = session.prepare(alloc, line, false);
    writes == (deed == b"writes".as_slice())
        && is_spelled(session.reply(), want)
        && session.next().saturating_sub(number) == 1
        && is_seen(session, SEEN)
}

/// Whether a command, committed or abandoned, is one that writes or not, and what is seen then.
fn is_told(alloc: Global, session: &mut Session, row: &[u8]) -> bool {
    let (line, said) = cut(row);
    let (end, said) = cut(said);
    let (deed, want) = cut(said);
    let writes = session.prepare(alloc, line, end == b"committed".as_slice());
    writes == (deed == b"writes".as_slice()) && is_seen(session, want)
}

/// Whether a line is answered so.
fn is_answered(alloc: Global, session: &mut Session, row: &[u8]) -> bool {
    let (line, want) = cut(row);
    match line {
        [b'!', b' ', line @ ..] => {
            session.prepare(alloc, line, false);
        }
        _ => session.ask(line, b'|'),
    }
    is_spelled(session.reply(), want)
}

/// Whether a command is refused for the last event, also where it is prepared.
fn is_late(alloc: Global, session: &mut Session, line: &[u8]) -> bool {
    let is_last = session.next() == LAST;
    session.ask(line, b'|');
    let refused = session.reply() == REFUSED;
    let writes = session.prepare(alloc, line, true);
    is_last && refused && !writes && (session.reply().is_empty() || session.reply() == REFUSED)
}

/// Whether a row holds.
fn holds(alloc: Global, session: &mut Session, table: Table, row: &[u8]) -> bool {
    match table {
        Table::Abandoned => is_undone(alloc, session, row),
        Table::Committed => is_told(alloc, session, row),
        Table::Waiting => is_answered(alloc, session, row),
        Table::Late => is_late(alloc, session, row),
    }
}

/// How many rows hold until one does not.
fn holding(alloc: Global, session: &mut Session, table: Table, rows: &str) -> u64 {
    let mut count = 0u64;
    for row in rows.as_bytes().split(|byte| *byte == b'\n') {
        if !holds(alloc, session, table, row) {
            return count;
        }
        count = count.saturating_add(1);
    }
    count
}

/// The same for a new session that was asked some lines; for late commands its second event is the last.
fn holding_behind<R: RandomSource>(
    rt: &R,
    alloc: Global,
    fill: &[&[u8]],
    table: Table,
    rows: &str,
) -> u64 {
    let first = match table {
        Table::Late => LAST - 1,
        _ => 1,
    };
    let Ok(hashing) = RandomState::new(rt) else {
        return 0;
    };
    match begin_at(alloc, hashing, first) {
        Some(mut session) => {
            for line in fill {
                session.ask(line, b'|');
            }
            holding(alloc, &mut session, table, rows)
        }
        None => 0,
    }
}

#[test]
fn an_abandoned_command_leaves_all_as_it_was(rt: HostRuntime) {
    assert!(rt; holding_behind(&rt, rt.alloc(), FILL, Table::Abandoned, ABANDONED) == 26);
}

#[test]
fn a_committed_command_is_seen(rt: HostRuntime) {
    assert!(rt; holding_behind(&rt, rt.alloc(), FILL, Table::Committed, COMMITTED) == 8);
}

#[test]
fn an_abandoned_document_is_unseen(rt: HostRuntime) {
    assert!(rt; holding_behind(&rt, rt.alloc(), &[], Table::Waiting, WAITING) == 18);
}

#[test]
fn the_last_event_refuses_everything(rt: HostRuntime) {
    assert!(rt; holding_behind(&rt, rt.alloc(), &[b"HSET|h|t|red"], Table::Late, LATE) == 10);
}
