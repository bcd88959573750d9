//! Sessions of commands with the reply that each expects, run through the server and compared.
//!
//! Standard input has the sessions. `== NAME` begins one, which runs in a fresh server; each further line is
//! a row of `row_text`, a command and its reply. A row that begins with `N..M` stands for one row for each of
//! these numbers, with `{}` in its words and its reply replaced by the number. A word with braces may stand for
//! many words, or for a long one: `spread.rt` says how. `@ N` is the moment, in milliseconds, of each command
//! behind it. Each session is run twice: over a link in memory, and over one that holds back what is written, as
//! the program has it. A line that begins with `~` or `~~` is a link of its own: `links.rt` has these. One that begins with
//! `?` or `$` is a command line: `command_lines.rt` has these. Each row that is answered otherwise is told, and the last
//! line counts them.
#![tactic(auto)]

mod command_lines;
mod links;
mod spread;

use crate::spread::{numbers_in, put_count, put_spread, words_of_spread};
use fs_ports::{Failed, HeldLink, Link, MemLink, ScriptedClock};
use ft_base::{Bytes, ListOf, NoMemory, put_int, read_int};
use ft_server::{Exit, run};
use row_text::{Row, fits, put_lines, read_reply, read_row, wanted_lines};
use std::alloc::Global;
use std::hash::RandomState;
use std::io;
use std::sync::Wait;

/// The most bytes that are shown of what came.
const MOST_SHOWN: usize = 400;

/// The most bytes that a link takes in one write.
const WRITE_MAX: usize = 1_000;

/// A name, and the commands of one server from its start, each at a moment in milliseconds.
#[derive(Drop)]
struct Session {
    name: String,
    rows: Vec<Row>,
    /// The moment of each row.
    moments: Vec<u64>,
    /// That of the rows to come.
    moment: u64,
}

/// What was run so far, how many rows were answered otherwise, and what is told of these.
#[derive(Drop)]
struct Tally {
    sessions: u64,
    rows: u64,
    differ: u64,
    told: Vec<u8>,
}

fn main(rt: HostRuntime) -> io::Result<()> {
    let text = io::read_to_string(rt.alloc(), rt.reader())?;
    let hashing = RandomState::new(&rt)?;
    let tally = run_all(&rt, rt.alloc(), hashing, text.as_str())?;
    print(&rt, &tally)
}

// Prints what is told of the rows that differ, and the counts.
fn print(rt: &HostRuntime, tally: &Tally) -> io::Result<()> {
    let told = std::str::from_utf8(tally.told.as_slice()).unwrap_or("?");
    println!(rt;
        "{told}{} sessions, {} rows, {} differ",
        tally.sessions, tally.rows, tally.differ
    )
}

// Runs the sessions of a text.
fn run_all<R: Wait>(
    rt: &R,
    alloc: Global,
    hashing: RandomState,
    text: &str,
) -> Result<Tally, NoMemory> {
    let mut tally = no_tally(alloc);
    run_lines(rt, alloc, hashing, text, &mut tally)?;
    Ok(tally)
}

fn run_lines<R: Wait>(
    rt: &R,
    alloc: Global,
    hashing: RandomState,
    text: &str,
    tally: &mut Tally,
) -> Result<(), NoMemory> {
    let mut session = no_session(alloc);
    for line in text.lines() {
        take_line(rt, alloc, hashing, line, &mut session, tally)?;
    }
    end_session(rt, alloc, hashing, &mut session, tally)
}

// A session without a name and rows, as before the first one.
fn no_session(alloc: Global) -> Session {
    Session {
        name: String::new(alloc),
        rows: Vec::new(alloc),
        moments: Vec::new(alloc),
        moment: 0,
    }
}

fn no_tally(alloc: Global) -> Tally {
    Tally {
        sessions: 0,
        rows: 0,
        differ: 0,
        told: Vec::new(alloc),
    }
}

// Begins another session where the line has its name, runs a link's row, and else takes the line as one of the session.
fn take_line<R: Wait>(
    rt: &R,
    alloc: Global,
    hashing: RandomState,
    line: &str,
    session: &mut Session,
    tally: &mut Tally,
) -> Result<(), NoMemory> {
    if let Some(name) = line.strip_prefix("== ") {
        return begin_session(rt, alloc, hashing, name, session, tally);
    }
    if let Some(row) = line.strip_prefix("~~ ") {
        return links::judge(rt, alloc, hashing, row, true, tally);
    }
    match line.strip_prefix("~ ") {
        Some(row) => links::judge(rt, alloc, hashing, row, false, tally),
        None => take_other(rt, alloc, hashing, line, session, tally),
    }
}

// Runs a command line's row, and else takes the line as one of the session.
fn take_other<R: Wait>(
    rt: &R,
    alloc: Global,
    hashing: RandomState,
    line: &str,
    session: &mut Session,
    tally: &mut Tally,
) -> Result<(), NoMemory> {
    if let Some(row) = line.strip_prefix("? ") {
        return command_lines::judge_form(alloc, row, tally);
    }
    match line.strip_prefix("$ ") {
        Some(row) => command_lines::judge_run(rt, alloc, hashing, row, tally),
        None => take_session_line(alloc, line, session),
    }
}

fn begin_session<R: Wait>(
    rt: &R,
    alloc: Global,
    hashing: RandomState,
    name: &str,
    session: &mut Session,
    tally: &mut Tally,
) -> Result<(), NoMemory> {
    end_session(rt, alloc, hashing, session, tally)?;
    session.name.push_str(name)
}

// Takes the moment of the rows to come, where the line has one, and else adds the line's rows.
fn take_session_line(alloc: Global, line: &str, session: &mut Session) -> Result<(), NoMemory> {
    if let Some(moment) = moment_of(line) {
        session.moment = moment;
        return Ok(());
    }
    put_rows(alloc, line, &mut session.rows)?;
    put_moments(session)
}

// The moment that a line has, where it has one.
fn moment_of(line: &str) -> Option<u64> {
    let number = read_int(line.strip_prefix("@ ")?.as_bytes())?;
    u64::try_from(number).ok()
}

// Gives each row that has none yet the moment of now.
fn put_moments(session: &mut Session) -> Result<(), NoMemory> {
    for _ in session.moments.len()..session.rows.len() {
        session.moments.push(session.moment)?;
    }
    Ok(())
}

// Runs a session that has rows, and leaves one without.
fn end_session<R: Wait>(
    rt: &R,
    alloc: Global,
    hashing: RandomState,
    session: &mut Session,
    tally: &mut Tally,
) -> Result<(), NoMemory> {
    if !session.rows.is_empty() {
        tally.sessions = tally.sessions.saturating_add(1);
        run_session(rt, alloc, hashing, session, tally)?;
    }
    session.name.clear();
    session.rows.clear();
    session.moments.clear();
    session.moment = 0;
    Ok(())
}

// Appends the rows that a line stands for.
fn put_rows(alloc: Global, line: &str, rows: &mut Vec<Row>) -> Result<(), NoMemory> {
    let Some(row) = read_row(alloc, line.as_bytes())? else {
        return Ok(());
    };
    match numbers_of(row.words.as_slice()) {
        Some((first, last)) => put_numbered(alloc, &row, first, last, rows),
        None => push_row(row, rows),
    }
}

fn push_row(row: Row, rows: &mut Vec<Row>) -> Result<(), NoMemory> {
    rows.push(row)?;
    Ok(())
}

// The numbers that a row begins with.
fn numbers_of(words: &[Vec<u8>]) -> Option<(i64, i64)> {
    numbers_in(words.first()?.as_slice())
}

// Appends the row of each number.
fn put_numbered(
    alloc: Global,
    row: &Row,
    first: i64,
    last: i64,
    rows: &mut Vec<Row>,
) -> Result<(), NoMemory> {
    for number in first..=last {
        push_row(numbered(alloc, row, number)?, rows)?;
    }
    Ok(())
}

// The row of a number.
fn numbered(alloc: Global, row: &Row, number: i64) -> Result<Row, NoMemory> {
    let words = words_with(alloc, row.words.as_slice(), number)?;
    let want = with_number(alloc, row.want.as_slice(), number)?;
    Ok(Row { words, want })
}

// The words behind the numbers that a row begins with.
fn words_with(alloc: Global, words: &[Vec<u8>], number: i64) -> Result<Vec<Vec<u8>>, NoMemory> {
    let mut all = Vec::new(alloc);
    for word in words.iter().skip(1) {
        all.push(with_number(alloc, word.as_slice(), number)?)?;
    }
    Ok(all)
}

fn with_number(alloc: Global, text: &[u8], number: i64) -> Result<Vec<u8>, NoMemory> {
    let mut out = Vec::new(alloc);
    let mut rest = text;
    for _ in 0..text.len() {
        rest = put_first(&mut out, rest, number)?;
    }
    Ok(out)
}

// Appends the first byte of a text, or the number for a place that is left for it, and answers the rest.
fn put_first<'a>(out: &mut Vec<u8>, text: &'a [u8], number: i64) -> Result<&'a [u8], NoMemory> {
    match text {
        [b'{', b'}', rest @ ..] => {
            put_int(out, number)?;
            Ok(rest)
        }
        [byte, rest @ ..] => {
            out.push(*byte)?;
            Ok(rest)
        }
        [] => Ok(text),
    }
}

// Runs a session, and compares its replies one by one.
fn run_session<R: Wait>(
    rt: &R,
    alloc: Global,
    hashing: RandomState,
    session: &Session,
    tally: &mut Tally,
) -> Result<(), NoMemory> {
    let mut out = Vec::new(alloc);
    let exit = answer(rt, alloc, hashing, session, &mut out)?;
    check_held(rt, alloc, hashing, session, out.as_slice(), tally)?;
    check_session(alloc, session, out.as_slice(), exit, tally)
}

// Runs a session once more, over a link that holds back what is written, and tells where other bytes come.
fn check_held<R: Wait>(
    rt: &R,
    alloc: Global,
    hashing: RandomState,
    session: &Session,
    replies: &[u8],
    tally: &mut Tally,
) -> Result<(), NoMemory> {
    let link = link_for(alloc, session.rows.as_slice())?;
    let (exit, output) = script_held(rt, alloc, hashing, session.moments.as_slice(), link)?;
    if exit == Exit::Done && output.as_slice() == replies {
        return Ok(());
    }
    let name = session.name.as_bytes();
    tell_of(
        tally,
        name,
        b": has other replies where they are held back\n",
    )
}

// Appends what the server writes where it is sent the rows, and answers how it ended.
fn answer<R: Wait>(
    rt: &R,
    alloc: Global,
    hashing: RandomState,
    session: &Session,
    out: &mut Vec<u8>,
) -> Result<Exit, NoMemory> {
    let mut link = link_for(alloc, session.rows.as_slice())?;
    let exit = script(rt, alloc, hashing, session.moments.as_slice(), &mut link);
    out.extend_from_slice(link.output())?;
    Ok(exit)
}

// A link that gives the commands of these rows.
fn link_for(alloc: Global, rows: &[Row]) -> Result<MemLink, NoMemory> {
    link_over(alloc, requests_of(alloc, rows)?)
}

// All commands of a session as a client sends them.
fn requests_of(alloc: Global, rows: &[Row]) -> Result<Vec<u8>, NoMemory> {
    let mut requests = Vec::new(alloc);
    for row in rows {
        put_request(alloc, &mut requests, row.words.as_slice())?;
    }
    Ok(requests)
}

fn put_request(alloc: Global, out: &mut Vec<u8>, words: &[Vec<u8>]) -> Result<(), NoMemory> {
    let mut count = 0usize;
    for word in words {
        count = count.saturating_add(words_of_spread(word.as_slice()));
    }
    put_count(out, b'*', count)?;
    for word in words {
        put_spread(alloc, out, word.as_slice())?;
    }
    Ok(())
}

// A link that gives the requests in one piece, and whose calls do not fail.
fn link_over(alloc: Global, requests: Vec<u8>) -> Result<MemLink, NoMemory> {
    let mut pieces = ListOf::new(alloc);
    pieces.push(Bytes::from_vec(requests))?;
    let no_reads = ListOf::new(alloc);
    MemLink::new(alloc, pieces, no_reads, ListOf::new(alloc), WRITE_MAX)
}

// Serves the link, with a moment for each command.
fn script<R: Wait, L: Link>(
    rt: &R,
    alloc: Global,
    hashing: RandomState,
    moments: &[u64],
    link: &mut L,
) -> Exit
    requires prompt { (any : L) → L.readable any }
{
    let Ok(words) = words_of(alloc, "script") else {
        return Exit::NoMemory;
    };
    let Ok(mut clock) = clock_of(alloc, moments) else {
        return Exit::NoMemory;
    };
    run(rt, alloc, hashing, words.as_slice(), link, &mut clock)
}

// The same over a link that holds back what is written, as the program has it. What is held at the end goes on then.
fn script_held<R: Wait>(
    rt: &R,
    alloc: Global,
    hashing: RandomState,
    moments: &[u64],
    link: MemLink,
) -> Result<(Exit, Vec<u8>), NoMemory> {
    let mut link = HeldLink::over(alloc, link)?;
    let exit = script(rt, alloc, hashing, moments, &mut link);
    let exit = match link.finish() {
        Ok(()) => exit,
        Err(Failed) => Exit::WriteFault,
    };
    Ok((exit, Vec::from_slice(alloc, link.below().output())?))
}

// A clock of these moments, and one behind them, for which nobody asks: a clock has one at least.
fn clock_of(alloc: Global, moments: &[u64]) -> Result<ScriptedClock, NoMemory> {
    let mut all = ListOf::from_vec(moments.to_vec(alloc)?);
    all.push(0)?;
    Ok(ScriptedClock::new(all))
}

// A command line of one word.
fn words_of(alloc: Global, word: &str) -> Result<Vec<String>, NoMemory> {
    let mut words = Vec::new(alloc);
    words.push(String::from_str(alloc, word)?)?;
    Ok(words)
}

// Compares the replies with what the rows want, and how the server ended.
fn check_session(
    alloc: Global,
    session: &Session,
    replies: &[u8],
    exit: Exit,
    tally: &mut Tally,
) -> Result<(), NoMemory> {
    let name = session.name.as_bytes();
    let mut rest = replies;
    for row in &session.rows {
        rest = check_row(alloc, name, row, rest, tally)?;
    }
    if exit == Exit::Done && rest.is_empty() {
        return Ok(());
    }
    tell_of(tally, name, b": does not end with its last row\n")
}

// Counts a session, and tells what is otherwise in it.
fn tell_of(tally: &mut Tally, name: &[u8], what: &[u8]) -> Result<(), NoMemory> {
    tally.differ = tally.differ.saturating_add(1);
    tally.told.extend_from_slice(name)?;
    tally.told.extend_from_slice(what)
}

// Compares the first reply with what the row wants, and answers the replies behind it.
fn check_row<'a>(
    alloc: Global,
    name: &[u8],
    row: &Row,
    replies: &'a [u8],
    tally: &mut Tally,
) -> Result<&'a [u8], NoMemory> {
    let mut came = Vec::new(alloc);
    let rest = read_reply(alloc, replies, &mut came)?;
    compare_row(alloc, name, row, came.as_slice(), tally)?;
    Ok(rest)
}

// Counts a row, and tells of it where other lines came than it wants.
fn compare_row(
    alloc: Global,
    name: &[u8],
    row: &Row,
    came: &[Vec<u8>],
    tally: &mut Tally,
) -> Result<(), NoMemory> {
    tally.rows = tally.rows.saturating_add(1);
    if is_wanted(alloc, row.want.as_slice(), came)? {
        return Ok(());
    }
    tally.differ = tally.differ.saturating_add(1);
    tell(&mut tally.told, name, row, came)
}

fn is_wanted(alloc: Global, want: &[u8], came: &[Vec<u8>]) -> Result<bool, NoMemory> {
    let want = wanted_lines(alloc, want)?;
    Ok(fits(want.as_slice(), came))
}

// Tells of a row that was answered otherwise.
fn tell(out: &mut Vec<u8>, name: &[u8], row: &Row, came: &[Vec<u8>]) -> Result<(), NoMemory> {
    out.extend_from_slice(name)?;
    out.extend_from_slice(b": ")?;
    put_row(out, row)?;
    out.extend_from_slice(b"\n    came: ")?;
    put_shown(out, came)?;
    out.extend_from_slice(b"\n")
}

fn put_row(out: &mut Vec<u8>, row: &Row) -> Result<(), NoMemory> {
    put_lines(out, row.words.as_slice())?;
    out.extend_from_slice(b" | ")?;
    out.extend_from_slice(row.want.as_slice())
}

// Appends lines as a row has them, shortened.
fn put_shown(out: &mut Vec<u8>, lines: &[Vec<u8>]) -> Result<(), NoMemory> {
    let most = out.len().saturating_add(MOST_SHOWN);
    put_lines(out, lines)?;
    out.truncate(most);
    Ok(())
}
