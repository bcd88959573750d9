//! FT.CURSOR: a cursor is read or deleted. Its words are those of `specs/Cursor.antt`, and they are
//! read without memory.
ghost use Rattle.std.specs.Prelude.{◌≡◌, ◌≢◌, ◌≤◌, length, drop, Err, IfOk};
ghost use Rattle.cmd_parse.specs.Cursor.{asked_by, cursor, cursor_at, read_by, rows_at, subcommand_of};
ghost use Rattle.cmd_parse.specs.Gives.{Gives};
ghost use Rattle.cmd_parse.specs.Lawful.{IsLawful};
ghost use Rattle.cmd_parse.specs.Reading.{asked_of, command_of};
ghost use Rattle.cmd_parse.specs.declared.command.CmdFault.TheVariants as faults;
ghost use Rattle.cmd_parse.specs.declared.stop.Stop.TheVariants.{NoMemory};
ghost use Rattle.ft_base.specs.declared.limits.TheConstants.{MAX_WORDS};

use crate::aggregate_words::{MAX_COUNT, limited};
use crate::command::{CmdFault, Command};
use crate::options::is_at_end;
use crate::reading::{fault, number};
use crate::search::placed;
use crate::stop::{Cause, Stop};
use ft_base::{Words, is_name};

/// The word behind FT.CURSOR.
#[derive(Clone, Copy)]
pub enum Subcommand {
    Read,
    Del,
}

/// Reads FT.CURSOR. The index is lent.
pub fn read_cursor<'a>(words: &Words<'a>) -> Result<Command<'a>, CmdFault>
    requires number { 4 ≤ length words.now }
    requires limit { length words.now ≤ MAX_WORDS }
    ensures exact { asked_of result ≡ cursor words.now }
    ensures memory { result ≢ Err faults.NoMemory }
    ensures lawful { IfOk result (λ command. IsLawful words.now (command_of command)) }
{
    match cursor(words) {
        Ok(command) => Ok(command),
        Err(stop) => Err(placed(words.len(), stop)),
    }
}

/// The words behind the command's name.
fn cursor<'a>(words: &Words<'a>) -> Result<Command<'a>, Stop>
    requires { 4 ≤ length words.now }
    ensures read { Gives command_of result (cursor_at (drop 1 words.now)) }
    ensures memory { result ≢ Err NoMemory }
    ensures lawful { IfOk result (λ command. IsLawful words.now (command_of command)) }
{
    let Some(name) = subcommand_of(words.word(1)) else {
        return Err(fault(Cause::Syntax, &words.rest(1)));
    };
    let (id, rest) = match number(&words.rest(3)) {
        Ok(read) => read,
        Err(stop) => return Err(stop),
    };
    asked_by(name, words.word(2), id as u64, &rest)
}

/// The subcommand that a word names.
fn subcommand_of(word: &[u8]) -> Option<Subcommand>
    ensures { result ≡ subcommand_of word.now }
{
    if is_name(word, b"READ") {
        Some(Subcommand::Read)
    } else if is_name(word, b"DEL") {
        Some(Subcommand::Del)
    } else {
        None
    }
}

/// What a subcommand asks of a cursor, with these words behind its id.
fn asked_by<'a>(
    name: Subcommand,
    index: &'a [u8],
    id: u64,
    words: &Words<'a>,
) -> Result<Command<'a>, Stop>
    ensures read { Gives command_of result (asked_by name index.now id words.now) }
    ensures memory { result ≢ Err NoMemory }
{
    match name {
        Subcommand::Read => read(index, id, words),
        Subcommand::Del if is_at_end(words) => Ok(Command::CursorDel { index, id }),
        Subcommand::Del => Err(fault(Cause::Syntax, words)),
    }
}

/// READ: COUNT and how many rows, or nothing.
fn read<'a>(index: &'a [u8], id: u64, words: &Words<'a>) -> Result<Command<'a>, Stop>
    ensures read { Gives command_of result (read_by index.now id words.now) }
    ensures memory { result ≢ Err NoMemory }
{
    let (count, rest) = match rows(words) {
        Ok(read) => read,
        Err(stop) => return Err(stop),
    };
    if !is_at_end(&rest) {
        return Err(fault(Cause::Syntax, &rest));
    }
    Ok(Command::CursorRead { index, id, count })
}

/// COUNT and how many rows, where it follows.
fn rows<'a>(words: &Words<'a>) -> Result<(Option<u32>, Words<'a>), Stop>
    ensures read { Gives (λ x. x) result (rows_at words.now) }
    ensures memory { result ≢ Err NoMemory }
{
    match words.split_first() {
        Some((word, rest)) if is_name(word, b"COUNT") => {
            let (count, behind) = match limited(MAX_COUNT, &rest) {
                Ok(read) => read,
                Err(stop) => return Err(stop),
            };
            Ok((Some(count as u32), behind))
        }
        _ => Ok((None, words.rest(0))),
    }
}
