//! A command from its words, in the order of refusals: an unknown name, a wrong number of words, and the first fault of
//! the words from the left.
ghost use Rattle.std.specs.Prelude.{◌≡◌, ◌≢◌, ◌<◌, ◌≤◌, [], length, drop, slice_index_or, Err, Some, IfOk};
ghost use Rattle.cmd_parse.specs.Asking.{AreWords, IsAsked};
ghost use Rattle.cmd_parse.specs.Commands.{form_of};
ghost use Rattle.cmd_parse.specs.Lawful.{HasSerial, IsLawful, IsLawfulForm, LawfulNumber};
ghost use Rattle.cmd_parse.specs.Read.{first_fault, is_flush_word, plain, select_fault};
ghost use Rattle.cmd_parse.specs.Reading.{IsReading, asked_of, command_of};
ghost use Rattle.ft_base.specs.Number.{int_of};
ghost use Rattle.ft_base.specs.declared.limits.TheConstants.{MAX_WORDS};

use crate::command::{CmdFault, Command, Verb};
use crate::copied::{aggregate, alter, create, search};
use crate::cursor::read_cursor;
use crate::table::{Form, fits, form_of};
use ft_base::{Words, is_name, read_int};
use std::alloc::Global;

/// Reads a command. An index that it creates gets the serial. Only the words of a schema, the options
/// of a search and the parts of an aggregate are read with memory; all else is lent from the words.
pub fn read_command<'a>(
    alloc: Global,
    words: Words<'a>,
    serial: u64,
) -> Result<Command<'a>, CmdFault>
    requires some { 0 < length words }
    requires limit { length words ≤ MAX_WORDS }
    ensures exact { IsReading serial words.entry result }
    ensures lawful { IfOk result (λ command. IsLawful words.entry (command_of command)) }
    ensures serial { IfOk result (λ command. HasSerial serial (command_of command)) }
    ensures asked { AreWords words.entry → IfOk result (λ command. IsAsked (command_of command)) }
{
    let Some(form) = form_of(words.word(0)) else {
        return Err(CmdFault::Unknown);
    };
    read_as(alloc, form, &words, serial)
}

/// A command of this form.
fn read_as<'a>(
    alloc: Global,
    form: Form,
    words: &Words<'a>,
    serial: u64,
) -> Result<Command<'a>, CmdFault>
    requires some { 0 < length words.now }
    requires limit { length words.now ≤ MAX_WORDS }
    requires named { form_of (slice_index_or words.now 0 []) ≡ Some form }
    requires form { IsLawfulForm form }
    ensures exact { IsReading serial words.now result }
    ensures lawful { IfOk result (λ command. IsLawful words.now (command_of command)) }
    ensures serial { IfOk result (λ command. HasSerial serial (command_of command)) }
    ensures asked { AreWords words.now → IfOk result (λ command. IsAsked (command_of command)) }
{
    if !fits(form, words.len()) {
        return Err(CmdFault::Arity);
    }
    match form {
        Form::Between(verb, _, _) => plain(verb, words),
        Form::AtLeast(verb, _) => plain(verb, words),
        Form::InPairs(verb, _) => plain(verb, words),
        Form::Create(_) => create(alloc, words, serial),
        Form::Alter(_) => alter(alloc, words),
        Form::Search(_) => search(alloc, words),
        Form::Aggregate(_) => aggregate(alloc, words),
        Form::Cursor(_) => read_cursor(words),
    }
}

/// A plain command of a lawful number of words.
fn plain<'a>(verb: Verb, words: &Words<'a>) -> Result<Command<'a>, CmdFault>
    requires some { 0 < length words.now }
    requires number { LawfulNumber verb (length (drop 1 words.now)) }
    ensures exact { asked_of result ≡ plain verb (drop 1 words.now) }
    ensures memory { result ≢ Err CmdFault.NoMemory }
    ensures lawful { IfOk result (λ command. IsLawful words.now (command_of command)) }
{
    let args = words.rest(1);
    match first_fault(verb, &args) {
        Some(fault) => Err(fault),
        None => Ok(Command::Plain { verb, args }),
    }
}

/// The first fault among the arguments of a plain command.
fn first_fault(verb: Verb, args: &Words<'_>) -> Option<CmdFault>
    requires { LawfulNumber verb (length args.now) }
    ensures { result ≡ first_fault verb args.now }
{
    match verb {
        Verb::Select => select_fault(args.word(0)),
        Verb::Hincrby if read_int(args.word(2)).is_none() => Some(CmdFault::NotInteger),
        Verb::Flushall if args.len() == 1 && !is_flush_word(args.word(0)) => {
            Some(CmdFault::Syntax { at: 1 })
        }
        Verb::DropIndex if args.len() == 2 && !is_name(args.word(1), b"DD") => {
            Some(CmdFault::Syntax { at: 2 })
        }
        Verb::Debug if !is_name(args.word(0), b"GC_FORCEINVOKE") => {
            Some(CmdFault::Syntax { at: 1 })
        }
        _ => None,
    }
}

/// The fault of SELECT's word, which has to be 0.
fn select_fault(index: &[u8]) -> Option<CmdFault>
    ensures { result ≡ select_fault (int_of index.now) }
{
    match read_int(index) {
        None => Some(CmdFault::NotInteger),
        Some(index) if index != 0 => Some(CmdFault::BadDb),
        Some(_) => None,
    }
}

/// Whether a word is one that FLUSHALL may have behind it.
fn is_flush_word(word: &[u8]) -> bool
    ensures { result ≡ is_flush_word word.now }
{
    is_name(word, b"ASYNC") || is_name(word, b"SYNC")
}
