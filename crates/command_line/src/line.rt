//! What clap is told of the command line, and the words that it splits.
ghost use Rattle.std.specs.Prelude.{◌≡◌, IfOk, IfErr, codes, map, string_bytes, true, false};
ghost use Rattle.clap.specs.Words.{app_of, new_app, rule_of, subcommand_of, subcommand_rows_of, takes, with_subcommand};
ghost use Rattle.clap.specs.declared.builder.command.Command.TheViews.{out-Command as fields_of};
ghost use Rattle.clap.specs.declared.error.kind.ErrorKind.TheVariants.{OutOfMemory};
ghost use Rattle.command_line.specs.Line.{bare, line, needed, with_two};

use crate::form::WordFault;
use clap::error::ErrorKind;
use clap::{Arg, ArgAction, ArgMatches, Command};
use ft_base::NoMemory;
use std::alloc::Global;

/// The form that the words name, with its texts.
pub(crate) fn split<'a>(alloc: Global, words: &'a [String]) -> Result<ArgMatches<'a>, WordFault>
    ensures found { IfOk result (λ found.
        subcommand_rows_of found ≡ subcommand_of line (map string_bytes words.entry.now)) }
    // Words that clap takes are refused for want of memory alone.
    ensures taken { IfErr result (λ fault.
        takes line (map string_bytes words.entry.now) ≡ true → fault ≡ WordFault.NoMemory) }
{
    let line = line(alloc)?;
    match line.try_get_matches_from(words) {
        Ok(found) => Ok(found),
        Err(error) => Err(fault_of(error.kind())),
    }
}

/// Every refusal of clap but want of memory is one of the words.
fn fault_of(kind: ErrorKind) -> WordFault
    ensures { kind ≡ ErrorKind.OutOfMemory → result ≡ WordFault.NoMemory }
{
    match kind {
        ErrorKind::OutOfMemory => WordFault::NoMemory,
        _ => WordFault::Usage,
    }
}

/// A command with a subcommand for each form.
fn line<'a>(alloc: Global) -> Result<Command<'a>, NoMemory>
    ensures { IfOk result (λ command. app_of command ≡ line) }
{
    let line = with_script(alloc)?;
    let line = and_two(alloc, line, "load", "seed", "docs")?;
    and_two(alloc, line, "serve", "port", "workers")
}

/// The command with one more form, of this name and two texts.
fn and_two<'a>(
    alloc: Global,
    line: Command<'a>,
    name: &'a str,
    first: &'a str,
    second: &'a str,
) -> Result<Command<'a>, NoMemory>
    ensures { IfOk result (λ command. app_of command ≡ with_subcommand (app_of line.entry)
        (with_two name.entry.now first.entry.now second.entry.now).top) }
{
    line.subcommand(with_two(alloc, name, first, second)?)
}

/// The command with the form of one word alone.
fn with_script<'a>(alloc: Global) -> Result<Command<'a>, NoMemory>
    ensures { IfOk result (λ command. app_of command ≡ with_subcommand bare (new_app (codes "script")).top) }
{
    bare(alloc).subcommand(Command::new(alloc, "script"))
}

/// The command without its forms: its words begin with the form's name, and none of them asks for help.
fn bare<'a>(alloc: Global) -> Command<'a>
    ensures { app_of result ≡ bare }
{
    Command::new(alloc, "rsearch")
        .no_binary_name(true)
        .disable_help_flag(true)
        .disable_version_flag(true)
        .disable_help_subcommand(true)
}

/// A form of this name with two texts.
fn with_two<'a>(
    alloc: Global,
    name: &'a str,
    first: &'a str,
    second: &'a str,
) -> Result<Command<'a>, NoMemory>
    ensures app { IfOk result (λ command. app_of command
        ≡ with_two name.entry.now first.entry.now second.entry.now) }
    ensures local { IfOk result (λ command. (fields_of command).has_globals ≡ false) }
{
    Command::new(alloc, name)
        .arg(needed(alloc, first))?
        .arg(needed(alloc, second))
}

/// One text, which has to be there.
fn needed<'a>(alloc: Global, name: &'a str) -> Arg<'a>
    ensures rule { rule_of result ≡ needed name.entry.now }
    ensures local { result.global ≡ false }
{
    Arg::new(alloc, name).required(true).action(ArgAction::Set)
}
