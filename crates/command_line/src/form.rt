//! What the words of the command line ask for.
ghost use Rattle.std.specs.Prelude.{◌≡◌, ◌⊎◌, Some, Ok, Err, List, map, string_bytes, true};
ghost use Rattle.clap.specs.Words.{subcommand_of, subcommand_rows_of};
ghost use Rattle.command_line.specs.Forms.{AreForm};
ghost use Rattle.command_line.specs.Line.{line};
ghost use Rattle.command_line.specs.declared.form.Form.{Form as Asked};
ghost use Rattle.command_line.specs.declared.form.WordFault.TheVariants as fault;

use crate::line::split;
use crate::texts::{load_in, script_in, serve_in};
use clap::ArgMatches;
use ft_base::NoMemory;
use std::alloc::Global;

/// A form of the command line.
#[derive(Clone, Copy)]
pub enum Form {
    /// Requests from standard input, replies to standard output.
    Script,
    /// The load of a seed and a number of documents, and four lines to standard output.
    Load { seed: u64, docs: u32 },
    /// Connections at a port of 127.0.0.1, at most as many at once as there are workers.
    Serve { port: u16, workers: u16 },
}

/// Why words give no form.
#[derive(Clone, Copy)]
pub enum WordFault {
    /// They are none.
    Usage,
    /// Out of memory for splitting them.
    NoMemory,
}

impl From<NoMemory> for WordFault {
    ghost from_gives = { λ _ made. made ≡ fault.NoMemory };

    fn from(_: NoMemory) -> WordFault {
        WordFault::NoMemory
    }
}

/// The form of the words behind the program's name.
///
/// To split them takes memory, so any words may be answered by want of it: words that are a form give that form or
/// `NoMemory`, and words that are none give `Usage` or `NoMemory`.
pub fn read_words(alloc: Global, words: &[String]) -> Result<Form, WordFault>
    ensures form { (form : Asked) → result ≡ Ok form → AreForm words.now form }
    ensures usage { result ≡ Err WordFault.Usage → (form : Asked) → AreForm words.now form → ⊥ }
    ensures read { (form : Asked) → AreForm words.now form
        → (result ≡ Ok form) ⊎ (result ≡ Err WordFault.NoMemory) }
{
    // To clap these are flags; no form has any.
    if has_flag(words) {
        return Err(WordFault::Usage);
    }
    match split(alloc, words) {
        Ok(found) => form_in(&found, words).ok_or(WordFault::Usage),
        Err(fault) => Err(fault),
    }
}

/// Whether a word begins as a flag does.
fn has_flag(words: &[String]) -> bool
    ensures { result ≡ true → (form : Asked) → AreForm words.now form → ⊥ }
{
    for word in words {
        if word.as_str().starts_with('-') {
            return true;
        }
    }
    false
}

/// The form that was found, where the words are just its name and its texts, and these are its numbers.
fn form_in(found: &ArgMatches<'_>, words: &[String]) -> Option<Form>
    ensures form { (form : Asked) → result ≡ Some form → AreForm words.now form }
    ensures read { (form : Asked) → AreForm words.now form
        → subcommand_rows_of found.now ≡ subcommand_of line (map string_bytes words.now)
        → result ≡ Some form }
{
    let (name, texts) = found.subcommand()?;
    if name == "script" {
        script_in(words)
    } else if name == "load" {
        load_in(texts, words)
    } else if name == "serve" {
        serve_in(texts, words)
    } else {
        None
    }
}
