//! What a command's name and its number of words say of it, before its words are read.
ghost use Rattle.std.specs.Prelude.{◌≡◌, ◌<◌, ℕ, length};
ghost use Rattle.cmd_parse.specs.Fits.{is_of_session, name_fit};

use crate::table::{fits, form_of};
use ft_base::{NameFit, Words, is_name};

/// Whether a command's name is known and its number of words lawful. The names of transactions count, each alone.
pub fn name_fit(words: Words<'_>) -> NameFit
    requires some { 0 < length words }
    // Reading knows nothing of transactions, and it gives every number of an event the same fit.
    ensures exact { (serial : ℕ) → result ≡ name_fit serial words.entry }
{
    let name = words.word(0);
    let count = words.len();
    if is_of_session(name) {
        return if count == 1 {
            NameFit::Fits
        } else {
            NameFit::Arity
        };
    }
    match form_of(name) {
        None => NameFit::Unknown,
        Some(form) if fits(form, count) => NameFit::Fits,
        Some(_) => NameFit::Arity,
    }
}

/// Whether a word is the name of a command that a caller's session takes, and no event is.
fn is_of_session(name: &[u8]) -> bool
    ensures { result ≡ is_of_session name.now }
{
    is_name(name, b"MULTI") || is_name(name, b"EXEC") || is_name(name, b"DISCARD")
}
