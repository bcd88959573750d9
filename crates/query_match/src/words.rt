//! What a part of a query asks of the words of one field.
ghost use Rattle.std.specs.Prelude.{◌≡◌, IfOk};
ghost use Rattle.ft_meaning.specs.Meaning.{has_word};
ghost use Rattle.ft_meaning.specs.Holds.{has_prefix, places_of, has_phrase};
ghost use Rattle.query_match.specs.Places.{PlacesRise};
ghost use Rattle.query_match.specs.Wanted.{is_met};

use ft_base::{Bytes, ListOf, NoMemory};
use phrase_match::within;
use std::alloc::Global;
use token_text::TextTokens;

/// A part of a query that asks for words.
#[derive(Clone, Copy)]
pub enum Wanted<'a> {
    Word(&'a [u8]),
    /// A word that begins so.
    Prefix(&'a [u8]),
    Phrase {
        words: &'a [Bytes],
        slop: Option<u32>,
        in_order: bool,
    },
}

/// Whether it is met by the tokens of a field.
pub fn is_met(alloc: Global, wanted: Wanted, found: &TextTokens) -> Result<bool, NoMemory>
    requires { PlacesRise found.now }
    ensures { IfOk result (λ met. met ≡ is_met wanted.entry found.now) }
{
    match wanted {
        Wanted::Word(text) => Ok(has_word(found, text)),
        Wanted::Prefix(text) => Ok(has_prefix(found, text)),
        Wanted::Phrase {
            words,
            slop,
            in_order,
        } => Ok(has_phrase(alloc, found, words, slop, in_order)?),
    }
}

fn has_word(found: &TextTokens, text: &[u8]) -> bool
    ensures { result ≡ has_word text.now found.now }
{
    for i in 0..found.len() {
        if text == found.word(i) {
            return true;
        }
    }
    false
}

fn has_prefix(found: &TextTokens, text: &[u8]) -> bool
    ensures { result ≡ has_prefix text.now found.now }
{
    for i in 0..found.len() {
        if found.word(i).starts_with(text) {
            return true;
        }
    }
    false
}

fn has_phrase(
    alloc: Global,
    found: &TextTokens,
    words: &[Bytes],
    slop: Option<u32>,
    in_order: bool,
) -> Result<bool, NoMemory>
    requires { PlacesRise found.now }
    ensures { IfOk result (λ met. met ≡ has_phrase words.now slop in_order found.now) }
{
    let mut lists = ListOf::new(alloc);
    'words: for word in words {
        let places = places_of(alloc, found, word.as_slice())?;
        if places.len() == 0 {
            return Ok(false);
        }
        lists.push(places)?;
    }
    Ok(within(&lists, slop, in_order))
}

fn places_of(alloc: Global, found: &TextTokens, word: &[u8]) -> Result<ListOf<u32>, NoMemory>
    ensures { IfOk result (λ places. places ≡ places_of found.now word.now) }
{
    let mut places = ListOf::new(alloc);
    for i in 0..found.len() {
        if word == found.word(i) {
            places.push(i as u32 + 1)?;
        }
    }
    Ok(places)
}
