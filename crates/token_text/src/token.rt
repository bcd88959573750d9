//! The words of a text: cut at separators, lowered, stop words dropped, the others numbered.
ghost use Rattle.std.specs.Prelude.{◌≡◌, ◌≤◌, ◌+◌, ℕ, [], ◌∷◌, ◌++◌, length, take, if◌then◌else◌, IfOk, OnOk};
ghost use Rattle.ft_base.specs.declared.limits.TheConstants.{MAX_WORD_BYTES};
ghost use Rattle.token_text.specs.Slices.{LieWithin, between, tokens_in};
ghost use Rattle.token_text.specs.Tokens.{before, is_stop, lowered, numbered, tokens};

use crate::part::Part;
use crate::runs::{Run, next_run};
use crate::text_tokens::TextTokens;
use ft_base::{Bytes, NoMemory, StopWords};
use lane_kernels::lower_into;
use std::alloc::Global;

/// A word of a text, with its place among the words that are no stop words, counted from 1. It is
/// what a contract sees of a token; `TextTokens` lends the word and keeps no such value.
#[derive(Drop)]
pub struct Token {
    pub place: u32,
    pub word: Bytes,
}

/// The tokens of a text of at most 1,048,576 bytes, in one pass. One allocation holds all words,
/// since they have no more bytes than the text.
pub fn tokens(alloc: Global, text: &[u8], stops: &StopWords) -> Result<TextTokens, NoMemory>
    requires { length text.now ≤ MAX_WORD_BYTES }
    ensures { IfOk result (λ found. found ≡ tokens text.now stops.now.words) }
{
    let mut bytes = lowered(alloc, text)?;
    let mut parts = Vec::new(alloc);
    cut(text, stops, bytes.as_mut_slice(), &mut parts)?;
    Ok(TextTokens::of_parts(bytes, parts))
}

/// A text lowered as a whole, which is faster than word by word.
fn lowered(alloc: Global, text: &[u8]) -> Result<Vec<u8>, NoMemory>
    ensures { IfOk result (λ bytes. bytes.items ≡ lowered text.now) }
{
    let mut bytes = Vec::with_capacity(alloc, text.len())?;
    bytes.extend_from_slice(text)?;
    lower_into(text, bytes.as_mut_slice());
    Ok(bytes)
}

/// Finds the tokens of a text, whose words are parts of a buffer that holds it lowered.
fn cut(
    text: &[u8],
    stops: &StopWords,
    bytes: &mut [u8],
    parts: &mut Vec<Part>,
) -> Result<(), NoMemory>
    requires limit { length text.now ≤ MAX_WORD_BYTES }
    requires lowered { bytes.old ≡ lowered text.now }
    requires none { parts.old.items ≡ [] }
    ensures tokens { OnOk result (tokens_in bytes.new parts.new.items ≡ tokens text.now stops.now.words) }
    ensures within { OnOk result (LieWithin (length bytes.new) parts.new.items) }
    ensures limit { OnOk result (length parts.new.items ≤ MAX_WORD_BYTES) }
{
    let mut from = 0;
    'cutting: while from < text.len() {
        let Run { to, end } = next_run(text, bytes, from);
        add_run(stops, bytes, from, to, parts)?;
        from = end + 1;
    }
    Ok(())
}

/// Adds a run of a buffer behind the other parts: unless it is empty or a stop word, it is a token.
fn add_run(
    stops: &StopWords,
    bytes: &[u8],
    from: usize,
    to: usize,
    parts: &mut Vec<Part>,
) -> Result<(), NoMemory>
    requires order { from ≤ to }
    requires inside { to ≤ length bytes.now }
    requires limit { length bytes.now ≤ MAX_WORD_BYTES }
    ensures added { OnOk result (tokens_in bytes.now parts.new.items ≡ tokens_in bytes.now parts.old.items
        ++ numbered stops.now.words (length parts.old.items + 1) (before (between bytes.now from to) [])) }
    ensures within { OnOk result ((size : ℕ) → to ≤ size → LieWithin size parts.old.items
        → LieWithin size parts.new.items) }
    ensures one { OnOk result (length parts.new.items ≤ length parts.old.items + 1) }
{
    if is_token(stops, &bytes[from..to]) {
        parts.push(Part {
            from: from as u32,
            to: to as u32,
        })?;
    }
    Ok(())
}

/// Whether a run is a token: it has a byte, and is no stop word.
fn is_token(stops: &StopWords, run: &[u8]) -> bool
    ensures { (place : ℕ) → numbered stops.now.words place (before run.now [])
        ≡ (if result then record { place = place; word = run.now } ∷ [] else []) }
{
    !run.is_empty() && !is_stop(stops, run)
}

fn is_stop(stops: &StopWords, word: &[u8]) -> bool
    ensures { result ≡ is_stop stops.now.words word.now }
{
    stops.words.has(word)
}
