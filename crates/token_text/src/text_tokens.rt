//! The tokens of a text, held in one buffer and lent one by one.
ghost use Rattle.std.specs.Prelude.{◌≡◌, ◌<◌, ◌≤◌, ◌+◌, [], length, slice_get, Some};
ghost use Rattle.ft_base.specs.declared.limits.TheConstants.{MAX_WORD_BYTES};
ghost use Rattle.token_text.specs.Slices.{LieWithin, tokens_in};

use crate::part::Part;
use std::alloc::Global;
use std::marker::Model;

/// The tokens of a text, whose words lie lowered in one buffer. A contract sees them as a list of
/// tokens.
#[derive(Drop)]
pub struct TextTokens {
    bytes: Vec<u8>,
    parts: Vec<Part>,
}

impl Model for TextTokens {
    ghost use Rattle.std.specs.Prelude.{◌≤◌, List, length};
    ghost use Rattle.ft_base.specs.declared.limits.TheConstants.{MAX_WORD_BYTES};
    ghost use Rattle.token_text.specs.declared.token.Token.{Token};
    ghost use Rattle.token_text.specs.Slices.{LieWithin, tokens_in};

    ghost Value = { List Token };

    ghost view = { λ t. tokens_in t.bytes.items t.parts.items };

    ghost invariant = { λ t. LieWithin (length t.bytes.items) t.parts.items
        × (length t.parts.items ≤ MAX_WORD_BYTES) };
}

impl TextTokens {
    /// No tokens, and no memory taken.
    pub fn new(alloc: Global) -> TextTokens
        ensures { result ≡ [] }
    {
        TextTokens {
            bytes: Vec::new(alloc),
            parts: Vec::new(alloc),
        }
    }

    /// The tokens whose words are these parts of a buffer.
    pub(crate) fn of_parts(bytes: Vec<u8>, parts: Vec<Part>) -> TextTokens
        requires parts { LieWithin (length bytes.items) parts.items }
        requires limit { length parts.items ≤ MAX_WORD_BYTES }
        ensures { result ≡ tokens_in bytes.items parts.items }
    {
        TextTokens { bytes, parts }
    }

    /// The number of tokens.
    pub fn len(&self) -> usize
        ensures len { result ≡ length self.now }
        ensures limit { result ≤ MAX_WORD_BYTES }
    {
        self.parts.len()
    }

    /// The word of the token at an index, counted from 0; the token's place is one more.
    pub fn word(&self, i: usize) -> &[u8]
        requires { i < length self.now }
        ensures { slice_get self.now i ≡ Some (record { place = i + 1; word = result.now }) }
    {
        word_at(self.bytes.as_slice(), self.parts.as_slice(), i)
    }
}

/// The word at an index in a buffer.
fn word_at<'a>(bytes: &'a [u8], parts: &[Part], i: usize) -> &'a [u8]
    requires index { i < length parts.now }
    requires within { LieWithin (length bytes.now) parts.now }
    ensures { slice_get (tokens_in bytes.now parts.now) i ≡ Some (record { place = i + 1; word = result.now }) }
{
    let part = parts[i];
    &bytes[part.from as usize..part.to as usize]
}
