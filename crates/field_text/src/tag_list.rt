//! The tags of a value.
ghost use Rattle.std.specs.Prelude.{◌≡◌, IfOk, OnOk};
ghost use Rattle.field_text.specs.Tags.{trim_front, trim_back, cased, tags_of};
ghost use Rattle.field_text.specs.Seen.{seen, with_piece};

use ft_base::{Bytes, ListOf, NoMemory};
use indexmap::IndexSet;
use std::alloc::Global;

/// The tags of a value, each once, in order of first appearance. It is one pass, and each piece that
/// is not empty takes one allocation.
pub fn tags(
    alloc: Global,
    text: &[u8],
    separator: u8,
    case: bool,
) -> Result<ListOf<Bytes>, NoMemory>
    ensures { IfOk result (λ tags. tags ≡ tags_of text.now separator case) }
{
    let mut found = IndexSet::new(alloc);
    'cutting: for piece in text.split(|byte| *byte == separator) {
        add_piece(alloc, &mut found, piece, case)?;
    }
    listed(alloc, found)
}

// Adds the tag of a piece, if it is a new one.
fn add_piece(
    alloc: Global,
    found: &mut IndexSet<Vec<u8>>,
    piece: &[u8],
    case: bool,
) -> Result<(), NoMemory>
    ensures { OnOk result (seen found.new.keys ≡ with_piece case (seen found.old.keys) piece.now) }
{
    let tag = trim_back(trim_front(piece));
    if tag.is_empty() {
        return Ok(());
    }
    let tag = own(alloc, tag, case)?;
    found.insert(tag)?;
    Ok(())
}

// A copy, lowered unless case matters.
fn own(alloc: Global, tag: &[u8], case: bool) -> Result<Vec<u8>, NoMemory>
    ensures { IfOk result (λ own. own.items ≡ cased case tag.now) }
{
    let mut own = Vec::from_slice(alloc, tag)?;
    if !case {
        own.as_mut_slice().make_ascii_lowercase();
    }
    Ok(own)
}

fn trim_front(piece: &[u8]) -> &[u8]
    ensures { result.now ≡ trim_front piece.now }
{
    let mut rest = piece;
    'front: while let Some((byte, after)) = rest.split_first() {
        if *byte != b' ' {
            return rest;
        }
        rest = after;
    }
    rest
}

fn trim_back(piece: &[u8]) -> &[u8]
    ensures { result.now ≡ trim_back piece.now }
{
    let mut rest = piece;
    'back: while let Some((byte, before)) = rest.split_last() {
        if *byte != b' ' {
            return rest;
        }
        rest = before;
    }
    rest
}

// The tags as a list, none of them copied.
fn listed(alloc: Global, found: IndexSet<Vec<u8>>) -> Result<ListOf<Bytes>, NoMemory>
    ensures { IfOk result (λ tags. tags ≡ seen found.keys) }
{
    let tags = found.into_iter().map(Bytes::from_vec).collect(alloc)?;
    Ok(ListOf::from_vec(tags))
}
