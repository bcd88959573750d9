//! The commands of documents.
ghost use Rattle.std.specs.Prelude.{◌≡◌, ◌+◌, ◌≤◌, ◌<◌, ◌++◌, length, OnOk};
ghost use Rattle.load_maker.specs.Load.{deleting, documents, drawn, setting};
ghost use Rattle.resp_wire.specs.Request.{request, requests};

use crate::drawing::{below, put_text};
use crate::requests::{put_count, put_numbered, put_word};
use ft_base::NoMemory;
use rand_pcg::Lcg64Xsh32;

/// Appends the request that sets a document.
fn put_setting(
    out: &mut Vec<u8>,
    i: u32,
    text: &[u8],
    tag: u32,
    number: u32,
) -> Result<(), NoMemory>
    ensures { OnOk result (out.new.items ≡ out.old.items ++ request (setting i text.now tag number)) }
{
    put_count(out, 8)?;
    put_word(out, b"HSET")?;
    put_numbered(out, b"doc:", i)?;
    put_word(out, b"body")?;
    put_word(out, text)?;
    put_word(out, b"tag")?;
    put_numbered(out, b"t", tag)?;
    put_word(out, b"n")?;
    put_numbered(out, b"", number)
}

/// Appends the request that deletes an earlier document, where there is one behind this.
fn put_deleting(out: &mut Vec<u8>, i: u32) -> Result<(), NoMemory>
    ensures { OnOk result (out.new.items ≡ out.old.items ++ requests (deleting i)) }
{
    if i % 10 != 0 {
        return Ok(());
    }
    put_count(out, 2)?;
    put_word(out, b"DEL")?;
    put_numbered(out, b"doc:", i / 2)
}

/// Appends the requests of one document. `text` is the room of its text.
#[tactic(auto, unfolding(crate::specs::Load::drawn))]
fn put_document(
    out: &mut Vec<u8>,
    text: &mut Vec<u8>,
    rng: &mut Lcg64Xsh32,
    i: u32,
) -> Result<(), NoMemory>
    ensures requests { OnOk result (out.new.items ≡ (out.old.items
        ++ request (setting i (drawn rng.old).text (drawn rng.old).tag (drawn rng.old).number)) ++ requests (deleting i)) }
    ensures next { OnOk result (rng.new ≡ (drawn rng.old).next) }
{
    text.clear();
    put_text(text, rng)?;
    let tag = below(rng, 8);
    let number = below(rng, 1000);
    put_setting(out, i, text.as_slice(), tag, number)?;
    put_deleting(out, i)
}

/// Appends the requests of so many documents.
pub fn put_documents(
    out: &mut Vec<u8>,
    text: &mut Vec<u8>,
    rng: &mut Lcg64Xsh32,
    docs: u32,
) -> Result<(), NoMemory>
    requires { docs ≤ 100000 }
    ensures { OnOk result (out.new.items ≡ out.old.items ++ requests (documents docs 1 rng.old)) }
{
    for i in 1..docs + 1 {
        put_document(out, text, rng, i)?;
    }
    Ok(())
}
