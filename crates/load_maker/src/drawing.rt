//! What is drawn for a document, in the order of its draws.
ghost use Rattle.std.specs.Prelude.{◌≡◌, ◌<◌, ◌∷◌, ◌++◌, OnOk};
ghost use Rattle.std.specs.Fmt.{decimal};
ghost use Rattle.load_maker.specs.Load.{begun, draw, text_of, text_words, word_of};

use ft_base::NoMemory;
use itoa::Buffer;
use rand_core::utils::NextWord;
use rand_pcg::Lcg64Xsh32;

/// The words of a document's text.
const TEXT_WORDS: u32 = 8;

/// The generator of a seed.
pub fn begin(seed: u64) -> Lcg64Xsh32
    ensures { result ≡ begun seed }
{
    Lcg64Xsh32::new(seed, 1)
}

/// A number below another.
#[tactic(auto, unfolding(crate::specs::Load::draw))]
pub fn below(rng: &mut Lcg64Xsh32, most: u32) -> u32
    requires { 0 < most }
    ensures number { result ≡ (draw most rng.old).0 }
    ensures next { rng.new ≡ (draw most rng.old).1 }
{
    rng.next_word() % most
}

/// Appends a number's decimal digits.
pub fn put_digits(out: &mut Vec<u8>, n: u32) -> Result<(), NoMemory>
    ensures { OnOk result (out.new.items ≡ out.old.items ++ decimal n) }
{
    let mut buffer = Buffer::new();
    out.extend_from_slice(buffer.format(n).as_bytes())
}

/// Appends a drawn word.
fn put_drawn_word(out: &mut Vec<u8>, rng: &mut Lcg64Xsh32) -> Result<(), NoMemory>
    ensures word { OnOk result (out.new.items ≡ out.old.items ++ word_of (draw 64 rng.old).0) }
    ensures next { rng.new ≡ (draw 64 rng.old).1 }
{
    let number = below(rng, 64);
    out.push(b'w')?;
    put_digits(out, number)
}

/// Appends a drawn word behind a space.
fn put_next_word(out: &mut Vec<u8>, rng: &mut Lcg64Xsh32) -> Result<(), NoMemory>
    ensures word { OnOk result (out.new.items ≡ out.old.items ++ (32 ∷ word_of (draw 64 rng.old).0)) }
    ensures next { OnOk result (rng.new ≡ (draw 64 rng.old).1) }
{
    out.push(b' ')?;
    put_drawn_word(out, rng)
}

/// Appends a drawn text.
pub fn put_text(out: &mut Vec<u8>, rng: &mut Lcg64Xsh32) -> Result<(), NoMemory>
    ensures text { OnOk result (out.new.items ≡ out.old.items ++ text_of (text_words 8 rng.old).0) }
    ensures next { OnOk result (rng.new ≡ (text_words 8 rng.old).1) }
{
    put_drawn_word(out, rng)?;
    for count in 1..TEXT_WORDS {
        put_next_word(out, rng)?;
    }
    Ok(())
}
