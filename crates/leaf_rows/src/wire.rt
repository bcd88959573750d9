//! Calls of the decoder of requests: what is taken of some bytes, and what is left of them.
ghost use Rattle.std.specs.Prelude.{◌≡◌, ◌≤◌, ◌+◌, ◌^◌, length};
ghost use Rattle.resp_wire.specs.Decoding.{fed};

use crate::answer::Answer;
use crate::arguments::{count_of, rest, word};
use ft_base::{NoMemory, Words};
use resp_wire::{Decoder, Take, WireFault};
use std::alloc::Global;

/// The most bytes that are fed, and the most of a piece.
const MOST: usize = 1_073_741_824;

/// The most words of a command that are written out, and the most bytes of a word.
const MOST_SHOWN: usize = 99;

/// Writes the answer of a call, and tells whether it is of this file.
pub fn put(alloc: Global, call: &str, words: &[Vec<u8>], out: &mut Answer) -> bool {
    let number = count_of(word(words, 0));
    let done = match call {
        "wire" => put_repeated(alloc, number, rest(words, 1), out),
        "wire_cut" => put_cut(alloc, number, word(words, 1), out),
        "wire_full" => put_full(alloc, word(words, 0), out),
        "wire_room" => put_room(alloc, number, out),
        _ => return false,
    };
    out.note(done);
    true
}

// A text in pieces of so many bytes, or whole where that is 0; behind it stands another, so many times, and a third.
fn put_repeated(
    alloc: Global,
    size: usize,
    words: &[Vec<u8>],
    out: &mut Answer,
) -> Result<(), NoMemory> {
    let mut bytes = Vec::new(alloc);
    out.note(bytes.extend_from_slice(word(words, 0)));
    for _ in 0..count_of(word(words, 1)) {
        out.note(bytes.extend_from_slice(word(words, 2)));
    }
    out.note(bytes.extend_from_slice(word(words, 3)));
    put_whole(alloc, size, bytes.as_slice(), out)
}

// A text behind a command of 16 MiB that lacks its last word.
fn put_full(alloc: Global, last: &[u8], out: &mut Answer) -> Result<(), NoMemory> {
    let mut bytes = Vec::new(alloc);
    out.note(bytes.extend_from_slice(b"*17\r\n"));
    for _ in 0..16 {
        put_long_word(&mut bytes, out);
    }
    out.note(bytes.extend_from_slice(last));
    put_whole(alloc, 0, bytes.as_slice(), out)
}

// A word of 1 MiB.
fn put_long_word(bytes: &mut Vec<u8>, out: &mut Answer) {
    out.note(bytes.extend_from_slice(b"$1048576\r\n"));
    for _ in 0..1_048_576 {
        out.note(bytes.push(b'a'));
    }
    out.note(bytes.extend_from_slice(b"\r\n"));
}

fn put_whole(alloc: Global, size: usize, bytes: &[u8], out: &mut Answer) -> Result<(), NoMemory> {
    let mut decoder = Decoder::open(alloc)?;
    put_pieces(&mut decoder, size, bytes, out)
}

// A text in two pieces, of which the first has so many bytes.
fn put_cut(alloc: Global, at: usize, bytes: &[u8], out: &mut Answer) -> Result<(), NoMemory> {
    let mut decoder = Decoder::open(alloc)?;
    let (front, behind) = bytes.split_at(at.min(bytes.len()));
    put_pieces(&mut decoder, 0, front, out)?;
    out.put(b"; ");
    put_pieces(&mut decoder, 0, behind, out)
}

// The words of each command that some bytes make whole, and what the last take found, which stays so.
fn put_pieces(
    decoder: &mut Decoder,
    size: usize,
    bytes: &[u8],
    out: &mut Answer,
) -> Result<(), NoMemory>
    requires { fed decoder.old ≤ 2 ^ 30 }
    ensures { fed decoder.new ≤ fed decoder.old + 2 ^ 30 }
{
    let size = if size == 0 { MOST } else { size.min(MOST) };
    let taken = feed(decoder, size, bytes, out)?;
    if decoder.take() != taken {
        out.put(b"not again ");
    }
    put_take(taken, out);
    out.put_count(decoder.rest().len());
    Ok(())
}

// Feeds bytes in pieces of so many, and writes the commands that each makes whole. The last take is answered.
fn feed(
    decoder: &mut Decoder,
    size: usize,
    bytes: &[u8],
    out: &mut Answer,
) -> Result<Take, NoMemory>
    requires size { size ≤ 2 ^ 30 }
    requires fed { fed decoder.old ≤ 2 ^ 30 }
    ensures { fed decoder.new ≤ fed decoder.old + 2 ^ 30 }
{
    let mut taken = Take::More;
    let mut from = 0;
    if MOST < bytes.len() {
        return Ok(taken);
    }
    'feeding: while from < bytes.len() {
        let to = bytes.len().min(from + size.max(1));
        decoder.reserve()?;
        decoder.feed(&bytes[from..to])?;
        from = to;
        taken = put_commands(decoder, out);
    }
    Ok(taken)
}

// Takes what commands there are, at most eight, and writes them.
fn put_commands(decoder: &mut Decoder, out: &mut Answer) -> Take
    ensures { fed decoder.new ≡ fed decoder.old }
{
    'taking: for _ in 0..8 {
        let taken = decoder.take();
        if taken != Take::Words {
            return taken;
        }
        put_command(&decoder.words(), out);
    }
    Take::Words
}

// A command's words in brackets, or how many they are.
fn put_command(words: &Words<'_>, out: &mut Answer) {
    out.put(b"[");
    if MOST_SHOWN < words.len() {
        out.put_at(b"words", words.len());
    } else {
        for i in 0..words.len() {
            put_word(i, words.word(i), out);
        }
    }
    out.put(b"] ");
}

// A word behind a blank, if it is not the first, or how many bytes it has.
fn put_word(i: usize, word: &[u8], out: &mut Answer) {
    if 0 < i {
        out.put(b" ");
    }
    if MOST_SHOWN < word.len() {
        out.put_at(b"bytes", word.len());
    } else {
        out.put_word(word);
    }
}

// What a take found, and a blank behind it.
fn put_take(take: Take, out: &mut Answer) {
    match take {
        Take::Words => out.put(b"Words"),
        Take::More => out.put(b"More"),
        Take::NoMemory => out.put(b"NoMemory"),
        Take::Fault { at, kind } => {
            put_kind(kind, out);
            out.put_at(b"", at as usize);
        }
    }
    out.put(b" ");
}

fn put_kind(kind: WireFault, out: &mut Answer) {
    match kind {
        WireFault::MultiLength => out.put(b"MultiLength"),
        WireFault::BulkLength => out.put(b"BulkLength"),
        WireFault::NoDollar { got } => {
            out.put(b"NoDollar ");
            out.put_word(&[got]);
        }
    }
}

// A word of so many bytes, up to those that fill a new decoder but for one byte, and what room there is behind it.
fn put_room(alloc: Global, count: usize, out: &mut Answer) -> Result<(), NoMemory> {
    let mut bytes = Vec::new(alloc);
    out.note(bytes.extend_from_slice(b"*1\r\n$65523\r\n"));
    for _ in 0..count.min(65_523) {
        out.note(bytes.push(b'a'));
    }
    put_room_behind(alloc, bytes.as_slice(), out)
}

// The room behind some bytes and behind each byte of a line's end, with what is taken then.
fn put_room_behind(alloc: Global, bytes: &[u8], out: &mut Answer) -> Result<(), NoMemory> {
    let mut decoder = Decoder::open(alloc)?;
    if MOST < bytes.len() {
        return Ok(());
    }
    put_fed(&mut decoder, bytes, out)?;
    put_fed(&mut decoder, b"\r", out)?;
    put_line_end(&mut decoder, out)
}

// How much room there is behind a piece, and what is taken then.
fn put_fed(decoder: &mut Decoder, piece: &[u8], out: &mut Answer) -> Result<(), NoMemory>
    requires few { fed decoder.old + length piece.now ≤ 2 ^ 31 }
    ensures { fed decoder.new ≤ fed decoder.old + length piece.now }
{
    decoder.feed(piece)?;
    out.put_count(decoder.spare());
    out.put(b" ");
    put_take(decoder.take(), out);
    Ok(())
}

// Whether there is room once it was asked for, what is taken behind a line feed, and whether there is room for 64 KiB.
fn put_line_end(decoder: &mut Decoder, out: &mut Answer) -> Result<(), NoMemory>
    requires few { fed decoder.old ≤ 2 ^ 31 }
{
    decoder.reserve()?;
    out.put_truth(0 < decoder.spare());
    out.put(b" ");
    decoder.feed(b"\n")?;
    put_take(decoder.take(), out);
    put_command(&decoder.words(), out);
    out.put_truth(65_535 < decoder.spare());
    Ok(())
}
