//! The parts of a request, as the wire has them.
ghost use Rattle.std.specs.Prelude.{◌≡◌, ◌≤◌, ◌++◌, length, map, OnOk};
ghost use Rattle.std.specs.Fmt.{decimal};
ghost use Rattle.ft_base.specs.Reply.{line};
ghost use Rattle.resp_wire.specs.Request.{bulk, request};

use ft_base::NoMemory;
use itoa::Buffer;

/// Appends a mark and a number, with a line's end.
fn put_line(out: &mut Vec<u8>, mark: u8, count: usize) -> Result<(), NoMemory>
    ensures { OnOk result (out.new.items ≡ out.old.items ++ line mark (decimal count)) }
{
    let mut buffer = Buffer::new();
    out.push(mark)?;
    out.extend_from_slice(buffer.format(count).as_bytes())?;
    out.extend_from_slice(b"\r\n")
}

/// Appends how many words a command has.
pub fn put_count(out: &mut Vec<u8>, count: usize) -> Result<(), NoMemory>
    ensures { OnOk result (out.new.items ≡ out.old.items ++ line 42 (decimal count)) }
{
    put_line(out, b'*', count)
}

/// Appends a word.
pub fn put_word(out: &mut Vec<u8>, word: &[u8]) -> Result<(), NoMemory>
    ensures { OnOk result (out.new.items ≡ out.old.items ++ bulk word.now) }
{
    put_line(out, b'$', word.len())?;
    out.extend_from_slice(word)?;
    out.extend_from_slice(b"\r\n")
}

/// Appends a word that ends in a number.
pub fn put_numbered(out: &mut Vec<u8>, front: &[u8], n: u32) -> Result<(), NoMemory>
    ensures { OnOk result (out.new.items ≡ out.old.items ++ bulk (front.now ++ decimal n)) }
{
    let mut buffer = Buffer::new();
    let digits = buffer.format(n).as_bytes();
    put_line(out, b'$', front.len() + digits.len())?;
    out.extend_from_slice(front)?;
    out.extend_from_slice(digits)?;
    out.extend_from_slice(b"\r\n")
}

/// Appends a command.
pub fn put_command(out: &mut Vec<u8>, words: &[&[u8]]) -> Result<(), NoMemory>
    ensures { OnOk result (out.new.items ≡ out.old.items ++ request (map (λ word. word.now) words.now)) }
{
    put_count(out, words.len())?;
    for word in words {
        put_word(out, word)?;
    }
    Ok(())
}
