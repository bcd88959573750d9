//! Replies for which there is always room, so that writing them needs no memory.
ghost use Rattle.std.specs.Prelude.{◌≡◌, ◌++◌, ◌+◌, ◌≤◌, [], length, pos, vec_capacity};
ghost use Rattle.ft_base.specs.Reply.{spelling};
ghost use Rattle.ft_base.specs.declared.reply.Reply.TheVariants.{Fault, Number};
ghost use Rattle.ft_base.specs.Memory.{out_of_memory};
ghost use Rattle.ft_machine.specs.Reads.{one_if};
ghost use Rattle.reply_buffer.specs.Written.{IsCleared, TellsKind};

use itoa::Buffer;

/// The room that a reply's buffer has at the least, in bytes.
pub const SHORT_REPLY: usize = 64;

/// Writes a text for which there is room.
pub fn put_short(out: &mut Vec<u8>, text: &[u8])
    requires { length out.old.items + length text.now ≤ vec_capacity out.old }
    ensures text { out.new.items ≡ out.old.items ++ text.now }
    ensures room { vec_capacity out.old ≤ vec_capacity out.new }
{
    let Ok(()) = out.extend_from_slice(text) else {
        unreachable!()
    };
}

/// Writes a refusal for which there is room.
pub fn put_fault(out: &mut Vec<u8>, text: &[u8])
    requires empty { out.old.items ≡ [] }
    requires fits { length text.now + 3 ≤ vec_capacity out.old }
    ensures fault { out.new.items ≡ spelling (Fault text.now) }
    ensures room { vec_capacity out.old ≤ vec_capacity out.new }
{
    put_short(out, b"-");
    put_short(out, text);
    put_short(out, b"\r\n");
}

/// Writes that memory ran out.
pub fn put_no_memory(out: &mut Vec<u8>)
    requires { IsCleared out.old }
    ensures fault { out.new.items ≡ spelling out_of_memory }
    ensures room { vec_capacity out.old ≤ vec_capacity out.new }
{
    put_fault(out, b"OOM out of memory");
}

/// Writes a number. It takes no memory.
pub fn put_number(number: usize, out: &mut Vec<u8>)
    requires { IsCleared out.old }
    ensures number { out.new.items ≡ spelling (Number (pos number)) }
    ensures room { vec_capacity out.old ≤ vec_capacity out.new }
{
    let mut buffer = Buffer::new();
    put_short(out, b":");
    put_short(out, buffer.format(number).as_bytes());
    put_short(out, b"\r\n");
}

/// The same of a number that may be below 0.
pub fn put_signed(number: i64, out: &mut Vec<u8>)
    requires { IsCleared out.old }
    ensures number { out.new.items ≡ spelling (Number number) }
    ensures room { vec_capacity out.old ≤ vec_capacity out.new }
{
    let mut buffer = Buffer::new();
    put_short(out, b":");
    put_short(out, buffer.format(number).as_bytes());
    put_short(out, b"\r\n");
}

/// Writes 1 where something is so, else 0. It takes no memory.
pub fn put_flag(so: bool, out: &mut Vec<u8>)
    requires { IsCleared out.old }
    ensures flag { out.new.items ≡ spelling (one_if so) }
    ensures room { vec_capacity out.old ≤ vec_capacity out.new }
{
    put_number(usize::from(so), out);
}

/// Writes whether a key has a hash or nothing. It takes no memory.
pub fn put_kind(there: bool, out: &mut Vec<u8>)
    requires { IsCleared out.old }
    ensures kind { TellsKind there out.new.items }
    ensures room { vec_capacity out.old ≤ vec_capacity out.new }
{
    if there {
        put_short(out, b"+hash\r\n");
    } else {
        put_short(out, b"+none\r\n");
    }
}
