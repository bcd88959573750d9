//! A buffer for one reply after another, which always has room for a short one.
ghost use Rattle.std.specs.Prelude.{◌≡◌, ◌≤◌, ◌+◌, [], false, length, pos, true, vec_capacity, IfOk};
ghost use Rattle.ft_base.specs.Memory.{out_of_memory};
ghost use Rattle.ft_base.specs.Reply.{spelling};
ghost use Rattle.ft_base.specs.declared.reply.Reply.TheVariants.{Fault, Number};
ghost use Rattle.ft_machine.specs.Reads.{one_if};
ghost use Rattle.ft_machine.specs.Step.{Told};
ghost use Rattle.reply_buffer.specs.Refused.{HasShortName, field_refused, query_refused, refused, schema_refused};
ghost use Rattle.reply_buffer.specs.Written.{CanBeWritten, HasRoom, IsEchoed, IsWritten, TellsKind, Written, written_in};

use crate::made_reply::{put_if_made, put_made};
use crate::message::put_message;
use crate::refusals::{put_query_refusal, put_refusal, put_schema_refusal, put_unknown_field};
use crate::short_reply::{
    SHORT_REPLY, put_fault, put_flag, put_kind, put_no_memory, put_number, put_short, put_signed,
};
use cmd_parse::CmdFault;
use ft_base::{NoMemory, Reply};
use ft_schema::SchemaFault;
use query_grammar::QueryFault;
use std::alloc::Global;
use std::marker::Model;

/// The reply that was written last. Each one takes the place of the one before.
#[derive(Drop)]
pub struct ReplyBuffer {
    bytes: Vec<u8>,
}

impl Model for ReplyBuffer {
    ghost Value = { Written };

    ghost view = { λ reply. written_in reply.bytes };

    ghost invariant = { λ reply. HasRoom reply.bytes };
}

impl ReplyBuffer {
    /// Room for a short reply.
    pub fn new(alloc: Global) -> Result<ReplyBuffer, NoMemory>
        ensures { IfOk result (λ reply. reply.bytes ≡ []) }
    {
        Ok(ReplyBuffer {
            bytes: Vec::with_capacity(alloc, SHORT_REPLY)?,
        })
    }

    /// Over bytes that are lent until they are given back. It takes no memory.
    pub fn over(alloc: Global, bytes: &mut Vec<u8>) -> ReplyBuffer
        requires { HasRoom bytes.old }
        ensures bytes { result.bytes ≡ bytes.old.items }
        ensures room { result.room ≡ vec_capacity bytes.old }
    {
        ReplyBuffer {
            bytes: std::mem::replace(bytes, Vec::new(alloc)),
        }
    }

    /// Gives the bytes back, with their room.
    pub fn give_back(self, bytes: &mut Vec<u8>)
        ensures bytes { bytes.new.items ≡ self.bytes }
        ensures room { vec_capacity bytes.new ≡ self.room }
    {
        *bytes = self.bytes;
    }

    /// The bytes of the reply.
    pub fn bytes(&self) -> &[u8]
        ensures { result.now ≡ self.now.bytes }
    {
        self.bytes.as_slice()
    }

    /// Writes a text that is short.
    pub fn set_short(&mut self, text: &[u8])
        requires { length text.now ≤ 64 }
        ensures bytes { self.new.bytes ≡ text.now }
        ensures room { self.old.room ≤ self.new.room }
    {
        self.bytes.clear();
        put_short(&mut self.bytes, text);
    }

    /// Writes a refusal that is short.
    pub fn set_fault(&mut self, text: &[u8])
        requires { length text.now + 3 ≤ 64 }
        ensures bytes { self.new.bytes ≡ spelling (Fault text.now) }
        ensures room { self.old.room ≤ self.new.room }
    {
        self.bytes.clear();
        put_fault(&mut self.bytes, text);
    }

    /// Writes why the words of a command of this name ask nothing.
    pub fn set_refusal(&mut self, name: &[u8], fault: CmdFault)
        requires { HasShortName name.now fault }
        ensures bytes { self.new.bytes ≡ refused name.now fault }
        ensures room { self.old.room ≤ self.new.room }
    {
        self.bytes.clear();
        put_refusal(name, fault, &mut self.bytes);
    }

    /// Writes why words are no schema.
    pub fn set_schema_refusal(&mut self, fault: SchemaFault)
        ensures bytes { self.new.bytes ≡ schema_refused fault }
        ensures room { self.old.room ≤ self.new.room }
    {
        self.bytes.clear();
        put_schema_refusal(fault, &mut self.bytes);
    }

    /// Writes why a text is no query.
    pub fn set_query_refusal(&mut self, fault: QueryFault)
        ensures bytes { self.new.bytes ≡ query_refused fault }
        ensures room { self.old.room ≤ self.new.room }
    {
        self.bytes.clear();
        put_query_refusal(fault, &mut self.bytes);
    }

    /// Writes that the name at a word is no field's of the index.
    pub fn set_unknown_field(&mut self, at: u32)
        ensures bytes { self.new.bytes ≡ field_refused at }
        ensures room { self.old.room ≤ self.new.room }
    {
        self.bytes.clear();
        put_unknown_field(at, &mut self.bytes);
    }

    /// Writes that memory ran out.
    pub fn set_no_memory(&mut self)
        ensures bytes { self.new.bytes ≡ spelling out_of_memory }
        ensures room { self.old.room ≤ self.new.room }
    {
        self.bytes.clear();
        put_no_memory(&mut self.bytes);
    }

    /// Writes a number.
    pub fn set_number(&mut self, number: usize)
        ensures bytes { self.new.bytes ≡ spelling (Number (pos number)) }
        ensures room { self.old.room ≤ self.new.room }
    {
        self.bytes.clear();
        put_number(number, &mut self.bytes);
    }

    /// Writes a number that may be below 0.
    pub fn set_signed(&mut self, number: i64)
        ensures bytes { self.new.bytes ≡ spelling (Number number) }
        ensures room { self.old.room ≤ self.new.room }
    {
        self.bytes.clear();
        put_signed(number, &mut self.bytes);
    }

    /// Writes 1 where something is so, else 0.
    pub fn set_flag(&mut self, so: bool)
        ensures bytes { self.new.bytes ≡ spelling (one_if so) }
        ensures room { self.old.room ≤ self.new.room }
    {
        self.bytes.clear();
        put_flag(so, &mut self.bytes);
    }

    /// Writes whether a key has a hash or nothing.
    pub fn set_kind(&mut self, there: bool)
        ensures bytes { TellsKind there self.new.bytes }
        ensures room { self.old.room ≤ self.new.room }
    {
        self.bytes.clear();
        put_kind(there, &mut self.bytes);
    }

    /// Writes a message as it is, or that memory ran out.
    pub fn set_message(&mut self, alloc: Global, message: &[u8])
        ensures bytes { IsEchoed message.now self.new.bytes }
        ensures room { self.old.room ≤ self.new.room }
    {
        self.bytes.clear();
        put_message(alloc, message, &mut self.bytes);
    }

    /// Writes what was made, or that memory ran out.
    pub fn set_made(&mut self, made: Result<Reply, NoMemory>)
        requires { CanBeWritten made }
        ensures told { Told made self.new.bytes }
        ensures room { self.old.room ≤ self.new.room }
    {
        self.bytes.clear();
        put_made(made, &mut self.bytes);
    }

    /// The same, and answers whether it was made and written.
    pub fn set_if_made(&mut self, made: Result<Reply, NoMemory>) -> bool
        requires { CanBeWritten made }
        ensures written { result ≡ true → IsWritten made self.new.bytes }
        ensures wanting { result ≡ false → self.new.bytes ≡ spelling out_of_memory }
        ensures room { self.old.room ≤ self.new.room }
    {
        self.bytes.clear();
        put_if_made(made, &mut self.bytes)
    }
}
