//! What the replies to the commands of a load come to, and the four lines that say so.
ghost use Rattle.std.specs.Prelude.{◌≡◌, ◌<◌, ◌≤◌, ◌*◌, ◌^◌, ◌∷◌, [], ◌++◌, List, ℕ, length, IfOk, string_bytes};
ghost use Rattle.ft_base.specs.Number.{int_of};
ghost use Rattle.ft_server.specs.Load.{count_from, is_error, number_of, summary};
ghost use Rattle.ft_server.specs.Playing.{Counts};

use ft_base::{NoMemory, read_int};
use std::alloc::Global;

/// The counts of the replies to commands.
#[derive(Clone, Copy)]
pub struct Tally {
    pub commands: u64,
    pub errors: u64,
    pub documents: u64,
    pub reply_bytes: u128,
}

impl Tally {
    /// No reply yet.
    pub fn new() -> Tally
        ensures { Counts result [] }
    {
        Tally {
            commands: 0,
            errors: 0,
            documents: 0,
            reply_bytes: 0,
        }
    }

    /// The counts with one reply more.
    pub fn with(self, reply: &[u8]) -> Tally
        requires few { self.commands < 2 ^ 32 }
        requires errors { self.errors ≤ self.commands }
        requires bytes { self.reply_bytes ≤ self.commands * 2 ^ 63 }
        ensures { (replies : List (List ℕ)) → Counts self replies → Counts result (replies ++ reply.now ∷ []) }
    {
        Tally {
            commands: self.commands + 1,
            errors: self.errors + u64::from(is_error(reply)),
            documents: number_of(reply),
            reply_bytes: self.reply_bytes + reply.len() as u128,
        }
    }

    /// The four lines of the counts.
    pub fn lines(&self, alloc: Global) -> Result<String, NoMemory>
        ensures { (replies : List (List ℕ)) → Counts self.now replies
            → IfOk result (λ text. string_bytes text ≡ summary replies) }
    {
        format!(in alloc;
            "commands {}\nerrors {}\ndocuments {}\nreply bytes {}\n",
            self.commands, self.errors, self.documents, self.reply_bytes
        )
    }
}

/// Whether a reply is an error.
fn is_error(reply: &[u8]) -> bool
    ensures { result ≡ is_error reply.now }
{
    matches!(reply, [b'-', ..])
}

/// The number of an integer reply, and 0 of any other.
fn number_of(reply: &[u8]) -> u64
    ensures { result ≡ number_of reply.now }
{
    match reply {
        [b':', text @ ..] => count_from(&text[..text.len().saturating_sub(2)]),
        _ => 0,
    }
}

/// The number that a text spells, where it is not below 0; else 0.
fn count_from(text: &[u8]) -> u64
    ensures { result ≡ count_from (int_of text.now) }
{
    match read_int(text) {
        Some(number) if number >= 0 => number as u64,
        _ => 0,
    }
}
