//! The replies of a block's commands, for which room is taken before the first of them is executed.
ghost use Rattle.std.specs.Prelude.{◌≡◌, ◌<◌, [], length, slice_index_or, IfOk};

use ft_base::NoMemory;
use std::alloc::Global;
use std::marker::Model;

/// The room for a reply at the start. A longer one makes more.
const OUT_ROOM: usize = 64;

/// A reply, with the room that a command wants before it is executed. A contract sees its bytes.
#[derive(Drop)]
pub struct Out {
    pub(crate) bytes: Vec<u8>,
}

impl Model for Out {
    ghost use Rattle.std.specs.Prelude.{◌≤◌, List, ℕ, vec_capacity};

    ghost Value = { List ℕ };

    ghost view = { λ out. out.bytes.items };

    ghost invariant = { λ out. 64 ≤ vec_capacity out.bytes };
}

/// So many replies. A contract sees a list of lists of bytes.
#[derive(Drop)]
pub struct Outs {
    pub(crate) items: Vec<Out>,
}

impl Model for Outs {
    ghost use Rattle.std.specs.Prelude.{List, ℕ};

    ghost Value = { List (List ℕ) };

    ghost view = { λ outs. outs.items.items };
}

impl Outs {
    /// So many replies, each of which is empty. All the memory that a block wants is taken here, but for what makes a reply
    /// longer than 64 bytes.
    pub fn open(alloc: Global, count: usize) -> Result<Outs, NoMemory>
        ensures count { IfOk result (λ outs. length outs ≡ count) }
    {
        let mut items = Vec::with_capacity(alloc, count)?;
        for _ in 0..count {
            let bytes = Vec::with_capacity(alloc, OUT_ROOM)?;
            items.push_reserved(Out { bytes });
        }
        Ok(Outs { items })
    }

    /// The number of replies.
    pub fn len(&self) -> usize
        ensures { result ≡ length self.now }
    {
        self.items.len()
    }

    /// The reply at a place, counted from 0.
    pub fn reply(&self, at: usize) -> &[u8]
        requires { at < length self.now }
        ensures { result.now ≡ slice_index_or self.now at [] }
    {
        self.items[at].bytes.as_slice()
    }
}
