//! How many lists a part takes.
ghost use Rattle.std.specs.Prelude.{◌≡◌};
ghost use Rattle.ft_index.specs.Parting.{is_spent, left_by, picks, whole_room};

/// How much a part may still take: so many lists whatever they are, so many in all, and so many sealed blocks.
#[derive(Clone, Copy)]
pub struct Room {
    pub first: u64,
    pub lists: u64,
    pub blocks: u64,
}

impl Room {
    /// The room of a whole part.
    pub fn whole() -> Room
        ensures { result ≡ whole_room }
    {
        Room {
            first: 64,
            lists: 2_048,
            blocks: 2_048,
        }
    }

    /// Whether no list has room.
    pub fn is_spent(self) -> bool
        ensures { result ≡ is_spent self }
    {
        self.lists == 0 || self.blocks == 0
    }

    /// Whether a list of so many sealed blocks is pictured.
    pub fn picks(self, blocks: u64) -> bool
        ensures { result ≡ picks self blocks }
    {
        self.first != 0 || blocks != 0
    }

    /// The room behind a list of so many sealed blocks.
    pub fn behind(self, blocks: u64) -> Room
        ensures { result ≡ left_by self blocks }
    {
        Room {
            first: self.first.saturating_sub(1),
            lists: self.lists.saturating_sub(1),
            blocks: self.blocks.saturating_sub(blocks),
        }
    }
}
