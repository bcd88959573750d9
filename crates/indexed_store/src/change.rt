//! What a prepared command changes once it is committed.
use crate::waiting::CursorPlace;
use cursor_book::Taken;
use ft_base::{Boxed, Words};
use ft_index::FtIndex;
use hash_store::ReadyPut;

/// The most indexes that there may be.
pub const MOST_INDEXES: usize = 256;

/// What a command changes.
#[derive(Drop)]
pub enum Change<'a> {
    Nothing,
    /// The document that waits takes the place of its key's old one.
    Write(ReadyPut),
    /// The same, and then the document of this key is gone.
    Move(ReadyPut, &'a [u8]),
    /// The document of this key is gone.
    EraseKey(&'a [u8]),
    /// The documents of these keys are gone.
    EraseKeys(Words<'a>),
    /// The index goes last. (It is large, and each command makes a change and hands it on.)
    Create(Boxed<FtIndex>),
    /// The index takes the place of the one of its name.
    Alter(Boxed<FtIndex>),
    /// The index of this name is gone, and its cursors.
    Drop(&'a [u8]),
    /// The same, and the documents that are its members.
    DropMembers(&'a [u8]),
    /// The cursor that waits is open.
    OpenCursor,
    /// So much of the cursor there is read.
    ReadCursor(CursorPlace, Taken),
    /// The cursor there is gone.
    CloseCursor(CursorPlace),
    /// All cursors are gone.
    CloseCursors,
    /// All documents, indexes and cursors are gone.
    Flush,
}
