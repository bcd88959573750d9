//! Pictures of the lists of an index, under the lists' names, with the ids that were live.
ghost use Rattle.std.specs.Prelude.{◌≡◌};

use doc_table::LiveIds;
use ft_base::ListOf;
use gc_splice::Live;
use id_iters::ListName;
use inverted_list::Picture;
use posting_block::{NumHit, TagHit, TextHit};

/// The picture of the list of a word, of a tag, or of a range.
pub enum AnyPicture {
    Word(Picture<TextHit>),
    Tag(Picture<TagHit>),
    Range(Picture<NumHit>),
}

// Written out, it is one step for whoever drops a picture.
impl Drop for AnyPicture {
    fn drop(self) {
        match self {
            AnyPicture::Word(picture) => drop(picture),
            AnyPicture::Tag(picture) => drop(picture),
            AnyPicture::Range(picture) => drop(picture),
        }
    }
}

/// The picture of a list, and the list's name.
pub struct NamedPicture {
    pub name: ListName,
    pub picture: AnyPicture,
}

impl Drop for NamedPicture {
    fn drop(self) {
        let NamedPicture { name, picture } = self;
        drop(name);
        drop(picture);
    }
}

/// What an index was at the number of an event: the ids that were live then, and pictures of lists. The serial is the index's.
pub struct Snapshot {
    pub serial: u64,
    pub number: u64,
    pub live: LiveIds,
    pub lists: ListOf<NamedPicture>,
}

impl Drop for Snapshot {
    fn drop(self) {
        let Snapshot {
            serial: _,
            number: _,
            live,
            lists,
        } = self;
        drop(live);
        drop(lists);
    }
}

// So that a list is repaired by what was live when it was pictured.
impl Live for Snapshot {
    ghost use Rattle.doc_table.specs.Pages.{has_id};

    ghost is = { λ snapshot id. has_id snapshot.live id };

    fn is_live(&self, id: u64) -> bool {
        self.live.contains(id)
    }
}
