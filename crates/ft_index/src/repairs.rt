//! The repair of a list of an index, by the kind of the list.
use gc_splice::Repair;
use posting_block::{NumHit, TagHit, TextHit};

/// The repair of the list of a word, of a tag, or of a range.
pub enum AnyRepair {
    Word(Repair<TextHit>),
    Tag(Repair<TagHit>),
    Range(Repair<NumHit>),
}

// Written out, it is one step for whoever drops a repair.
impl Drop for AnyRepair {
    fn drop(self) {
        match self {
            AnyRepair::Word(repair) => drop(repair),
            AnyRepair::Tag(repair) => drop(repair),
            AnyRepair::Range(repair) => drop(repair),
        }
    }
}
