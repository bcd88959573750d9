//! Iterators made of their parts.
ghost use Rattle.std.specs.Prelude.{◌≡◌, [], ◌∷◌, not, true, false, ℕ, map, IfOk};
ghost use Rattle.std.specs.List.{All, flat_map};
ghost use Rattle.id_iters.specs.Fitting.{leaves_of, leaves_of_ahead};
ghost use Rattle.id_iters.specs.Held.{Held};
ghost use Rattle.id_iters.specs.Leaves.{leaf_has, phrase_ids};
ghost use Rattle.id_iters.specs.Places.{LeafReady, LeavesReady};
ghost use Rattle.id_iters.specs.Ready.{Ready, AheadReady};
ghost use Rattle.id_iters.specs.Sets.{about, about_ahead, all_have, any_has};

use crate::bits::Bits;
use crate::iter::{Ahead, Iter};
use crate::leaf::Leaf;
use crate::phrase::PhraseIter;
use ft_base::{ListOf, NoMemory};
use std::alloc::Global;

impl Iter {
    /// The ids of a leaf.
    pub fn of_leaf(leaf: Leaf) -> Iter
        ensures set { (held : Held) → (about held result).has ≡ leaf_has held leaf }
        ensures ready { (held : Held) (from : ℕ)
            → LeafReady held leaf from → Ready held result from }
        ensures leaves { leaves_of result ≡ leaf ∷ [] }
    {
        Iter::Leaf(leaf)
    }

    /// The ids where the words of a phrase stand together.
    pub fn of_phrase(phrase: PhraseIter) -> Iter
        ensures set { (held : Held) → (about held result).has ≡ phrase_ids held phrase }
        ensures ready { (held : Held) (from : ℕ)
            → LeavesReady held phrase.words from → Ready held result from }
        ensures leaves { leaves_of result ≡ phrase.words }
    {
        Iter::Phrase(phrase)
    }

    /// The ids that every part has.
    pub fn of_every(parts: ListOf<Iter>) -> Iter
        ensures set { (held : Held) → (about held result).has ≡ all_have (map (about held) parts) }
        ensures ready { (held : Held) (from : ℕ)
            → All (λ part. Ready held part from) parts → Ready held result from }
        ensures leaves { leaves_of result ≡ flat_map leaves_of parts }
    {
        Iter::And(parts)
    }

    /// The ids that some part has. Where it is to be frugal, a part that is a leaf gives its memory back each time that its ids were
    /// read into the bits of a stretch, and reads the last block again for the next one.
    pub fn of_some(alloc: Global, parts: ListOf<Ahead>, frugal: bool) -> Iter
        ensures set { (held : Held)
            → (about held result).has ≡ any_has (map (about_ahead held) parts) }
        ensures ready { (held : Held) (from : ℕ)
            → All (λ part. AheadReady held part from) parts → Ready held result from }
        ensures leaves { leaves_of result ≡ flat_map leaves_of_ahead parts }
    {
        let stretch = Bits::new(alloc, frugal);
        Iter::Or { parts, stretch }
    }

    /// The ids that the part has not.
    pub fn of_other(alloc: Global, part: Iter) -> Result<Iter, NoMemory>
        ensures set { IfOk result (λ made. (held : Held)
            → (about held made).has ≡ (λ id. not ((about held part).has id))) }
        ensures ready { IfOk result (λ made. (held : Held) (from : ℕ)
            → Ready held part from → Ready held made from) }
        ensures leaves { IfOk result (λ made. leaves_of made ≡ leaves_of part) }
    {
        let ahead = Ahead::new(part);
        let boxed = Box::new(alloc, ahead)?;
        Ok(Iter::Not(boxed))
    }

    /// All ids, whatever the part has.
    pub fn of_optional(alloc: Global, part: Iter) -> Result<Iter, NoMemory>
        ensures set { IfOk result (λ made. (held : Held)
            → (about held made).has ≡ (λ id. true)) }
        ensures ready { IfOk result (λ made. (held : Held) (from : ℕ) → Ready held made from) }
        ensures leaves { IfOk result (λ made. leaves_of made ≡ leaves_of part) }
    {
        Ok(Iter::Optional(Box::new(alloc, part)?))
    }

    /// All ids.
    pub fn of_all() -> Iter
        ensures set { (held : Held) → (about held result).has ≡ (λ id. true) }
        ensures ready { (held : Held) (from : ℕ) → Ready held result from }
        ensures leaves { leaves_of result ≡ [] }
    {
        Iter::All
    }

    /// No id.
    pub fn of_none() -> Iter
        ensures set { (held : Held) → (about held result).has ≡ (λ id. false) }
        ensures ready { (held : Held) (from : ℕ) → Ready held result from }
        ensures leaves { leaves_of result ≡ [] }
    {
        Iter::Empty
    }
}
