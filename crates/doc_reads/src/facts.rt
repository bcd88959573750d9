//! What holds of a store.
ghost use Rattle.std.specs.Prelude.{◌<◌, ◌^◌, map};
ghost use Rattle.std.specs.List.Sorted.{IsStrictlyIncreasing};

use hash_store::HashStore;

/// Tells that the ids of a store's documents rise, so that each is that of one document, and that the count of reads has
/// 64 bits.
pub fn tell(store: &HashStore)
    ensures rise { IsStrictlyIncreasing (map (λ doc. doc.id) store.now.space) }
    ensures bits { store.now.reads < 2 ^ 64 }
{
    let _count = store.len();
    let _reads = store.reads();
}
