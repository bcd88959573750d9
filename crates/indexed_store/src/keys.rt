//! Which keys have a hash.
ghost use Rattle.std.specs.Prelude.{◌≡◌, is_some};
ghost use Rattle.ft_base.specs.Space.{doc_of};
ghost use Rattle.ft_machine.specs.Reads.{present};

use ft_base::Words;
use hash_store::HashStore;

/// Whether there is a hash of this key.
pub fn is_there(store: &HashStore, key: &[u8]) -> bool
    ensures { result ≡ is_some (doc_of store.now.space key.now) }
{
    store.has(key).is_some()
}

/// How many of the keys are there, repeats counted.
pub fn present(store: &HashStore, keys: &Words<'_>) -> usize
    ensures { result ≡ present store.now.space keys.now }
{
    let mut count = 0;
    for i in 0..keys.len() {
        if is_there(store, keys.word(i)) {
            count += 1;
        }
    }
    count
}
