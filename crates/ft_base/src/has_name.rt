//! What has a name.
ghost use Rattle.std.specs.Prelude.{◌≡◌, List, ℕ};

use crate::bytes::Bytes;

/// A thing with a name that never changes. A word is its own name.
pub trait HasName: Drop {
    // The name.
    ghost name_of: { Self → List ℕ };

    /// The name.
    fn name(&self) -> &[u8]
        ensures { result.now ≡ name_of self.now };
}

impl HasName for Bytes {
    ghost name_of = { λ bytes. bytes };

    fn name(&self) -> &[u8] {
        self.as_slice()
    }
}
