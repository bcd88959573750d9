//! What follows of the definitions: each function does nothing, and its contract is the law.
ghost use Rattle.std.specs.Prelude.{◌≡◌, ◌≤◌, ◌+◌, ℕ, List, drop, length};
ghost use Rattle.std.specs.List.{prefix_len};
ghost use Rattle.std.specs.Str.{str_to_ascii_lowercase};
ghost use Rattle.lane_kernels.specs.Separating.{is_word_byte};

/// From each place up to the next separator of a place, the next separator is the same one.
pub fn separated_between()
    ensures { (text : List ℕ) (from to : ℕ) → from ≤ to
        → to ≤ from + prefix_len is_word_byte (drop from text)
        → to + prefix_len is_word_byte (drop to text) ≡ from + prefix_len is_word_byte (drop from text) }
{}

/// A text that is lowered stays as it is where it is lowered again.
pub fn lowered_twice()
    ensures { (text : List ℕ)
        → str_to_ascii_lowercase (str_to_ascii_lowercase text) ≡ str_to_ascii_lowercase text }
{}
