//! How many flags are set.
//!
//! A plain loop: the compiler makes lanes of it by itself.
ghost use Rattle.std.specs.Prelude.{◌≡◌, count_by};

/// How many of the flags are set.
pub fn count_true(flags: &[bool]) -> usize
    ensures count { result ≡ count_by (λ flag. flag) flags.now }
{
    let mut count = 0;
    'flags: for flag in flags {
        if *flag {
            count += 1;
        }
    }
    count
}
