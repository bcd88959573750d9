//! Why reading the words of a search stops.
ghost use Rattle.std.specs.Prelude.{◌≡◌};
ghost use Rattle.cmd_parse.specs.declared.stop.Stop.TheVariants as stops;

use ft_base::NoMemory;

/// What is wrong with a word.
#[derive(Clone, Copy)]
pub enum Cause {
    Syntax,
    Limit,
    OutOfScope,
}

/// Why reading stops: at a word, with the number of words from it on, or out of memory.
#[derive(Clone, Copy)]
pub enum Stop {
    Fault { cause: Cause, left: usize },
    NoMemory,
}

impl From<NoMemory> for Stop {
    ghost from_gives = { λ _ made. made ≡ stops.NoMemory };

    fn from(_: NoMemory) -> Stop {
        Stop::NoMemory
    }
}
