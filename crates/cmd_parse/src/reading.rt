//! Readers over words, one for each reader of `specs/Words.antt`: what was read and the words after
//! it, or why reading stops.
ghost use Rattle.std.specs.Prelude.{◌≡◌, ◌≢◌, ◌<◌, ◌+◌, ◌^◌, length, Err, IfOk};
ghost use Rattle.cmd_parse.specs.Gives.{Gives};
ghost use Rattle.cmd_parse.specs.Words.{word_at, number_at, counted_at};
ghost use Rattle.cmd_parse.specs.declared.stop.Stop.TheVariants.{Fault, NoMemory};

use crate::stop::{Cause, Stop};
use ft_base::{Words, read_int};

/// A fault at the first of these words, or at the end of all where there is none.
pub fn fault(cause: Cause, words: &Words<'_>) -> Stop
    ensures { result ≡ Fault cause (length words.now) }
{
    Stop::Fault {
        cause,
        left: words.len(),
    }
}

/// The next word.
pub fn word<'a>(words: &Words<'a>) -> Result<(&'a [u8], Words<'a>), Stop>
    ensures read { Gives (λ x. (x.0.now, x.1)) result (word_at words.now) }
    ensures shorter { IfOk result (λ x. length x.1 < length words.now) }
{
    match words.split_first() {
        Some(found) => Ok(found),
        None => Err(fault(Cause::Syntax, words)),
    }
}

/// The next word as a number that is not negative.
#[tactic(auto, unfolding(crate::specs::Words::number_at))]
pub fn number<'a>(words: &Words<'a>) -> Result<(usize, Words<'a>), Stop>
    ensures read { Gives (λ x. x) result (number_at words.now) }
    ensures memory { result ≢ Err NoMemory }
    ensures bits { IfOk result (λ x. x.0 < 2 ^ 63) }
    ensures shorter { IfOk result (λ x. length x.1 < length words.now) }
{
    let Some((word, rest)) = words.split_first() else {
        return Err(fault(Cause::Syntax, words));
    };
    let Some(number) = read_int(word) else {
        return Err(fault(Cause::Syntax, words));
    };
    if number < 0 {
        return Err(fault(Cause::Syntax, words));
    }
    Ok((number as u64 as usize, rest))
}

/// A number, and so many words behind it.
pub fn counted<'a>(words: &Words<'a>) -> Result<(Words<'a>, Words<'a>), Stop>
    ensures read { Gives (λ x. x) result (counted_at words.now) }
    ensures within { IfOk result (λ x. length x.0 + length x.1 < length words.now) }
{
    let (count, rest) = match number(words) {
        Ok(read) => read,
        Err(stop) => return Err(stop),
    };
    if rest.len() < count {
        return Err(fault(Cause::Syntax, words));
    }
    Ok((rest.part(0, count), rest.rest(count)))
}
