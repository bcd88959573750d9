//! Readers over words, one for each reader of `specs/Reading.antt`: what was read and the words after
//! it, or why reading stops.
ghost use Rattle.std.specs.Prelude.{◌≡◌, ◌<◌, ◌≤◌, length, take, map, IfOk};
ghost use Rattle.ft_schema.specs.Gives.{Gives};
ghost use Rattle.ft_schema.specs.declared.fault.Stop.TheVariants.{Fault};
ghost use Rattle.ft_schema.specs.Reading.{word_at, count_at, weight_at, spelled};

use crate::fault::{Cause, Stop};
use ft_base::{Bytes, ListOf, NoMemory, Words, is_weight, read_int};
use std::alloc::Global;

/// A fault at the first of these words, or at the end of all where there is none.
pub fn fault(cause: Cause, words: &Words<'_>) -> Stop
    ensures { result ≡ Fault cause (length words.now) }
{
    Stop::Fault {
        cause,
        left: words.len(),
    }
}

/// The next word.
pub fn word<'a>(words: &Words<'a>) -> Result<(&'a [u8], Words<'a>), Stop>
    ensures read { Gives (λ x. (x.0.now, x.1)) result (word_at words.now) }
    ensures shorter { IfOk result (λ x. length x.1 < length words.now) }
{
    match words.split_first() {
        Some(found) => Ok(found),
        None => Err(fault(Cause::BadOption, words)),
    }
}

/// A count of the words that follow it, which is at least so much.
#[tactic(auto, unfolding(crate::specs::Reading::count_at))]
pub fn count<'a>(least: usize, words: &Words<'a>) -> Result<(usize, Words<'a>), Stop>
    ensures read { Gives (λ x. x) result (count_at least words.now) }
    ensures shorter { IfOk result (λ x. length x.1 < length words.now) }
    ensures within { IfOk result (λ x. x.0 ≤ length x.1) }
{
    let Some((word, rest)) = words.split_first() else {
        return Err(fault(Cause::BadOption, words));
    };
    let Some(number) = read_int(word) else {
        return Err(fault(Cause::BadNumber, words));
    };
    if number < 0 {
        return Err(fault(Cause::BadNumber, words));
    }
    let number = number as u64 as usize;
    if least <= number && number <= rest.len() {
        Ok((number, rest))
    } else {
        Err(fault(Cause::BadNumber, words))
    }
}

/// A weight, which has no effect; the words behind it.
#[tactic(auto, unfolding(crate::specs::Reading::weight_at))]
pub fn weight<'a>(words: &Words<'a>) -> Result<Words<'a>, Stop>
    ensures read { Gives (λ x. x) result (weight_at words.now) }
    ensures shorter { IfOk result (λ x. length x < length words.now) }
{
    let Some((word, rest)) = words.split_first() else {
        return Err(fault(Cause::BadOption, words));
    };
    if is_weight(word) {
        Ok(rest)
    } else {
        Err(fault(Cause::BadNumber, words))
    }
}

/// Copies of the first words, as they are or in lower case.
pub fn copies(
    alloc: Global,
    words: &Words<'_>,
    number: usize,
    lower: bool,
) -> Result<ListOf<Bytes>, NoMemory>
    requires { number ≤ length words.now }
    ensures { IfOk result (λ copies. copies ≡ map (spelled lower) (take number words.now)) }
{
    let mut copies = Vec::with_capacity(alloc, number)?;
    for place in 0..number {
        copies.push(copy(alloc, words.word(place), lower)?)?;
    }
    Ok(ListOf::from_vec(copies))
}

fn copy(alloc: Global, word: &[u8], lower: bool) -> Result<Bytes, NoMemory>
    ensures { IfOk result (λ copy. copy ≡ spelled lower word.now) }
{
    let mut copy = Vec::from_slice(alloc, word)?;
    if lower {
        copy.as_mut_slice().make_ascii_lowercase();
    }
    Ok(Bytes::from_vec(copy))
}
