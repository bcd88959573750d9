//! What a byte of a text, or a number, costs by lanes and one by one: prints it with an argument, and nothing without.
//!
//! Run it natively, as `rt run -- measure`, on a machine that does little else. Each figure is the least of many tries.
#![tactic(auto)]

mod drawn;
mod loops;

use drawn::{numbers_of, text_of};
use loops::{Numbers, Texts, Way, Which};
use std::hint::black_box;
use std::time::Instant;
use std::{env, io};

const TRIES: u64 = 200;

/// How often a loop is gone through in one try, so that the clock's own cost is small.
const ROUNDS: u64 = 20;

fn main(rt: HostRuntime) -> io::Result<()> {
    if env::args(&rt)?.count() < 2 {
        return Ok(());
    }
    'words: for word in [5, 9, 40, 1_024] {
        print_text(&rt, 1_024, word)?;
    }
    print_text(&rt, 24, 5)?;
    print_numbers(&rt, 1_025)
}

fn print_text(rt: &HostRuntime, size: usize, word: usize) -> io::Result<()> {
    let text = text_of(rt.alloc(), size, word)?;
    let mut texts = Texts::new(rt.alloc(), size)?;
    print!(rt; "text of {size} bytes, words of {word}; picoseconds a byte:")?;
    print_way(rt, "one by one", Way::Plain, text.as_slice(), &mut texts)?;
    print_way(
        rt,
        "first_separator",
        Way::Separators,
        text.as_slice(),
        &mut texts,
    )?;
    print_way(rt, "lower_into", Way::Lowered, text.as_slice(), &mut texts)?;
    print_way(rt, "tokens", Way::Tokens, text.as_slice(), &mut texts)?;
    println!(rt; "")
}

fn print_way(
    rt: &HostRuntime,
    name: &str,
    way: Way,
    text: &[u8],
    texts: &mut Texts,
) -> io::Result<()> {
    let mut least = u128::MAX;
    'tries: for _ in 0..TRIES {
        let start = Instant::now(rt)?;
        'rounds: for _ in 0..ROUNDS {
            let _ = black_box(texts.go(way, black_box(text))?);
        }
        least = least.min(start.elapsed(rt)?.as_nanos());
    }
    print!(rt; " {name} {}", each(least, text.len()))
}

// Picoseconds for each of so many.
fn each(nanos: u128, count: usize) -> u128 {
    let all = (count as u128).saturating_mul(u128::from(ROUNDS)).max(1);
    nanos.saturating_mul(1_000) / all
}

fn print_numbers(rt: &HostRuntime, count: usize) -> io::Result<()> {
    let values = numbers_of(rt.alloc(), count)?;
    let mut numbers = Numbers::new(rt.alloc(), values)?;
    print!(rt; "{count} numbers; picoseconds a number:")?;
    print_which(rt, "one by one", Which::Plain, &mut numbers)?;
    print_which(rt, "in_range", Which::InRange, &mut numbers)?;
    print_which(rt, "count_true", Which::CountTrue, &mut numbers)?;
    print_which(rt, "a copy sorted", Which::Sorted, &mut numbers)?;
    println!(rt; "")
}

fn print_which(
    rt: &HostRuntime,
    name: &str,
    which: Which,
    numbers: &mut Numbers,
) -> io::Result<()> {
    let mut least = u128::MAX;
    'tries: for _ in 0..TRIES {
        let start = Instant::now(rt)?;
        'rounds: for round in 0..ROUNDS {
            let _ = black_box(numbers.go(which, black_box(round as i64))?);
        }
        least = least.min(start.elapsed(rt)?.as_nanos());
    }
    print!(rt; " {name} {}", each(least, numbers.len()))
}
