//! What is measured on: texts and numbers that are drawn, the same in each run.
use ft_base::NoMemory;
use std::alloc::Global;

/// A generator of numbers (a linear congruence of 64 bits), of which the upper 31 bits are drawn.
#[derive(Clone, Copy)]
pub struct Drawn {
    state: u64,
}

impl Drawn {
    pub fn new() -> Drawn {
        Drawn {
            state: 88_172_645_463_325_252,
        }
    }

    fn next(&mut self) -> u64 {
        self.state = self
            .state
            .wrapping_mul(6_364_136_223_846_793_005)
            .wrapping_add(1_442_695_040_888_963_407);
        self.state >> 33
    }
}

/// A text of so many bytes whose words have so many letters, some of them capitals. One byte parts two words.
pub fn text_of(alloc: Global, size: usize, word: usize) -> Result<Vec<u8>, NoMemory> {
    let mut drawn = Drawn::new();
    let mut text = Vec::with_capacity(alloc, size)?;
    let mut run: usize = 0;
    'bytes: for _ in 0..size {
        run = if run < word { run + 1 } else { 0 };
        text.push(byte_of(drawn.next(), run))?;
    }
    Ok(text)
}

// A letter of a word, or what parts two of them.
fn byte_of(drawn: u64, run: usize) -> u8 {
    let letter = (drawn % 26) as u8;
    if run == 0 {
        b' '
    } else if drawn % 11 == 0 {
        b'A' + letter
    } else {
        b'a' + letter
    }
}

/// So many numbers from 0 to 1,023.
pub fn numbers_of(alloc: Global, count: usize) -> Result<Vec<i64>, NoMemory> {
    let mut drawn = Drawn::new();
    let mut numbers = Vec::with_capacity(alloc, count)?;
    'numbers: for _ in 0..count {
        numbers.push((drawn.next() % 1_024) as i64)?;
    }
    Ok(numbers)
}
