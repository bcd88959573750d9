//! The loops that are measured.
use ft_base::{MAX_WORD_BYTES, NamedList, NoMemory, StopWords, is_separator};
use lane_kernels::{count_true, first_separator, in_range, lower_into};
use std::alloc::Global;
use token_text::tokens;

/// How a text is gone through.
#[derive(Clone, Copy)]
pub enum Way {
    /// Byte by byte: each is lowered and pushed, and the words counted.
    Plain,
    /// From separator to separator.
    Separators,
    /// Lowered as a whole.
    Lowered,
    /// Cut into its tokens.
    Tokens,
}

/// What the loops over a text write into.
#[derive(Drop)]
pub struct Texts {
    alloc: Global,
    pushed: Vec<u8>,
    lowered: Vec<u8>,
    stops: StopWords,
}

impl Texts {
    pub fn new(alloc: Global, size: usize) -> Result<Texts, NoMemory> {
        let stops = StopWords {
            words: NamedList::new(alloc),
        };
        Ok(Texts {
            alloc,
            pushed: Vec::with_capacity(alloc, size)?,
            lowered: vec![in alloc; 0u8; size]?,
            stops,
        })
    }

    /// Goes through a text, and gives how many words or separators it found.
    #[inline(never)]
    pub fn go(&mut self, way: Way, text: &[u8]) -> Result<usize, NoMemory> {
        match way {
            Way::Plain => push_lowered(text, &mut self.pushed),
            Way::Separators => Ok(separators(text)),
            Way::Lowered => Ok(self.lower(text)),
            Way::Tokens => self.cut(text),
        }
    }

    fn lower(&mut self, text: &[u8]) -> usize {
        if text.len() == self.lowered.len() {
            lower_into(text, self.lowered.as_mut_slice());
        }
        self.lowered.len()
    }

    fn cut(&self, text: &[u8]) -> Result<usize, NoMemory> {
        if MAX_WORD_BYTES < text.len() {
            return Ok(0);
        }
        let found = tokens(self.alloc, text, &self.stops)?;
        Ok(found.len())
    }
}

fn push_lowered(text: &[u8], out: &mut Vec<u8>) -> Result<usize, NoMemory> {
    let mut count: usize = 0;
    out.clear();
    'bytes: for byte in text {
        if is_separator(*byte) {
            count = count.saturating_add(1);
        } else {
            out.push(byte.to_ascii_lowercase())?;
        }
    }
    Ok(count)
}

fn separators(text: &[u8]) -> usize {
    let mut count: usize = 0;
    let mut from: usize = 0;
    'words: for _ in 0..text.len() {
        if text.len() <= from {
            break;
        }
        let place = first_separator(text, from);
        count = count.saturating_add(1);
        from = place.saturating_add(1);
    }
    count
}

/// How numbers are gone through.
#[derive(Clone, Copy)]
pub enum Which {
    /// One by one: those of an interval are counted.
    Plain,
    /// A flag for each, whether it lies in an interval.
    InRange,
    /// The flags that are set are counted.
    CountTrue,
    /// A copy is sorted.
    Sorted,
}

/// Numbers, and a flag for each.
#[derive(Drop)]
pub struct Numbers {
    values: Vec<i64>,
    flags: Vec<bool>,
    copy: Vec<i64>,
}

impl Numbers {
    pub fn new(alloc: Global, values: Vec<i64>) -> Result<Numbers, NoMemory> {
        let flags = vec![in alloc; false; values.len()]?;
        let copy = Vec::with_capacity(alloc, values.len())?;
        Ok(Numbers {
            values,
            flags,
            copy,
        })
    }

    pub fn len(&self) -> usize {
        self.values.len()
    }

    /// Goes through the numbers, and gives how many it counted.
    #[inline(never)]
    pub fn go(&mut self, which: Which, low: i64) -> Result<usize, NoMemory> {
        match which {
            Which::Plain => Ok(between(self.values.as_slice(), low, 700)),
            Which::InRange => Ok(self.flag(low)),
            Which::CountTrue => Ok(count_true(self.flags.as_slice())),
            Which::Sorted => self.sort(),
        }
    }

    fn flag(&mut self, low: i64) -> usize {
        if self.values.len() == self.flags.len() {
            in_range(self.values.as_slice(), low, 700, self.flags.as_mut_slice());
        }
        0
    }

    fn sort(&mut self) -> Result<usize, NoMemory> {
        self.copy.clear();
        self.copy.extend_from_slice(self.values.as_slice())?;
        self.copy.sort_unstable();
        Ok(self.copy.len())
    }
}

fn between(values: &[i64], low: i64, high: i64) -> usize {
    let mut count: usize = 0;
    'values: for value in values {
        if low <= *value && *value <= high {
            count = count.saturating_add(1);
        }
    }
    count
}
