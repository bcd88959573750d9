//! A cursor that is open, and what a read makes of it.
ghost use Rattle.std.specs.Prelude.{◌≡◌, ◌≤◌, ◌+◌};
ghost use Rattle.cursor_book.specs.Cursors.{body_left, cursor_read, is_idle};

use crate::rows_left::RowsLeft;
use agg_pipeline::StreamSteps;
use ft_base::Query;

/// A cursor (RediSearch, FT.CURSOR). Moments are in milliseconds.
#[derive(Drop)]
pub struct Cursor {
    /// The number of the event that opened it.
    pub id: u64,
    /// The serial of its index: the number of the event that created the index.
    pub serial: u64,
    /// The moment of its opening or of its last read.
    pub last_use: u64,
    /// How long it may be left without a read.
    pub max_idle: u32,
    /// How many rows a read gives that names no number.
    pub count: u32,
    pub body: Body,
}

/// What is left for a cursor.
#[derive(Drop)]
pub enum Body {
    /// The rows that are left of a pipeline that was worked out at the opening.
    Rows(RowsLeft),
    /// The query and the steps of a stream, which has given the rows of its documents up to the id `after`.
    Stream {
        query: Query,
        steps: StreamSteps,
        after: u64,
    },
}

/// What a read takes of a cursor.
#[derive(Clone, Copy, Drop)]
pub enum Taken {
    /// So many of the rows that are left.
    Rows(usize),
    /// The documents of a stream up to this id.
    UpTo(u64),
}

impl Cursor {
    /// Whether the last use is longer ago than the cursor may be left.
    pub fn is_idle(&self, now: u64) -> bool
        ensures { result ≡ is_idle now self.now }
    {
        now.saturating_sub(self.last_use) > u64::from(self.max_idle)
    }

    /// A moment up to which the cursor is not idle: the last one that a `u64` can tell.
    pub fn end(&self) -> u64
        ensures { result ≤ self.now.last_use + self.now.max_idle }
    {
        self.last_use.saturating_add(u64::from(self.max_idle))
    }

    /// A read at a moment.
    pub fn read(&mut self, now: u64, taken: Taken)
        ensures { self.new ≡ cursor_read now taken self.old }
    {
        self.last_use = now;
        self.body.take(taken);
    }
}

impl Body {
    /// What is left behind a read.
    pub fn take(&mut self, taken: Taken)
        ensures { self.new ≡ body_left taken self.old }
    {
        match (self, taken) {
            (Body::Rows(rows), Taken::Rows(count)) => rows.take(count),
            (Body::Stream { after, .. }, Taken::UpTo(id)) => *after = id,
            _ => {}
        }
    }
}
