//! A pace that sleeps, behind the trait of the outside.
//!
//! Whoever asks it works between two of its answers. It rests three times as long as that work took, so the work takes at
//! most a quarter of one processor. Short work is rested for together: it answers at once until a millisecond of work has come
//! together. Where a round ends and less came together, nothing was due, and it rests a while. While it rests it looks at its
//! flag again and again, and answers at once where that is set.
ghost use Rattle.std.specs.Prelude.{◌≡◌, ◌<◌, ◌≤◌, ◌*◌, ◌-◌, ◌^◌, min, Bool, None, true, false};

use fs_ports::Pace;
use std::alloc::Global;
use std::marker::Model;
use std::sync::Arc;
use std::sync::atomic::{AtomicBool, Ordering};
use std::thread;
use std::time::{Duration, Instant};

/// The microseconds of work that come together before it rests. At the end of a round fewer are hardly any work.
const HARDLY_ANY: u64 = 1_000;

/// How long it rests behind a round of hardly any work, and how long it sleeps at the most before it looks at its flag again,
/// in microseconds.
const PAUSE: u64 = 10_000;

/// How often its rest is as long as the work before it.
const REST_TIMES: u64 = 3;

/// A pace that rests by the time that the work before took, and answers false once its flag is set.
#[derive(Drop)]
pub struct SleepPace<R: std::rt::Clock + Drop> {
    rt: R,
    stop: Arc<AtomicBool, Global>,
    stopped: bool,
    // When it answered last. None before its first answer, and where the clock told nothing.
    answered: Option<Instant>,
    // The microseconds of work before that, for which it has not rested.
    owed: u64,
    // Whether a round has ended since it answered last.
    is_round_over: bool,
}

impl<R: std::rt::Clock + Drop> Model for SleepPace<R> {
    ghost Value = { Bool };

    ghost view = { λ p. p.stopped };
}

impl<R: std::rt::Clock + Drop> SleepPace<R> {
    /// A pace that was not asked yet.
    pub fn new(rt: R, stop: Arc<AtomicBool, Global>) -> SleepPace<R>
        ensures { result ≡ false }
    {
        SleepPace {
            rt,
            stop,
            stopped: false,
            answered: None,
            owed: 0,
            is_round_over: false,
        }
    }

    // Whether its flag is set.
    fn is_told_to_stop(&self) -> bool {
        self.stop.load(Ordering::SeqCst)
    }

    // The microseconds since it answered last, and 0 where that is not known.
    fn worked(&self) -> u64 {
        let Some(answered) = self.answered else {
            return 0;
        };
        match answered.elapsed(&self.rt) {
            Ok(time) => u64::try_from(time.as_micros()).unwrap_or(u64::MAX),
            Err(_) => 0,
        }
    }

    // Sleeps so many microseconds, and less where its flag is set.
    fn rest(&self, micros: u64) {
        let mut left = micros;
        while left > 0 && !self.is_told_to_stop() {
            let slice = left.min(PAUSE);
            thread::sleep(&self.rt, Duration::from_micros(slice));
            left -= slice;
        }
    }
}

/// How many microseconds of rest are due behind so many of work.
fn rest_for(worked: u64, is_round_over: bool) -> u64
    ensures more { 1_000 ≤ worked → result ≡ min (worked * 3) (2 ^ 64 - 1) }
    ensures hardly { worked < 1_000 → is_round_over ≡ true → result ≡ 10_000 }
    ensures none { worked < 1_000 → is_round_over ≡ false → result ≡ 0 }
{
    if worked >= HARDLY_ANY {
        return worked.saturating_mul(REST_TIMES);
    }
    if is_round_over { PAUSE } else { 0 }
}

impl<R: std::rt::Clock + Drop> Pace for SleepPace<R> {
    ghost stopped = { λ p. p };

    ghost asked = { λ _. None };

    fn between(&mut self) -> bool {
        let worked = self.owed.saturating_add(self.worked());
        let micros = rest_for(worked, self.is_round_over);
        self.rest(micros);
        self.owed = if micros == 0 { worked } else { 0 };
        self.is_round_over = false;
        self.stopped = self.is_told_to_stop();
        self.answered = Instant::now(&self.rt).ok();
        !self.stopped
    }

    fn end_round(&mut self) {
        self.is_round_over = true;
    }
}
