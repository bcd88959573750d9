//! Events given to the engine in order: a run succeeds, with one outcome for each event.
ghost use Rattle.std.specs.Prelude.{IfSome};
ghost use Rattle.std.specs.List.{All};
ghost use Rattle.history_core.specs.Running.{IsLawful};

use ft_base::{Bytes, Frame, ListOf};
use ft_engine::Engine;
use gc_splice::Spliced;
use history_core::{Event, Outcome, run};
use row_text::{is_small, part};
use std::alloc::Global;
use std::hash::RandomState;
use std::random::RandomSource;

/// The command of a line of words with one `|` between each two.
fn command(alloc: Global, line: &[u8]) -> Option<Event>
    ensures { IfSome result (λ event. IsLawful event) }
{
    let mut spans = Vec::new(alloc);
    part(line, b'|', &mut spans);
    if !is_small(line, spans.as_slice()) {
        return None;
    }
    let frame = Frame {
        bytes: Bytes::from_slice(alloc, line).ok()?,
        spans: ListOf::from_vec(spans),
    };
    Some(Event::Exec {
        caller: 0,
        now: 5,
        frame,
    })
}

/// Three commands, each of which finds what the one before it left.
fn three_commands(alloc: Global) -> Option<[Event; 3]>
    ensures { IfSome result (λ events. All IsLawful events) }
{
    let first = command(alloc, b"HSET|h|n|1")?;
    let second = command(alloc, b"HINCRBY|h|n|1")?;
    Some([first, second, command(alloc, b"HGET|h|n")?])
}

/// Whether a new engine answers the events so, with one outcome for each, and has this number for the next one.
fn come_to<R: RandomSource>(rt: &R, alloc: Global, events: &[Event], want: &[u8], next: u64) -> bool
    requires { All IsLawful events.now }
{
    let Ok(hashing) = RandomState::new(rt) else {
        return false;
    };
    let Ok(mut engine) = Engine::new(alloc, hashing) else {
        return false;
    };
    let Ok(outcomes) = run(alloc, &mut engine, events) else {
        return false;
    };
    let is_counted = (outcomes.len() == events.len()) & (engine.next() == next);
    is_counted & are_replies(alloc, outcomes.as_slice(), want)
}

/// Whether the replies of outcomes, one behind another, are this.
fn are_replies(alloc: Global, outcomes: &[Outcome<Spliced>], want: &[u8]) -> bool {
    let mut all = Vec::new(alloc);
    for outcome in outcomes {
        if let Outcome::Replied(reply) = outcome {
            let _ = all.extend_from_slice(reply.as_slice());
        }
    }
    all.as_slice() == want
}

#[test]
fn answers_in_order(rt: HostRuntime) {
    let answered = match three_commands(rt.alloc()) {
        Some(events) => come_to(&rt, rt.alloc(), &events, b":1\r\n:2\r\n$1\r\n2\r\n", 4),
        None => false,
    };
    assert!(rt; answered);
}

#[test]
fn nothing_asked_is_nothing_done(rt: HostRuntime) {
    assert!(rt; come_to(&rt, rt.alloc(), &[], b"", 1));
}
