//! A history beside its commands alone.
ghost use Rattle.std.specs.Prelude.{IfOk, IfSome};
ghost use Rattle.std.specs.List.{All};
ghost use Rattle.history_core.specs.Running.{IsLawful};

use ft_base::{Bytes, Frame, ListOf, NoMemory, Span};
use ft_engine::Engine;
use gc_splice::Spliced;
use history_core::{Event, Outcome, run};
use row_text::is_small;
use std::alloc::Global;
use std::hash::RandomState;
use std::random::RandomSource;

/// What FT.INFO calls the number of entries.
const RECORDS: &[u8] = b"num_records\r\n";

/// What PING is answered.
const PONG: &[u8] = b"+PONG\r\n";

/// What was drawn so far, what the splices came to, and how many histories differ.
#[derive(Default, Drop)]
pub struct Tally {
    pub commands: u64,
    pub scans: u64,
    pub done: u64,
    pub moved: u64,
    pub gone: u64,
    pub clean: u64,
    pub differ: u64,
}

/// Runs the events, and the commands among them alone, and counts.
pub fn compare<R: RandomSource>(
    rt: &R,
    alloc: Global,
    events: Vec<Event>,
    tally: &mut Tally,
) -> Result<(), NoMemory>
    requires { All IsLawful events.items }
{
    let outcomes = run_new(rt, alloc, events.as_slice())?;
    let commands = commands_of(alloc, events.as_slice(), outcomes.as_slice())?;
    let wanted = run_new(rt, alloc, commands.as_slice())?;
    let came = replies(alloc, outcomes.as_slice(), tally)?;
    let mut unused = Tally::default();
    let wanted = replies(alloc, wanted.as_slice(), &mut unused)?;
    if came.as_slice() != wanted.as_slice() {
        tally.differ = tally.differ.saturating_add(1);
    }
    Ok(())
}

// The outcomes of events on a new engine.
fn run_new<R: RandomSource>(
    rt: &R,
    alloc: Global,
    events: &[Event],
) -> Result<ListOf<Outcome<Spliced>>, NoMemory>
    requires { All IsLawful events.now }
{
    let Ok(hashing) = RandomState::new(rt) else {
        return Err(NoMemory);
    };
    let mut engine = Engine::new(alloc, hashing)?;
    run(alloc, &mut engine, events)
}

// The commands among events, with a PING in place of each scan and each splice that happened.
fn commands_of(
    alloc: Global,
    events: &[Event],
    outcomes: &[Outcome<Spliced>],
) -> Result<Vec<Event>, NoMemory>
    requires { All IsLawful events.now }
    ensures { IfOk result (λ commands. All IsLawful commands.items) }
{
    let mut commands = Vec::new(alloc);
    let mut left = outcomes.iter();
    for event in events {
        if let Some(outcome) = left.next() {
            add_command(alloc, event, outcome, &mut commands)?;
        }
    }
    Ok(commands)
}

fn add_command(
    alloc: Global,
    event: &Event,
    outcome: &Outcome<Spliced>,
    commands: &mut Vec<Event>,
) -> Result<(), NoMemory>
    requires lawful { IsLawful event.now }
    requires all { All IsLawful commands.old.items }
    ensures { All IsLawful commands.new.items }
{
    if let Some(command) = command_of(alloc, event, outcome)? {
        commands.push(command)?;
    }
    Ok(())
}

// The command that an event is, or a PING where it is another that happened.
fn command_of(
    alloc: Global,
    event: &Event,
    outcome: &Outcome<Spliced>,
) -> Result<Option<Event>, NoMemory>
    requires { IsLawful event.now }
    ensures { IfOk result (λ command. IfSome command IsLawful) }
{
    match (event, outcome) {
        (Event::Exec { caller, now, frame }, _) => Ok(Some(Event::Exec {
            caller: *caller,
            now: *now,
            frame: Frame::copy(alloc, frame.words())?,
        })),
        (_, Outcome::Clean | Outcome::NoPicture) => Ok(None),
        (Event::Splice { .. }, Outcome::NoMemory) => Ok(None),
        _ => ping(alloc),
    }
}

fn ping(alloc: Global) -> Result<Option<Event>, NoMemory>
    ensures { IfOk result (λ command. IfSome command IsLawful) }
{
    let bytes = Bytes::from_slice(alloc, b"PING")?;
    let spans = Vec::from_slice(alloc, &[Span { from: 0, to: 4 }])?;
    if !is_small(bytes.as_slice(), spans.as_slice()) {
        return Ok(None);
    }
    Ok(Some(Event::Exec {
        caller: 0,
        now: 0,
        frame: Frame {
            bytes,
            spans: ListOf::from_vec(spans),
        },
    }))
}

// The replies, one behind another, with that of PING for each other event that happened.
fn replies(
    alloc: Global,
    outcomes: &[Outcome<Spliced>],
    tally: &mut Tally,
) -> Result<Vec<u8>, NoMemory> {
    let mut out = Vec::new(alloc);
    for outcome in outcomes {
        count(outcome, tally);
        match outcome {
            Outcome::Replied(reply) => put_reply(&mut out, reply.as_slice())?,
            Outcome::Clean | Outcome::NoPicture => {}
            _ => out.extend_from_slice(PONG)?,
        }
    }
    Ok(out)
}

// Appends a reply, without the number of records.
fn put_reply(out: &mut Vec<u8>, reply: &[u8]) -> Result<(), NoMemory> {
    match behind_records(reply) {
        Some((first, rest)) => {
            out.extend_from_slice(first)?;
            out.extend_from_slice(rest)
        }
        None => out.extend_from_slice(reply),
    }
}

// What stands before the number of records in a reply, and what behind it.
fn behind_records(reply: &[u8]) -> Option<(&[u8], &[u8])> {
    for at in 0..reply.len() {
        let (first, rest) = reply.split_at(at);
        if let Some(number) = rest.strip_prefix(RECORDS) {
            let end = number.iter().position(|byte| *byte == b'\n')?;
            return Some((first, number.split_at(end).1));
        }
    }
    None
}

// Counts what an event came to.
fn count(outcome: &Outcome<Spliced>, tally: &mut Tally) {
    let which = match outcome {
        Outcome::Replied(_) => &mut tally.commands,
        Outcome::Scanned { .. } => &mut tally.scans,
        Outcome::Spliced(Spliced::Done { .. }) => &mut tally.done,
        Outcome::Spliced(Spliced::Moved { .. }) => &mut tally.moved,
        Outcome::Spliced(_) => &mut tally.gone,
        Outcome::Clean => &mut tally.clean,
        _ => return,
    };
    *which = which.saturating_add(1);
}
