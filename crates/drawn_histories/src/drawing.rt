//! Events that are drawn.
ghost use Rattle.std.specs.Prelude.{◌<◌, IfOk, IfSome};
ghost use Rattle.std.specs.List.{All};
ghost use Rattle.history_core.specs.Running.{IsLawful};

use crate::grammar::Grammar;
use ft_base::{Bytes, Frame, ListOf, NoMemory, Span};
use history_core::Event;
use rand_core::utils::NextWord;
use rand_pcg::Lcg64Xsh32;
use row_text::is_small;
use std::alloc::Global;

/// How many events are drawn for a history.
const EVENTS: u64 = 120;

/// So many commands begin a history: the first ones of the grammar, in their order.
const FIRST: u64 = 3;

/// The milliseconds from an event to the next.
const STEP: u64 = 1_000;

/// The most scans, and the most lists of one, that a splice names.
const SCANS: u32 = 8;

const LISTS: u32 = 16;

/// The events of one history.
pub fn draw_events(
    alloc: Global,
    grammar: &Grammar,
    rng: &mut Lcg64Xsh32,
) -> Result<Vec<Event>, NoMemory>
    ensures { IfOk result (λ events. All IsLawful events.items) }
{
    let mut events = Vec::new(alloc);
    for at in 0..EVENTS {
        add_event(alloc, grammar, rng, at, at * STEP, &mut events)?;
    }
    Ok(events)
}

// Adds an event that is drawn. A command with too many bytes is left out.
fn add_event(
    alloc: Global,
    grammar: &Grammar,
    rng: &mut Lcg64Xsh32,
    at: u64,
    now: u64,
    events: &mut Vec<Event>,
) -> Result<(), NoMemory>
    requires { All IsLawful events.old.items }
    ensures { All IsLawful events.new.items }
{
    if let Some(event) = draw_event(alloc, grammar, rng, at, now)? {
        events.push(event)?;
    }
    Ok(())
}

// Behind the first ones, one event of ten is a scan, and three are splices.
fn draw_event(
    alloc: Global,
    grammar: &Grammar,
    rng: &mut Lcg64Xsh32,
    at: u64,
    now: u64,
) -> Result<Option<Event>, NoMemory>
    ensures { IfOk result (λ drawn. IfSome drawn IsLawful) }
{
    if at < FIRST {
        let words = nth(grammar.commands.as_slice(), at as usize);
        return draw_command(alloc, grammar, words, rng, now);
    }
    match below(rng, 10) {
        0 => Ok(Some(draw_scan(alloc, rng)?)),
        1..=3 => Ok(Some(draw_splice(rng))),
        _ => {
            let at = place(grammar.commands.len(), rng);
            let words = nth(grammar.commands.as_slice(), at);
            draw_command(alloc, grammar, words, rng, now)
        }
    }
}

fn draw_scan(alloc: Global, rng: &mut Lcg64Xsh32) -> Result<Event, NoMemory>
    ensures { IfOk result IsLawful }
{
    let index = match below(rng, 3) {
        0 => b"ix",
        1 => b"iy",
        _ => b"iz",
    };
    Ok(Event::Scan {
        caller: 1,
        index: Bytes::from_slice(alloc, index)?,
    })
}

fn draw_splice(rng: &mut Lcg64Xsh32) -> Event
    ensures { IsLawful result }
{
    let scan = below(rng, SCANS) as usize;
    let list = below(rng, LISTS) as usize;
    Event::Splice {
        caller: 1,
        scan,
        list,
    }
}

// A command of these words.
fn draw_command(
    alloc: Global,
    grammar: &Grammar,
    words: &[Vec<u8>],
    rng: &mut Lcg64Xsh32,
    now: u64,
) -> Result<Option<Event>, NoMemory>
    ensures { IfOk result (λ drawn. IfSome drawn IsLawful) }
{
    let mut line = Vec::new(alloc);
    let mut spans = Vec::new(alloc);
    for word in words {
        add_word(&mut line, &mut spans, drawn(grammar, word.as_slice(), rng))?;
    }
    Ok(command(line, spans, now))
}

// The command of words, where they are few and short.
fn command(line: Vec<u8>, spans: Vec<Span>, now: u64) -> Option<Event>
    ensures { IfSome result IsLawful }
{
    if !is_small(line.as_slice(), spans.as_slice()) {
        return None;
    }
    Some(Event::Exec {
        caller: 0,
        now,
        frame: Frame {
            bytes: Bytes::from_vec(line),
            spans: ListOf::from_vec(spans),
        },
    })
}

// Adds a word behind those of a line.
fn add_word(line: &mut Vec<u8>, spans: &mut Vec<Span>, word: &[u8]) -> Result<(), NoMemory> {
    let from = line.len();
    line.extend_from_slice(word)?;
    spans.push(Span {
        from,
        to: line.len(),
    })?;
    Ok(())
}

// What a word stands for: one of a name's words, or itself.
fn drawn<'a>(grammar: &'a Grammar, word: &'a [u8], rng: &mut Lcg64Xsh32) -> &'a [u8] {
    match grammar
        .names
        .iter()
        .find(|words| begins(words.as_slice(), word))
    {
        Some(words) => match words.as_slice() {
            [_, words @ ..] => picked(words, rng),
            [] => word,
        },
        None => word,
    }
}

// Whether the first of words is this name.
fn begins(words: &[Vec<u8>], name: &[u8]) -> bool {
    match words {
        [first, ..] => first.as_slice() == name,
        [] => false,
    }
}

// One of words, and an empty one where there is none.
fn picked<'a>(words: &'a [Vec<u8>], rng: &mut Lcg64Xsh32) -> &'a [u8] {
    match words.get(place(words.len(), rng)) {
        Some(word) => word.as_slice(),
        None => &[],
    }
}

// The words at a place of lists of words, and none where there is no such list.
fn nth(lists: &[Vec<Vec<u8>>], at: usize) -> &[Vec<u8>] {
    match lists.get(at) {
        Some(words) => words.as_slice(),
        None => &[],
    }
}

// A place among so many, and 0 where there are none.
fn place(len: usize, rng: &mut Lcg64Xsh32) -> usize {
    match u32::try_from(len) {
        Ok(len) if 0 < len => below(rng, len) as usize,
        _ => 0,
    }
}

// A number below another.
fn below(rng: &mut Lcg64Xsh32, most: u32) -> u32
    requires { 0 < most }
{
    rng.next_word() % most
}
