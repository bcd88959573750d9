//! Several commands of a caller among others: one turn for all of them.
ghost use Rattle.std.specs.Prelude.{◌≡◌, ◌<◌, ◌+◌, false, length};
ghost use Rattle.std.specs.List.{All};
ghost use Rattle.ft_server.specs.Blocks.{AddsBlock, Executes, IsCommand, Went, all_words, words_in};
ghost use Rattle.ft_server.specs.Passes.{IsOf};

use crate::logged_engine::LogEntry;
use crate::outs::{Out, Outs};
use crate::server::{Pass, Server};
use ft_base::{Frame, ListOf};
use ft_engine::Engine;
use std::sync::Wait;
use turn_gate::Told;

/// What a block's turn adds to the log: its commands with their replies, side by side.
#[derive(Drop)]
struct BlockNote<'a> {
    now: u64,
    frames: &'a [Frame],
    replies: &'a [Out],
    ghost some: { 0 < length frames.now },
    ghost equal: { length replies.now ≡ length frames.now },
}

impl<'a> Told<LogEntry> for BlockNote<'a> {
    ghost use Rattle.std.specs.Prelude.{length};
    ghost use Rattle.ft_server.specs.BlockLaws.{block, block_own, block_size};

    ghost size = { λ note. length note.frames.now };

    ghost entries = { λ note caller first seen. block caller note.now note.frames.now note.replies.now };

    fn count(&self) -> u64 {
        self.frames.len() as u64
    }

    ghost some = { λ note. note.some };

    ghost sized = { λ note caller first seen. block_size caller note.now note.frames.now note.replies.now note.equal };

    ghost own = { λ note caller first seen. block_own caller note.now note.frames.now note.replies.now };
}

/// Executes commands one after another at one moment, in milliseconds, in one turn of this caller, and writes their replies
/// to `outs`. No other event comes between them. It may wait for its turn.
///
/// A turn that has begun has to end with an entry, so it takes no memory that it can't do without: room for each reply is
/// there before.
pub fn call_block<R: Wait>(
    rt: &R,
    server: &Server,
    pass: Pass,
    now: u64,
    frames: &ListOf<Frame>,
    outs: &mut Outs,
) -> Pass
    requires of { IsOf server.now pass }
    requires some { 0 < length frames.now }
    requires commands { All IsCommand frames.now }
    requires room { length outs.old ≡ length frames.now }
    ensures of { IsOf server.now result }
    ensures same { (result.caller ≡ pass.caller) × (result.alone ≡ pass.alone) }
    ensures turns { result.turns ≡ pass.turns + 1 }
    // One reply a command.
    ensures count { length outs.new ≡ length frames.now }
    // The history goes on with entries of others, none where the pass is alone, and then with these commands.
    ensures entries { AddsBlock pass result now (all_words frames.now) outs.new }
{
    let frames = frames.as_slice();
    let mut turn = server.gate.enter(rt, pass);
    exec_block(&mut turn.state().engine, now, frames, &mut outs.items);
    let replies = outs.items.as_slice();
    let note = BlockNote {
        now,
        frames,
        replies,
    };
    server.gate.leave(turn, &note)
}

/// Executes commands one after another at one moment.
fn exec_block(engine: &mut Engine, now: u64, frames: &[Frame], outs: &mut Vec<Out>)
    requires commands { All IsCommand frames.now }
    requires room { length outs.old.items ≡ length frames.now }
    requires free { engine.old.pending ≡ false }
    ensures count { length outs.new.items ≡ length frames.now }
    ensures steps { Executes Went now engine.old (all_words frames.now) outs.new.items engine.new }
{
    for at in 0..frames.len() {
        exec_frame(engine, now, &frames[at], &mut outs[at]);
    }
}

/// Executes one command.
fn exec_frame(engine: &mut Engine, now: u64, frame: &Frame, out: &mut Out)
    requires command { IsCommand frame.now }
    requires free { engine.old.pending ≡ false }
    ensures { Went engine.old now (words_in frame.now) out.new engine.new }
{
    engine.exec(now, frame.words(), &mut out.bytes);
}
