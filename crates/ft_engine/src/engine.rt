//! The engine: a state of the machine, and the events that lead from one to the next.
ghost use Rattle.std.specs.Prelude.{◌≡◌, ◌<◌, ◌≤◌, ◌^◌, true, false, length, vec_capacity, IfOk};
ghost use Rattle.ft_engine.specs.Cleaning.{KeepsClean};
ghost use Rattle.ft_engine.specs.Commands.{AreRefused, CollectsAsAsked, IsLastText, IsLawful, IsQuietAsAsked, IsReadFor, KeepsLimits, ReadsAsAsked, TellsAsAsked, TellsFault, TellsLast, WordsCollect, WordsRead, WordsTell};
ghost use Rattle.ft_engine.specs.Preparing.{CommitKeeps, CommitKeepsLists, CommitReads, EntersAsSaid, IsLast, StepsBy, WritesAsSaid, committed};
ghost use Rattle.ft_engine.specs.Stands.{IsIndexed, begun, opened};
ghost use Rattle.ft_engine.specs.Stepping.{AnswersAt, Counts, KeepsLast, Moves, ScansAt, ScansPartAt, SplicesAt, counted, ended, seen_marker};
ghost use Rattle.ft_machine.specs.Step.{last_number};
ghost use Rattle.indexed_store.specs.Repairing.{FitsSerial, IndexesThin};

use crate::last_splice::LastSplice;
use crate::prepared::Prepared;
use crate::step::begin_command;
use cmd_parse::{CmdFault, Command, read_command};
use ft_base::{NoMemory, Words};
use ft_index::{AnyRepair, Snapshot};
use gc_splice::Spliced;
use id_iters::ListName;
use indexed_store::{Change, IndexedStore};
use inverted_list::Marker;
use reply_buffer::ReplyBuffer;
use std::alloc::Global;
use std::hash::RandomState;
use std::marker::Model;

/// The last number that an event can have.
const LAST_NUMBER: u64 = 4_611_686_018_427_387_904;

/// The state of the server. A contract sees the state of the machine that it stands for, the number
/// of the next event, the indexes, what is prepared, and the splice that was last.
///
/// A command is one event: it is prepared, and then committed or abandoned; or it is refused for its
/// words. A scan is one too, and a splice. While an event is prepared, no other can begin.
pub struct Engine {
    alloc: Global,
    held: IndexedStore,
    next: u64,
    // Whether an event is prepared, and neither committed nor abandoned.
    pending: bool,
    // The splice that was last. Only contracts ask for it.
    last: Option<LastSplice>,
}

// Written out, the drops of all that it holds are proved here alone, and not in each crate above.
impl Drop for Engine {
    fn drop(self) {
        let Engine {
            alloc: _,
            held,
            next: _,
            pending: _,
            last: _,
        } = self;
        drop(held);
    }
}

impl Model for Engine {
    ghost use Rattle.std.specs.Coded.{codes};
    ghost use Rattle.cursor_book.specs.contracts.cursor.Cursor as cursor;
    ghost use Rattle.ft_engine.specs.Stands.{IsEngine, Stands, stands_of};
    ghost use Rattle.gc_splice.specs.contracts.splice.Spliced as spliced;
    ghost use Rattle.inverted_list.specs.contracts.marker.Marker as marker;

    ghost Value = { Stands };

    ghost coded = { Prim.hlevel (codes, cursor.the_row.coded, spliced.the_row.coded, marker.the_row.coded) };

    ghost view = { λ e. stands_of e.held e.next e.pending e.last };

    ghost invariant = { λ e. IsEngine e.held e.pending e.next };
}

impl Engine {
    /// An engine without documents and indexes, whose first event has the number 1. Keys are found by hashes that `hashing`
    /// makes.
    pub fn new(alloc: Global, hashing: RandomState) -> Result<Engine, NoMemory>
        ensures { IfOk result (λ engine. engine ≡ opened 1) }
    {
        Engine::open_at(alloc, hashing, 1)
    }

    /// The same, whose first event has this number.
    pub fn open_at(alloc: Global, hashing: RandomState, first: u64) -> Result<Engine, NoMemory>
        requires least { 1 ≤ first }
        requires most { first ≤ 2 ^ 62 }
        ensures { IfOk result (λ engine. engine ≡ opened first) }
    {
        Ok(Engine {
            alloc,
            held: IndexedStore::new(alloc, hashing)?,
            next: first,
            pending: false,
            last: None,
        })
    }

    // Where memory comes from.
    pub(crate) fn alloc(&self) -> Global {
        self.alloc
    }

    /// The number of the next event. From 2^62 on it stays.
    pub fn next(&self) -> u64
        ensures number { result ≡ self.now.next }
        ensures most { result ≤ 2 ^ 62 }
    {
        self.next
    }

    /// Executes a command at a moment, in milliseconds, and writes its reply to `out`, which keeps
    /// its room.
    pub fn exec(&mut self, now: u64, words: Words<'_>, out: &mut Vec<u8>)
        requires some { 0 < length words }
        requires limits { KeepsLimits words }
        requires room { 64 ≤ vec_capacity out.old }
        requires free { self.old.pending ≡ false }

        // One step of the machine, at this event's number.
        ensures answer { AnswersAt now words.entry self.old out.new.items self.new }
        ensures next { Counts self.old self.new }

        // Each index stands for the documents.
        ensures indexed { IsIndexed self.new }

        // A search reads what it shows, an aggregate without a cursor what it finds, and no more; what FT.INFO tells is what the
        // lists hold.
        ensures reads { WordsRead self.old.next words.entry out.new.items self.old.reads self.new.reads }
        ensures records { WordsTell self.old.next words.entry self.old.indexes out.new.items }

        // Where FT.DEBUG says that it is done, no list of the index has a dead entry.
        ensures collects { WordsCollect self.old.next words.entry self.new.indexes out.new.items }
        // An index is clean then until its members or its definition change, or memory runs out; and FT.INFO tells of it just the
        // live records.
        ensures clean { KeepsClean self.old.next words.entry self.old out.new.items self.new }
        // What there was has only grown, or is gone.
        ensures moves { Moves self.old self.new }

        ensures free { self.new.pending ≡ false }
        ensures room { vec_capacity out.old ≤ vec_capacity out.new }
    {
        // Tells that each index stands for the documents.
        self.held.stand();
        match read_command(self.alloc, words.rest(0), self.next) {
            Ok(command) => {
                let prepared = self.prepare(now, command, out);
                self.commit(prepared);
            }
            Err(fault) => self.refuse(now, words, &fault, out),
        }
    }

    /// Prepares what is asked at a moment, and writes the reply. Its event begins: cursors that are idle are gone. Nothing
    /// else is seen of it yet. The command is read for this event: an index that it creates has the event's number as its
    /// serial.
    pub fn prepare<'a>(&mut self, now: u64, command: Command<'a>, out: &mut Vec<u8>) -> Prepared<'a>
        requires asked { IsLawful command }
        requires serial { IsReadFor self.old.next command }
        requires room { 64 ≤ vec_capacity out.old }
        requires free { self.old.pending ≡ false }

        // A commit makes this a step of the machine, at this event's number.
        ensures answer { StepsBy command.entry now self.old out.new.items result self.new }
        // It is said to write where a commit leaves other documents or definitions.
        ensures writes { WritesAsSaid result self.new }
        ensures state { self.new.state ≡ begun self.old.next now self.old.state }
        ensures next { self.new.next ≡ self.old.next }
        ensures last { IsLast result self.new }
        ensures indexed { IsIndexed self.new }
        ensures reads { ReadsAsAsked command.entry out.new.items self.old.reads self.new.reads }
        ensures records { TellsAsAsked command.entry self.old.indexes out.new.items }
        ensures collects { CollectsAsAsked command.entry self.new.indexes out.new.items }
        ensures quiet { IsQuietAsAsked command.entry result }
        // A document that it writes is entered where it is a member, and else nothing is, nor taken out but by FT.DEBUG.
        ensures still { EntersAsSaid command.entry result self.old out.new.items self.new }
        // What there was has only grown, or is gone.
        ensures moves { Moves self.old self.new }
        ensures room { vec_capacity out.old ≤ vec_capacity out.new }
    {
        let mut reply = ReplyBuffer::over(self.alloc, out);
        let prepared = self.answer(now, command, &mut reply);
        reply.give_back(out);
        prepared
    }

    // The same, where the buffer of replies is in hand.
    fn answer<'a>(
        &mut self,
        now: u64,
        command: Command<'a>,
        reply: &mut ReplyBuffer,
    ) -> Prepared<'a>
        requires asked { IsLawful command }
        requires free { self.old.pending ≡ false }
        ensures answer { StepsBy command.entry now self.old reply.new.bytes result self.new }
        ensures writes { WritesAsSaid result self.new }
        ensures state { self.new.state ≡ begun self.old.next now self.old.state }
        ensures next { self.new.next ≡ self.old.next }
        ensures last { IsLast result self.new }
        ensures indexed { IsIndexed self.new }
        ensures reads { ReadsAsAsked command.entry reply.new.bytes self.old.reads self.new.reads }
        ensures records { TellsAsAsked command.entry self.old.indexes reply.new.bytes }
        ensures collects { CollectsAsAsked command.entry self.new.indexes reply.new.bytes }
        ensures quiet { IsQuietAsAsked command.entry result }
        ensures still { EntersAsSaid command.entry result self.old reply.new.bytes self.new }
        ensures moves { Moves self.old self.new }
        ensures room { reply.old.room ≤ reply.new.room }
    {
        if LAST_NUMBER <= self.next {
            return self.answer_last(reply);
        }
        self.pending = true;
        Prepared {
            change: begin_command(&mut self.held, self.next, now, command, reply),
        }
    }

    // At the last number no event begins, and every command has one answer.
    fn answer_last<'a>(&mut self, reply: &mut ReplyBuffer) -> Prepared<'a>
        requires free { self.old.pending ≡ false }
        ensures text { IsLastText reply.new.bytes }
        ensures nothing { result ≡ Change.Nothing }
        ensures pending { self.new ≡ record self.old { pending = true } }
        ensures indexed { IsIndexed self.new }
        ensures room { reply.old.room ≤ reply.new.room }
    {
        self.held.stand();
        self.pending = true;
        reply.set_fault(b"ERR last event reached");
        Prepared {
            change: Change::Nothing,
        }
    }

    /// Makes what was prepared last, and ends its event. It takes no memory.
    pub fn commit(&mut self, prepared: Prepared<'_>)
        requires last { IsLast prepared self.old }
        ensures state { self.new.state ≡ committed prepared.entry self.old }
        ensures next { Counts self.old self.new }
        ensures indexed { IsIndexed self.new }
        // Where no document and no definition changes, none is read.
        ensures quiet { CommitReads prepared.entry self.old self.new }
        ensures kept { CommitKeeps prepared.entry self.old self.new }
        // Each index keeps its lists, unless it is made, altered or dropped.
        ensures lists { CommitKeepsLists prepared.entry self.old self.new }
        // What there was has only grown, or is gone.
        ensures moves { Moves self.old self.new }
        ensures free { self.new.pending ≡ false }
    {
        self.held.make(self.next, prepared.change);
        self.end();
    }

    /// Ends the event of what was prepared last without it. It takes no memory.
    pub fn abandon(&mut self, prepared: Prepared<'_>)
        requires last { IsLast prepared self.old }
        ensures state { self.new.state ≡ self.old.state }
        ensures next { Counts self.old self.new }
        ensures indexed { IsIndexed self.new }
        // What there was has only grown, or is gone.
        ensures moves { Moves self.old self.new }
        ensures free { self.new.pending ≡ false }
    {
        drop(prepared);
        self.end();
    }

    /// Refuses a command for its words, in an event of its own, and writes why. It takes no memory.
    pub fn refuse(&mut self, now: u64, words: Words<'_>, fault: &CmdFault, out: &mut Vec<u8>)
        requires some { 0 < length words }
        requires fault { AreRefused self.old.next words fault.now }
        requires room { 64 ≤ vec_capacity out.old }
        requires free { self.old.pending ≡ false }
        ensures answer { AnswersAt now words.entry self.old out.new.items self.new }

        // The fault's own text, and nothing else; at the last number that of the last event.
        ensures text { TellsFault self.old.next words.entry fault.now out.new.items }
        ensures last { TellsLast self.old.next out.new.items }

        // The moment counts, by which idle cursors are gone, and nothing else changes.
        ensures state { self.new.state ≡ begun self.old.next now self.old.state }
        ensures reads { self.new.reads ≡ self.old.reads }
        ensures lists { self.new.indexes ≡ self.old.indexes }
        ensures next { Counts self.old self.new }
        ensures indexed { IsIndexed self.new }
        // What there was has only grown, or is gone.
        ensures moves { Moves self.old self.new }
        ensures free { self.new.pending ≡ false }
        ensures room { vec_capacity out.old ≤ vec_capacity out.new }
    {
        let mut reply = ReplyBuffer::over(self.alloc, out);
        self.refuse_in(now, words, fault, &mut reply);
        reply.give_back(out);
    }

    // The same, where the buffer of replies is in hand.
    fn refuse_in(&mut self, now: u64, words: Words<'_>, fault: &CmdFault, reply: &mut ReplyBuffer)
        requires some { 0 < length words }
        requires fault { AreRefused self.old.next words fault.now }
        requires free { self.old.pending ≡ false }
        ensures answer { AnswersAt now words.entry self.old reply.new.bytes self.new }
        ensures text { TellsFault self.old.next words.entry fault.now reply.new.bytes }
        ensures last { TellsLast self.old.next reply.new.bytes }
        ensures state { self.new.state ≡ begun self.old.next now self.old.state }
        ensures reads { self.new.reads ≡ self.old.reads }
        ensures lists { self.new.indexes ≡ self.old.indexes }
        ensures next { Counts self.old self.new }
        ensures indexed { IsIndexed self.new }
        // What there was has only grown, or is gone.
        ensures moves { Moves self.old self.new }
        ensures free { self.new.pending ≡ false }
        ensures room { reply.old.room ≤ reply.new.room }
    {
        self.held.stand();
        if LAST_NUMBER <= self.next {
            return reply.set_fault(b"ERR last event reached");
        }
        reply.set_refusal(words.word(0), *fault);
        self.held.begin(self.next, now);
        self.pending = true;
        self.end();
    }

    /// A picture of every list of the index of a name, and which ids are live there, in an event of its own: it is counted also
    /// where memory runs out. None exactly where there is no such index.
    pub fn scan(&mut self, name: &[u8]) -> Result<Option<Snapshot>, NoMemory>
        requires free { self.old.pending ≡ false }
        ensures taken { IfOk result (ScansAt name.now self.old) }
        ensures still { self.new ≡ counted self.old }
        ensures indexed { IsIndexed self.new }
        // What there was is as it was.
        ensures moves { Moves self.old self.new }
    {
        let taken = self.held.scan(name, self.next);
        self.pending = true;
        self.end();
        taken
    }

    /// Pictures of the next part of the lists of the index of a name, as `FtIndex::scan_next` takes it, and which ids are live
    /// there, in an event of its own. None exactly where there is no such index. Lists that the part before passed over lose their
    /// dead entries where they stand. Where memory runs out, what was taken out stays out, and the event is counted all the same.
    pub fn scan_next(&mut self, name: &[u8]) -> Result<Option<Snapshot>, NoMemory>
        requires free { self.old.pending ≡ false }
        ensures taken { IfOk result (ScansPartAt name.now self.old.next self.new) }
        ensures next { Counts self.old self.new }
        // Nothing of it is seen, and every live entry stays.
        ensures still { self.new ≡ record (counted self.old) { indexes = self.new.indexes } }
        ensures thin { IndexesThin self.old.indexes self.new.indexes }
        // At the last number nothing changes.
        ensures last { last_number ≤ self.old.next → self.new ≡ self.old }
        ensures indexed { IsIndexed self.new }
        // What there was has only grown, or is gone.
        ensures moves { Moves self.old self.new }
    {
        let taken = self.held.scan_next(name, self.next);
        self.pending = true;
        self.end();
        taken
    }

    /// Splices a repair into the list of a name in the index of a serial, in an event of its own. It takes no memory: what it takes
    /// out it leaves in the repair. The engine keeps the pictured marker and the answer.
    pub fn splice(&mut self, serial: u64, name: &ListName, repair: &mut AnyRepair) -> Spliced
        requires fits { FitsSerial serial self.old.indexes name.now repair.old }
        requires free { self.old.pending ≡ false }
        ensures splices { SplicesAt serial name.now repair.old self.old self.new result }
        ensures last { KeepsLast repair.old result self.new }
        // Nothing of it is seen, and every live entry stays.
        ensures still { self.new ≡ record (counted self.old) { indexes = self.new.indexes; last = self.new.last } }
        ensures thin { IndexesThin self.old.indexes self.new.indexes }
        ensures indexed { IsIndexed self.new }
        // What there was has only grown, or is gone.
        ensures moves { Moves self.old self.new }
    {
        let seen = seen_by(repair);
        let answer = self.splice_list(serial, name, repair);
        self.held.stand();
        self.last = Some(LastSplice { seen, answer });
        answer
    }

    // The same, where nothing is kept of it.
    fn splice_list(&mut self, serial: u64, name: &ListName, repair: &mut AnyRepair) -> Spliced
        requires fits { FitsSerial serial self.old.indexes name.now repair.old }
        requires free { self.old.pending ≡ false }
        ensures splices { SplicesAt serial name.now repair.old self.old self.new result }
        ensures still { self.new ≡ record (counted self.old) { indexes = self.new.indexes } }
        ensures thin { IndexesThin self.old.indexes self.new.indexes }
        ensures indexed { IsIndexed self.new }
        // What there was has only grown, or is gone.
        ensures moves { Moves self.old self.new }
    {
        self.held.stand();
        if LAST_NUMBER <= self.next {
            return Spliced::LastEvent;
        }
        let spliced = self.held.splice(self.next, serial, name, repair);
        self.pending = true;
        self.end();
        spliced
    }

    // Ends an event that is prepared.
    fn end(&mut self)
        requires pending { self.old.pending ≡ true }
        ensures ended { self.new ≡ ended self.old }
        ensures later { self.old.next ≤ self.new.next }
        ensures indexed { IsIndexed self.new }
    {
        self.held.stand();
        self.pending = false;
        if self.next < LAST_NUMBER {
            self.next += 1;
        }
    }
}

// The marker of the list that was pictured for a repair.
fn seen_by(repair: &AnyRepair) -> Marker
    ensures { result ≡ seen_marker repair.now }
{
    match repair {
        AnyRepair::Word(repair) => repair.seen,
        AnyRepair::Tag(repair) => repair.seen,
        AnyRepair::Range(repair) => repair.seen,
    }
}
