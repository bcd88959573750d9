//! The session of one caller.
ghost use Rattle.std.specs.Prelude.{◌≡◌, ◌<◌, ◌++◌, ◌∷◌, [], true, length, OnOk, OnErr};
ghost use Rattle.ft_base.specs.declared.name_fit.NameFit.{NameFit};
ghost use Rattle.ft_base.specs.declared.name_fit.NameFit.TheVariants as fit;
ghost use Rattle.tx_session.specs.Table.{One, Session, broken, idle, line_of, row};
ghost use Rattle.tx_session.specs.Taking.{IsPlain, Others, Takes};

use crate::kinds::{Name, Phase, TxText, name_of};
use ft_base::{Frame, ListOf, NameFit, NoMemory, Words};
use std::alloc::Global;
use std::marker::Model;

/// What becomes of a command.
#[derive(Drop)]
pub enum TxTake {
    /// It is executed by itself.
    One,
    /// This is said, and nothing is executed.
    Say(TxText),
    /// These are executed side by side, in this order. There is one at least.
    Block(ListOf<Frame>),
    /// Out of memory: the command is not kept, and EXEC will execute none.
    NoMemory,
}

/// The session of one caller. A contract sees its phase and the commands that wait for EXEC.
#[derive(Drop)]
pub struct TxSession {
    alloc: Global,
    phase: Phase,
    queue: ListOf<Frame>,
}

impl Model for TxSession {
    ghost use Rattle.tx_session.specs.Table.{Session};
    ghost use Rattle.tx_session.specs.Taking.{IsKept, commands_of};

    ghost Value = { Session };

    ghost view = { λ s. record { phase = s.phase; queue = commands_of s.queue } };

    ghost invariant = { λ s. IsKept s.phase (commands_of s.queue) };
}

impl TxSession {
    /// An idle session. It takes no memory.
    pub fn open(alloc: Global) -> TxSession
        ensures { result ≡ idle }
    {
        TxSession {
            alloc,
            phase: Phase::Idle,
            queue: ListOf::new(alloc),
        }
    }

    /// Whether a command is executed by itself whatever its number of words: no transaction is under way, and it is none of the
    /// three that begin or end one. Then `take` says so too, and leaves the session as it is. It is most commands of most
    /// callers, who need not ask for their fit.
    pub fn passes(&self, words: &Words<'_>) -> bool
        requires { 0 < length words.now }
        ensures { result ≡ true → (fit : NameFit) → line_of words.now fit self.now ≡ row One self.now }
    {
        match self.phase {
            Phase::Idle => is_plain(name_of(words)),
            Phase::Open | Phase::Broken => false,
        }
    }

    /// Takes the next command of the caller, of which `fit` says whether its name and its number of words are lawful. A
    /// command that has to wait is copied; nothing else takes memory.
    pub fn take(&mut self, words: Words<'_>, fit: NameFit) -> TxTake
        requires some { 0 < length words }
        ensures table { Takes words.entry fit self.old result self.new }
    {
        let name = name_of(&words);
        if name == Name::Quit {
            self.turn_to(Phase::Idle);
            return TxTake::One;
        }
        match self.phase {
            Phase::Idle => self.take_idle(name, fit),
            Phase::Open => self.take_open(name, fit, words),
            Phase::Broken => self.take_broken(name, fit),
        }
    }

    // Begins a phase in which nothing waits.
    fn turn_to(&mut self, phase: Phase)
        ensures { self.new ≡ record { phase = phase; queue = [] } }
    {
        self.phase = phase;
        self.queue = ListOf::new(self.alloc);
    }

    fn take_idle(&mut self, name: Name, fit: NameFit) -> TxTake
        requires { self.old.phase ≡ Phase.Idle }
        ensures { Others name fit [] self.old result self.new }
    {
        self.turn_to(Phase::Idle);
        match (name, fit) {
            (Name::Multi, NameFit::Arity) => TxTake::Say(TxText::Arity),
            (Name::Exec, NameFit::Arity) => TxTake::Say(TxText::Arity),
            (Name::Discard, NameFit::Arity) => TxTake::Say(TxText::Arity),
            (Name::Multi, NameFit::Fits | NameFit::Unknown) => {
                self.turn_to(Phase::Open);
                TxTake::Say(TxText::Done)
            }
            (Name::Exec, NameFit::Fits | NameFit::Unknown) => TxTake::Say(TxText::NoExec),
            (Name::Discard, NameFit::Fits | NameFit::Unknown) => TxTake::Say(TxText::NoDiscard),
            (Name::Quit, _) => TxTake::One,
            (Name::Other, _) => TxTake::One,
        }
    }

    fn take_open(&mut self, name: Name, fit: NameFit, words: Words<'_>) -> TxTake
        requires { self.old.phase ≡ Phase.Open }
        ensures { Others name fit words.entry self.old result self.new }
    {
        match (fit, name) {
            (NameFit::Unknown, _) => self.breaks(TxText::Unknown),
            (NameFit::Arity, _) => self.breaks(TxText::Arity),
            (NameFit::Fits, Name::Multi) => TxTake::Say(TxText::Nested),
            (NameFit::Fits, Name::Discard) => {
                self.turn_to(Phase::Idle);
                TxTake::Say(TxText::Done)
            }
            (NameFit::Fits, Name::Exec) => self.ends(),
            (NameFit::Fits, Name::Quit) => self.keeps(words),
            (NameFit::Fits, Name::Other) => self.keeps(words),
        }
    }

    fn take_broken(&mut self, name: Name, fit: NameFit) -> TxTake
        requires { self.old.phase ≡ Phase.Broken }
        ensures { Others name fit [] self.old result self.new }
    {
        self.turn_to(Phase::Broken);
        match (fit, name) {
            (NameFit::Unknown, _) => TxTake::Say(TxText::Unknown),
            (NameFit::Arity, _) => TxTake::Say(TxText::Arity),
            (NameFit::Fits, Name::Multi) => TxTake::Say(TxText::Nested),
            (NameFit::Fits, Name::Discard) => {
                self.turn_to(Phase::Idle);
                TxTake::Say(TxText::Done)
            }
            (NameFit::Fits, Name::Exec) => {
                self.turn_to(Phase::Idle);
                TxTake::Say(TxText::Abort)
            }
            (NameFit::Fits, Name::Quit) => TxTake::Say(TxText::Queued),
            (NameFit::Fits, Name::Other) => TxTake::Say(TxText::Queued),
        }
    }

    // A command is refused, and EXEC will execute none.
    fn breaks(&mut self, text: TxText) -> TxTake
        ensures answer { result ≡ TxTake.Say text }
        ensures after { self.new ≡ broken }
    {
        self.turn_to(Phase::Broken);
        TxTake::Say(text)
    }

    // EXEC of an open session.
    fn ends(&mut self) -> TxTake
        requires { self.old.phase ≡ Phase.Open }
        ensures { Others Name.Exec fit.Fits [] self.old result self.new }
    {
        let queue = std::mem::replace(&mut self.queue, ListOf::new(self.alloc));
        self.phase = Phase::Idle;
        if queue.len() == 0 {
            return TxTake::Say(TxText::Nothing);
        }
        TxTake::Block(queue)
    }

    // A command waits for EXEC.
    fn keeps(&mut self, words: Words<'_>) -> TxTake
        requires { self.old.phase ≡ Phase.Open }
        ensures { Others Name.Other fit.Fits words.entry self.old result self.new }
    {
        match self.push(words) {
            Ok(()) => TxTake::Say(TxText::Queued),
            Err(_) => {
                self.turn_to(Phase::Broken);
                TxTake::NoMemory
            }
        }
    }

    fn push(&mut self, words: Words<'_>) -> Result<(), NoMemory>
        requires { self.old.phase ≡ Phase.Open }
        ensures ok { OnOk result (self.new ≡ record self.old { queue = self.old.queue ++ words.entry ∷ [] }) }
        ensures err { OnErr result (self.new ≡ self.old) }
    {
        let frame = Frame::copy(self.alloc, words)?;
        self.queue.push(frame)
    }
}

// Whether a name is none of the three that begin or end a transaction.
fn is_plain(name: Name) -> bool
    ensures { result ≡ true → IsPlain name }
{
    match name {
        Name::Quit | Name::Other => true,
        Name::Multi | Name::Exec | Name::Discard => false,
    }
}
