//! All that the program does over a link and a clock of any kind.
ghost use Rattle.std.specs.Prelude.{◌≡◌, ◌⊎◌, ℕ, [], true, IfOk};
ghost use Rattle.command_line.specs.Forms.{IsLoad, IsScript};
ghost use Rattle.ft_server.specs.Callers.{Answered};
ghost use Rattle.ft_server.specs.Ends.{Ended, Ends};
ghost use Rattle.ft_server.specs.Load.{EndsLoad};
ghost use Rattle.ft_server.specs.Limits.{HaveNumbers};
ghost use Rattle.ft_server.specs.Passes.{IsOf};
ghost use Rattle.ft_server.specs.Session.{AllAnswered, told};

use crate::connection::{End, serve_connection};
use crate::exit::Exit;
use crate::load::run_load;
use crate::server::{Pass, Server};
use command_line::{Form, WordFault, read_words};
use fs_ports::{Clock, Link};
use ft_base::NoMemory;
use ft_engine::Engine;
use std::alloc::Global;
use std::hash::RandomState;
use std::sync::Wait;

/// Does what the words of the command line ask for, but for what needs doors and threads. Keys are found by hashes that
/// `hashing` makes.
pub fn run<L: Link, C: Clock, R: Wait>(
    rt: &R,
    alloc: Global,
    hashing: RandomState,
    words: &[String],
    link: &mut L,
    clock: &mut C,
) -> Exit
    // The link is read only where all that came whole was answered.
    requires prompt { (now : L) (moment : C) → AllAnswered Answered
        (told L.Link C.Clock link.old clock.old) (told L.Link C.Clock now moment) → L.readable now }

    // What was read, answered and written, by how the run ended.
    ensures ends { IsScript words.now → Ended result
        (told L.Link C.Clock link.old clock.old) (told L.Link C.Clock link.new clock.new) }
    // What the load wrote, by how the run ended.
    ensures load { (seed docs : ℕ) → IsLoad words.now seed docs → EndsLoad seed docs result
        (told L.Link C.Clock link.old clock.old) (told L.Link C.Clock link.new clock.new) }
    // Words that are neither are refused, or memory runs out for reading them; then nothing is done.
    ensures usage { result ≡ Exit.Usage
        → (IsScript words.now → ⊥) × ((seed docs : ℕ) → IsLoad words.now seed docs → ⊥) }
    ensures others { (IsScript words.now → ⊥) → ((seed docs : ℕ) → IsLoad words.now seed docs → ⊥)
        → (result ≡ Exit.Usage) ⊎ (result ≡ Exit.NoMemory) }
    ensures nothing { (IsScript words.now → ⊥) → ((seed docs : ℕ) → IsLoad words.now seed docs → ⊥)
        → told L.Link C.Clock link.new clock.new ≡ told L.Link C.Clock link.old clock.old }
    // What the limits of a command are, by which its definition goes.
    ensures limits { HaveNumbers }
{
    match read_words(alloc, words) {
        Ok(Form::Script) => Exit::at(serve_alone(rt, alloc, hashing, link, clock)),
        Ok(Form::Load { seed, docs }) => run_load(rt, alloc, hashing, seed, docs, link),
        Ok(Form::Serve { .. }) => Exit::Usage,
        Err(WordFault::Usage) => Exit::Usage,
        Err(WordFault::NoMemory) => Exit::NoMemory,
    }
}

/// Serves a link with a new server, whose one caller this is.
fn serve_alone<L: Link, C: Clock, R: Wait>(
    rt: &R,
    alloc: Global,
    hashing: RandomState,
    link: &mut L,
    clock: &mut C,
) -> End
    requires prompt { (now : L) (moment : C) → AllAnswered Answered
        (told L.Link C.Clock link.old clock.old) (told L.Link C.Clock now moment) → L.readable now }
    ensures { Ends Answered result
        (told L.Link C.Clock link.old clock.old) (told L.Link C.Clock link.new clock.new) }
{
    match open(alloc, hashing) {
        Ok((server, pass)) => serve_connection(rt, alloc, &server, pass, link, clock).1,
        Err(_) => End::NoMemory,
    }
}

/// A new server whose first event has the number 1, and its first pass.
pub fn open(alloc: Global, hashing: RandomState) -> Result<(Server, Pass), NoMemory>
    ensures first { IfOk result (λ r. r.0.first ≡ 1) }
    ensures of { IfOk result (λ r. IsOf r.0 r.1) }
    ensures pass { IfOk result (λ r. (r.1.seen ≡ []) × (r.1.alone ≡ true) × (r.1.caller ≡ 0)) }
{
    Server::open(alloc, Engine::new(alloc, hashing)?)
}
