//! The program: `rsearch script` answers the requests of standard input on standard output, `rsearch load SEED DOCS`
//! executes a load and sums up its replies, and `rsearch serve PORT WORKERS` answers connections at a port of 127.0.0.1 by so
//! many threads.
//!
//! `main` only makes the ports of the system, of `system_ports`, and calls `run` of `ft_server` or `serve` of
//! `worker_pool`, which carry the promise of the whole.
#![tactic(auto)]

ghost use Rattle.std.specs.Prelude.{◌≡◌, ◌<◌, false, length, IfOk, IfSome};
ghost use Rattle.std.specs.List.{All};
ghost use Rattle.std.specs.Process.{exit_status};
ghost use Rattle.ft_server.specs.Status.{status_of};

use command_line::{Form, WordFault, read_words};
use fs_ports::{Door, Failed, HeldDoor, HeldLink, Spawner};
use ft_server::{Exit, run};
use std::alloc::Global;
use std::env;
use std::hash::RandomState;
use std::io::ErrorKind;
use std::marker::PhantomData;
use std::net::{Net, TcpListener, TcpStream};
use std::process::ExitCode;
use std::sync::Wait;
use std::thread::Threads;
use system_ports::{
    NoDoors, SleepPace, StdLink, SystemClock, TcpDoor, TcpLink, ThreadSpawner, make_clocks,
    make_doors, make_pace, start_thread,
};
use worker_pool::{Work, serve};

// Functions that wait, start threads or reach connections are handed the system twice: `rt` for its bounds alone, `system` for what
// it prints, reads and allocates.
fn main(rt: HostRuntime) -> ExitCode {
    let (words, hashing) = match begin(&rt) {
        Ok(begun) => begun,
        Err(code) => return code,
    };
    let line = words.as_slice();
    let doors = match open_doors(&rt, &rt, line) {
        Ok(Some(doors)) => doors,
        Ok(None) => return answer_input(rt, &rt, hashing, line),
        Err(code) => return code,
    };
    // The closure has to name the door's type of links, which only its contract speaks of.
    let named: PhantomData<HeldLink<TcpLink>> = PhantomData;
    let mut spawner = ThreadSpawner {
        start: |job| {
            let _named = named;
            start_thread(&rt, job)
        },
        faults: 0,
        of: PhantomData,
    };
    serve_doors(rt, &rt, hashing, line, doors, &mut spawner)
}

/// The words of the command line, and the hashing of keys, or how the process ends where there are none.
fn begin(rt: &HostRuntime) -> Result<(Vec<String>, RandomState), ExitCode> {
    let words = words_of_the_line(rt).map_err(|exit| end(rt, exit))?;
    match RandomState::new(rt) {
        Ok(hashing) => Ok((words, hashing)),
        Err(_) => Err(without_hashing(rt)),
    }
}

/// The doors that the words ask for, behind a line that says so; none where they ask for something else, and how the process
/// ends where the doors cannot be had.
fn open_doors<R: Net<Listener = TcpListener, Stream = TcpStream>>(
    rt: &R,
    system: &HostRuntime,
    line: &[String],
) -> Result<Option<Vec<HeldDoor<TcpDoor>>>, ExitCode>
    ensures some { IfOk result (λ asked. IfSome asked (λ doors. 0 < length doors.items)) }
    ensures idle { IfOk result (λ asked. IfSome asked (λ doors. All (λ door. door.out ≡ false) doors.items)) }
{
    match place_of(system.alloc(), line) {
        Ok(Some((port, workers))) => open_at(rt, system, port, workers),
        Ok(None) => Ok(None),
        Err(exit) => Err(end(system, exit)),
    }
}

/// Doors at a port for so many workers, behind a line that says so, or how the process ends where they cannot be had.
fn open_at<R: Net<Listener = TcpListener, Stream = TcpStream>>(
    rt: &R,
    system: &HostRuntime,
    port: u16,
    workers: u16,
) -> Result<Option<Vec<HeldDoor<TcpDoor>>>, ExitCode>
    requires some { 0 < workers }
    ensures some { IfOk result (λ asked. IfSome asked (λ doors. 0 < length doors.items)) }
    ensures idle { IfOk result (λ asked. IfSome asked (λ doors. All (λ door. door.out ≡ false) doors.items)) }
{
    match make_doors(rt, system.alloc(), port, workers) {
        Ok(doors) => {
            let _ = eprintln!(system; "rsearch: listening on 127.0.0.1:{port}, {workers} workers");
            Ok(Some(doors))
        }
        Err(why) => Err(without_doors(system, why)),
    }
}

/// Answers what comes in at the input, to its end.
fn answer_input<R: Wait + std::rt::Clock + Copy + Drop>(
    rt: R,
    system: &HostRuntime,
    hashing: RandomState,
    line: &[String],
) -> ExitCode {
    let mut clock = SystemClock { rt };
    let alloc = system.alloc();
    let streams = StdLink::new(system.stdin(), system.stdout());
    let Ok(mut link) = HeldLink::over(alloc, streams) else {
        return end(system, Exit::NoMemory);
    };
    let exit = run(&rt, alloc, hashing, line, &mut link, &mut clock);
    match link.finish() {
        Ok(()) => end(system, exit),
        Err(Failed) => end(system, Exit::WriteFault),
    }
}

/// Serves what comes in at the doors, each by a thread of its own.
fn serve_doors<
    R: Threads + Wait + std::rt::Clock + Sync + Copy + Send + Drop + 'static,
    D: Door + Send + Drop + 'static,
    S: Spawner<Work<D, SystemClock<R>, SleepPace<R>>>,
>(
    rt: R,
    system: &HostRuntime,
    hashing: RandomState,
    line: &[String],
    doors: Vec<D>,
    spawner: &mut S,
) -> ExitCode
    requires some { 0 < length doors.items }
    requires idle { All (λ door. (D.at door).out ≡ false) doors.items }
    // The links may be read at any time.
    requires prompt { (link : D.Link) → D.Link.readable link }
    requires able { S.able spawner.old }
{
    let alloc = system.alloc();
    match make_clocks(&rt, alloc, doors.len()) {
        Ok(clocks) => {
            let exit = serve_by(rt, alloc, hashing, line, doors, spawner, clocks);
            end(system, exit)
        }
        Err(_) => end(system, Exit::NoMemory),
    }
}

/// The same with a clock for each door.
fn serve_by<
    R: Threads + Wait + std::rt::Clock + Sync + Copy + Send + Drop + 'static,
    D: Door + Send + Drop + 'static,
    S: Spawner<Work<D, SystemClock<R>, SleepPace<R>>>,
>(
    rt: R,
    alloc: Global,
    hashing: RandomState,
    line: &[String],
    doors: Vec<D>,
    spawner: &mut S,
    clocks: Vec<SystemClock<R>>,
) -> Exit
    requires equal { length doors.items ≡ length clocks.items }
    requires some { 0 < length doors.items }
    requires idle { All (λ door. (D.at door).out ≡ false) doors.items }
    // The links may be read at any time.
    requires prompt { (link : D.Link) → D.Link.readable link }
    requires able { S.able spawner.old }
{
    match make_pace(&rt, alloc) {
        Ok(pace) => serve(&rt, alloc, hashing, line, doors, spawner, clocks, pace).0,
        Err(_) => Exit::NoMemory,
    }
}

/// The words behind the program's name, or how the program ends where they cannot be had.
fn words_of_the_line(rt: &HostRuntime) -> Result<Vec<String>, Exit> {
    let mut words = Vec::new(rt.alloc());
    for word in env::args(rt)
        .map_err(|fault| without_words(fault.kind()))?
        .skip(1)
    {
        if words.push(word).is_err() {
            return Err(Exit::NoMemory);
        }
    }
    Ok(words)
}

/// A word that is not UTF-8 is of no form.
fn without_words(fault: ErrorKind) -> Exit {
    match fault {
        ErrorKind::OutOfMemory => Exit::NoMemory,
        _ => Exit::Usage,
    }
}

/// The port and the number of workers, where the words ask for a server at a port; an end where they cannot be read for want
/// of memory.
fn place_of(alloc: Global, words: &[String]) -> Result<Option<(u16, u16)>, Exit>
    ensures { IfOk result (λ asked. IfSome asked (λ place. 0 < place.1)) }
{
    match read_words(alloc, words) {
        Ok(Form::Serve { port, workers }) => Ok(Some((port, workers))),
        Ok(_) | Err(WordFault::Usage) => Ok(None),
        Err(WordFault::NoMemory) => Err(Exit::NoMemory),
    }
}

/// Says that the system has no random bytes for the hashing of keys.
fn without_hashing(rt: &HostRuntime) -> ExitCode
    ensures { exit_status result ≡ status_of Exit.NoMemory }
{
    let _ = eprintln!(rt; "rsearch: no random bytes");
    end(rt, Exit::NoMemory)
}

/// Says that the port cannot be listened at, where that is why there are no doors.
fn without_doors(rt: &HostRuntime, why: NoDoors) -> ExitCode
    ensures door { why ≡ NoDoors.CannotListen → exit_status result ≡ status_of Exit.DoorFault }
    ensures memory { why ≡ NoDoors.NoMemory → exit_status result ≡ status_of Exit.NoMemory }
{
    match why {
        NoDoors::CannotListen => {
            let _ = eprintln!(rt; "rsearch: cannot listen");
            end(rt, Exit::DoorFault)
        }
        NoDoors::NoMemory => end(rt, Exit::NoMemory),
    }
}

/// The status of the process, behind the usage line where the words are of no form.
fn end(rt: &HostRuntime, exit: Exit) -> ExitCode
    ensures { exit_status result ≡ status_of exit }
{
    if exit == Exit::Usage {
        let _ = eprintln!(rt; "usage: rsearch script | load SEED DOCS | serve PORT WORKERS");
    }
    ExitCode::from(exit.status())
}
