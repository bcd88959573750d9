//! Jobs in threads of their own, behind the trait of the outside.
ghost use Rattle.std.specs.Prelude.{◌≡◌, IfOk, ⊤};
ghost use Rattle.std.specs.Thread.{IsSync};

use fs_ports::{Failed, Job, Spawner};
use std::marker::PhantomData;
use std::snapshot::Snapshot;
use std::sync::Wait;
use std::thread;
use std::thread::{Promise, PromisedHandle, Threads};

/// The promise that what a thread answers is done for this job.
#[derive(Drop)]
pub struct Doing<J>(pub Snapshot<J>);

impl<J: Job> Promise<J::Out> for Doing<J> {
    ghost kept_by = { λ promise out. J.done promise.0.value out };
}

/// Starts a thread that does the job.
pub fn start_thread<J: Job, R: Threads + Wait + Sync + Copy + Send + 'static>(
    rt: &R,
    job: J,
) -> Result<PromisedHandle<J::Out, Doing<J>>, Failed>
    requires ready { J.ready job }
    ensures told { IfOk result (λ handle. handle.promise.0.value ≡ job) }
{
    let own = *rt;
    let told = Doing(Snapshot::of(&job));
    let started = thread::spawn_with(
        rt,
        told,
        move || -> J::Out
            requires { IsSync R.row × J.ready job }
            ensures { J.done job result }
        { job.work(&own) },
    );
    match started {
        Ok(running) => Ok(running),
        Err(_) => Err(Failed),
    }
}

/// What waits for a job that runs.
pub trait Awaits<J: Job>: Drop {
    /// The job that runs.
    ghost job: { Self → J };

    /// Waits for its end, and gives what its work answered.
    fn wait<R: Threads + Wait + Sync>(self, rt: &R) -> J::Out
        ensures done { J.done (job self) result };
}

impl<J: Job> Awaits<J> for PromisedHandle<J::Out, Doing<J>> {
    ghost job = { λ handle. handle.promise.0.value };

    fn wait<R: Threads + Wait + Sync>(self, rt: &R) -> J::Out {
        self.join(rt)
    }
}

/// Starts threads by a closure over what starts them, as `start_thread` of a handle.
#[derive(Drop)]
pub struct ThreadSpawner<F, H> {
    pub start: F,
    pub faults: u64,
    pub of: PhantomData<H>,
}

impl<J: Job, H: Awaits<J>, F: Fn(J) -> Result<H, Failed>> Spawner<J> for ThreadSpawner<F, H> {
    type Running = H;

    // The closure takes each job that is ready, and what it starts tells its job.
    ghost able = { λ s. ((j : J) → J.ready j → F.pre s.start j)
        × ((j : J) (r : _) → F.post s.start j r → IfOk r (λ h. H.job h ≡ j)) };

    ghost faults = { λ s. s.faults };

    ghost job = { λ running. H.job running };

    ghost sound = { λ _. ⊤ };

    fn start(&mut self, given: J) -> Result<H, Failed> {
        match (self.start)(given) {
            Ok(running) => Ok(running),
            Err(Failed) => {
                self.faults = self.faults.saturating_add(1);
                Err(Failed)
            }
        }
    }

    fn wait<R: Threads + Wait + Sync>(&mut self, rt: &R, running: H) -> J::Out {
        running.wait(rt)
    }
}
