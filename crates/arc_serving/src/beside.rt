// Workers of both sides and the ticker, beside each other.
ghost use Rattle.std.specs.Prelude.{◌≡◌, ◌<◌, ℕ, length, slice_index_or};
ghost use Rattle.std.specs.List.{AllZip};
ghost use Rattle.std.specs.Thread.{IsSync};
ghost use Rattle.arc_serving.specs.declared.side.Side.TheVariants.{Lines, Desks};
ghost use Rattle.arc_serving.specs.Ticks.{WorksTicks};
ghost use Rattle.line_gate.specs.Passes.{IsPass};
ghost use Rattle.arc_serving.specs.Jobs.{IsJobDone};

use crate::job::Job;
use crate::side::Side;
use crate::station_gate::StationGate;
use crate::ticking::{Ticked, ticker};
use crate::working::worker;
use arc_doors::{Door, Pulse};
use arc_io::Disk;
use line_gate::{GateName, Pass};
use std::alloc::Global;
use std::sync::Wait;
use std::sync::atomic::{AtomicBool, Ordering};
use std::thread;
use std::thread::{Threads, join};

/// The jobs of the workers of both sides.
#[derive(Drop)]
pub(crate) struct Workers<A: Door + Drop, B: Door + Drop, N: GateName> {
    pub(crate) lines: Vec<Job<A, N>>,
    pub(crate) desks: Vec<Job<B, N>>,
}

/// What the ticker is given.
#[derive(Drop)]
pub(crate) struct Ticking<T: Pulse + Drop, N: GateName> {
    pub(crate) pulse: T,
    pub(crate) pass: Pass<N>,
}

/// Runs the workers of both sides, each in a thread of its own, and the ticker beside them. Once all workers have ended, the flag is set,
/// which tells the pulse to end.
pub(crate) fn serve_beside<
    'a,
    A: Door + Send + Drop,
    B: Door + Send + Drop,
    T: Pulse + Send + Drop,
    D: Disk + Send,
    R: Threads + Wait + Sync,
    N: GateName + Send + Sync,
>(
    rt: &R,
    alloc: Global,
    gate: &StationGate<'a, D, N>,
    sessions: u32,
    workers: Workers<A, B, N>,
    ticking: Ticking<T, N>,
) -> (Workers<A, B, N>, (Ticking<T, N>, Ticked))
    ensures lines { AllZip (IsJobDone Lines N.terms sessions) workers.lines.items result.0.lines.items }
    ensures desks { AllZip (IsJobDone Desks N.terms sessions) workers.desks.items result.0.desks.items }
    ensures pass { IsPass N.terms result.1.0.pass }
    ensures ticks { WorksTicks N.terms ticking.pass result.1.0.pass (T.moments ticking.pulse) (T.moments result.1.0.pulse) result.1.1 }
{
    let stop = AtomicBool::new(false);
    let flag = &stop;
    // Where no thread can be made, the first one is called last: the ticker then finds the flag set, and ends.
    let (ticked, workers) = join(
        rt,
        move || -> (Ticking<T, N>, Ticked)
            requires { IsSync R.row }
            ensures { IsPass N.terms result.0.pass
                × WorksTicks N.terms ticking.pass result.0.pass (T.moments ticking.pulse) (T.moments result.0.pulse) result.1 }
        { tick(rt, alloc, gate, flag, ticking) },
        move || -> Workers<A, B, N>
            requires { IsSync R.row }
            ensures { AllZip (IsJobDone Lines N.terms sessions) workers.lines.items result.lines.items
                × AllZip (IsJobDone Desks N.terms sessions) workers.desks.items result.desks.items }
        { work_then_stop(rt, alloc, gate, sessions, flag, workers) },
    );
    (workers, ticked)
}

// Runs the workers of both sides, and then sets the flag.
fn work_then_stop<
    'a,
    A: Door + Send + Drop,
    B: Door + Send + Drop,
    D: Disk + Send,
    R: Threads + Wait + Sync,
    N: GateName + Send + Sync,
>(
    rt: &R,
    alloc: Global,
    gate: &StationGate<'a, D, N>,
    sessions: u32,
    stop: &AtomicBool,
    workers: Workers<A, B, N>,
) -> Workers<A, B, N>
    ensures lines { AllZip (IsJobDone Lines N.terms sessions) workers.lines.items result.lines.items }
    ensures desks { AllZip (IsJobDone Desks N.terms sessions) workers.desks.items result.desks.items }
{
    let worked = work_beside(rt, alloc, gate, sessions, workers);
    stop.store(true, Ordering::SeqCst);
    worked
}

// Runs the workers of both sides beside each other.
fn work_beside<
    'a,
    A: Door + Send + Drop,
    B: Door + Send + Drop,
    D: Disk + Send,
    R: Threads + Wait + Sync,
    N: GateName + Send + Sync,
>(
    rt: &R,
    alloc: Global,
    gate: &StationGate<'a, D, N>,
    sessions: u32,
    workers: Workers<A, B, N>,
) -> Workers<A, B, N>
    ensures lines { AllZip (IsJobDone Lines N.terms sessions) workers.lines.items result.lines.items }
    ensures desks { AllZip (IsJobDone Desks N.terms sessions) workers.desks.items result.desks.items }
{
    let Workers { lines, desks } = workers;
    // Where no thread can be made, the first one is called last: lines go before desks.
    let (desks, lines) = join(
        rt,
        move || -> Vec<Job<B, N>>
            requires { IsSync R.row }
            ensures { AllZip (IsJobDone Desks N.terms sessions) desks.items result.items }
        { work_side(Side::Desks, rt, alloc, gate, sessions, desks) },
        move || -> Vec<Job<A, N>>
            requires { IsSync R.row }
            ensures { AllZip (IsJobDone Lines N.terms sessions) lines.items result.items }
        { work_side(Side::Lines, rt, alloc, gate, sessions, lines) },
    );
    Workers { lines, desks }
}

// Runs the workers of one side, each in a thread of its own.
fn work_side<
    'a,
    A: Door + Send + Drop,
    D: Disk + Send,
    R: Threads + Wait + Sync,
    N: GateName + Send + Sync,
>(
    side: Side,
    rt: &R,
    alloc: Global,
    gate: &StationGate<'a, D, N>,
    sessions: u32,
    jobs: Vec<Job<A, N>>,
) -> Vec<Job<A, N>>
    ensures { AllZip (IsJobDone side N.terms sessions) jobs.items result.items }
{
    work_all(side, rt, alloc, gate, sessions, jobs)
}

// The same, of the job at each place.
fn work_all<
    'a,
    A: Door + Send + Drop,
    D: Disk + Send,
    R: Threads + Wait + Sync,
    N: GateName + Send + Sync,
>(
    side: Side,
    rt: &R,
    alloc: Global,
    gate: &StationGate<'a, D, N>,
    sessions: u32,
    jobs: Vec<Job<A, N>>,
) -> Vec<Job<A, N>>
    ensures count { length result.items ≡ length jobs.items }
    ensures each { (k : ℕ) (d : _) → k < length jobs.items
        → IsJobDone side N.terms sessions (slice_index_or jobs.items k d) (slice_index_or result.items k d) }
{
    let mut jobs = jobs;
    work_each(side, rt, alloc, gate, sessions, jobs.as_mut_slice());
    jobs
}

fn work_each<
    'a,
    A: Door + Send + Drop,
    D: Disk + Send,
    R: Threads + Wait + Sync,
    N: GateName + Send + Sync,
>(
    side: Side,
    rt: &R,
    alloc: Global,
    gate: &StationGate<'a, D, N>,
    sessions: u32,
    jobs: &mut [Job<A, N>],
)
    ensures count { length jobs.new ≡ length jobs.old }
    ensures each { (k : ℕ) (d : _) → k < length jobs.old
        → IsJobDone side N.terms sessions (slice_index_or jobs.old k d) (slice_index_or jobs.new k d) }
{
    let threads = jobs.len().max(1);
    thread::for_each_mut(
        rt,
        jobs,
        threads,
        &|_, job| { work(side, rt, alloc, gate, sessions, job) },
    );
}

// Runs one worker.
fn work<'a, A: Door + Drop, D: Disk, R: Wait, N: GateName>(
    side: Side,
    rt: &R,
    alloc: Global,
    gate: &StationGate<'a, D, N>,
    sessions: u32,
    job: &mut Job<A, N>,
)
    ensures { IsJobDone side N.terms sessions job.old job.new }
{
    if let Some(pass) = job.pass.take() {
        let (pass, worked) = worker(side, rt, alloc, gate, pass, &mut job.door, sessions);
        job.pass = Some(pass);
        job.worked = Some(worked);
    }
}

// Runs the ticker.
fn tick<'a, T: Pulse + Drop, D: Disk, R: Wait, N: GateName>(
    rt: &R,
    alloc: Global,
    gate: &StationGate<'a, D, N>,
    stop: &AtomicBool,
    ticking: Ticking<T, N>,
) -> (Ticking<T, N>, Ticked)
    ensures pass { IsPass N.terms result.0.pass }
    ensures ticks { WorksTicks N.terms ticking.pass result.0.pass (T.moments ticking.pulse) (T.moments result.0.pulse) result.1 }
{
    let Ticking { mut pulse, pass } = ticking;
    let (pass, ticked) = ticker(rt, alloc, gate.gate(), pass, &mut pulse, stop);
    (Ticking { pulse, pass }, ticked)
}
