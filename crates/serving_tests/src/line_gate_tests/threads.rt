// Eight callers in threads of their own, of which each submits 2,000 events.
ghost use Rattle.std.specs.Prelude.{◌≤◌, ◌≡◌, false};
ghost use Rattle.line_gate.specs.Blanks.{Names};

use super::events::{SETUP, STEPS, claimed, clock, event};
use super::replay::{Caller, compare_replay, records_of};
use super::{blank, short_blank};
use crate::same::{holds, same};
use arc_io::Disk;
use centre_core::Done;
use centre_store::Store;
use disk_journal::SHIPPED;
use line_gate::{Blank, Gate, GateName, Pass};
use std::alloc::Global;
use std::marker::Brand;
use std::process::Abort;
use std::sync::Wait;
use std::thread;
use std::thread::Threads;
use test_fixtures::stores::opened;

const CALLERS: usize = 8;

const ROUNDS: u16 = 400;

// A caller's pass, and what the caller was told of each of its events.
#[derive(Drop)]
struct Job<N: GateName> {
    place: usize,
    pass: Pass<N>,
    told: Vec<Done>,
    is_done: bool,
}

// One round of a caller. Whether each of its events was answered.
fn submit_round<R: Wait, D: Disk + Drop, N: GateName>(
    rt: &R,
    alloc: Global,
    gate: &Gate<D, N>,
    job: &mut Job<N>,
    round: u16,
) -> bool
    requires { round ≤ 9999 }
{
    let mut number = 0;
    for step in 0..STEPS {
        let Ok(event) = event(alloc, job.place, round, step, number) else {
            return false;
        };
        let Ok(done) = gate.submit(rt, alloc, &mut job.pass, event, clock(round)) else {
            return false;
        };
        if step == 2 {
            number = claimed(&done.reply);
        }
        if job.told.push(done).is_err() {
            return false;
        }
    }
    true
}

// All rounds of a caller.
fn submit_all<R: Wait, D: Disk + Drop, N: GateName>(
    rt: &R,
    alloc: Global,
    gate: &Gate<D, N>,
    job: &mut Job<N>,
) {
    for round in 0..ROUNDS {
        if !submit_round(rt, alloc, gate, job, round) {
            return;
        }
    }
    job.is_done = true;
}

// The callers run, each in a thread of its own.
fn run_all<R: Threads + Wait + Sync, D: Disk + Send + Drop, N: GateName + Send + Sync>(
    rt: &R,
    alloc: Global,
    gate: &Gate<D, N>,
    jobs: &mut [Job<N>],
) {
    thread::for_each_mut(
        rt,
        jobs,
        CALLERS,
        &|_, job| submit_all(rt, alloc, gate, job),
    );
}

// A job for each caller.
fn jobs_of<R: Abort + Wait, D: Disk + Drop, N: GateName>(
    rt: &R,
    alloc: Global,
    gate: &Gate<D, N>,
    first: &mut Pass<N>,
) -> Vec<Job<N>> {
    let mut jobs = Vec::new(alloc);
    for place in 0..CALLERS {
        let pass = gate.split(rt, first).expect(rt, "split");
        let job = Job {
            place,
            pass,
            told: Vec::new(alloc),
            is_done: false,
        };
        jobs.push(job).expect(rt, "memory");
    }
    jobs
}

// The first pass takes in those of all callers, and what they were told is left.
fn take_in_all<D: Disk + Drop, N: GateName>(
    rt: &impl Abort,
    alloc: Global,
    gate: &Gate<D, N>,
    first: &mut Pass<N>,
    jobs: Vec<Job<N>>,
) -> Vec<Caller> {
    let mut callers = Vec::new(alloc);
    for job in jobs {
        let caller = take_in(rt, gate, first, job);
        callers.push(caller).expect(rt, "memory");
    }
    callers
}

fn take_in<D: Disk + Drop, N: GateName>(
    rt: &impl Abort,
    gate: &Gate<D, N>,
    first: &mut Pass<N>,
    job: Job<N>,
) -> Caller {
    let Job {
        place,
        pass,
        told,
        is_done,
    } = job;
    gate.take_in(first, pass);
    holds(rt, is_done, "each event is answered");
    Caller::new(place, told)
}

// Eight callers at a gate.
fn call_eight<R: Abort + Threads + Wait + Sync, D: Disk + Send + Drop, N: GateName + Send + Sync>(
    rt: &R,
    alloc: Global,
    gate: &Gate<D, N>,
    first: &mut Pass<N>,
) -> Vec<Caller> {
    let mut jobs = jobs_of(rt, alloc, gate, first);
    run_all(rt, alloc, gate, jobs.as_mut_slice());
    take_in_all(rt, alloc, gate, first, jobs)
}

// The same at a gate of their own, and then the store.
fn serve_eight<R: Abort + Threads + Wait + Sync, D: Disk + Send + Drop, N: GateName + Send + Sync>(
    rt: &R,
    alloc: Global,
    blank: Blank<D>,
) -> (Store<D>, Vec<Caller>)
    requires names { Names D.seen N.terms blank }
    requires single { N.terms.groups ≡ false }
{
    let (gate, mut first) = Gate::<D, N>::new(blank);
    let callers = call_eight(rt, alloc, &gate, &mut first);
    (gate.close(first), callers)
}

fn served<R: Abort + Threads + Wait + Sync, D: Disk + Send + Drop>(
    rt: &R,
    alloc: Global,
    blank: Blank<D>,
) -> (Store<D>, Vec<Caller>) {
    serve_eight::<R, D, Brand>(rt, alloc, blank)
}

#[test]
fn eight_threads_are_told_what_one_is(rt: HostRuntime) {
    let alloc = rt.alloc();
    let blank = blank(&rt, alloc, SETUP, Vec::new(alloc));
    let (store, callers) = served(&rt, alloc, blank);
    compare_history(&rt, alloc, store, callers);
}

fn compare_history<D: Disk + Drop>(
    rt: &impl Abort,
    alloc: Global,
    store: Store<D>,
    mut callers: Vec<Caller>,
) {
    // An Adopt, a Start, and 2,000 entries of each caller.
    same(rt, store.centre().entries(), 16_002, "entries");
    let counts = (store.centre().recorded(), store.centre().table().opened());
    let records = records_of(rt, alloc, store.close());
    compare_replay(rt, alloc, &records, counts, callers.as_mut_slice());
}

// The same over a journal that has room for 50 records.
#[test]
fn eight_threads_over_a_journal_that_is_summed_up(rt: HostRuntime) {
    let alloc = rt.alloc();
    let blank = short_blank(&rt, alloc, SETUP, 50);
    let (store, callers) = served(&rt, alloc, blank);
    compare_counts(&rt, &store, &callers);
    drop(callers);
    compare_opened(&rt, alloc, store);
}

// As many entries are recorded as callers were told of, an Adopt and a Start.
fn compare_counts<D: Disk + Drop>(rt: &impl Abort, store: &Store<D>, callers: &[Caller]) {
    same(rt, store.centre().entries(), 16_002, "entries");
    let mut told = 2u64;
    for caller in callers {
        told = told.saturating_add(caller.recorded());
    }
    let recorded = store.centre().recorded();
    same(rt, recorded, told, "recorded");
    let since = recorded.saturating_sub(1).checked_div(50);
    let since = since.expect(rt, "a number").saturating_mul(50);
    same(rt, store.since(), since, "summed up");
}

// The store that is opened again has the same centre.
fn compare_opened<D: Disk + Drop>(rt: &impl Abort, alloc: Global, store: Store<D>) {
    let before = summary_of(rt, alloc, &store);
    let disk = store.close();
    let again = opened(alloc, disk, SHIPPED).expect(rt, "opened");
    let after = summary_of(rt, alloc, &again);
    drop(again);
    same(rt, after.as_slice(), before.as_slice(), "opened again");
}

fn summary_of<D: Disk>(rt: &impl Abort, alloc: Global, store: &Store<D>) -> Vec<u8> {
    let mut bytes = Vec::new(alloc);
    let written = store.centre().summary(alloc, 1, &mut bytes);
    same(rt, written.is_ok(), true, "memory");
    bytes
}
