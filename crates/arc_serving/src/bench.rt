// The bench of a side: its first doors are taken into jobs, and later put back in their places.
ghost use Rattle.std.specs.Prelude.{◌≡◌, ◌≤◌, ◌<◌, ◌+◌, ◌∷◌, ◌++◌, [], map, length, reverse, vec_len, vec_capacity, IfOk, OnOk, OnErr};
ghost use Rattle.std.specs.Option.{option_to_list};
ghost use Rattle.line_gate.specs.Passes.{IsPass, IsLater};
ghost use Rattle.arc_serving.specs.Jobs.{AreSeated, AreUnseated, SeatsOne, IsTaken, worked_in};

use crate::job::Job;
use crate::working::Worked;
use arc_data::Memory;
use arc_doors::Door;
use arc_io::Disk;
use line_gate::{Gate, GateName, Pass};
use std::alloc::Global;
use std::sync::Wait;

/// Room for the jobs of so many workers of a side, and for what comes of them.
#[derive(Drop)]
pub(crate) struct Room<A: Door + Drop, N: GateName> {
    pub(crate) count: usize,
    pub(crate) jobs: Vec<Job<A, N>>,
    pub(crate) came: Vec<Worked>,
    ghost empty: { (vec_len jobs ≡ 0) × (vec_len came ≡ 0) },
    ghost room: { (count ≤ vec_capacity jobs) × (count ≤ vec_capacity came) },
}

/// A side whose workers have their jobs: these, the doors that have no worker, and room for what comes of the workers.
#[derive(Drop)]
pub(crate) struct Bench<A: Door + Drop, N: GateName> {
    pub(crate) jobs: Vec<Job<A, N>>,
    // The first one stands last.
    pub(crate) doors: Vec<A>,
    pub(crate) came: Vec<Worked>,
    ghost places: { vec_len doors + vec_len jobs ≤ vec_capacity doors },
    ghost empty: { vec_len came ≡ 0 },
    ghost room: { vec_len jobs ≤ vec_capacity came },
}

/// Takes the room for so many workers.
pub(crate) fn make_room<A: Door + Drop, N: GateName>(
    alloc: Global,
    count: usize,
) -> Result<Room<A, N>, Memory>
    ensures { IfOk result (λ r. r.count ≡ count) }
{
    let Ok(jobs) = Vec::with_capacity(alloc, count) else {
        return Err(Memory);
    };
    let Ok(came) = Vec::with_capacity(alloc, count) else {
        return Err(Memory);
    };
    Ok(Room { count, jobs, came })
}

/// Takes the first doors into jobs, as many as the room was taken for, each with a pass of its own. After want of memory there may be
/// fewer.
pub(crate) fn seat<A: Door + Drop, D: Disk, R: Wait, N: GateName>(
    rt: &R,
    gate: &Gate<D, N>,
    first: &mut Pass<N>,
    room: Room<A, N>,
    doors: Vec<A>,
) -> (Bench<A, N>, Result<(), Memory>)
    requires enough { room.count ≤ length doors.items }
    ensures pass { IsPass N.terms first.new }
    ensures later { IsLater first.old first.new }
    ensures seated { AreSeated N.terms (map (λ d. A.seen d) doors.items) (map (λ d. A.seen d) result.0.doors.items)
        result.0.jobs.items first.old.count first.new.count }
    ensures count { OnOk result.1 (length result.0.jobs.items ≡ room.count) }
{
    let Room {
        count,
        mut jobs,
        came,
    } = room;
    let mut doors = doors;
    doors.reverse();
    let seated = seat_each(rt, gate, first, count, &mut doors, &mut jobs);
    (Bench { jobs, doors, came }, seated)
}

// Takes doors from the end into jobs, until there are so many jobs.
fn seat_each<A: Door + Drop, D: Disk, R: Wait, N: GateName>(
    rt: &R,
    gate: &Gate<D, N>,
    first: &mut Pass<N>,
    count: usize,
    doors: &mut Vec<A>,
    jobs: &mut Vec<Job<A, N>>,
) -> Result<(), Memory>
    requires empty { vec_len jobs.old ≡ 0 }
    requires room { count ≤ vec_capacity jobs.old }
    requires enough { count ≤ vec_len doors.old }
    ensures pass { IsPass N.terms first.new }
    ensures later { IsLater first.old first.new }
    ensures seated { AreSeated N.terms (reverse (map (λ d. A.seen d) doors.old.items)) (map (λ d. A.seen d) doors.new.items)
        jobs.new.items first.old.count first.new.count }
    ensures few { vec_len jobs.new ≤ count }
    ensures count { OnOk result (vec_len jobs.new ≡ count) }
    ensures places { vec_len doors.new + vec_len jobs.new ≡ vec_len doors.old }
    ensures room { vec_capacity doors.new ≡ vec_capacity doors.old }
{
    let _ = first.number();
    while jobs.len() < count {
        seat_one(rt, gate, first, doors, jobs)?;
    }
    Ok(())
}

// Takes the last door into a job.
fn seat_one<A: Door + Drop, D: Disk, R: Wait, N: GateName>(
    rt: &R,
    gate: &Gate<D, N>,
    first: &mut Pass<N>,
    doors: &mut Vec<A>,
    jobs: &mut Vec<Job<A, N>>,
) -> Result<(), Memory>
    requires some { 0 < vec_len doors.old }
    requires room { vec_len jobs.old < vec_capacity jobs.old }
    ensures pass { IsPass N.terms first.new }
    ensures later { IsLater first.old first.new }
    ensures seats { OnOk result (SeatsOne N.terms (map (λ d. A.seen d) doors.old.items) (map (λ d. A.seen d) doors.new.items)
        jobs.old.items jobs.new.items first.old.count first.new.count) }
    ensures count { OnOk result ((vec_len jobs.new ≡ vec_len jobs.old + 1) × (vec_len doors.new + 1 ≡ vec_len doors.old)) }
    ensures none { OnErr result ((doors.new ≡ doors.old) × (jobs.new ≡ jobs.old)) }
    ensures room { (vec_capacity doors.new ≡ vec_capacity doors.old) × (vec_capacity jobs.new ≡ vec_capacity jobs.old) }
{
    let pass = gate.split(rt, first)?;
    let door = doors.take_last();
    jobs.push_reserved(Job {
        door,
        pass: Some(pass),
        worked: None,
    });
    Ok(())
}

/// Puts the doors back before the others, in their order, and gives them with what came of their workers. The first pass takes in those
/// of all jobs.
pub(crate) fn unseat<A: Door + Drop, D: Disk, N: GateName>(
    gate: &Gate<D, N>,
    first: &mut Pass<N>,
    bench: Bench<A, N>,
) -> (Vec<A>, Vec<Worked>)
    ensures pass { IsPass N.terms first.new }
    ensures later { IsLater first.old first.new }
    ensures unseated { AreUnseated first.new bench.jobs.items (map (λ d. A.seen d) bench.doors.items) (map (λ d. A.seen d) result.0.items) }
    ensures came { result.1.items ≡ worked_in bench.jobs.items }
{
    let Bench {
        mut jobs,
        mut doors,
        mut came,
    } = bench;
    unseat_each(gate, first, &mut jobs, &mut doors, &mut came);
    doors.reverse();
    came.reverse();
    (doors, came)
}

// Puts the doors of all jobs at the end, and what came of their workers, the last one first.
fn unseat_each<A: Door + Drop, D: Disk, N: GateName>(
    gate: &Gate<D, N>,
    first: &mut Pass<N>,
    jobs: &mut Vec<Job<A, N>>,
    doors: &mut Vec<A>,
    came: &mut Vec<Worked>,
)
    requires places { vec_len doors.old + vec_len jobs.old ≤ vec_capacity doors.old }
    requires empty { vec_len came.old ≡ 0 }
    requires room { vec_len jobs.old ≤ vec_capacity came.old }
    ensures pass { IsPass N.terms first.new }
    ensures later { IsLater first.old first.new }
    ensures unseated { AreUnseated first.new jobs.old.items (map (λ d. A.seen d) doors.old.items)
        (reverse (map (λ d. A.seen d) doors.new.items)) }
    ensures came { reverse came.new.items ≡ worked_in jobs.old.items }
{
    let _ = first.number();
    while !jobs.is_empty() {
        let job = jobs.take_last();
        unseat_one(gate, first, job, doors, came);
    }
}

// Puts the door of a job at the end, and what came of its worker.
fn unseat_one<A: Door + Drop, D: Disk, N: GateName>(
    gate: &Gate<D, N>,
    first: &mut Pass<N>,
    job: Job<A, N>,
    doors: &mut Vec<A>,
    came: &mut Vec<Worked>,
)
    requires place { vec_len doors.old < vec_capacity doors.old }
    requires room { vec_len came.old < vec_capacity came.old }
    ensures pass { IsPass N.terms first.new }
    ensures later { IsLater first.old first.new }
    ensures taken { IsTaken first.new job.pass }
    ensures doors { map (λ d. A.seen d) doors.new.items ≡ map (λ d. A.seen d) doors.old.items ++ job.door ∷ [] }
    ensures place { (vec_len doors.new ≡ vec_len doors.old + 1) × (vec_capacity doors.new ≡ vec_capacity doors.old) }
    ensures came { came.new.items ≡ came.old.items ++ option_to_list job.worked }
    ensures room { (vec_len came.new ≤ vec_len came.old + 1) × (vec_capacity came.new ≡ vec_capacity came.old) }
{
    let Job { door, pass, worked } = job;
    take_in(gate, first, pass);
    note(came, worked);
    doors.push_reserved(door);
}

// The first pass takes in another, where there is one.
fn take_in<D: Disk, N: GateName>(gate: &Gate<D, N>, first: &mut Pass<N>, pass: Option<Pass<N>>)
    ensures pass { IsPass N.terms first.new }
    ensures later { IsLater first.old first.new }
    ensures taken { IsTaken first.new pass }
{
    let _ = first.number();
    if let Some(pass) = pass {
        gate.take_in(first, pass);
    }
}

// Puts what came of a worker at the end, if it ended.
fn note(came: &mut Vec<Worked>, worked: Option<Worked>)
    requires { vec_len came.old < vec_capacity came.old }
    ensures items { came.new.items ≡ came.old.items ++ option_to_list worked }
    ensures room { (vec_len came.new ≤ vec_len came.old + 1) × (vec_capacity came.new ≡ vec_capacity came.old) }
{
    if let Some(worked) = worked {
        came.push_reserved(worked);
    }
}
