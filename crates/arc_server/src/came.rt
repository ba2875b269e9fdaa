// Which status is made of what came of all callers.
ghost use Rattle.std.specs.Prelude.{◌≡◌, ◌≢◌, is_err};
ghost use Rattle.std.specs.List.{flat_map};
ghost use Rattle.std.specs.Option.{option_to_list};
ghost use Rattle.arc_server.specs.Servings.{met_by, first_of, front_of, where_so, full_in, worn_in, stop_in, stops_in, door_fault_in, door_faults_in, has_refused, was_refused};
ghost use Rattle.arc_server.specs.declared.status.Status.TheVariants.{WriteFault};

use crate::status::Status;
use arc_data::Memory;
use arc_io::Failed;
use arc_serving::{Came, Side, Worked, WorkerEnd};
use centre_core::Stop;

/// The status where the disk has not failed: by what came of all callers, and by whether the summary was written, before which and after
/// which the port told these counts of its write faults. The first of a full journal, a worn centre, a door's fault, a write's and want
/// of memory decides.
#[tactic(auto, using(crate::proofs::Meets::never_met))]
pub(crate) fn status_of_serving(
    came: &Result<Came, Memory>,
    written: Result<(), Failed>,
    before: u64,
    now: u64,
) -> Status
    ensures usage { result ≢ Status.Usage }
    ensures first { result ≡ first_of (met_by came.now (where_so (is_err written) (WriteFault before now))) }
{
    first_met(came, written, before, now)
}

// The same.
fn first_met(
    came: &Result<Came, Memory>,
    written: Result<(), Failed>,
    before: u64,
    now: u64,
) -> Status
    ensures { result ≡ first_of (met_by came.now (where_so (is_err written) (WriteFault before now))) }
{
    let unwritten = unwritten(written, before, now);
    match came {
        Err(_) => unwritten.unwrap_or(Status::Memory),
        Ok(came) => full_among(came)
            .or(worn_among(came))
            .or(door_fault_among(came))
            .or(unwritten)
            .or(refused_among(came))
            .unwrap_or(Status::Done),
    }
}

// Of a summary that was cut off.
fn unwritten(written: Result<(), Failed>, before: u64, now: u64) -> Option<Status>
    ensures { result ≡ front_of (where_so (is_err written) (WriteFault before now)) }
{
    match written {
        Ok(()) => None,
        Err(_) => Some(Status::WriteFault { before, now }),
    }
}

// Of the first caller that met a full journal.
#[tactic(auto, using(crate::proofs::Fronts::front_of_stops))]
fn full_among(came: &Came) -> Option<Status>
    ensures { result ≡ front_of (flat_map full_in (stops_in came.now)) }
{
    full_of_workers(&came.lines)
        .or(full_of_workers(&came.desks))
        .or(full_of_ticker(came.ticked.stop))
}

#[tactic(auto, using(crate::proofs::Fronts::front_next))]
fn full_of_workers(came: &[Worked]) -> Option<Status>
    ensures { result ≡ front_of (flat_map (λ w. flat_map full_in (stop_in w.end)) came.now) }
{
    for worked in came {
        if let Some(status) = full_of_end(worked.end) {
            return Some(status);
        }
    }
    None
}

fn full_of_end(end: WorkerEnd) -> Option<Status>
    ensures { result ≡ front_of (flat_map full_in (stop_in end)) }
{
    match end {
        WorkerEnd::Stopped(stop) => full_of(stop),
        _ => None,
    }
}

fn full_of_ticker(stop: Option<Stop>) -> Option<Status>
    ensures { result ≡ front_of (flat_map full_in (option_to_list stop)) }
{
    full_of(stop?)
}

fn full_of(stop: Stop) -> Option<Status>
    ensures { result ≡ front_of (full_in stop) }
{
    match stop {
        Stop::Full {
            used,
            need,
            records,
        } => Some(Status::Full {
            used,
            need,
            records,
        }),
        _ => None,
    }
}

// Of the first caller that met a worn centre.
#[tactic(auto, using(crate::proofs::Fronts::front_of_stops))]
fn worn_among(came: &Came) -> Option<Status>
    ensures { result ≡ front_of (flat_map worn_in (stops_in came.now)) }
{
    worn_of_workers(&came.lines)
        .or(worn_of_workers(&came.desks))
        .or(worn_of_ticker(came.ticked.stop))
}

#[tactic(auto, using(crate::proofs::Fronts::front_next))]
fn worn_of_workers(came: &[Worked]) -> Option<Status>
    ensures { result ≡ front_of (flat_map (λ w. flat_map worn_in (stop_in w.end)) came.now) }
{
    for worked in came {
        if let Some(status) = worn_of_end(worked.end) {
            return Some(status);
        }
    }
    None
}

fn worn_of_end(end: WorkerEnd) -> Option<Status>
    ensures { result ≡ front_of (flat_map worn_in (stop_in end)) }
{
    match end {
        WorkerEnd::Stopped(stop) => worn_of(stop),
        _ => None,
    }
}

fn worn_of_ticker(stop: Option<Stop>) -> Option<Status>
    ensures { result ≡ front_of (flat_map worn_in (option_to_list stop)) }
{
    worn_of(stop?)
}

fn worn_of(stop: Stop) -> Option<Status>
    ensures { result ≡ front_of (worn_in stop) }
{
    match stop {
        Stop::Worn { count } => Some(Status::Worn { count }),
        _ => None,
    }
}

// Of the first door that failed: those of lines stand before those of desks.
#[tactic(auto, using(crate::proofs::Fronts::front_both))]
fn door_fault_among(came: &Came) -> Option<Status>
    ensures { result ≡ front_of (door_faults_in came.now) }
{
    door_fault_of(Side::Lines, &came.lines).or(door_fault_of(Side::Desks, &came.desks))
}

#[tactic(auto, using(crate::proofs::Fronts::front_next))]
fn door_fault_of(door: Side, came: &[Worked]) -> Option<Status>
    ensures { result ≡ front_of (flat_map (λ w. door_fault_in door w.end) came.now) }
{
    for worked in came {
        if let Some(status) = door_fault_of_end(door, worked.end) {
            return Some(status);
        }
    }
    None
}

fn door_fault_of_end(door: Side, end: WorkerEnd) -> Option<Status>
    ensures { result ≡ front_of (door_fault_in door end) }
{
    match end {
        WorkerEnd::DoorFault { before, now } => Some(Status::DoorFault { door, before, now }),
        _ => None,
    }
}

// Of a session or a Tick that was refused memory.
fn refused_among(came: &Came) -> Option<Status>
    ensures { result ≡ front_of (where_so (was_refused came.now) Status.Memory) }
{
    if has_refused(&came.lines) || has_refused(&came.desks) || came.ticked.refused != 0 {
        Some(Status::Memory)
    } else {
        None
    }
}

fn has_refused(came: &[Worked]) -> bool
    ensures { result ≡ has_refused came.now }
{
    came.iter().any(|worked| worked.refused != 0)
}
