// The workers.
ghost use Rattle.std.specs.Prelude.{◌≡◌};
ghost use Rattle.line_gate.specs.Passes.{IsPass};
ghost use Rattle.arc_serving.specs.Works.{Works, is_refused, stop_of};

use crate::link::serve_next;
use crate::session::SessionEnd;
use crate::side::Side;
use crate::station_gate::StationGate;
use arc_doors::Door;
use arc_io::Disk;
use centre_core::Stop;
use line_gate::{GateName, Pass};
use std::alloc::Global;
use std::sync::Wait;

/// How a worker ended.
#[derive(Clone, Copy, Debug, PartialEq, Eq)]
pub enum WorkerEnd {
    /// The door has no more links.
    DoorEnded,
    /// As many links were served as were asked for.
    Quota,
    /// The door failed: its count of faults when the worker began, and when it ended.
    DoorFault { before: u64, now: u64 },
    /// The gate stopped the last session, and not by want of memory.
    Stopped(Stop),
}

/// What came of a worker: how it ended, and how many of its sessions ended by want of memory.
#[derive(Clone, Copy, Debug, PartialEq, Eq)]
pub struct Worked {
    pub end: WorkerEnd,
    pub refused: u64,
}

/// Takes links from the door, one after the other, at most so many, serves each by a session of this kind as the caller of the pass,
/// and hands it back. A session that ends by want of memory, by `quit`, by a fault of its link or after 2^40 bytes ends alone; each
/// other stop ends the worker. Nothing is held while the door waits for a link.
pub fn worker<'a, A: Door, D: Disk, R: Wait, N: GateName>(
    side: Side,
    rt: &R,
    alloc: Global,
    gate: &StationGate<'a, D, N>,
    pass: Pass<N>,
    door: &mut A,
    sessions: u32,
) -> (Pass<N>, Worked)
    ensures pass { IsPass N.terms result.0 }
    ensures works { Works side N.terms pass result.0 (A.seen door.old) (A.seen door.new) sessions result.1 }
{
    let before = door.faults();
    let mut pass = pass;
    let mut refused = 0;
    let mut count = 0;
    while count < sessions {
        let (next, told) = serve_next(side, rt, alloc, gate, pass, door);
        pass = next;
        let Ok(served) = told else {
            let now = door.faults();
            return (pass, outcome(WorkerEnd::DoorFault { before, now }, refused));
        };
        let Some(end) = served else {
            return (pass, outcome(WorkerEnd::DoorEnded, refused));
        };
        count += 1;
        if is_refused(&end) {
            refused += 1;
        }
        if let Some(stop) = stop_of(&end) {
            return (pass, outcome(WorkerEnd::Stopped(stop), refused));
        }
    }
    (pass, outcome(WorkerEnd::Quota, refused))
}

// What came of a worker.
fn outcome(end: WorkerEnd, refused: u64) -> Worked
    ensures { result ≡ record { end = end; refused = refused } }
{
    Worked { end, refused }
}

// Whether the session ended by want of memory.
fn is_refused(end: &SessionEnd) -> bool
    ensures { result ≡ is_refused end.now }
{
    matches!(end, SessionEnd::Stopped(Stop::Memory))
}

// The stop that ended the session, where it ends the worker too.
fn stop_of(end: &SessionEnd) -> Option<Stop>
    ensures { result ≡ stop_of end.now }
{
    match end {
        SessionEnd::Stopped(Stop::Memory) => None,
        SessionEnd::Stopped(stop) => Some(*stop),
        _ => None,
    }
}
