// All callers beside each other, until all have ended.
ghost use Rattle.std.specs.Prelude.{◌≡◌, map};
ghost use Rattle.line_gate.specs.Passes.{IsPass, IsLater};
ghost use Rattle.arc_serving.specs.Jobs.{AreUnseated, worked_in};
ghost use Rattle.arc_serving.specs.Closing.{UnseatsBoth, ServesSeated};

use crate::bench::{Bench, unseat};
use crate::beside::{Ticking, Workers, serve_beside};
use crate::station_gate::StationGate;
use crate::ticking::Ticked;
use crate::working::Worked;
use arc_doors::{Door, Pulse};
use arc_io::Disk;
use line_gate::{Gate, GateName, Pass};
use std::alloc::Global;
use std::sync::Wait;
use std::thread::Threads;

/// The doors of both sides in their places, and what came of the workers.
#[derive(Drop)]
pub(crate) struct Over<A: Door + Drop, B: Door + Drop> {
    pub(crate) lines: Vec<A>,
    pub(crate) desks: Vec<B>,
    pub(crate) line_came: Vec<Worked>,
    pub(crate) desk_came: Vec<Worked>,
}

/// Runs all callers beside each other. When they have ended, the first pass takes in those of all.
pub(crate) fn serve_seated<
    'a,
    A: Door + Send + Drop,
    B: Door + Send + Drop,
    T: Pulse + Send + Drop,
    D: Disk + Send,
    R: Threads + Wait + Sync,
    N: GateName + Send + Sync,
>(
    rt: &R,
    alloc: Global,
    gate: &StationGate<'a, D, N>,
    first: &mut Pass<N>,
    lines: Bench<A, N>,
    desks: Bench<B, N>,
    ticking: Ticking<T, N>,
    sessions: u32,
) -> (Over<A, B>, T, Ticked)
    ensures pass { IsPass N.terms first.new }
    ensures served { ServesSeated N.terms sessions first.old first.new lines.jobs.items desks.jobs.items ticking.pass
        (record { lines = map (λ d. A.seen d) lines.doors.items; desks = map (λ d. B.seen d) desks.doors.items; pulse = T.moments ticking.pulse })
        (record { lines = map (λ d. A.seen d) result.0.lines.items; desks = map (λ d. B.seen d) result.0.desks.items; pulse = T.moments result.1 })
        (record { lines = result.0.line_came.items; desks = result.0.desk_came.items; ticked = result.2 }) }
{
    let Bench {
        jobs: line_jobs,
        doors: line_doors,
        came: line_came,
    } = lines;
    let Bench {
        jobs: desk_jobs,
        doors: desk_doors,
        came: desk_came,
    } = desks;
    let workers = Workers {
        lines: line_jobs,
        desks: desk_jobs,
    };
    let (workers, (ticking, ticked)) = serve_beside(rt, alloc, gate, sessions, workers, ticking);
    let lines = Bench {
        jobs: workers.lines,
        doors: line_doors,
        came: line_came,
    };
    let desks = Bench {
        jobs: workers.desks,
        doors: desk_doors,
        came: desk_came,
    };
    let Ticking { pulse, pass } = ticking;
    gate.gate().take_in(first, pass);
    (unseat_both(gate.gate(), first, lines, desks), pulse, ticked)
}

/// The first pass takes in those of all workers, and the doors stand in their places again.
pub(crate) fn unseat_both<A: Door + Drop, B: Door + Drop, D: Disk, N: GateName>(
    gate: &Gate<D, N>,
    first: &mut Pass<N>,
    lines: Bench<A, N>,
    desks: Bench<B, N>,
) -> Over<A, B>
    ensures pass { IsPass N.terms first.new }
    ensures unseats { UnseatsBoth first.old first.new lines.jobs.items desks.jobs.items
        (map (λ d. A.seen d) lines.doors.items) (map (λ d. B.seen d) desks.doors.items)
        (map (λ d. A.seen d) result.lines.items) (map (λ d. B.seen d) result.desks.items) }
    ensures came { (result.line_came.items ≡ worked_in lines.jobs.items) × (result.desk_came.items ≡ worked_in desks.jobs.items) }
{
    let (lines, line_came) = unseat(gate, first, lines);
    let (desks, desk_came) = unseat(gate, first, desks);
    Over {
        lines,
        desks,
        line_came,
        desk_came,
    }
}
