// A run that serves lines and desks at once.
ghost use Rattle.std.specs.Prelude.{◌≡◌, ◌≢◌, ◌≤◌, true, false, length};
ghost use Rattle.arc_io.specs.Seen.{PortSeen};
ghost use Rattle.centre_core.specs.Setting.{IsSetting};
ghost use Rattle.arc_server.specs.Areas.{shipped};
ghost use Rattle.arc_server.specs.Beginnings.{HasBegun, StopsBefore};
ghost use Rattle.arc_server.specs.Handed.{Handed, Either};
ghost use Rattle.arc_server.specs.ServeRuns.{ServesAll, GathersBroken, EndsServing};

use crate::begin::begin_run;
use crate::came::status_of_serving;
use crate::made::{StoppedRun, status_over};
use crate::status::Status;
use crate::summary::put_summary;
use arc_data::Memory;
use arc_doors::{Door, Pulse};
use arc_io::{Disk, Port, Source};
use arc_serving::{Came, Crew, GatheredStore, ServedStore, Station, gather_store, serve_store};
use centre_store::Store;
use line_gate::GroupClosed;
use std::alloc::Global;
use std::sync::Wait;
use std::thread::Threads;

/// What is handed back: the status, the disk of the journal, and what stood around the store.
#[derive(Drop)]
pub(crate) struct Served<D: Disk + Drop, A: Door + Drop, B: Door + Drop, T: Pulse + Drop> {
    pub(crate) status: Status,
    pub(crate) disk: D,
    pub(crate) station: Station<A, B, T>,
}

/// Begins a run, serves the first doors of each side until all workers and the ticker have ended, and writes a summary of the closed store.
pub(crate) fn run_serve<
    S: Source,
    P: Port,
    D: Disk + Send + Drop,
    A: Door + Send + Drop,
    B: Door + Send + Drop,
    T: Pulse + Send + Drop,
    R: Threads + Wait + Sync,
>(
    rt: &R,
    alloc: Global,
    crew: Crew,
    source: &mut S,
    port: &mut P,
    disk: D,
    station: Station<A, B, T>,
) -> Served<D, A, B, T>
    requires setup { (S.seen source.old).ended ≡ false }
    requires lines { crew.lines ≤ length station.lines }
    requires desks { crew.desks ≤ length station.desks }
    ensures usage { result.status ≢ Status.Usage }
    ensures ran { Either (λ r r'. StopsBefore D.seen result.status r r' × (result.station ≡ station))
        (λ r r'. ServesAll D.seen false crew result.status r r' station result.station)
        (record { setup = S.seen source.old; port = P.seen port.old; disk = disk })
        (record { setup = S.seen source.new; port = P.seen port.new; disk = result.disk }) }
{
    let before = disk.faults();
    match begin_run(alloc, source, port, disk) {
        Ok(store) => serve_begun(rt, alloc, crew, before, port, store, station),
        Err(StoppedRun { status, disk }) => Served {
            status,
            disk,
            station,
        },
    }
}

/// Begins a run, and serves as `run_serve` does, but at a gate with groups. Where the disk failed, no summary is written.
pub(crate) fn run_gather<
    S: Source,
    P: Port,
    D: Disk + Send + Drop,
    A: Door + Send + Drop,
    B: Door + Send + Drop,
    T: Pulse + Send + Drop,
    R: Threads + Wait + Sync,
>(
    rt: &R,
    alloc: Global,
    crew: Crew,
    source: &mut S,
    port: &mut P,
    disk: D,
    station: Station<A, B, T>,
) -> Served<D, A, B, T>
    requires setup { (S.seen source.old).ended ≡ false }
    requires lines { crew.lines ≤ length station.lines }
    requires desks { crew.desks ≤ length station.desks }
    ensures usage { result.status ≢ Status.Usage }
    ensures ran { Either (λ r r'. StopsBefore D.seen result.status r r' × (result.station ≡ station))
        (Either (λ r r'. ServesAll D.seen true crew result.status r r' station result.station)
        (λ r r'. GathersBroken D.seen crew result.status r r' station result.station))
        (record { setup = S.seen source.old; port = P.seen port.old; disk = disk })
        (record { setup = S.seen source.new; port = P.seen port.new; disk = result.disk }) }
{
    let before = disk.faults();
    match begin_run(alloc, source, port, disk) {
        Ok(store) => gather_begun(rt, alloc, crew, before, port, store, station),
        Err(StoppedRun { status, disk }) => Served {
            status,
            disk,
            station,
        },
    }
}

// Serves all callers of a run that has begun. The gate is closed then.
fn serve_begun<
    P: Port,
    D: Disk + Send + Drop,
    A: Door + Send + Drop,
    B: Door + Send + Drop,
    T: Pulse + Send + Drop,
    R: Threads + Wait + Sync,
>(
    rt: &R,
    alloc: Global,
    crew: Crew,
    before: u64,
    port: &mut P,
    store: Store<D>,
    station: Station<A, B, T>,
) -> Served<D, A, B, T>
    requires ready { IsSetting store.state.sum.text }
    requires limits { store.journal.limits ≡ shipped }
    requires lines { crew.lines ≤ length station.lines }
    requires desks { crew.desks ≤ length station.desks }
    ensures usage { result.status ≢ Status.Usage }
    ensures served { (r : Handed D) (q' : PortSeen) → before ≡ (D.seen r.disk).faults
        → (begun : HasBegun D.seen r q' (P.seen port.old)) → begun.first ≡ store
        → ServesAll D.seen false crew result.status r (record { setup = q'; port = P.seen port.new; disk = result.disk }) station result.station }
{
    let ServedStore {
        store,
        station,
        came,
    } = serve_store(rt, alloc, store, station, crew);
    end_serving(before, port, store, station, &came)
}

// The same at a gate with groups.
fn gather_begun<
    P: Port,
    D: Disk + Send + Drop,
    A: Door + Send + Drop,
    B: Door + Send + Drop,
    T: Pulse + Send + Drop,
    R: Threads + Wait + Sync,
>(
    rt: &R,
    alloc: Global,
    crew: Crew,
    before: u64,
    port: &mut P,
    store: Store<D>,
    station: Station<A, B, T>,
) -> Served<D, A, B, T>
    requires ready { IsSetting store.state.sum.text }
    requires limits { store.journal.limits ≡ shipped }
    requires lines { crew.lines ≤ length station.lines }
    requires desks { crew.desks ≤ length station.desks }
    ensures usage { result.status ≢ Status.Usage }
    ensures served { (r : Handed D) (q' : PortSeen) → before ≡ (D.seen r.disk).faults
        → (begun : HasBegun D.seen r q' (P.seen port.old)) → begun.first ≡ store
        → Either (λ r r'. ServesAll D.seen true crew result.status r r' station result.station)
        (λ r r'. GathersBroken D.seen crew result.status r r' station result.station)
        r (record { setup = q'; port = P.seen port.new; disk = result.disk }) }
{
    let GatheredStore {
        closed,
        station,
        came,
    } = gather_store(rt, alloc, store, station, crew);
    match closed {
        GroupClosed::Whole(store) => end_serving(before, port, store, station, &came),
        GroupClosed::Broken { disk, .. } => {
            let now = disk.faults();
            Served {
                status: Status::DiskFault { before, now },
                disk,
                station,
            }
        }
    }
}

// Writes a summary of a store that all callers have left, and lets it go.
fn end_serving<P: Port, D: Disk + Drop, A: Door + Drop, B: Door + Drop, T: Pulse + Drop>(
    before: u64,
    port: &mut P,
    store: Store<D>,
    station: Station<A, B, T>,
    came: &Result<Came, Memory>,
) -> Served<D, A, B, T>
    ensures usage { result.status ≢ Status.Usage }
    ensures station { result.station ≡ station }
    ensures disk { result.disk ≡ store.journal.disk }
    ensures ends { EndsServing before (P.seen port.old) (P.seen port.new) (D.seen result.disk).faults store.state.sum came.now result.status }
{
    let writes = port.write_faults();
    let written = put_summary(port, store.centre());
    let disk = store.close();
    let status = status_of_serving(came, written, writes, port.write_faults());
    Served {
        status: status_over(before, disk.faults(), status),
        disk,
        station,
    }
}
