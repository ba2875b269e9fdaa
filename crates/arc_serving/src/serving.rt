// From a store to a store.
ghost use Rattle.std.specs.Prelude.{◌≡◌, ◌≤◌, [], true, false, List, length, IfOk, OnErr};
ghost use Rattle.centre_core.specs.Setting.{IsSetting};
ghost use Rattle.centre_rules.specs.History.{Entry};
ghost use Rattle.centre_rules.specs.Summary.{Summary};
ghost use Rattle.centre_store.specs.Stores.{StoreStands};
ghost use Rattle.line_gate.specs.Blanks.{Names};
ghost use Rattle.line_gate.specs.Passes.{IsPass};
ghost use Rattle.arc_serving.specs.Serving.{GoesOnFrom, ServesWhole, AtSomeGate, RanBefore, ServesAt, GoesOnAt, IsKeptOf};

use crate::bench::{Room, make_room, seat};
use crate::beside::Ticking;
use crate::closing::{serve_seated, unseat_both};
use crate::station::{Came, Crew, GatheredStore, ServedStore, Station};
use crate::station_gate::{SingleGate, StationGate};
use arc_data::Memory;
use arc_doors::{Door, Pulse};
use arc_io::Disk;
use centre_store::Store;
use group_gate::{GroupBlank, GroupGate};
use line_gate::{Blank, Gate, GateName, GateRefused, GroupClosed, Pass};
use std::alloc::Global;
use std::marker::Brand;
use std::sync::Wait;
use std::thread::Threads;

/// Serves lines and desks at once, over a store on which a run has begun. The first doors of each side have a worker each, which serves
/// at most so many sessions, each worker in a thread of its own, and a ticker goes beside them; each is a caller of its own at one gate
/// before the store. When all workers have ended, the flag is set that tells the pulse to end; when the ticker has ended too, the store
/// comes back, and all doors in their places. All memory for that is taken before the first of them begins: where there is none, nothing
/// is served.
pub fn serve_store<
    A: Door + Send + Drop,
    B: Door + Send + Drop,
    T: Pulse + Send + Drop,
    D: Disk + Send + Drop,
    R: Threads + Wait + Sync,
>(
    rt: &R,
    alloc: Global,
    store: Store<D>,
    station: Station<A, B, T>,
    crew: Crew,
) -> ServedStore<D, A, B, T>
    requires begun { IsSetting store.state.sum.text }
    requires lines { crew.lines ≤ length station.lines }
    requires desks { crew.desks ≤ length station.desks }
    ensures served { IfOk result.came (λ came. AtSomeGate D.seen false store
        (λ t. ServesWhole D.seen t crew station result.station came result.store)) }
    ensures refused { OnErr result.came ((b : Summary) (h : List Entry) → StoreStands D.seen b store h
        → GoesOnFrom D.seen b h result.store) }
    ensures untouched { OnErr result.came (result.station ≡ station) }
    ensures kept { (result.store.at_open ≡ store.at_open) × (result.store.journal.limits ≡ store.journal.limits) }
{
    match Blank::new(alloc, store) {
        Ok(blank) => serve_blank::<A, B, T, D, R, Brand>(rt, alloc, blank, station, crew),
        Err(GateRefused { store }) => ServedStore {
            store,
            station,
            came: Err(Memory),
        },
    }
}

/// Serves lines and desks at once, as `serve_store` does, but that events of one piece of a line are submitted together.
pub fn gather_store<
    A: Door + Send + Drop,
    B: Door + Send + Drop,
    T: Pulse + Send + Drop,
    D: Disk + Send + Drop,
    R: Threads + Wait + Sync,
>(
    rt: &R,
    alloc: Global,
    store: Store<D>,
    station: Station<A, B, T>,
    crew: Crew,
) -> GatheredStore<D, A, B, T>
    requires begun { IsSetting store.state.sum.text }
    requires lines { crew.lines ≤ length station.lines }
    requires desks { crew.desks ≤ length station.desks }
    ensures served { IfOk result.came (λ came. AtSomeGate D.seen true store
        (λ t. ServesAt D.seen t crew station result.station came result.closed)) }
    ensures refused { OnErr result.came ((b : Summary) (h : List Entry) → StoreStands D.seen b store h
        → GoesOnAt D.seen b h result.closed) }
    ensures untouched { OnErr result.came (result.station ≡ station) }
    ensures kept { IsKeptOf store result.closed }
{
    match GroupBlank::new(alloc, store) {
        Ok(blank) => gather_blank::<A, B, T, D, R, Brand>(rt, alloc, blank, station, crew),
        Err(GateRefused { store }) => GatheredStore {
            closed: GroupClosed::Whole(store),
            station,
            came: Err(Memory),
        },
    }
}

// The same before a gate with groups that is to have this name.
fn gather_blank<
    A: Door + Send + Drop,
    B: Door + Send + Drop,
    T: Pulse + Send + Drop,
    D: Disk + Send + Drop,
    R: Threads + Wait + Sync,
    N: GateName + Send + Sync,
>(
    rt: &R,
    alloc: Global,
    blank: GroupBlank<D>,
    station: Station<A, B, T>,
    crew: Crew,
) -> GatheredStore<D, A, B, T>
    requires names { Names D.seen N.terms blank }
    requires groups { N.terms.groups ≡ true }
    requires lines { crew.lines ≤ length station.lines }
    requires desks { crew.desks ≤ length station.desks }
    ensures served { IfOk result.came (λ came. ServesAt D.seen N.terms crew station result.station came result.closed) }
    ensures refused { OnErr result.came ((b : Summary) (h : List Entry) → N.terms.stood b h
        → GoesOnAt D.seen b h result.closed) }
    ensures untouched { OnErr result.came (result.station ≡ station) }
    ensures kept { IsKeptOf blank.store result.closed }
{
    let (gate, first) = GroupGate::<D, N>::new(blank);
    let mut first = first;
    let at = StationGate::Group(&gate);
    let (station, came) = serve_at(rt, alloc, &at, &mut first, station, crew);
    GatheredStore {
        closed: gate.close(first),
        station,
        came,
    }
}

// The same before a gate that is to have this name.
fn serve_blank<
    A: Door + Send + Drop,
    B: Door + Send + Drop,
    T: Pulse + Send + Drop,
    D: Disk + Send + Drop,
    R: Threads + Wait + Sync,
    N: GateName + Send + Sync,
>(
    rt: &R,
    alloc: Global,
    blank: Blank<D>,
    station: Station<A, B, T>,
    crew: Crew,
) -> ServedStore<D, A, B, T>
    requires names { Names D.seen N.terms blank }
    requires single { N.terms.groups ≡ false }
    requires lines { crew.lines ≤ length station.lines }
    requires desks { crew.desks ≤ length station.desks }
    ensures served { IfOk result.came (λ came. ServesWhole D.seen N.terms crew station result.station came result.store) }
    ensures refused { OnErr result.came ((b : Summary) (h : List Entry) → N.terms.stood b h
        → GoesOnFrom D.seen b h result.store) }
    ensures untouched { OnErr result.came (result.station ≡ station) }
    ensures kept { (result.store.at_open ≡ N.terms.at_open) × (result.store.journal.limits ≡ N.terms.limits) }
{
    let (gate, first) = Gate::<D, N>::new(blank);
    let mut first = first;
    let at = StationGate::Single(SingleGate { gate: &gate });
    let (station, came) = serve_at(rt, alloc, &at, &mut first, station, crew);
    ServedStore {
        store: gate.close(first),
        station,
        came,
    }
}

// Serves all callers at a gate, of which there is the first pass, until all have ended. The pass has then taken in those of all.
fn serve_at<
    'a,
    A: Door + Send + Drop,
    B: Door + Send + Drop,
    T: Pulse + Send + Drop,
    D: Disk + Send,
    R: Threads + Wait + Sync,
    N: GateName + Send + Sync,
>(
    rt: &R,
    alloc: Global,
    gate: &StationGate<'a, D, N>,
    first: &mut Pass<N>,
    station: Station<A, B, T>,
    crew: Crew,
) -> (Station<A, B, T>, Result<Came, Memory>)
    requires first { IsPass N.terms first.old × (first.old.since ≡ []) }
    requires lines { crew.lines ≤ length station.lines }
    requires desks { crew.desks ≤ length station.desks }
    ensures pass { IsPass N.terms first.new }
    ensures served { IfOk result.1 (λ came. RanBefore N.terms first.new crew station result.0 came) }
    ensures untouched { OnErr result.1 (result.0 ≡ station) }
{
    let (Ok(lines), Ok(desks)) = (make_room(alloc, crew.lines), make_room(alloc, crew.desks)) else {
        return (station, Err(Memory));
    };
    serve_roomed(rt, alloc, gate, first, lines, desks, station, crew)
}

// The same at the gate, with room for all jobs.
fn serve_roomed<
    'a,
    A: Door + Send + Drop,
    B: Door + Send + Drop,
    T: Pulse + Send + Drop,
    D: Disk + Send,
    R: Threads + Wait + Sync,
    N: GateName + Send + Sync,
>(
    rt: &R,
    alloc: Global,
    gate: &StationGate<'a, D, N>,
    first: &mut Pass<N>,
    line_room: Room<A, N>,
    desk_room: Room<B, N>,
    station: Station<A, B, T>,
    crew: Crew,
) -> (Station<A, B, T>, Result<Came, Memory>)
    requires first { IsPass N.terms first.old × (first.old.since ≡ []) }
    requires lines { (line_room.count ≡ crew.lines) × (crew.lines ≤ length station.lines) }
    requires desks { (desk_room.count ≡ crew.desks) × (crew.desks ≤ length station.desks) }
    ensures pass { IsPass N.terms first.new }
    ensures served { IfOk result.1 (λ came. RanBefore N.terms first.new crew station result.0 came) }
    ensures untouched { OnErr result.1 (result.0 ≡ station) }
{
    let Station {
        lines,
        desks,
        pulse,
    } = station;
    let (lines, lines_seated) = seat(rt, gate.gate(), first, line_room, lines);
    let (desks, desks_seated) = seat(rt, gate.gate(), first, desk_room, desks);
    let own = gate.gate().split(rt, first);
    let (Ok(()), Ok(()), Ok(pass)) = (lines_seated, desks_seated, own) else {
        let over = unseat_both(gate.gate(), first, lines, desks);
        let station = Station {
            lines: over.lines,
            desks: over.desks,
            pulse,
        };
        return (station, Err(Memory));
    };
    let ticking = Ticking { pulse, pass };
    let (over, pulse, ticked) = serve_seated(
        rt,
        alloc,
        gate,
        first,
        lines,
        desks,
        ticking,
        crew.sessions,
    );
    let station = Station {
        lines: over.lines,
        desks: over.desks,
        pulse,
    };
    let came = Came {
        lines: over.line_came,
        desks: over.desk_came,
        ticked,
    };
    (station, Ok(came))
}
