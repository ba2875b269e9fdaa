// A served station over disks of which one call fails or that stop within one, and over journals so short that checkpoints are made between: what
// was acknowledged stands, and once all is sent again, each alarm stands once.
ghost use Rattle.std.specs.Prelude.{◌≡◌, ◌<◌, ◌^◌, ◌+◌, length};

use super::{SETUP, serve_in_memory};
use crate::doors::door_of;
use crate::same::same;
use arc_data::Memory;
use arc_doors::{ListPulse, MemDoor};
use arc_io::{Disk, Fill, MemDisk, MemPort};
use arc_serving::{Came, Crew, ServedStore, Station, Ticked, Worked, WorkerEnd};
use centre_core::{Setup, Stop};
use centre_store::Store;
use disk_journal::{Limits, SHIPPED};
use std::alloc::Global;
use std::process::Abort;
use std::sync::Wait;
use std::thread::Threads;
use test_fixtures::moments::BEGIN;
use test_fixtures::ports::port_of;
use test_fixtures::stores::opened;

type Doors = MemDoor<MemPort>;

// Two alarms of one line, and two of another, each with its own number; and their acknowledgements.
const ONE: &[u8] = b"\n2EE70027\"ADM-CID\"0001L0#1234[#1234|1131 01 001]\r\
    \nE9E60027\"ADM-CID\"0002L0#1234[#1234|1131 01 001]\r";

const OTHER: &[u8] = b"\n6B180027\"ADM-CID\"0003L0#1234[#1234|1131 01 001]\r\
    \n27E70027\"ADM-CID\"0004L0#1234[#1234|1131 01 001]\r";

const TO_ONE: &[u8] = b"\n1BC10012\"ACK\"0001L0#1234[]\r\n14310012\"ACK\"0002L0#1234[]\r";

const TO_OTHER: &[u8] = b"\nD1600012\"ACK\"0003L0#1234[]\r\n0BD10012\"ACK\"0004L0#1234[]\r";

// What a caller is told of the first fault of a disk.
const DOWN: Stop = Stop::Down { at_open: 0, now: 1 };

// How many bytes each of these has.
const ACKNOWLEDGEMENT: usize = 28;

fn limits_of(records: u64) -> Limits
    ensures { result.bytes < 2 ^ 32 }
{
    Limits { records, ..SHIPPED }
}

// One more door, to one port with this input.
fn add_door(rt: &impl Abort, alloc: Global, doors: &mut Vec<Doors>, input: &[u8])
    ensures { length doors.new.items ≡ length doors.old.items + 1 }
{
    let port = port_of(alloc, input).expect(rt, "memory");
    let ports = Vec::from_array(alloc, [port]).expect(rt, "memory");
    let door = door_of(rt, alloc, ports, Vec::new(alloc));
    doors.push(door).expect(rt, "memory");
}

// Two lines, a desk that asks what is open, and a ticker of two moments. So as many entries are recorded, whoever comes first.
fn station_of(rt: &impl Abort, alloc: Global) -> Station<Doors, Doors, ListPulse>
    ensures lines { length result.lines ≡ 2 }
    ensures desks { length result.desks ≡ 1 }
{
    let mut lines = Vec::new(alloc);
    add_door(rt, alloc, &mut lines, ONE);
    add_door(rt, alloc, &mut lines, OTHER);
    let mut desks = Vec::new(alloc);
    add_door(rt, alloc, &mut desks, b"login ann 1234\nlist\nquit\n");
    let moments = [BEGIN, BEGIN].to_vec(alloc).expect(rt, "memory");
    Station {
        lines,
        desks,
        pulse: ListPulse::new(moments),
    }
}

// How many acknowledgements a door has written, which are the first ones of these.
fn acknowledged(rt: &impl Abort, door: Doors, all: &[u8]) -> u64 {
    let mut count = 0usize;
    let links = door.into_back();
    for link in &links {
        let written = link.sink.bytes();
        same(rt, all.starts_with(written), true, "acknowledgements");
        count = written.len();
    }
    // Given to `drop`, since their parts needn't be looked at here.
    drop(links);
    same(rt, count % ACKNOWLEDGEMENT, 0, "whole acknowledgements");
    (count / ACKNOWLEDGEMENT) as u64
}

// How many alarms a station acknowledged.
fn acknowledged_by(rt: &impl Abort, station: Station<Doors, Doors, ListPulse>) -> u64 {
    let Station {
        lines,
        desks,
        pulse,
    } = station;
    drop(desks);
    drop(pulse);
    let mut total = 0u64;
    for (door, all) in lines.into_iter().zip([TO_ONE, TO_OTHER]) {
        total = total.saturating_add(acknowledged(rt, door, all));
    }
    total
}

// Each worker had its session, or the disk has failed once; and so the ticker.
fn compare_came(rt: &impl Abort, came: Result<Came, Memory>) {
    let came = came.expect(rt, "memory");
    compare_ends(rt, came.lines.as_slice());
    compare_ends(rt, came.desks.as_slice());
    let Ticked { stop, refused } = came.ticked;
    drop(came);
    same(rt, stop.unwrap_or(DOWN), DOWN, "the ticker");
    same(rt, refused, 0, "refused");
}

fn compare_ends(rt: &impl Abort, workers: &[Worked]) {
    for worked in workers {
        let is_so = worked.end == WorkerEnd::Quota || worked.end == WorkerEnd::Stopped(DOWN);
        same(rt, (is_so, worked.refused), (true, 0), "a worker");
    }
}

// Serves the station over a store on which a run begins, where it does. How many alarms were acknowledged, and the disk.
fn serve<R: Abort + Threads + Wait + Sync>(
    rt: &R,
    alloc: Global,
    store: Store<MemDisk>,
) -> (u64, MemDisk) {
    let setup = Setup::read(alloc, SETUP).expect(rt, "a setup");
    let mut store = store;
    match store.begin(alloc, setup, BEGIN) {
        Ok(()) => {
            let crew = Crew {
                lines: 2,
                desks: 1,
                sessions: 1,
            };
            let station = station_of(rt, alloc);
            let ServedStore {
                store,
                station,
                came,
            } = serve_in_memory(rt, alloc, store, station, crew);
            compare_came(rt, came);
            (acknowledged_by(rt, station), store.close())
        }
        Err(_) => (0, store.close()),
    }
}

// The same over a disk, with room for so many records.
fn run<R: Abort + Threads + Wait + Sync>(
    rt: &R,
    alloc: Global,
    disk: MemDisk,
    records: u64,
) -> (u64, MemDisk) {
    match Store::open(alloc, disk, limits_of(records)) {
        Ok(store) => serve(rt, alloc, store),
        Err(refused) => (0, refused.disk),
    }
}

// How many signals the one incident has that stands on a disk, which is given back: as many as messages are recorded.
fn signals_on(rt: &impl Abort, alloc: Global, disk: MemDisk) -> (u64, MemDisk) {
    let store = opened(alloc, disk, SHIPPED).expect(rt, "opened");
    let table = store.centre().table();
    let signals = match table.get(1) {
        Some(incident) => incident.signals,
        None => 0,
    };
    same(rt, table.opened() <= 1, true, "one incident");
    (signals, store.close())
}

// What was acknowledged stands, and at most one alarm more. A second run acknowledges all, and each stands once.
fn compare_again<R: Abort + Threads + Wait + Sync>(
    rt: &R,
    alloc: Global,
    disk: MemDisk,
    records: u64,
    acknowledged: u64,
) {
    let faults = disk.faults();
    let (stand, disk) = signals_on(rt, alloc, disk);
    let is_kept = acknowledged <= stand && stand <= 4;
    same(rt, is_kept, true, "what was acknowledged stands");
    let (again, disk) = run(rt, alloc, disk, records);
    let (signals, disk) = signals_on(rt, alloc, disk);
    let found = (again, signals, disk.faults());
    drop(disk);
    same(rt, found, (4, 4, faults), "each stands once");
}

// The disk of a run that no call fails.
fn sound<R: Abort + Threads + Wait + Sync>(rt: &R, alloc: Global, records: u64) -> MemDisk {
    let (acknowledged, disk) = run(rt, alloc, MemDisk::new(alloc, Vec::new(alloc)), records);
    same(rt, acknowledged, 4, "all are acknowledged");
    disk
}

#[test]
fn a_fault_within_a_served_station(rt: HostRuntime) {
    compare_faults(&rt, rt.alloc(), SHIPPED.records);
}

#[test]
fn a_fault_within_a_station_with_checkpoints(rt: HostRuntime) {
    compare_faults(&rt, rt.alloc(), 1);
    compare_faults(&rt, rt.alloc(), 3);
}

// Until no call fails.
fn compare_faults<R: Abort + Threads + Wait + Sync>(rt: &R, alloc: Global, records: u64) {
    for call in 1..1_000 {
        if !has_failed(rt, alloc, records, call) {
            // an Adopt, a Start and four alarms take four calls each, behind six that open the areas
            same(rt, 30 < call, true, "calls");
            return;
        }
    }
    panic!(rt; "each call fails");
}

// Whether the disk has failed at this call. Where it has not, all is acknowledged.
fn has_failed<R: Abort + Threads + Wait + Sync>(
    rt: &R,
    alloc: Global,
    records: u64,
    call: u64,
) -> bool {
    let failing = [call].to_vec(alloc).expect(rt, "memory");
    let (acknowledged, disk) = run(rt, alloc, MemDisk::new(alloc, failing), records);
    let faults = disk.faults();
    if faults == 0 {
        // another call of this disk would fail
        drop(disk);
        same(rt, acknowledged, 4, "all are acknowledged");
        return false;
    }
    same(rt, faults, 1, "one fault");
    compare_next(rt, alloc, disk, records, acknowledged);
    true
}

// Of the alarms that were not acknowledged, at most one stands.
fn compare_next<R: Abort + Threads + Wait + Sync>(
    rt: &R,
    alloc: Global,
    disk: MemDisk,
    records: u64,
    acknowledged: u64,
) {
    let (stand, disk) = signals_on(rt, alloc, disk);
    let is_next = stand <= acknowledged.saturating_add(1);
    same(rt, is_next, true, "at most one more stands");
    compare_again(rt, alloc, disk, records, acknowledged);
}

#[test]
fn a_stop_within_a_served_station(rt: HostRuntime) {
    compare_stops(&rt, rt.alloc(), SHIPPED.records);
}

#[test]
fn a_stop_within_a_station_with_checkpoints(rt: HostRuntime) {
    compare_stops(&rt, rt.alloc(), 2);
}

fn compare_stops<R: Abort + Threads + Wait + Sync>(rt: &R, alloc: Global, records: u64) {
    let disk = sound(rt, alloc, records);
    for call in 1..disk.calls().saturating_add(1) {
        compare_fills(rt, alloc, &disk, records, call);
    }
    drop(disk);
}

fn compare_fills<R: Abort + Threads + Wait + Sync>(
    rt: &R,
    alloc: Global,
    disk: &MemDisk,
    records: u64,
    call: u64,
) {
    for fill in [Fill::Old, Fill::New, Fill::Torn(1), Fill::Torn(0xff)] {
        assert!(rt; call > 0 && call <= disk.calls());
        let left = disk.stopped(alloc, call, fill).expect(rt, "memory");
        compare_again(rt, alloc, left, records, 0);
    }
}
