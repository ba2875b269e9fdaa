// A line with one alarm over disks of which one call fails or that stop within one, and over journals so short that checkpoints are made between:
// nothing is acknowledged, and the next run acknowledges the alarm and has it once.
ghost use Rattle.std.specs.Prelude.{◌≡◌, ◌<◌, ◌^◌, false};

use super::SETUP;
use crate::same::same;
use arc_io::{Disk, Fill, MemDisk, Port};
use arc_serving::{SessionEnd, Side, serve};
use centre_core::{Centre, Setup, Stop};
use centre_store::Store;
use disk_journal::{Limits, OpenFault, SHIPPED};
use std::alloc::Global;
use std::process::Abort;
use test_fixtures::messages::via;
use test_fixtures::ports::port_of;
use test_fixtures::stores::opened;

const ALARM: &[u8] = b"\n2EE70027\"ADM-CID\"0001L0#1234[#1234|1131 01 001]\r";

const ACKNOWLEDGEMENT: &[u8] = b"\n1BC10012\"ACK\"0001L0#1234[]\r";

// For how many records a journal has room: as it is shipped, and so few that checkpoints come.
const ROOMS: [u64; 4] = [1_000_000, 1, 2, 3];

// How many entries a second run leaves, by how many it found: an Adopt, a Start of each run that came so far, and one Message.
const AGAIN: [u64; 4] = [3, 3, 4, 4];

fn limits_of(records: u64) -> Limits
    ensures { result.bytes < 2 ^ 32 }
{
    Limits { records, ..SHIPPED }
}

// How a run ended: its journal was not opened, its beginning stopped, or it served its line.
type Ran = Result<Result<SessionEnd, Stop>, OpenFault>;

const SERVED: Ran = Ok(Ok(SessionEnd::InputEnded));

// How many calls an opening has over a new area.
const OPENING: u64 = 6;

// Begins a run over the store and serves a line.
fn serve_line<P: Port>(
    rt: &impl Abort,
    alloc: Global,
    store: &mut Store<MemDisk>,
    port: &mut P,
) -> Result<SessionEnd, Stop>
    requires { (P.seen port.old).ended ≡ false }
{
    let setup = Setup::read(alloc, SETUP).expect(rt, "a setup");
    let clock = port.now();
    match store.begin(alloc, setup, clock) {
        Ok(()) => Ok(serve(Side::Lines, &via(), alloc, store, port)),
        Err(stop) => Err(stop),
    }
}

// The same over a disk, which is given back, with room for so many records.
fn run_line<P: Port>(
    rt: &impl Abort,
    alloc: Global,
    disk: MemDisk,
    records: u64,
    port: &mut P,
) -> (Ran, MemDisk)
    requires { (P.seen port.old).ended ≡ false }
{
    match Store::open(alloc, disk, limits_of(records)) {
        Ok(store) => {
            let mut store = store;
            let end = serve_line(rt, alloc, &mut store, port);
            (Ok(end), store.close())
        }
        Err(refused) => (Err(refused.fault), refused.disk),
    }
}

// Such a run with this input: how it ended, and this is what it wrote.
fn run(
    rt: &impl Abort,
    alloc: Global,
    disk: MemDisk,
    records: u64,
    input: &[u8],
    answer: &[u8],
) -> (Ran, MemDisk) {
    let mut port = port_of(alloc, input).expect(rt, "memory");
    let ran = run_line(rt, alloc, disk, records, &mut port);
    same(rt, port.sink.bytes(), answer, "the answer");
    drop(port);
    ran
}

// The disk of a run that no call fails, with the alarm or with no input.
fn sound(rt: &impl Abort, alloc: Global, records: u64, input: &[u8], answer: &[u8]) -> MemDisk {
    let disk = MemDisk::new(alloc, Vec::new(alloc));
    let (end, disk) = run(rt, alloc, disk, records, input, answer);
    same(rt, end, SERVED, "the end");
    disk
}

// How many calls of the disk a run has that is not served, and how many one with the alarm.
fn calls_of(rt: &impl Abort, alloc: Global, records: u64) -> (u64, u64) {
    let begun = sound(rt, alloc, records, b"", b"");
    let done = sound(rt, alloc, records, ALARM, ACKNOWLEDGEMENT);
    let calls = (begun.calls(), done.calls());
    drop(begun);
    drop(done);
    calls
}

#[test]
fn an_alarm_over_a_disk_that_fails_at_each_of_its_calls(rt: HostRuntime) {
    for records in ROOMS {
        compare_faults(&rt, rt.alloc(), records);
    }
}

fn compare_faults(rt: &impl Abort, alloc: Global, records: u64) {
    let (begun, calls) = calls_of(rt, alloc, records);
    // without checkpoints: behind the opening an Adopt, a Start and the alarm take four each
    same(rt, records < 3 || (begun, calls) == (14, 18), true, "calls");
    for call in 1..calls.saturating_add(1) {
        compare_fault(rt, alloc, records, (call, begun));
    }
    compare_beyond(rt, alloc, records, calls.saturating_add(1));
}

fn failing_disk(rt: &impl Abort, alloc: Global, call: u64) -> MemDisk {
    let failing = [call].to_vec(alloc).expect(rt, "memory");
    MemDisk::new(alloc, failing)
}

// A call that is not made fails nothing.
fn compare_beyond(rt: &impl Abort, alloc: Global, records: u64, call: u64) {
    let disk = failing_disk(rt, alloc, call);
    let (end, disk) = run(rt, alloc, disk, records, ALARM, ACKNOWLEDGEMENT);
    let found = (end, disk.faults());
    drop(disk);
    same(rt, found, (SERVED, 0), "no fault");
}

// How a run ends whose call of this number fails: in the opening, in the beginning, whose last call has the other number, or behind it.
fn failed_at(call: u64, begun: u64) -> Ran {
    if call <= OPENING {
        return Err(OpenFault::DiskFault { before: 0, now: 1 });
    }
    let down = Stop::Down { at_open: 0, now: 1 };
    if call <= begun {
        return Ok(Err(down));
    }
    Ok(Ok(SessionEnd::Stopped(down)))
}

// The disk fails at this call, before the line is served or while it is: one fault, which the cause shows, and no answer.
fn compare_fault(rt: &impl Abort, alloc: Global, records: u64, calls: (u64, u64)) {
    let (call, begun) = calls;
    let disk = failing_disk(rt, alloc, call);
    let (end, disk) = run(rt, alloc, disk, records, ALARM, b"");
    let found = (records, call, end, disk.faults());
    let wanted = (records, call, failed_at(call, begun), 1);
    same(rt, found, wanted, "the end");
    compare_again(rt, alloc, disk, records);
}

// How many entries are recorded, how many incidents were opened, and how many signals the first one has.
fn counts(centre: &Centre) -> (u64, u64, u64) {
    let signals = match centre.table().get(1) {
        Some(incident) => incident.signals,
        None => 0,
    };
    (centre.recorded(), centre.table().opened(), signals)
}

// Those of what stands on a disk, which is given back.
fn counts_of(rt: &impl Abort, alloc: Global, disk: MemDisk) -> ((u64, u64, u64), MemDisk) {
    let store = opened(alloc, disk, SHIPPED).expect(rt, "opened");
    let counts = counts(store.centre());
    (counts, store.close())
}

// The next run over the disk, at the same clock, acknowledges the alarm and has it once.
fn compare_again(rt: &impl Abort, alloc: Global, disk: MemDisk, records: u64) {
    let ((found, _, _), disk) = counts_of(rt, alloc, disk);
    let (end, disk) = run(rt, alloc, disk, records, ALARM, ACKNOWLEDGEMENT);
    same(rt, end, SERVED, "the end");
    let (counts, disk) = counts_of(rt, alloc, disk);
    drop(disk);
    let again = AGAIN
        .get(found as usize)
        .expect(rt, "at most three entries");
    same(rt, counts, (*again, 1, 1), "the alarm stands once");
}

// The run that no call fails is stopped within each of its calls, and what was not synced then is as each filling has it.
#[test]
fn an_alarm_over_what_a_stop_leaves(rt: HostRuntime) {
    for records in ROOMS {
        compare_stops(&rt, rt.alloc(), records);
    }
}

fn compare_stops(rt: &impl Abort, alloc: Global, records: u64) {
    let disk = sound(rt, alloc, records, ALARM, ACKNOWLEDGEMENT);
    for call in 1..disk.calls().saturating_add(1) {
        compare_fills(rt, alloc, records, &disk, call);
    }
    drop(disk);
}

fn compare_fills(rt: &impl Abort, alloc: Global, records: u64, disk: &MemDisk, call: u64) {
    for fill in [Fill::Old, Fill::New, Fill::Torn(1), Fill::Torn(0xff)] {
        assert!(rt; call > 0 && call <= disk.calls());
        let left = disk.stopped(alloc, call, fill).expect(rt, "memory");
        compare_again(rt, alloc, left, records);
    }
}
