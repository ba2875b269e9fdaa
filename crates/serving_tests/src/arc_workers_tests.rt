// What no clause says: that sessions and Ticks succeed, byte for byte.
ghost use Rattle.std.specs.Prelude.{◌≡◌, false};
ghost use Rattle.arc_io.specs.Memory.{port_seen};
ghost use Rattle.line_gate.specs.Blanks.{Names};

use crate::doors;
use crate::same::same;
use crate::stores::blank_of;
use arc_doors::{ListPulse, MemDoor, Pulse};
use arc_io::{Disk, MemDisk, MemPort, Port};
use arc_serving::{
    Side, SingleGate, StationGate, Ticked, Worked, WorkerEnd, law_one_caller, ticker, worker,
};
use centre_core::Stop;
use disk_journal::Limits;
use line_gate::{Blank, Gate, GateName};
use std::alloc::Global;
use std::marker::Brand;
use std::process::Abort;
use std::sync::Wait;
use std::sync::atomic::AtomicBool;
use test_fixtures::moments::BEGIN;
use test_fixtures::ports::{failing_port, port_of};

// Its Adopt takes 57 bytes of a journal, and a Start takes 14.
const SETUP: &[u8] = b"account 8080 beat 60\noperator ann 1234\n";

const BEAT: &[u8] = b"\nA2C80013\"NULL\"0000L0#8080[]\r";

const ACKNOWLEDGEMENT: &[u8] = b"\n62AA0012\"ACK\"0000L0#8080[]\r";

// How many bytes and records a journal has room for.
#[derive(Clone, Copy)]
struct Room {
    bytes: u32,
    records: u64,
}

// Room for all that a test records.
const AMPLE: Room = Room {
    bytes: 1_000,
    records: 9,
};

// A gate before a store in memory on which a run has begun, with a journal of this room.
fn blank(rt: &impl Abort, alloc: Global, room: Room) -> Blank<MemDisk> {
    let limits = Limits {
        bytes: u64::from(room.bytes),
        records: room.records,
    };
    let disk = MemDisk::new(alloc, Vec::new(alloc));
    blank_of(rt, alloc, disk, limits, SETUP)
}

// A worker's three links, which have one input, the calls of its door that fail, how many links it is to serve, and the room
// of the journal.
#[derive(Clone, Copy)]
struct Case<'a> {
    side: Side,
    input: &'a [u8],
    failing: &'a [u64],
    sessions: u32,
    room: Room,
}

fn port(rt: &impl Abort, alloc: Global, case: &Case) -> MemPort
    ensures { (port_seen result).ended ≡ false }
{
    port_of(alloc, case.input).expect(rt, "memory")
}

fn door_of(rt: &impl Abort, alloc: Global, case: &Case) -> MemDoor<MemPort> {
    let three = [
        port(rt, alloc, case),
        port(rt, alloc, case),
        port(rt, alloc, case),
    ];
    let ports = Vec::from_array(alloc, three).expect(rt, "memory");
    let failing = case.failing.to_vec(alloc).expect(rt, "memory");
    doors::door_of(rt, alloc, ports, failing)
}

// A worker at a gate of its name. What came of it, and how many entries the store has then.
fn work_at<P: Port + Send + Drop, R: Wait, D: Disk + Drop, N: GateName>(
    rt: &R,
    alloc: Global,
    blank: Blank<D>,
    door: &mut MemDoor<P>,
    case: &Case,
) -> (Worked, u64)
    requires names { Names D.seen N.terms blank }
    requires single { N.terms.groups ≡ false }
{
    // The law is of any gate.
    law_one_caller::<N>();
    let (gate, pass) = Gate::<D, N>::new(blank);
    let at = StationGate::Single(SingleGate { gate: &gate });
    let (pass, worked) = worker(case.side, rt, alloc, &at, pass, door, case.sessions);
    let store = gate.close(pass);
    let entries = store.centre().entries();
    // Given to `drop`, since its parts needn't be looked at here.
    drop(store);
    (worked, entries)
}

fn work<P: Port + Send + Drop, R: Wait, D: Disk + Drop>(
    rt: &R,
    alloc: Global,
    blank: Blank<D>,
    door: &mut MemDoor<P>,
    case: &Case,
) -> (Worked, u64) {
    work_at::<P, R, D, Brand>(rt, alloc, blank, door, case)
}

// How the worker ends at a gate before a store of its own, how many entries the store has then, and what was written to each of so many
// links that were got back.
fn check<R: Abort + Wait>(
    rt: &R,
    alloc: Global,
    case: &Case,
    wanted: (WorkerEnd, u64, usize),
    answer: &[u8],
) {
    let (end, entries, count) = wanted;
    let mut door = door_of(rt, alloc, case);
    let blank = blank(rt, alloc, case.room);
    let told = work(rt, alloc, blank, &mut door, case);
    compare_links(rt, door, count, answer);
    same(rt, told, (Worked { end, refused: 0 }, entries), "the end");
}

// So many links were got back, and this was written to each.
fn compare_links(rt: &impl Abort, door: MemDoor<MemPort>, count: usize, answer: &[u8]) {
    let links = door.into_back();
    same(rt, links.len(), count, "links");
    for link in &links {
        same(rt, link.sink.bytes(), answer, "written");
    }
    drop(links);
}

#[test]
fn a_line_worker_serves_as_many_as_are_asked(rt: HostRuntime) {
    let case = Case {
        side: Side::Lines,
        input: BEAT,
        failing: &[],
        sessions: 2,
        room: AMPLE,
    };
    let wanted = (WorkerEnd::Quota, 4, 2);
    check(&rt, rt.alloc(), &case, wanted, ACKNOWLEDGEMENT);
}

// A link whose first read or write of these numbers fails, and a sound one behind it: the worker goes on, and the store has so many entries
// then. What was written to the first one is nothing.
fn compare_behind<R: Abort + Wait>(rt: &R, alloc: Global, failing: (&[u64], &[u64]), entries: u64) {
    let (reads, writes) = failing;
    let case = Case {
        side: Side::Lines,
        input: BEAT,
        failing: &[],
        sessions: 2,
        room: AMPLE,
    };
    let first = failing_port(alloc, BEAT, reads, writes).expect(rt, "memory");
    let second = port(rt, alloc, &case);
    let ports = Vec::from_array(alloc, [first, second]).expect(rt, "memory");
    let mut door = doors::door_of(rt, alloc, ports, Vec::new(alloc));
    let blank = blank(rt, alloc, case.room);
    let told = work(rt, alloc, blank, &mut door, &case);
    let worked = Worked {
        end: WorkerEnd::Quota,
        refused: 0,
    };
    same(rt, told, (worked, entries), "the end");
    compare_two(rt, door);
}

// Nothing was written to the first link, and an acknowledgement to the second.
fn compare_two(rt: &impl Abort, door: MemDoor<MemPort>) {
    let links = door.into_back();
    same(rt, links.len(), 2, "links");
    for (link, answer) in links.iter().zip([b"", ACKNOWLEDGEMENT]) {
        same(rt, link.sink.bytes(), answer, "written");
    }
    drop(links);
}

#[test]
fn a_worker_goes_on_behind_a_link_that_fails(rt: HostRuntime) {
    compare_behind(&rt, rt.alloc(), (&[1], &[]), 3);
    // The heartbeat whose acknowledgement could not be written stands.
    compare_behind(&rt, rt.alloc(), (&[], &[1]), 4);
}

#[test]
fn a_desk_worker_serves_until_its_door_ends(rt: HostRuntime) {
    let case = Case {
        side: Side::Desks,
        input: b"login ann 1234\nnext\nquit\n",
        failing: &[],
        sessions: 4,
        room: AMPLE,
    };
    let wanted = (WorkerEnd::DoorEnded, 5, 3);
    let answers = b"ok ann\nnone waiting\nbye\n";
    check(&rt, rt.alloc(), &case, wanted, answers);
}

#[test]
fn a_door_that_fails_ends_its_worker(rt: HostRuntime) {
    let case = Case {
        side: Side::Lines,
        input: BEAT,
        failing: &[3],
        sessions: 9,
        room: AMPLE,
    };
    let end = WorkerEnd::DoorFault { before: 0, now: 1 };
    check(&rt, rt.alloc(), &case, (end, 4, 2), ACKNOWLEDGEMENT);
}

// How many bytes of an area a summary of the Adopt and the Start uses: 22, and 94 of the summary.
const SUMMED: u64 = 116;

// A heartbeat, where the journal has an Adopt, a Start, and no room for a third record: it would take 19 bytes behind a summary.
fn beat_within(bytes: u32) -> Case<'static> {
    Case {
        side: Side::Lines,
        input: BEAT,
        failing: &[],
        sessions: 1,
        room: Room { bytes, records: 2 },
    }
}

#[test]
fn a_full_journal_stops_a_worker(rt: HostRuntime) {
    let full = Stop::Full {
        used: SUMMED,
        need: 19,
        records: 0,
    };
    let wanted = (WorkerEnd::Stopped(full), 2, 1);
    check(&rt, rt.alloc(), &beat_within(134), wanted, b"");
}

#[test]
fn a_worker_goes_on_behind_a_checkpoint(rt: HostRuntime) {
    let wanted = (WorkerEnd::Quota, 3, 1);
    check(&rt, rt.alloc(), &beat_within(135), wanted, ACKNOWLEDGEMENT);
}

// An area whose summary says that 281,474,976,710,654 entries are recorded, and has nothing else.
const NEARLY_WORN: &[u8] = b"ARC JOURNAL 0002\x01\0\0\0\x2b\
    \x0b\0\0\0\0\0\0\0\x01\0\0\0\0\x3b\x9a\xca\0\0\0\xff\xff\xff\xff\xff\xfe\
    \0\0\0\0\0\0\0\0\0\0\0\0\0\0\0\0\0\0\0";

const WORN: u64 = 1 << 48;

// A gate before a store over it, of which an Adopt and a Start were the last entries.
fn worn(rt: &impl Abort, alloc: Global) -> Blank<MemDisk> {
    let area = NEARLY_WORN.to_vec(alloc).expect(rt, "memory");
    let disk = MemDisk::of(alloc, area, Vec::new(alloc), Vec::new(alloc)).expect(rt, "memory");
    let limits = Limits {
        bytes: 1_000,
        records: 9,
    };
    blank_of(rt, alloc, disk, limits, SETUP)
}

#[test]
fn a_worn_store_stops_a_worker(rt: HostRuntime) {
    let alloc = rt.alloc();
    let case = beat_within(1_000);
    let mut door = door_of(&rt, alloc, &case);
    let told = work(&rt, alloc, worn(&rt, alloc), &mut door, &case);
    compare_links(&rt, door, 1, b"");
    let worked = Worked {
        end: WorkerEnd::Stopped(Stop::Worn { count: WORN }),
        refused: 0,
    };
    same(&rt, told, (worked, WORN), "the end");
}

// A ticker at a gate of its name. What came of it, and how many entries the store has then.
fn tick_at<R: Wait, D: Disk + Drop, N: GateName>(
    rt: &R,
    alloc: Global,
    blank: Blank<D>,
    pulse: &mut ListPulse,
) -> (Ticked, u64)
    requires names { Names D.seen N.terms blank }
    requires single { N.terms.groups ≡ false }
{
    let (gate, pass) = Gate::<D, N>::new(blank);
    let stop = AtomicBool::new(false);
    let (pass, ticked) = ticker(rt, alloc, &gate, pass, pulse, &stop);
    let store = gate.close(pass);
    let entries = store.centre().entries();
    drop(store);
    (ticked, entries)
}

fn tick<R: Wait, D: Disk + Drop>(
    rt: &R,
    alloc: Global,
    blank: Blank<D>,
    pulse: &mut ListPulse,
) -> (Ticked, u64) {
    tick_at::<R, D, Brand>(rt, alloc, blank, pulse)
}

// A ticker at a gate before a store with a journal of this room: why it stopped, and how many entries the store has then. None of its
// Ticks was refused.
fn compare_ticks<R: Abort + Wait>(
    rt: &R,
    alloc: Global,
    room: Room,
    pulse: &mut ListPulse,
    wanted: (Option<Stop>, u64),
) {
    let blank = blank(rt, alloc, room);
    let (ticked, entries) = tick(rt, alloc, blank, pulse);
    let Ticked { stop, refused } = ticked;
    same(rt, (stop, entries), wanted, "the end");
    same(rt, refused, 0, "refused");
}

#[test]
fn a_ticker_ticks_until_its_pulse_ends(rt: HostRuntime) {
    let moments = [BEGIN + 1, BEGIN + 2].to_vec(rt.alloc());
    let mut pulse = ListPulse::new(moments.expect(&rt, "memory"));
    compare_ticks(&rt, rt.alloc(), AMPLE, &mut pulse, (None, 4));
}

// Three moments, of which the second raises an incident.
fn three_moments(rt: &impl Abort, alloc: Global) -> ListPulse {
    let moments = [BEGIN + 1, BEGIN + 61, BEGIN + 62].to_vec(alloc);
    ListPulse::new(moments.expect(rt, "memory"))
}

// The journal has an Adopt, a Start, and no room for a third record. The first Tick raises nothing, and the second one would take 14 bytes
// behind a summary.
#[test]
fn a_full_journal_stops_the_ticker(rt: HostRuntime) {
    let mut pulse = three_moments(&rt, rt.alloc());
    let room = Room {
        bytes: 129,
        records: 2,
    };
    let full = Stop::Full {
        used: SUMMED,
        need: 14,
        records: 0,
    };
    compare_ticks(&rt, rt.alloc(), room, &mut pulse, (Some(full), 3));
    let flag = AtomicBool::new(false);
    let next = pulse.next(&rt, &flag);
    same(&rt, next, Some(BEGIN + 62), "left in the pulse");
}

#[test]
fn a_ticker_goes_on_behind_a_checkpoint(rt: HostRuntime) {
    let mut pulse = three_moments(&rt, rt.alloc());
    let room = Room {
        bytes: 130,
        records: 2,
    };
    compare_ticks(&rt, rt.alloc(), room, &mut pulse, (None, 5));
}

#[test]
fn a_worn_store_stops_the_ticker(rt: HostRuntime) {
    let alloc = rt.alloc();
    let mut pulse = three_moments(&rt, alloc);
    let (ticked, entries) = tick(&rt, alloc, worn(&rt, alloc), &mut pulse);
    let Ticked { stop, refused } = ticked;
    let stopped = Some(Stop::Worn { count: WORN });
    same(&rt, (stop, entries), (stopped, WORN), "the end");
    same(&rt, refused, 0, "refused");
    let flag = AtomicBool::new(false);
    let next = pulse.next(&rt, &flag);
    same(&rt, next, Some(BEGIN + 61), "left in the pulse");
}
