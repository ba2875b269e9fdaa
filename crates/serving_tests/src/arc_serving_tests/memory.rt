// Two lines, a desk and a ticker beside each other, over memory.
ghost use Rattle.std.specs.Prelude.{◌≡◌, ◌+◌, length};

use super::{BEAT, served};
use crate::doors::door_of;
use crate::same::same;
use arc_doors::{ListPulse, MemDoor};
use arc_io::MemPort;
use arc_serving::{Came, Crew, Station, Ticked, Worked, WorkerEnd};
use std::alloc::Global;
use std::process::Abort;
use test_fixtures::moments::BEGIN;
use test_fixtures::ports::{failing_port, port_of};

// What two doors with a link each have written, and one without.
const LINES: &[u8] = b"\nDE900012\"ACK\"0000L0#1234[]\r|\n\nDE900012\"ACK\"0000L0#1234[]\r|\n\n";

// What one door with a desk has written.
const DESKS: &[u8] = b"ok ann\nnone waiting\nbye\n|\n";

const ALARM: &[u8] = b"\n2EE70027\"ADM-CID\"0001L0#1234[#1234|1131 01 001]\r";

// What one door has written to a link that fails, and to one behind it with an alarm.
const BEHIND: &[u8] = b"|\n1BC10012\"ACK\"0001L0#1234[]\r|\n";

// A worker that served as many as were asked for.
const SERVED: Worked = Worked {
    end: WorkerEnd::Quota,
    refused: 0,
};

// One more door, to one port with this input.
fn add_door(rt: &impl Abort, alloc: Global, doors: &mut Vec<MemDoor<MemPort>>, input: &[u8])
    ensures { length doors.new.items ≡ length doors.old.items + 1 }
{
    let port = port_of(alloc, input).expect(rt, "memory");
    let ports = Vec::from_array(alloc, [port]).expect(rt, "memory");
    let door = door_of(rt, alloc, ports, Vec::new(alloc));
    doors.push(door).expect(rt, "memory");
}

fn lines_of(rt: &impl Abort, alloc: Global) -> Vec<MemDoor<MemPort>>
    ensures { length result.items ≡ 3 }
{
    let mut lines = Vec::new(alloc);
    add_door(rt, alloc, &mut lines, BEAT);
    add_door(rt, alloc, &mut lines, BEAT);
    add_door(rt, alloc, &mut lines, BEAT);
    lines
}

// Two doors of lines, and one more that has no worker; a door of desks; and two moments.
fn station_of(
    rt: &impl Abort,
    alloc: Global,
) -> Station<MemDoor<MemPort>, MemDoor<MemPort>, ListPulse>
    ensures lines { length result.lines ≡ 3 }
    ensures desks { length result.desks ≡ 1 }
{
    let lines = lines_of(rt, alloc);
    let mut desks = Vec::new(alloc);
    add_door(rt, alloc, &mut desks, b"login ann 1234\nnext\nquit\n");
    let moments = [BEGIN + 1, BEGIN + 2].to_vec(alloc).expect(rt, "memory");
    Station {
        lines,
        desks,
        pulse: ListPulse::new(moments),
    }
}

// What was written to the links that each door got back, a bar behind each link, and a line feed behind each door.
fn written(rt: &impl Abort, alloc: Global, doors: Vec<MemDoor<MemPort>>) -> Vec<u8> {
    let mut all = Vec::new(alloc);
    for door in doors {
        append_door(rt, &mut all, door);
    }
    all
}

fn append(rt: &impl Abort, all: &mut Vec<u8>, bytes: &[u8]) {
    all.extend_from_slice(bytes).expect(rt, "memory");
}

fn append_door(rt: &impl Abort, all: &mut Vec<u8>, door: MemDoor<MemPort>) {
    let links = door.into_back();
    for link in &links {
        append(rt, all, link.sink.bytes());
        append(rt, all, b"|");
    }
    append(rt, all, b"\n");
    // Given to `drop`, since their parts needn't be looked at here.
    drop(links);
}

#[test]
fn lines_a_desk_and_a_ticker_are_served(rt: HostRuntime) {
    let alloc = rt.alloc();
    let crew = Crew {
        lines: 2,
        desks: 1,
        sessions: 1,
    };
    let station = station_of(&rt, alloc);
    let (entries, station, came) = served(&rt, alloc, station, crew);
    // An Adopt and a Start; two heartbeats, a question and two Ticks.
    same(&rt, entries, 7, "entries");
    let Station {
        lines,
        desks,
        pulse,
    } = station;
    drop(pulse);
    // Each frame was acknowledged, and each line of the desk answered. The third door was not used.
    compare_written(&rt, alloc, lines, LINES);
    compare_written(&rt, alloc, desks, DESKS);
    compare_came(&rt, &came, &[SERVED, SERVED], &[SERVED]);
    drop(came);
}

// One door of lines with two links, of which the first one's first read fails.
fn failing_first(
    rt: &impl Abort,
    alloc: Global,
) -> Station<MemDoor<MemPort>, MemDoor<MemPort>, ListPulse>
    ensures { length result.lines ≡ 1 }
{
    let first = failing_port(alloc, ALARM, &[1], &[]).expect(rt, "memory");
    let second = port_of(alloc, ALARM).expect(rt, "memory");
    let ports = Vec::from_array(alloc, [first, second]).expect(rt, "memory");
    let door = door_of(rt, alloc, ports, Vec::new(alloc));
    let lines = Vec::from_array(alloc, [door]).expect(rt, "memory");
    Station {
        lines,
        desks: Vec::new(alloc),
        pulse: ListPulse::new(Vec::new(alloc)),
    }
}

// The worker goes on behind it, and the second link has its acknowledgement.
#[test]
fn a_link_whose_first_read_fails(rt: HostRuntime) {
    let alloc = rt.alloc();
    let crew = Crew {
        lines: 1,
        desks: 0,
        sessions: 2,
    };
    let station = failing_first(&rt, alloc);
    let (entries, station, came) = served(&rt, alloc, station, crew);
    // An Adopt, a Start and one alarm.
    same(&rt, entries, 3, "entries");
    let Station {
        lines,
        desks,
        pulse,
    } = station;
    drop(desks);
    drop(pulse);
    compare_written(&rt, alloc, lines, BEHIND);
    compare_came(&rt, &came, &[SERVED], &[]);
    drop(came);
}

fn compare_written(rt: &impl Abort, alloc: Global, doors: Vec<MemDoor<MemPort>>, want: &[u8]) {
    let written = written(rt, alloc, doors);
    same(rt, written.as_slice(), want, "written");
}

// What came of the workers of lines and of desks; and the pulse ended.
fn compare_came(rt: &impl Abort, came: &Came, lines: &[Worked], desks: &[Worked]) {
    same(rt, came.lines.as_slice(), lines, "lines");
    same(rt, came.desks.as_slice(), desks, "desks");
    let Ticked { stop, refused } = came.ticked;
    same(rt, (stop, refused), (None, 0), "the ticker");
}
