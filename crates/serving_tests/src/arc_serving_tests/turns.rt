// Callers that wait for one another within their sessions.
ghost use Rattle.std.specs.Prelude.{◌≡◌, ◌+◌, length};
ghost use Rattle.arc_serving.specs.Seen.{StationSeen};

use super::links::{Flag, TurnLink, TurnPulse};
use super::{gathered, served};
use crate::doors::door_of;
use crate::same::{holds, same};
use arc_doors::{ListPulse, MemDoor};
use arc_io::Source;
use arc_serving::{Came, Crew, Station};
use std::alloc::Global;
use std::process::Abort;
use std::sync::atomic::AtomicBool;
use std::sync::{Arc, Wait};
use std::thread::Threads;

type TurnDoor = MemDoor<TurnLink<HostRuntime>>;

// A flag that is not set.
fn flag(rt: &impl Abort, alloc: Global) -> Flag {
    Arc::new(alloc, AtomicBool::new(false)).expect(rt, "memory")
}

fn shared(rt: &impl Abort, flag: &Flag) -> Flag {
    Arc::try_clone(flag).expect(rt, "few owners")
}

// One more door, to one link.
fn add_door(
    rt: &impl Abort,
    alloc: Global,
    host: HostRuntime,
    doors: &mut Vec<TurnDoor>,
    until: &Flag,
    tells: &Flag,
)
    ensures { length doors.new.items ≡ length doors.old.items + 1 }
{
    let link = TurnLink::new(host, shared(rt, until), shared(rt, tells));
    let links = Vec::from_array(alloc, [link]).expect(rt, "memory");
    let door = door_of(rt, alloc, links, Vec::new(alloc));
    doors.push(door).expect(rt, "memory");
}

// Whether each link was got back, and no read of any failed.
fn are_read(doors: Vec<TurnDoor>) -> bool {
    for door in doors {
        if !is_read(door) {
            return false;
        }
    }
    true
}

fn is_read(door: TurnDoor) -> bool {
    let links = door.into_back();
    let is_read = match links.first() {
        Some(link) => link.read_faults() == 0,
        None => false,
    };
    // Given to `drop`, since their parts needn't be looked at here.
    drop(links);
    is_read
}

// Two doors of lines, whose links wait for each other's answer.
fn two_doors(
    rt: &impl Abort,
    alloc: Global,
    host: HostRuntime,
    one: &Flag,
    other: &Flag,
) -> Station<TurnDoor, TurnDoor, ListPulse>
    ensures { length result.lines ≡ 2 }
{
    let mut lines = Vec::new(alloc);
    add_door(rt, alloc, host, &mut lines, one, other);
    add_door(rt, alloc, host, &mut lines, other, one);
    Station {
        lines,
        desks: Vec::new(alloc),
        pulse: ListPulse::new(Vec::new(alloc)),
    }
}

// No lock is held round a session: each of two links ends only once the other was answered.
#[test]
fn sessions_go_on_beside_each_other(rt: HostRuntime) {
    let alloc = rt.alloc();
    let (one, other) = (flag(&rt, alloc), flag(&rt, alloc));
    serve_two(&rt, alloc, rt, (&one, &other));
}

fn serve_two<R: Abort + Threads + Wait + Sync>(
    rt: &R,
    alloc: Global,
    host: HostRuntime,
    flags: (&Flag, &Flag),
) {
    let crew = Crew {
        lines: 2,
        desks: 0,
        sessions: 1,
    };
    let station = two_doors(rt, alloc, host, flags.0, flags.1);
    let (entries, station, came) = served(rt, alloc, station, crew);
    compare_two(rt, entries, station, came);
}

// The same at a gate with groups.
#[test]
fn groups_go_on_beside_each_other(rt: HostRuntime) {
    let alloc = rt.alloc();
    let (one, other) = (flag(&rt, alloc), flag(&rt, alloc));
    gather_two(&rt, alloc, rt, (&one, &other));
}

fn gather_two<R: Abort + Threads + Wait + Sync>(
    rt: &R,
    alloc: Global,
    host: HostRuntime,
    flags: (&Flag, &Flag),
) {
    let crew = Crew {
        lines: 2,
        desks: 0,
        sessions: 1,
    };
    let station = two_doors(rt, alloc, host, flags.0, flags.1);
    let (entries, station, came) = gathered(rt, alloc, station, crew);
    compare_two(rt, entries, station, came);
}

fn compare_two(
    rt: &impl Abort,
    entries: u64,
    station: Station<TurnDoor, TurnDoor, ListPulse>,
    came: Came,
) {
    drop(came);
    // An Adopt, a Start and two heartbeats.
    same(rt, entries, 4, "entries");
    let Station {
        lines,
        desks,
        pulse,
    } = station;
    drop(desks);
    drop(pulse);
    holds(rt, are_read(lines), "read");
}

// A door of lines, whose link waits for the pulse's moment.
fn one_door(
    rt: &impl Abort,
    alloc: Global,
    host: HostRuntime,
    given: &Flag,
    answered: &Flag,
) -> Station<TurnDoor, TurnDoor, TurnPulse<HostRuntime>>
    ensures { length result.lines ≡ 1 }
{
    let mut lines = Vec::new(alloc);
    add_door(rt, alloc, host, &mut lines, given, answered);
    let pulse = TurnPulse::new(host, shared(rt, given));
    Station {
        lines,
        desks: Vec::new(alloc),
        pulse,
    }
}

// The pulse is told to end when the workers have ended, and not before.
#[test]
fn the_pulse_is_told_when_the_workers_have_ended(rt: HostRuntime) {
    let alloc = rt.alloc();
    let (given, answered) = (flag(&rt, alloc), flag(&rt, alloc));
    serve_one(&rt, alloc, rt, (&given, &answered));
}

fn serve_one<R: Abort + Threads + Wait + Sync>(
    rt: &R,
    alloc: Global,
    host: HostRuntime,
    flags: (&Flag, &Flag),
) {
    let crew = Crew {
        lines: 1,
        desks: 0,
        sessions: 1,
    };
    let station = one_door(rt, alloc, host, flags.0, flags.1);
    let (entries, station, came) = served(rt, alloc, station, crew);
    drop(came);
    // An Adopt, a Start, a heartbeat and a Tick.
    same(rt, entries, 4, "entries");
    let Station {
        lines,
        desks,
        pulse,
    } = station;
    drop(desks);
    let was_told = pulse.was_told();
    drop(pulse);
    holds(rt, are_read(lines), "read");
    holds(rt, was_told, "told to end");
}
