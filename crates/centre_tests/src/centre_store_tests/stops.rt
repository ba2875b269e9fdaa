// Stops and faults within a checkpoint, alone and before the record that needs it, beside each state of the other area: what is left opens
// as it stood before, or with the record.

use super::summed::area_in_words;
use super::told::{alarm, left_of, play, play_parts, summary_of};
use super::{AREA, FRESH};
use crate::same::same;
use arc_io::{Area, Fill, MemDisk};
use centre_core::Centre;
use disk_journal::{Limits, SHIPPED};
use std::alloc::Global;
use std::process::Abort;
use test_fixtures::moments::BEGIN;
use test_fixtures::stores::opened;

/// What a stop may leave of a byte that was not synced: the old one, the new one, or another one.
pub(super) const FILLS: [Fill; 6] = [
    Fill::Old,
    Fill::New,
    Fill::Torn(0),
    Fill::Torn(1),
    Fill::Torn(0x0b),
    Fill::Torn(0xff),
];

/// The bytes of both areas.
#[derive(Drop)]
pub(super) struct Both {
    a: Vec<u8>,
    b: Vec<u8>,
}

pub(super) fn copied(rt: &impl Abort, alloc: Global, bytes: &[u8]) -> Vec<u8> {
    bytes.to_vec(alloc).expect(rt, "memory")
}

/// Those of a disk.
pub(super) fn both_of(rt: &impl Abort, alloc: Global, disk: &MemDisk) -> Both {
    Both {
        a: copied(rt, alloc, disk.bytes(Area::A)),
        b: copied(rt, alloc, disk.bytes(Area::B)),
    }
}

/// A disk with these areas, whose calls of these numbers fail.
pub(super) fn disk_of(rt: &impl Abort, alloc: Global, both: &Both, failing: &[u64]) -> MemDisk {
    let (a, b) = (copied(rt, alloc, &both.a), copied(rt, alloc, &both.b));
    let failing = failing.to_vec(alloc).expect(rt, "memory");
    MemDisk::of(alloc, a, b, failing).expect(rt, "memory")
}

// The areas that a store leaves which is told this.
fn played(rt: &impl Abort, alloc: Global, parts: &str) -> Both {
    let disk = MemDisk::new(alloc, Vec::new(alloc));
    let disk = play(rt, alloc, disk, SHIPPED, parts);
    let both = both_of(rt, alloc, &disk);
    drop(disk);
    both
}

// What a stopped checkpoint may leave that was never opened: a closed gate, a length of 0, and bytes ff behind the mark of a summary.
fn stopped_area(rt: &impl Abort, alloc: Global) -> Vec<u8> {
    let mut area = copied(rt, alloc, FRESH);
    for part in [b"\0\0\0\0\x0b".as_slice(), &[0xff; 200]] {
        area.extend_from_slice(part).expect(rt, "memory");
    }
    area
}

// The areas of a state. But for the last six, area A has three records, and what stands in area B is named.
fn areas_of(rt: &impl Abort, alloc: Global, state: &str) -> Both {
    let b = match state {
        "empty" => Vec::new(alloc),
        "short" => copied(rt, alloc, b"XXXXXXXXXX"),
        "fresh" => copied(rt, alloc, FRESH),
        "gate" => copied(rt, alloc, b"ARC JOURNAL 0002\x01"),
        "foreign" => copied(rt, alloc, &[b'X'; 40]),
        "stopped" => stopped_area(rt, alloc),
        _ => return summed_areas_of(rt, alloc, state),
    };
    let a = copied(rt, alloc, AREA);
    Both { a, b }
}

// Summaries in both areas: an older one without records in B or in A; or one with a record in each, the later ones in A or in B; or what the
// first version left, records alone or a summary too, beside what it was summed up in.
fn summed_areas_of(rt: &impl Abort, alloc: Global, state: &str) -> Both {
    match state {
        "older" => Both {
            a: area_in_words(rt, alloc, "2:s"),
            b: area_in_words(rt, alloc, "1:"),
        },
        "newer" => Both {
            a: area_in_words(rt, alloc, "1:"),
            b: area_in_words(rt, alloc, "2:s"),
        },
        "second" => played(
            rt,
            alloc,
            "begin=begun;checkpoint=made;1=7 taken;checkpoint=made;2=7 taken",
        ),
        "third" => played(
            rt,
            alloc,
            "begin=begun;checkpoint=made;1=7 taken;checkpoint=made;2=7 taken;checkpoint=made;3=7 taken",
        ),
        "moved" => Both {
            a: area_in_words(rt, alloc, "~asv"),
            b: area_in_words(rt, alloc, "1:s"),
        },
        "moved again" => Both {
            a: area_in_words(rt, alloc, "3:s"),
            b: area_in_words(rt, alloc, "~2:"),
        },
        _ => panic!(rt; "no such state"),
    }
}

// A state of the areas, how many entries are recorded there, the generation of the summary, and how many calls a checkpoint has over it:
// eleven where the other area's gate is open, and else ten.
const STATES: &str = "\
empty;3;0;10
short;3;0;10
fresh;3;0;10
gate;3;0;11
foreign;3;0;10
stopped;3;0;10
older;4;2;11
newer;4;2;11
second;4;2;11
third;5;3;11
moved;4;1;11
moved again;4;3;11";

// A state of the areas, and what is done over them: a checkpoint, and a record behind it or none.
#[derive(Drop)]
struct Case {
    both: Both,
    recorded: u64,
    generation: u64,
    turn: u64,
    submits: bool,
    // The centre's summary as it stands, and with the record.
    without: Vec<u8>,
    with: Vec<u8>,
}

impl Case {
    // How many calls of the disk it takes: four for the record.
    fn calls(&self) -> u64 {
        if self.submits {
            self.turn.saturating_add(4)
        } else {
            self.turn
        }
    }

    // What is done, as words of `told`.
    fn word(&self) -> &'static str {
        if self.submits { "9" } else { "checkpoint" }
    }

    // Sets the gates of the summary and of the record behind it to what they are in other areas.
    fn set_gates(&self, both: &mut Both, other: &Both) {
        let behind = self.without.len().saturating_add(21);
        set_byte(&mut both.a, &other.a, 16);
        set_byte(&mut both.a, &other.a, behind);
        set_byte(&mut both.b, &other.b, 16);
        set_byte(&mut both.b, &other.b, behind);
    }

    // How many are recorded and of which generation the summary is, where the gate before the summary and that before the record are open.
    fn wanted(&self, is_summed: bool, is_recorded: bool) -> (u64, u64) {
        let recorded = u64::from(self.submits && is_recorded);
        let generation = u64::from(is_summed);
        (
            self.recorded.saturating_add(recorded),
            self.generation.saturating_add(generation),
        )
    }
}

fn number(rt: &impl Abort, word: &str) -> u64 {
    word.parse::<u64>().expect(rt, "a number")
}

fn case_of(rt: &impl Abort, alloc: Global, row: &str, submits: bool) -> Case {
    let (state, rest) = row.split_once(';').expect(rt, "a row");
    let (recorded, rest) = rest.split_once(';').expect(rt, "a row");
    let (generation, turn) = rest.split_once(';').expect(rt, "a row");
    let both = areas_of(rt, alloc, state);
    let disk = disk_of(rt, alloc, &both, &[]);
    let store = opened(alloc, disk, SHIPPED).expect(rt, "opened");
    let without = summary_of(rt, alloc, store.centre());
    let with = summary_with(rt, alloc, store.centre());
    drop(store);
    Case {
        both,
        recorded: number(rt, recorded),
        generation: number(rt, generation),
        turn: number(rt, turn),
        submits,
        without,
        with,
    }
}

// The summary of a copy of the centre that is told the message.
fn summary_with(rt: &impl Abort, alloc: Global, centre: &Centre) -> Vec<u8> {
    let mut copy = centre.copy(alloc).expect(rt, "memory");
    assert!(rt; copy.entries() < 1 << 48);
    let event = alarm(rt, alloc, 9);
    let ready = copy.prepare(alloc, event, BEGIN).expect(rt, "memory");
    let done = copy.apply(ready);
    drop(done);
    let with = summary_of(rt, alloc, &copy);
    drop(copy);
    with
}

// Does it over a disk, whose journal has no room for another record.
fn done_over(rt: &impl Abort, alloc: Global, disk: MemDisk, parts: &str) -> MemDisk {
    let limits = Limits {
        records: 1,
        ..SHIPPED
    };
    play(rt, alloc, disk, limits, parts)
}

#[test]
fn a_stop_within_a_checkpoint(rt: HostRuntime) {
    for row in STATES.lines() {
        compare_stops(&rt, rt.alloc(), row, false);
    }
}

#[test]
fn a_stop_within_a_record_behind_a_checkpoint(rt: HostRuntime) {
    for row in STATES.lines() {
        compare_stops(&rt, rt.alloc(), row, true);
    }
}

// The disk on which it was done, and how many calls it had before.
fn finished(rt: &impl Abort, alloc: Global, case: &Case) -> (MemDisk, u64) {
    let disk = disk_of(rt, alloc, &case.both, &[]);
    let parts = if case.submits {
        "9=7 taken"
    } else {
        "checkpoint=made"
    };
    let disk = done_over(rt, alloc, disk, parts);
    let start = disk.calls().saturating_sub(case.calls());
    (disk, start)
}

fn compare_stops(rt: &impl Abort, alloc: Global, row: &str, submits: bool) {
    let case = case_of(rt, alloc, row, submits);
    let (disk, start) = finished(rt, alloc, &case);
    for call in 1..case.calls().saturating_add(1) {
        compare_fills(rt, alloc, &case, &disk, (start, call), row);
    }
    drop(disk);
    drop(case);
}

// What was not synced is as one fill says, and the gates as another one: each byte may be anything.
fn compare_fills(
    rt: &impl Abort,
    alloc: Global,
    case: &Case,
    disk: &MemDisk,
    call: (u64, u64),
    row: &str,
) {
    for rest in FILLS {
        compare_stop(rt, alloc, case, disk, (call, Fill::Old, rest), row);
        compare_stop(rt, alloc, case, disk, (call, Fill::New, rest), row);
        compare_stop(rt, alloc, case, disk, (call, Fill::Torn(1), rest), row);
    }
}

// A gate is written by the last call but one of a checkpoint or of a record, and stands once the last one has ended.
fn is_open(call: u64, last: u64, fill: Fill) -> bool {
    call > last || (call.saturating_add(1) >= last && matches!(fill, Fill::New | Fill::Torn(1)))
}

// A stop within a call of the number counted from the one before the first.
fn compare_stop(
    rt: &impl Abort,
    alloc: Global,
    case: &Case,
    disk: &MemDisk,
    stop: ((u64, u64), Fill, Fill),
    row: &str,
) {
    let ((start, call), gate, rest) = stop;
    let number = start.saturating_add(call);
    let mut left = stopped(rt, alloc, disk, number, rest);
    let gates = stopped(rt, alloc, disk, number, gate);
    case.set_gates(&mut left, &gates);
    drop(gates);
    let is_summed = is_open(call, case.turn, gate);
    let is_recorded = is_open(call, case.calls(), gate);
    let wanted = case.wanted(is_summed, is_recorded);
    let what = format!(in alloc; "{row}: a stop within call {call}, {gate:?}, {rest:?}");
    let what = what.expect(rt, "memory");
    compare_left(rt, alloc, case, &left, wanted, &what);
    drop(left);
}

// The areas that a stop leaves.
fn stopped(rt: &impl Abort, alloc: Global, disk: &MemDisk, number: u64, fill: Fill) -> Both {
    assert!(rt; number > 0 && number <= disk.calls());
    let left = disk.stopped(alloc, number, fill).expect(rt, "memory");
    let both = both_of(rt, alloc, &left);
    drop(left);
    both
}

// Sets the byte at the place to what it is in other bytes, where both have one there.
fn set_byte(bytes: &mut [u8], other: &[u8], place: usize) {
    if let (Some(byte), Some(new)) = (bytes.get_mut(place), other.get(place)) {
        *byte = *new;
    }
}

// What is left opens with so many entries, a summary of this generation and the same centre, and goes on from there.
fn compare_left(
    rt: &impl Abort,
    alloc: Global,
    case: &Case,
    left: &Both,
    wanted: (u64, u64),
    what: &str,
) {
    let found = left_of(rt, alloc, disk_of(rt, alloc, left, &[]));
    let (generation, _) = found.split_once(' ').expect(rt, "what is left");
    let disk = disk_of(rt, alloc, left, &[]);
    let mut store = opened(alloc, disk, SHIPPED).expect(rt, what);
    let recorded = store.centre().recorded();
    let found = (recorded, number(rt, generation));
    same(rt, (what, found), (what, wanted), "what is left");
    let centre = if recorded == case.recorded {
        &case.without
    } else {
        &case.with
    };
    let summary = summary_of(rt, alloc, store.centre());
    same(rt, summary.as_slice(), centre.as_slice(), what);
    let is_recorded = recorded > case.recorded;
    let parts = going_on(rt, alloc, case, is_recorded);
    play_parts(rt, alloc, &mut store, &parts);
    drop(store);
}

// A Start, the message where it is not recorded, another one, and a checkpoint: three entries more than before it was done.
fn going_on(rt: &impl Abort, alloc: Global, case: &Case, is_recorded: bool) -> String {
    let word = if is_recorded { "repeat" } else { "taken" };
    let count = case.recorded.saturating_add(3);
    let parts = format!(in alloc;
        "begin=begun;9=7 {word};10=7 taken;recorded={count};checkpoint=made;since={count};10=7 repeat"
    );
    parts.expect(rt, "memory")
}

#[test]
fn a_fault_within_a_checkpoint(rt: HostRuntime) {
    for row in STATES.lines() {
        compare_faults(&rt, rt.alloc(), row, false);
    }
}

#[test]
fn a_fault_within_a_record_behind_a_checkpoint(rt: HostRuntime) {
    for row in STATES.lines() {
        compare_faults(&rt, rt.alloc(), row, true);
    }
}

fn compare_faults(rt: &impl Abort, alloc: Global, row: &str, submits: bool) {
    let case = case_of(rt, alloc, row, submits);
    let (disk, start) = finished(rt, alloc, &case);
    drop(disk);
    for call in 1..case.calls().saturating_add(1) {
        compare_fault(rt, alloc, &case, (start, call), row);
    }
    drop(case);
}

// The call fails: all is Down from then on, and no further call is made. A gate whose sync fails is written.
fn compare_fault(rt: &impl Abort, alloc: Global, case: &Case, place: (u64, u64), row: &str) {
    let (start, call) = place;
    let number = start.saturating_add(call);
    let (word, count) = (case.word(), case.recorded);
    let parts = format!(in alloc;
        "faults=0 false;{word}=down;{word}=down;checkpoint=down;begin=down;list=down;1=down;recorded={count};faults=0 true"
    );
    let parts = parts.expect(rt, "memory");
    let disk = disk_of(rt, alloc, &case.both, &[number]);
    let disk = done_over(rt, alloc, disk, &parts);
    let what = format!(in alloc; "{row}: a fault of call {call}");
    let what = what.expect(rt, "memory");
    same(
        rt,
        (what.as_str(), disk.calls()),
        (what.as_str(), number),
        "calls",
    );
    let wanted = case.wanted(call >= case.turn, call >= case.calls());
    compare_left(rt, alloc, case, &both_of(rt, alloc, &disk), wanted, &what);
    drop(disk);
}
