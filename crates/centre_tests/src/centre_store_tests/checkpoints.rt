// Checkpoints: when they are made, what they leave, and when there is no room behind them. A summary of nothing has 43 bytes, that of an
// Adopt 60, of a Start too 68, of one message too 156, and 27 more for each of the next 31; an area uses 22 more. An Adopt takes 31 bytes,
// another one 43, a Start 14 and a message 43.
ghost use Rattle.std.specs.Prelude.{◌<◌, ◌^◌};

use super::told::{alarm, left_of, play, play_parts, submitted};
use super::{AREA, FRESH, new_store};
use crate::centre_core_tests::decoding::bytes_of;
use crate::centre_core_tests::summaries::{ONE_BYTES, joined};
use crate::same::same;
use arc_io::{Area, MemDisk};
use centre_core::Centre;
use centre_store::Store;
use disk_journal::{Limits, SHIPPED};
use std::alloc::Global;
use std::process::Abort;
use test_fixtures::stores::recorded;

// How many bytes and records a journal has room for, what a store over a new disk is told and answers, what it leaves, and how many calls
// its disk had: six open it, four write a record, and ten put a summary into the other area, or eleven where the gate there is open.
const CHECKPOINTS: &str = "\
999 9|since=0;checkpoint=made;since=0;recorded=0;checkpoint=made|1 65 0|16
999 9|begin=begun;1=7 taken;since=0;checkpoint=made;since=3;checkpoint=made;since=3;recorded=3|1 178 0|28
999 9|begin=begun;1=7 taken;checkpoint=made;2=7 taken;since=3;list=7 listed;1=7 repeat;2=7 repeat;recorded=4|1 221 1|32
999 9|begin=begun;checkpoint=made;1=7 taken;checkpoint=made;since=3;recorded=3|2 178 0|39
999 9|begin=begun;checkpoint=made;1=7 taken;checkpoint=made;2=7 taken;checkpoint=made;since=4|3 205 0|54
999 9|begin=begun;checkpoint=made;begin=begun;since=2;recorded=3|1 104 1|28
999 9|begin=begun;checkpoint=made;begin other=begun;since=2;recorded=4|1 147 2|32
177 9|begin=begun;1=7 taken;checkpoint=Full { used: 178, need: 0, records: 0 };since=0;list=7 listed;1=7 repeat;2=7 taken;recorded=4|0 148 4|22
178 9|begin=begun;1=7 taken;checkpoint=made;since=3;2=Full { used: 178, need: 43, records: 0 };list=7 listed|1 178 0|28
999 3|begin=begun;1=7 taken;list=7 listed;1=7 repeat;since=0|0 105 3|18
105 9|begin=begun;1=7 taken;list=7 listed;1=7 repeat;since=0|0 105 3|18
105 3|begin=begun;1=7 taken;list=7 listed;1=7 repeat;since=0;2=Full { used: 178, need: 43, records: 0 }|0 105 3|18
221 3|begin=begun;1=7 taken;2=7 taken;since=3;recorded=4|1 221 1|32
220 3|begin=begun;1=7 taken;2=Full { used: 178, need: 43, records: 0 };since=0;list=7 listed;1=7 repeat;recorded=3|0 105 3|18
220 3|begin=begun;1=7 taken;begin=begun;since=3;recorded=4|1 192 1|32
220 3|begin=begun;1=7 taken;begin other=Full { used: 178, need: 43, records: 0 };since=0;recorded=3|0 105 3|18
449 99|begin=begun;1 to 9=7 taken;since=0;recorded=11|0 449 11|50
448 99|begin=begun;1 to 8=7 taken;since=0;9=7 taken;since=10;recorded=11|1 410 1|60
383 99|begin=begun;1 to 7=7 taken;since=0;8=7 taken;since=9;recorded=10|1 383 1|56
382 99|begin=begun;1 to 7=7 taken;8=Full { used: 340, need: 43, records: 0 };since=0;recorded=9;begin=begun|0 377 10|46
999 0|begin=Full { used: 65, need: 31, records: 0 };checkpoint=made;since=0;begin=Full { used: 65, need: 31, records: 0 }|1 65 0|16
999 1|begin=begun;since=1;recorded=2;1=7 taken;since=2;2=7 taken;since=3;recorded=4;1=7 repeat|3 221 1|54
999 2|begin=begun;since=0;1=7 taken;since=2;2=7 taken;since=2;3=7 taken;since=4;recorded=5|2 248 1|47
96 1|begin=begun;since=1;recorded=2|1 96 1|24
95 1|begin=Full { used: 82, need: 14, records: 0 };since=0;recorded=1|0 48 1|10
48 9|begin=Full { used: 82, need: 14, records: 0 };since=0;recorded=1|0 48 1|10
47 9|begin=Full { used: 65, need: 31, records: 0 };recorded=0|0 17 0|6
0 9|begin=Full { used: 65, need: 31, records: 0 };checkpoint=Full { used: 65, need: 0, records: 0 }|0 17 0|6
64 9|checkpoint=Full { used: 65, need: 0, records: 0 };since=0|0 17 0|6
65 9|checkpoint=made;checkpoint=made;since=0|1 65 0|16";

#[test]
fn checkpoints_at_their_limits(rt: HostRuntime) {
    for row in CHECKPOINTS.lines() {
        compare_row(&rt, rt.alloc(), row);
    }
}

fn compare_row(rt: &impl Abort, alloc: Global, row: &str) {
    let (limits, rest) = row.split_once('|').expect(rt, "a row");
    let (parts, rest) = rest.split_once('|').expect(rt, "a row");
    let (left, calls) = rest.split_once('|').expect(rt, "a row");
    let disk = MemDisk::new(alloc, Vec::new(alloc));
    let disk = play_within(rt, alloc, disk, limits, parts);
    let calls = calls.parse::<u64>().expect(rt, "a count");
    same(rt, (row, disk.calls()), (row, calls), "calls");
    let found = left_of(rt, alloc, disk);
    same(rt, (row, found.as_str()), (row, left), "what is left");
}

/// What is told over a disk whose journal has room for so many bytes and records.
pub(super) fn play_within(
    rt: &impl Abort,
    alloc: Global,
    disk: MemDisk,
    limits: &str,
    parts: &str,
) -> MemDisk {
    let limits = limits_of(rt, limits);
    play(rt, alloc, disk, limits, parts)
}

/// So many bytes and records.
pub(super) fn limits_of(rt: &impl Abort, limits: &str) -> Limits
    ensures { result.bytes < 2 ^ 32 }
{
    let (bytes, records) = limits.split_once(' ').expect(rt, "limits");
    let bytes = bytes.parse::<u32>().expect(rt, "bytes");
    Limits {
        bytes: u64::from(bytes),
        records: records.parse::<u64>().expect(rt, "records"),
    }
}

// The generation in each area, or `-`, behind each of four checkpoints with a record between.
const TURNS: &str = "\
begin=begun;checkpoint=made|- 1
1=7 taken;checkpoint=made|2 1
2=7 taken;checkpoint=made|2 3
3=7 taken;checkpoint=made;checkpoint=made|4 3";

#[test]
fn the_areas_take_turns(rt: HostRuntime) {
    let alloc = rt.alloc();
    let mut disk = MemDisk::new(alloc, Vec::new(alloc));
    for row in TURNS.lines() {
        disk = compare_turn(&rt, alloc, disk, row);
    }
    drop(disk);
}

fn compare_turn(rt: &impl Abort, alloc: Global, disk: MemDisk, row: &str) -> MemDisk {
    let (parts, want) = row.split_once('|').expect(rt, "a row");
    let disk = play(rt, alloc, disk, SHIPPED, parts);
    let a = generation_of(rt, alloc, disk.bytes(Area::A));
    let b = generation_of(rt, alloc, disk.bytes(Area::B));
    let found = format!(in alloc; "{a} {b}").expect(rt, "memory");
    same(rt, (row, found.as_str()), (row, want), "generations");
    disk
}

// The last byte of the generation, behind an open gate, a length and the mark of a summary.
fn generation_of(rt: &impl Abort, alloc: Global, area: &[u8]) -> String {
    match (area.get(16), area.get(21), area.get(29)) {
        (Some(1), Some(11), Some(generation)) => {
            format!(in alloc; "{generation}").expect(rt, "memory")
        }
        _ => format!(in alloc; "-").expect(rt, "memory"),
    }
}

// Runs over one disk, each opened with limits of its own, and what they leave.
const RUNS: &str = "\
999 9:begin=begun;1=7 taken;checkpoint=made;2=7 taken/999 9:since=3;recorded=4;1=7 repeat;2=7 repeat;begin=begun;since=3;recorded=5|1 235 2
999 9:begin=begun;1=7 taken;checkpoint=made/100 9:since=3;recorded=3;checkpoint=made;list=7 listed;1=7 repeat;\
2=Full { used: 178, need: 43, records: 0 };begin=Full { used: 178, need: 14, records: 0 };recorded=3|1 178 0
999 9:begin=begun;1=7 taken/999 0:list=7 listed;1=7 repeat;2=Full { used: 178, need: 43, records: 0 };\
begin=Full { used: 178, need: 14, records: 0 };begin other=Full { used: 178, need: 43, records: 0 };recorded=3;since=0;\
checkpoint=made;since=3;2=Full { used: 178, need: 43, records: 0 };checkpoint=made|1 178 0
999 1:begin=begun;1=7 taken;2=7 taken/999 1:since=3;recorded=4;3=7 taken;since=4;recorded=5/999 9:begin=begun;since=4;recorded=6|4 262 2
999 9:begin=begun;1=7 taken/105 3:2=Full { used: 178, need: 43, records: 0 };checkpoint=Full { used: 178, need: 0, records: 0 };since=0|0 105 3
999 9:begin=begun;1=7 taken/999 9:checkpoint=made;since=3/999 9:since=3;checkpoint=made/999 9:2=7 taken;checkpoint=made;since=4|2 205 0";

#[test]
fn checkpoints_over_several_runs(rt: HostRuntime) {
    for row in RUNS.lines() {
        compare_runs(&rt, rt.alloc(), row);
    }
}

fn compare_runs(rt: &impl Abort, alloc: Global, row: &str) {
    let (runs, left) = row.split_once('|').expect(rt, "a row");
    let mut disk = MemDisk::new(alloc, Vec::new(alloc));
    for run in runs.split('/') {
        let (limits, parts) = run.split_once(':').expect(rt, "a run");
        disk = play_within(rt, alloc, disk, limits, parts);
    }
    let found = left_of(rt, alloc, disk);
    same(rt, (row, found.as_str()), (row, left), "what is left");
}

// A store whose journal is full of three records, and a copy of its centre as it was before the next message. The copy stays as it was.
#[test]
fn a_full_journal_is_summed_up_in_the_other_area(rt: HostRuntime) {
    let alloc = rt.alloc();
    let limits = Limits {
        records: 3,
        ..SHIPPED
    };
    let mut store = new_store(&rt, alloc, limits);
    let copy = sum_up(&rt, alloc, &mut store);
    compare_copy(&rt, &copy);
    drop(copy);
    compare_areas(&rt, alloc, store.close());
}

// A copy of the centre before the message that makes a checkpoint.
fn sum_up(rt: &impl Abort, alloc: Global, store: &mut Store<MemDisk>) -> Centre {
    play_parts(rt, alloc, store, "begin=begun;1=7 taken");
    let copy = store.centre().copy(alloc).expect(rt, "memory");
    let told = submitted(rt, alloc, store, alarm(rt, alloc, 2));
    same(rt, told.as_str(), "7 taken", "the next message");
    play_parts(rt, alloc, store, "since=3;recorded=4");
    copy
}

fn compare_copy(rt: &impl Abort, copy: &Centre) {
    let counts = (copy.recorded(), copy.table().opened());
    same(rt, counts, (3, 1), "the copy");
}

// The second message: the gate, the length and the body.
const SECOND: &[u8] =
    b"\x01\0\0\0\x26\x03\0\0\0\0\x3b\x9a\xca\0\x041234\0\x010\0\x02\x02\0\x0b1131 01 001\x04line";

// The first area is as it was, and the second one has the summary, and the record of the message behind it.
fn compare_areas(rt: &impl Abort, alloc: Global, disk: MemDisk) {
    same(rt, disk.bytes(Area::A), AREA, "the first area");
    let area = summed_area(rt, alloc);
    same(rt, area.len(), 221, "the second area's length");
    same(rt, disk.bytes(Area::B), area.as_slice(), "the second area");
    same(rt, recorded(alloc, disk), Some(4), "opened again");
}

fn summed_area(rt: &impl Abort, alloc: Global) -> Vec<u8> {
    let digits = joined(rt, alloc, ONE_BYTES);
    let summary = bytes_of(rt, alloc, &digits);
    let mut area = FRESH.to_vec(alloc).expect(rt, "memory");
    let _ = area.pop();
    for part in [b"\x01\0\0\0\x9c", summary.as_slice(), SECOND, b"\0"] {
        area.extend_from_slice(part).expect(rt, "memory");
    }
    area
}
