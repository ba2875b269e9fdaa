// Beginning and submitting: the bytes of the journal, its limits, further runs, stops and faults.
ghost use Rattle.std.specs.Prelude.{◌<◌, ◌^◌};

use super::told::{numbered, play, play_parts, submitted};
use super::{AREA, failing_disk, new_store};
use crate::same::same;
use arc_data::Token;
use arc_io::{Area, Fill, MemDisk};
use centre_store::Store;
use disk_journal::{Limits, SHIPPED};
use std::alloc::Global;
use std::ops::Range;
use std::process::Abort;
use test_fixtures::stores::recorded;

// A journal of three records answers what is quiet, and makes no checkpoint for it.
const THREE: &str = "begin=begun;1=7 taken;list=7 listed;1=7 repeat;since=0;recorded=3";

#[test]
fn writes_byte_for_byte(rt: HostRuntime) {
    let alloc = rt.alloc();
    let limits = Limits {
        records: 3,
        ..SHIPPED
    };
    let disk = MemDisk::new(alloc, Vec::new(alloc));
    let disk = play(&rt, alloc, disk, limits, THREE);
    // Six calls for the opening of a new area, and four for each record.
    same(&rt, disk.calls(), 18, "calls");
    same(&rt, disk.bytes(Area::A), AREA, "the first area");
    same(&rt, disk.bytes(Area::B), b"", "the second area");
    drop(disk);
}

// Behind 260 messages of 4,000 bytes there is no room for another one, but for a short one; and for another one behind a summary, which has
// the last 32 of them.
#[test]
fn has_room_for_bytes_behind_a_summary(rt: HostRuntime) {
    let alloc = rt.alloc();
    let limits = Limits {
        bytes: 1_048_576,
        ..SHIPPED
    };
    let mut store = new_store(&rt, alloc, limits);
    fill(&rt, alloc, &mut store);
    drop(store);
}

fn fill(rt: &impl Abort, alloc: Global, store: &mut Store<MemDisk>) {
    play_parts(rt, alloc, store, "begin=begun");
    for seq in 1..261u16 {
        compare_filled(rt, alloc, store, seq, "7 taken");
    }
    play_parts(rt, alloc, store, "list=7 listed;262=7 taken;since=0");
    compare_filled(rt, alloc, store, 261, "7 taken");
    play_parts(rt, alloc, store, "since=263;recorded=264");
}

// The last 32 of 33 messages of 4,000 bytes stand in a summary of 128,640 bytes; a message of 4,000 bytes would take 4,032.
#[test]
fn is_full_of_the_bytes_of_a_summary(rt: HostRuntime) {
    let alloc = rt.alloc();
    let limits = Limits {
        bytes: 132_693,
        ..SHIPPED
    };
    let mut store = new_store(&rt, alloc, limits);
    fill_summary(&rt, alloc, &mut store);
    drop(store);
}

fn fill_summary(rt: &impl Abort, alloc: Global, store: &mut Store<MemDisk>) {
    play_parts(rt, alloc, store, "begin=begun");
    for seq in 1..33u16 {
        compare_filled(rt, alloc, store, seq, "7 taken");
    }
    let full = "Full { used: 128662, need: 4032, records: 0 }";
    compare_filled(rt, alloc, store, 33, full);
    play_parts(rt, alloc, store, "since=0;checkpoint=made;since=34");
    compare_filled(rt, alloc, store, 33, full);
}

// What is told to a message of 4,000 bytes, an event of code NN with a long text.
fn compare_filled(
    rt: &impl Abort,
    alloc: Global,
    store: &mut Store<MemDisk>,
    seq: u16,
    want: &str,
) {
    let event = numbered(rt, alloc, Token::SiaDcs, seq, &[b'N'; 4000]);
    let told = submitted(rt, alloc, store, event);
    same(rt, (seq, told.as_str()), (seq, want), "filled");
}

#[test]
fn a_stop_leaves_a_record_or_none(rt: HostRuntime) {
    let alloc = rt.alloc();
    let disk = MemDisk::new(alloc, Vec::new(alloc));
    let disk = play(&rt, alloc, disk, SHIPPED, "begin=begun;1=7 taken");
    same(&rt, disk.calls(), 18, "calls");
    compare_stops(&rt, alloc, &disk, 1..19, 1);
    drop(disk);
}

/// What stops within these calls leave, of each kind. So many records are written together.
pub(super) fn compare_stops(
    rt: &impl Abort,
    alloc: Global,
    disk: &MemDisk,
    calls: Range<u64>,
    together: u64,
) {
    for call in calls {
        compare_fills(rt, alloc, disk, call, together);
    }
}

fn compare_fills(rt: &impl Abort, alloc: Global, disk: &MemDisk, call: u64, together: u64) {
    for fill in [Fill::Old, Fill::New, Fill::Torn(1), Fill::Torn(0xff)] {
        compare_stop(rt, alloc, disk, (call, fill), together);
    }
}

// How many entries are recorded in what a stop within the call leaves.
fn compare_stop(rt: &impl Abort, alloc: Global, disk: &MemDisk, stop: (u64, Fill), together: u64) {
    let (call, fill) = stop;
    assert!(rt; call > 0 && call <= disk.calls());
    let left = disk.stopped(alloc, call, fill).expect(rt, "memory");
    let found = recorded(alloc, left);
    let want = Some(left_by(call, fill, together));
    same(rt, (call, fill, found), (call, fill, want), "a stop");
}

// How many records a stop within this call leaves. Six calls open a new area, and four write each record, or several together; the third
// and fourth of these leave the new ones where their gate is 01.
fn left_by(call: u64, fill: Fill, together: u64) -> u64 {
    let Some(after_opening) = call.checked_sub(7) else {
        return 0;
    };
    let before = after_opening / 4;
    if after_opening % 4 >= 2 && matches!(fill, Fill::New | Fill::Torn(1)) {
        before.saturating_add(together)
    } else {
        before
    }
}

// The call that fails, what is told then and ever after, and how many records are found when the disk is opened again. Where the last sync
// of a record fails, its gate is written already.
const FAULTS: &str = "\
7|faults=0 false;begin=down;begin=down;recorded=0;faults=0 true|0
8|begin=down;begin=down;recorded=0|0
9|begin=down;begin=down;recorded=0|0
10|begin=down;begin=down;recorded=0|1
11|begin=down;begin=down;list=down;recorded=1|1
12|begin=down;begin=down;list=down;recorded=1|1
13|begin=down;begin=down;list=down;recorded=1|1
14|begin=down;begin=down;list=down;recorded=1|2
15|begin=begun;1=down;list=down;1=down;begin=down;recorded=2|2
16|begin=begun;1=down;list=down;1=down;begin=down;recorded=2|2
17|begin=begun;1=down;list=down;1=down;begin=down;recorded=2|2
18|begin=begun;1=down;list=down;1=down;begin=down;recorded=2|3
0|begin=begun;1=7 taken;list=7 listed;1=7 repeat;recorded=3|3";

#[test]
fn a_fault_of_the_disk_is_told_until_it_is_opened_again(rt: HostRuntime) {
    for row in FAULTS.lines() {
        compare_fault(&rt, rt.alloc(), SHIPPED, row);
    }
}

/// The call that fails, what is told to a store with these limits then and ever after, and how many records are found when the disk is
/// opened again.
pub(super) fn compare_fault(rt: &impl Abort, alloc: Global, limits: Limits, row: &str)
    requires { limits.bytes < 2 ^ 32 }
{
    let (call, rest) = row.split_once('|').expect(rt, "a row");
    let (parts, left) = rest.split_once('|').expect(rt, "a row");
    let call = call.parse().expect(rt, "a call");
    let left = left.parse().expect(rt, "a count");
    let disk = play(rt, alloc, failing_disk(rt, alloc, call), limits, parts);
    same(rt, recorded(alloc, disk), Some(left), row);
}
