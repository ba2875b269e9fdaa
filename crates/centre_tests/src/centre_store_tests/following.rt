// What a second store asks for and takes in: the bodies of recorded events by their numbers, and events of such bodies. A record is named by
// a letter, as where areas are opened.

use super::checkpoints::{limits_of, play_within};
use super::stops::{both_of, disk_of};
use super::submitting::compare_fault;
use super::told::play_parts;
use crate::same::same;
use arc_data::Blob;
use arc_io::{Area, MemDisk};
use centre_store::{Found, Store};
use disk_journal::SHIPPED;
use std::alloc::Global;
use std::process::Abort;
use test_fixtures::stores::opened;

// How many bytes and records a journal has room for, and what a store over a new disk is told and answers. Full has the numbers that it has
// where the same events are submitted.
const FOLLOWINGS: &str = "\
999 9|since=0;recorded=0;body 0=summed;body 1=ahead
999 9|begin=begun;1=7 taken;body 0=summed;body 1=a;body 2=s;body 3=m;body 4=ahead;body 5=ahead;body 18446744073709551615=ahead
999 9|begin=begun;1=7 taken;2=7 taken;body 4=t;body 3=m;body 1=a;body 1=a;body 2=s;body 4=t;body 5=ahead
999 9|begin=begun;body 2=s;1=7 taken;list=7 listed;1=7 repeat;body 3=m;body 4=ahead;2=7 taken;body 4=t
999 9|begin=begun;1=7 taken;body 3=m;checkpoint=made;body 0=summed;body 1=summed;body 3=summed;body 4=ahead;2=7 taken;body 3=summed;body 4=t;\
body 5=ahead
999 3|begin=begun;1=7 taken;body 1=a;2=7 taken;since=3;body 1=summed;body 3=summed;body 4=t;body 5=ahead
999 9|take a=true;take s=true;take m=true;recorded=3;body 1=a;body 2=s;body 3=m;list=7 listed;1=7 repeat;begin=begun;recorded=4;body 4=s
999 9|begin=begun;1=7 taken;take m=false;take v=false;take x=false;take q=false;take e=false;take c=false;take .=false;recorded=3;body 4=ahead
999 9|begin=begun;1=7 taken;checkpoint=made;take m=false;take e=false;take t=true;take t=false;since=3;recorded=4;body 4=t
999 9|take m=false;take x=false;recorded=0;take s=true;take m=false;take a=true;take a=true;take m=true;recorded=4
999 9|take o=true;take s=true;take m=true;take n=false;take c=true;recorded=4
105 3|take a=true;take s=true;take m=true;take t=Full { used: 178, need: 43, records: 0 };take m=false;take x=false;recorded=3;body 3=m
220 3|begin=begun;1=7 taken;take t=Full { used: 178, need: 43, records: 0 };take s=true;since=3;recorded=4;body 4=s
221 3|take a=true;take s=true;take m=true;take t=true;since=3;recorded=4;body 3=summed;body 4=t
999 0|take x=false;take a=Full { used: 65, need: 31, records: 0 };recorded=0;body 1=ahead";

#[test]
fn bodies_are_given_and_taken(rt: HostRuntime) {
    for row in FOLLOWINGS.lines() {
        compare_row(&rt, rt.alloc(), row);
    }
}

fn compare_row(rt: &impl Abort, alloc: Global, row: &str) {
    let (limits, parts) = row.split_once('|').expect(rt, "a row");
    let disk = MemDisk::new(alloc, Vec::new(alloc));
    let disk = play_within(rt, alloc, disk, limits, parts);
    drop(disk);
}

// The call that fails, what is told then and ever after, and how many records are found when the disk is opened again.
const FAULTS: &str = "\
15|take a=true;take s=true;take m=down;take m=down;take x=down;body 1=down;body 0=down;recorded=2;faults=0 true|2
18|take a=true;take s=true;take m=down;take m=down;body 1=down;list=down;recorded=2;faults=0 true|3
15|begin=begun;body 3=ahead;body 1=down;body 1=down;body 3=down;take m=down;1=down;recorded=2;faults=0 true|2
0|begin=begun;body 1=a;take m=true;recorded=3;faults=0 false|3";

#[test]
fn a_fault_is_told_until_it_is_opened_again(rt: HostRuntime) {
    for row in FAULTS.lines() {
        compare_fault(&rt, rt.alloc(), limits_of(&rt, "999 9"), row);
    }
}

// What a store is told at first, and then, when another one has a copy of its areas.
const COPIES: &str = "\
since=0|begin=begun;1 to 40=7 taken;begin other=begun;40=7 repeat;list=7 listed;41=7 taken;begin other=begun
begin=begun;1=7 taken|2 to 9=7 taken;begin other=begun
begin=begun;1 to 9=7 taken;checkpoint=made;10=7 taken|11 to 20=7 taken;begin=begun;begin other=begun;21=7 taken
begin=begun;checkpoint=made;1=7 taken;checkpoint=made|2 to 9=7 taken";

#[test]
fn a_second_store_has_the_bytes_of_the_first(rt: HostRuntime) {
    for row in COPIES.lines() {
        compare_copy(&rt, rt.alloc(), row);
    }
}

fn compare_copy(rt: &impl Abort, alloc: Global, row: &str) {
    let (before, behind) = row.split_once('|').expect(rt, "a row");
    let disk = MemDisk::new(alloc, Vec::new(alloc));
    let disk = play_within(rt, alloc, disk, "9999 99", before);
    let both = both_of(rt, alloc, &disk);
    let copy = disk_of(rt, alloc, &both, &[]);
    drop(both);
    let first = play_within(rt, alloc, disk, "9999 99", behind);
    let (first, second) = follow(rt, alloc, first, copy);
    same(
        rt,
        (row, first.bytes(Area::A)),
        (row, second.bytes(Area::A)),
        "A",
    );
    same(
        rt,
        (row, first.bytes(Area::B)),
        (row, second.bytes(Area::B)),
        "B",
    );
    drop(first);
    drop(second);
}

// The second takes in all that the first has behind it.
fn follow(rt: &impl Abort, alloc: Global, first: MemDisk, second: MemDisk) -> (MemDisk, MemDisk) {
    let mut first = opened(alloc, first, SHIPPED).expect(rt, "opened");
    let mut second = opened(alloc, second, SHIPPED).expect(rt, "opened");
    let count = first.centre().recorded();
    for number in second.centre().recorded()..count {
        hand_over(rt, alloc, &mut first, &mut second, number.saturating_add(1));
    }
    same(rt, second.centre().recorded(), count, "all are taken");
    (first.close(), second.close())
}

fn hand_over(
    rt: &impl Abort,
    alloc: Global,
    first: &mut Store<MemDisk>,
    second: &mut Store<MemDisk>,
    number: u64,
) {
    let mut body = Blob::new(alloc);
    let found = first.body(alloc, number, &mut body);
    same(rt, (number, found), (number, Ok(Found::Body)), "a body");
    let taken = second.replay(alloc, body.bytes());
    same(rt, (number, taken), (number, Ok(true)), "is taken");
    drop(body);
}
