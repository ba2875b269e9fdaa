// Groups: what each call answers to the events of a batch, the calls of the disk that it takes, and what a stop or a fault leaves.
ghost use Rattle.arc_data.specs.WellFormed.{IsWellFormed};
ghost use Rattle.centre_core.specs.Runs.{IsSubmitted};

use super::checkpoints::limits_of;
use super::submitting::compare_stops;
use super::told::{alarm, has_begun, named, play, play_parts, word_of};
use super::{failing_disk, new_store};
use crate::same::{holds, same};
use arc_data::Event;
use arc_io::{Area, MemDisk};
use centre_store::{Batch, Dones, Store};
use disk_journal::SHIPPED;
use std::alloc::Global;
use std::process::Abort;
use test_fixtures::moments::BEGIN;
use test_fixtures::stores::{opened, recorded};

// How many bytes and records a journal has room for; the sequences of the messages of a batch, and `list`; what each call answers to it, by
// the first letters of the replies, and then the stop; how many are left, how many calls the disk had behind those of `begin`, and how many
// entries are recorded. A record takes four calls, and so do several that are written together; a checkpoint takes ten, or eleven where the
// gate of the other area is open.
const GROUPS: &str = "\
9999 99|1 2 3 4 5 6 7 8 9 10|tttttttttt|0 4 12
9999 5|1 2 3 4 5 6 7 8 9 10|ttt;t;tttt;t;t|0 41 12
9999 99||;|0 0 2
9999 99|1|t;|0 4 3
9999 99|list list|ll;|0 0 2
9999 99|1 1 list 2 1|trltr|0 4 4
9999 2|list 1 1 list 2 3|l;t;rlt;t|0 33 5
148 99|1 2 3 4|tt;Full { used: 205, need: 43, records: 0 };Full { used: 205, need: 43, records: 0 }|2 4 4
147 99|1 2|t;Full { used: 178, need: 43, records: 0 }|1 4 3
220 3|1 list 2|tl;Full { used: 178, need: 43, records: 0 }|1 4 3";

#[test]
fn groups_are_answered_in_order(rt: HostRuntime) {
    for row in GROUPS.lines() {
        compare_row(&rt, rt.alloc(), row);
    }
}

fn compare_row(rt: &impl Abort, alloc: Global, row: &str) {
    let (limits, rest) = row.split_once('|').expect(rt, "a row");
    let (events, rest) = rest.split_once('|').expect(rt, "a row");
    let (answers, left) = rest.split_once('|').expect(rt, "a row");
    let mut store = new_store(rt, alloc, limits_of(rt, limits));
    play_parts(rt, alloc, &mut store, "begin=begun");
    let count = play_batch(rt, alloc, &mut store, events, answers);
    let disk = store.close();
    let calls = disk.calls();
    let found = recorded(alloc, disk).expect(rt, "opened");
    let told = format!(in alloc; "{count} {} {found}", calls.saturating_sub(14));
    let told = told.expect(rt, "memory");
    same(rt, (row, told.as_str()), (row, left), "what is left");
}

// What a call answers to a batch of these events, and each further call to what is left of it. How many are left at the end.
fn play_batch(
    rt: &impl Abort,
    alloc: Global,
    store: &mut Store<MemDisk>,
    events: &str,
    answers: &str,
) -> usize {
    let mut batch = batch_of(rt, alloc, events);
    for want in answers.split(';') {
        let told = grouped(rt, alloc, store, &mut batch);
        same(rt, (events, told.as_str()), (events, want), "answers");
    }
    batch.count()
}

fn batch_of(rt: &impl Abort, alloc: Global, events: &str) -> Batch {
    let mut batch = Batch::new(alloc);
    for word in events.split_whitespace() {
        let event = event_of(rt, alloc, word);
        let pushed = batch.push(event, BEGIN).expect(rt, "memory");
        holds(rt, pushed, "room in the batch");
    }
    batch
}

fn event_of(rt: &impl Abort, alloc: Global, word: &str) -> Event
    ensures formed { IsWellFormed result }
    ensures submitted { IsSubmitted result }
{
    match word.parse() {
        Ok(seq) => alarm(rt, alloc, seq),
        Err(_) => Event::List,
    }
}

// What is answered to the caller 7.
fn grouped(
    rt: &impl Abort,
    alloc: Global,
    store: &mut Store<MemDisk>,
    batch: &mut Batch,
) -> String {
    assert!(rt; has_begun(store), "not begun");
    let grouped = store.submit_all(alloc, 7, batch);
    let mut told = letters_of(rt, alloc, &grouped.done);
    if let Some(stop) = grouped.stop {
        let stop = named(rt, alloc, stop);
        told.push_str(&stop).expect(rt, "memory");
    }
    drop(grouped);
    told
}

fn letters_of(rt: &impl Abort, alloc: Global, done: &Dones) -> String {
    let mut letters = String::new(alloc);
    for i in 0..done.count() {
        let made = done.at(i);
        same(rt, made.caller, 7, "the caller");
        let letter = word_of(&made.reply).chars().next().expect(rt, "a letter");
        letters.push(letter).expect(rt, "memory");
    }
    letters
}

// What ten messages of a batch are answered.
const TEN: &str = "1 2 3 4 5 6 7 8 9 10";

// What a stop leaves: ten entries more where the first gate of the ten is 01, which the third of their calls writes and the fourth syncs.
#[test]
fn a_stop_leaves_all_of_ten_or_none(rt: HostRuntime) {
    let alloc = rt.alloc();
    let disk = MemDisk::new(alloc, Vec::new(alloc));
    let disk = disk_of_ten(&rt, alloc, disk, "tttttttttt");
    // Two writes and two syncs, behind the fourteen calls of the opening and of `begin`.
    same(&rt, disk.calls(), 18, "calls");
    compare_stops(&rt, alloc, &disk, 15..19, 10);
    drop(disk);
}

// A disk whose store was told ten messages together, and what it answers then.
fn disk_of_ten(rt: &impl Abort, alloc: Global, disk: MemDisk, answers: &str) -> MemDisk {
    let mut store = opened(alloc, disk, SHIPPED).expect(rt, "opened");
    play_parts(rt, alloc, &mut store, "begin=begun");
    let left = play_batch(rt, alloc, &mut store, TEN, answers);
    same(rt, left, 0, "what is left");
    store.close()
}

// Records that are written together lie as those of events that are submitted one after another.
#[test]
fn ten_together_lie_as_ten_alone(rt: HostRuntime) {
    let alloc = rt.alloc();
    let disk = MemDisk::new(alloc, Vec::new(alloc));
    let together = disk_of_ten(&rt, alloc, disk, "tttttttttt");
    let disk = MemDisk::new(alloc, Vec::new(alloc));
    let alone = play(&rt, alloc, disk, SHIPPED, "begin=begun;1 to 10=7 taken");
    compare_areas(&rt, &together, &alone);
    drop(together);
    drop(alone);
}

fn compare_areas(rt: &impl Abort, one: &MemDisk, other: &MemDisk) {
    same(rt, one.bytes(Area::A), other.bytes(Area::A), "area A");
    same(rt, one.bytes(Area::B), other.bytes(Area::B), "area B");
}

// The call that fails when ten are written together, and how many entries are recorded where the disk is opened again. None is answered,
// and those are off the batch. Where the last sync fails, the gate is written already.
const FAULTS: &str = "\
15|2
16|2
17|2
18|12";

#[test]
fn a_fault_answers_none_of_ten(rt: HostRuntime) {
    for row in FAULTS.lines() {
        compare_fault(&rt, rt.alloc(), row);
    }
}

fn compare_fault(rt: &impl Abort, alloc: Global, row: &str) {
    let (call, left) = row.split_once('|').expect(rt, "a row");
    let call = call.parse().expect(rt, "a call");
    let left = left.parse().expect(rt, "a count");
    let disk = failing_disk(rt, alloc, call);
    let disk = disk_of_ten(rt, alloc, disk, "down;down");
    same(rt, recorded(alloc, disk), Some(left), row);
}

#[test]
fn a_batch_takes_sixty_four(rt: HostRuntime) {
    let alloc = rt.alloc();
    let mut store = new_store(&rt, alloc, SHIPPED);
    play_parts(&rt, alloc, &mut store, "begin=begun");
    let mut batch = batch_of_most(&rt, alloc);
    let told = grouped(&rt, alloc, &mut store, &mut batch);
    same(&rt, told.as_str(), &SIXTY_FOUR, "answers");
    same(&rt, store.counts(), (0, 0), "counts of faults");
    let disk = store.close();
    same(&rt, disk.calls(), 18, "calls");
    same(&rt, recorded(alloc, disk), Some(66), "recorded");
    drop(batch);
}

const SIXTY_FOUR: &str = "tttttttttttttttttttttttttttttttttttttttttttttttttttttttttttttttt";

fn batch_of_most(rt: &impl Abort, alloc: Global) -> Batch {
    let mut batch = Batch::new(alloc);
    for seq in 1..66u16 {
        let pushed = batch
            .push(alarm(rt, alloc, seq), BEGIN)
            .expect(rt, "memory");
        same(rt, (seq, pushed), (seq, seq <= 64), "room in the batch");
    }
    same(rt, batch.count(), 64, "events");
    batch
}
