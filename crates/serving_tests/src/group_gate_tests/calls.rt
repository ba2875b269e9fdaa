// The calls of a gate with groups, in one thread.
ghost use Rattle.std.specs.Prelude.{◌≡◌, ◌≤◌, true};
ghost use Rattle.arc_data.specs.WellFormed.{IsWellFormed};
ghost use Rattle.centre_core.specs.Runs.{IsSubmitted};
ghost use Rattle.line_gate.specs.Blanks.{Names};

use super::{BEGUN, SETUP, disk_of};
use crate::line_gate_tests::calls::total;
use crate::same::{holds, same};
use crate::stores::blank_of;
use arc_data::Event;
use arc_io::{Disk, MemDisk};
use centre_core::{Batch, Done, Grouped, Hall, Stop};
use disk_journal::SHIPPED;
use group_gate::{AtGroup, GroupBlank, GroupClosed, GroupGate, GroupPass};
use line_gate::GateName;
use std::alloc::Global;
use std::marker::Brand;
use std::process::Abort;
use std::sync::Wait;
use test_fixtures::messages::{account, burglary};
use test_fixtures::moments::BEGIN;
use test_fixtures::stores::recorded;

// Two alarms, and the question what is open.
fn three_events(rt: &impl Abort, alloc: Global) -> Batch {
    let mut batch = Batch::new(alloc);
    push_alarm(rt, alloc, &mut batch, 1);
    push_alarm(rt, alloc, &mut batch, 2);
    let pushed = batch.push(Event::List, BEGIN).expect(rt, "memory");
    holds(rt, pushed, "room in the batch");
    batch
}

fn push_alarm(rt: &impl Abort, alloc: Global, batch: &mut Batch, seq: u16)
    requires { seq ≤ 9999 }
{
    let event = burglary(alloc, account(), seq).expect(rt, "memory");
    let pushed = batch.push(event, BEGIN).expect(rt, "memory");
    holds(rt, pushed, "room in the batch");
}

// What is answered where nothing is submitted.
fn submit_none<R: Abort + Wait, D: Disk + Drop, N: GateName>(
    rt: &R,
    alloc: Global,
    gate: &GroupGate<D, N>,
    pass: &mut GroupPass<N>,
) -> (usize, Option<Stop>) {
    let mut batch = Batch::new(alloc);
    let Grouped { done, stop } = gate.submit_all(rt, alloc, pass, &mut batch);
    drop(batch);
    let count = done.count();
    drop(done);
    (count, stop)
}

// One pass is split from another, which submits nothing and then three events together; they meet, and the first asks what is open, alone.
fn split_and_meet<R: Abort + Wait, D: Disk + Drop, N: GateName>(
    rt: &R,
    alloc: Global,
    gate: &GroupGate<D, N>,
    first: &mut GroupPass<N>,
) -> (Grouped, Done) {
    let mut second = gate.split(rt, first).expect(rt, "split");
    let nothing = submit_none(rt, alloc, gate, first);
    same(rt, nothing, (0, None), "an empty batch");
    let mut batch = three_events(rt, alloc);
    let grouped = gate.submit_all(rt, alloc, first, &mut batch);
    same(rt, batch.count(), 0, "what is left");
    drop(batch);
    gate.meet(&mut second, first).expect(rt, "met");
    let listed = gate.submit(rt, alloc, &mut second, Event::List, BEGIN);
    let listed = listed.expect(rt, "a list");
    gate.take_in(first, second);
    (grouped, listed)
}

// The same at a gate of its own, and what closing it gives.
fn meet_another<R: Abort + Wait, D: Disk + Drop, N: GateName>(
    rt: &R,
    alloc: Global,
    blank: GroupBlank<D>,
) -> (Grouped, Done, GroupClosed<D>)
    requires names { Names D.seen N.terms blank }
    requires groups { N.terms.groups ≡ true }
{
    let (gate, mut first) = GroupGate::<D, N>::new(blank);
    let (grouped, listed) = split_and_meet(rt, alloc, &gate, &mut first);
    (grouped, listed, gate.close(first))
}

fn met<R: Abort + Wait, D: Disk + Drop>(
    rt: &R,
    alloc: Global,
    blank: GroupBlank<D>,
) -> (Grouped, Done, GroupClosed<D>) {
    meet_another::<R, D, Brand>(rt, alloc, blank)
}

#[test]
fn a_pass_that_met_another_sees_its_group(rt: HostRuntime) {
    let alloc = rt.alloc();
    let disk = MemDisk::new(alloc, Vec::new(alloc));
    let blank = blank_of(&rt, alloc, disk, SHIPPED, SETUP);
    let (grouped, listed, closed) = met(&rt, alloc, blank);
    compare_three(&rt, grouped);
    same(&rt, (listed.caller, listed.at), (2, BEGIN), "the second");
    same(&rt, total(&listed.reply), 1, "listed");
    let disk = disk_of(&rt, closed, true);
    same(&rt, disk.calls(), BEGUN + 4, "calls of the disk");
    // An Adopt, a Start and two alarms.
    same(&rt, recorded(alloc, disk), Some(4), "recorded");
}

// All three were answered to the first caller, and what it was told to be open is one incident.
fn compare_three(rt: &impl Abort, grouped: Grouped) {
    let Grouped { done, stop } = grouped;
    same(rt, (done.count(), stop), (3, None), "answered");
    let mut open = 0u64;
    for i in 0..done.count() {
        let made = done.at(i);
        same(rt, (made.caller, made.at), (1, BEGIN), "the first");
        open = open.saturating_add(total(&made.reply));
    }
    same(rt, open, 1, "listed");
}

// An alarm goes through the gate as a hall. Why it was not taken.
fn submit_at<R: Wait, D: Disk, N: GateName>(
    rt: &R,
    alloc: Global,
    gate: &GroupGate<D, N>,
    pass: GroupPass<N>,
    event: Event,
) -> (GroupPass<N>, Option<Stop>)
    requires { IsWellFormed event × IsSubmitted event }
{
    let mut hall = AtGroup { rt, gate, pass };
    let stop = hall.submit(alloc, event, BEGIN).err();
    (hall.leave(), stop)
}

// One pass submits an alarm alone, and another one three events together. Why they were not taken, and how many of the three are left.
fn submit_both<R: Abort + Wait, D: Disk + Drop, N: GateName>(
    rt: &R,
    alloc: Global,
    gate: &GroupGate<D, N>,
    first: &mut GroupPass<N>,
) -> (Option<Stop>, Option<Stop>, usize) {
    let second = gate.split(rt, first).expect(rt, "split");
    let event = burglary(alloc, account(), 3).expect(rt, "memory");
    let (second, alone) = submit_at(rt, alloc, gate, second, event);
    gate.take_in(first, second);
    let mut batch = three_events(rt, alloc);
    let Grouped { done, stop } = gate.submit_all(rt, alloc, first, &mut batch);
    drop(done);
    let left = batch.count();
    drop(batch);
    (alone, stop, left)
}

// The same at a gate of its own, and what closing it gives.
fn submit_two<R: Abort + Wait, D: Disk + Drop, N: GateName>(
    rt: &R,
    alloc: Global,
    blank: GroupBlank<D>,
) -> ((Option<Stop>, Option<Stop>, usize), GroupClosed<D>)
    requires names { Names D.seen N.terms blank }
    requires groups { N.terms.groups ≡ true }
{
    let (gate, mut first) = GroupGate::<D, N>::new(blank);
    let told = submit_both(rt, alloc, &gate, &mut first);
    (told, gate.close(first))
}

fn submitted<R: Abort + Wait, D: Disk + Drop>(
    rt: &R,
    alloc: Global,
    blank: GroupBlank<D>,
) -> ((Option<Stop>, Option<Stop>, usize), GroupClosed<D>) {
    submit_two::<R, D, Brand>(rt, alloc, blank)
}

// The alarm meets the fault. Behind it nothing is taken off a batch.
#[test]
fn a_disk_that_failed_stops_every_caller(rt: HostRuntime) {
    let alloc = rt.alloc();
    let failing = vec![in alloc; BEGUN + 1].expect(&rt, "memory");
    let disk = MemDisk::new(alloc, failing);
    let blank = blank_of(&rt, alloc, disk, SHIPPED, SETUP);
    let (told, closed) = submitted(&rt, alloc, blank);
    let down = Some(Stop::Down { at_open: 0, now: 1 });
    same(&rt, told, (down, down, 3), "down");
    drop(disk_of(&rt, closed, false));
}
