// The calls of a gate, in one thread.
ghost use Rattle.std.specs.Prelude.{◌≡◌, false};
ghost use Rattle.arc_data.specs.WellFormed.{IsWellFormed};
ghost use Rattle.centre_core.specs.Runs.{IsSubmitted};
ghost use Rattle.line_gate.specs.Blanks.{Names};

use super::blank;
use crate::same::{holds, same};
use arc_data::{Event, Reply};
use arc_io::Disk;
use centre_core::{Done, Hall, Stop};
use line_gate::{AtGate, Blank, Gate, GateName, Pass};
use std::alloc::Global;
use std::marker::Brand;
use std::process::Abort;
use std::sync::Wait;
use test_fixtures::messages::{account, burglary};
use test_fixtures::moments::BEGIN;

const SETUP: &[u8] = b"account 1234\noperator ann 1234\noperator bob 5678\n";

// How many incidents a list says that there are.
pub(crate) fn total(reply: &Reply) -> u64 {
    match reply {
        Reply::Listed(listing) => listing.total,
        _ => 0,
    }
}

// An alarm, which a pass submits.
fn submit_alarm<R: Abort + Wait, D: Disk + Drop, N: GateName>(
    rt: &R,
    alloc: Global,
    gate: &Gate<D, N>,
    pass: &mut Pass<N>,
) -> Result<Done, Stop> {
    let event = burglary(alloc, account(), 1).expect(rt, "memory");
    gate.submit(rt, alloc, pass, event, BEGIN)
}

// One pass is split from another, which submits an alarm; they meet, and the first asks for the list.
fn split_and_meet<R: Abort + Wait, D: Disk + Drop, N: GateName>(
    rt: &R,
    alloc: Global,
    gate: &Gate<D, N>,
    first: &mut Pass<N>,
) -> (Done, Done) {
    let mut second = gate.split(rt, first).expect(rt, "split");
    let taken = submit_alarm(rt, alloc, gate, first).expect(rt, "an answer");
    gate.meet(&mut second, first).expect(rt, "met");
    let listed = gate.submit(rt, alloc, &mut second, Event::List, BEGIN);
    (taken, listed.expect(rt, "a list"))
}

// The same at a gate of its own, and how many entries its store has recorded then.
fn meet_another<R: Abort + Wait, D: Disk + Drop, N: GateName>(
    rt: &R,
    alloc: Global,
    blank: Blank<D>,
) -> (Done, Done, u64)
    requires names { Names D.seen N.terms blank }
    requires single { N.terms.groups ≡ false }
{
    let (gate, mut first) = Gate::<D, N>::new(blank);
    let (taken, listed) = split_and_meet(rt, alloc, &gate, &mut first);
    let store = gate.close(first);
    let recorded = store.centre().recorded();
    // Given to `drop`, since its parts needn't be looked at here.
    drop(store);
    (taken, listed, recorded)
}

fn met<R: Abort + Wait, D: Disk + Drop>(
    rt: &R,
    alloc: Global,
    blank: Blank<D>,
) -> (Done, Done, u64) {
    meet_another::<R, D, Brand>(rt, alloc, blank)
}

#[test]
fn a_pass_that_met_another_sees_its_alarm(rt: HostRuntime) {
    let alloc = rt.alloc();
    let blank = blank(&rt, alloc, SETUP, Vec::new(alloc));
    let (taken, listed, recorded) = met(&rt, alloc, blank);
    same(&rt, (taken.caller, taken.at), (1, BEGIN), "the first");
    holds(&rt, matches!(taken.reply, Reply::Taken), "taken");
    same(&rt, (listed.caller, listed.at), (2, BEGIN), "the second");
    same(&rt, total(&listed.reply), 1, "listed");
    same(&rt, recorded, 3, "recorded");
}

// An alarm goes through the gate as a hall. Why it was not taken.
fn submit_at<R: Wait, D: Disk, N: GateName>(
    rt: &R,
    alloc: Global,
    gate: &Gate<D, N>,
    pass: Pass<N>,
    event: Event,
) -> (Pass<N>, Option<Stop>)
    requires { IsWellFormed event × IsSubmitted event }
{
    let mut hall = AtGate { rt, gate, pass };
    let stop = hall.submit(alloc, event, BEGIN).err();
    (hall.leave(), stop)
}

// Two passes submit an alarm each. Why each was not taken.
fn submit_both<R: Abort + Wait, D: Disk + Drop, N: GateName>(
    rt: &R,
    alloc: Global,
    gate: &Gate<D, N>,
    first: &mut Pass<N>,
) -> (Option<Stop>, Option<Stop>) {
    let second = gate.split(rt, first).expect(rt, "split");
    let one = submit_alarm(rt, alloc, gate, first).err();
    let again = burglary(alloc, account(), 1).expect(rt, "memory");
    let (second, other) = submit_at(rt, alloc, gate, second, again);
    gate.take_in(first, second);
    (one, other)
}

// The same at a gate of its own, and the count of its disk's faults.
fn submit_two<R: Abort + Wait, D: Disk + Drop, N: GateName>(
    rt: &R,
    alloc: Global,
    blank: Blank<D>,
) -> (Option<Stop>, Option<Stop>, u64)
    requires names { Names D.seen N.terms blank }
    requires single { N.terms.groups ≡ false }
{
    let (gate, mut first) = Gate::<D, N>::new(blank);
    let (one, other) = submit_both(rt, alloc, &gate, &mut first);
    let disk = gate.close(first).close();
    (one, other, disk.faults())
}

fn submitted<R: Abort + Wait, D: Disk + Drop>(
    rt: &R,
    alloc: Global,
    blank: Blank<D>,
) -> (Option<Stop>, Option<Stop>, u64) {
    submit_two::<R, D, Brand>(rt, alloc, blank)
}

#[test]
fn a_disk_that_fails_stops_every_caller(rt: HostRuntime) {
    let alloc = rt.alloc();
    // Opening a new area takes six calls, the Adopt and the Start four each.
    let failing = vec![in alloc; 15].expect(&rt, "memory");
    let blank = blank(&rt, alloc, SETUP, failing);
    let told = submitted(&rt, alloc, blank);
    let down = Some(Stop::Down { at_open: 0, now: 1 });
    same(&rt, told, (down, down, 1), "down");
}
