// One incident from its opening to its closing, and when it waits; and which of two is held by whom; worked out by hand.
use crate::made::{carried, signal, text};
use crate::same::same;
use open_incidents::{Carried, Class, Kind, QueuedTable};
use std::process::Abort;

fn burglary(rt: &impl Abort, account: &[u8]) -> Carried {
    carried(
        text(rt, account),
        signal(rt, Class::Burglary, Kind::New),
        100,
        false,
    )
}

// The number of the first that waits, 0 where none does.
fn first(queued: &QueuedTable) -> u64 {
    match queued.first(1000, None) {
        Some(i) => i.number,
        None => 0,
    }
}

fn compare_first(rt: &impl Abort, queued: &QueuedTable, want: u64, what: &str) {
    same(rt, first(queued), want, what);
}

// The number of the incident that an operator holds, 0 where it holds none.
fn held_by(rt: &impl Abort, queued: &QueuedTable, operator: &[u8]) -> u64 {
    match queued.held_by(&text(rt, operator), 1000, None) {
        Some(i) => i.number,
        None => 0,
    }
}

// What ann holds, and what ben.
fn compare_held(rt: &impl Abort, queued: &QueuedTable, want: (u64, u64), what: &str) {
    let held = (held_by(rt, queued, b"ann"), held_by(rt, queued, b"ben"));
    same(rt, held, want, what);
}

fn claim(rt: &impl Abort, queued: &mut QueuedTable, operator: &[u8], number: u64, at: u64) {
    queued.claim(text(rt, operator), number, at);
}

fn close(queued: &mut QueuedTable, number: u64) {
    if queued.table().get(number).is_some() {
        queued.close(number);
    }
}

#[test]
fn from_opening_to_closing(rt: HostRuntime) {
    let mut queued = QueuedTable::new(rt.alloc());
    compare_first(&rt, &queued, 0, "none opened");
    let burglary = burglary(&rt, b"1234");
    queued.reserve(1).expect(&rt, "memory");
    queued.carry(&burglary);
    same(&rt, queued.table().opened(), 1, "opened");
    compare_first(&rt, &queued, 1, "opened");
    hold_and_close(&rt, &mut queued);
}

fn hold_and_close(rt: &impl Abort, queued: &mut QueuedTable) {
    claim(rt, queued, b"ann", 1, 200);
    compare_first(rt, queued, 0, "claimed");
    queued.release(1);
    compare_first(rt, queued, 1, "released");
    claim(rt, queued, b"ann", 1, 300);
    queued.start();
    compare_first(rt, queued, 1, "started");
    close(queued, 1);
    same(rt, queued.table().count(), 0, "closed");
    compare_first(rt, queued, 0, "closed");
}

#[test]
fn each_operator_holds_its_own(rt: HostRuntime) {
    let mut queued = QueuedTable::new(rt.alloc());
    let (one, other) = (burglary(&rt, b"1234"), burglary(&rt, b"5678"));
    queued.reserve(1).expect(&rt, "memory");
    queued.carry(&one);
    queued.reserve(1).expect(&rt, "memory");
    queued.carry(&other);
    hold_both(&rt, &mut queued);
}

fn hold_both(rt: &impl Abort, queued: &mut QueuedTable) {
    compare_held(rt, queued, (0, 0), "none claimed");
    claim(rt, queued, b"ben", 2, 200);
    claim(rt, queued, b"ann", 1, 300);
    compare_held(rt, queued, (1, 2), "both claimed");
    queued.release(2);
    compare_held(rt, queued, (1, 0), "the second released");
    claim(rt, queued, b"ben", 2, 400);
    queued.start();
    compare_held(rt, queued, (0, 0), "started");
    claim(rt, queued, b"ben", 2, 400);
    queued.adopt();
    compare_held(rt, queued, (0, 0), "a setup in force");
    claim(rt, queued, b"ann", 2, 500);
    claim(rt, queued, b"ben", 1, 600);
    compare_held(rt, queued, (2, 1), "claimed the other way");
    close(queued, 2);
    compare_held(rt, queued, (0, 1), "the second closed");
}
