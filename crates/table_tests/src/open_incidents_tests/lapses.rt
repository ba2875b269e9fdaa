// Holds that lapse where more than 300 seconds have passed since the claim or the last act, worked out by hand. A row is a moment, an
// operator, an order on incident 1 and the answer, with a `;` between.
use crate::made::{carried, signal, text};
use crate::same::same;
use open_incidents::listing::list;
use open_incidents::orders::{claim, close, next, release, show};
use open_incidents::{Class, Kind, QueuedTable, Reply, Txt};
use std::alloc::Global;
use std::process::Abort;

const LAPSE: Option<u64> = Some(300);

// A table of two incidents, of these classes in turn, of which that of this number was claimed by ann at 1000.
fn claimed(
    rt: &impl Abort,
    alloc: Global,
    first: Class,
    second: Class,
    number: u64,
) -> QueuedTable {
    let mut queued = QueuedTable::new(alloc);
    let one = carried(text(rt, b"1234"), signal(rt, first, Kind::New), 100, false);
    let other = carried(text(rt, b"5678"), signal(rt, second, Kind::New), 100, false);
    queued.reserve(1).expect(rt, "memory");
    queued.carry(&one);
    queued.reserve(1).expect(rt, "memory");
    queued.carry(&other);
    queued.claim(text(rt, b"ann"), number, 1000);
    queued
}

// What an operator is answered, in a word and the number that it tells, or 0.
fn word(reply: &Reply) -> (&'static str, u64) {
    match reply {
        Reply::Claimed { number, .. } => ("claimed", *number),
        Reply::HeldBy { .. } => ("held by another", 0),
        Reply::BusyWith { number } => ("busy with", *number),
        Reply::NotYours { number } => ("not yours", *number),
        Reply::Released { number } => ("released", *number),
        Reply::Closed { number } => ("closed", *number),
        _ => ("another answer", 0),
    }
}

fn answer(rt: &impl Abort, queued: &QueuedTable, operator: &Txt, order: &str, at: u64) -> Reply {
    match order {
        "claim" => claim(queued, operator, 1, at, LAPSE),
        "next" => next(queued, operator, at, LAPSE),
        "release" => release(queued.table(), operator, 1, at, LAPSE),
        "close" => close(queued.table(), operator, 1, at, LAPSE),
        _ => panic!(rt; "no such order"),
    }
}

fn compare_row(rt: &impl Abort, queued: &QueuedTable, row: &str) {
    let (at, rest) = row.split_once(';').expect(rt, "a row");
    let (operator, rest) = rest.split_once(';').expect(rt, "a row");
    let (order, want) = rest.split_once(';').expect(rt, "a row");
    let (want, number) = want.split_once(';').expect(rt, "a row");
    let at = at.parse().expect(rt, "a moment");
    let number = number.parse().expect(rt, "a number");
    let operator = text(rt, operator.as_bytes());
    let reply = answer(rt, queued, &operator, order, at);
    same(rt, word(&reply), (want, number), row);
}

fn compare_rows(rt: &impl Abort, queued: &QueuedTable, rows: &str) {
    for row in rows.lines() {
        compare_row(rt, queued, row);
    }
}

// The first, a fire, is more urgent than the second.
const FIRE_CLAIMED: &str = "\
1300;ann;claim;busy with;1
1300;ben;claim;held by another;0
1300;ann;next;busy with;1
1300;ben;next;claimed;2
1300;ann;release;released;1
1300;ann;close;closed;1
1300;ben;release;not yours;1
1300;ben;close;not yours;1
1301;ann;claim;claimed;1
1301;ben;claim;claimed;1
1301;ann;next;claimed;1
1301;ben;next;claimed;1
1301;ann;release;not yours;1
1301;ann;close;not yours;1";

#[test]
fn a_hold_of_the_more_urgent(rt: HostRuntime) {
    let queued = claimed(&rt, rt.alloc(), Class::Fire, Class::Burglary, 1);
    compare_rows(&rt, &queued, FIRE_CLAIMED);
    drop(queued);
}

// The first, a burglary, is less urgent than the second.
const BURGLARY_CLAIMED: &str = "\
1300;ben;next;claimed;2
1301;ann;next;claimed;2
1301;ben;next;claimed;2
1301;ben;claim;claimed;1";

#[test]
fn a_hold_of_the_less_urgent(rt: HostRuntime) {
    let queued = claimed(&rt, rt.alloc(), Class::Burglary, Class::Fire, 1);
    compare_rows(&rt, &queued, BURGLARY_CLAIMED);
    drop(queued);
}

// Ann left the first behind when her hold lapsed and claims the second, of the same class; ben claims the first anew.
const BOTH_CLAIMED: &str = "\
1400;ann;claim;busy with;2
1400;ben;claim;claimed;1
1400;ben;next;claimed;1";

const CLAIMED_ANEW: &str = "\
1700;ann;claim;held by another;0
1700;ben;next;busy with;1
1701;ann;next;claimed;2
1701;ben;next;busy with;1";

#[test]
fn one_left_behind_and_claimed_anew(rt: HostRuntime) {
    let mut queued = claimed(&rt, rt.alloc(), Class::Fire, Class::Fire, 1);
    queued.claim(text(&rt, b"ann"), 2, 1400);
    compare_rows(&rt, &queued, BOTH_CLAIMED);
    queued.claim(text(&rt, b"ben"), 1, 1450);
    compare_rows(&rt, &queued, CLAIMED_ANEW);
    drop(queued);
}

// Who is shown to hold the first.
fn compare_shown(rt: &impl Abort, queued: &QueuedTable, at: u64, want: Option<Txt>) {
    match show(queued.table(), 1, at, LAPSE) {
        Reply::Shown(view) => same(rt, view.holder, want, "shown"),
        _ => panic!(rt; "not shown"),
    }
}

// And in the list.
fn compare_listed(
    rt: &impl Abort,
    alloc: Global,
    queued: &QueuedTable,
    at: u64,
    want: Option<Txt>,
) {
    let reply = list(alloc, queued.table(), at, LAPSE).expect(rt, "memory");
    let Reply::Listed(listing) = reply else {
        panic!(rt; "no list");
    };
    assert!(rt; 0 < listing.count());
    same(rt, listing.row(0).holder, want, "listed");
}

#[test]
fn who_is_shown(rt: HostRuntime) {
    let queued = claimed(&rt, rt.alloc(), Class::Fire, Class::Burglary, 1);
    compare_shown(&rt, &queued, 1300, Some(text(&rt, b"ann")));
    compare_listed(&rt, rt.alloc(), &queued, 1300, Some(text(&rt, b"ann")));
    compare_shown(&rt, &queued, 1301, None);
    compare_listed(&rt, rt.alloc(), &queued, 1301, None);
    drop(queued);
}
