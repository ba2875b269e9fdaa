// What no clause says: that calls succeed, and answers worked out by hand.
ghost use Rattle.std.specs.Prelude.{◌≡◌, ◌≤◌, ◌<◌, ◌+◌};

use crate::made::{carried, message, signal, text};
use crate::same::same;
use arc_data::{Carried, Class, Kind, Message, Opened, Txt};
use known_accounts::AccountRows;
use std::alloc::Global;
use std::process::Abort;

fn sign(rt: &impl Abort, class: Class, kind: Kind, at: u64, by_tick: bool) -> Carried {
    carried(text(rt, b"1234"), signal(rt, class, kind), at, by_tick)
}

// When the account was heard, and whether it failed.
fn compare_heard(
    rt: &impl Abort,
    rows: &AccountRows,
    heard: Option<u64>,
    failed: bool,
    what: &str,
) {
    let known = rows.known(&text(rt, b"1234"));
    same(rt, known.heard, heard, what);
    same(rt, known.failed, failed, what);
}

fn compare_opening(rt: &impl Abort, rows: &AccountRows, opening: Option<Opened>, what: &str) {
    let known = rows.known(&text(rt, b"1234"));
    same(rt, known.opening, opening, what);
}

// The account has a signal.
fn carry(rows: &mut AccountRows, x: &Carried)
    requires { 1 ≤ rows.old.room }
{
    let place = rows.place(&x.account);
    rows.carry(place, x);
}

fn hear(rows: &mut AccountRows, account: &Txt, at: u64)
    requires { 1 ≤ rows.old.room }
{
    let place = rows.place(account);
    rows.hear(place, at);
}

fn send(rows: &mut AccountRows, message: Message, at: u64)
    requires { 1 ≤ rows.old.room }
{
    let place = rows.place(&message.account);
    rows.send(place, message, at);
}

fn reserve(rt: &impl Abort, alloc: Global, rows: &mut AccountRows)
    ensures { 1 ≤ rows.new.room }
{
    rows.reserve(alloc, 1).expect(rt, "memory");
}

#[test]
fn heard_and_failed(rt: HostRuntime) {
    let mut rows = AccountRows::new(rt.alloc());
    let account = text(&rt, b"1234");
    let failure = sign(&rt, Class::CommFail, Kind::New, 100, true);
    let own = sign(&rt, Class::CommFail, Kind::New, 130, false);
    same(&rt, rows.last_start(), None, "no start");
    compare_heard(&rt, &rows, None, false, "no start");
    rows.start(10);
    same(&rt, rows.last_start(), Some(10), "a start");
    compare_heard(&rt, &rows, Some(10), false, "a start");
    reserve(&rt, rt.alloc(), &mut rows);
    same(&rt, rows.get(&account).is_some(), false, "no row yet");
    carry(&mut rows, &failure);
    same(&rt, rows.get(&account).is_some(), true, "a row");
    compare_heard(&rt, &rows, Some(10), true, "a failure");
    reserve(&rt, rt.alloc(), &mut rows);
    hear(&mut rows, &account, 120);
    compare_heard(&rt, &rows, Some(120), false, "heard again");
    // A panel's own signal of that class does not count.
    reserve(&rt, rt.alloc(), &mut rows);
    carry(&mut rows, &own);
    compare_heard(&rt, &rows, Some(120), false, "its own signal");
    rows.start(200);
    compare_heard(&rt, &rows, Some(200), false, "another start");
}

#[test]
fn open_and_closed(rt: HostRuntime) {
    let mut rows = AccountRows::new(rt.alloc());
    let opening = sign(&rt, Class::OpenClose, Kind::Opening, 100, false);
    let late = sign(&rt, Class::LateClose, Kind::New, 1100, true);
    let closing = sign(&rt, Class::OpenClose, Kind::Closing, 1200, false);
    reserve(&rt, rt.alloc(), &mut rows);
    carry(&mut rows, &opening);
    let (at, in_time, too_late) = (100, false, true);
    compare_opening(&rt, &rows, Some(Opened { at, late: in_time }), "open");
    reserve(&rt, rt.alloc(), &mut rows);
    carry(&mut rows, &late);
    compare_opening(&rt, &rows, Some(Opened { at, late: too_late }), "late");
    reserve(&rt, rt.alloc(), &mut rows);
    carry(&mut rows, &closing);
    compare_opening(&rt, &rows, None, "closed");
}

#[test]
fn repeats(rt: HostRuntime) {
    let mut rows = AccountRows::new(rt.alloc());
    let account = text(&rt, b"1234");
    let sent = message(&rt, rt.alloc(), account, 1);
    let again = message(&rt, rt.alloc(), account, 1);
    reserve(&rt, rt.alloc(), &mut rows);
    same(&rt, rows.repeat(&sent, 100), None, "the first");
    send(&mut rows, again, 100);
    same(&rt, rows.repeat(&sent, 400), Some(100), "in time");
    same(&rt, rows.repeat(&sent, 401), None, "too late");
    compare_heard(&rt, &rows, Some(100), false, "heard");
}

#[test]
fn a_row_is_looked_up_once(rt: HostRuntime) {
    let mut rows = AccountRows::new(rt.alloc());
    let account = text(&rt, b"1234");
    let sent = message(&rt, rt.alloc(), account, 1);
    let again = message(&rt, rt.alloc(), account, 1);
    reserve(&rt, rt.alloc(), &mut rows);
    let none = rows.row_of(&account);
    same(&rt, none, None, "no row");
    same(&rt, rows.repeat_at(none, &sent, 100), None, "the first");
    let place = rows.place_from(none, &account);
    same(&rt, place as u64, 0, "a row is made");
    rows.send(place, again, 100);
    reserve(&rt, rt.alloc(), &mut rows);
    let found = rows.row_of(&account);
    same(&rt, found, Some(0), "its row");
    same(&rt, rows.repeat_at(found, &sent, 400), Some(100), "in time");
    same(&rt, rows.repeat_at(found, &sent, 401), None, "too late");
    same(
        &rt,
        rows.place_from(found, &account) as u64,
        0,
        "the same row",
    );
}
