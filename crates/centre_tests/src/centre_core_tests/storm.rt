// Storms of alarms over a centre in memory, whose messages cost no more the more there were before; and what is known of an account
// that a setup lacks for a while.
ghost use Rattle.std.specs.Prelude.{◌≡◌, ◌<◌, ◌≤◌, true, length};
ghost use Rattle.arc_data.specs.Digits.{is_run, is_capital_hex};
ghost use Rattle.centre_rules.specs.History.{IsMoment};

use super::{answer_of, tell};
use crate::account_numbers::{account_of, numbered};
use crate::same::same;
use arc_data::{Blob, Token, Txt};
use centre_core::{Centre, Event, Hall, RamHall, Reply, Setup};
use std::alloc::Global;
use std::process::Abort;
use test_fixtures::messages::{account, burglary, message};
use test_fixtures::moments::BEGIN;

// Submits a burglary of the account, which must be taken.
fn alarm(rt: &impl Abort, alloc: Global, hall: &mut RamHall, account: Txt, seq: u16, at: u64)
    requires account { is_run is_capital_hex 3 16 account ≡ true }
    requires seq { seq ≤ 9999 }
    requires at { IsMoment at }
{
    let event = burglary(alloc, account, seq).expect(rt, "memory");
    let done = hall.submit(alloc, event, at).expect(rt, "an answer");
    assert!(rt; matches!(done.reply, Reply::Taken), "{at}");
}

// How many signals the incident of a number has.
fn compare_signals(rt: &impl Abort, alloc: Global, hall: &mut RamHall, number: u64, want: u64) {
    let event = Event::Show { number };
    let done = hall.submit(alloc, event, BEGIN).expect(rt, "an answer");
    match &done.reply {
        Reply::Shown(view) => same(rt, view.signals, want, "signals"),
        _ => panic!(rt; "not shown"),
    }
}

fn hall_of(rt: &impl Abort, alloc: Global, text: &[u8]) -> RamHall {
    let setup = Setup::read(alloc, text).expect(rt, "a setup");
    RamHall::new(alloc, setup, BEGIN).expect(rt, "memory")
}

#[test]
fn a_million_messages_of_one_account(rt: HostRuntime) {
    let text = b"account 1234\noperator ann 1234\noperator bob 5678\n";
    let mut hall = hall_of(&rt, rt.alloc(), text);
    alarm_by_one(&rt, rt.alloc(), &mut hall);
    compare_signals(&rt, rt.alloc(), &mut hall, 1, 1_000_000);
    drop(hall);
}

fn alarm_by_one(rt: &impl Abort, alloc: Global, hall: &mut RamHall) {
    for before in 0..1_000_000u64 {
        alarm_of_one(rt, alloc, hall, before);
    }
}

// The message of the account 1234 that so many come before.
fn alarm_of_one(rt: &impl Abort, alloc: Global, hall: &mut RamHall, before: u64)
    requires { before < 1000000 }
{
    let k = before + 1;
    alarm(rt, alloc, hall, account(), (k % 10_000) as u16, BEGIN + k);
}

fn add_account(rt: &impl Abort, alloc: Global, text: &mut String, number: u64) {
    let line = format!(in alloc; "account {number}\n").expect(rt, "memory");
    text.push_str(&line).expect(rt, "memory");
}

// As many accounts as a setup can have, from 1000 on.
fn most_accounts(rt: &impl Abort, alloc: Global) -> String {
    let mut text = String::new(alloc);
    for number in 1000..3000u64 {
        add_account(rt, alloc, &mut text, number);
    }
    text
}

#[test]
fn messages_of_all_accounts_in_turn(rt: HostRuntime) {
    let text = most_accounts(&rt, rt.alloc());
    let mut hall = hall_of(&rt, rt.alloc(), text.as_bytes());
    alarm_by_all(&rt, rt.alloc(), &mut hall);
    let centre = hall.into_centre();
    same(&rt, centre.table().opened(), 2000, "opened");
    same(&rt, centre.table().count(), 2000, "open");
    drop(centre);
}

// Each account has an incident of 500 signals then.
fn alarm_by_all(rt: &impl Abort, alloc: Global, hall: &mut RamHall) {
    for before in 0..1_000_000u64 {
        alarm_in_turn(rt, alloc, hall, before);
    }
    compare_signals(rt, alloc, hall, 1, 500);
    compare_signals(rt, alloc, hall, 2000, 500);
}

// The message of some account that so many come before.
fn alarm_in_turn(rt: &impl Abort, alloc: Global, hall: &mut RamHall, before: u64)
    requires { before < 1000000 }
{
    let account = numbered(rt, 1000 + before % 2000);
    let seq = (before / 2000) as u16;
    alarm(rt, alloc, hall, account, seq, BEGIN + before);
}

fn adopt(rt: &impl Abort, alloc: Global, centre: &mut Centre, text: &[u8], clock: u64)
    requires { length text.now ≤ 4194304 }
{
    let text = Blob::of(alloc, text).expect(rt, "memory");
    let reply = tell(rt, alloc, centre, Event::Adopt { text }, clock);
    same(rt, answer_of(&reply), "adopted", "a setup");
}

// An opening of the account 1234, always the same message. What it is answered.
fn open(rt: &impl Abort, alloc: Global, centre: &mut Centre, clock: u64) -> Reply {
    let event = message(alloc, account(), 1, Token::AdmCid, b"1401 01 001").expect(rt, "memory");
    tell(rt, alloc, centre, event, clock)
}

// A Tick, which is to be answered so.
fn tick(rt: &impl Abort, alloc: Global, centre: &mut Centre, clock: u64, want: &str) {
    let reply = tell(rt, alloc, centre, Event::Tick, clock);
    same(rt, answer_of(&reply), want, "a tick");
}

// A thousand burglaries of the account 5678, each with a sequence of its own.
fn others(rt: &impl Abort, alloc: Global, centre: &mut Centre, clock: u64) {
    let account = account_of(rt, b"5678");
    for seq in 0..1000u16 {
        other(rt, alloc, centre, account, seq, clock);
    }
}

fn other(rt: &impl Abort, alloc: Global, centre: &mut Centre, account: Txt, seq: u16, clock: u64)
    requires account { is_run is_capital_hex 3 16 account ≡ true }
    requires seq { seq ≤ 9999 }
{
    let event = burglary(alloc, account, seq).expect(rt, "memory");
    let reply = tell(rt, alloc, centre, event, clock);
    same(rt, (seq, answer_of(&reply)), (seq, "taken"), "another");
}

// Both accounts, the first of which closes 800 seconds from the beginning.
const BOTH: &[u8] = b"account 1234\nhours 1234 sun 00:00 02:00\naccount 5678\n";

#[test]
fn an_account_that_is_lacking_for_a_thousand_messages(rt: HostRuntime) {
    let mut centre = Centre::empty(rt.alloc());
    go(&rt, rt.alloc(), &mut centre);
    others(&rt, rt.alloc(), &mut centre, 20);
    come_back(&rt, rt.alloc(), &mut centre);
    drop(centre);
}

// The account 1234 opens, and is lacking then.
fn go(rt: &impl Abort, alloc: Global, centre: &mut Centre) {
    adopt(rt, alloc, centre, BOTH, 0);
    let opened = open(rt, alloc, centre, 10);
    same(rt, answer_of(&opened), "taken", "an opening");
    adopt(rt, alloc, centre, b"account 5678\n", 20);
    let opened = open(rt, alloc, centre, 20);
    same(rt, answer_of(&opened), "unknown", "an opening of nobody");
}

// It is there again: its opening is known, and that it closes late.
fn come_back(rt: &impl Abort, alloc: Global, centre: &mut Centre) {
    adopt(rt, alloc, centre, BOTH, 30);
    match open(rt, alloc, centre, 310) {
        Reply::Repeat { first } => same(rt, first, BEGIN + 10, "the first"),
        _ => panic!(rt; "no repeat"),
    }
    tick(rt, alloc, centre, 1700, "raised 0");
    tick(rt, alloc, centre, 1701, "raised 1");
}
