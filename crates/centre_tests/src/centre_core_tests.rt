// What no clause says: that calls succeed, and answers of the centre worked out by hand. A row is a moment in seconds from the
// beginning of a run, an event in words, and the answer's name, with a `;` between.
ghost use Rattle.std.specs.Prelude.{◌≡◌, ◌<◌, ◌≤◌, ◌^◌, ℕ, List, true, IfOk};
ghost use Rattle.arc_data.specs.Digits.{is_run, is_capital_hex};
ghost use Rattle.arc_data.specs.WellFormed.{IsWellFormed};
ghost use Rattle.centre_rules.specs.Summary.{Summary};
ghost use Rattle.centre_rules.specs.History.{Entry, IsMoment};
ghost use Rattle.centre_rules.specs.Answers.{if_known};

pub(crate) mod decoding;
mod storm;
pub(crate) mod summaries;
pub(crate) mod words;

use crate::account_numbers::account_of;
use crate::same::{holds, same};
use arc_data::Txt;
use centre_core::{Centre, Done, Event, Hall, RamHall, Ready, Reply, Stop};
use std::alloc::Global;
use std::process::Abort;
use test_fixtures::halls::ram_hall;
use test_fixtures::moments::BEGIN;
use words::{answer_of, event_of};

const SETUP: &[u8] = b"account 1234\noperator ann 1234\n";

// Works out the answer to an event at a clock in seconds from the beginning of the run.
fn ready(rt: &impl Abort, alloc: Global, centre: &mut Centre, event: Event, clock: u64) -> Ready
    requires { IsWellFormed event }
    ensures of { result.of ≡ centre.new }
    ensures few { centre.new.entries < 2 ^ 48 }
{
    assert!(rt; centre.entries() < 1 << 48);
    let clock = BEGIN.saturating_add(clock);
    assert!(rt; clock < 253_402_300_800);
    centre.prepare(alloc, event, clock).expect(rt, "memory")
}

// Tells the centre an event, and gives what it answers.
fn tell(rt: &impl Abort, alloc: Global, centre: &mut Centre, event: Event, clock: u64) -> Reply
    requires { IsWellFormed event }
{
    let ready = ready(rt, alloc, centre, event, clock);
    centre.apply(ready).reply
}

// How many entries a centre has, and how many of them are recorded.
fn compare_entries(rt: &impl Abort, centre: &Centre, want: (u64, u64)) {
    same(rt, (centre.entries(), centre.recorded()), want, "entries");
}

// Tells the centre the event of a row, and compares the answer.
fn play_row(rt: &impl Abort, alloc: Global, centre: &mut Centre, row: &str) {
    let (clock, rest) = row.split_once(';').expect(rt, "a row");
    let (word, want) = rest.split_once(';').expect(rt, "a row");
    let clock = clock.parse().expect(rt, "seconds");
    let event = event_of(rt, alloc, word);
    let reply = tell(rt, alloc, centre, event, clock);
    same(rt, answer_of(&reply), want, row);
}

// Each event once with ample memory. What they do in a station's day is played by scripts over the built program.
const EVENTS: &str = "\
0;message;unknown
0;tick;raised 0
0;adopt beat;adopted
0;start;started
0;message;taken
0;message;repeat
0;list;listed
0;next;claimed
0;note;recorded
0;release;released
0;claim;claimed
0;show;shown
0;close;closed
0;show;not open
60;tick;raised 0
61;tick;raised 1
70;adopt;adopted
200;tick;raised 0
210;adopt beat;adopted
211;tick;raised 0
220;adopt other;adopted
230;beat;unknown
240;adopt beat;adopted
250;beat;heard
310;tick;raised 0
311;tick;raised 1";

#[test]
fn each_event_and_an_interval_that_goes_and_comes_back(rt: HostRuntime) {
    let mut centre = Centre::empty(rt.alloc());
    play_events(&rt, rt.alloc(), &mut centre);
    compare_entries(&rt, &centre, (26, 15));
    same(&rt, centre.table().opened(), 2, "opened");
    drop(centre);
}

fn play_events(rt: &impl Abort, alloc: Global, centre: &mut Centre) {
    for row in EVENTS.lines() {
        play_row(rt, alloc, centre, row);
    }
}

// A hold that lapses 300 seconds after the claim or the last act, and what a setup in force ends.
const LAPSES: &str = "\
0;adopt lapse;adopted
0;start;started
0;message;taken
0;claim;claimed
300;bob;held by another
301;bob;claimed
301;note;not yours
601;claim;held by another
602;claim;claimed
702;note;recorded
1002;bob;held by another
1002;adopt lapse;adopted
1002;note;not yours
1002;bob;claimed";

// Who holds incident 1 at a moment from the beginning of the run.
fn holder(rt: &impl Abort, centre: &Centre, clock: u64) -> Option<Txt> {
    if centre.table().get(1).is_none() {
        panic!(rt; "not open");
    }
    centre.holder_at(1, BEGIN.saturating_add(clock))
}

#[test]
fn a_hold_that_lapses(rt: HostRuntime) {
    let mut centre = Centre::empty(rt.alloc());
    for row in LAPSES.lines() {
        play_row(&rt, rt.alloc(), &mut centre, row);
    }
    see_lapse(&rt, &centre);
    drop(centre);
}

fn see_lapse(rt: &impl Abort, centre: &Centre) {
    same(rt, centre.last(), BEGIN + 1002, "the last moment");
    same(rt, centre.lapse(), Some(300), "the seconds");
    same(
        rt,
        holder(rt, centre, 1302),
        Txt::of(b"bob"),
        "before it lapses",
    );
    same(rt, holder(rt, centre, 1303), None, "behind that");
}

// Works out the answer to a Start, and gives it up. Gives whether there was memory.
fn given_up(alloc: Global, centre: &mut Centre) -> bool
    requires { centre.old.entries < 2 ^ 48 }
    ensures entries { centre.new.entries ≡ centre.old.entries }
    ensures sum { centre.new.sum ≡ centre.old.sum }
    ensures incidents { centre.old.rooms.incidents ≤ centre.new.rooms.incidents }
    ensures accounts { centre.old.rooms.accounts ≤ centre.new.rooms.accounts }
{
    match centre.prepare(alloc, Event::Start, BEGIN) {
        Ok(ready) => {
            ready.discard();
            true
        }
        Err(_) => false,
    }
}

// Makes the entry, after another answer was worked out and given up. Gives besides whether there was memory for that one.
fn applied_later(alloc: Global, centre: &mut Centre, ready: Ready) -> (bool, Done)
    requires of { ready.of ≡ centre.old }
    requires few { centre.old.entries < 2 ^ 48 }
{
    let meanwhile = given_up(alloc, centre);
    (meanwhile, centre.apply(ready))
}

fn see_ready(rt: &impl Abort, ready: &Ready) {
    same(rt, (ready.at(), ready.quiet()), (BEGIN, false), "ready");
    let is_message = matches!(ready.event(), Event::Message { .. });
    holds(rt, is_message, "a message");
}

fn apply_later(rt: &impl Abort, alloc: Global, centre: &mut Centre) {
    let event = event_of(rt, alloc, "message");
    let ready = ready(rt, alloc, centre, event, 0);
    see_ready(rt, &ready);
    let (meanwhile, done) = applied_later(alloc, centre, ready);
    let is_taken = matches!(done.reply, Reply::Taken);
    same(
        rt,
        (meanwhile, done.caller, is_taken),
        (true, 0, true),
        "done",
    );
}

#[test]
fn an_answer_that_is_given_up(rt: HostRuntime) {
    let hall = ram_hall(rt.alloc(), SETUP).expect(&rt, "a hall");
    let mut centre = hall.into_centre();
    apply_later(&rt, rt.alloc(), &mut centre);
    compare_entries(&rt, &centre, (3, 3));
    same(&rt, centre.table().count(), 1, "open");
    drop(centre);
}

#[test]
fn a_centre_that_was_told_nothing(rt: HostRuntime) {
    let mut centre = Centre::empty(rt.alloc());
    holds(&rt, centre.setup().is_none(), "no setup yet");
    let event = event_of(&rt, rt.alloc(), "message");
    let reply = tell(&rt, rt.alloc(), &mut centre, event, 0);
    holds(&rt, matches!(reply, Reply::Unknown), "unknown");
    compare_entries(&rt, &centre, (1, 0));
    drop(centre);
}

// Tells a hall a heartbeat. Gives whether the setup in force has the account, the entry's moment, and what the hall answers.
fn tell_hall<H: Hall>(
    alloc: Global,
    hall: &mut H,
    account: Txt,
    clock: u64,
) -> Result<(bool, u64, Reply), Stop>
    requires ready { (H.seen hall.old).ready }
    requires account { is_run is_capital_hex 3 16 account ≡ true }
    requires clock { IsMoment clock }
    ensures { IfOk result (λ r. (b : Summary) (h : List Entry) → (H.seen hall.old).stands b h → r.2 ≡ if_known r.0 Reply.Heard) }
{
    let done = hall.submit(alloc, Event::Beat { account }, clock)?;
    let known = hall.setup().knows(&account);
    Ok((known, done.at, done.reply))
}

// A heartbeat of an account, which the setup has or not, is heard where it has it. The clock stands before the run's beginning: the entry's
// moment is that of the last entry all the same.
fn compare_beat(rt: &impl Abort, alloc: Global, hall: &mut RamHall, account: Txt, want: bool)
    requires { is_run is_capital_hex 3 16 account ≡ true }
{
    let (known, at, reply) = tell_hall(alloc, hall, account, 10).expect(rt, "an answer");
    same(rt, (known, at), (want, BEGIN), "known, and when");
    let word = if want { "heard" } else { "unknown" };
    same(rt, answer_of(&reply), word, "heard");
}

// Heartbeats of an account that the setup has, and of one that it lacks.
#[test]
fn heartbeats_of_a_hall(rt: HostRuntime) {
    let mut hall = ram_hall(rt.alloc(), SETUP).expect(&rt, "a hall");
    tell_both(&rt, rt.alloc(), &mut hall);
    let centre = hall.into_centre();
    compare_entries(&rt, &centre, (4, 3));
    drop(centre);
}

fn tell_both(rt: &impl Abort, alloc: Global, hall: &mut RamHall) {
    compare_beat(rt, alloc, hall, account_of(rt, b"1234"), true);
    compare_beat(rt, alloc, hall, account_of(rt, b"9999"), false);
}
