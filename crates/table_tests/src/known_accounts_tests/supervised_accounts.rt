// What no clause says: that memory is found, and answers worked out by hand.
ghost use Rattle.std.specs.Prelude.{◌≡◌, ◌≤◌};
ghost use Rattle.centre_rules.specs.History.{IsMoment};

use crate::made::{carried, message, signal, text};
use crate::places::{compare, place_at};
use crate::same::{holds, same};
use arc_data::{Class, Kind};
use known_accounts::{Carried, Setup, SupervisedAccounts, Txt, WatchedSetup};
use std::alloc::Global;
use std::process::Abort;

// 2001-09-09, 01:46:40 GMT, a Sunday.
const BEGIN: u64 = 1_000_000_000;

// A moment in seconds from the beginning, what happens, and the places of the accounts that are then silent, and of those that
// close late.
const SILENCES: &str = "\
0;-;;
0;hear 1001;;
0;adopt beats;;
60;-;;
61;-;0;
65;start;;
125;-;;
126;-;0;
165;-;0;
166;-;0 2;
170;hear 1001;2;
171;send 1003;;
230;-;;
231;-;0;
231;fail 1001;;
250;-;;
251;send 1001;;
260;start;;
320;-;;
321;-;0;
322;adopt others;;
360;-;;
361;-;0;
362;hear 1004;;
462;-;;
463;-;0;
560;-;0;
561;-;0 1;
562;hear 1003;0 1;
563;adopt beats;0;
662;-;0;
663;-;0 2;
664;fail 1003;0;
665;adopt others;0 1;
666;adopt beats;0;
667;hear 1003;0;
767;-;0;
768;-;0 2;";

// The closing moments are 800 seconds from the beginning, a minute more, and a week more.
const CLOSINGS: &str = "\
0;adopt hours;;
0;start;;
10;open 1001;;
10;open 1003;;
1700;-;;
1701;-;;2
1702;open 1002;;2
1703;adopt later;;
1760;-;;
1761;-;;0
1762;adopt others;0 1;
1763;adopt hours;;2
1764;late 1003;;
1765;open 1003;;
606500;-;;
606501;-;;1 2
606502;start;;1 2
606503;close 1003;;1";

// What a setup of the rows says.
fn text_of(name: &str) -> &'static str {
    match name {
        "beats" => "account 1001 beat 60\naccount 1002\naccount 1003 beat 100\n",
        "others" => "account 1004 beat 100\naccount 1001 beat 300\n",
        "hours" => {
            "\
account 1001
account 1002
account 1003
hours 1002 sun 00:00 02:00
hours 1003 sun 00:00 02:00
"
        }
        _ => "account 1003\naccount 1004\nhours 1003 sun 00:00 02:01\n",
    }
}

fn adopt(rt: &impl Abort, alloc: Global, accounts: &mut SupervisedAccounts, text: &[u8]) {
    let setup = Setup::read(alloc, text).expect(rt, "a setup");
    let watched = WatchedSetup::of(alloc, setup).expect(rt, "memory");
    accounts.adopt(watched);
}

// The signal of a word: a Tick raises a failure or a late closing, and a panel sends an opening or a closing.
fn sign(rt: &impl Abort, word: &str, account: Txt, at: u64) -> Carried
    ensures at { result.at ≡ at }
    ensures account { result.account ≡ account }
{
    let (class, kind, by_tick) = match word {
        "fail" => (Class::CommFail, Kind::New, true),
        "late" => (Class::LateClose, Kind::New, true),
        "open" => (Class::OpenClose, Kind::Opening, false),
        _ => (Class::OpenClose, Kind::Closing, false),
    };
    carried(account, signal(rt, class, kind), at, by_tick)
}

// What a word says of an account happens to it.
fn reserve(rt: &impl Abort, alloc: Global, accounts: &mut SupervisedAccounts)
    ensures { 1 ≤ accounts.new.rows.room }
{
    accounts.reserve(alloc, 1).expect(rt, "memory");
}

fn mark(
    rt: &impl Abort,
    alloc: Global,
    accounts: &mut SupervisedAccounts,
    word: &str,
    account: &str,
    at: u64,
)
    requires { IsMoment at }
{
    let account = text(rt, account.as_bytes());
    reserve(rt, alloc, accounts);
    let place = accounts.place(&account);
    match word {
        "hear" => accounts.hear(place, at),
        "send" => accounts.send(place, message(rt, alloc, account, 1), at),
        _ => accounts.carry(place, &sign(rt, word, account, at)),
    }
}

fn happen(rt: &impl Abort, alloc: Global, accounts: &mut SupervisedAccounts, event: &str, at: u64)
    requires { IsMoment at }
{
    match event.split_once(' ') {
        Some(("adopt", name)) => adopt(rt, alloc, accounts, text_of(name).as_bytes()),
        Some((word, account)) => mark(rt, alloc, accounts, word, account, at),
        None => {
            if event == "start" {
                accounts.start(at);
            }
        }
    }
}

// The places of the accounts that are silent, and of those that close late.
fn compare_told(
    rt: &impl Abort,
    alloc: Global,
    accounts: &SupervisedAccounts,
    at: u64,
    wanted: &str,
    row: &str,
) {
    let (silent, late) = wanted.split_once(';').expect(rt, "a row");
    let places = accounts.silent(alloc, at).expect(rt, "memory");
    compare(rt, &places, silent, row);
    let places = accounts.late(alloc, at).expect(rt, "memory");
    compare(rt, &places, late, row);
}

fn play_row(rt: &impl Abort, alloc: Global, accounts: &mut SupervisedAccounts, row: &str) {
    let (clock, rest) = row.split_once(';').expect(rt, "a row");
    let (event, wanted) = rest.split_once(';').expect(rt, "a row");
    let clock = clock.parse().expect(rt, "seconds");
    let at = BEGIN.saturating_add(clock);
    assert!(rt; at < 253_402_300_800, "{row}");
    happen(rt, alloc, accounts, event, at);
    compare_told(rt, alloc, accounts, at, wanted, row);
}

fn play_rows(rt: &impl Abort, alloc: Global, accounts: &mut SupervisedAccounts, rows: &str) {
    for row in rows.lines() {
        play_row(rt, alloc, accounts, row);
    }
}

#[test]
fn silent_accounts(rt: HostRuntime) {
    let mut accounts = SupervisedAccounts::new(rt.alloc());
    holds(&rt, accounts.setup().is_none(), "no setup yet");
    play_rows(&rt, rt.alloc(), &mut accounts, SILENCES);
    holds(&rt, accounts.setup().is_some(), "a setup");
    let last = accounts.rows().last_start();
    same(&rt, last, Some(BEGIN + 260), "the last start");
}

#[test]
fn late_closings(rt: HostRuntime) {
    let mut accounts = SupervisedAccounts::new(rt.alloc());
    play_rows(&rt, rt.alloc(), &mut accounts, CLOSINGS);
}

fn add_account(rt: &impl Abort, alloc: Global, text: &mut String, number: u64) {
    let line = format!(in alloc; "account {number} beat 60\n").expect(rt, "memory");
    text.push_str(&line).expect(rt, "memory");
}

// As many accounts as a setup can have, from 1000 on, each with an interval of a minute.
fn most_accounts(rt: &impl Abort, alloc: Global) -> String {
    let mut text = String::new(alloc);
    for number in 1000..3000u64 {
        add_account(rt, alloc, &mut text, number);
    }
    text
}

// How many accounts are silent so many seconds from the beginning, and the first and the last of them.
fn compare_ends(
    rt: &impl Abort,
    alloc: Global,
    accounts: &SupervisedAccounts,
    clock: u64,
    wanted: (usize, Option<usize>, Option<usize>),
)
    requires { clock ≤ 1000 }
{
    let places = accounts.silent(alloc, BEGIN + clock).expect(rt, "memory");
    let count = places.count();
    let last = place_at(&places, count.wrapping_sub(1));
    let got = (count, place_at(&places, 0), last);
    same(rt, (clock, got), (clock, wanted), "the first and the last");
}

#[test]
fn two_thousand_accounts(rt: HostRuntime) {
    let mut accounts = SupervisedAccounts::new(rt.alloc());
    let text = most_accounts(&rt, rt.alloc());
    adopt(&rt, rt.alloc(), &mut accounts, text.as_bytes());
    accounts.start(BEGIN);
    play_most(&rt, rt.alloc(), &mut accounts);
}

// All are silent at once, and then all but the first and the last.
fn play_most(rt: &impl Abort, alloc: Global, accounts: &mut SupervisedAccounts) {
    compare_ends(rt, alloc, accounts, 60, (0, None, None));
    compare_ends(rt, alloc, accounts, 61, (2000, Some(0), Some(1999)));
    mark(rt, alloc, accounts, "hear", "1000", BEGIN + 61);
    mark(rt, alloc, accounts, "send", "2999", BEGIN + 61);
    compare_ends(rt, alloc, accounts, 121, (1998, Some(1), Some(1998)));
    compare_ends(rt, alloc, accounts, 122, (2000, Some(0), Some(1999)));
}

#[test]
fn an_account_is_looked_up_once(rt: HostRuntime) {
    let mut accounts = SupervisedAccounts::new(rt.alloc());
    adopt(
        &rt,
        rt.alloc(),
        &mut accounts,
        b"account 1001\naccount 1002\n",
    );
    let stranger = text(&rt, b"1003");
    let none = accounts.find(&stranger);
    same(&rt, none.row, None, "a stranger's row");
    same(&rt, none.setup, None, "a stranger's place in the setup");
    let account = text(&rt, b"1002");
    reserve(&rt, rt.alloc(), &mut accounts);
    let found = accounts.find(&account);
    same(&rt, found.row, None, "no row yet");
    same(&rt, found.setup, Some(1), "the place in the setup");
    let place = accounts.place_from(found, &account);
    same(&rt, place.row as u64, 0, "a row is made");
    same(&rt, place.setup, Some(1), "where it stands");
    same(&rt, accounts.find(&account).row, Some(0), "its row");
}
