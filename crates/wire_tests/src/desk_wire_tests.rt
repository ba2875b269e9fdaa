// Lines of a desk as they are read and printed, from the desk's grammar and its table of replies.
use crate::rows::{Tells, compare, holds, same, same_bytes};
use arc_data::{Class, Listing, Outcome, Reply, Row, Step, Txt, View};
use arc_io::{Failed, MemSink};
use desk_wire::{Command, print, print_welcome};
use std::alloc::Global;
use std::process::Abort;
use std::test::Fail;

// What a line is read as.
const LINES: &str = "\
login;login ann 1234
login;login a.B_c-9 00000000
login;login abcdefghijklmnop 1234
-;login abcdefghijklmnopq 1234
-;login ann 123
-;login ann 123456789
-;login ann 12e4
-;login a+n 1234
-;login ann
-;login  1234
-;login ann 1234 5678
-;login
-;Login ann 1234
quit;quit
-;quit 
-; quit
-;quit now
-;QUIT
next;next
-;next 1
claim;claim 1
claim;claim 18446744073709551615
-;claim 18446744073709551616
-;claim 0
-;claim 01
-;claim +1
-;claim -1
-;claim 1x
-;claim
-;claim 
-;claim  1
-;claim 1 
-;claim 1 2
act;act 1 premises reached
act;act 1 premises noanswer
-;act 1 premises done
act;act 1 holder1 reached
act;act 1 holder2 noanswer
act;act 1 holder3 reached
act;act 1 holder4 noanswer
-;act 1 holder0 reached
-;act 1 holder5 reached
-;act 1 holder01 reached
-;act 1 holder reached
-;act 1 holder1 done
act;act 1 police done
-;act 1 police reached
act;act 1 fire done
act;act 1 ambulance done
act;act 1 guard done
act;act 1 note done
-;act 1 note noanswer
-;act 1 notes done
-;act 1 note
-;act 0 note done
-;act 1 note done now
release;release 7
-;release
close;close 7 real
close;close 7 false
close;close 7 test
-;close 7 true
-;close 7
-;close real 7
show;show 7
-;show 07
list;list
-;list 1
-;
-; 
-;what
-;logout";

// A command in a word.
fn word(command: Option<Command>) -> &'static [u8] {
    match command {
        None => b"-",
        Some(Command::Login { .. }) => b"login",
        Some(Command::Quit) => b"quit",
        Some(Command::Next) => b"next",
        Some(Command::Claim { .. }) => b"claim",
        Some(Command::Act { .. }) => b"act",
        Some(Command::Release { .. }) => b"release",
        Some(Command::Close { .. }) => b"close",
        Some(Command::Show { .. }) => b"show",
        Some(Command::List) => b"list",
    }
}

// Tells which command a line is.
#[derive(Drop)]
struct Lines {}

impl Tells for Lines {
    fn tell(&mut self, _alloc: Global, input: &str, told: &mut Vec<u8>) -> Result<(), Fail> {
        Ok(told.extend_from_slice(word(Command::read(input.as_bytes())))?)
    }
}

// What stands in commands is tied to their spelling by laws; of two it is read here.
#[test]
fn reads_lines(rt: HostRuntime) -> Result<(), Fail> {
    let login = Command::Login {
        name: text(b"bob"),
        pin: text(b"98765432"),
    };
    reads(&rt, b"login bob 98765432", login, "a login");
    let act = Command::Act {
        number: u64::MAX,
        step: Step::Holder(3),
        outcome: Outcome::NoAnswer,
    };
    reads(
        &rt,
        b"act 18446744073709551615 holder3 noanswer",
        act,
        "an act",
    );
    compare(&rt, rt.alloc(), LINES, &mut Lines {})
}

fn reads(rt: &impl Abort, line: &[u8], command: Command, what: &str) {
    holds(rt, Command::read(line) == Some(command), what);
}

fn text(bytes: &[u8]) -> Txt {
    Txt::of(bytes).unwrap_or(Txt::question())
}

// A reply is printed as this line.
fn prints(rt: &impl Abort, alloc: Global, reply: &Reply, want: &str) {
    let mut out = MemSink::new(alloc, Vec::new(alloc));
    same(rt, &print(reply, &mut out), &Ok(()), want);
    same_bytes(rt, out.bytes(), want.as_bytes(), want);
    drop(out);
}

#[test]
fn prints_words(rt: HostRuntime) {
    let alloc = rt.alloc();
    prints(&rt, alloc, &Reply::Adopted, "adopted\n");
    prints(&rt, alloc, &Reply::Started, "started\n");
    prints(&rt, alloc, &Reply::Taken, "taken\n");
    prints(&rt, alloc, &Reply::Repeat { first: 5 }, "repeat\n");
    prints(&rt, alloc, &Reply::Heard, "heard\n");
    prints(&rt, alloc, &Reply::NoneWaiting, "none waiting\n");
    prints(&rt, alloc, &Reply::Unknown, "unknown\n");
}

#[test]
fn prints_numbers(rt: HostRuntime) {
    let alloc = rt.alloc();
    let (number, left) = (1, 3);
    prints(&rt, alloc, &Reply::Raised { count: 0 }, "raised 0\n");
    prints(&rt, alloc, &Reply::Released { number }, "released 1\n");
    prints(&rt, alloc, &Reply::Closed { number }, "closed 1\n");
    prints(&rt, alloc, &Reply::BusyWith { number }, "busy with 1\n");
    prints(&rt, alloc, &Reply::NotYours { number }, "not yours 1\n");
    let most = Reply::NotOpen { number: u64::MAX };
    prints(&rt, alloc, &most, "not open 18446744073709551615\n");
    let recorded = Reply::Recorded { number, left };
    prints(&rt, alloc, &recorded, "recorded 1 left 3\n");
}

#[test]
fn prints_names(rt: HostRuntime) {
    let alloc = rt.alloc();
    let (number, class, account) = (1, Class::Burglary, text(b"1234"));
    let claimed = Reply::Claimed {
        number,
        class,
        account,
    };
    prints(&rt, alloc, &claimed, "claimed 1 burglary 1234\n");
    let operator = text(b"ann");
    prints(&rt, alloc, &Reply::HeldBy { operator }, "held by ann\n");
    expects(&rt, alloc, None, "expected none\n");
    expects(&rt, alloc, Some(Step::Holder(2)), "expected holder2\n");
    misses(&rt, alloc, Step::Premises, "missing premises\n");
    misses(&rt, alloc, Step::Police, "missing police\n");
    misses(&rt, alloc, Step::Fire, "missing fire\n");
    misses(&rt, alloc, Step::Ambulance, "missing ambulance\n");
    misses(&rt, alloc, Step::Guard, "missing guard\n");
    misses(&rt, alloc, Step::Note, "missing note\n");
    let mut out = MemSink::new(alloc, Vec::new(alloc));
    same(
        &rt,
        &print_welcome(&operator, &mut out),
        &Ok(()),
        "a welcome",
    );
    same_bytes(&rt, out.bytes(), b"ok ann\n", "a welcome");
    drop(out);
}

fn expects(rt: &impl Abort, alloc: Global, step: Option<Step>, want: &str) {
    prints(rt, alloc, &Reply::Expected { step }, want);
}

fn misses(rt: &impl Abort, alloc: Global, step: Step, want: &str) {
    prints(rt, alloc, &Reply::Missing { step }, want);
}

// An incident as it is shown.
fn view(restored: bool, holder: Option<Txt>, expected: Option<Step>, via: &[u8]) -> View {
    View {
        number: 1,
        class: Class::Burglary,
        account: text(b"1234"),
        code: text(b"131"),
        at: 1_000_000_000,
        signals: 1,
        restored,
        holder,
        expected,
        via: text(via),
    }
}

#[test]
fn prints_incidents(rt: HostRuntime) {
    let alloc = rt.alloc();
    let waiting = Reply::Shown(view(false, None, Some(Step::Note), b"l1"));
    let want =
        "incident 1 burglary 1234 code 131 opened 1000000000 signals 1 restored no holder none next note via l1\n";
    prints(&rt, alloc, &waiting, want);
    let done = Reply::Shown(view(true, Some(text(b"bob")), None, b""));
    let want =
        "incident 1 burglary 1234 code 131 opened 1000000000 signals 1 restored yes holder bob next none via -\n";
    prints(&rt, alloc, &done, want);
}

// An incident of a list.
fn row(number: u64, class: Class, account: &[u8], holder: Option<Txt>) -> Row {
    Row {
        number,
        class,
        account: text(account),
        holder,
    }
}

#[test]
fn prints_lists(rt: HostRuntime) {
    let alloc = rt.alloc();
    prints(&rt, alloc, &listed(0, Vec::new(alloc)), "list 0\n");
    let mut rows = Vec::new(alloc);
    rows.push(row(1, Class::Fire, b"12345A", None))
        .expect(&rt, "memory");
    rows.push(row(2, Class::Unlisted, b"12345A", Some(text(b"ann"))))
        .expect(&rt, "memory");
    let want = "list 2 1/fire/12345A/- 2/unlisted/12345A/ann\n";
    prints(&rt, alloc, &listed(2, rows), want);
}

// The reply with these rows, at most 16.
fn listed(total: u64, rows: Vec<Row>) -> Reply {
    if rows.len() > 16 {
        return Reply::Unknown;
    }
    Reply::Listed(Listing::of(total, rows))
}

// The longest line: 16 incidents whose numbers and names are as long as they can be.
#[test]
fn prints_the_longest_list(rt: HostRuntime) {
    let name = b"abcdefghijklmnopqrstuvwxyzabcdef";
    let mut rows = Vec::new(rt.alloc());
    for _ in 0..16u8 {
        rows.push(row(u64::MAX, Class::Environment, name, Some(text(name))))
            .expect(&rt, "memory");
    }
    let mut out = MemSink::new(rt.alloc(), Vec::new(rt.alloc()));
    let end = print(&listed(u64::MAX, rows), &mut out);
    same(&rt, &end, &Ok(()), "the longest list");
    same(
        &rt,
        &out.bytes().len(),
        &(5 + 20 + 16 * 99 + 1),
        "its length",
    );
    drop(out);
}

#[test]
fn tells_a_failed_write(rt: HostRuntime) -> Result<(), Fail> {
    let mut out = MemSink::new(rt.alloc(), vec![in rt.alloc(); 1]?);
    same(
        &rt,
        &print(&Reply::Heard, &mut out),
        &Err(Failed),
        "a failed write",
    );
    same(
        &rt,
        &print(&Reply::Heard, &mut out),
        &Ok(()),
        "the write behind it",
    );
    same_bytes(&rt, out.bytes(), b"heard\n", "the write behind it");
    drop(out);
    Ok(())
}
