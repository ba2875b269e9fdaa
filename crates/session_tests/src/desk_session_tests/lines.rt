// Lines and what they are answered by.
use super::{SETUP, bytes_of, compare_written, word};
use crate::same::same;
use crate::told::Told;
use arc_io::MemPort;
use desk_session::{DeskEnd, DeskState, serve_desk};
use std::alloc::Global;
use std::process::Abort;
use test_fixtures::ports::port_of;

// What is typed, what is printed, how it ends, and how often the hall is asked. A bar is a line feed.
const ROWS: &str = "\
;;ended;0
list|hello|login ann 9999|login ann 1234|list|quit|;denied|what|denied|ok ann|list 7|bye|;quit;1
quit;bye|;quit;0
quit|list|;bye|;quit;0
quit|quit|quit;bye|;quit;0
login ann 1234|quit|login bob 5678|list|;ok ann|bye|;quit;0
login ann 1234|login bob 5678|next|;ok ann|ok bob|held by bob|;ended;1
login ann 1234|login bob 9999|next;ok ann|denied|held by ann|;ended;1
login ann 1234|login eve 1234|next;ok ann|denied|held by ann|;ended;1
login ann 1234|login ann 5678|next;ok ann|denied|held by ann|;ended;1
login ann 1234|login bob 567|next;ok ann|what|held by ann|;ended;1
login ann 1234|claim 3|act 1 note done|act 2 police done|;ok ann|claimed 3 fire ?|recorded 1 left 0|missing police|;ended;3
login bob 5678|release 5|close 6 real|show 7|list;ok bob|released 5|closed 6|not open 7|list 7|;ended;4
next|claim 1|act 1 note done|release 1|close 1 test|show 1|list|;denied|denied|denied|denied|denied|denied|denied|;ended;0
act 1 note reached|claim 0|list 1|;what|what|what|;ended;0
login ann 1234|claim 0|claim 01|claim 18446744073709551616|;ok ann|what|what|what|;ended;0
login ann 1234|claim 18446744073709551615|;ok ann|claimed 18446744073709551615 fire ?|;ended;1
|next |what;what|what|what|;ended;0
logi;what|;ended;0";

// The four parts of a row.
fn parts(row: &str) -> Option<(&str, &str, &str, &str)> {
    let (typed, rest) = row.split_once(';')?;
    let (printed, rest) = rest.split_once(';')?;
    let (end, calls) = rest.split_once(';')?;
    Some((typed, printed, end, calls))
}

// The row over a hall that was not asked yet.
fn try_row(rt: &impl Abort, alloc: Global, row: &str) {
    let (typed, printed, end, calls) = parts(row).expect(rt, "a row");
    let calls = calls.parse().expect(rt, "a count");
    let (input, output) = (bytes_of(rt, alloc, typed), bytes_of(rt, alloc, printed));
    let mut hall = Told::new(rt, alloc, SETUP, None);
    let mut port = port_of(alloc, &input).expect(rt, "memory");
    let ended = serve_desk(alloc, &mut hall, &mut port);
    same(rt, word(ended), end, row);
    compare_written(rt, &port, &output, row);
    same(rt, hall.calls, calls, row);
    drop(port);
    drop(hall);
}

#[test]
fn lines_are_answered(rt: HostRuntime) {
    for row in ROWS.lines() {
        try_row(&rt, rt.alloc(), row);
    }
}

// Each byte in a piece of its own. What stands behind the last line feed may go on, and is not answered.
#[test]
fn pieces_of_one_byte(rt: HostRuntime) {
    let alloc = rt.alloc();
    let mut hall = Told::new(&rt, alloc, SETUP, None);
    let mut port = port_of(alloc, b"").expect(&rt, "memory");
    feed_desk(&rt, alloc, &mut hall, &mut port);
    drop(port);
    drop(hall);
}

// Feeds a desk over a hall that was not asked yet.
fn feed_desk(rt: &impl Abort, alloc: Global, hall: &mut Told, port: &mut MemPort) {
    let mut desk = DeskState::new();
    let input = b"login ann 1234\r\nlist\r\n\r\nnext\r\nli";
    feed_bytes(rt, alloc, &mut desk, hall, port, input);
    let answers = b"ok ann\nlist 7\nwhat\nheld by ann\n";
    compare_written(rt, port, answers, "all but the last");
    let ended = desk.take(alloc, hall, port, b"st\nquit\nlist\n");
    same(rt, ended, Err(DeskEnd::Quit), "the end");
    let answers = b"ok ann\nlist 7\nwhat\nheld by ann\nlist 7\nbye\n";
    compare_written(rt, port, answers, "all");
    same(rt, hall.calls, 3, "asked");
}

// Feeds a desk these bytes, one after the other, and none ends it.
fn feed_bytes(
    rt: &impl Abort,
    alloc: Global,
    desk: &mut DeskState,
    hall: &mut Told,
    port: &mut MemPort,
    bytes: &[u8],
) {
    for byte in bytes {
        let ended = desk.take(alloc, hall, port, &[*byte]);
        same(rt, ended, Ok(()), "no end");
    }
}
