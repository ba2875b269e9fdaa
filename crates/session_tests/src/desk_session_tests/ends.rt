// How sessions end.
use super::{SETUP, compare_written, word};
use crate::line_session_tests::panel::Panel;
use crate::same::same;
use crate::told::Told;
use arc_io::MemPort;
use centre_core::Stop;
use desk_session::{DeskEnd, DeskState, law_sessions_join, serve_desk};
use std::alloc::Global;
use std::process::Abort;
use test_fixtures::ports::{failing_port, port_of};

const INPUT: &[u8] = b"login ann 1234\nlist\nnext\nclaim 1";

// Serves a desk over a port whose reads and writes fail at these calls: what was written, how it ended, and how often the hall was
// asked.
fn try_faults(
    rt: &impl Abort,
    alloc: Global,
    reads: &[u64],
    writes: &[u64],
    want: (&str, &str, u64),
) {
    let (written, end, calls) = want;
    let mut hall = Told::new(rt, alloc, SETUP, None);
    let mut port = failing_port(alloc, INPUT, reads, writes).expect(rt, "memory");
    let ended = serve_desk(alloc, &mut hall, &mut port);
    same(rt, word(ended), end, written);
    compare_written(rt, &port, written.as_bytes(), end);
    same(rt, hall.calls, calls, end);
    drop(port);
    drop(hall);
}

#[test]
fn failed_reads_and_writes_end_a_session(rt: HostRuntime) {
    let alloc = rt.alloc();
    let all = "ok ann\nlist 7\nheld by ann\nclaimed 1 fire ?\n";
    try_faults(&rt, alloc, &[], &[], (all, "ended", 3));
    try_faults(&rt, alloc, &[1], &[], ("", "read", 0));
    // What a failed read cuts short is not carried out.
    let whole = "ok ann\nlist 7\nheld by ann\n";
    try_faults(&rt, alloc, &[2], &[], (whole, "read", 2));
    try_faults(&rt, alloc, &[], &[1], ("", "write", 0));
    try_faults(&rt, alloc, &[], &[3], ("ok ann\nlist 7\n", "write", 2));
}

// Of a desk that is fed, the second write fails: what was answered by it was carried out.
#[test]
fn a_failed_write_ends_a_desk_that_is_fed(rt: HostRuntime) {
    let alloc = rt.alloc();
    let mut hall = Told::new(&rt, alloc, SETUP, None);
    let mut port = failing_port(alloc, b"", &[], &[2]).expect(&rt, "memory");
    let ended = DeskState::new().take(alloc, &mut hall, &mut port, INPUT);
    same(&rt, ended, Err(DeskEnd::WriteFault), "fed");
    compare_written(&rt, &port, b"ok ann\n", "fed");
    same(&rt, hall.calls, 1, "fed");
    drop(port);
    drop(hall);
}

// What is typed comes in pieces of three bytes, and one byte of an answer is taken in each call, of which the thirtieth fails: what it would
// have answered was carried out.
#[test]
fn answers_are_taken_one_byte_at_a_time(rt: HostRuntime) {
    let alloc = rt.alloc();
    try_slow(&rt, alloc, 0, "ended", 3);
    try_slow(&rt, alloc, 30, "write", 3);
}

// How a session ends whose write of this number fails, behind the bytes of the writes before it, and how often the hall was asked.
fn try_slow(rt: &impl Abort, alloc: Global, fails_at: u64, end: &str, calls: u64) {
    let all = b"ok ann\nlist 7\nheld by ann\nclaimed 1 fire ?\n";
    let mut hall = Told::new(rt, alloc, SETUP, None);
    let input = INPUT.to_vec(alloc).expect(rt, "memory");
    let mut panel = Panel::new(input, 3, Vec::new(alloc));
    panel.fails_at = fails_at;
    let ended = serve_desk(alloc, &mut hall, &mut panel);
    same(rt, word(ended), end, "the end");
    let count = if fails_at == 0 {
        all.len()
    } else {
        fails_at.saturating_sub(1) as usize
    };
    same(
        rt,
        Some(panel.written.as_slice()),
        all.get(..count),
        "written",
    );
    same(rt, hall.calls, calls, "asked");
    drop(panel);
    drop(hall);
}

#[test]
fn the_law_is_of_any_hall_and_port() {
    law_sessions_join::<Told, MemPort>();
}

// What a desk is asked whose hall stops.
const STOPPED: &[u8] = b"list\nlogin ann 1234\nlist\nlist\nquit\n";

// Serves a desk and feeds another, over a hall that stops so.
fn try_stop(rt: &impl Abort, alloc: Global, stop: Stop) {
    let mut hall = Told::new(rt, alloc, SETUP, Some(stop));
    let mut port = port_of(alloc, STOPPED).expect(rt, "memory");
    let ended = serve_desk(alloc, &mut hall, &mut port);
    same(rt, ended, DeskEnd::Stopped(stop), "served");
    compare_written(rt, &port, b"denied\nok ann\n", "served");
    same(rt, hall.calls, 1, "served");
    drop(port);
    feed_stop(rt, alloc, &mut hall, stop);
    drop(hall);
}

// Feeds a desk over such a hall, which was asked once before.
fn feed_stop(rt: &impl Abort, alloc: Global, hall: &mut Told, stop: Stop) {
    let mut port = port_of(alloc, b"").expect(rt, "memory");
    let ended = DeskState::new().take(alloc, hall, &mut port, STOPPED);
    same(rt, ended, Err(DeskEnd::Stopped(stop)), "fed");
    compare_written(rt, &port, b"denied\nok ann\n", "fed");
    same(rt, hall.calls, 2, "fed");
    drop(port);
}

#[test]
fn a_stop_is_not_answered(rt: HostRuntime) {
    let worn = Stop::Worn {
        count: 281_474_976_710_656,
    };
    try_stop(&rt, rt.alloc(), Stop::Memory);
    try_stop(&rt, rt.alloc(), worn);
}
