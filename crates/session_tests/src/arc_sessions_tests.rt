// What no clause says: that a session of each kind succeeds, byte for byte.
use crate::same::same;
use arc_serving::{SessionEnd, Side, serve};
use std::alloc::Global;
use std::process::Abort;
use test_fixtures::halls::ram_hall;
use test_fixtures::messages::via;
use test_fixtures::ports::port_of;

// What a session of this kind with this input answers, over a hall of a run that has begun, and how it ends.
fn check_session(
    rt: &impl Abort,
    alloc: Global,
    side: Side,
    input: &[u8],
    answer: &[u8],
    wanted: SessionEnd,
) {
    let setup = b"account 2468\noperator ann 1234\n";
    let mut hall = ram_hall(alloc, setup).expect(rt, "a hall");
    let mut port = port_of(alloc, input).expect(rt, "memory");
    let end = serve(side, &via(), alloc, &mut hall, &mut port);
    same(rt, end, wanted, "the end");
    same(rt, port.sink.bytes(), answer, "the answers");
    drop(port);
    drop(hall);
}

#[test]
fn a_line_acknowledges_a_message(rt: HostRuntime) {
    let alarm = b"\n24AA0027\"ADM-CID\"0001L0#2468[#2468|1131 01 001]\r";
    let reply = b"\nE7890012\"ACK\"0001L0#2468[]\r";
    let end = SessionEnd::InputEnded;
    check_session(&rt, rt.alloc(), Side::Lines, alarm, reply, end);
}

#[test]
fn a_desk_is_left_by_quit(rt: HostRuntime) {
    let input = b"login ann 1234\nquit\nlist\n";
    let answers = b"ok ann\nbye\n";
    let end = SessionEnd::Quit;
    check_session(&rt, rt.alloc(), Side::Desks, input, answers, end);
}
