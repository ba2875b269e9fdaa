// How sessions end.
use super::panel::Panel;
use super::{
    ALARM, ALARM_REPLY, BEAT, BEAT_REPLY, Came, SETUP, joined, line_name, recorded_of, session,
};
use crate::same::same;
use crate::told::Told;
use arc_io::{MemPort, Source};
use centre_core::{RamHall, Stop};
use line_session::{LineEnd, LineState, law_sessions_join, serve_line};
use std::alloc::Global;
use std::process::Abort;
use test_fixtures::halls::ram_hall;
use test_fixtures::ports::{failing_port, port_of};

// Three frames, and the replies to them.
fn input(rt: &impl Abort, alloc: Global) -> Vec<u8> {
    joined(rt, alloc, &[ALARM, BEAT, BEAT])
}

fn output(rt: &impl Abort, alloc: Global) -> Vec<u8> {
    joined(rt, alloc, &[ALARM_REPLY, BEAT_REPLY, BEAT_REPLY])
}

// What was written is the first so many bytes of the replies to the three frames.
fn compare_written(rt: &impl Abort, alloc: Global, written: &[u8], count: usize) {
    let output = output(rt, alloc);
    same(rt, Some(written), output.get(..count), "written");
}

#[test]
fn each_fault_has_its_end(rt: HostRuntime) {
    let alloc = rt.alloc();
    try_faults(&rt, alloc, (&[], &[]), (LineEnd::InputEnded, 5), 84);
    try_faults(&rt, alloc, (&[1], &[]), (LineEnd::ReadFault, 2), 0);
    try_faults(&rt, alloc, (&[2], &[]), (LineEnd::ReadFault, 5), 84);
    // The entry whose reply was cut off stands, and nothing behind it is served.
    try_faults(&rt, alloc, (&[], &[1]), (LineEnd::WriteFault, 3), 0);
    try_faults(&rt, alloc, (&[], &[2]), (LineEnd::WriteFault, 4), 28);
}

// A session whose reads and writes of these numbers fail: how it ends, how many entries are recorded then, and how many bytes of replies
// of 28 bytes each are written.
fn try_faults(
    rt: &impl Abort,
    alloc: Global,
    failing: (&[u64], &[u64]),
    want: Came,
    written: usize,
) {
    let (reads, writes) = failing;
    let input = input(rt, alloc);
    let mut port = failing_port(alloc, &input, reads, writes).expect(rt, "memory");
    let came = session(rt, alloc, SETUP, &mut port);
    same(rt, came, want, "the end");
    compare_written(rt, alloc, port.sink.bytes(), written);
    drop(port);
}

// Of a line that is fed, the second write fails.
#[test]
fn a_failed_write_ends_a_line_that_is_fed(rt: HostRuntime) {
    let alloc = rt.alloc();
    let input = input(&rt, alloc);
    let mut hall = ram_hall(alloc, SETUP).expect(&rt, "a hall");
    let mut port = failing_port(alloc, b"", &[], &[2]).expect(&rt, "memory");
    let end = LineState::new(line_name()).take(alloc, &mut hall, &mut port, &input);
    same(&rt, end, Err(LineEnd::WriteFault), "fed");
    compare_written(&rt, alloc, port.sink.bytes(), 28);
    same(&rt, recorded_of(hall), 4, "entries");
    drop(port);
}

#[test]
fn the_law_is_of_any_hall_and_port() {
    law_sessions_join::<RamHall, MemPort>();
}

#[test]
fn panels_take_one_byte_at_a_time(rt: HostRuntime) {
    let alloc = rt.alloc();
    try_panel(&rt, alloc, 1, (LineEnd::WriteFault, 3));
    try_panel(&rt, alloc, 3, (LineEnd::WriteFault, 3));
    try_panel(&rt, alloc, 28, (LineEnd::WriteFault, 3));
    try_panel(&rt, alloc, 29, (LineEnd::WriteFault, 4));
    try_panel(&rt, alloc, 84, (LineEnd::WriteFault, 5));
    try_panel(&rt, alloc, 85, (LineEnd::InputEnded, 5));
}

// A panel whose write of this number fails, and so takes one byte less: how the session ends, and how many entries are recorded then.
fn try_panel(rt: &impl Abort, alloc: Global, fails_at: u64, want: Came) {
    let mut panel = Panel::new(input(rt, alloc), 4_096, Vec::new(alloc));
    panel.fails_at = fails_at;
    let came = session(rt, alloc, SETUP, &mut panel);
    same(rt, (fails_at, came), (fails_at, want), "the end");
    let count = fails_at.saturating_sub(1) as usize;
    compare_written(rt, alloc, &panel.written, count);
    drop(panel);
}

// A setup with operators, an alarm of its account, and the acknowledgement.
const STATION: &[u8] = b"account 1234\noperator ann 1234\noperator bob 5678\n";

const BURGLARY: &[u8] = b"\n2EE70027\"ADM-CID\"0001L0#1234[#1234|1131 01 001]\r";

const ACKNOWLEDGEMENT: &[u8] = b"\n1BC10012\"ACK\"0001L0#1234[]\r";

// A panel that takes one byte of a reply in each call. The reply to a repeat is cut off behind its first byte: the alarm stands once.
#[test]
fn a_repeat_whose_reply_is_cut_off(rt: HostRuntime) {
    let alloc = rt.alloc();
    let input = joined(&rt, alloc, &[BURGLARY, BURGLARY]);
    let output = joined(&rt, alloc, &[ACKNOWLEDGEMENT, b"\n"]);
    let mut panel = Panel::new(input, 4_096, Vec::new(alloc));
    panel.fails_at = 30;
    let came = session(&rt, alloc, STATION, &mut panel);
    same(&rt, came, (LineEnd::WriteFault, 3), "the end");
    same(&rt, panel.written.as_slice(), output.as_slice(), "written");
    drop(panel);
}

// The first twenty bytes of the alarm.
const PART: &[u8] = b"\n2EE70027\"ADM-CID\"00";

#[test]
fn a_frame_that_breaks_off(rt: HostRuntime) {
    let alloc = rt.alloc();
    let mut port = failing_port(alloc, PART, &[2], &[]).expect(&rt, "memory");
    let came = session(&rt, alloc, STATION, &mut port);
    same(&rt, came, (LineEnd::ReadFault, 2), "the end");
    same(&rt, port.sink.bytes(), b"", "nothing is written");
    drop(port);
}

#[test]
fn a_panel_sends_its_next_alarm_when_it_has_the_whole_reply(rt: HostRuntime) {
    let alloc = rt.alloc();
    let input = joined(&rt, alloc, &[ALARM, ALARM, ALARM]);
    let output = joined(&rt, alloc, &[ALARM_REPLY, ALARM_REPLY, ALARM_REPLY]);
    let mut panel = Panel::new(input, ALARM.len(), Vec::new(alloc));
    panel.awaited = ALARM_REPLY.len();
    let came = session(&rt, alloc, SETUP, &mut panel);
    same(&rt, panel.read_faults(), 0, "early reads");
    same(&rt, panel.written.as_slice(), output.as_slice(), "written");
    same(&rt, came, (LineEnd::InputEnded, 3), "the end");
    drop(panel);
}

#[test]
fn a_stop_is_not_answered(rt: HostRuntime) {
    let alloc = rt.alloc();
    let worn = Stop::Worn {
        count: 281_474_976_710_656,
    };
    try_stop(&rt, alloc, Stop::Memory);
    try_stop(&rt, alloc, worn);
}

// Serves a line and feeds another, over a hall that stops so, and was not asked yet.
fn try_stop(rt: &impl Abort, alloc: Global, stop: Stop) {
    let input = joined(rt, alloc, &[ALARM, BEAT]);
    let mut hall = Told::new(rt, alloc, SETUP, Some(stop));
    let mut port = port_of(alloc, &input).expect(rt, "memory");
    let end = serve_line(alloc, &mut hall, &mut port, &line_name());
    same(rt, (end, hall.calls), (LineEnd::Stopped(stop), 1), "served");
    let end = LineState::new(line_name()).take(alloc, &mut hall, &mut port, &input);
    same(
        rt,
        (end, hall.calls),
        (Err(LineEnd::Stopped(stop)), 2),
        "fed",
    );
    same(rt, port.sink.bytes(), b"", "nothing is written");
    drop(port);
    drop(hall);
}
