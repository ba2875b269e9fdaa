// One stream, fed in pieces of any size.
ghost use Rattle.std.specs.Prelude.{◌<◌};

use super::panel::Panel;
use super::{
    ALARM, ALARM_REPLY, BEAT, BEAT_REPLY, Came, DUH, SETUP, joined, line_name, recorded_of, session,
};
use crate::same::same;
use arc_io::MemPort;
use centre_core::RamHall;
use line_session::{LineEnd, LineState};
use std::alloc::Global;
use std::process::Abort;
use test_fixtures::halls::ram_hall;
use test_fixtures::ports::port_of;

// Whole, damaged, cut-off and too long frames.
fn stream(rt: &impl Abort, alloc: Global) -> Vec<u8> {
    let long = vec![in alloc; b'x'; 4_104].expect(rt, "memory");
    joined(
        rt,
        alloc,
        &[
            b"xyz\n1BC",
            ALARM,
            // Check and length.
            b"\nDF000027\"ADM-CID\"0001L0#7777[#7777|1131 01 001]\r",
            b"\nDEFF0028\"ADM-CID\"0001L0#7777[#7777|1131 01 001]\r",
            b"\nDEFF0027\"ADM-CID\"0001L0#7777",
            BEAT,
            b"\n",
            BEAT,
            b"\r\r",
            b"\n",
            &long,
            b"\r",
            b"\nDB350012\"ABC\"0001L0#7777[]\r",
            b"\n",
            &long,
            ALARM,
            // Without a carriage return.
            b"\n48CF0013\"NULL\"0000L0#7777[]",
        ],
    )
}

// The session over these bytes, handed to a line's state in pieces of a size.
fn taken(rt: &impl Abort, alloc: Global, input: &[u8], size: usize, port: &mut MemPort) -> Came
    requires { 0 < size }
{
    let mut hall = ram_hall(alloc, SETUP).expect(rt, "a hall");
    let end = fed(alloc, &mut hall, port, input, size);
    (end, recorded_of(hall))
}

// How a line ends that is fed these bytes in pieces of a size.
fn fed(alloc: Global, hall: &mut RamHall, port: &mut MemPort, input: &[u8], size: usize) -> LineEnd
    requires { 0 < size }
{
    let mut state = LineState::new(line_name());
    for piece in input.chunks(size) {
        if let Err(early) = state.take(alloc, hall, port, piece) {
            return early;
        }
    }
    LineEnd::InputEnded
}

#[test]
fn pieces_of_any_size_have_the_same_replies(rt: HostRuntime) {
    let alloc = rt.alloc();
    let input = stream(&rt, alloc);
    let replies = [ALARM_REPLY, BEAT_REPLY, BEAT_REPLY, DUH, ALARM_REPLY];
    let output = joined(&rt, alloc, &replies);
    compare_sizes(&rt, alloc, &input, &output);
}

fn compare_sizes(rt: &impl Abort, alloc: Global, input: &[u8], output: &[u8]) {
    for size in [1, 2, 3, 7, 4_095, 4_096, 4_097, 1_000_000] {
        compare_pieces(rt, alloc, input, size, output);
        compare_reads(rt, alloc, input, size, output);
    }
}

fn compare_pieces(rt: &impl Abort, alloc: Global, input: &[u8], size: usize, output: &[u8])
    requires { 0 < size }
{
    let mut port = port_of(alloc, b"").expect(rt, "memory");
    let came = taken(rt, alloc, input, size, &mut port);
    same(rt, port.sink.bytes(), output, "in pieces");
    same(
        rt,
        (size, came),
        (size, (LineEnd::InputEnded, 5)),
        "in pieces",
    );
    drop(port);
}

// The session with a panel that sends so many bytes at a time.
fn compare_reads(rt: &impl Abort, alloc: Global, input: &[u8], size: usize, output: &[u8]) {
    let sent = input.to_vec(alloc).expect(rt, "memory");
    let mut panel = Panel::new(sent, size, Vec::new(alloc));
    let came = session(rt, alloc, SETUP, &mut panel);
    same(rt, panel.written.as_slice(), output, "in reads");
    same(
        rt,
        (size, came),
        (size, (LineEnd::InputEnded, 5)),
        "in reads",
    );
    drop(panel);
}
