// What no clause says: that frames of one piece share the calls of the disk, what a stop at any of these leaves, and what is answered where
// the disk fails or a reply can't be written; and that the calls of the gate succeed.
ghost use Rattle.std.specs.Prelude.{◌≡◌, true, false};
ghost use Rattle.arc_data.specs.Digits.{is_name};
ghost use Rattle.line_gate.specs.Blanks.{Names};

mod calls;

use crate::same::{holds, same};
use crate::stores::blank_of;
use arc_data::Txt;
use arc_io::{Disk, Fill, MemDisk, MemPort, Port};
use centre_core::Stop;
use dc09_frame::check;
use disk_journal::{Limits, SHIPPED};
use group_gate::{AtGroup, GroupBlank, GroupClosed, GroupGate, GroupPass};
use line_gate::GateName;
use line_session::{LineEnd, serve_group};
use std::alloc::Global;
use std::marker::Brand;
use std::process::Abort;
use std::sync::Wait;
use test_fixtures::ports::failing_port;
use test_fixtures::stores::recorded;

const SETUP: &[u8] = b"account 1234\noperator ann 1234\n";

// How many calls of the disk an opening and the beginning of a run take.
const BEGUN: u64 = 14;

// The last of the hexadecimal digits of a number.
fn digit_of(number: u16) -> u8 {
    b"0123456789ABCDEF"[(number % 16) as usize]
}

// All four digits of a number.
fn digits_of(number: u16) -> [u8; 4] {
    [
        digit_of(number / 4096),
        digit_of(number / 256),
        digit_of(number / 16),
        digit_of(number),
    ]
}

// The frame of a body.
fn put_frame(rt: &impl Abort, bytes: &mut Vec<u8>, body: &[u8]) {
    bytes.push(b'\n').expect(rt, "memory");
    bytes
        .extend_from_slice(&digits_of(check(body)))
        .expect(rt, "memory");
    let size = u16::try_from(body.len()).expect(rt, "a short body");
    bytes
        .extend_from_slice(&digits_of(size))
        .expect(rt, "memory");
    bytes.extend_from_slice(body).expect(rt, "memory");
    bytes.push(b'\r').expect(rt, "memory");
}

// So many alarms of the account, one behind another, or their acknowledgements.
fn frames(rt: &impl Abort, alloc: Global, count: u64, is_reply: bool) -> Vec<u8> {
    let mut bytes = Vec::new(alloc);
    for number in 1..count.saturating_add(1) {
        let body = if is_reply {
            format!(in alloc; "\"ACK\"{number:04}L0#1234[]")
        } else {
            format!(in alloc; "\"ADM-CID\"{number:04}L0#1234[#1234|1131 01 001]")
        };
        let body = body.expect(rt, "memory");
        put_frame(rt, &mut bytes, body.as_bytes());
    }
    bytes
}

// Serves a line at a gate, and how it ended.
fn serve_line_at<P: Port, R: Wait, D: Disk, N: GateName>(
    rt: &R,
    alloc: Global,
    gate: &GroupGate<D, N>,
    pass: GroupPass<N>,
    port: &mut P,
    name: &Txt,
) -> (GroupPass<N>, LineEnd)
    requires groups { N.terms.groups ≡ true }
    requires name { is_name name.now ≡ true }
    requires not_ended { (P.seen port.old).ended ≡ false }
{
    let mut hall = AtGroup { rt, gate, pass };
    let end = serve_group(alloc, &mut hall, port, name);
    (hall.leave(), end)
}

// How a session on a port of a gate of its own ended, and what closing the gate gave.
fn serve_at<P: Port, R: Wait, D: Disk + Drop, N: GateName>(
    rt: &R,
    alloc: Global,
    blank: GroupBlank<D>,
    port: &mut P,
    name: &Txt,
) -> (LineEnd, GroupClosed<D>)
    requires names { Names D.seen N.terms blank }
    requires groups { N.terms.groups ≡ true }
    requires name { is_name name.now ≡ true }
    requires not_ended { (P.seen port.old).ended ≡ false }
{
    let (gate, pass) = GroupGate::<D, N>::new(blank);
    let (pass, end) = serve_line_at(rt, alloc, &gate, pass, port, name);
    (end, gate.close(pass))
}

fn serve<P: Port, R: Wait, D: Disk + Drop>(
    rt: &R,
    alloc: Global,
    blank: GroupBlank<D>,
    port: &mut P,
    name: &Txt,
) -> (LineEnd, GroupClosed<D>)
    requires name { is_name name.now ≡ true }
    requires not_ended { (P.seen port.old).ended ≡ false }
{
    serve_at::<P, R, D, Brand>(rt, alloc, blank, port, name)
}

// The disk's calls, and the writes of the port, that fail; and how many records the journal has room for.
#[derive(Clone, Copy)]
struct Case<'a> {
    calls: &'a [u64],
    writes: &'a [u64],
    records: u64,
}

const SOUND: Case<'static> = Case {
    calls: &[],
    writes: &[],
    records: 1_000,
};

// Serves so many frames that stand there at once: how it ended, what closing gave, and what was written.
fn served<R: Abort + Wait>(
    rt: &R,
    alloc: Global,
    count: u64,
    case: &Case,
) -> (LineEnd, GroupClosed<MemDisk>, MemPort) {
    let failing = case.calls.to_vec(alloc).expect(rt, "memory");
    let disk = MemDisk::new(alloc, failing);
    let limits = Limits {
        records: case.records,
        ..SHIPPED
    };
    let blank = blank_of(rt, alloc, disk, limits, SETUP);
    let input = frames(rt, alloc, count, false);
    let mut port = failing_port(alloc, &input, &[], case.writes).expect(rt, "memory");
    let name = Txt::of(b"tcp").expect(rt, "a name");
    let (end, closed) = serve(rt, alloc, blank, &mut port, &name);
    (end, closed, port)
}

// The replies of the first of the frames, so many, were written.
fn compare_text(rt: &impl Abort, alloc: Global, port: &MemPort, count: u64) {
    let due = frames(rt, alloc, count, true);
    same(rt, port.sink.bytes(), due.as_slice(), "written");
}

// The disk of a gate that was closed, whole or not. Where it was not, the disk had failed once since it was opened.
fn disk_of(rt: &impl Abort, closed: GroupClosed<MemDisk>, is_whole: bool) -> MemDisk {
    let (disk, counts) = match closed {
        GroupClosed::Whole(store) => (store.close(), None),
        GroupClosed::Broken { disk, at_open, now } => (disk, Some((at_open, now))),
    };
    let wanted = if is_whole { None } else { Some((0, 1)) };
    same(rt, counts, wanted, "the counts of a gate that is not whole");
    disk
}

// What a stop within a call of the disk leaves.
fn stopped_at(rt: &impl Abort, alloc: Global, disk: &MemDisk, call: u64, fill: Fill) -> MemDisk {
    assert!(rt; 1 <= call && call <= disk.calls(), "no such call");
    disk.stopped(alloc, call, fill).expect(rt, "memory")
}

#[test]
fn ten_frames_share_two_writes_and_two_syncs(rt: HostRuntime) {
    let alloc = rt.alloc();
    let (end, closed, port) = served(&rt, alloc, 10, &SOUND);
    same(&rt, end, LineEnd::InputEnded, "the end");
    compare_text(&rt, alloc, &port, 10);
    let disk = disk_of(&rt, closed, true);
    same(&rt, disk.calls(), BEGUN + 4, "calls of the disk");
    for call in BEGUN + 1..BEGUN + 5 {
        for fill in [Fill::Old, Fill::New] {
            let stopped = stopped_at(&rt, alloc, &disk, call, fill);
            let found = recorded(alloc, stopped).expect(&rt, "opened");
            holds(&rt, found == 2 || found == 12, "none of the ten or all");
        }
    }
}

#[test]
fn more_frames_than_a_batch_has_take_several(rt: HostRuntime) {
    let alloc = rt.alloc();
    // a read gives 83 whole frames: 64 and 19 of them, and then 17
    let (end, closed, port) = served(&rt, alloc, 100, &SOUND);
    same(&rt, end, LineEnd::InputEnded, "the end");
    compare_text(&rt, alloc, &port, 100);
    let disk = disk_of(&rt, closed, true);
    same(&rt, disk.calls(), BEGUN + 12, "calls of the disk");
}

#[test]
fn a_short_journal_takes_ten_frames(rt: HostRuntime) {
    let alloc = rt.alloc();
    let case = Case {
        records: 5,
        ..SOUND
    };
    let (end, closed, port) = served(&rt, alloc, 10, &case);
    same(&rt, end, LineEnd::InputEnded, "the end");
    compare_text(&rt, alloc, &port, 10);
    drop(disk_of(&rt, closed, true));
}

#[test]
fn a_disk_that_fails_acknowledges_none_of_ten(rt: HostRuntime) {
    let alloc = rt.alloc();
    for call in BEGUN + 1..BEGUN + 5 {
        let calls = [call];
        let case = Case {
            calls: &calls,
            ..SOUND
        };
        let (end, closed, port) = served(&rt, alloc, 10, &case);
        let down = Stop::Down { at_open: 0, now: 1 };
        same(&rt, end, LineEnd::Stopped(down), "the end");
        compare_text(&rt, alloc, &port, 0);
        let disk = disk_of(&rt, closed, false);
        let found = recorded(alloc, disk).expect(&rt, "opened");
        holds(&rt, found == 2 || found == 12, "none of the ten or all");
    }
}

#[test]
fn a_reply_that_fails_leaves_all_ten_recorded(rt: HostRuntime) {
    let alloc = rt.alloc();
    let case = Case {
        writes: &[4],
        ..SOUND
    };
    let (end, closed, port) = served(&rt, alloc, 10, &case);
    same(&rt, end, LineEnd::WriteFault, "the end");
    compare_text(&rt, alloc, &port, 3);
    let disk = disk_of(&rt, closed, true);
    let found = recorded(alloc, disk).expect(&rt, "opened");
    same(&rt, found, 12, "recorded");
}
