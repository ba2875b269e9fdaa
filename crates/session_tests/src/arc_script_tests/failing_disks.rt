// The script of an alarm that comes twice, is worked and closed, over disks of which one call fails or that stop within one, and over journals so
// short that checkpoints are made between: all that was said stands, and a second run goes on from there.
use super::{Played, compare};
use crate::same::same;
use accounts::Setup;
use arc_io::{Area, Disk, Fill, MemDisk};
use arc_script::{ScriptEnd, run_script};
use centre_core::Stop;
use disk_journal::{Limits, OpenFault, SHIPPED};
use std::alloc::Global;
use std::process::Abort;
use test_fixtures::ports::port_of;
use test_fixtures::stores::recorded;

const SETUP: &[u8] = b"account 1234\noperator ann 1234\noperator bob 5678\n";

const SCRIPT: &[u8] = b"\
T 1000000000
M 1 \"ADM-CID\"0001L0#1234[#1234|1131 01 001]
M 1 \"ADM-CID\"0001L0#1234[#1234|1131 01 001]
D 1 login ann 1234
D 1 next
D 1 act 1 note done
D 1 close 1 real
X
";

const OUTPUT: &[u8] = b"\
T raised 0
M 1 1BC10012\"ACK\"0001L0#1234[]
M 1 1BC10012\"ACK\"0001L0#1234[]
D 1 ok ann
D 1 claimed 1 burglary 1234
D 1 recorded 1 left 0
D 1 closed 1
X recorded 7
";

// How many entries are recorded behind so many lines: an Adopt and a Start, a Message, a Next, an Act, a Close and a Start.
const ENTRIES: [u64; 10] = [0, 2, 3, 3, 3, 4, 5, 6, 7, 7];

// How many entries are recorded behind a second run, by how many it found: it has a Start, but where no Adopt stood an Adopt before it; the
// Message, where that did not stand; a Next, since a Start releases what was held; an Act and a Close, where they did not stand; and a Start.
const AGAIN: [u64; 8] = [7, 7, 8, 8, 9, 9, 8, 9];

// For how many records a journal has room: as it is shipped, and so few that checkpoints come.
const ROOMS: [u64; 4] = [1_000_000, 1, 2, 3];

const FILLS: [Fill; 4] = [Fill::Old, Fill::New, Fill::Torn(1), Fill::Torn(0xff)];

// The first so many lines of a text.
fn front(text: &[u8], lines: usize) -> &[u8] {
    let mut left = lines;
    for i in 0..text.len() {
        if left == 0 {
            return &text[..i];
        }
        if text[i] == b'\n' {
            left -= 1;
        }
    }
    text
}

fn lines_in(text: &[u8]) -> usize {
    let mut lines = 0usize;
    for byte in text {
        if *byte == b'\n' {
            lines = lines.saturating_add(1);
        }
    }
    lines
}

// Plays the first so many lines over a disk, with room for so many records.
fn run(rt: &impl Abort, alloc: Global, disk: MemDisk, records: u64, lines: usize) -> Played {
    let mut port = port_of(alloc, front(SCRIPT, lines)).expect(rt, "memory");
    let setup = Setup::read(alloc, SETUP).expect(rt, "a setup");
    let limits = Limits { records, ..SHIPPED };
    let ended = run_script(alloc, disk, setup, &mut port, limits);
    Played { ended, port }
}

// The disk of such a run that no call fails. It is played to its end.
fn sound(rt: &impl Abort, alloc: Global, records: u64, lines: usize) -> MemDisk {
    let ran = run(
        rt,
        alloc,
        MemDisk::new(alloc, Vec::new(alloc)),
        records,
        lines,
    );
    compare(rt, &ran, ScriptEnd::Done, front(OUTPUT, lines));
    let Played { ended, port } = ran;
    drop(port);
    ended.disk
}

fn calls_of(rt: &impl Abort, alloc: Global, records: u64, lines: usize) -> u64 {
    let disk = sound(rt, alloc, records, lines);
    let calls = disk.calls();
    drop(disk);
    calls
}

fn copied(rt: &impl Abort, alloc: Global, bytes: &[u8]) -> Vec<u8> {
    bytes.to_vec(alloc).expect(rt, "memory")
}

// How many entries are recorded on a disk.
fn found_on(rt: &impl Abort, alloc: Global, disk: &MemDisk) -> u64 {
    let a = copied(rt, alloc, disk.bytes(Area::A));
    let b = copied(rt, alloc, disk.bytes(Area::B));
    let copy = MemDisk::of(alloc, a, b, Vec::new(alloc)).expect(rt, "memory");
    recorded(alloc, copy).expect(rt, "opened")
}

// What a second run says behind the login, over so many entries.
fn worked_again(found: u64) -> &'static str {
    match found {
        0..=4 => "D 1 claimed 1 burglary 1234\nD 1 recorded 1 left 0\nD 1 closed 1\n",
        5 => "D 1 claimed 1 burglary 1234\nD 1 expected none\nD 1 closed 1\n",
        _ => "D 1 none waiting\nD 1 not open 1\nD 1 not open 1\n",
    }
}

// All that it says.
fn said_again(rt: &impl Abort, alloc: Global, found: u64) -> Vec<u8> {
    let mut said = copied(rt, alloc, front(OUTPUT, 4));
    let worked = worked_again(found);
    let total = AGAIN
        .get(found as usize)
        .expect(rt, "at most seven entries");
    let behind = format!(in alloc; "{worked}X recorded {total}\n").expect(rt, "memory");
    said.extend_from_slice(behind.as_bytes())
        .expect(rt, "memory");
    said
}

// What a run left that has said so many lines: their entries, and at most those of the next one. A second run goes on from there.
fn compare_second(
    rt: &impl Abort,
    alloc: Global,
    records: u64,
    disk: MemDisk,
    lines: usize,
    what: &str,
) {
    let found = found_on(rt, alloc, &disk);
    let next = lines.saturating_add(1);
    let least = ENTRIES.get(lines).expect(rt, "a line");
    let most = ENTRIES.get(next).expect(rt, "a line");
    same(rt, *least <= found && found <= *most, true, what);
    let ran = run(rt, alloc, disk, records, 8);
    let said = said_again(rt, alloc, found);
    compare(rt, &ran, ScriptEnd::Done, &said);
    drop(ran);
}

#[test]
fn a_script_over_a_disk_that_fails_at_each_of_its_calls(rt: HostRuntime) {
    for records in ROOMS {
        compare_faults(&rt, rt.alloc(), records);
    }
}

fn compare_faults(rt: &impl Abort, alloc: Global, records: u64) {
    let calls = calls_of(rt, alloc, records, 8);
    for call in 1..calls.saturating_add(1) {
        compare_fault(rt, alloc, records, call);
    }
    compare_beyond(rt, alloc, records, calls.saturating_add(1));
}

// A call that is not made fails nothing.
fn compare_beyond(rt: &impl Abort, alloc: Global, records: u64, call: u64) {
    let ran = run(rt, alloc, failing_disk(rt, alloc, call), records, 8);
    compare(rt, &ran, ScriptEnd::Done, OUTPUT);
    drop(ran);
}

fn failing_disk(rt: &impl Abort, alloc: Global, call: u64) -> MemDisk {
    let failing = [call].to_vec(alloc).expect(rt, "memory");
    MemDisk::new(alloc, failing)
}

// The disk fails at this call, which ends the script behind some of its lines.
fn compare_fault(rt: &impl Abort, alloc: Global, records: u64, call: u64) {
    let disk = failing_disk(rt, alloc, call);
    let Played { ended, port } = run(rt, alloc, disk, records, 8);
    let lines = lines_in(port.sink.bytes());
    same(
        rt,
        port.sink.bytes(),
        front(OUTPUT, lines),
        "whole lines are said",
    );
    drop(port);
    let what = format!(in alloc; "room for {records}, call {call} fails").expect(rt, "memory");
    let faults = ended.disk.faults();
    same(rt, (is_by_disk(ended.end), faults), (true, 1), &what);
    compare_second(rt, alloc, records, ended.disk, lines, &what);
}

// The script was ended by the first fault of its disk.
fn is_by_disk(end: ScriptEnd) -> bool {
    matches!(
        end,
        ScriptEnd::Stopped(Stop::Down { at_open: 0, now: 1 })
            | ScriptEnd::Refused(OpenFault::DiskFault { before: 0, now: 1 })
    )
}

#[test]
fn a_stop_within_a_script(rt: HostRuntime) {
    compare_stops(&rt, rt.alloc(), SHIPPED.records);
}

#[test]
fn a_stop_within_a_script_where_each_record_makes_a_checkpoint(rt: HostRuntime) {
    compare_stops(&rt, rt.alloc(), 1);
}

#[test]
fn a_stop_within_a_script_where_every_third_record_makes_a_checkpoint(rt: HostRuntime) {
    compare_stops(&rt, rt.alloc(), 3);
}

fn compare_stops(rt: &impl Abort, alloc: Global, records: u64) {
    let disk = sound(rt, alloc, records, 8);
    let ends = ends_of(rt, alloc, records);
    for call in 1..disk.calls().saturating_add(1) {
        let lines = said_before(&ends, call);
        compare_fills(rt, alloc, records, &disk, call, lines);
    }
    drop(disk);
}

// How many calls were made once each line was said.
fn ends_of(rt: &impl Abort, alloc: Global, records: u64) -> Vec<u64> {
    let mut ends = Vec::new(alloc);
    for lines in 1..9usize {
        ends.push(calls_of(rt, alloc, records, lines))
            .expect(rt, "memory");
    }
    ends
}

// How many lines were said before the call.
fn said_before(ends: &[u64], call: u64) -> usize {
    let mut lines = 0usize;
    for end in ends {
        if *end < call {
            lines = lines.saturating_add(1);
        }
    }
    lines
}

// The run is stopped within this call, and what was not synced then is as each filling has it.
fn compare_fills(
    rt: &impl Abort,
    alloc: Global,
    records: u64,
    disk: &MemDisk,
    call: u64,
    lines: usize,
) {
    for fill in FILLS {
        assert!(rt; call > 0 && call <= disk.calls());
        let left = disk.stopped(alloc, call, fill).expect(rt, "memory");
        let what = format!(in alloc; "room for {records}, a stop within call {call}, {fill:?}");
        let what = what.expect(rt, "memory");
        compare_second(rt, alloc, records, left, lines, &what);
    }
}
