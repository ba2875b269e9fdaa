// Whole scripts over a disk and a port in memory, byte for byte. Many more are played over the program, by tools/check/script.
ghost use Rattle.std.specs.Prelude.{◌≡◌, ◌<◌, ◌^◌, false};

mod failing_disks;

use crate::same::same;
use accounts::Setup;
use arc_io::{Disk, ListClock, MemDisk, MemPort, Port};
use arc_script::{ScriptEnd, ScriptEnded, Tally, run_script};
use centre_core::Stop;
use disk_journal::{Limits, OpenFault};
use std::alloc::Global;
use std::process::Abort;
use test_fixtures::ports::failing_port;
use test_fixtures::stores::recorded;

const SETUP: &[u8] = b"\
account 1234
account 12345A beat 60
operator ann 1234
operator bob 5678
";

// What the outside does: the bytes of the area, the calls of the disk, of the source and of the sink that fail, and how many bytes and
// records the journal has room for.
#[derive(Clone, Copy)]
struct Outside<'a> {
    area: &'a [u8],
    disk: &'a [u64],
    reads: &'a [u64],
    writes: &'a [u64],
    bytes: u32,
    records: u64,
}

const NOTHING_FAILS: Outside<'static> = Outside {
    area: b"",
    disk: &[],
    reads: &[],
    writes: &[],
    bytes: 1_048_576,
    records: 1000,
};

impl Outside<'_> {
    fn limits(&self) -> Limits
        ensures { result.bytes < 2 ^ 32 }
    {
        Limits {
            bytes: u64::from(self.bytes),
            records: self.records,
        }
    }
}

// What a script left: how it ended, and the port.
#[derive(Drop)]
struct Played {
    ended: ScriptEnded<MemDisk>,
    port: MemPort,
}

fn play_over(rt: &impl Abort, alloc: Global, script: &[u8], outside: Outside) -> Played {
    let disk = disk_of(rt, alloc, outside);
    let port = failing_port(alloc, script, outside.reads, outside.writes);
    let mut port = port.expect(rt, "memory");
    // A script has its own clock, and reads none of the port's.
    port.clock = ListClock::new(Vec::new(alloc));
    let ended = run_over(rt, alloc, disk, &mut port, outside.limits());
    Played { ended, port }
}

// The disk of the outside.
fn disk_of(rt: &impl Abort, alloc: Global, outside: Outside) -> MemDisk {
    let area = outside.area.to_vec(alloc).expect(rt, "memory");
    let failing = outside.disk.to_vec(alloc).expect(rt, "memory");
    MemDisk::of(alloc, area, Vec::new(alloc), failing).expect(rt, "memory")
}

// Runs the script that a port gives over a disk, with a journal of these limits.
fn run_over<D: Disk + Drop, P: Port>(
    rt: &impl Abort,
    alloc: Global,
    disk: D,
    port: &mut P,
    limits: Limits,
) -> ScriptEnded<D>
    requires fresh { (P.seen port.old).ended ≡ false }
    requires few { limits.bytes < 2 ^ 32 }
{
    let setup = Setup::read(alloc, SETUP).expect(rt, "a setup");
    run_script(alloc, disk, setup, port, limits)
}

fn append(rt: &impl Abort, all: &mut Vec<u8>, line: &str) {
    all.extend_from_slice(line.as_bytes()).expect(rt, "memory");
    all.push(b'\n').expect(rt, "memory");
}

// The script of rows and its output. A row is a line of the script, ` > `, and its line of output.
fn parts_of(rt: &impl Abort, alloc: Global, rows: &str) -> (Vec<u8>, Vec<u8>) {
    let mut script = Vec::new(alloc);
    let mut output = Vec::new(alloc);
    for row in rows.lines() {
        let (line, answer) = row.split_once(" > ").expect(rt, "a row");
        append(rt, &mut script, line);
        append(rt, &mut output, answer);
    }
    (script, output)
}

// Plays the rows, and a remark of so many bytes behind them, to the end.
fn play(rt: &impl Abort, alloc: Global, rows: &str, remark: usize, tally: Tally) {
    let (mut script, output) = parts_of(rt, alloc, rows);
    let size = script.len().saturating_add(remark);
    script.resize(size, b'#').expect(rt, "memory");
    play_to_the_end(rt, alloc, NOTHING_FAILS, &script, &output, tally);
}

fn play_to_the_end(
    rt: &impl Abort,
    alloc: Global,
    outside: Outside,
    script: &[u8],
    output: &[u8],
    tally: Tally,
) {
    let ran = play_over(rt, alloc, script, outside);
    compare(rt, &ran, ScriptEnd::Done, output);
    same(rt, ran.ended.tally, tally, "the tally");
    drop(ran);
}

// How a script ended, and what it wrote.
fn compare(rt: &impl Abort, ran: &Played, end: ScriptEnd, output: &[u8]) {
    same(rt, ran.ended.end, end, "the end");
    same(rt, ran.port.sink.bytes(), output, "the output");
}

// An alarm that comes twice, is worked and closed; a frame in two parts, and one whose second part comes behind an `X`; a panel that falls
// silent; a clock that goes back; a desk that is left.
const A_DAY: &str = "\
T 1000000000 > T raised 0
M 1 \"ADM-CID\"0001L0#1234[#1234|1131 01 001] > M 1 1BC10012\"ACK\"0001L0#1234[]
M 1 \"ADM-CID\"0001L0#1234[#1234|1131 01 001] > M 1 1BC10012\"ACK\"0001L0#1234[]
D 1 login ann 1234\r > D 1 ok ann
D 1 next > D 1 claimed 1 burglary 1234
D 1 show 1 > D 1 incident 1 burglary 1234 code 131 opened 1000000000 signals 1 restored no holder ann next note via l1
D 1 act 1 note done > D 1 recorded 1 left 0
D 1 close 1 real > D 1 closed 1
D 1 quit > D 1 bye
D 1 list > D 1 denied
D 1  > D 1 what
L 3 0a32454537303032372241444d2d434944223030 > L 3 -
L 3 30314C3023313233345B23313233347c31313331203031203030315d0d > L 3 1BC10012\"ACK\"0001L0#1234[]
L 3 0a32454537303032372241444d2d434944223030 > L 3 -
X > X recorded 7
L 3 30314c3023313233345b23313233347c31313331203031203030315d0d > L 3 -
M 1 \"SIA-DCS\"0001L0#12345A[#12345A|NFA129][S123Main St., 55123] > M 1 7C360014\"ACK\"0001L0#12345A[]
T 1000000061 > T raised 1
T 1000000060 > T raised 0
M 1 \"x > M 1 -
M 1 \"ADM-CID\"0001L0#9999[#9999|1131 01 001] > M 1 B7290012\"DUH\"0001L0#9999[]
D 8 login bob 5678 > D 8 ok bob
D 8 next > D 8 claimed 2 fire 12345A
D 8 show 2 > D 8 incident 2 fire 12345A code FA opened 1000000000 signals 1 restored no holder bob next note via l1
X > X recorded 11
D 8 list > D 8 denied
";

const OF_A_DAY: Tally = Tally {
    sent: 6,
    repeats: 2,
    recorded: 11,
    opened: 3,
    closed: 1,
    total: 2,
};

#[test]
fn a_day_is_played(rt: HostRuntime) {
    play(&rt, rt.alloc(), A_DAY, 0, OF_A_DAY);
}

// The same day over journals that have room for so few records that checkpoints are made between: nothing else is said.
#[test]
fn a_day_is_played_with_checkpoints(rt: HostRuntime) {
    let alloc = rt.alloc();
    let (script, output) = parts_of(&rt, alloc, A_DAY);
    for records in 1..12u64 {
        let few = Outside {
            records,
            ..NOTHING_FAILS
        };
        play_to_the_end(&rt, alloc, few, &script, &output, OF_A_DAY);
    }
}

const SIXTEEN_LINES_AND_EIGHT_DESKS: &str = "\
T 253402300799 > T raised 0
M 1 \"NULL\"0000L0#1234[] > M 1 DE900012\"ACK\"0000L0#1234[]
M 2 \"NULL\"0000L0#1234[] > M 2 DE900012\"ACK\"0000L0#1234[]
M 3 \"NULL\"0000L0#1234[] > M 3 DE900012\"ACK\"0000L0#1234[]
M 4 \"NULL\"0000L0#1234[] > M 4 DE900012\"ACK\"0000L0#1234[]
M 5 \"NULL\"0000L0#1234[] > M 5 DE900012\"ACK\"0000L0#1234[]
M 6 \"NULL\"0000L0#1234[] > M 6 DE900012\"ACK\"0000L0#1234[]
M 7 \"NULL\"0000L0#1234[] > M 7 DE900012\"ACK\"0000L0#1234[]
M 8 \"NULL\"0000L0#1234[] > M 8 DE900012\"ACK\"0000L0#1234[]
M 9 \"NULL\"0000L0#1234[] > M 9 DE900012\"ACK\"0000L0#1234[]
M 10 \"NULL\"0000L0#1234[] > M 10 DE900012\"ACK\"0000L0#1234[]
M 11 \"NULL\"0000L0#1234[] > M 11 DE900012\"ACK\"0000L0#1234[]
M 12 \"NULL\"0000L0#1234[] > M 12 DE900012\"ACK\"0000L0#1234[]
M 13 \"NULL\"0000L0#1234[] > M 13 DE900012\"ACK\"0000L0#1234[]
M 14 \"NULL\"0000L0#1234[] > M 14 DE900012\"ACK\"0000L0#1234[]
M 15 \"NULL\"0000L0#1234[] > M 15 DE900012\"ACK\"0000L0#1234[]
M 16 \"NULL\"0000L0#1234[] > M 16 DE900012\"ACK\"0000L0#1234[]
D 1 hello > D 1 what
D 2 hello > D 2 what
D 3 hello > D 3 what
D 4 hello > D 4 what
D 5 hello > D 5 what
D 6 hello > D 6 what
D 7 hello > D 7 what
D 8 hello > D 8 what
M 16 \"ADM-CID\"0001L0#1234[#1234|1131 01 001] > M 16 1BC10012\"ACK\"0001L0#1234[]
D 8 login ann 1234 > D 8 ok ann
D 8 show 1 > D 8 incident 1 burglary 1234 code 131 opened 253402300799 signals 1 restored no holder none next note via l16
";

// The remark behind them is as long as a line may be.
#[test]
fn sixteen_lines_and_eight_desks_are_played(rt: HostRuntime) {
    let tally = Tally {
        sent: 17,
        repeats: 0,
        recorded: 19,
        opened: 1,
        closed: 0,
        total: 1,
    };
    let rows = SIXTEEN_LINES_AND_EIGHT_DESKS;
    play(&rt, rt.alloc(), rows, 16_384, tally);
}

// A script that something cuts short: what the outside does, how the script ends, and what it wrote until then.
fn cut(
    rt: &impl Abort,
    alloc: Global,
    outside: Outside,
    script: &[u8],
    end: ScriptEnd,
    output: &[u8],
) {
    let ran = play_over(rt, alloc, script, outside);
    compare(rt, &ran, end, output);
    drop(ran);
}

const THREE: &[u8] = b"T 1\nX\nT 2\n";

#[test]
fn scripts_are_cut_short(rt: HostRuntime) {
    let alloc = rt.alloc();
    cut_by_the_port(&rt, alloc);
    cut_by_the_journal(&rt, alloc);
}

fn cut_by_the_port(rt: &impl Abort, alloc: Global) {
    let script = b"#\nT 1\r\n\nT 2\nY\nT 3\n";
    let (end, output) = (
        ScriptEnd::BadScript { line: 5 },
        b"T raised 0\nT raised 0\n",
    );
    cut(rt, alloc, NOTHING_FAILS, script, end, output);
    let failing = Outside {
        reads: &[2],
        ..NOTHING_FAILS
    };
    let (end, output) = (ScriptEnd::ReadFault, b"T raised 0\nX recorded 3\n");
    cut(rt, alloc, failing, b"T 1\nX\nT 2", end, output);
    let failing = Outside {
        writes: &[2],
        ..NOTHING_FAILS
    };
    let end = ScriptEnd::WriteFault;
    cut(rt, alloc, failing, THREE, end, b"T raised 0\n");
}

fn cut_by_the_journal(rt: &impl Abort, alloc: Global) {
    cut_by_its_limits(rt, alloc);
    let failing = Outside {
        disk: &[23],
        ..NOTHING_FAILS
    };
    let end = ScriptEnd::Stopped(Stop::Down { at_open: 0, now: 1 });
    cut(rt, alloc, failing, THREE, end, b"T raised 0\n");
    let foreign = Outside {
        area: b"XXXXXXXXXXXXXXXXXX",
        ..NOTHING_FAILS
    };
    let end = ScriptEnd::Refused(OpenFault::NotJournal { byte: 0 });
    cut(rt, alloc, foreign, b"T 1\n", end, b"");
}

// The journal has an Adopt of 90 bytes and a Start of 14, and no room for a third record. The summary of both has 127 bytes, and that of
// nothing has 43.
fn cut_by_its_limits(rt: &impl Abort, alloc: Global) {
    let behind_summary = Outside {
        bytes: 163,
        records: 2,
        ..NOTHING_FAILS
    };
    let output = b"T raised 0\nX recorded 3\nT raised 0\n";
    cut(rt, alloc, behind_summary, THREE, ScriptEnd::Done, output);
    let full = Outside {
        bytes: 162,
        ..behind_summary
    };
    let stop = Stop::Full {
        used: 149,
        need: 14,
        records: 0,
    };
    let end = ScriptEnd::Stopped(stop);
    cut(rt, alloc, full, THREE, end, b"T raised 0\n");
    let none = Outside {
        records: 0,
        ..NOTHING_FAILS
    };
    let stop = Stop::Full {
        used: 65,
        need: 90,
        records: 0,
    };
    cut(rt, alloc, none, THREE, ScriptEnd::Stopped(stop), b"");
}

const WORKED: &[u8] = b"\
T 1000000000
M 1 \"ADM-CID\"0001L0#1234[#1234|1131 01 001]
D 1 login ann 1234
D 1 next
D 1 act 1 note done
D 1 close 1 real
X
";

// The line whose output fails, and how many entries are found when the journal is opened again: those of that line, too.
const RECORDED: &str = "\
1 2
2 3
3 3
4 4
5 5
6 6
7 7";

#[test]
fn a_line_whose_output_fails_stands_recorded(rt: HostRuntime) {
    for row in RECORDED.lines() {
        compare_failing(&rt, rt.alloc(), row);
    }
}

fn compare_failing(rt: &impl Abort, alloc: Global, row: &str) {
    let (line, want) = row.split_once(' ').expect(rt, "a row");
    let writes = [line.parse().expect(rt, "a line")];
    let want = want.parse().expect(rt, "a count");
    let outside = Outside {
        writes: &writes,
        ..NOTHING_FAILS
    };
    let Played { ended, port } = play_over(rt, alloc, WORKED, outside);
    drop(port);
    same(rt, ended.end, ScriptEnd::WriteFault, row);
    same(rt, recorded(alloc, ended.disk), Some(want), row);
}
