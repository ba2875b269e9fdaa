// What no clause says: the texts byte for byte, and each call at its limits.
ghost use Rattle.std.specs.Prelude.{◌≤◌};

use crate::rows::{holds, same, same_bytes};
use arc_drill::Drill;
use arc_io::{Clock, Noise, Sink, Source, read_all};
use std::alloc::Global;
use std::process::Abort;
use std::test::Fail;

// The beginning of each script, and the one message of a drill of one.
const ONE: &[u8] = b"T 1000000000
T 1000000001
M 1 \"ADM-CID\"0001L0#1001[#1001|1110 01 002]
";

// The end of each script: the operator closes twenty incidents.
const ENDING: &[u8] = b"D 1 login drill 1234
D 1 claim 1
D 1 act 1 note done
D 1 close 1 real
D 1 claim 2
D 1 act 2 note done
D 1 close 2 real
D 1 claim 3
D 1 act 3 note done
D 1 close 3 real
D 1 claim 4
D 1 act 4 note done
D 1 close 4 real
D 1 claim 5
D 1 act 5 note done
D 1 close 5 real
D 1 claim 6
D 1 act 6 note done
D 1 close 6 real
D 1 claim 7
D 1 act 7 note done
D 1 close 7 real
D 1 claim 8
D 1 act 8 note done
D 1 close 8 real
D 1 claim 9
D 1 act 9 note done
D 1 close 9 real
D 1 claim 10
D 1 act 10 note done
D 1 close 10 real
D 1 claim 11
D 1 act 11 note done
D 1 close 11 real
D 1 claim 12
D 1 act 12 note done
D 1 close 12 real
D 1 claim 13
D 1 act 13 note done
D 1 close 13 real
D 1 claim 14
D 1 act 14 note done
D 1 close 14 real
D 1 claim 15
D 1 act 15 note done
D 1 close 15 real
D 1 claim 16
D 1 act 16 note done
D 1 close 16 real
D 1 claim 17
D 1 act 17 note done
D 1 close 17 real
D 1 claim 18
D 1 act 18 note done
D 1 close 18 real
D 1 claim 19
D 1 act 19 note done
D 1 close 19 real
D 1 claim 20
D 1 act 20 note done
D 1 close 20 real
";

// The script of so many messages.
fn script_of(alloc: Global, messages: u32) -> Result<Vec<u8>, Fail>
    requires some { 1 ≤ messages }
    requires few { messages ≤ 100_000 }
{
    let mut drill = Drill::new(messages);
    match read_all(alloc, &mut drill, 16_000_000) {
        Ok(text) => Ok(text),
        Err(_) => Err("a read failed")?,
    }
}

// The script of so many messages ends with these lines and the closings.
fn ends_with(rt: &impl Abort, alloc: Global, messages: u32, lines: &[u8]) -> Result<(), Fail>
    requires some { 1 ≤ messages }
    requires few { messages ≤ 100_000 }
{
    let text = script_of(alloc, messages)?;
    let front = text.strip_suffix(ENDING).unwrap_or(b"another end");
    let ends = front.ends_with(lines);
    drop(text);
    assert!(rt; ends, "{messages}");
    Ok(())
}

// A seventh message is sent twice, and an eleventh has the next sequence.
#[test]
fn messages_behind_the_first(rt: HostRuntime) -> Result<(), Fail> {
    let seven = b"0001L0#1006[#1006|1131 01 001]
T 1000000007
M 1 \"ADM-CID\"0001L0#1007[#1007|1110 01 002]
M 1 \"ADM-CID\"0001L0#1007[#1007|1110 01 002]
";
    ends_with(&rt, rt.alloc(), 7, seven)?;
    let eleven = b"0001L0#1000[#1000|1110 01 002]
T 1000000011
M 1 \"ADM-CID\"0002L0#1001[#1001|3131 01 001]
";
    ends_with(&rt, rt.alloc(), 11, eleven)
}

// Each account has sent its messages 0001 to 9999, and the last of all is 0001 again.
#[test]
fn a_drill_at_its_limit(rt: HostRuntime) -> Result<(), Fail> {
    let last = b"T 1000100000
M 1 \"ADM-CID\"0001L0#1000[#1000|1110 01 002]
";
    ends_with(&rt, rt.alloc(), 100_000, last)?;
    let last = b"T 1000099990
M 1 \"ADM-CID\"9999L0#1000[#1000|1131 01 001]
";
    ends_with(&rt, rt.alloc(), 99_990, last)
}

// How many lines of a text begin with this letter.
fn lines_with(text: &[u8], letter: u8) -> usize {
    text.split(|byte| *byte == b'\n')
        .filter(|line| line.first() == Some(&letter))
        .count()
}

fn has_lines(rt: &impl Abort, text: &[u8], letter: u8, count: usize) {
    same(rt, &lines_with(text, letter), &count, "lines of a letter");
}

#[test]
fn a_thousand_have_so_many_lines(rt: HostRuntime) -> Result<(), Fail> {
    let text = script_of(rt.alloc(), 1000)?;
    has_lines(&rt, &text, b'T', 1001);
    has_lines(&rt, &text, b'M', 1142);
    has_lines(&rt, &text, b'D', 61);
    Ok(())
}

// Reads of one byte give these.
fn gives(rt: &impl Abort, drill: &mut Drill, bytes: &[u8]) {
    for byte in bytes {
        let mut room = [0];
        let count = drill.read(&mut room);
        same(rt, &(count, room[0]), &(Ok(1), *byte), "a byte");
    }
}

#[test]
fn a_drill_of_one(rt: HostRuntime) -> Result<(), Fail> {
    let text = script_of(rt.alloc(), 1)?;
    let front = text.strip_suffix(ENDING).unwrap_or(b"another end");
    same_bytes(&rt, front, ONE, "a drill of one");
    drop(text);
    let mut drill = Drill::new(1);
    gives(&rt, &mut drill, ONE);
    gives(&rt, &mut drill, ENDING);
    same(&rt, &drill.read(&mut [0; 8]), &Ok(0), "its end");
    same(&rt, &drill.read_faults(), &0, "its faults");
    Ok(())
}

#[test]
fn what_is_written_is_taken(rt: HostRuntime) {
    let mut drill = Drill::new(1);
    same(&rt, &drill.write(b"T raised 0\n"), &Ok(11), "a line");
    same(&rt, &drill.write(b""), &Ok(0), "nothing");
    same(&rt, &drill.write_faults(), &0, "its faults");
    same(&rt, &drill.now(), &1_000_000_000, "its clock");
    same(&rt, &drill.ten(), &[0; 10], "its noise");
}

#[test]
fn the_setup_has_ten_accounts(rt: HostRuntime) {
    let setup = Drill::setup_text();
    has_lines(&rt, setup, b'a', 10);
    let first = b"account 1000\naccount 1001\n";
    holds(&rt, setup.starts_with(first), "its first accounts");
    let last = b"account 1009\noperator drill 1234\n";
    holds(&rt, setup.ends_with(last), "its last account");
}
