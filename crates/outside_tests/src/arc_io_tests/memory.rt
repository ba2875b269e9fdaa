// The forms in memory. Calls that fail and answers stand in rows.
ghost use Rattle.std.specs.Prelude.{◌≡◌, false};

use super::{UNREAD, compare_answer, number, numbers, parted};
use crate::same::same;
use arc_io::{
    Clock, Failed, ListClock, ListNoise, MemPort, MemSink, MemSource, Noise, Port, Sink, Source,
};
use std::alloc::Global;
use std::process::Abort;

// Compares what one call of `read` gives in a buffer of three bytes.
fn compare_read(rt: &impl Abort, source: &mut MemSource, want: &str, row: &str) {
    let mut buf = UNREAD;
    let answer = source.read(&mut buf);
    compare_answer(rt, counted(answer), buf, want, row);
}

fn counted(answer: Result<usize, Failed>) -> Result<u64, Failed> {
    match answer {
        Ok(count) => Ok(count as u64),
        Err(Failed) => Err(Failed),
    }
}

// The numbers of the calls that fail, what each call gives of the bytes `abcdefg`, and the faults. A call behind the end fails.
const READS: &str = "\
|3 abc,3 def,1 g--,0 ---,failed|1
2|3 abc,failed,3 def,1 g--,0 ---|1
5 1 2|failed,failed,3 abc,3 def,failed|3
0 6|3 abc,3 def,1 g--,0 ---,failed|1";

#[test]
fn reads_on_over_failing_calls(rt: HostRuntime) {
    for row in READS.lines() {
        compare_reads(&rt, rt.alloc(), row);
    }
}

fn compare_reads(rt: &impl Abort, alloc: Global, row: &str) {
    let (failing, rest) = parted(rt, row, '|');
    let (wants, faults) = parted(rt, rest, '|');
    let mut source = source_of(rt, alloc, b"abcdefg", failing);
    for want in wants.split(',') {
        compare_read(rt, &mut source, want, row);
    }
    same(rt, source.read_faults(), number(rt, faults), row);
}

fn source_of(rt: &impl Abort, alloc: Global, bytes: &[u8], failing: &str) -> MemSource {
    let bytes = bytes.to_vec(alloc).expect(rt, "memory");
    MemSource::new(bytes, numbers(rt, alloc, failing))
}

#[test]
fn an_empty_buffer_takes_nothing(rt: HostRuntime) {
    let mut source = source_of(&rt, rt.alloc(), b"ab", "");
    same(&rt, source.read(&mut []), Ok(0), "an empty buffer");
    compare_read(&rt, &mut source, "2 ab-", "what is left");
}

// The numbers of the calls that fail, what each write is answered, and the bytes that were taken and the faults.
const WRITES: &str = "\
|ab=2,=0,cde=3|abcde 0
1|ab=failed,=0,cde=3|cde 1
3 2|ab=2,=failed,cde=failed|ab 2
4|ab=2,=0,cde=3|abcde 0";

#[test]
fn takes_all_but_at_failing_calls(rt: HostRuntime) {
    for row in WRITES.lines() {
        compare_writes(&rt, rt.alloc(), row);
    }
}

fn compare_writes(rt: &impl Abort, alloc: Global, row: &str) {
    let (failing, rest) = parted(rt, row, '|');
    let (calls, taken) = parted(rt, rest, '|');
    let (bytes, faults) = parted(rt, taken, ' ');
    let mut sink = MemSink::new(alloc, numbers(rt, alloc, failing));
    for call in calls.split(',') {
        compare_write(rt, &mut sink, call);
    }
    let taken = (sink.bytes(), sink.write_faults());
    same(rt, taken, (bytes.as_bytes(), number(rt, faults)), row);
}

fn compare_write(rt: &impl Abort, sink: &mut MemSink, call: &str) {
    let (bytes, want) = parted(rt, call, '=');
    let answer = counted(sink.write(bytes.as_bytes()));
    compare_answer(rt, answer, UNREAD, want, call);
}

#[test]
fn gives_its_last_reading_again(rt: HostRuntime) {
    let mut empty = ListClock::new(Vec::new(rt.alloc()));
    same(&rt, empty.now(), 0, "no reading");
    let mut clock = ListClock::new([7, 5].to_vec(rt.alloc()).expect(&rt, "memory"));
    let readings = [clock.now(), clock.now(), clock.now(), clock.now()];
    same(&rt, readings, [7, 5, 5, 5], "readings");
}

#[test]
fn gives_zeros_at_its_end(rt: HostRuntime) {
    let tens = [*b"0123456789", *b"abcdefghij"].to_vec(rt.alloc());
    let mut noise = ListNoise::new(tens.expect(&rt, "memory"));
    same(&rt, noise.ten(), *b"0123456789", "ten bytes");
    same(&rt, noise.ten(), *b"abcdefghij", "ten bytes");
    same(&rt, (noise.ten(), noise.ten()), ([0; 10], [0; 10]), "zeros");
}

// The calls of all four, through the bound: what is read is written, and the ten bytes behind it. The answer is the time.
fn pass_through<P: Port>(rt: &impl Abort, port: &mut P) -> u64
    requires { (P.seen port.old).ended ≡ false }
{
    let mut buf = [0; 8];
    let count = port.read(&mut buf).expect(rt, "a read");
    let some = port.write(&buf[..count]);
    let ten = port.ten();
    let writes = (some, port.write(&ten));
    same(rt, writes, (Ok(5), Ok(10)), "writes");
    port.now()
}

#[test]
fn a_port_is_its_four_parts(rt: HostRuntime) {
    let alloc = rt.alloc();
    let bytes = b"hello".to_vec(alloc).expect(&rt, "memory");
    let seven = [7].to_vec(alloc).expect(&rt, "memory");
    let ten = [*b"0123456789"].to_vec(alloc).expect(&rt, "memory");
    let mut port = MemPort {
        source: MemSource::new(bytes, Vec::new(alloc)),
        sink: MemSink::new(alloc, numbers(&rt, alloc, "3")),
        clock: ListClock::new(seven),
        noise: ListNoise::new(ten),
    };
    same(&rt, pass_through(&rt, &mut port), 7, "the time");
    same(&rt, port.write(b"more"), Err(Failed), "a failing write");
    let faults = (port.read_faults(), port.write_faults());
    let told = (port.sink.bytes(), faults);
    let wanted = b"hello0123456789".as_slice();
    same(&rt, told, (wanted, (0, 1)), "what is written, and faults");
}
