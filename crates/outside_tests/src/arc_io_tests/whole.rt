// Reading and writing over many calls.
use super::{number, parted};
use crate::same::same;
use arc_io::{Ends, Failed, MemSource, ReadEnd, Sink, Source, put, read_all};
use std::alloc::Global;
use std::process::Abort;

// The bytes 0, 1, .. 250, 0, 1, ..
fn counting(rt: &impl Abort, alloc: Global, len: usize) -> Vec<u8> {
    let mut bytes = Vec::new(alloc);
    for place in 0..len {
        bytes.push((place % 251) as u8).expect(rt, "memory");
    }
    bytes
}

// The bytes of the input, the limit, the bytes that are read, and those that are left.
const LIMITS: &str = "\
0 0=0 0
0 9=0 0
9 0=0 9
9 8=8 1
9 9=9 0
9 10=9 0
4096 4095=4095 1
4096 4096=4096 0
4096 4097=4096 0
10000 9999=9999 1
10000 10000=10000 0
10000 10001=10000 0
10000 18446744073709551615=10000 0";

#[test]
fn reads_to_the_end_or_the_limit(rt: HostRuntime) {
    for row in LIMITS.lines() {
        compare_limit(&rt, rt.alloc(), row);
    }
}

fn compare_limit(rt: &impl Abort, alloc: Global, row: &str) {
    let (sizes, want) = parted(rt, row, '=');
    let (len, limit) = parted(rt, sizes, ' ');
    let (read, left) = parted(rt, want, ' ');
    let input = counting(rt, alloc, size(rt, len));
    let given = read_within(rt, alloc, &input, size(rt, limit));
    same(rt, given, (size(rt, read), size(rt, left)), row);
}

fn size(rt: &impl Abort, word: &str) -> usize {
    word.parse().expect(rt, word)
}

// How many bytes of the input are read, and how many are left. They are the input's.
fn read_within(rt: &impl Abort, alloc: Global, input: &[u8], limit: usize) -> (usize, usize) {
    let mut source = MemSource::new(input.to_vec(alloc).expect(rt, "memory"), Vec::new(alloc));
    let mut bytes = read_all(alloc, &mut source, limit).expect(rt, "a part");
    let read = bytes.len();
    if read == limit {
        let rest = read_all(alloc, &mut source, usize::MAX).expect(rt, "the rest");
        bytes.extend_from_slice(&rest).expect(rt, "memory");
    }
    same(rt, bytes.as_slice(), input, "what is read");
    (read, bytes.len().saturating_sub(read))
}

#[test]
fn a_failed_read_ends_the_reading(rt: HostRuntime) {
    // The failing call, and the bytes that are left after it, of 10000.
    compare_left_behind(&rt, rt.alloc(), 1, 10_000);
    compare_left_behind(&rt, rt.alloc(), 3, 1_808);
    compare_left_behind(&rt, rt.alloc(), 4, 0);
}

// Compares how many bytes of 10000 are left behind the call that fails.
fn compare_left_behind(rt: &impl Abort, alloc: Global, failing: u64, want: usize) {
    let failing = [failing].to_vec(alloc).expect(rt, "memory");
    let mut source = MemSource::new(counting(rt, alloc, 10_000), failing);
    let Err(ReadEnd::Failed) = read_all(alloc, &mut source, usize::MAX) else {
        panic!(rt; "no failed read");
    };
    same(rt, source.read_faults(), 1, "faults");
    let rest = read_all(alloc, &mut source, usize::MAX).expect(rt, "the rest");
    same(rt, rest.len(), want, "what is left");
}

// A sink that takes one byte in each call, and fails at one of them.
#[derive(Drop)]
struct Drip {
    bytes: Vec<u8>,
    calls: u64,
    fails_at: u64,
    faults: u64,
}

impl Ends for Drip {
    ghost use Rattle.arc_io.specs.Seen.{untold};

    ghost seen = { λ d. record untold { write_faults = d.faults } };
}

impl Sink for Drip {
    fn write(&mut self, bytes: &[u8]) -> Result<usize, Failed> {
        self.calls = self.calls.saturating_add(1);
        let Some(first) = bytes.first() else {
            return Ok(0);
        };
        if self.calls == self.fails_at || self.bytes.push(*first).is_err() {
            self.faults = self.faults.saturating_add(1);
            return Err(Failed);
        }
        Ok(1)
    }

    fn write_faults(&self) -> u64 {
        self.faults
    }
}

#[test]
fn puts_all_byte_by_byte(rt: HostRuntime) {
    // The failing call, the answer, the bytes taken, and the calls made.
    compare_put(&rt, rt.alloc(), b"hello", 0, (Ok(()), b"hello", 5));
    compare_put(&rt, rt.alloc(), b"hello", 1, (Err(Failed), b"", 1));
    compare_put(&rt, rt.alloc(), b"hello", 5, (Err(Failed), b"hell", 5));
    compare_put(&rt, rt.alloc(), b"hello", 6, (Ok(()), b"hello", 5));
    // Without bytes there is no call.
    compare_put(&rt, rt.alloc(), b"", 1, (Ok(()), b"", 0));
}

fn compare_put(
    rt: &impl Abort,
    alloc: Global,
    bytes: &[u8],
    fails_at: u64,
    want: (Result<(), Failed>, &[u8], u64),
) {
    let mut sink = Drip {
        bytes: Vec::new(alloc),
        calls: 0,
        fails_at,
        faults: 0,
    };
    let answer = put(&mut sink, bytes);
    let taken = sink.bytes.as_slice();
    same(rt, (answer, taken, sink.calls), want, "a put");
}
