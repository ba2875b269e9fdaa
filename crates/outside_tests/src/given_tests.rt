// Areas of which reads give fewer bytes than their lengths say: each byte that is not given counts as 00.
use crate::rows::{halves, numbers};
use crate::same::same;
use arc_data::Blob;
use arc_io::WildDisk;
use disk_journal::{Bodies, Journal, SHIPPED};
use std::alloc::Global;
use std::process::Abort;

// A disk whose reads give these bytes, one after the other, and which says this length of both areas.
fn disk_of(rt: &impl Abort, alloc: Global, given: &[&[u8]], length: u64) -> WildDisk {
    let mut reads = Vec::new(alloc);
    for bytes in given {
        let copy = Blob::of(alloc, bytes).expect(rt, "memory");
        reads.push(copy).expect(rt, "memory");
    }
    let lengths = [length, length].to_vec(alloc).expect(rt, "memory");
    WildDisk::new(reads, lengths)
}

// The bodies that are opened, or why none are.
fn told(rt: &impl Abort, alloc: Global, disk: WildDisk) -> String {
    match Journal::open(alloc, disk, SHIPPED) {
        Ok((_, bodies)) => listed(rt, alloc, &bodies),
        Err(refused) => format!(in alloc; "{:?}", refused.fault).expect(rt, "memory"),
    }
}

fn listed(rt: &impl Abort, alloc: Global, bodies: &Bodies) -> String {
    let count = bodies.count();
    let first = if count > 0 { bodies.at(0) } else { &[] };
    let last = if count > 1 { bodies.at(1) } else { &[] };
    format!(in alloc; "{count}: {first:?} {last:?}").expect(rt, "memory")
}

// What stands behind the head in hexadecimal digits, the length that is said of both areas, how many bytes of the front each read gives, from
// this number to that, and what is opened.
const FRONTS: &str = "\
01 00 00 00 02 78 79 00;24;16 16;0: [] []
01 00 00 00 02 78 79 00;24;17 20;Damaged { at: 16 }
01 00 00 00 02 78 79 00;24;21 21;1: [0, 0] []
01 00 00 00 02 78 79 00;24;22 22;1: [120, 0] []
01 00 00 00 02 78 79 00;24;23 24;1: [120, 121] []
01 00 00 00 02 78 79 00;400;20 20;Damaged { at: 16 }
01 00 00 00 02 78 79 00;400;21 21;1: [0, 0] []
01 00 00 00 02 78 79 00;400;24 24;1: [120, 121] []
01 00 00 00 02 78 79 00;23;21 24;Damaged { at: 16 }
01 00 00 01 02 78 79 00;400;19 19;Damaged { at: 16 }
01 00 00 00 01 78 01 00 00 00 01 79 00;29;21 21;1: [0] []
01 00 00 00 01 78 01 00 00 00 01 79 00;29;22 22;1: [120] []
01 00 00 00 01 78 01 00 00 00 01 79 00;29;23 26;Damaged { at: 22 }
01 00 00 00 01 78 01 00 00 00 01 79 00;29;27 27;2: [120] [0]
01 00 00 00 01 78 01 00 00 00 01 79 00;29;28 29;2: [120] [121]
01 00 00 00 01 78 01 00 00 00 01 79 00;28;28 28;Damaged { at: 22 }
01 00 00 00 09 0b 00 00 00 00 00 00 00 05 00;31;21 21;1: [0, 0, 0, 0, 0, 0, 0, 0, 0] []
01 00 00 00 09 0b 00 00 00 00 00 00 00 05 00;31;22 29;1: [11, 0, 0, 0, 0, 0, 0, 0, 0] []
01 00 00 00 09 0b 00 00 00 00 00 00 00 05 00;31;30 31;1: [11, 0, 0, 0, 0, 0, 0, 0, 5] []";

#[test]
fn a_byte_that_no_read_gives_is_zero(rt: HostRuntime) {
    for row in FRONTS.lines() {
        compare_fronts(&rt, rt.alloc(), row);
    }
}

fn compare_fronts(rt: &impl Abort, alloc: Global, row: &str) {
    let (digits, rest) = halves(rt, row, ';');
    let (length, rest) = halves(rt, rest, ';');
    let (places, want) = halves(rt, rest, ';');
    let area = area_of(rt, alloc, digits);
    let places = numbers(rt, alloc, places);
    let length = length.parse().expect(rt, "a length");
    let first = places.first().copied().expect(rt, "a place");
    let last = places.last().copied().expect(rt, "a place");
    for count in first..=last {
        compare_front(rt, alloc, (&area, count), length, want);
    }
}

// The head, and these bytes.
fn area_of(rt: &impl Abort, alloc: Global, digits: &str) -> Vec<u8> {
    let mut area = b"ARC JOURNAL 0001".to_vec(alloc).expect(rt, "memory");
    for pair in digits.split_whitespace() {
        let byte = u8::from_str_radix(pair, 16).expect(rt, "a byte");
        area.push(byte).expect(rt, "memory");
    }
    area
}

// Of an area so many bytes are given by each read.
fn compare_front(rt: &impl Abort, alloc: Global, front: (&[u8], u64), length: u64, want: &str) {
    let (area, count) = front;
    let given = area.get(..count as usize).expect(rt, "a front");
    let disk = disk_of(rt, alloc, &[given, given, given], length);
    let told = told(rt, alloc, disk);
    same(rt, (count, told.as_str()), (count, want), "a front");
}

// A body that is longer than a piece is read in two. The first ends behind its byte x, the second behind its bytes abc; nothing of the first
// piece is left in the second.
#[test]
fn a_piece_that_ends_early_is_filled_up(rt: HostRuntime) {
    let alloc = rt.alloc();
    // 2,000,000 bytes, of which less than a piece is left behind the first, and 3,000,000, of which more is.
    let two = b"ARC JOURNAL 0001\x01\x00\x1e\x84\x80x";
    compare_pieces(&rt, alloc, &[b"", b"", two, b"abc"], 2_000_022);
    let three = b"ARC JOURNAL 0001\x01\x00\x2d\xc6\xc0x";
    compare_pieces(&rt, alloc, &[b"", b"", three, b"abc"], 3_000_022);
}

fn compare_pieces(rt: &impl Abort, alloc: Global, given: &[&[u8]], length: u64) {
    let disk = disk_of(rt, alloc, given, length);
    match Journal::open(alloc, disk, SHIPPED) {
        Ok((_, bodies)) => compare_one(rt, &bodies, length),
        Err(_) => same(rt, "refused", "opened", "an opening"),
    }
}

// There is one body.
fn compare_one(rt: &impl Abort, bodies: &Bodies, length: u64) {
    same(rt, bodies.count(), 1, "one body");
    if bodies.count() == 1 {
        compare_body(rt, bodies.at(0), length);
    }
}

// The body has its first byte, three behind the first piece of 1,048,576 bytes, which begins 21 bytes before it, and zeros.
fn compare_body(rt: &impl Abort, body: &[u8], length: u64) {
    same(rt, body.len() as u64, length.saturating_sub(22), "bytes");
    same(rt, body.first().copied(), Some(b'x'), "its first byte");
    let three = body.get(1_048_555..1_048_558);
    same(rt, three, Some(b"abc".as_slice()), "the second piece");
    let others = body.iter().filter(|byte| **byte != 0).count();
    same(rt, others, 4, "bytes that are not 00");
}
