// Opening: new and worked areas, bodies that break the past, each at its place, and a disk that fails.

use super::{FRESH, failing_disk};
use crate::same::same;
use arc_io::{Area, MemDisk};
use centre_store::Store;
use disk_journal::{OpenFault, SHIPPED};
use std::alloc::Global;
use std::process::Abort;
use test_fixtures::stores::{opened, recorded};

fn disk_of(rt: &impl Abort, alloc: Global, bytes: &[u8]) -> MemDisk {
    let bytes = bytes.to_vec(alloc).expect(rt, "memory");
    let (b, failing) = (Vec::new(alloc), Vec::new(alloc));
    MemDisk::of(alloc, bytes, b, failing).expect(rt, "memory")
}

// What opening the area tells: how many entries are recorded, or why it was refused.
pub(super) fn told(rt: &impl Abort, alloc: Global, disk: MemDisk) -> String {
    match Store::open(alloc, disk, SHIPPED) {
        Ok(store) => {
            let count = store.centre().recorded();
            drop(store);
            format!(in alloc; "{count}").expect(rt, "memory")
        }
        Err(refused) => format!(in alloc; "{:?}", refused.fault).expect(rt, "memory"),
    }
}

#[test]
fn an_empty_area_is_begun(rt: HostRuntime) {
    let alloc = rt.alloc();
    let disk = closed(&rt, alloc, MemDisk::new(alloc, Vec::new(alloc)));
    same(&rt, disk.bytes(Area::A), FRESH, "the first area");
    same(&rt, disk.bytes(Area::B), b"", "the second area");
    drop(disk);
}

// The disk of a store that was opened and has no entry.
fn closed(rt: &impl Abort, alloc: Global, disk: MemDisk) -> MemDisk {
    let store = opened(alloc, disk, SHIPPED).expect(rt, "opened");
    same(rt, store.centre().recorded(), 0, "no entry");
    store.close()
}

/// Records, by a letter: the gate, the length, and the body.
pub(super) fn record_of(letter: char) -> &'static [u8] {
    match letter {
        // An Adopt and a Start.
        'a' => b"\x01\0\0\0\x1a\x01\0\0\0\0\x3b\x9a\xca\0\0\0\0\x0daccount 1234\n",
        's' => b"\x01\0\0\0\x09\x02\0\0\0\0\x3b\x9a\xca\0",
        // An Adopt of a setup with an operator.
        'o' => {
            b"\x01\0\0\0\x2c\x01\0\0\0\0\x3b\x9a\xca\0\0\0\0\x1faccount 1234\noperator ann 1234\n"
        }
        // A Message, and one without a line, as it is spelled in the first version.
        'm' => {
            b"\x01\0\0\0\x26\x03\0\0\0\0\x3b\x9a\xca\0\x041234\0\x010\0\x01\x02\0\x0b1131 01 001\x04line"
        }
        'v' => {
            b"\x01\0\0\0\x21\x03\0\0\0\0\x3b\x9a\xca\0\x041234\0\x010\0\x01\x02\0\x0b1131 01 001"
        }
        // Another Message.
        't' => {
            b"\x01\0\0\0\x26\x03\0\0\0\0\x3b\x9a\xca\0\x041234\0\x010\0\x02\x02\0\x0b1131 01 001\x04line"
        }
        // A Claim of incident 1, and one of incident 7.
        'c' => b"\x01\0\0\0\x15\x06\0\0\0\0\x3b\x9a\xca\0\x03ann\0\0\0\0\0\0\0\x01",
        'n' => b"\x01\0\0\0\x15\x06\0\0\0\0\x3b\x9a\xca\0\x03ann\0\0\0\0\0\0\0\x07",
        // A Start a second earlier.
        'e' => b"\x01\0\0\0\x09\x02\0\0\0\0\x3b\x9a\xc9\xff",
        // A Start with a byte behind it, and a question, which has no spelling.
        'x' => b"\x01\0\0\0\x0a\x02\0\0\0\0\x3b\x9a\xca\0\0",
        'q' => b"\x01\0\0\0\x09\x00\0\0\0\0\x3b\x9a\xca\0",
        // An open gate without a record.
        _ => b"\x01\0\0\0\0",
    }
}

// The records of an area, and what opening it tells.
const AREAS: &str = "\
;0
as;2
asm;3
osmc;4
es;2
x;Damaged { at: 16 }
q;Damaged { at: 16 }
asx;Damaged { at: 61 }
axm;Damaged { at: 47 }
axx;Damaged { at: 47 }
m;Damaged { at: 16 }
asv;Damaged { at: 61 }
asmm;Damaged { at: 104 }
asmms;Damaged { at: 104 }
osmn;Damaged { at: 122 }
osmnc;Damaged { at: 122 }
asmc;Damaged { at: 104 }
ase;Damaged { at: 61 }
asem;Damaged { at: 61 }
ax.;Damaged { at: 62 }
asmm.;Damaged { at: 147 }";

#[test]
fn a_body_that_breaks_the_past_is_damage_at_its_gate(rt: HostRuntime) {
    for row in AREAS.lines() {
        compare_area(&rt, rt.alloc(), row);
    }
}

fn compare_area(rt: &impl Abort, alloc: Global, row: &str) {
    let (letters, want) = row.split_once(';').expect(rt, "a row");
    let area = area_of(rt, alloc, letters);
    let told = told(rt, alloc, disk_of(rt, alloc, &area));
    same(rt, told.as_str(), want, row);
}

pub(super) fn append(rt: &impl Abort, area: &mut Vec<u8>, bytes: &[u8]) {
    area.extend_from_slice(bytes).expect(rt, "memory");
}

// An area that has these records and a closed gate.
pub(super) fn area_of(rt: &impl Abort, alloc: Global, letters: &str) -> Vec<u8> {
    area_behind(rt, alloc, b"ARC JOURNAL 0002", letters)
}

// The same behind this head.
pub(super) fn area_behind(rt: &impl Abort, alloc: Global, head: &[u8], letters: &str) -> Vec<u8> {
    let mut area = Vec::new(alloc);
    append(rt, &mut area, head);
    for letter in letters.chars() {
        append(rt, &mut area, record_of(letter));
    }
    append(rt, &mut area, b"\0\0");
    area
}

#[test]
fn a_disk_that_fails_comes_back_with_both_counts(rt: HostRuntime) {
    for call in 1..7u64 {
        compare_fault(&rt, rt.alloc(), call);
    }
}

// A call of the opening of a new area fails, and what is left opens.
fn compare_fault(rt: &impl Abort, alloc: Global, call: u64) {
    let disk = failing_disk(rt, alloc, call);
    match Store::open(alloc, disk, SHIPPED) {
        Ok(_) => panic!(rt; "opened"),
        Err(refused) => {
            let fault = OpenFault::DiskFault { before: 0, now: 1 };
            same(rt, refused.fault, fault, "the fault");
            same(rt, recorded(alloc, refused.disk), Some(0), "opened again");
        }
    }
}
