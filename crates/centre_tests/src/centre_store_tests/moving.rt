// Opening what the first version left: it is summed up in the second version in the other area, and stands as it stood, whatever stops that
// or fails in it.

use super::FRESH;
use super::schedules::report_of;
use super::stops::{FILLS, copied};
use super::summed::area_in_words;
use super::told::left_of;
use crate::same::same;
use arc_io::{Area, MemDisk};
use centre_store::Store;
use disk_journal::{Limits, OpenFault, SHIPPED};
use std::alloc::Global;
use std::process::Abort;
use test_fixtures::stores::opened;

// The areas of a disk.
#[derive(Drop)]
struct Areas {
    a: Vec<u8>,
    b: Vec<u8>,
}

fn disk_of(rt: &impl Abort, alloc: Global, areas: &Areas, failing: &[u64]) -> MemDisk {
    let a = copied(rt, alloc, &areas.a);
    let b = copied(rt, alloc, &areas.b);
    let failing = failing.to_vec(alloc).expect(rt, "memory");
    MemDisk::of(alloc, a, b, failing).expect(rt, "memory")
}

// An area in words, or one that an older program may have left beside the one that counts: of a few bytes, new, stopped within a turn, or no
// journal.
fn area_of(rt: &impl Abort, alloc: Global, words: &str) -> Vec<u8> {
    match words {
        "short" => copied(rt, alloc, b"XXXXXXXXXX"),
        "new" => copied(rt, alloc, b"ARC JOURNAL 0001\0"),
        "newer" => copied(rt, alloc, FRESH),
        "stopped" => copied(rt, alloc, b"ARC JOURNAL 0001\0\0\0\0\x97\x0b\0\0"),
        "gate" => copied(rt, alloc, b"ARC JOURNAL 0001\x01"),
        "foreign" => copied(rt, alloc, &[b'X'; 40]),
        _ => area_in_words(rt, alloc, words),
    }
}

// Both areas, and what stands behind an opening: the generation, how many bytes are used, and how many records. The summary of one alarm has
// 154 bytes, for its line is `v1`.
const AREAS: &str = "\
~asv,|1 176 0
~asv,short|1 176 0
~asv,new|1 176 0
~asv,newer|1 176 0
~asv,stopped|1 176 0
~asv,gate|1 176 0
~asv,foreign|1 176 0
~asv,asm|1 176 0
~as,|1 90 0
~1:s,~asv|2 176 0
~1:,~2:s|3 176 0
~4:s,~3:|5 176 0
~1:,~2*:|3 400 0
~10*:,~9:|11 400 0
1:,~2:|3 176 0
~2:,1:|3 176 0";

#[test]
fn stops_and_faults_within_an_opening(rt: HostRuntime) {
    for row in AREAS.lines() {
        compare_row(&rt, rt.alloc(), row);
    }
}

fn compare_row(rt: &impl Abort, alloc: Global, row: &str) {
    let (words, left) = row.split_once('|').expect(rt, "a row");
    let (a, b) = words.split_once(',').expect(rt, "both areas");
    let areas = Areas {
        a: area_of(rt, alloc, a),
        b: area_of(rt, alloc, b),
    };
    compare_opening(rt, alloc, row, &areas, left);
    drop(areas);
}

// What a store over a disk reports, and what it leaves.
fn told_of(rt: &impl Abort, alloc: Global, disk: MemDisk) -> String {
    let store = opened(alloc, disk, SHIPPED).expect(rt, "opened");
    let report = report_of(rt, alloc, store.centre());
    let left = left_of(rt, alloc, store.close());
    let report = std::str::from_utf8(&report).expect(rt, "a report");
    format!(in alloc; "{report}{left}").expect(rt, "memory")
}

// The report names no line but `v1`, and a second opening tells the same; so does one of what a stop or a fault leaves.
fn compare_opening(rt: &impl Abort, alloc: Global, row: &str, areas: &Areas, left: &str) {
    let told = told_of(rt, alloc, disk_of(rt, alloc, areas, &[]));
    same(rt, (row, told.ends_with(left)), (row, true), "what is left");
    same(rt, (row, told.contains("via l")), (row, false), "its lines");
    let disk = disk_of(rt, alloc, areas, &[]);
    let disk = opened(alloc, disk, SHIPPED).expect(rt, "opened").close();
    compare_kept(rt, row, areas, &disk);
    for call in 1..disk.calls().saturating_add(1) {
        compare_stops(rt, alloc, (row, told.as_str()), &disk, call);
        compare_fault(rt, alloc, (row, told.as_str()), areas, call);
    }
    let again = told_of(rt, alloc, disk);
    same(rt, (row, again.as_str()), (row, told.as_str()), "again");
}

// One area, that which counted, is as it was.
fn compare_kept(rt: &impl Abort, row: &str, areas: &Areas, disk: &MemDisk) {
    let same_a = disk.bytes(Area::A) == areas.a.as_slice();
    let same_b = disk.bytes(Area::B) == areas.b.as_slice();
    same(rt, (row, same_a != same_b), (row, true), "one is kept");
}

fn compare_stops(rt: &impl Abort, alloc: Global, want: (&str, &str), disk: &MemDisk, call: u64) {
    for fill in FILLS {
        assert!(rt; call > 0 && call <= disk.calls());
        let left = disk.stopped(alloc, call, fill).expect(rt, "memory");
        let (row, told) = want;
        let again = told_of(rt, alloc, left);
        same(rt, (row, call, again.as_str()), (row, call, told), "a stop");
    }
}

// The call fails, which is told, and what is left opens.
fn compare_fault(rt: &impl Abort, alloc: Global, want: (&str, &str), areas: &Areas, call: u64) {
    let (row, told) = want;
    match Store::open(alloc, disk_of(rt, alloc, areas, &[call]), SHIPPED) {
        Ok(_) => panic!(rt; "opened"),
        Err(refused) => {
            let fault = OpenFault::DiskFault { before: 0, now: 1 };
            same(rt, refused.fault, fault, "the fault");
            let again = told_of(rt, alloc, refused.disk);
            same(
                rt,
                (row, call, again.as_str()),
                (row, call, told),
                "a fault",
            );
        }
    }
}

// The report of the worked journal, whose messages named no line.
#[test]
fn a_report_of_what_the_first_version_left(rt: HostRuntime) {
    let alloc = rt.alloc();
    let areas = Areas {
        a: area_in_words(&rt, alloc, "~asv"),
        b: Vec::new(alloc),
    };
    let told = told_of(&rt, alloc, disk_of(&rt, alloc, &areas, &[]));
    drop(areas);
    let want = "recorded 3\nopen 1\n\
        incident 1 burglary 1234 code 131 opened 1000000000 signals 1 restored no holder none next note via v1\n\
        1 176 0";
    same(&rt, told.as_str(), want, "the report");
}

// What stands in area B then: the summary in the second version, of the first generation.
const MOVED: &[u8] = b"ARC JOURNAL 0002\
    \x01\0\0\0\x9a\x0b\0\0\0\0\0\0\0\x01\0\0\0\0\x3b\x9a\xca\0\0\0\0\0\0\0\0\x03\0\0\0\0\0\0\0\x01\
    \x01\0\0\0\0\x3b\x9a\xca\0\x01\0\0\0\x0daccount 1234\n\
    \0\0\0\x01\x041234\x01\0\0\0\0\x3b\x9a\xca\0\0\0\x01\0\0\0\0\x3b\x9a\xca\0\0\x010\0\x01\x02\0\x0b1131 01 001\
    \0\0\0\x01\0\0\0\0\0\0\0\x01\x041234\x05\x03131\x02v1\0\0\0\0\x3b\x9a\xca\0\0\0\0\0\0\0\0\x01\0\0\x01\x0a\0\0";

// The limits are not looked at, and a new area of the first version is none to move.
#[test]
fn moves_past_the_limits_and_no_new_area(rt: HostRuntime) {
    let alloc = rt.alloc();
    let none = Limits {
        bytes: 0,
        records: 0,
    };
    let areas = Areas {
        a: area_in_words(&rt, alloc, "~asv"),
        b: Vec::new(alloc),
    };
    let disk = disk_of(&rt, alloc, &areas, &[]);
    let disk = opened(alloc, disk, none).expect(&rt, "opened").close();
    same(
        &rt,
        disk.bytes(Area::A),
        areas.a.as_slice(),
        "the first area",
    );
    same(&rt, disk.bytes(Area::B), MOVED, "the second area");
    drop(disk);
    drop(areas);
    compare_new(&rt, alloc);
}

fn compare_new(rt: &impl Abort, alloc: Global) {
    let areas = Areas {
        a: copied(rt, alloc, b"ARC JOURNAL 0001\0"),
        b: Vec::new(alloc),
    };
    let disk = disk_of(rt, alloc, &areas, &[]);
    let disk = opened(alloc, disk, SHIPPED).expect(rt, "opened").close();
    same(rt, disk.bytes(Area::A), FRESH, "a new area");
    same(rt, disk.bytes(Area::B), b"", "the other");
    drop(disk);
    drop(areas);
}
