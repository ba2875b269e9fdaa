// Opening areas with summaries, of either version: which of both counts, where a body breaks the past behind one, summaries at the edges of
// their fields, and stores that are worn.

use super::opening::{append, area_behind, told};
use super::told::{left_of, play, summary_of};
use crate::centre_core_tests::decoding::{ROWS, bytes_of};
use crate::centre_core_tests::summaries::{ONE_BYTES, TWO_BYTES, joined};
use crate::same::same;
use arc_io::MemDisk;
use disk_journal::SHIPPED;
use std::alloc::Global;
use std::process::Abort;
use test_fixtures::stores::opened;

fn disk_of(rt: &impl Abort, alloc: Global, a: &[u8], b: &[u8]) -> MemDisk {
    let a = a.to_vec(alloc).expect(rt, "memory");
    let b = b.to_vec(alloc).expect(rt, "memory");
    MemDisk::of(alloc, a, b, Vec::new(alloc)).expect(rt, "memory")
}

// The same summaries in the first version, in which incidents have no line.
const FIRST_ONE_BYTES: &str = "\
0b 0000000000000001 000000003b9aca00 0000000000000003 0000000000000001
01 000000003b9aca00
01 0000000d 6163636f756e7420313233340a
00000001
04 31323334 01 000000003b9aca00 00 00 01
000000003b9aca00 00 01 30 0001 02 000b 3131333120303120303031
00000001
0000000000000001 04 31323334 05 03 313331 000000003b9aca00 0000000000000001 00 00 01 0a 00";

const FIRST_TWO_BYTES: &str = "\
0b 0000000000000009 000000003b9aca3d 0000000000000009 0000000000000003
01 000000003b9aca00
01 00000034 6163636f756e74203939393920626561742036300a6163636f756e7420313233340a6f70657261746f7220616e6e20313233340a
00000002
04 31323334 01 000000003b9aca1e 00 01 000000003b9aca1e 00 02
000000003b9aca05 00 01 30 0001 02 000b 3131333120303120303031
000000003b9aca1e 00 01 30 0002 02 000b 3134303120303020303031
04 39393939 01 000000003b9aca00 01 00 01
000000003b9aca00 00 01 30 0001 02 000b 3131333120303120303031
00000003
0000000000000001 04 39393939 05 03 313331 000000003b9aca00 0000000000000001 00 03 616e6e 000000003b9aca19
01 0a 01 0a 03 000000003b9aca19 03 616e6e
0000000000000002 04 31323334 05 03 313331 000000003b9aca05 0000000000000001 00 00 01 0a 00
0000000000000003 04 39393939 08 01 2d 000000003b9aca3d 0000000000000001 00 00 01 0a 00";

// A version: what its areas begin with, and its summaries of one alarm and of two accounts.
#[derive(Clone, Copy)]
struct Version {
    head: [u8; 16],
    one: &'static str,
    two: &'static str,
}

const FIRST: Version = Version {
    head: *b"ARC JOURNAL 0001",
    one: FIRST_ONE_BYTES,
    two: FIRST_TWO_BYTES,
};

const SECOND: Version = Version {
    head: *b"ARC JOURNAL 0002",
    one: ONE_BYTES,
    two: TWO_BYTES,
};

// An area with this summary, and records behind it.
fn behind(
    rt: &impl Abort,
    alloc: Global,
    version: Version,
    summary: &[u8],
    letters: &str,
) -> Vec<u8> {
    let mut area = Vec::new(alloc);
    append(rt, &mut area, &version.head);
    append(rt, &mut area, b"\x01");
    let length = u32::try_from(summary.len()).expect(rt, "four bytes");
    append(rt, &mut area, &length.to_be_bytes());
    append(rt, &mut area, summary);
    let records = area_behind(rt, alloc, b"", letters);
    append(rt, &mut area, &records);
    area
}

/// An area in words: nothing at all is an empty one, and letters are records. Behind `G:` they stand behind the summary of one alarm, of three
/// entries and 156 bytes, with the generation G, and behind `G*:` behind that of two accounts, of nine entries. Behind `~` all is of the first
/// version, in which the summary of one alarm has 151 bytes.
pub(super) fn area_in_words(rt: &impl Abort, alloc: Global, words: &str) -> Vec<u8> {
    match words.strip_prefix('~') {
        Some(words) => area_of_version(rt, alloc, FIRST, words),
        None => area_of_version(rt, alloc, SECOND, words),
    }
}

fn area_of_version(rt: &impl Abort, alloc: Global, version: Version, words: &str) -> Vec<u8> {
    match words.split_once(':') {
        Some((summary, letters)) => {
            let summary = summary_in_words(rt, alloc, version, summary);
            behind(rt, alloc, version, &summary, letters)
        }
        None => records_in_words(rt, alloc, version, words),
    }
}

fn records_in_words(rt: &impl Abort, alloc: Global, version: Version, letters: &str) -> Vec<u8> {
    if letters.is_empty() {
        return Vec::new(alloc);
    }
    area_behind(rt, alloc, &version.head, letters)
}

fn summary_in_words(rt: &impl Abort, alloc: Global, version: Version, words: &str) -> Vec<u8> {
    let (generation, rows) = match words.split_once('*') {
        Some((generation, _)) => (generation, version.two),
        None => (words, version.one),
    };
    let digits = joined(rt, alloc, rows);
    let mut summary = bytes_of(rt, alloc, &digits);
    let generation = generation.parse::<u8>().expect(rt, "a generation");
    if let Some(byte) = summary.get_mut(8) {
        *byte = generation;
    }
    summary
}

// Both areas, and what opening them tells: how many entries are recorded, or why it was refused. The live area of the greater generation
// counts, B of two that have the same, and A where none is live; the other one is not read.
const AREAS: &str = "\
1:,,3
,1:,3
2:,,3
,2:,3
asm,1:,3
as,1:,3
x,1:,3
ase,1:,3
1:,x,3
1:,asmm,3
1:,2*:,9
2*:,1:,9
2:,1*:,3
1*:,2:,3
2:,3*:,9
3*:,2:,9
4:,3*:,3
3*:,4:,3
1:,1*:,9
1*:,1:,3
4:,4*:,9
9*:,4:,9
10*:,1:,9
1:s,,4
,1:s,4
1:ss,,5
,1:so,5
1:s,2*:s,Damaged { at: 403 }
1*:,2:s,4
1:m,,Damaged { at: 177 }
1:v,,Damaged { at: 177 }
,1:m,Damaged { at: 177 }
,1:e,Damaged { at: 177 }
,1:x,Damaged { at: 177 }
,1:q,Damaged { at: 177 }
,1:c,Damaged { at: 177 }
,1:a,4
,1:aa,5
,1:o,4
,1:oc,5
,1:ocs,6
,1:on,Damaged { at: 226 }
,1:occ,Damaged { at: 252 }
,1:sm,Damaged { at: 191 }
,1:se,Damaged { at: 191 }
,1:sx,Damaged { at: 191 }
,1:ssm,Damaged { at: 205 }
,1:.,Damaged { at: 177 }
,1:s.,Damaged { at: 191 }
1:x,2*:,9
1:.,2*:,9
2:x,1*:,Damaged { at: 177 }
2:.,1*:,Damaged { at: 177 }
1*:,1:x,Damaged { at: 177 }
0:,,Damaged { at: 16 }
5:,,3
6:,,Damaged { at: 16 }
,0:,Damaged { at: 16 }
,6:s,Damaged { at: 16 }
6:,4*:,Damaged { at: 16 }
0:,4*:,9
0:,0*:,Damaged { at: 16 }
11*:,,9
12*:,,Damaged { at: 16 }
10*:,12*:,Damaged { at: 16 }
0:,1:,3
~asv,,3
~asv,1:,3
~asv,~1:,3
asm,~1:,3
~asm,,Damaged { at: 61 }
~1:,,3
,~1:,3
~1:s,,4
,~1:ss,5
~1:,2*:,9
~2*:,1:,9
1:,~2*:,9
2:,~1*:,3
~1:,1*:,9
1:,~1*:,9
~4:,,3
,~4:,3
~5:,,Damaged { at: 16 }
5:,~4*:,3
~4:,5*:,9
~0:,,Damaged { at: 16 }
~10*:,,9
~11*:,,Damaged { at: 16 }
~1:v,,Damaged { at: 172 }
~1:m,,Damaged { at: 172 }
~1:on,,Damaged { at: 221 }
~1:s.,,Damaged { at: 186 }
,~2*:s.,Damaged { at: 406 }";

#[test]
fn the_live_area_of_the_greater_generation_counts(rt: HostRuntime) {
    for row in AREAS.lines() {
        compare_areas(&rt, rt.alloc(), row);
    }
}

fn compare_areas(rt: &impl Abort, alloc: Global, row: &str) {
    let (a, rest) = row.split_once(',').expect(rt, "a row");
    let (b, want) = rest.split_once(',').expect(rt, "a row");
    let a = area_in_words(rt, alloc, a);
    let b = area_in_words(rt, alloc, b);
    let told = told(rt, alloc, disk_of(rt, alloc, &a, &b));
    same(rt, (row, told.as_str()), (row, want), "opened");
}

// Each summary at the edges of its fields alone in an area: where the bytes are no spelling the area is damaged at its first gate.
#[test]
fn areas_of_summaries_at_their_edges(rt: HostRuntime) {
    for row in ROWS.lines() {
        compare_row(&rt, rt.alloc(), row);
    }
}

fn compare_row(rt: &impl Abort, alloc: Global, row: &str) {
    let (what, rest) = row.split_once(';').expect(rt, "a row");
    let (generation, digits) = rest.split_once(';').expect(rt, "a row");
    let summary = bytes_of(rt, alloc, digits);
    let area = behind(rt, alloc, SECOND, &summary, "");
    let in_a = told(rt, alloc, disk_of(rt, alloc, &area, b""));
    let want = wanted(rt, alloc, generation, digits);
    same(
        rt,
        (what, in_a.as_str()),
        (what, want.as_str()),
        "in area A",
    );
    // An area whose first body is none of a summary counts in A alone.
    if digits.starts_with("0b") {
        let in_b = told(rt, alloc, disk_of(rt, alloc, b"", &area));
        same(
            rt,
            (what, in_b.as_str()),
            (what, want.as_str()),
            "in area B",
        );
    }
    if generation != "-" {
        compare_summary(rt, alloc, &area, generation, digits);
    }
}

// How many entries are recorded stands behind the tag, the generation and the last moment.
fn wanted(rt: &impl Abort, alloc: Global, generation: &str, digits: &str) -> String {
    if generation == "-" {
        return format!(in alloc; "Damaged {{ at: 16 }}").expect(rt, "memory");
    }
    let recorded = digits.get(34..50).expect(rt, "a number");
    let recorded = u64::from_str_radix(recorded, 16).expect(rt, "a number");
    format!(in alloc; "{recorded}").expect(rt, "memory")
}

// The centre that an area with a summary alone gives has that summary.
fn compare_summary(rt: &impl Abort, alloc: Global, area: &[u8], generation: &str, digits: &str) {
    let disk = disk_of(rt, alloc, area, b"");
    let store = opened(alloc, disk, SHIPPED).expect(rt, "opened");
    let mut summary = summary_of(rt, alloc, store.centre());
    drop(store);
    let generation = generation.parse::<u8>().expect(rt, "a generation");
    if let Some(byte) = summary.get_mut(8) {
        *byte = generation;
    }
    let want = bytes_of(rt, alloc, digits);
    same(rt, summary.as_slice(), want.as_slice(), "the summary");
}

// How many entries the summary of one alarm says, records behind it, and what opening the area tells or what a store over it is told.
const WORN: &str = "\
281474976710656||checkpoint=made;since=281474976710656;recorded=281474976710656;1=Worn { count: 281474976710656 };\
list=Worn { count: 281474976710656 };begin=Worn { count: 281474976710656 };begin other=Worn { count: 281474976710656 };\
checkpoint=made;recorded=281474976710656
281474976710655||since=281474976710655;2=7 taken;2=Worn { count: 281474976710656 };begin=Worn { count: 281474976710656 };\
since=281474976710655;checkpoint=made;since=281474976710656;recorded=281474976710656
281474976710655||1=7 repeat;2=Worn { count: 281474976710656 };recorded=281474976710655;checkpoint=made
281474976710655||begin=begun;begin=Worn { count: 281474976710656 };recorded=281474976710656
281474976710655||begin other=Worn { count: 281474976710656 };begin other=Worn { count: 281474976710656 };recorded=281474976710656
281474976710655|s|recorded=281474976710656;since=281474976710655;1=Worn { count: 281474976710656 }
281474976710656|s|Damaged { at: 177 }
281474976710655|ss|Damaged { at: 191 }";

#[test]
fn stores_that_are_worn(rt: HostRuntime) {
    for row in WORN.lines() {
        compare_worn(&rt, rt.alloc(), row);
    }
}

fn compare_worn(rt: &impl Abort, alloc: Global, row: &str) {
    let (count, rest) = row.split_once('|').expect(rt, "a row");
    let (letters, want) = rest.split_once('|').expect(rt, "a row");
    let count = count.parse::<u64>().expect(rt, "a count");
    let mut summary = summary_in_words(rt, alloc, SECOND, "1");
    for (byte, new) in summary.iter_mut().skip(17).zip(count.to_be_bytes()) {
        *byte = new;
    }
    let area = behind(rt, alloc, SECOND, &summary, letters);
    let disk = disk_of(rt, alloc, b"", &area);
    if want.contains('=') {
        drop(play(rt, alloc, disk, SHIPPED, want));
    } else {
        let told = told(rt, alloc, disk);
        same(rt, told.as_str(), want, row);
    }
}

// Both areas, what a store over them is told, and what it leaves: the generation, the bytes that are used, and the records. The next summary
// goes into the area that does not count, whichever that is. A run that begins over the summary of two accounts has a text of 39 bytes less in
// force, and takes the incident from its holder, which are 11. What was of the first version is summed up in the other area already, and has
// names of lines that are two bytes shorter.
const STORES: &str = "\
4:,|checkpoint=made;since=3;begin=begun;checkpoint=made;since=4;2=7 taken;checkpoint=made;since=5;recorded=5|6 205 0
3:,|begin=begun;checkpoint=made;recorded=4;since=4|4 178 0
,2:|begin=begun;checkpoint=made;begin=begun;checkpoint=made;recorded=5|4 178 0
1:,2:s|since=3;recorded=4;checkpoint=made;since=4;1=7 repeat;2=7 taken|3 221 1
1:,1*:|since=9;begin=begun;checkpoint=made;recorded=11;since=11|2 354 0
1*:,1:|since=3;begin=begun;checkpoint=made;recorded=4;since=4|2 178 0
asm,1:|since=3;2=7 taken;checkpoint=made;since=4|2 205 0
1:,x|since=3;2=7 taken;checkpoint=made;since=4|2 205 0
asm,x|since=0;2=7 taken;checkpoint=made;since=4|1 205 0
~asv,|since=3;recorded=3;checkpoint=made;1=7 repeat;2=7 taken|1 219 1
~asv,x|since=3;2=7 taken;checkpoint=made;since=4|2 203 0
~1:s,|since=4;recorded=4;checkpoint=made;1=7 repeat;2=7 taken|2 219 1
1:,~2:s|since=4;begin=begun;checkpoint=made;since=5|4 176 0
~4:,|since=3;checkpoint=made;recorded=3;since=3|5 176 0
~4:,|begin=begun;checkpoint=made;2=7 taken;checkpoint=made;since=5|7 203 0
~2*:,|since=9;recorded=9|3 400 0
,~2*:|since=9;begin=begun;checkpoint=made;since=11|4 350 0";

#[test]
fn stores_over_both_areas(rt: HostRuntime) {
    for row in STORES.lines() {
        compare_store(&rt, rt.alloc(), row);
    }
}

fn compare_store(rt: &impl Abort, alloc: Global, row: &str) {
    let (areas, rest) = row.split_once('|').expect(rt, "a row");
    let (parts, left) = rest.split_once('|').expect(rt, "a row");
    let (a, b) = areas.split_once(',').expect(rt, "both areas");
    let a = area_in_words(rt, alloc, a);
    let b = area_in_words(rt, alloc, b);
    let disk = disk_of(rt, alloc, &a, &b);
    let disk = play(rt, alloc, disk, SHIPPED, parts);
    let found = left_of(rt, alloc, disk);
    same(rt, (row, found.as_str()), (row, left), "what is left");
}
