// What no clause says: that calls succeed, with worked bytes, and whatever a stop or a fault leaves opens again.
use crate::same::same;
use arc_io::{Area, Fill, MemDisk};
use disk_journal::{AppendFault, Bodies, Journal, Limits, OpenFault, SHIPPED};
use std::alloc::Global;
use std::process::Abort;
use std::test::Fail;

const LIMITS: Limits = Limits {
    bytes: 1_048_576,
    records: 3,
};

// An Adopt, a Start and a Message at the moment 1000000000.
const FIRST: &[u8] = b"\x01\0\0\0\0\x3b\x9a\xca\0\0\0\0\x0daccount 1234\n";

const SECOND: &[u8] = b"\x02\0\0\0\0\x3b\x9a\xca\0";

const THIRD: &[u8] =
    b"\x03\0\0\0\0\x3b\x9a\xca\0\x041234\0\x010\0\x01\x02\0\x0b1131 01 001\x04line";

const AREA: &[u8] = b"ARC JOURNAL 0002\
    \x01\0\0\0\x1a\x01\0\0\0\0\x3b\x9a\xca\0\0\0\0\x0daccount 1234\n\
    \x01\0\0\0\x09\x02\0\0\0\0\x3b\x9a\xca\0\
    \x01\0\0\0\x26\x03\0\0\0\0\x3b\x9a\xca\0\x041234\0\x010\0\x01\x02\0\x0b1131 01 001\x04line\0";

// Opens the journal of the disk and appends the three bodies, until a call fails. How many were appended, the fault of
// the call that failed, and the disk.
fn append_three(alloc: Global, disk: MemDisk) -> (usize, Option<OpenFault>, MemDisk) {
    let (mut journal, _) = match Journal::open(alloc, disk, LIMITS) {
        Ok(opened) => opened,
        Err(refused) => return (0, Some(refused.fault), refused.disk),
    };
    if journal.reserve(43).is_err() {
        return (0, Some(OpenFault::Memory), journal.close());
    }
    if let Err(fault) = journal.append(FIRST) {
        return (0, fault_of(fault), journal.close());
    }
    if let Err(fault) = journal.append(SECOND) {
        return (1, fault_of(fault), journal.close());
    }
    if let Err(fault) = journal.append(THIRD) {
        return (2, fault_of(fault), journal.close());
    }
    (3, None, journal.close())
}

fn fault_of(fault: AppendFault) -> Option<OpenFault> {
    match fault {
        AppendFault::DiskFault { before, now } => Some(OpenFault::DiskFault { before, now }),
        AppendFault::Full { .. } => None,
    }
}

// How many of the three bodies the disk's journal has, each in its place.
fn opened(alloc: Global, disk: MemDisk) -> Result<usize, Fail> {
    match Journal::open(alloc, disk, SHIPPED) {
        Ok((_, bodies)) => Ok(first_of_three(&bodies)),
        Err(_) => Err("not opened")?,
    }
}

fn first_of_three(bodies: &Bodies) -> usize {
    for (i, wanted) in [FIRST, SECOND, THIRD].iter().enumerate() {
        if i >= bodies.count() || bodies.at(i) != *wanted {
            return i;
        }
    }
    bodies.count()
}

// A disk with these bytes in area A.
fn disk_of(alloc: Global, bytes: &[u8]) -> Result<MemDisk, Fail> {
    let (a, b) = (bytes.to_vec(alloc)?, Vec::new(alloc));
    Ok(MemDisk::of(alloc, a, b, Vec::new(alloc))?)
}

#[test]
fn appends_byte_for_byte(rt: HostRuntime) -> Result<(), Fail> {
    let alloc = rt.alloc();
    let (count, _, disk) = append_three(alloc, MemDisk::new(alloc, Vec::new(alloc)));
    compare_area_of_three(&rt, count, &disk);
    // A sync and the length of each area, the first thirty bytes of the one that has so many, and all of its bytes in one read.
    let told = opening_of(alloc, disk)?;
    same(
        &rt,
        told.as_str(),
        "3 bodies of version 2, 105 bytes, 3 records, 24 calls",
        "an opening",
    );
    Ok(())
}

// Six calls for the opening of a new area, and four for each record.
fn compare_area_of_three(rt: &impl Abort, count: usize, disk: &MemDisk) {
    same(rt, (count, disk.calls()), (3, 18), "bodies, calls");
    same(rt, disk.bytes(Area::A), AREA, "area A");
    same(rt, disk.bytes(Area::B), b"".as_slice(), "area B");
}

// What an opening gives of the three bodies, and what the journal then says.
fn opening_of(alloc: Global, disk: MemDisk) -> Result<String, Fail> {
    let Ok((journal, bodies)) = Journal::open(alloc, disk, LIMITS) else {
        return Err("not opened")?;
    };
    let count = first_of_three(&bodies);
    let (version, used, records) = (journal.version(), journal.used(), journal.records());
    let calls = journal.disk().calls();
    Ok(format!(in alloc;
        "{count} bodies of version {version}, {used} bytes, {records} records, {calls} calls"
    )?)
}

// How many of the three records a stop within this call leaves, of the calls of `append_three` over an empty disk. The third and
// fourth call of an append leave the new one where its gate is 01.
fn left_by(call: u64, fill: Fill) -> usize {
    let Some(after_opening) = call.checked_sub(7) else {
        return 0;
    };
    let before = (after_opening / 4) as usize;
    let is_open = matches!(fill, Fill::New | Fill::Torn(1));
    if after_opening % 4 >= 2 && is_open {
        before + 1
    } else {
        before
    }
}

// How many of the three bodies the journal has after a stop within the call.
fn left_after(alloc: Global, disk: &MemDisk, call: u64, fill: Fill) -> Result<usize, Fail> {
    if call == 0 || call > disk.calls() {
        return Err("no such call")?;
    }
    opened(alloc, disk.stopped(alloc, call, fill)?)
}

#[test]
fn opens_what_a_stop_leaves(rt: HostRuntime) -> Result<(), Fail> {
    let alloc = rt.alloc();
    let (_, _, disk) = append_three(alloc, MemDisk::new(alloc, Vec::new(alloc)));
    for call in 1..19u64 {
        compare_stops(&rt, alloc, &disk, call)?;
    }
    Ok(())
}

// Stops within this call, by each fill.
fn compare_stops(rt: &impl Abort, alloc: Global, disk: &MemDisk, call: u64) -> Result<(), Fail> {
    for fill in [Fill::Old, Fill::New, Fill::Torn(1), Fill::Torn(0xff)] {
        let left = left_after(alloc, disk, call, fill)?;
        same(
            rt,
            (call, fill, left),
            (call, fill, left_by(call, fill)),
            "a stop within a call",
        );
    }
    Ok(())
}

#[test]
fn a_failing_call_is_told_and_leaves_whole_records(rt: HostRuntime) -> Result<(), Fail> {
    for call in 1..19u64 {
        compare_failing(&rt, rt.alloc(), call)?;
    }
    Ok(())
}

fn compare_failing(rt: &impl Abort, alloc: Global, call: u64) -> Result<(), Fail> {
    let disk = MemDisk::new(alloc, [call].to_vec(alloc)?);
    let (count, fault, disk) = append_three(alloc, disk);
    let Some(OpenFault::DiskFault { before: 0, now: 1 }) = fault else {
        return Err("another fault")?;
    };
    let appended = (call.saturating_sub(7) / 4) as usize;
    same(rt, (count, disk.calls()), (appended, call), "bodies, calls");
    // Where the last sync fails, its gate is written already.
    let left = appended + usize::from(call >= 10 && call % 4 == 2);
    same(
        rt,
        (call, opened(alloc, disk)?),
        (call, left),
        "bodies behind a failing call",
    );
    Ok(())
}

// What is opened of an area, the bodies with their version, by its text and what stands behind it in hexadecimal digits.
const AREAS: &str = "\
0 of 2;;
0 of 2;0123456789;
0 of 2;0123456789abcdef;
0 of 2;ARC JOURNAL 0001;00
0 of 2;ARC JOURNAL 0001;01
NotJournal { byte: 0 };XRC JOURNAL 0001;00 00
NotJournal { byte: 1 };AXC JOURNAL 0001;00 00
NotJournal { byte: 2 };ARX JOURNAL 0001;00 00
NotJournal { byte: 3 };ARCXJOURNAL 0001;00 00
NotJournal { byte: 4 };ARC XOURNAL 0001;00 00
NotJournal { byte: 5 };ARC JXURNAL 0001;00 00
NotJournal { byte: 6 };ARC JOXRNAL 0001;00 00
NotJournal { byte: 7 };ARC JOUXNAL 0001;00 00
NotJournal { byte: 8 };ARC JOURXAL 0001;00 00
NotJournal { byte: 9 };ARC JOURNXL 0001;00 00
NotJournal { byte: 10 };ARC JOURNAX 0001;00 00
NotJournal { byte: 11 };ARC JOURNALX0001;00 00
WrongVersion { found: [88, 48, 48, 49] };ARC JOURNAL X001;00 00
WrongVersion { found: [48, 88, 48, 49] };ARC JOURNAL 0X01;00 00
WrongVersion { found: [48, 48, 88, 49] };ARC JOURNAL 00X1;00 00
WrongVersion { found: [48, 48, 48, 88] };ARC JOURNAL 000X;00 00
WrongVersion { found: [48, 48, 48, 48] };ARC JOURNAL 0000;00 00
WrongVersion { found: [48, 48, 48, 51] };ARC JOURNAL 0003;00 00
WrongVersion { found: [48, 48, 49, 50] };ARC JOURNAL 0012;00 00
0 of 1;ARC JOURNAL 0001;00 01
0 of 1;ARC JOURNAL 0001;ff 00 00 00 01 78 00
Damaged { at: 16 };ARC JOURNAL 0001;01 00
Damaged { at: 16 };ARC JOURNAL 0001;01 00 00 00 01
Damaged { at: 16 };ARC JOURNAL 0001;01 00 00 00 00 00 00
Damaged { at: 16 };ARC JOURNAL 0001;01 00 40 00 61 78 00
Damaged { at: 16 };ARC JOURNAL 0001;01 ff 00 00 01 78 00
Damaged { at: 16 };ARC JOURNAL 0001;01 00 00 00 01 78
Damaged { at: 16 };ARC JOURNAL 0001;01 00 00 00 02 78 00
1 of 1;ARC JOURNAL 0001;01 00 00 00 02 78 79 00
1 of 1;ARC JOURNAL 0001;01 00 00 00 01 78 02 00 00
2 of 1;ARC JOURNAL 0001;01 00 00 00 01 78 01 00 00 00 01 79 00
0 of 2;ARC JOURNAL 0002;00 01
2 of 2;ARC JOURNAL 0002;01 00 00 00 01 78 01 00 00 00 01 79 00
Damaged { at: 16 };ARC JOURNAL 0002;01 00
Damaged { at: 22 };ARC JOURNAL 0001;01 00 00 00 01 78 01 00
Damaged { at: 22 };ARC JOURNAL 0001;01 00 00 00 01 78 01 00 00 00 01 79";

// The area that a row shows.
fn area_of(alloc: Global, text: &str, digits: &str) -> Result<Vec<u8>, Fail> {
    let mut area = text.as_bytes().to_vec(alloc)?;
    for pair in digits.split_whitespace() {
        area.push(u8::from_str_radix(pair, 16)?)?;
    }
    Ok(area)
}

// What an opening shows: how many bodies, and of which version, or the fault.
fn shown(alloc: Global, area: &[u8]) -> Result<String, Fail> {
    match Journal::open(alloc, disk_of(alloc, area)?, SHIPPED) {
        Ok((journal, bodies)) => Ok(format!(in alloc;
            "{} of {}",
            bodies.count(),
            journal.version()
        )?),
        Err(refused) => Ok(format!(in alloc; "{:?}", refused.fault)?),
    }
}

#[test]
fn opens_or_says_where_it_is_damaged(rt: HostRuntime) -> Result<(), Fail> {
    for row in AREAS.lines() {
        compare_area(&rt, rt.alloc(), row)?;
    }
    Ok(())
}

fn compare_area(rt: &impl Abort, alloc: Global, row: &str) -> Result<(), Fail> {
    let (want, rest) = row.split_once(';').ok_or("no row")?;
    let (text, digits) = rest.split_once(';').ok_or("no row")?;
    let area = area_of(alloc, text, digits)?;
    same(rt, shown(alloc, &area)?.as_str(), want, row);
    Ok(())
}

#[test]
fn a_short_area_is_begun_anew(rt: HostRuntime) -> Result<(), Fail> {
    let area = begun(rt.alloc(), b"0123456789")?;
    let wanted = b"ARC JOURNAL 0002\0".as_slice();
    same(&rt, area.as_slice(), wanted, "an area begun anew");
    Ok(())
}

// What area A has once it was opened as a new one.
fn begun(alloc: Global, area: &[u8]) -> Result<Vec<u8>, Fail> {
    let Ok((journal, _)) = Journal::open(alloc, disk_of(alloc, area)?, SHIPPED) else {
        return Err("not opened")?;
    };
    if journal.used() != 17 || journal.records() != 0 {
        return Err("no new journal")?;
    }
    Ok(journal.close().bytes(Area::A).to_vec(alloc)?)
}

// The limits of bytes and of records, and the answer to a fourth record of 6 bytes behind 105 bytes, and its calls.
const FULL: &str = "\
111 4=done, 4 calls
110 4=Full { used: 105, need: 6, records: 3 }, 0 calls
111 3=Full { used: 105, need: 6, records: 3 }, 0 calls
5 4=Full { used: 105, need: 6, records: 3 }, 0 calls
4294967295 18446744073709551615=done, 4 calls";

#[test]
fn is_full_at_its_limits(rt: HostRuntime) -> Result<(), Fail> {
    for row in FULL.lines() {
        compare_fourth(&rt, rt.alloc(), row)?;
    }
    Ok(())
}

fn compare_fourth(rt: &impl Abort, alloc: Global, row: &str) -> Result<(), Fail> {
    let (limits, want) = row.split_once('=').ok_or("no row")?;
    let (bytes, records) = limits.split_once(' ').ok_or("no row")?;
    let told = fourth(alloc, bytes.parse()?, records.parse()?)?;
    same(rt, told.as_str(), want, row);
    Ok(())
}

// The answer to a fourth record of 6 bytes, by these limits, and its calls.
fn fourth(alloc: Global, bytes: u32, records: u64) -> Result<String, Fail> {
    let limits = Limits {
        bytes: u64::from(bytes),
        records,
    };
    let Ok((mut journal, _)) = Journal::open(alloc, disk_of(alloc, AREA)?, limits) else {
        return Err("not opened")?;
    };
    journal.reserve(6)?;
    let before = journal.disk().calls();
    let answer = journal.append(b"x");
    let calls = journal.disk().calls().saturating_sub(before);
    match answer {
        Ok(()) => Ok(format!(in alloc; "done, {calls} calls")?),
        Err(fault) => Ok(format!(in alloc; "{fault:?}, {calls} calls")?),
    }
}

// So many letters.
fn letters(alloc: Global, count: usize) -> Result<Vec<u8>, Fail> {
    Ok(vec![in alloc; b'x'; count]?)
}

// A new journal's area, to which this body was appended.
fn appended(alloc: Global, body: &[u8]) -> Result<MemDisk, Fail> {
    if body.is_empty() || body.len() > 4_194_400 {
        return Err("no body")?;
    }
    let disk = MemDisk::new(alloc, Vec::new(alloc));
    let Ok((mut journal, _)) = Journal::open(alloc, disk, SHIPPED) else {
        return Err("not opened")?;
    };
    journal.reserve(5 + body.len() as u64)?;
    match journal.append(body) {
        Ok(()) => Ok(journal.close()),
        Err(_) => Err("not appended")?,
    }
}

#[test]
fn the_longest_body_goes_in_and_comes_back(rt: HostRuntime) -> Result<(), Fail> {
    for count in [1, 4_194_399, 4_194_400] {
        let longest = letters(rt.alloc(), count)?;
        let is_back = comes_back(rt.alloc(), &longest)?;
        same(&rt, (count, is_back), (count, true), "a long body");
    }
    Ok(())
}

// The body is the one that is opened after it was appended.
fn comes_back(alloc: Global, body: &[u8]) -> Result<bool, Fail> {
    let Ok((journal, bodies)) = Journal::open(alloc, appended(alloc, body)?, SHIPPED) else {
        return Err("not opened")?;
    };
    if bodies.count() != 1 || journal.used() != 22 + body.len() as u64 {
        return Err("another journal")?;
    }
    Ok(bodies.at(0) == body)
}

#[test]
fn a_body_of_one_byte_more_is_damage(rt: HostRuntime) -> Result<(), Fail> {
    let alloc = rt.alloc();
    let mut area = letters(alloc, 4_194_423)?;
    if area.len() < 21 {
        return Err("too short")?;
    }
    area[..21].copy_from_slice(b"ARC JOURNAL 0001\x01\0\x40\0\x60");
    let whole = shown(alloc, &area)?;
    same(&rt, whole.as_str(), "1 of 1", "the longest body");
    area[20] = b'\x61';
    let damaged = shown(alloc, &area)?;
    same(&rt, damaged.as_str(), "Damaged { at: 16 }", "one byte more");
    Ok(())
}

#[test]
fn bodies_keep_their_order(rt: HostRuntime) -> Result<(), Fail> {
    let mut bodies = Bodies::new(rt.alloc());
    bodies.push(b"one")?;
    bodies.push(b"")?;
    bodies.push_vec(b"three".to_vec(rt.alloc())?)?;
    if bodies.count() != 3 {
        return Err("three bodies")?;
    }
    same(&rt, bodies.at(0), b"one".as_slice(), "the first");
    same(&rt, bodies.at(2), b"three".as_slice(), "the third");
    Ok(())
}
