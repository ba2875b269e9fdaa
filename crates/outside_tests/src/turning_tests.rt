// What no clause says of a turn: that it succeeds, with worked bytes, and that whatever a stop leaves of it opens again as before it, of
// either version, or as after it, of the second.
ghost use Rattle.std.specs.Prelude.{◌≡◌, ◌+◌, ◌<◌, ◌^◌, length, IfOk};
ghost use Rattle.disk_journal.specs.Turning.{IsNextTo};

use crate::same::same;
use arc_io::{Area, Fill, MemDisk};
use disk_journal::{Bodies, Journal, SHIPPED};
use std::alloc::Global;
use std::process::Abort;
use std::test::Fail;

const HEAD: &[u8] = b"ARC JOURNAL 0002";

const FIRST_HEAD: &[u8] = b"ARC JOURNAL 0001";

// What may stand in an area.
#[derive(Clone, Copy, Debug, PartialEq, Eq)]
enum Content {
    Empty,
    Record,
    First,
    Second,
    Stopped,
}

// A record of one byte, without a summary, of version 1.
const RECORD: &[u8] = b"ARC JOURNAL 0001\x01\0\0\0\x01\x05\0";

// A summary of generation 1, and a record behind it, of version 1.
const FIRST: &[u8] =
    b"ARC JOURNAL 0001\x01\0\0\0\x0a\x0b\0\0\0\0\0\0\0\x01\x09\x01\0\0\0\x01\x05\0";

// A summary of generation 2, and two records behind it, of version 2.
const SECOND: &[u8] =
    b"ARC JOURNAL 0002\x01\0\0\0\x0a\x0b\0\0\0\0\0\0\0\x02\x09\x01\0\0\0\x01\x06\x01\0\0\0\x02\x05\x06\0";

// What a stopped turn may have left behind a closed gate: four bytes 00, 0B and 200 bytes ff.
fn stopped_turn(alloc: Global) -> Result<Vec<u8>, Fail> {
    let mut area = HEAD.to_vec(alloc)?;
    area.extend_from_slice(b"\0\0\0\0\0\x0b")?;
    area.extend_from_slice(&[0xff; 200])?;
    Ok(area)
}

fn bytes_of(alloc: Global, content: Content) -> Result<Vec<u8>, Fail> {
    match content {
        Content::Empty => Ok(Vec::new(alloc)),
        Content::Record => Ok(RECORD.to_vec(alloc)?),
        Content::First => Ok(FIRST.to_vec(alloc)?),
        Content::Second => Ok(SECOND.to_vec(alloc)?),
        Content::Stopped => stopped_turn(alloc),
    }
}

// Areas A and B, the one that counts, and how many calls a turn then makes.
type State = (Content, Content, Area, u64);

// A turn takes the other area's length, closes the gate there, writes four times behind it, and opens it, with a sync behind each of these
// three. An open gate is read and written, a closed one is read alone, and an area that is too short for one is begun anew.
const STATES: [State; 9] = [
    (Content::Record, Content::Empty, Area::A, 10),
    (Content::Record, Content::Stopped, Area::A, 10),
    (Content::Record, Content::First, Area::B, 11),
    (Content::Second, Content::Empty, Area::A, 10),
    (Content::Second, Content::First, Area::A, 11),
    (Content::Second, Content::Stopped, Area::A, 10),
    (Content::Empty, Content::Second, Area::B, 10),
    (Content::First, Content::Second, Area::B, 11),
    (Content::Stopped, Content::Second, Area::B, 10),
];

fn disk_of(alloc: Global, a: Content, b: Content) -> Result<MemDisk, Fail> {
    let (a, b) = (bytes_of(alloc, a)?, bytes_of(alloc, b)?);
    Ok(MemDisk::of(alloc, a, b, Vec::new(alloc))?)
}

// What areas stand for: the generation of their summary, how many records, and the bytes of an area with this alone.
#[derive(Drop)]
struct Standing {
    generation: u64,
    records: u64,
    area: Vec<u8>,
}

fn standing_of(alloc: Global, content: Content) -> Result<Standing, Fail> {
    let (generation, records) = match content {
        Content::Record => (0, 1),
        Content::First => (1, 1),
        Content::Second => (2, 2),
        Content::Empty | Content::Stopped => (0, 0),
    };
    let area = bytes_of(alloc, content)?;
    Ok(Standing {
        generation,
        records,
        area,
    })
}

// The body of the summary behind this generation, with one byte of its own.
fn next_summary(alloc: Global, generation: u64) -> Result<Vec<u8>, Fail>
    requires { generation + 1 < 2 ^ 64 }
    ensures next { IfOk result (λ body. IsNextTo generation body.items) }
    ensures size { IfOk result (λ body. length body.items ≡ 10) }
{
    let number = (generation + 1).to_be_bytes();
    Ok(vec![in alloc;
        11, number[0], number[1], number[2], number[3], number[4], number[5], number[6], number[7],
        7,
    ]?)
}

// What the areas stand for behind a turn.
fn standing_next(alloc: Global, generation: u64) -> Result<Standing, Fail> {
    let Some(next) = generation.checked_add(1) else {
        return Err("too many turns")?;
    };
    let mut area = HEAD.to_vec(alloc)?;
    put_body(&mut area, &next_summary(alloc, generation)?)?;
    area.push(0)?;
    Ok(Standing {
        generation: next,
        records: 0,
        area,
    })
}

// An open gate, the length and the bytes of a body.
fn put_body(area: &mut Vec<u8>, body: &[u8]) -> Result<(), Fail> {
    let length = u32::try_from(body.len())?;
    area.push(1)?;
    area.extend_from_slice(&length.to_be_bytes())?;
    area.extend_from_slice(body)?;
    Ok(())
}

// What an opening gives.
fn opened(alloc: Global, disk: MemDisk) -> Result<Standing, Fail> {
    let Ok((journal, bodies)) = Journal::open(alloc, disk, SHIPPED) else {
        return Err("not opened")?;
    };
    let head = if journal.version() == 1 {
        FIRST_HEAD
    } else {
        HEAD
    };
    let area = area_with(alloc, head, &bodies)?;
    if journal.used() != area.len() as u64 {
        return Err("other bytes are used")?;
    }
    Ok(Standing {
        generation: journal.generation(),
        records: journal.records(),
        area,
    })
}

fn area_with(alloc: Global, head: &[u8], bodies: &Bodies) -> Result<Vec<u8>, Fail> {
    let mut area = head.to_vec(alloc)?;
    for i in 0..bodies.count() {
        put_body(&mut area, bodies.at(i))?;
    }
    area.push(0)?;
    Ok(area)
}

// The disk after a turn, and the number of the call before it.
fn turned(alloc: Global, disk: MemDisk) -> Result<(MemDisk, u64), Fail> {
    let Ok((mut journal, _)) = Journal::open(alloc, disk, SHIPPED) else {
        return Err("not opened")?;
    };
    let first = journal.disk().calls();
    let generation = journal.generation();
    if generation >= 1 << 40 {
        return Err("too many turns")?;
    }
    let body = next_summary(alloc, generation)?;
    match journal.turn(&body) {
        Ok(()) => Ok((journal.close(), first)),
        Err(_) => Err("not turned")?,
    }
}

#[test]
fn a_turn_goes_to_the_other_area(rt: HostRuntime) -> Result<(), Fail> {
    let alloc = rt.alloc();
    let disk = disk_of(alloc, Content::Record, Content::Empty)?;
    let (disk, _) = turned(alloc, disk)?;
    same(&rt, disk.bytes(Area::A), RECORD, "area A");
    let wanted = b"ARC JOURNAL 0002\x01\0\0\0\x0a\x0b\0\0\0\0\0\0\0\x01\x07\0".as_slice();
    same(&rt, disk.bytes(Area::B), wanted, "area B");
    Ok(())
}

#[test]
fn opens_what_a_stop_leaves_of_a_turn(rt: HostRuntime) -> Result<(), Fail> {
    for state in &STATES {
        compare_state(&rt, rt.alloc(), state)?;
    }
    Ok(())
}

// Stops within each call of a turn.
fn compare_state(rt: &impl Abort, alloc: Global, state: &State) -> Result<(), Fail> {
    let (a, b, counts, calls) = *state;
    let before = standing_of(alloc, if counts == Area::A { a } else { b })?;
    let after = standing_next(alloc, before.generation)?;
    let (disk, first) = turned(alloc, disk_of(alloc, a, b)?)?;
    let last = disk.calls();
    same(
        rt,
        (a, b, last),
        (a, b, first.saturating_add(calls)),
        "a turn's calls",
    );
    for call in first.saturating_add(1)..=last {
        // From the write of 01 at place 16 on, the second last call, the gate may be open.
        let may_open = call.saturating_add(2) > last;
        let open = if may_open { &after } else { &before };
        compare_stops(rt, alloc, &disk, call, &before, open)?;
    }
    Ok(())
}

// Stops within this call, by each fill. The gate is open where all that was written counts, or each of its bytes is 01.
fn compare_stops(
    rt: &impl Abort,
    alloc: Global,
    disk: &MemDisk,
    call: u64,
    closed: &Standing,
    open: &Standing,
) -> Result<(), Fail> {
    compare_stop(rt, alloc, disk, (call, Fill::Old), closed)?;
    compare_stop(rt, alloc, disk, (call, Fill::New), open)?;
    for byte in 0..=255u8 {
        let wanted = if byte == 1 { open } else { closed };
        compare_stop(rt, alloc, disk, (call, Fill::Torn(byte)), wanted)?;
    }
    Ok(())
}

fn compare_stop(
    rt: &impl Abort,
    alloc: Global,
    disk: &MemDisk,
    stop: (u64, Fill),
    wanted: &Standing,
) -> Result<(), Fail> {
    let (call, fill) = stop;
    if call == 0 || call > disk.calls() {
        return Err("no such call")?;
    }
    let left = opened(alloc, disk.stopped(alloc, call, fill)?)?;
    let (generation, records) = (wanted.generation, wanted.records);
    same(
        rt,
        (stop, left.generation, left.records),
        (stop, generation, records),
        "a generation and records",
    );
    same(
        rt,
        (stop, left.area.as_slice()),
        (stop, wanted.area.as_slice()),
        "what stands",
    );
    Ok(())
}
