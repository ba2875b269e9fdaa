// What no clause says: that a report is written, to the byte, and how it fails. Two panels fall silent, so that a Tick opens an
// incident of each.
use crate::rows::{holds, same, same_bytes};
use arc_data::Event;
use arc_io::{Failed, MemSink};
use arc_report::report;
use centre_core::{Centre, Hall, RamHall, Setup};
use std::alloc::{AllocError, Global};
use std::process::Abort;
use std::test::Fail;

const SETUP: &[u8] = b"account 1234 beat 60\naccount abc beat 60\nplan ABC commfail police\n";

const NOTHING: &[u8] = b"recorded 2
open 0
";

const TWO: &[u8] = b"recorded 3
open 2
incident 1 commfail 1234 code - opened 1000000061 signals 1 restored no holder none next note via -
incident 2 commfail ABC code - opened 1000000061 signals 1 restored no holder none next police via -
";

// A run that began at the moment 1000000000 is reported so after a Tick so many seconds later; and where one of so many calls of the sink
// fails, the report fails, and a front of it was written.
fn reports(
    rt: &impl Abort,
    alloc: Global,
    seconds: u64,
    want: &[u8],
    calls: u64,
) -> Result<(), Fail> {
    let setup = Setup::read(alloc, SETUP)?;
    let mut hall = RamHall::new(alloc, setup, 1_000_000_000)?;
    let clock = 1_000_000_000 + seconds.min(100);
    let ticked = hall.submit(alloc, Event::Tick, clock).is_ok();
    let centre = hall.into_centre();
    holds(rt, ticked, "memory for a Tick");
    let end = compare_report(rt, alloc, &centre, want, calls);
    drop(centre);
    Ok(end?)
}

fn compare_report(
    rt: &impl Abort,
    alloc: Global,
    centre: &Centre,
    want: &[u8],
    calls: u64,
) -> Result<(), AllocError> {
    let mut sink = MemSink::new(alloc, Vec::new(alloc));
    same(rt, &report(centre, &mut sink), &Ok(()), "a report");
    same_bytes(rt, sink.bytes(), want, "a report");
    drop(sink);
    for call in 1..=calls {
        compare_short(rt, alloc, centre, want, call)?;
    }
    Ok(())
}

fn compare_short(
    rt: &impl Abort,
    alloc: Global,
    centre: &Centre,
    want: &[u8],
    call: u64,
) -> Result<(), AllocError> {
    let failing = [call].to_vec(alloc)?;
    let mut sink = MemSink::new(alloc, failing);
    same(
        rt,
        &report(centre, &mut sink),
        &Err(Failed),
        "a sink that fails",
    );
    holds(rt, want.starts_with(sink.bytes()), "a front of it");
    drop(sink);
    Ok(())
}

#[test]
fn reports_are_written_or_fail(rt: HostRuntime) -> Result<(), Fail> {
    reports(&rt, rt.alloc(), 60, NOTHING, 0)?;
    reports(&rt, rt.alloc(), 61, TWO, 8)
}
