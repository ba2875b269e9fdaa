// What a station does, over journals so short that checkpoints are made often: each reply, and behind each event the centre, are those of one
// centre in memory that is told the same; and so is what a crash leaves, of the events that it leaves.
ghost use Rattle.std.specs.Prelude.{◌<◌, ◌^◌};

use super::new_store;
use super::stops::{Both, both_of, disk_of};
use super::told::{has_begun, left_of, summary_of};
use crate::centre_core_tests::words::{event_of, setup_of, submitted_of};
use crate::same::same;
use arc_io::{Fill, MemDisk, MemSink};
use arc_report::report;
use centre_core::{Centre, Done, Setup};
use centre_store::{Store, law_restarts_stand, law_runs_leave};
use disk_journal::Limits;
use std::alloc::Global;
use std::process::Abort;
use test_fixtures::moments::BEGIN;
use test_fixtures::stores::opened;

// Steps, each a moment in seconds from the beginning of the first run, and a run that begins with a setup or an event in words.
const SCHEDULES: &str = "\
0 begin two;0 message other;1 message;5 beat;20 claim;20 list;25 note;30 opening;61 tick;62 message;63 next;64 close;65 next;66 release;\
67 tick;70 begin beat;100 beat;101 show;161 tick;162 next;320 message;330 begin two;331 message other;400 tick;401 close;402 list
0 begin plain;0 message;0 message;1 next;2 begin plain;3 note;4 begin other;5 message;6 close;7 begin plain;8 claim;9 release;10 claim;\
11 close;12 message;313 message;314 next;315 tick;200 message other;316 opening;5000 tick;5001 begin plain;\
5002 begin other;5003 begin plain;5004 message;5305 message;5606 message
0 begin one;1 message;2 opening;3 begin two;3 message other;63 tick;64 tick;65 claim;66 begin beat;67 release;68 begin two;69 beat;130 tick;\
131 next;132 next;133 note;134 release;135 claim;136 note;137 close;138 show;139 list;140 begin one;141 begin one";

// How many bytes and records a journal has room for.
const LIMITS: [(u32, u64); 6] = [
    (99_999, 1),
    (99_999, 2),
    (99_999, 3),
    (99_999, 5),
    (99_999, 99),
    (590, 99),
];

fn limits_of(room: (u32, u64)) -> Limits
    ensures { result.bytes < 2 ^ 32 }
{
    Limits {
        bytes: u64::from(room.0),
        records: room.1,
    }
}

// The moment of a step, and its words.
fn step_of<'a>(rt: &impl Abort, step: &'a str) -> (u64, &'a str) {
    let (seconds, words) = step.split_once(' ').expect(rt, "a step");
    let seconds = seconds.parse::<u32>().expect(rt, "seconds");
    (BEGIN.saturating_add(u64::from(seconds)), words)
}

fn named(rt: &impl Abort, alloc: Global, done: &Done) -> String {
    let (at, reply) = (done.at, &done.reply);
    format!(in alloc; "{at} {reply:?}").expect(rt, "memory")
}

fn begun(rt: &impl Abort, alloc: Global) -> String {
    format!(in alloc; "begun").expect(rt, "memory")
}

// What a store says to a step. No step stops.
fn tell_store(rt: &impl Abort, alloc: Global, store: &mut Store<MemDisk>, step: &str) -> String {
    let (clock, words) = step_of(rt, step);
    assert!(rt; clock < 253_402_300_800);
    match words.strip_prefix("begin ") {
        Some(setup) => {
            let setup = Setup::read(alloc, setup_of(rt, setup)).expect(rt, "a setup");
            store.begin(alloc, setup, clock).expect(rt, step);
            begun(rt, alloc)
        }
        None => {
            assert!(rt; has_begun(store), "not begun");
            let event = submitted_of(rt, alloc, words);
            let done = store.submit(alloc, 0, event, clock).expect(rt, step);
            named(rt, alloc, &done)
        }
    }
}

// What a centre in memory says to an event.
fn tell_centre(
    rt: &impl Abort,
    alloc: Global,
    centre: &mut Centre,
    word: &str,
    clock: u64,
) -> String {
    assert!(rt; clock < 253_402_300_800 && centre.entries() < 1 << 48);
    let event = event_of(rt, alloc, word);
    let ready = centre.prepare(alloc, event, clock).expect(rt, "memory");
    let done = centre.apply(ready);
    named(rt, alloc, &done)
}

// The centre as it is, and as it is behind each event of a step: a run that begins is a Start, and an Adopt before it where another setup is
// in force. What is said to the last event, too.
fn centres_of(rt: &impl Abort, alloc: Global, ideal: Centre, step: &str) -> (Vec<Centre>, String) {
    let (clock, words) = step_of(rt, step);
    let mut centres = Vec::new(alloc);
    centres.push(ideal).expect(rt, "memory");
    match words.strip_prefix("begin ") {
        Some(setup) => {
            if !is_in_force(rt, alloc, &centres, setup) {
                let word = format!(in alloc; "adopt {setup}").expect(rt, "memory");
                let _ = add_told(rt, alloc, &mut centres, &word, clock);
            }
            let _ = add_told(rt, alloc, &mut centres, "start", clock);
            (centres, begun(rt, alloc))
        }
        None => {
            let told = add_told(rt, alloc, &mut centres, words, clock);
            (centres, told)
        }
    }
}

fn is_in_force(rt: &impl Abort, alloc: Global, centres: &[Centre], word: &str) -> bool {
    let setup = Setup::read(alloc, setup_of(rt, word)).expect(rt, "a setup");
    let centre = centres.last().expect(rt, "a centre");
    match centre.setup() {
        Some(other) => other.text() == setup.text(),
        None => false,
    }
}

// A copy of the last centre, which is told the event.
fn add_told(
    rt: &impl Abort,
    alloc: Global,
    centres: &mut Vec<Centre>,
    word: &str,
    clock: u64,
) -> String {
    let mut centre = last_of(rt, alloc, centres);
    let told = tell_centre(rt, alloc, &mut centre, word, clock);
    centres.push(centre).expect(rt, "memory");
    told
}

fn last_of(rt: &impl Abort, alloc: Global, centres: &[Centre]) -> Centre {
    let last = centres.last().expect(rt, "a centre");
    last.copy(alloc).expect(rt, "memory")
}

pub(super) fn report_of(rt: &impl Abort, alloc: Global, centre: &Centre) -> Vec<u8> {
    let mut sink = MemSink::new(alloc, Vec::new(alloc));
    let written = report(centre, &mut sink);
    same(rt, written.is_ok(), true, "a report");
    let bytes = sink.bytes().to_vec(alloc).expect(rt, "memory");
    drop(sink);
    bytes
}

// Two centres have the same counts, summaries and reports.
fn compare_centres(rt: &impl Abort, alloc: Global, found: &Centre, ideal: &Centre, what: &str) {
    let counts = (
        found.recorded(),
        found.table().opened(),
        found.table().count(),
    );
    let wanted = (
        ideal.recorded(),
        ideal.table().opened(),
        ideal.table().count(),
    );
    same(rt, (what, counts), (what, wanted), "counts");
    let summary = summary_of(rt, alloc, found);
    let wanted = summary_of(rt, alloc, ideal);
    same(
        rt,
        (what, summary.as_slice()),
        (what, wanted.as_slice()),
        "the summary",
    );
    let lines = report_of(rt, alloc, found);
    let wanted = report_of(rt, alloc, ideal);
    same(
        rt,
        (what, lines.as_slice()),
        (what, wanted.as_slice()),
        "the report",
    );
}

#[test]
fn a_store_that_is_summed_up_often_answers_as_a_centre_in_memory(rt: HostRuntime) {
    for room in LIMITS {
        compare_schedules(&rt, rt.alloc(), room);
    }
}

fn compare_schedules(rt: &impl Abort, alloc: Global, room: (u32, u64)) {
    for schedule in SCHEDULES.lines() {
        compare_schedule(rt, alloc, schedule, room);
    }
}

fn compare_schedule(rt: &impl Abort, alloc: Global, schedule: &str, room: (u32, u64)) {
    let mut store = new_store(rt, alloc, limits_of(room));
    let mut ideal = Centre::empty(alloc);
    for step in schedule.split(';') {
        ideal = compare_step(rt, alloc, &mut store, ideal, step);
    }
    let both = both_of_store(rt, alloc, store);
    compare_turns(rt, alloc, &both, &ideal, room);
    let disk = disk_of(rt, alloc, &both, &[]);
    let again = opened(alloc, disk, limits_of(room)).expect(rt, "opened");
    compare_centres(rt, alloc, again.centre(), &ideal, "opened again");
    drop(again);
    drop(ideal);
}

fn both_of_store(rt: &impl Abort, alloc: Global, store: Store<MemDisk>) -> Both {
    let disk = store.close();
    let both = both_of(rt, alloc, &disk);
    drop(disk);
    both
}

// What both say to the step, and how they stand behind it.
fn compare_step(
    rt: &impl Abort,
    alloc: Global,
    store: &mut Store<MemDisk>,
    ideal: Centre,
    step: &str,
) -> Centre {
    let (centres, wanted) = centres_of(rt, alloc, ideal, step);
    let told = tell_store(rt, alloc, store, step);
    same(rt, (step, told.as_str()), (step, wanted.as_str()), "told");
    let ideal = last_of(rt, alloc, &centres);
    drop(centres);
    compare_centres(rt, alloc, store.centre(), &ideal, step);
    ideal
}

// Where there is room for any bytes, a checkpoint is made before a record where there are as many records as there is room for.
fn compare_turns(rt: &impl Abort, alloc: Global, both: &Both, ideal: &Centre, room: (u32, u64)) {
    let (bytes, records) = room;
    let left = left_of(rt, alloc, disk_of(rt, alloc, both, &[]));
    let (generation, _) = left.split_once(' ').expect(rt, "what is left");
    let generation = generation.parse::<u64>().expect(rt, "a generation");
    let turns = ideal.recorded().saturating_sub(1).checked_div(records);
    let turns = turns.expect(rt, "some records");
    if bytes == 99_999 {
        same(rt, (room, generation), (room, turns), "checkpoints");
    } else {
        same(rt, generation > 0, true, "a checkpoint");
    }
}

// How far a schedule has come: the areas, the centre in memory that is told what stands there, and the words of the last run that began.
#[derive(Drop)]
struct Walk<'a> {
    both: Both,
    ideal: Centre,
    run: &'a str,
}

#[test]
fn a_crash_where_each_record_makes_a_checkpoint(rt: HostRuntime) {
    go_through_all(&rt, rt.alloc(), (99_999, 1));
}

#[test]
fn a_crash_where_every_second_record_makes_a_checkpoint(rt: HostRuntime) {
    go_through_all(&rt, rt.alloc(), (99_999, 2));
}

#[test]
fn a_crash_where_bytes_make_checkpoints(rt: HostRuntime) {
    go_through_all(&rt, rt.alloc(), (590, 99));
}

#[test]
fn the_laws_of_restarts_are_of_any_disk() {
    law_restarts_stand::<MemDisk>();
    law_runs_leave::<MemDisk>();
}

fn go_through_all(rt: &impl Abort, alloc: Global, room: (u32, u64)) {
    for schedule in SCHEDULES.lines() {
        go_through(rt, alloc, schedule, room);
    }
}

// Goes through a schedule. Behind some of its steps the store goes on from what a crash within the step has left.
fn go_through(rt: &impl Abort, alloc: Global, schedule: &str, room: (u32, u64)) {
    let disk = MemDisk::new(alloc, Vec::new(alloc));
    let mut walked = Walk {
        both: both_of(rt, alloc, &disk),
        ideal: Centre::empty(alloc),
        run: "",
    };
    drop(disk);
    for (place, step) in schedule.split(';').enumerate() {
        walked = go_on(rt, alloc, walked, (place as u64, step), room);
    }
    drop(walked);
}

fn go_on<'a>(
    rt: &impl Abort,
    alloc: Global,
    walked: Walk<'a>,
    step: (u64, &'a str),
    room: (u32, u64),
) -> Walk<'a> {
    let (place, step) = step;
    let Walk { both, ideal, run } = walked;
    let (_, words) = step_of(rt, step);
    let run = if words.starts_with("begin ") {
        words
    } else {
        run
    };
    let (centres, wanted) = centres_of(rt, alloc, ideal, step);
    let (disk, first, told) = told_over(rt, alloc, &both, step, room);
    drop(both);
    same(rt, (step, told.as_str()), (step, wanted.as_str()), "told");
    compare_images(rt, alloc, &disk, first, &centres, step);
    let made = disk.calls().saturating_sub(first).saturating_add(1);
    let call = place
        .saturating_mul(5)
        .saturating_add(room.1)
        .checked_rem(made);
    let (both, ideal) = match call {
        None | Some(0) => (both_of(rt, alloc, &disk), last_of(rt, alloc, &centres)),
        Some(call) => {
            let number = first.saturating_add(call);
            let (both, ideal) = crashed(rt, alloc, &disk, (number, fill_of(place)), &centres);
            begun_again(rt, alloc, both, ideal, (step, run), room)
        }
    };
    drop(disk);
    drop(centres);
    Walk { both, ideal, run }
}

fn fill_of(place: u64) -> Fill {
    match place & 3 {
        0 => Fill::Old,
        1 => Fill::New,
        2 => Fill::Torn(1),
        _ => Fill::Torn(0xff),
    }
}

// The disk behind a step over a store of these areas, how many calls opening it took, and what is told.
fn told_over(
    rt: &impl Abort,
    alloc: Global,
    both: &Both,
    step: &str,
    room: (u32, u64),
) -> (MemDisk, u64, String) {
    let disk = disk_of(rt, alloc, both, &[]);
    let disk = opened(alloc, disk, limits_of(room))
        .expect(rt, "opened")
        .close();
    let first = disk.calls();
    drop(disk);
    let disk = disk_of(rt, alloc, both, &[]);
    let mut store = opened(alloc, disk, limits_of(room)).expect(rt, "opened");
    let told = tell_store(rt, alloc, &mut store, step);
    (store.close(), first, told)
}

// Each image that a stop within a call of the step leaves.
fn compare_images(
    rt: &impl Abort,
    alloc: Global,
    disk: &MemDisk,
    first: u64,
    centres: &[Centre],
    step: &str,
) {
    for call in first.saturating_add(1)..disk.calls().saturating_add(1) {
        compare_fills(rt, alloc, disk, call, centres, step);
    }
}

fn compare_fills(
    rt: &impl Abort,
    alloc: Global,
    disk: &MemDisk,
    call: u64,
    centres: &[Centre],
    step: &str,
) {
    for place in 0..4u64 {
        let left = stopped(rt, alloc, disk, (call, fill_of(place)));
        let store = opened(alloc, left, limits_of(LIMITS[0])).expect(rt, step);
        let ideal = centre_of(rt, store.centre().recorded(), centres);
        compare_centres(rt, alloc, store.centre(), ideal, step);
        drop(store);
    }
}

// What a stop leaves.
fn stopped(rt: &impl Abort, alloc: Global, disk: &MemDisk, stop: (u64, Fill)) -> MemDisk {
    let (call, fill) = stop;
    assert!(rt; call > 0 && call <= disk.calls());
    disk.stopped(alloc, call, fill).expect(rt, "memory")
}

// The last centre of so many recorded entries.
fn centre_of<'a>(rt: &impl Abort, count: u64, centres: &'a [Centre]) -> &'a Centre {
    let mut found = None;
    for centre in centres {
        if centre.recorded() == count {
            found = Some(centre);
        }
    }
    found.expect(rt, "as many entries")
}

// The areas that a stop leaves, and the centre of what stands there.
fn crashed(
    rt: &impl Abort,
    alloc: Global,
    disk: &MemDisk,
    stop: (u64, Fill),
    centres: &[Centre],
) -> (Both, Centre) {
    let left = stopped(rt, alloc, disk, stop);
    let both = both_of(rt, alloc, &left);
    let store = opened(alloc, left, limits_of(LIMITS[0])).expect(rt, "opened");
    let ideal = centre_of(rt, store.centre().recorded(), centres);
    let ideal = ideal.copy(alloc).expect(rt, "memory");
    drop(store);
    (both, ideal)
}

// The run begins again, at the moment of the step.
fn begun_again(
    rt: &impl Abort,
    alloc: Global,
    both: Both,
    ideal: Centre,
    step: (&str, &str),
    room: (u32, u64),
) -> (Both, Centre) {
    let (seconds, _) = step.0.split_once(' ').expect(rt, "a step");
    let run = step.1;
    let step = format!(in alloc; "{seconds} {run}").expect(rt, "memory");
    let (centres, wanted) = centres_of(rt, alloc, ideal, &step);
    let (disk, _, told) = told_over(rt, alloc, &both, &step, room);
    drop(both);
    same(
        rt,
        (step.as_str(), told.as_str()),
        (step.as_str(), wanted.as_str()),
        "told",
    );
    let ideal = last_of(rt, alloc, &centres);
    drop(centres);
    let both = both_of(rt, alloc, &disk);
    drop(disk);
    (both, ideal)
}
