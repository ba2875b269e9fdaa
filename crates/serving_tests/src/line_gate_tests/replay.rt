// The closed store's history, played again by a centre of one thread.
ghost use Rattle.std.specs.Prelude.{◌≤◌};
ghost use Rattle.arc_data.specs.WellFormed.{IsWellFormed};
ghost use Rattle.centre_rules.specs.History.{IsMoment};
ghost use Rattle.event_codec.specs.Spelling.{IsKept};

use super::events::{SETUP, STEPS, claimed, clock, event};
use crate::same::{holds, same};
use arc_data::{Event, Reply};
use arc_io::Disk;
use centre_core::{Centre, Done};
use disk_journal::{Bodies, Journal, SHIPPED};
use event_codec::encode;
use std::alloc::Global;
use std::process::Abort;
use test_fixtures::halls::ram_hall;

/// What a caller was told of its events, in order, and how many of them the history has accounted for.
#[derive(Drop)]
pub(super) struct Caller {
    place: usize,
    told: Vec<Done>,
    next: usize,
    // The incident that it claimed in this round, or 0.
    number: u64,
}

impl Caller {
    pub(super) fn new(place: usize, told: Vec<Done>) -> Caller {
        Caller {
            place,
            told,
            next: 0,
            number: 0,
        }
    }

    // How many of the answers are those of recorded entries.
    pub(super) fn recorded(&self) -> u64 {
        let mut count = 0u64;
        for done in &self.told {
            count = count.saturating_add(u64::from(is_recorded(&done.reply)));
        }
        count
    }

    // Whether the history has accounted for all events.
    fn is_through(&self) -> bool {
        self.next == self.told.len()
    }

    // The round of the next event.
    fn round(&self) -> u16
        ensures { result ≤ 9999 }
    {
        (self.next / STEPS).min(9999) as u16
    }

    // The centre is asked the next event, and enters it where that is quiet or is to be recorded, as is said. Whether it answers as the caller
    // was told.
    fn is_answered(
        &mut self,
        rt: &impl Abort,
        alloc: Global,
        centre: &mut Centre,
        is_quiet: bool,
    ) -> bool {
        if self.is_through() {
            return false;
        }
        let round = self.round();
        let event = self.event(rt, alloc);
        match entered(rt, alloc, centre, event, clock(round), is_quiet) {
            Some(done) => self.is_told(&done),
            None => false,
        }
    }

    // The next event.
    fn event(&self, rt: &impl Abort, alloc: Global) -> Event
        ensures { IsWellFormed result × IsKept result }
    {
        let (round, step) = (self.round(), self.next % STEPS);
        event(alloc, self.place, round, step, self.number).expect(rt, "memory")
    }

    // Whether the caller was told this of its next event. Then that is accounted for.
    fn is_told(&mut self, done: &Done) -> bool {
        let Some(told) = self.told.get(self.next) else {
            return false;
        };
        if done.at != told.at || done.reply != told.reply {
            return false;
        }
        if self.next % STEPS == 2 {
            self.number = claimed(&done.reply);
        }
        self.next = self.next.saturating_add(1);
        true
    }

    // The record of the next event, at the moment that the caller was told.
    fn has_record(&self, rt: &impl Abort, alloc: Global, record: &[u8]) -> bool {
        let Some(told) = self.told.get(self.next) else {
            return false;
        };
        let at = told.at;
        assert!(rt; at < 253_402_300_800);
        let event = self.event(rt, alloc);
        let mut body = Vec::new(alloc);
        encode(&event, at, &mut body).expect(rt, "memory");
        // Given to `drop`, since its parts needn't be looked at here.
        drop(event);
        body.as_slice() == record
    }

    // The centre enters the caller's events that are quiet now.
    fn settle(&mut self, rt: &impl Abort, alloc: Global, centre: &mut Centre) {
        for _ in 0..STEPS {
            if !self.is_answered(rt, alloc, centre, true) {
                return;
            }
        }
    }
}

fn is_recorded(reply: &Reply) -> bool {
    matches!(
        reply,
        Reply::Taken | Reply::Claimed { .. } | Reply::Recorded { .. } | Reply::Closed { .. }
    )
}

// The centre enters the event where that is quiet or is to be recorded, as is said, and has room for it.
fn entered(
    rt: &impl Abort,
    alloc: Global,
    centre: &mut Centre,
    event: Event,
    clock: u64,
    is_quiet: bool,
) -> Option<Done>
    requires event { IsWellFormed event }
    requires clock { IsMoment clock }
{
    assert!(rt; centre.entries() < 1 << 48);
    let ready = centre.prepare(alloc, event, clock).expect(rt, "memory");
    if ready.quiet() != is_quiet {
        ready.discard();
        return None;
    }
    Some(centre.apply(ready))
}

fn settle_all(rt: &impl Abort, alloc: Global, centre: &mut Centre, callers: &mut [Caller]) {
    for caller in callers.iter_mut() {
        caller.settle(rt, alloc, centre);
    }
}

// The record is that of the next event of one of the callers, which was told what the centre answers.
fn is_of_one(
    rt: &impl Abort,
    alloc: Global,
    centre: &mut Centre,
    callers: &mut [Caller],
    record: &[u8],
) -> bool {
    for caller in callers.iter_mut() {
        if caller.has_record(rt, alloc, record) {
            return caller.is_answered(rt, alloc, centre, false);
        }
    }
    false
}

// The history of the records behind those of the beginning, and the quiet entries between them.
fn replay(
    rt: &impl Abort,
    alloc: Global,
    centre: &mut Centre,
    callers: &mut [Caller],
    records: &Bodies,
) {
    for i in 2..records.count() {
        settle_all(rt, alloc, centre, callers);
        let is_of_one = is_of_one(rt, alloc, centre, callers, records.at(i));
        holds(rt, is_of_one, "a record of a caller");
    }
    settle_all(rt, alloc, centre, callers);
    let are_through = callers.iter().all(|caller| caller.is_through());
    holds(rt, are_through, "all events");
}

/// The records of the disk of a closed store.
pub(super) fn records_of<D: Disk + Drop>(rt: &impl Abort, alloc: Global, disk: D) -> Bodies {
    match Journal::open(alloc, disk, SHIPPED) {
        Ok((journal, records)) => {
            drop(journal);
            records
        }
        Err(_) => panic!(rt; "not opened"),
    }
}

/// These records and the callers' quiet entries are one history: a centre of one thread answers each as its caller was told, and ends with
/// as many entries recorded and incidents opened as the store.
pub(super) fn compare_replay(
    rt: &impl Abort,
    alloc: Global,
    records: &Bodies,
    counts: (u64, u64),
    callers: &mut [Caller],
) {
    let hall = ram_hall(alloc, SETUP).expect(rt, "a hall");
    let mut centre = hall.into_centre();
    replay(rt, alloc, &mut centre, callers, records);
    let ended = (centre.recorded(), centre.table().opened());
    same(rt, ended, counts, "recorded and opened");
    drop(centre);
}
