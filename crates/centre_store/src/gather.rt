// How the events of a batch are gathered: they have their entries in the centre, and their bodies wait to be written together.
ghost use Rattle.std.specs.Prelude.{◌≡◌, ◌≤◌, ◌<◌, ◌+◌, ◌^◌, ◌++◌, ◌∷◌, [], ℕ, List, length, take, drop, true, not, IfOk, IfErr, OnOk, OnErr, IsTrue, ◌↔◌, Err};
ghost use Rattle.arc_data.specs.WellFormed.{IsWellFormed};
ghost use Rattle.centre_rules.specs.History.{is_recorded};
ghost use Rattle.disk_journal.specs.Faults.{IsOverWithAll};
ghost use Rattle.disk_journal.specs.Records.{MayAllHave, need_of_all};
ghost use Rattle.event_codec.specs.Spelling.{HasSpelling, IsKept, spelling};
ghost use Rattle.centre_store.specs.Gathered.{HasHistory, AreTakenUp, HasRoomForAll, IsUnlaid, ShowsOfEnd, stop_of_end};
ghost use Rattle.centre_store.specs.Groups.{MayBeSubmitted};
ghost use Rattle.centre_store.specs.Stores.{IsSameJournal};

use crate::submit::MOST_ENTRIES;
use arc_io::Disk;
use centre_core::{Batch, Centre, Done, Dones, Ready, Stop, Submission, Unready};
use disk_journal::{Bodies, Journal, Limits};
use event_codec::encode;
use std::alloc::Global;

/// Why no further event of a batch is gathered.
#[derive(Clone, Copy, Debug, PartialEq, Eq)]
pub(crate) enum End {
    /// None is left.
    Empty,
    /// The record of the next one would pass a limit of the journal beside those that are gathered.
    NoRoom,
    /// Want of memory at the next one, or too many entries for it.
    Stopped(Stop),
}

impl End {
    /// Whether there was no room.
    pub(crate) fn is_no_room(&self) -> bool
        ensures { IsTrue result ↔ (self.now ≡ End.NoRoom) }
    {
        matches!(self, End::NoRoom)
    }

    /// What stopped the gathering, where it is a stop.
    pub(crate) fn stop(self) -> Option<Stop>
        ensures { result ≡ stop_of_end self }
    {
        match self {
            End::Stopped(stop) => Some(stop),
            End::Empty | End::NoRoom => None,
        }
    }
}

/// What is gathered: the bodies of the records that are to be written, and what the caller is told.
#[derive(Drop)]
pub(crate) struct Set {
    pub bodies: Bodies,
    pub dones: Dones,
}

impl Set {
    /// Nothing yet. It takes no memory.
    pub(crate) fn new(alloc: Global) -> Set
        ensures bodies { result.bodies ≡ [] }
        ensures dones { result.dones ≡ [] }
    {
        Set {
            bodies: Bodies::new(alloc),
            dones: Dones::new(alloc),
        }
    }
}

// An event that has no entry, and why.
struct Refused {
    end: End,
    call: Submission,
}

/// Takes the events of a batch off its front, one after another, as far as their records have room beside each other, and makes their
/// entries. All memory is taken before each entry, that for the writing too, and there is no call of the disk.
pub(crate) fn gather<D: Disk>(
    alloc: Global,
    journal: &mut Journal<D>,
    centre: &mut Centre,
    caller: u64,
    batch: &mut Batch,
    set: &mut Set,
) -> End
    requires bodies { set.old.bodies ≡ [] }
    requires dones { set.old.dones ≡ [] }
    requires stands { HasHistory centre.old }

    ensures taken { AreTakenUp caller (take (length set.new.dones) batch.old) centre.old centre.new [] set.new.bodies [] set.new.dones }
    ensures within { length set.new.dones ≤ length batch.old }
    ensures off { batch.new ≡ drop (length set.new.dones) batch.old }
    ensures same { IsSameJournal journal.old journal.new }
    ensures room { HasRoomForAll journal.new set.new.bodies }
    ensures few { length set.new.bodies ≤ 64 }
    ensures none { set.new.dones ≡ [] → set.new.bodies ≡ [] }
    ensures cause { ShowsOfEnd journal.new centre.new set.new.bodies batch.new result }
    ensures left { (result ≡ End.Empty → ⊥) → batch.new ≡ [] → ⊥ }
    ensures worn { 2 ^ 48 ≤ centre.old.entries → (batch.old ≡ [] → ⊥)
        → (set.new.dones ≡ []) × (result ≡ End.Stopped (Stop.Worn centre.old.entries)) }
{
    for _ in 0..batch.count() {
        if let Err(end) = take_first(
            alloc,
            journal,
            centre,
            caller,
            batch,
            &mut set.bodies,
            &mut set.dones,
        ) {
            return end;
        }
    }
    End::Empty
}

// Takes the first event off the batch, and makes its entry. Where it can't, the event is the first one as before.
fn take_first<D: Disk>(
    alloc: Global,
    journal: &mut Journal<D>,
    centre: &mut Centre,
    caller: u64,
    batch: &mut Batch,
    bodies: &mut Bodies,
    dones: &mut Dones,
) -> Result<(), End>
    requires stands { HasHistory centre.old }
    requires few { length bodies.old + length batch.old ≤ 64 }
    requires room { HasRoomForAll journal.old bodies.old }

    ensures taken { OnOk result (AreTakenUp caller (take 1 batch.old) centre.old centre.new bodies.old bodies.new dones.old dones.new) }
    ensures off { OnOk result (batch.new ≡ drop 1 batch.old) }
    ensures some { OnOk result (1 ≤ length batch.old) }
    ensures left { OnErr result (batch.new ≡ batch.old) }
    ensures bodies { OnErr result (bodies.new ≡ bodies.old) }
    ensures dones { OnErr result (dones.new ≡ dones.old) }
    ensures entries { OnErr result (centre.new.entries ≡ centre.old.entries) }
    ensures sum { OnErr result (centre.new.sum ≡ centre.old.sum) }
    ensures same { IsSameJournal journal.old journal.new }
    ensures room { HasRoomForAll journal.new bodies.new }
    ensures cause { IfErr result (ShowsOfEnd journal.new centre.new bodies.new batch.new) }
    ensures worn { 2 ^ 48 ≤ centre.old.entries → result ≡ Err (End.Stopped (Stop.Worn centre.old.entries)) }
{
    let count = centre.entries();
    if count >= MOST_ENTRIES {
        return Err(End::Stopped(Stop::Worn { count }));
    }
    let Ok(()) = dones.dones.reserve(1) else {
        return Err(End::Stopped(Stop::Memory));
    };
    let Some(call) = batch.calls.pop_front() else {
        return Err(End::Empty);
    };
    match enter(alloc, journal, centre, call, bodies) {
        Ok(done) => {
            dones.dones.push_reserved(Done { caller, ..done });
            Ok(())
        }
        Err(Refused { end, call }) => {
            batch.calls.push_front_reserved(call);
            Err(end)
        }
    }
}

// Makes the entry of an event, of caller 0, and puts its body last where it is recorded; or gives the event back.
fn enter<D: Disk>(
    alloc: Global,
    journal: &mut Journal<D>,
    centre: &mut Centre,
    call: Submission,
    bodies: &mut Bodies,
) -> Result<Done, Refused>
    requires may { MayBeSubmitted call }
    requires worn { centre.old.entries < 2 ^ 48 }
    requires stands { HasHistory centre.old }
    requires few { length bodies.old < 64 }
    requires room { HasRoomForAll journal.old bodies.old }

    ensures taken { IfOk result (λ d. (caller : ℕ)
        → AreTakenUp caller (call ∷ []) centre.old centre.new bodies.old bodies.new []
        ((record { caller = caller; at = d.at; reply = d.reply }) ∷ [])) }
    ensures back { IfErr result (λ r. r.call ≡ call) }
    ensures bodies { OnErr result (bodies.new ≡ bodies.old) }
    ensures entries { OnErr result (centre.new.entries ≡ centre.old.entries) }
    ensures sum { OnErr result (centre.new.sum ≡ centre.old.sum) }
    ensures same { IsSameJournal journal.old journal.new }
    ensures room { HasRoomForAll journal.new bodies.new }
    ensures cause { IfErr result (λ r. (later : List Submission) → ShowsOfEnd journal.new centre.new bodies.new (call ∷ later) r.end) }
{
    let Submission { event, clock } = call;
    match centre.prepare(alloc, event, clock) {
        Ok(ready) => match lay(alloc, journal, &ready, bodies) {
            Ok(()) => Ok(centre.apply(ready)),
            Err(end) => {
                let event = ready.into_event();
                let call = Submission { event, clock };
                Err(Refused { end, call })
            }
        },
        Err(Unready { event }) => {
            let end = End::Stopped(Stop::Memory);
            let call = Submission { event, clock };
            Err(Refused { end, call })
        }
    }
}

// Puts the body of what is ready behind the others, where it is to be recorded, and takes the room in which the journal joins them all.
fn lay<D: Disk>(
    alloc: Global,
    journal: &mut Journal<D>,
    ready: &Ready,
    bodies: &mut Bodies,
) -> Result<(), End>
    requires formed { IsWellFormed ready.now.event }
    requires kept { is_recorded ready.now.reply ≡ true → IsKept ready.now.event }
    requires few { length bodies.old < 64 }
    requires room { HasRoomForAll journal.old bodies.old }

    ensures quiet { OnOk result (not (is_recorded ready.now.reply) ≡ true → bodies.new ≡ bodies.old) }
    ensures laid { OnOk result (is_recorded ready.now.reply ≡ true
        → bodies.new ≡ bodies.old ++ (spelling ready.now.event ready.now.at) ∷ []) }
    ensures spelled { OnOk result (is_recorded ready.now.reply ≡ true → HasSpelling ready.now.event ready.now.at) }
    ensures refused { OnErr result (bodies.new ≡ bodies.old) }
    ensures same { IsSameJournal journal.old journal.new }
    ensures room { HasRoomForAll journal.new bodies.new }
    ensures cause { IfErr result (IsUnlaid journal.new bodies.old ready.now) }
{
    if ready.quiet() {
        return Ok(());
    }
    let mut body = Vec::new(alloc);
    let Ok(()) = encode(ready.event(), ready.at(), &mut body) else {
        return Err(End::Stopped(Stop::Memory));
    };
    let need = need_of(bodies) + (5 + body.len() as u64);
    let count = bodies.count() as u64 + 1;
    if are_over(
        journal.used(),
        need,
        journal.records(),
        count,
        journal.limits(),
    ) {
        return Err(End::NoRoom);
    }
    let Ok(()) = journal.reserve(need) else {
        return Err(End::Stopped(Stop::Memory));
    };
    match bodies.push_vec(body) {
        Ok(()) => Ok(()),
        Err(_) => Err(End::Stopped(Stop::Memory)),
    }
}

// The bytes that the records of so many bodies take.
fn need_of(bodies: &Bodies) -> u64
    requires many { length bodies.now ≤ 64 }
    requires sizes { MayAllHave bodies.now }
    ensures { result ≡ need_of_all bodies.now }
{
    let mut need = 0;
    for i in 0..bodies.count() {
        need += 5 + bodies.at(i).len() as u64;
    }
    need
}

// So many bytes and records more would pass one of the limits.
fn are_over(used: u64, need: u64, records: u64, count: u64, limits: Limits) -> bool
    ensures { IsTrue result ↔ IsOverWithAll used need records count limits.bytes limits.records }
{
    limits.records < count
        || records > limits.records - count
        || need > limits.bytes
        || used > limits.bytes - need
}
