// How an event is submitted: it is prepared, its record is written where it is to be recorded, and then it is applied.
ghost use Rattle.std.specs.Prelude.{◌≡◌, ◌≤◌, ◌<◌, ◌⊎◌, ◌↔◌, ◌+◌, ◌^◌, ◌++◌, ◌∷◌, [], ℕ, List, true, false};
ghost use Rattle.std.specs.Prelude.{Option, Some, Err, IfOk, IfErr, IsErr, OnOk, OnErr, IsTrue};
ghost use Rattle.arc_data.specs.WellFormed.{IsWellFormed};
ghost use Rattle.arc_io.specs.Causes.{Rose};
ghost use Rattle.arc_io.specs.Crashes.{LeavesOnly};
ghost use Rattle.centre_rules.specs.Summary.{Summary};
ghost use Rattle.centre_rules.specs.History.{Entry, moment_after, is_recorded, IsMoment};
ghost use Rattle.centre_rules.specs.Answers.{IsNext, answer_over};
ghost use Rattle.centre_rules.specs.State.{Grows, StandsFor, entry_of};
ghost use Rattle.centre_core.specs.Runs.{IsSubmitted};
ghost use Rattle.centre_core.specs.Setting.{IsSetting};
ghost use Rattle.event_codec.specs.Spelling.{IsKept, HasSpelling, spelling};
ghost use Rattle.centre_store.specs.Bodies.{need_of};
ghost use Rattle.centre_store.specs.Given.{StandForEither, HoldsRecorded, HasEither, summed_size};
ghost use Rattle.centre_store.specs.Calls.{Submits, Enters};
ghost use Rattle.centre_store.specs.StoreHalls.{is_told};
ghost use Rattle.centre_store.specs.Stores.{HasFailed, IsStored, StoreStands, StandsOn, Takes, Shows};
ghost use Rattle.centre_store.specs.Stores.{IsSameJournal, LeavesJournal, IsAsBefore, IsToRecord, stop_of};
ghost use Rattle.centre_store.specs.Orders.{IsDownWhereFailed, IsWornFirst, IsFullThen, StopsInOrder};
ghost use Rattle.centre_store.specs.Writes.{HaveAll, HaveSome, IsOverAt, IsOverThen, IsWrittenOn, IsUnwritten};
ghost use Rattle.centre_store.specs.Begins.{begun_after, adopted_after, is_in_force, IsAdoptWritten, LeavesWithin, TellsWithin, ShowsOfBegin, BeginsInOrder};

use crate::checkpoint::make_room;
use crate::store::Store;
use arc_data::{Blob, Event};
use arc_io::Disk;
use centre_core::{Centre, Done, Ready, Setup, Stop};
use disk_journal::{AppendFault, Journal};
use event_codec::encode;
use std::alloc::Global;

// How many entries a store takes at most.
pub(crate) const MOST_ENTRIES: u64 = 1 << 48;

impl<D: Disk> Store<D> {
    /// Begins a run at a reading of the clock (seconds since 1970): an Adopt of the setup's text, where another text is in force or none, and
    /// then a Start. The stops are those of `submit`. Where the Start stops, the Adopt that was recorded stands.
    pub fn begin(&mut self, alloc: Global, setup: Setup, clock: u64) -> Result<(), Stop>
        requires clock { IsMoment clock }

        ensures begun { OnOk result ((b : Summary) (h : List Entry) → StoreStands D.seen b self.old h
            → StoreStands D.seen b self.new (begun_after b h setup clock)) }
        ensures text { OnOk result (self.new.state.sum.text ≡ Some setup) }
        ensures stop { OnErr result ((b : Summary) (h : List Entry) → StoreStands D.seen b self.old h
            → StoreStands D.seen b self.new h
            ⊎ StoreStands D.seen b self.new (adopted_after b h setup clock)) }
        ensures cause { IfErr result (λ s. ShowsOfBegin D.seen self.new setup clock s) }

        // Down comes exactly where the disk has failed since the opening, and is then the answer until the store is opened again.
        ensures down { IsDownWhereFailed D.seen self.new result }
        ensures already { HasFailed D.seen self.old → self.new ≡ self.old }

        // Worn and Full come in their order, at each of the events by the numbers before it. After a stop that is no fault of the disk
        // the store, its disk too, is as it was before that event.
        ensures order { (HasFailed D.seen self.old → ⊥)
            → BeginsInOrder D.seen self.old self.new setup clock result }

        // A crash at any moment of the call leaves the records from before it, with those of its entries up to some one.
        ensures any_moment { LeavesWithin D.seen self.old self.new setup clock }
        ensures met { TellsWithin D.seen self.old self.new setup clock }
        ensures tells { is_told (D.seen self.new.journal.disk).told ≡ is_told (D.seen self.old.journal.disk).told }
        ensures at_open { self.new.at_open ≡ self.old.at_open }
        ensures limits { self.new.journal.limits ≡ self.old.journal.limits }
        ensures later { (D.seen self.old.journal.disk).faults ≤ (D.seen self.new.journal.disk).faults }
        ensures met_none { OnOk result ((D.seen self.new.journal.disk).faults ≡ (D.seen self.old.journal.disk).faults) }
    {
        self.adopt(alloc, &setup, clock)?;
        let _ = self.enter(alloc, Event::Start, clock)?;
        Ok(())
    }

    /// Submits an event of a caller at a reading of the clock (seconds since 1970). The order of its stops: Down where the disk has failed
    /// since the opening; Worn from 281,474,976,710,656 entries on; Memory; Full where the event is to be recorded and its record would
    /// pass a limit of the journal, behind a checkpoint too, which is made first where that helps; Down where the disk fails now. After
    /// Memory, Full and Worn all is as before. After Down the event may stand in the journal or not, until the store is closed and opened
    /// again.
    pub fn submit(
        &mut self,
        alloc: Global,
        caller: u64,
        event: Event,
        clock: u64,
    ) -> Result<Done, Stop>
        requires ready { IsSetting self.old.state.sum.text }
        requires submitted { IsSubmitted event }
        requires formed { IsWellFormed event }
        requires clock { IsMoment clock }

        ensures done { IfOk result (λ d. (b : Summary) (h : List Entry) → StoreStands D.seen b self.old h
            → Takes D.seen b self.new h clock (record { caller = caller; event = event; at = d.at; reply = d.reply })) }
        ensures by { IfOk result (λ d. d.caller ≡ caller) }
        ensures few { OnOk result (self.old.state.entries < 2 ^ 48) }
        ensures taken { OnOk result (self.new.state.entries ≡ self.old.state.entries + 1) }
        ensures stop { OnErr result (StandsOn D.seen self.old self.new) }
        ensures cause { IfErr result (λ s. Shows D.seen self.new s event clock) }

        ensures entries { OnErr result (self.new.state.entries ≡ self.old.state.entries) }
        ensures sum { OnErr result (self.new.state.sum ≡ self.old.state.sum) }
        ensures unwritten { LeavesJournal self.old.journal self.new.journal result }
        ensures written { IfOk result (λ d. (b : Summary) (h : List Entry) → StoreStands D.seen b self.old h → is_recorded d.reply ≡ true
            → IsWrittenOn self.old.journal self.new.journal (summed_size b h) (need_of event)) }
        ensures quiet { IfOk result (λ d. is_recorded d.reply ≡ false → IsSameJournal self.old.journal self.new.journal) }
        ensures unrecorded { (b : Summary) (h : List Entry) → StoreStands D.seen b self.old h → (IsToRecord b h event clock → ⊥)
            → IsSameJournal self.old.journal self.new.journal }

        // What the laws of many calls go by.
        ensures submits { (HasFailed D.seen self.old → ⊥) → self.old.state.entries < 2 ^ 48
            → Submits D.seen self.old self.new event clock }
        ensures enters { OnOk result ((HasFailed D.seen self.old → ⊥) → Enters D.seen self.old self.new event clock) }

        // When each stop comes, want of memory aside.
        ensures down { IsDownWhereFailed D.seen self.new result }
        ensures already { HasFailed D.seen self.old → self.new ≡ self.old }
        ensures worn { IsWornFirst D.seen self.old result }
        ensures full { IsFullThen D.seen self.old event clock result }

        // A crash at any moment of the call leaves the records from before it, with this event's or without; and so it is after a fault.
        ensures any_moment { (b : Summary) (h : List Entry) → StoreStands D.seen b self.old h
            → (HasFailed D.seen self.old → ⊥) → LeavesOnly (D.seen self.old.journal.disk) (D.seen self.new.journal.disk)
            (StandForEither b h (spelling event (moment_after b h clock))) }
        ensures met { (b : Summary) (h : List Entry) → StoreStands D.seen b self.old h
            → (HasFailed D.seen self.old → ⊥)
            → HasEither (D.seen self.new.journal.disk) b h (spelling event (moment_after b h clock)) }
        ensures tells { is_told (D.seen self.new.journal.disk).told ≡ is_told (D.seen self.old.journal.disk).told }
        ensures at_open { self.new.at_open ≡ self.old.at_open }
        ensures limits { self.new.journal.limits ≡ self.old.journal.limits }
        ensures text { self.new.state.sum.text ≡ self.old.state.sum.text }
        ensures later { (D.seen self.old.journal.disk).faults ≤ (D.seen self.new.journal.disk).faults }
        ensures met_none { OnOk result ((D.seen self.new.journal.disk).faults ≡ (D.seen self.old.journal.disk).faults) }
    {
        let done = self.enter(alloc, event, clock)?;
        Ok(Done { caller, ..done })
    }

    // Makes an Adopt of the setup's text, where another text is in force or none.
    fn adopt(&mut self, alloc: Global, setup: &Setup, clock: u64) -> Result<(), Stop>
        requires clock { IsMoment clock }

        ensures stored { IsStored D.seen self.old }
        ensures adopted { OnOk result ((b : Summary) (h : List Entry) → StoreStands D.seen b self.old h
            → StoreStands D.seen b self.new (adopted_after b h setup.now clock)) }
        ensures written { OnOk result (is_in_force self.old.state.sum.text setup.now ≡ false
            → IsAdoptWritten D.seen self.old self.new setup.now) }
        ensures text { OnOk result (self.new.state.sum.text ≡ Some setup.now) }
        ensures stop { OnErr result (StandsOn D.seen self.old self.new) }
        ensures cause { IfErr result (λ s. ShowsOfBegin D.seen self.new setup.now clock s) }
        ensures down { IsDownWhereFailed D.seen self.new result }
        ensures already { HasFailed D.seen self.old → self.new ≡ self.old }
        ensures order { is_in_force self.old.state.sum.text setup.now ≡ false
            → StopsInOrder D.seen self.old (Event.Adopt setup.now) clock result }
        ensures before { IsAsBefore self.old self.new result }
        ensures in_force { is_in_force self.old.state.sum.text setup.now ≡ true → self.new ≡ self.old }
        ensures adopts { IsErr result → (HasFailed D.seen self.old → ⊥) → is_in_force self.old.state.sum.text setup.now ≡ false }
        ensures any_moment { LeavesWithin D.seen self.old self.new setup.now clock }
        ensures met { TellsWithin D.seen self.old self.new setup.now clock }
        ensures tells { is_told (D.seen self.new.journal.disk).told ≡ is_told (D.seen self.old.journal.disk).told }
        ensures at_open { self.new.at_open ≡ self.old.at_open }
        ensures limits { self.new.journal.limits ≡ self.old.journal.limits }
        ensures later { (D.seen self.old.journal.disk).faults ≤ (D.seen self.new.journal.disk).faults }
        ensures met_none { OnOk result ((D.seen self.new.journal.disk).faults ≡ (D.seen self.old.journal.disk).faults) }
    {
        self.check_disk()?;
        if self.has_in_force(setup) {
            return Ok(());
        }
        self.check_count()?;
        let bytes = setup.text();
        let Ok(text) = Blob::of(alloc, bytes) else {
            return Err(Stop::Memory);
        };
        let _ = self.enter(alloc, Event::Adopt { text }, clock)?;
        Ok(())
    }

    // Whether the setup's text is in force.
    fn has_in_force(&self, setup: &Setup) -> bool
        ensures { result ≡ is_in_force self.now.state.sum.text setup.now }
    {
        match self.centre.setup() {
            Some(other) => other.text() == setup.text(),
            None => false,
        }
    }

    // Makes an entry of the event. It is of caller 0, and might as well be of another.
    fn enter(&mut self, alloc: Global, event: Event, clock: u64) -> Result<Done, Stop>
        requires formed { IsWellFormed event }
        requires clock { IsMoment clock }

        ensures done { IfOk result (λ d. (b : Summary) (h : List Entry) (caller : ℕ)
            → StoreStands D.seen b self.old h
            → Takes D.seen b self.new h clock (record { caller = caller; event = event; at = d.at; reply = d.reply })) }
        ensures few { OnOk result (self.old.state.entries < 2 ^ 48) }
        ensures answer { IfOk result (λ d. d.reply ≡ answer_over self.old.state.sum [] event d.at) }
        ensures grows { IfOk result (λ d. Grows self.old.state self.new.state (record { caller = 0; event = event; at = d.at; reply = d.reply })) }
        ensures stop { OnErr result (StandsOn D.seen self.old self.new) }
        ensures cause { IfErr result (λ s. Shows D.seen self.new s event clock) }

        ensures entries { OnErr result (self.new.state.entries ≡ self.old.state.entries) }
        ensures sum { OnErr result (self.new.state.sum ≡ self.old.state.sum) }
        ensures unwritten { LeavesJournal self.old.journal self.new.journal result }
        ensures written { IfOk result (λ d. (b : Summary) (h : List Entry) → StoreStands D.seen b self.old h → is_recorded d.reply ≡ true
            → IsWrittenOn self.old.journal self.new.journal (summed_size b h) (need_of event)) }
        ensures quiet { IfOk result (λ d. is_recorded d.reply ≡ false → IsSameJournal self.old.journal self.new.journal) }
        ensures unrecorded { (b : Summary) (h : List Entry) → StoreStands D.seen b self.old h → (IsToRecord b h event clock → ⊥)
            → IsSameJournal self.old.journal self.new.journal }

        ensures down { IsDownWhereFailed D.seen self.new result }
        ensures already { HasFailed D.seen self.old → self.new ≡ self.old }
        ensures worn { IsWornFirst D.seen self.old result }
        ensures full { IsFullThen D.seen self.old event clock result }

        ensures any_moment { (b : Summary) (h : List Entry) → StoreStands D.seen b self.old h
            → (HasFailed D.seen self.old → ⊥) → LeavesOnly (D.seen self.old.journal.disk) (D.seen self.new.journal.disk)
            (StandForEither b h (spelling event (moment_after b h clock))) }
        ensures met { (b : Summary) (h : List Entry) → StoreStands D.seen b self.old h
            → (HasFailed D.seen self.old → ⊥)
            → HasEither (D.seen self.new.journal.disk) b h (spelling event (moment_after b h clock)) }
        ensures tells { is_told (D.seen self.new.journal.disk).told ≡ is_told (D.seen self.old.journal.disk).told }
        ensures at_open { self.new.at_open ≡ self.old.at_open }
        ensures limits { self.new.journal.limits ≡ self.old.journal.limits }
        ensures later { (D.seen self.old.journal.disk).faults ≤ (D.seen self.new.journal.disk).faults }
        ensures met_none { OnOk result ((D.seen self.new.journal.disk).faults ≡ (D.seen self.old.journal.disk).faults) }
    {
        self.check_disk()?;
        self.check_count()?;
        let Ok(ready) = self.centre.prepare(alloc, event, clock) else {
            return Err(Stop::Memory);
        };
        if ready.quiet() {
            return Ok(self.centre.apply(ready));
        }
        let done = self.commit(alloc, ready)?;
        Ok(done)
    }

    // Writes the record of what is ready, which is to be recorded, and then makes its entry. It is given up where it stops.
    pub(crate) fn commit(&mut self, alloc: Global, ready: Ready) -> Result<Done, Stop>
        requires up { HasFailed D.seen self.old → ⊥ }
        requires few { self.old.state.entries < 2 ^ 48 }
        requires made { ready.of ≡ self.old.state }
        requires next { (b : Summary) (h : List Entry) → StandsFor b self.old.state h → IsNext b h (entry_of 0 ready) }
        requires recorded { is_recorded ready.reply ≡ true }

        ensures done { IfOk result (λ d. (d.at ≡ ready.at) × (d.reply ≡ ready.reply)) }
        ensures taken { OnOk result ((b : Summary) (h : List Entry) (caller : ℕ) → StoreStands D.seen b self.old h
            → StoreStands D.seen b self.new (entry_of caller ready ∷ h)) }
        ensures grows { OnOk result (Grows self.old.state self.new.state (entry_of 0 ready)) }
        ensures written { OnOk result ((b : Summary) (h : List Entry) → StoreStands D.seen b self.old h
            → IsWrittenOn self.old.journal self.new.journal (summed_size b h) (need_of ready.event)) }
        ensures spelled { HasSpelling ready.event ready.at }

        ensures stop { OnErr result (StandsOn D.seen self.old self.new) }
        ensures state { OnErr result (self.new.state ≡ self.old.state) }
        ensures cause { IfErr result (IsUnwritten D.seen self.old.at_open self.old.journal self.new.journal self.old.state (need_of ready.event)) }
        ensures unwritten { LeavesJournal self.old.journal self.new.journal result }
        ensures down { IsDownWhereFailed D.seen self.new result }
        ensures full { (b : Summary) (h : List Entry) → StoreStands D.seen b self.old h
            → IsOverAt self.old.journal (need_of ready.event) → IsOverThen self.old.journal (summed_size b h) (need_of ready.event)
            → (result ≡ Err Stop.Memory) ⊎ (result ≡ Err (Stop.Full (summed_size b h) (need_of ready.event) 0)) }

        ensures any_moment { (b : Summary) (h : List Entry) → StoreStands D.seen b self.old h
            → LeavesOnly (D.seen self.old.journal.disk) (D.seen self.new.journal.disk) (StandForEither b h (spelling ready.event ready.at)) }
        ensures met { (b : Summary) (h : List Entry) → StoreStands D.seen b self.old h
            → HasEither (D.seen self.new.journal.disk) b h (spelling ready.event ready.at) }
        ensures tells { is_told (D.seen self.new.journal.disk).told ≡ is_told (D.seen self.old.journal.disk).told }
        ensures at_open { self.new.at_open ≡ self.old.at_open }
        ensures limits { self.new.journal.limits ≡ self.old.journal.limits }
        ensures later { (D.seen self.old.journal.disk).faults ≤ (D.seen self.new.journal.disk).faults }
        ensures met_none { OnOk result ((D.seen self.new.journal.disk).faults ≡ (D.seen self.old.journal.disk).faults) }
    {
        match self.commit_or_return(alloc, ready) {
            Ok(done) => Ok(done),
            Err((stop, event)) => {
                drop(event);
                Err(stop)
            }
        }
    }

    // Likewise, and where it stops, it gives the event back.
    pub(crate) fn commit_or_return(
        &mut self,
        alloc: Global,
        ready: Ready,
    ) -> Result<Done, (Stop, Event)>
        requires up { HasFailed D.seen self.old → ⊥ }
        requires few { self.old.state.entries < 2 ^ 48 }
        requires made { ready.of ≡ self.old.state }
        requires next { (b : Summary) (h : List Entry) → StandsFor b self.old.state h → IsNext b h (entry_of 0 ready) }
        requires recorded { is_recorded ready.reply ≡ true }

        ensures done { IfOk result (λ d. (d.at ≡ ready.at) × (d.reply ≡ ready.reply)) }
        ensures taken { OnOk result ((b : Summary) (h : List Entry) (caller : ℕ) → StoreStands D.seen b self.old h
            → StoreStands D.seen b self.new (entry_of caller ready ∷ h)) }
        ensures grows { OnOk result (Grows self.old.state self.new.state (entry_of 0 ready)) }
        ensures written { OnOk result ((b : Summary) (h : List Entry) → StoreStands D.seen b self.old h
            → IsWrittenOn self.old.journal self.new.journal (summed_size b h) (need_of ready.event)) }
        ensures spelled { HasSpelling ready.event ready.at }

        ensures back { IfErr result (λ e. e.1 ≡ ready.event) }
        ensures stop { OnErr result (StandsOn D.seen self.old self.new) }
        ensures state { OnErr result (self.new.state ≡ self.old.state) }
        ensures cause { IfErr result (λ e. IsUnwritten D.seen self.old.at_open self.old.journal self.new.journal self.old.state
            (need_of ready.event) e.0) }
        ensures unwritten { LeavesJournal self.old.journal self.new.journal (stop_of result) }
        ensures down { IsDownWhereFailed D.seen self.new (stop_of result) }
        ensures full { (b : Summary) (h : List Entry) → StoreStands D.seen b self.old h
            → IsOverAt self.old.journal (need_of ready.event) → IsOverThen self.old.journal (summed_size b h) (need_of ready.event)
            → (stop_of result ≡ Err Stop.Memory) ⊎ (stop_of result ≡ Err (Stop.Full (summed_size b h) (need_of ready.event) 0)) }

        ensures any_moment { (b : Summary) (h : List Entry) → StoreStands D.seen b self.old h
            → LeavesOnly (D.seen self.old.journal.disk) (D.seen self.new.journal.disk) (StandForEither b h (spelling ready.event ready.at)) }
        ensures met { (b : Summary) (h : List Entry) → StoreStands D.seen b self.old h
            → HasEither (D.seen self.new.journal.disk) b h (spelling ready.event ready.at) }
        ensures tells { is_told (D.seen self.new.journal.disk).told ≡ is_told (D.seen self.old.journal.disk).told }
        ensures at_open { self.new.at_open ≡ self.old.at_open }
        ensures limits { self.new.journal.limits ≡ self.old.journal.limits }
        ensures later { (D.seen self.old.journal.disk).faults ≤ (D.seen self.new.journal.disk).faults }
        ensures met_none { OnOk result ((D.seen self.new.journal.disk).faults ≡ (D.seen self.old.journal.disk).faults) }
    {
        match write(
            alloc,
            &mut self.journal,
            &mut self.body,
            self.at_open,
            &self.centre,
            &ready,
        ) {
            Ok(()) => Ok(self.centre.apply(ready)),
            Err(stop) => {
                let event = ready.into_event();
                Err((stop, event))
            }
        }
    }

    // Down where the disk has failed since the opening.
    pub(crate) fn check_disk(&self) -> Result<(), Stop>
        ensures stored { IsStored D.seen self.now }
        ensures up { OnOk result (HasFailed D.seen self.now → ⊥) }
        ensures down { IfErr result (λ s. s ≡ Stop.Down self.now.at_open (D.seen self.now.journal.disk).faults) }
        ensures failed { OnErr result (HasFailed D.seen self.now) }
    {
        check_count_of_faults(self.at_open, self.journal.disk().faults())
    }

    // Worn where there are too many entries for another.
    pub(crate) fn check_count(&self) -> Result<(), Stop>
        ensures few { OnOk result (self.now.state.entries < 2 ^ 48) }
        ensures worn { IfErr result (λ s. s ≡ Stop.Worn self.now.state.entries) }
        ensures many { OnErr result (2 ^ 48 ≤ self.now.state.entries) }
    {
        let count = self.centre.entries();
        if count >= MOST_ENTRIES {
            return Err(Stop::Worn { count });
        }
        Ok(())
    }
}

// Writes the record of what is ready, behind a checkpoint where it needs one, and has it on the disk. Its body is made in the vector. All
// memory is taken before the first call of the disk.
fn write<D: Disk>(
    alloc: Global,
    journal: &mut Journal<D>,
    body: &mut Vec<u8>,
    at_open: u64,
    centre: &Centre,
    ready: &Ready,
) -> Result<(), Stop>
    requires had { HaveSome D.seen journal.old centre.now }
    requires few { centre.now.entries < 2 ^ 48 }
    requires formed { IsWellFormed ready.now.event }
    requires kept { IsKept ready.now.event }
    requires recorded { is_recorded ready.now.reply ≡ true }
    requires later { at_open ≤ (D.seen journal.old.disk).faults }
    requires up { Rose at_open (D.seen journal.old.disk).faults → ⊥ }

    ensures added { OnOk result ((b : Summary) (h : List Entry) (caller : ℕ) → HaveAll D.seen journal.old centre.now b h
        → HoldsRecorded D.seen journal.new b (entry_of caller ready.now ∷ h)) }
    ensures written { OnOk result ((b : Summary) (h : List Entry) → HaveAll D.seen journal.old centre.now b h
        → IsWrittenOn journal.old journal.new (summed_size b h) (need_of ready.now.event)) }
    ensures up { OnOk result (Rose at_open (D.seen journal.new.disk).faults → ⊥) }
    ensures stop { IfErr result (IsUnwritten D.seen at_open journal.old journal.new centre.now (need_of ready.now.event)) }
    ensures full { (b : Summary) (h : List Entry) → HaveAll D.seen journal.old centre.now b h
        → IsOverAt journal.old (need_of ready.now.event)
        → IsOverThen journal.old (summed_size b h) (need_of ready.now.event)
        → (result ≡ Err Stop.Memory) ⊎ (result ≡ Err (Stop.Full (summed_size b h) (need_of ready.now.event) 0)) }

    ensures any_moment { (b : Summary) (h : List Entry) → HaveAll D.seen journal.old centre.now b h
        → LeavesOnly (D.seen journal.old.disk) (D.seen journal.new.disk)
        (StandForEither b h (spelling ready.now.event ready.now.at)) }
    ensures met { (b : Summary) (h : List Entry) → HaveAll D.seen journal.old centre.now b h
        → HasEither (D.seen journal.new.disk) b h (spelling ready.now.event ready.now.at) }
    ensures spelled { HasSpelling ready.now.event ready.now.at }
    ensures tells { is_told (D.seen journal.new.disk).told ≡ is_told (D.seen journal.old.disk).told }
    ensures limits { journal.new.limits ≡ journal.old.limits }
    ensures later { (D.seen journal.old.disk).faults ≤ (D.seen journal.new.disk).faults }
    ensures met_none { OnOk result ((D.seen journal.new.disk).faults ≡ (D.seen journal.old.disk).faults) }
{
    let Ok(()) = encode(ready.event(), ready.at(), body) else {
        return Err(Stop::Memory);
    };
    let need = 5 + body.len() as u64;
    let Ok(()) = journal.reserve(need) else {
        return Err(Stop::Memory);
    };
    make_room(alloc, journal, at_open, centre, need)?;
    match journal.append(body) {
        Ok(()) => Ok(()),
        Err(AppendFault::Full { .. }) => unreachable!(),
        Err(AppendFault::DiskFault { .. }) => Err(Stop::Down {
            at_open,
            now: journal.disk().faults(),
        }),
    }
}

// Down where the count of the disk's faults has risen.
fn check_count_of_faults(at_open: u64, now: u64) -> Result<(), Stop>
    ensures up { OnOk result (Rose at_open now → ⊥) }
    ensures down { IfErr result (λ s. s ≡ Stop.Down at_open now) }
    ensures failed { OnErr result (Rose at_open now) }
{
    if has_risen(at_open, now) {
        return Err(Stop::Down { at_open, now });
    }
    Ok(())
}

// The later count is above the earlier one, or stands at its last value.
pub(crate) fn has_risen(before: u64, now: u64) -> bool
    ensures { IsTrue result ↔ Rose before now }
{
    now > before || now == u64::MAX
}
