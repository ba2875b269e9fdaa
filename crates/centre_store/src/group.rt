// Events that are submitted together: their records are written by one set of device calls.
ghost use Rattle.std.specs.Prelude.{◌≡◌, ◌≤◌, ◌<◌, ◌⊎◌, ◌↔◌, ◌+◌, ◌^◌, [], ◌∷◌, ℕ, List, Some, None, length, take, drop};
ghost use Rattle.std.specs.Prelude.{Err, All, IfOk, IfErr, OnOk, OnErr, IfSome};
ghost use Rattle.arc_io.specs.Causes.{Rose};
ghost use Rattle.arc_io.specs.Crashes.{LeavesOnly};
ghost use Rattle.centre_rules.specs.Summary.{Summary};
ghost use Rattle.centre_rules.specs.History.{Entry, moment_after};
ghost use Rattle.centre_rules.specs.State.{Grows};
ghost use Rattle.centre_core.specs.Setting.{IsSetting};
ghost use Rattle.disk_journal.specs.Records.{need_of_all};
ghost use Rattle.event_codec.specs.Spelling.{spelling};
ghost use Rattle.centre_store.specs.Bodies.{need_of};
ghost use Rattle.centre_store.specs.Calls.{Submission};
ghost use Rattle.centre_store.specs.Gathered.{HasRoomForAll};
ghost use Rattle.centre_store.specs.Given.{HoldsRecorded, StandForEither, HasEither, summed_size};
ghost use Rattle.centre_store.specs.Groups.{MayBeSubmitted, with_all, dones_of, bodies_by, StandForGroup, HasGroup, IsSpelledThen};
ghost use Rattle.centre_store.specs.Groups.{FirstHasNoRoom, ShowsOfGroup, IsTakenUp, AreWritten, IsFullFirst, IsFullStop, IsDownThen, GoesTogether};
ghost use Rattle.centre_store.specs.Orders.{IsDownWhereFailed};
ghost use Rattle.centre_store.specs.StoreHalls.{is_told};
ghost use Rattle.centre_store.specs.Stores.{HasFailed, StoreStands, StandsOn, Takes, Shows, IsToRecord, IsOverWith, IsDown, LeavesJournal, stop_of};
ghost use Rattle.centre_store.specs.Writes.{IsWrittenOn};

use crate::gather::{Set, gather};
use crate::store::Store;
use arc_io::Disk;
use centre_core::{Batch, Done, Dones, Grouped, Stop, Submission, Unready};
use disk_journal::{AppendFault, Bodies, Journal};
use std::alloc::Global;

// Writes the records of the bodies of a group, where there are any, by one set of device calls. The journal has room for them.
fn write_all<D: Disk>(journal: &mut Journal<D>, at_open: u64, bodies: &Bodies) -> Result<(), Stop>
    requires had { (b : Summary) × (h : List Entry) × HoldsRecorded D.seen journal.old b h }
    requires many { length bodies.now ≤ 64 }
    requires room { HasRoomForAll journal.old bodies.now }
    requires later { at_open ≤ (D.seen journal.old.disk).faults }

    ensures added { OnOk result ((caller : ℕ) (b : Summary) (h : List Entry) (calls : List Submission)
        → HoldsRecorded D.seen journal.old b h → bodies.now ≡ bodies_by caller b h calls
        → HoldsRecorded D.seen journal.new b (with_all caller b h calls)) }
    ensures numbers { OnOk result ((caller : ℕ) (b : Summary) (h : List Entry) (calls : List Submission)
        → HoldsRecorded D.seen journal.old b h → bodies.now ≡ bodies_by caller b h calls
        → (journal.new.used ≡ journal.old.used + need_of_all bodies.now)
        × (journal.new.records ≡ journal.old.records + length bodies.now)
        × (journal.new.generation ≡ journal.old.generation)) }
    ensures any_moment { (caller : ℕ) (b : Summary) (h : List Entry) (calls : List Submission)
        → HoldsRecorded D.seen journal.old b h → bodies.now ≡ bodies_by caller b h calls
        → LeavesOnly (D.seen journal.old.disk) (D.seen journal.new.disk) (StandForGroup caller b h calls) }
    ensures met { (caller : ℕ) (b : Summary) (h : List Entry) (calls : List Submission)
        → HoldsRecorded D.seen journal.old b h → bodies.now ≡ bodies_by caller b h calls
        → HasGroup (D.seen journal.new.disk) caller b h calls }
    ensures none { bodies.now ≡ [] → journal.new ≡ journal.old }
    ensures down { IfErr result (λ stop. (stop ≡ Stop.Down at_open (D.seen journal.new.disk).faults)
        × Rose at_open (D.seen journal.new.disk).faults) }
    ensures tells { is_told (D.seen journal.new.disk).told ≡ is_told (D.seen journal.old.disk).told }
    ensures limits { journal.new.limits ≡ journal.old.limits }
    ensures later { (D.seen journal.old.disk).faults ≤ (D.seen journal.new.disk).faults }
    ensures met_none { OnOk result ((D.seen journal.new.disk).faults ≡ (D.seen journal.old.disk).faults) }
{
    if bodies.count() == 0 {
        return Ok(());
    }
    match journal.append_all(bodies) {
        Ok(()) => Ok(()),
        Err(AppendFault::Full { .. }) => unreachable!(),
        Err(AppendFault::DiskFault { .. }) => Err(Stop::Down {
            at_open,
            now: journal.disk().faults(),
        }),
    }
}

impl<D: Disk> Store<D> {
    /// Submits the events of a batch for a caller, in order, as far as their records have room behind each other; these are written
    /// together, by the device calls that one record takes. What is answered is what `submit` would answer one after another, and is off
    /// the batch. Where the first one has no room, it is submitted alone, behind a checkpoint. The order of the stops: Down where the disk
    /// has failed since the opening; Worn; Memory at an event, which ends the batch before it: those before it are recorded and answered;
    /// Full, of the event that is first in the batch; Down where the disk fails now: then nothing is answered, the events may stand in the
    /// journal, all or none, and the store answers Down until it is closed and opened again.
    pub fn submit_all(&mut self, alloc: Global, caller: u64, batch: &mut Batch) -> Grouped
        requires ready { IsSetting self.old.state.sum.text }

        ensures done { (IsDownThen result.stop → ⊥) → (b : Summary) (h : List Entry) → StoreStands D.seen b self.old h
            → result.done ≡ dones_of caller b h (take (length result.done) batch.old) }
        ensures stands { (IsDownThen result.stop → ⊥) → (b : Summary) (h : List Entry) → StoreStands D.seen b self.old h
            → StoreStands D.seen b self.new (with_all caller b h (take (length result.done) batch.old)) }
        ensures within { length result.done ≤ length batch.old }
        ensures off { (IsDownThen result.stop → ⊥) → batch.new ≡ drop (length result.done) batch.old }
        ensures entries { (IsDownThen result.stop → ⊥) → self.new.state.entries ≡ self.old.state.entries + length result.done }
        ensures none { IsDownThen result.stop → result.done ≡ [] }
        ensures by { All (λ d. d.caller ≡ caller) result.done }
        ensures cut { IsDownThen result.stop → (n : ℕ) × (batch.new ≡ drop n batch.old) }
        ensures cause { IfSome result.stop (λ s. ShowsOfGroup D.seen self.new s batch.new) }
        ensures written { (IsDownThen result.stop → ⊥) → (b : Summary) (h : List Entry) → StoreStands D.seen b self.old h
            → AreWritten D.seen self.old self.new caller b h batch.old (length result.done) }
        ensures taken_up { result.stop ≡ None → IsTakenUp D.seen self.old self.new batch.old batch.new (length result.done) }
        ensures some { result.stop ≡ None → (batch.old ≡ [] → ⊥) → 1 ≤ length result.done }

        // When each stop comes, want of memory aside.
        ensures down { HasFailed D.seen self.new ↔ (result.stop ≡ Some (Stop.Down self.new.at_open (D.seen self.new.journal.disk).faults)) }
        ensures already { HasFailed D.seen self.old → (self.new ≡ self.old) × (batch.new ≡ batch.old) }
        ensures worn { (HasFailed D.seen self.old → ⊥) → 2 ^ 48 ≤ self.old.state.entries → (batch.old ≡ [] → ⊥)
            → (result.done ≡ []) × (result.stop ≡ Some (Stop.Worn self.old.state.entries)) }
        ensures full { IsFullFirst D.seen self.old batch.old result.stop }
        ensures first { IfSome result.stop (λ s. IsFullStop s → result.done ≡ []) }
        ensures stopped { IfSome result.stop (λ s. IsDown s ⊎ (batch.new ≡ [] → ⊥)) }

        // A crash at any moment leaves all of a set of records, or none of it.
        ensures together { (b : Summary) (h : List Entry) → StoreStands D.seen b self.old h → (HasFailed D.seen self.old → ⊥)
            → GoesTogether D.seen self.old self.new caller b h batch.old batch.new (length result.done) result.stop }
        ensures tells { is_told (D.seen self.new.journal.disk).told ≡ is_told (D.seen self.old.journal.disk).told }
        ensures at_open { self.new.at_open ≡ self.old.at_open }
        ensures limits { self.new.journal.limits ≡ self.old.journal.limits }
        ensures text { self.new.state.sum.text ≡ self.old.state.sum.text }
        ensures later { (D.seen self.old.journal.disk).faults ≤ (D.seen self.new.journal.disk).faults }
    {
        if let Err(stop) = self.check_disk() {
            return Grouped::stopped(alloc, stop);
        }
        let mut set = Set::new(alloc);
        let end = gather(
            alloc,
            &mut self.journal,
            &mut self.centre,
            caller,
            batch,
            &mut set,
        );
        if set.dones.count() == 0 && end.is_no_room() {
            return self.submit_first(alloc, caller, batch);
        }
        if let Err(stop) = write_all(&mut self.journal, self.at_open, &set.bodies) {
            return Grouped::stopped(alloc, stop);
        }
        Grouped {
            done: set.dones,
            stop: end.stop(),
        }
    }
}

impl<D: Disk> Store<D> {
    // Submits the first event of a batch alone, whose record has no room: it has none, or has it behind a checkpoint. Where it stops, and
    // the disk has not failed, it is the first one still.
    fn submit_first(&mut self, alloc: Global, caller: u64, batch: &mut Batch) -> Grouped
        requires up { HasFailed D.seen self.old → ⊥ }
        requires few { self.old.state.entries < 2 ^ 48 }
        requires first { FirstHasNoRoom D.seen self.old batch.old }

        ensures done { (IsDownThen result.stop → ⊥) → (b : Summary) (h : List Entry) → StoreStands D.seen b self.old h
            → result.done ≡ dones_of caller b h (take (length result.done) batch.old) }
        ensures stands { (IsDownThen result.stop → ⊥) → (b : Summary) (h : List Entry) → StoreStands D.seen b self.old h
            → StoreStands D.seen b self.new (with_all caller b h (take (length result.done) batch.old)) }
        ensures within { length result.done ≤ length batch.old }
        ensures off { (IsDownThen result.stop → ⊥) → batch.new ≡ drop (length result.done) batch.old }
        ensures entries { (IsDownThen result.stop → ⊥) → self.new.state.entries ≡ self.old.state.entries + length result.done }
        ensures none { IsDownThen result.stop → result.done ≡ [] }
        ensures by { All (λ d. d.caller ≡ caller) result.done }
        ensures cut { IsDownThen result.stop → (n : ℕ) × (batch.new ≡ drop n batch.old) }
        ensures cause { IfSome result.stop (λ s. ShowsOfGroup D.seen self.new s batch.new) }
        ensures written { (IsDownThen result.stop → ⊥) → (b : Summary) (h : List Entry) → StoreStands D.seen b self.old h
            → AreWritten D.seen self.old self.new caller b h batch.old (length result.done) }
        ensures one { result.stop ≡ None → length result.done ≡ 1 }
        ensures full { IsFullFirst D.seen self.old batch.old result.stop }
        ensures first { IfSome result.stop (λ s. IsFullStop s → result.done ≡ []) }
        ensures stopped { IfSome result.stop (λ s. IsDown s ⊎ (batch.new ≡ [] → ⊥)) }
        ensures down { HasFailed D.seen self.new ↔ (result.stop ≡ Some (Stop.Down self.new.at_open (D.seen self.new.journal.disk).faults)) }
        ensures together { (b : Summary) (h : List Entry) → StoreStands D.seen b self.old h
            → GoesTogether D.seen self.old self.new caller b h batch.old batch.new (length result.done) result.stop }
        ensures tells { is_told (D.seen self.new.journal.disk).told ≡ is_told (D.seen self.old.journal.disk).told }
        ensures at_open { self.new.at_open ≡ self.old.at_open }
        ensures limits { self.new.journal.limits ≡ self.old.journal.limits }
        ensures text { self.new.state.sum.text ≡ self.old.state.sum.text }
        ensures later { (D.seen self.old.journal.disk).faults ≤ (D.seen self.new.journal.disk).faults }
    {
        let mut done = Dones::new(alloc);
        let Ok(()) = done.dones.reserve(1) else {
            return Grouped::stopped(alloc, Stop::Memory);
        };
        let Some(first) = batch.calls.pop_front() else {
            unreachable!()
        };
        match self.enter_alone(alloc, first) {
            Ok(made) => {
                done.dones.push_reserved(Done { caller, ..made });
                Grouped { done, stop: None }
            }
            Err((stop, first)) => match stop {
                Stop::Down { .. } => Grouped::stopped(alloc, stop),
                _ => {
                    batch.calls.push_front_reserved(first);
                    Grouped::stopped(alloc, stop)
                }
            },
        }
    }

    // Makes an entry of an event that is to be recorded. Where it stops, the event comes back.
    fn enter_alone(&mut self, alloc: Global, call: Submission) -> Result<Done, (Stop, Submission)>
        requires up { HasFailed D.seen self.old → ⊥ }
        requires few { self.old.state.entries < 2 ^ 48 }
        requires may { MayBeSubmitted call }
        requires to_record { (b : Summary) (h : List Entry) → StoreStands D.seen b self.old h → IsToRecord b h call.event call.clock }

        ensures done { IfOk result (λ d. (b : Summary) (h : List Entry) (caller : ℕ) → StoreStands D.seen b self.old h
            → Takes D.seen b self.new h call.clock (record { caller = caller; event = call.event; at = d.at; reply = d.reply })) }
        ensures grows { IfOk result (λ d. Grows self.old.state self.new.state
            (record { caller = 0; event = call.event; at = d.at; reply = d.reply })) }
        ensures spelled { OnOk result (IsSpelledThen D.seen self.old call.event call.clock) }

        ensures back { IfErr result (λ e. e.1 ≡ call) }
        ensures stop { OnErr result (StandsOn D.seen self.old self.new) }
        ensures cause { IfErr result (λ e. Shows D.seen self.new e.0 call.event call.clock) }
        ensures torn { IfErr result (λ e. IsDown e.0 → IsSpelledThen D.seen self.old call.event call.clock) }
        ensures entries { OnErr result (self.new.state.entries ≡ self.old.state.entries) }
        ensures sum { OnErr result (self.new.state.sum ≡ self.old.state.sum) }
        ensures unwritten { LeavesJournal self.old.journal self.new.journal (stop_of result) }
        ensures down { IsDownWhereFailed D.seen self.new (stop_of result) }
        ensures written { OnOk result ((b : Summary) (h : List Entry) → StoreStands D.seen b self.old h
            → IsWrittenOn self.old.journal self.new.journal (summed_size b h) (need_of call.event)) }
        ensures full { (b : Summary) (h : List Entry) → StoreStands D.seen b self.old h → IsOverWith self.old (summed_size b h) (need_of call.event)
            → (stop_of result ≡ Err Stop.Memory) ⊎ (stop_of result ≡ Err (Stop.Full (summed_size b h) (need_of call.event) 0)) }

        ensures any_moment { (b : Summary) (h : List Entry) → StoreStands D.seen b self.old h
            → LeavesOnly (D.seen self.old.journal.disk) (D.seen self.new.journal.disk)
            (StandForEither b h (spelling call.event (moment_after b h call.clock))) }
        ensures met { (b : Summary) (h : List Entry) → StoreStands D.seen b self.old h
            → HasEither (D.seen self.new.journal.disk) b h (spelling call.event (moment_after b h call.clock)) }
        ensures tells { is_told (D.seen self.new.journal.disk).told ≡ is_told (D.seen self.old.journal.disk).told }
        ensures at_open { self.new.at_open ≡ self.old.at_open }
        ensures limits { self.new.journal.limits ≡ self.old.journal.limits }
        ensures later { (D.seen self.old.journal.disk).faults ≤ (D.seen self.new.journal.disk).faults }
    {
        let Submission { event, clock } = call;
        match self.centre.prepare(alloc, event, clock) {
            Ok(ready) => match self.commit_or_return(alloc, ready) {
                Ok(done) => Ok(done),
                Err((stop, event)) => Err((stop, Submission { event, clock })),
            },
            Err(Unready { event }) => Err((Stop::Memory, Submission { event, clock })),
        }
    }
}
