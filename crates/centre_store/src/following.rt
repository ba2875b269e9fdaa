// What a second centre that follows this one asks for, and what it takes in.
ghost use Rattle.std.specs.Prelude.{◌≡◌, ◌≤◌, ◌<◌, ◌⊎◌, ◌+◌, ℕ, List, Ok, length, true, false, IfSome, IfOk, IfErr, OnOk, OnErr};
ghost use Rattle.arc_io.specs.Crashes.{IsQuiet, LeavesOnly};
ghost use Rattle.centre_rules.specs.Summary.{Summary};
ghost use Rattle.centre_rules.specs.History.{Entry};
ghost use Rattle.disk_journal.specs.Journal.{IsReadOf};
ghost use Rattle.centre_store.specs.Followings.{since_of, place_of, body_of_number, EndsWith, HasNext, TakesIn, ShowsOfReplay, IsFullThenOf};
ghost use Rattle.centre_store.specs.Given.{StandForEither, HasEither, summed_size};
ghost use Rattle.centre_store.specs.Orders.{IsDownWhereFailed, IsWornFirst};
ghost use Rattle.centre_store.specs.StoreHalls.{is_told};
ghost use Rattle.centre_store.specs.Stores.{HasFailed, StoreStands, StandsOn, IsSameJournal, LeavesJournal};
ghost use Rattle.centre_store.specs.Writes.{IsWrittenOn};

use crate::open::entry_in;
use crate::store::Store;
use arc_data::Blob;
use arc_io::Disk;
use centre_core::Stop;
use disk_journal::{Bodies, BodyFault};
use std::alloc::Global;

// The version in which a body is spelled that is taken in.
const VERSION: u8 = 2;

/// Where the recorded event of a number stands.
#[derive(Clone, Copy, Debug, PartialEq, Eq)]
pub enum Found {
    /// It has a record, and this is its body.
    Body,
    /// The summary has it, and no record does.
    InSummary,
    /// It is not recorded yet.
    Ahead,
}

impl<D: Disk> Store<D> {
    /// Puts the body of the recorded event of a number into `out`; they are counted from 1, those of the summary with them. What is asked
    /// for in order is found without a walk over the records before it. `out` stays where there is no such record, and at a stop. Down comes
    /// where the disk has failed since the opening, or fails now; Memory is the one other stop.
    pub fn body(&mut self, alloc: Global, number: u64, out: &mut Blob) -> Result<Found, Stop>
        ensures found { IfOk result (λ f. f ≡ place_of (since_of self.old) self.old.state.sum.recorded number) }
        ensures given { OnOk result ((b : Summary) (h : List Entry) → StoreStands D.seen b self.old h
            → since_of self.old < number → number ≤ self.old.state.sum.recorded
            → IfSome (D.seen self.old.journal.disk).told (λ _. out.new ≡ body_of_number b h number)) }
        ensures beside { (since_of self.old < number → number ≤ self.old.state.sum.recorded → ⊥) → out.new ≡ out.old }
        ensures refused { OnErr result (out.new ≡ out.old) }

        // Nothing is written, and the store stands for what it stood for.
        ensures stands { StandsOn D.seen self.old self.new }
        ensures state { self.new.state ≡ self.old.state }
        ensures same { IsReadOf self.old.journal self.new.journal }
        ensures quiet { IsQuiet (D.seen self.old.journal.disk) (D.seen self.new.journal.disk) }

        ensures cause { IfErr result (λ s. (s ≡ Stop.Memory)
            ⊎ (HasFailed D.seen self.new × (s ≡ Stop.Down self.new.at_open (D.seen self.new.journal.disk).faults))) }
        ensures down { IsDownWhereFailed D.seen self.new result }
        ensures already { HasFailed D.seen self.old → self.new ≡ self.old }
        ensures tells { is_told (D.seen self.new.journal.disk).told ≡ is_told (D.seen self.old.journal.disk).told }
        ensures at_open { self.new.at_open ≡ self.old.at_open }
        ensures limits { self.new.journal.limits ≡ self.old.journal.limits }
        ensures later { (D.seen self.old.journal.disk).faults ≤ (D.seen self.new.journal.disk).faults }
        ensures met_none { OnOk result ((D.seen self.new.journal.disk).faults ≡ (D.seen self.old.journal.disk).faults) }
    {
        self.check_disk()?;
        let since = self.since();
        if number <= since {
            return Ok(Found::InSummary);
        }
        if number > self.centre.recorded() {
            return Ok(Found::Ahead);
        }
        let mut bodies = Bodies::new(alloc);
        match self.journal.body(number - since - 1, &mut bodies) {
            Ok(()) => {
                let Some(bytes) = bodies.pop() else {
                    unreachable!()
                };
                *out = Blob::of_vec(bytes);
                Ok(Found::Body)
            }
            Err(BodyFault::Memory) => Err(Stop::Memory),
            Err(BodyFault::DiskFault { now, .. }) => Err(Stop::Down {
                at_open: self.at_open,
                now,
            }),
        }
    }

    /// Records the event of a body that another store recorded, at its moment. False where no event goes on with it, and nothing changes
    /// then: the body is no spelling of version 2, or its event would be quiet, or its moment is less than the last. The order of the stops:
    /// Down where the disk has failed since the opening; Worn from 281,474,976,710,656 entries on; Memory; Full and Down as in `submit`. It
    /// needs no setup in force, and records an Adopt or a Start, too.
    pub fn replay(&mut self, alloc: Global, body: &[u8]) -> Result<bool, Stop>
        ensures taken { IfOk result (λ taken. taken ≡ true → (b : Summary) (h : List Entry) → StoreStands D.seen b self.old h
            → TakesIn D.seen b self.new h body.now) }
        ensures strange { IfOk result (λ taken. taken ≡ false → (b : Summary) (h : List Entry) → StoreStands D.seen b self.old h
            → EndsWith b h body.now) }
        ensures still { IfOk result (λ taken. taken ≡ false → self.new.journal ≡ self.old.journal) }
        ensures counted { IfOk result (λ taken. taken ≡ true → self.new.state.entries ≡ self.old.state.entries + 1) }
        ensures recorded { IfOk result (λ taken. taken ≡ true → self.new.state.sum.recorded ≡ self.old.state.sum.recorded + 1) }
        ensures entries { (result ≡ Ok true → ⊥) → self.new.state.entries ≡ self.old.state.entries }
        ensures sum { (result ≡ Ok true → ⊥) → self.new.state.sum ≡ self.old.state.sum }
        ensures stands { (result ≡ Ok true → ⊥) → StandsOn D.seen self.old self.new }
        ensures unwritten { LeavesJournal self.old.journal self.new.journal result }
        ensures goes_on { (b : Summary) (h : List Entry) → StoreStands D.seen b self.old h
            → IsSameJournal self.old.journal self.new.journal ⊎ HasNext b h body.now }
        ensures written { IfOk result (λ taken. taken ≡ true → (b : Summary) (h : List Entry) → StoreStands D.seen b self.old h
            → IsWrittenOn self.old.journal self.new.journal (summed_size b h) (5 + length body.now)) }

        // When each stop comes, want of memory aside. A stop other than Memory, Down and Worn shows that the event goes on.
        ensures cause { IfErr result (λ s. ShowsOfReplay D.seen self.new body.now s) }
        ensures down { IsDownWhereFailed D.seen self.new result }
        ensures already { HasFailed D.seen self.old → self.new ≡ self.old }
        ensures worn { IsWornFirst D.seen self.old result }
        ensures full { IsFullThenOf D.seen self.old body.now result }

        // A crash at any moment of the call leaves the records from before it, or them and this one; and so it is after a fault.
        ensures any_moment { (b : Summary) (h : List Entry) → StoreStands D.seen b self.old h → (HasFailed D.seen self.old → ⊥)
            → LeavesOnly (D.seen self.old.journal.disk) (D.seen self.new.journal.disk) (StandForEither b h body.now) }
        ensures met { (b : Summary) (h : List Entry) → StoreStands D.seen b self.old h → (HasFailed D.seen self.old → ⊥)
            → HasEither (D.seen self.new.journal.disk) b h body.now }
        ensures tells { is_told (D.seen self.new.journal.disk).told ≡ is_told (D.seen self.old.journal.disk).told }
        ensures at_open { self.new.at_open ≡ self.old.at_open }
        ensures limits { self.new.journal.limits ≡ self.old.journal.limits }
        ensures later { (D.seen self.old.journal.disk).faults ≤ (D.seen self.new.journal.disk).faults }
        ensures met_none { OnOk result ((D.seen self.new.journal.disk).faults ≡ (D.seen self.old.journal.disk).faults) }
    {
        self.check_disk()?;
        self.check_count()?;
        let Ok(found) = entry_in(&mut self.centre, alloc, VERSION, body) else {
            return Err(Stop::Memory);
        };
        let Some(ready) = found else {
            return Ok(false);
        };
        let _ = self.commit(alloc, ready)?;
        Ok(true)
    }
}
