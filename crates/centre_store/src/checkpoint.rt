// Checkpoints: the summary of all that was recorded goes into the other area of the disk, and records follow it there.
ghost use Rattle.std.specs.Prelude.{◌≡◌, ◌≤◌, ◌<◌, ◌⊎◌, ◌↔◌, ◌+◌, ◌-◌, ◌^◌, ℕ, List, length, Ok, Err, IfOk, IfErr, OnOk, IsTrue};
ghost use Rattle.arc_io.specs.Causes.{Rose};
ghost use Rattle.arc_io.specs.Crashes.{LeavesOnly};
ghost use Rattle.centre_core.specs.Summing.{IsSpelled};
ghost use Rattle.centre_rules.specs.History.{Entry, IsMoment};
ghost use Rattle.centre_rules.specs.State.{StandsFor};
ghost use Rattle.centre_rules.specs.Sums.{summary_of};
ghost use Rattle.centre_rules.specs.Summary.{Summary};
ghost use Rattle.disk_journal.specs.Faults.{IsOver};
ghost use Rattle.disk_journal.specs.Journal.{room_of};
ghost use Rattle.summary_rules.specs.Spelling.{summary_text};
ghost use Rattle.centre_store.specs.Given.{StandForIn, HasRecorded, HoldsRecorded, summed_size};
ghost use Rattle.centre_store.specs.StoreHalls.{is_told};
ghost use Rattle.centre_store.specs.Stores.{HasFailed, StoreStands, StandsOn, LeavesJournal};
ghost use Rattle.centre_store.specs.Orders.{IsDownWhereFailed};
ghost use Rattle.centre_store.specs.Writes.{HaveAll, HaveSome, IsOverAt, IsOverThen, IsSummedUp, IsTurned, IsTooLong, IsFullAt, IsUnwritten, IsUnmade};

use crate::store::Store;
use crate::submit::has_risen;
use arc_io::Disk;
use centre_core::{Centre, Stop};
use disk_journal::{Journal, Limits};
use std::alloc::Global;

impl<D: Disk> Store<D> {
    /// How many recorded entries the summary of the journal sums up: all but those that have records behind it, none without one.
    pub fn since(&self) -> u64
        ensures all { (HasFailed D.seen self.now → ⊥) → result + self.now.journal.records ≡ self.now.state.sum.recorded }
        ensures numbers { result ≡ self.now.state.sum.recorded - self.now.journal.records }
    {
        self.centre
            .recorded()
            .saturating_sub(self.journal.records())
    }

    /// Makes a checkpoint: a summary of all that was recorded goes into the other area, which counts from then on and has no record yet.
    /// Nothing is done where the journal has that summary already. The order of its stops: Down where the disk has failed since the
    /// opening; Memory; Full where the summary would pass the journal's limit of bytes, with the bytes that it would use; Down where the
    /// disk fails now. The meaning of the store stays in each case.
    pub fn checkpoint(&mut self, alloc: Global) -> Result<(), Stop>
        ensures stands { StandsOn D.seen self.old self.new }
        ensures state { self.new.state ≡ self.old.state }
        ensures summed { OnOk result (IsSummedUp self.new.journal) }
        ensures next { OnOk result ((IsSummedUp self.old.journal → ⊥)
            → self.new.journal.generation ≡ self.old.journal.generation + 1) }
        ensures again { (HasFailed D.seen self.old → ⊥) → IsSummedUp self.old.journal → (result ≡ Ok tt) × (self.new ≡ self.old) }
        ensures cause { IfErr result (IsUnmade D.seen self.old.at_open self.old.journal self.new.journal self.old.state) }

        // When each stop comes, want of memory aside.
        ensures full { (HasFailed D.seen self.old → ⊥) → (IsSummedUp self.old.journal → ⊥) → (b : Summary) (h : List Entry)
            → StoreStands D.seen b self.old h → self.old.journal.limits.bytes < summed_size b h
            → (result ≡ Err Stop.Memory) ⊎ (result ≡ Err (Stop.Full (summed_size b h) 0 0)) }
        ensures down { IsDownWhereFailed D.seen self.new result }
        ensures already { HasFailed D.seen self.old → self.new ≡ self.old }
        ensures unwritten { LeavesJournal self.old.journal self.new.journal result }

        // A crash at any moment of the call leaves what was recorded.
        ensures any_moment { (b : Summary) (h : List Entry) → StoreStands D.seen b self.old h → (HasFailed D.seen self.old → ⊥)
            → LeavesOnly (D.seen self.old.journal.disk) (D.seen self.new.journal.disk) (StandForIn 2 b h) }
        ensures met { (b : Summary) (h : List Entry) → StoreStands D.seen b self.old h → (HasFailed D.seen self.old → ⊥)
            → HasRecorded (D.seen self.new.journal.disk) b h }
        ensures tells { is_told (D.seen self.new.journal.disk).told ≡ is_told (D.seen self.old.journal.disk).told }
        ensures at_open { self.new.at_open ≡ self.old.at_open }
        ensures limits { self.new.journal.limits ≡ self.old.journal.limits }
        ensures later { (D.seen self.old.journal.disk).faults ≤ (D.seen self.new.journal.disk).faults }
        ensures met_none { OnOk result ((D.seen self.new.journal.disk).faults ≡ (D.seen self.old.journal.disk).faults) }
    {
        self.check_disk()?;
        if self.journal.generation() != 0 && self.journal.records() == 0 {
            return Ok(());
        }
        let summary = next_summary(alloc, &self.centre, &self.journal)?;
        let used = used_by(&summary);
        if used > self.journal.limits().bytes {
            return Err(Stop::Full {
                used,
                need: 0,
                records: 0,
            });
        }
        sum_up(&mut self.journal, self.at_open, &self.centre, &summary)
    }
}

// Makes a checkpoint where a record of so many bytes would pass a limit of the journal. Full where it would behind that, too.
pub(crate) fn make_room<D: Disk>(
    alloc: Global,
    journal: &mut Journal<D>,
    at_open: u64,
    centre: &Centre,
    need: u64,
) -> Result<(), Stop>
    requires had { HaveSome D.seen journal.old centre.now }
    requires few { centre.now.entries < 2 ^ 48 }
    requires some { 1 ≤ need }
    requires later { at_open ≤ (D.seen journal.old.disk).faults }
    requires up { Rose at_open (D.seen journal.old.disk).faults → ⊥ }

    ensures has { (b : Summary) (h : List Entry) → HaveAll D.seen journal.old centre.now b h
        → OnOk result (HoldsRecorded D.seen journal.new b h) }
    ensures room { OnOk result (IsOverAt journal.new need → ⊥) }
    ensures still { OnOk result ((IsOverAt journal.old need → ⊥) → journal.new ≡ journal.old) }
    ensures turned { OnOk result ((b : Summary) (h : List Entry) → HaveAll D.seen journal.old centre.now b h → IsOverAt journal.old need
        → IsTurned journal.old journal.new (summed_size b h)) }
    ensures up { OnOk result (Rose at_open (D.seen journal.new.disk).faults → ⊥) }
    ensures stop { IfErr result (IsUnwritten D.seen at_open journal.old journal.new centre.now need) }
    ensures full { (b : Summary) (h : List Entry) → HaveAll D.seen journal.old centre.now b h → IsOverAt journal.old need
        → IsOverThen journal.old (summed_size b h) need
        → (result ≡ Err Stop.Memory) ⊎ (result ≡ Err (Stop.Full (summed_size b h) need 0)) }

    ensures any_moment { (b : Summary) (h : List Entry) → HaveAll D.seen journal.old centre.now b h
        → LeavesOnly (D.seen journal.old.disk) (D.seen journal.new.disk) (StandForIn 2 b h) }
    ensures met { (b : Summary) (h : List Entry) → HaveAll D.seen journal.old centre.now b h → HasRecorded (D.seen journal.new.disk) b h }
    ensures tells { is_told (D.seen journal.new.disk).told ≡ is_told (D.seen journal.old.disk).told }
    ensures same_room { room_of journal.new ≡ room_of journal.old }
    ensures limits { journal.new.limits ≡ journal.old.limits }
    ensures later { (D.seen journal.old.disk).faults ≤ (D.seen journal.new.disk).faults }
    ensures met_none { OnOk result ((D.seen journal.new.disk).faults ≡ (D.seen journal.old.disk).faults) }
{
    let limits = journal.limits();
    if !is_over(journal.used(), need, journal.records(), limits) {
        return Ok(());
    }
    let summary = next_summary(alloc, centre, journal)?;
    let used = used_by(&summary);
    if is_over(used, need, 0, limits) {
        return Err(Stop::Full {
            used,
            need,
            records: 0,
        });
    }
    sum_up(journal, at_open, centre, &summary)
}

// The body of the next summary, of all that was recorded.
fn next_summary<D: Disk>(
    alloc: Global,
    centre: &Centre,
    journal: &Journal<D>,
) -> Result<Vec<u8>, Stop>
    requires had { HaveSome D.seen journal.now centre.now }
    requires few { centre.now.entries ≤ 2 ^ 48 }
    ensures spelled { IfOk result (λ body. (b : Summary) (h : List Entry) → IsSpelled b → StandsFor b centre.now h
        → body.items ≡ summary_text 2 (journal.now.generation + 1) (summary_of b h)) }
    ensures moment { OnOk result (IsMoment centre.now.sum.last) }
    ensures refused { IfErr result (λ stop. stop ≡ Stop.Memory) }
{
    let mut body = Vec::new(alloc);
    match centre.summary(alloc, journal.generation() + 1, &mut body) {
        Ok(()) => Ok(body),
        Err(_) => Err(Stop::Memory),
    }
}

// How many bytes an area uses that has just this body: the head, the open gate, four bytes of the length, the body, and the closed gate.
fn used_by(body: &[u8]) -> u64
    requires { length body.now + 22 < 2 ^ 64 }
    ensures { result ≡ 22 + length body.now }
{
    22 + body.len() as u64
}

// A record of so many bytes would pass one of the limits.
fn is_over(used: u64, need: u64, records: u64, limits: Limits) -> bool
    ensures { IsTrue result ↔ IsOver used need records limits.bytes limits.records }
{
    records >= limits.records || need > limits.bytes || used > limits.bytes - need
}

// Puts this summary of all that was recorded into the other area.
fn sum_up<D: Disk>(
    journal: &mut Journal<D>,
    at_open: u64,
    centre: &Centre,
    summary: &[u8],
) -> Result<(), Stop>
    requires had { HaveSome D.seen journal.old centre.now }
    requires few { centre.now.entries ≤ 2 ^ 48 }
    requires moment { IsMoment centre.now.sum.last }
    requires is { (b : Summary) (h : List Entry) → IsSpelled b → StandsFor b centre.now h
        → summary.now ≡ summary_text 2 (journal.old.generation + 1) (summary_of b h) }
    requires further { IsSummedUp journal.old → ⊥ }
    requires fits { 22 + length summary.now ≤ journal.old.limits.bytes }
    requires later { at_open ≤ (D.seen journal.old.disk).faults }
    requires up { Rose at_open (D.seen journal.old.disk).faults → ⊥ }

    ensures has { (b : Summary) (h : List Entry) → HaveAll D.seen journal.old centre.now b h
        → OnOk result (HoldsRecorded D.seen journal.new b h) }
    ensures summed { OnOk result (IsSummedUp journal.new) }
    ensures turned { OnOk result (IsTurned journal.old journal.new (22 + length summary.now)) }
    ensures up { OnOk result (Rose at_open (D.seen journal.new.disk).faults → ⊥) }
    ensures down { IfErr result (λ stop. (stop ≡ Stop.Down at_open (D.seen journal.new.disk).faults)
        × Rose at_open (D.seen journal.new.disk).faults) }

    ensures any_moment { (b : Summary) (h : List Entry) → HaveAll D.seen journal.old centre.now b h
        → LeavesOnly (D.seen journal.old.disk) (D.seen journal.new.disk) (StandForIn 2 b h) }
    ensures met { (b : Summary) (h : List Entry) → HaveAll D.seen journal.old centre.now b h → HasRecorded (D.seen journal.new.disk) b h }
    ensures tells { is_told (D.seen journal.new.disk).told ≡ is_told (D.seen journal.old.disk).told }
    ensures same_room { room_of journal.new ≡ room_of journal.old }
    ensures limits { journal.new.limits ≡ journal.old.limits }
    ensures later { (D.seen journal.old.disk).faults ≤ (D.seen journal.new.disk).faults }
    ensures met_none { OnOk result ((D.seen journal.new.disk).faults ≡ (D.seen journal.old.disk).faults) }
{
    match journal.turn(summary) {
        Ok(()) => Ok(()),
        Err(_) => Err(Stop::Down {
            at_open,
            now: journal.disk().faults(),
        }),
    }
}
