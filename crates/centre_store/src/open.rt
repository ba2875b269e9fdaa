// How a store is opened: the recorded events are read and taken in again, one after another. What was recorded in the first version is then
// written in the second.
ghost use Rattle.std.specs.Prelude.{◌≡◌, ◌⊎◌, ◌≤◌, ◌<◌, ◌↔◌, ◌+◌, ◌^◌, ◌++◌, [], ◌∷◌, ℕ, List, Option, true, false, length, take, drop, OnOk, IfOk, IfErr, IfSome, IfNone, IsTrue};
ghost use Rattle.arc_io.specs.Areas.{Areas};
ghost use Rattle.arc_io.specs.Crashes.{Becomes, IsQuiet, LeavesOnly};
ghost use Rattle.centre_rules.specs.Answers.{IsNext};
ghost use Rattle.centre_rules.specs.Summary.{Summary};
ghost use Rattle.centre_rules.specs.History.{Entry, is_recorded};
ghost use Rattle.centre_rules.specs.State.{StandsFor, entry_of};
ghost use Rattle.disk_journal.specs.Faults.{IsOfContent, HasCounts};
ghost use Rattle.disk_journal.specs.Journal.{Works, Holds, IsOpen};
ghost use Rattle.disk_journal.specs.OtherArea.{IsSameIn, SparesOther};
ghost use Rattle.disk_journal.specs.Records.{size, front as bytes_before};
ghost use Rattle.disk_journal.specs.Standing.{all_of, chosen_part, version_now, GoesOn as StandsOn};
ghost use Rattle.disk_journal.specs.Turning.{Changes};
ghost use Rattle.event_codec.specs.Spelling.{IsVersion, HasSpellingIn, spelling_in};
ghost use Rattle.centre_store.specs.Bodies.{body_in};
ghost use Rattle.centre_store.specs.Given.{GoesOn, HoldsRecorded, written_length};
ghost use Rattle.centre_store.specs.Pasts.{IsPast, HasNoNext, IsReplayed};
ghost use Rattle.centre_store.specs.Openings.{IsOpened, CanOpen, IsMoved, IsChosenSame, IsRefused, IsRestored, StandsForMove, IsUnmoved, IsOfReplay, IsOfBodies, disk_of};
ghost use Rattle.centre_store.specs.Stores.{IsNextKept};
ghost use Rattle.centre_store.specs.Writes.{HaveAllIn, HaveSomeIn, IsSummedUp};

use crate::store::Store;
use arc_data::Memory;
use arc_io::Disk;
use centre_core::{Centre, Ready, decode_summary};
use disk_journal::{AppendFault, Bodies, Journal, Limits, OpenFault, OpenRefused};
use event_codec::decode;
use std::alloc::Global;

// The most bytes that the body of a summary may have.
const MOST: u64 = 4_294_967_295;

impl<D: Disk> Store<D> {
    /// Opens the journal of both areas (at most `limits.bytes` bytes in an area, below 2^32, and `limits.records` records behind its
    /// summary), and takes its events in again, over the summary where it has one. An area of at most 17 bytes is a new one. What another
    /// one of the first version has is summed up in the second version in the other area, which counts from then on; no limit is looked at
    /// for it. Damaged comes, besides the journal's own cases, where a first body that begins as that of a summary spells none, or another
    /// one is no spelling of an event, or its event would be quiet after those before it, or its moment is less than the one before; its
    /// place is that of the first such body's gate. TooWide comes where that summary would have more than 4,294,967,295 bytes. The other
    /// faults are the journal's.
    pub fn open(alloc: Global, disk: D, limits: Limits) -> Result<Store<D>, OpenRefused<D>>
        requires few { limits.bytes < 2 ^ 32 }

        ensures opened { IfOk result (λ s. IsOpened D.seen disk s) }
        ensures at_open { IfOk result (λ s. s.at_open ≡ (D.seen s.journal.disk).faults) }
        ensures limits { IfOk result (λ s. s.journal.limits ≡ limits) }

        ensures shown { IfErr result (λ r. IfSome (D.seen disk).told (IsRefused r.fault)) }
        ensures counts { IfErr result (λ r. HasCounts r.fault (D.seen disk).faults (D.seen r.disk).faults) }

        // A crash at any moment of the call leaves what stands for each list that an image at its start stood for, and so do reads.
        ensures any_moment { LeavesOnly (D.seen disk) (D.seen (disk_of result))
            (λ c. (d : Areas) × (D.seen disk).may_leave d × GoesOn d c) }
        ensures told { Becomes (D.seen disk).told (D.seen (disk_of result)).told GoesOn }

        // The areas that had the first version have it no more, and the one that counted keeps all its bytes. Else the other one does.
        ensures moved { IfOk result (λ s. IfSome (D.seen disk).told (IsMoved s.journal)) }
        ensures kept { IfSome (D.seen disk).told (λ s. version_now s ≡ 1 → Changes IsChosenSame (D.seen disk) (D.seen (disk_of result))) }
        ensures spared { IfSome (D.seen disk).told (λ s. version_now s ≡ 2 → SparesOther (D.seen disk) (D.seen (disk_of result))) }

        // Where the areas' bytes are refused, nothing was written. Nor is anything written over more than 17 bytes, whatever they are and
        // whatever is answered, but for those of the first version that can be opened; over fewer, all that stood there stands.
        ensures unwritten { IfErr result (λ r. IsOfContent r.fault → IsQuiet (D.seen disk) (D.seen r.disk)) }
        ensures long { IfSome (D.seen disk).told (λ s. 17 < length (chosen_part s)
            → IsQuiet (D.seen disk) (D.seen (disk_of result)) ⊎ ((version_now s ≡ 1) × CanOpen s)) }
        ensures fresh { IfSome (D.seen disk).told (λ s. length (chosen_part s) ≤ 17
            → Changes StandsOn (D.seen disk) (D.seen (disk_of result))) }
        ensures later { (D.seen disk).faults ≤ (D.seen (disk_of result)).faults }

        // An opening that answers Ok met no fault.
        ensures met_none { IfOk result (λ s. (D.seen s.journal.disk).faults ≡ (D.seen disk).faults) }
    {
        let (journal, bodies) = Journal::open(alloc, disk, limits)?;
        let mut journal = journal;
        match restore(alloc, &mut journal, &bodies) {
            Ok(centre) => {
                let at_open = journal.disk().faults();
                Ok(Store {
                    centre,
                    journal,
                    at_open,
                    body: Vec::new(alloc),
                })
            }
            Err(fault) => Err(OpenRefused {
                fault,
                disk: journal.close(),
            }),
        }
    }
}

// The centre of the events of all the bodies that opening a journal gave, which the journal then has in the second version.
fn restore<D: Disk>(
    alloc: Global,
    journal: &mut Journal<D>,
    bodies: &Bodies,
) -> Result<Centre, OpenFault>
    requires opened { (disk : D) × IsOpen D.seen disk journal.old bodies.now }
    requires works { Works D.seen journal.old }
    requires fits { size bodies.now < 2 ^ 64 }

    ensures opened { IfOk result (λ centre. (disk : D) (at_open : ℕ) → IsOpen D.seen disk journal.old bodies.now
        → IsOpened D.seen disk (record { state = centre; journal = journal.new; at_open = at_open })) }
    ensures shown { IfErr result (λ f. (disk : D) → IsOpen D.seen disk journal.old bodies.now → IfSome (D.seen disk).told (IsRefused f)) }
    ensures counts { IfErr result (λ f. HasCounts f (D.seen journal.old.disk).faults (D.seen journal.new.disk).faults) }

    ensures any_moment { (disk : D) → IsOpen D.seen disk journal.old bodies.now
        → LeavesOnly (D.seen journal.old.disk) (D.seen journal.new.disk)
        (λ c. (d : Areas) × (D.seen journal.old.disk).may_leave d × GoesOn d c) }
    ensures told { (disk : D) → IsOpen D.seen disk journal.old bodies.now
        → Becomes (D.seen journal.old.disk).told (D.seen journal.new.disk).told GoesOn }
    ensures moved { OnOk result (journal.old.version ≡ 1
        → (journal.new.generation ≡ journal.old.generation + 1) × IsSummedUp journal.new) }
    ensures kept { (disk : D) → IsOpen D.seen disk journal.old bodies.now
        → Changes IsChosenSame (D.seen journal.old.disk) (D.seen journal.new.disk) }
    ensures still { journal.old.version ≡ 2 → journal.new ≡ journal.old }
    ensures unwritten { IfErr result (λ f. IsOfContent f → journal.new ≡ journal.old) }
    ensures unread { IfErr result (λ f. IsOfContent f → (bodies.now ≡ [] → ⊥) ⊎ (journal.old.version ≡ 1)) }
    ensures written { (disk : D) → IsOpen D.seen disk journal.old bodies.now
        → (journal.new ≡ journal.old) ⊎ ((journal.old.version ≡ 1) × IfSome (D.seen disk).told CanOpen) }
    ensures limits { journal.new.limits ≡ journal.old.limits }
    ensures later { (D.seen journal.old.disk).faults ≤ (D.seen journal.new.disk).faults }
    ensures met_none { OnOk result ((D.seen journal.new.disk).faults ≡ (D.seen journal.old.disk).faults) }
{
    let centre = replay_all(alloc, journal.version(), bodies, journal.records())?;
    if journal.version() == 1 {
        move_on(alloc, journal, &centre)?;
    }
    Ok(centre)
}

// Puts the summary of all that the journal has in the first version into the other area, in the second.
fn move_on<D: Disk>(
    alloc: Global,
    journal: &mut Journal<D>,
    centre: &Centre,
) -> Result<(), OpenFault>
    requires had { HaveSomeIn D.seen 1 journal.old centre.now }
    requires works { Works D.seen journal.old }
    requires few { centre.now.entries ≤ 2 ^ 48 }

    ensures has { (b : Summary) (h : List Entry) → HaveAllIn D.seen 1 journal.old centre.now b h
        → OnOk result (HoldsRecorded D.seen journal.new b h) }
    ensures moved { OnOk result ((journal.new.generation ≡ journal.old.generation + 1) × IsSummedUp journal.new) }
    ensures fault { IfErr result (IsUnmoved D.seen journal.old journal.new centre.now) }
    ensures written { (journal.new ≡ journal.old)
        ⊎ ((b : Summary) (h : List Entry) → HaveAllIn D.seen 1 journal.old centre.now b h → written_length b h ≤ 4_294_967_295) }

    ensures any_moment { (first : Option (List ℕ)) (bodies : List (List ℕ)) → Holds D.seen journal.old 1 first bodies
        → LeavesOnly (D.seen journal.old.disk) (D.seen journal.new.disk) (StandsForMove D.seen journal.old centre.now first bodies) }
    ensures told { (first : Option (List ℕ)) (bodies : List (List ℕ)) → Holds D.seen journal.old 1 first bodies
        → IfSome (D.seen journal.new.disk).told (StandsForMove D.seen journal.old centre.now first bodies) }
    ensures kept { Changes (IsSameIn journal.old.area) (D.seen journal.old.disk) (D.seen journal.new.disk) }
    ensures limits { journal.new.limits ≡ journal.old.limits }
    ensures later { (D.seen journal.old.disk).faults ≤ (D.seen journal.new.disk).faults }
    ensures met_none { OnOk result ((D.seen journal.new.disk).faults ≡ (D.seen journal.old.disk).faults) }
{
    let mut summary = Vec::new(alloc);
    let Ok(()) = centre.summary(alloc, journal.generation() + 1, &mut summary) else {
        return Err(OpenFault::Memory);
    };
    let size = summary.len() as u64;
    if size > MOST {
        return Err(OpenFault::TooWide { size });
    }
    match journal.turn(&summary) {
        Ok(()) => Ok(()),
        Err(AppendFault::Full { .. }) => unreachable!(),
        Err(AppendFault::DiskFault { before, now }) => Err(OpenFault::DiskFault { before, now }),
    }
}

// The centre of the events of all these bodies, which are spelled in this version. Where so many are those of records, and fewer than all,
// the first one is that of a summary.
fn replay_all(
    alloc: Global,
    version: u8,
    bodies: &Bodies,
    records: u64,
) -> Result<Centre, OpenFault>
    requires version { IsVersion version }
    requires fits { size bodies.now < 2 ^ 64 }
    ensures restored { IfOk result (λ centre. (first : Option (List ℕ)) (behind : List (List ℕ)) → bodies.now ≡ all_of first behind
        → records ≡ length behind → IsRestored version first behind centre) }
    ensures broken { IfErr result (λ f. (first : Option (List ℕ)) (behind : List (List ℕ)) → bodies.now ≡ all_of first behind
        → records ≡ length behind → IsOfBodies f version first behind) }
{
    let count = bodies.count();
    if count as u64 == records || count == 0 {
        return replay(alloc, version, bodies, 0, Centre::empty(alloc), 16);
    }
    let summary = bodies.at(0);
    match decode_summary(alloc, version, summary) {
        Ok(Some((centre, _))) => replay(
            alloc,
            version,
            bodies,
            1,
            centre,
            21 + summary.len() as u64,
        ),
        Ok(None) => Err(OpenFault::Damaged { at: 16 }),
        Err(Memory) => Err(OpenFault::Memory),
    }
}

// The centre with the events of the bodies from this one on, of which the gate stands at this place.
fn replay(
    alloc: Global,
    version: u8,
    bodies: &Bodies,
    from: usize,
    centre: Centre,
    at: u64,
) -> Result<Centre, OpenFault>
    requires version { IsVersion version }
    requires fits { size bodies.now < 2 ^ 64 }
    requires within { from ≤ length bodies.now }
    requires place { at ≡ length (bytes_before version (take from bodies.now)) }
    ensures replayed { IfOk result (λ restored. (base : Summary) → StandsFor base centre [] → base.recorded ≤ 2 ^ 48
        → IsReplayed version base (drop from bodies.now) restored) }
    ensures broken { IfErr result (λ f. (base : Summary) (first : Option (List ℕ)) → StandsFor base centre [] → base.recorded ≤ 2 ^ 48
        → take from bodies.now ≡ all_of first [] → IsOfReplay f version base first (drop from bodies.now)) }
{
    let mut centre = centre;
    let mut at = at;
    for i in from..bodies.count() {
        let body = bodies.at(i);
        match take_in(&mut centre, alloc, version, body) {
            Ok(true) => at += 5 + body.len() as u64,
            Ok(false) => return Err(OpenFault::Damaged { at }),
            Err(Memory) => return Err(OpenFault::Memory),
        }
    }
    Ok(centre)
}

// Takes the event of a body in. False where no entry goes on with it.
fn take_in(centre: &mut Centre, alloc: Global, version: u8, body: &[u8]) -> Result<bool, Memory>
    requires version { IsVersion version }
    ensures taken { IfOk result (λ taken. taken ≡ true → (base : Summary) (front : List (List ℕ))
        → IsReplayed version base front centre.old → IsReplayed version base (front ++ body.now ∷ []) centre.new) }
    ensures broken { IfOk result (λ taken. taken ≡ false → (base : Summary) (front : List (List ℕ)) (past : List Entry)
        → IsPast version base front past → StandsFor base centre.old past → HasNoNext version base front past body.now) }
{
    let Some(ready) = entry_in(centre, alloc, version, body)? else {
        return Ok(false);
    };
    let _ = centre.apply(ready);
    Ok(true)
}

/// Works out the entry that goes on with the next body of a journal, which is spelled in this version; it is to be applied to the centre or
/// discarded. What the centre keeps stays. None where no entry goes on with it: the body is no spelling, or its moment is less than the
/// last, or its event is quiet, or there are 2^48 entries. The error is want of memory.
pub fn entry_in(
    centre: &mut Centre,
    alloc: Global,
    version: u8,
    body: &[u8],
) -> Result<Option<Ready>, Memory>
    requires version { IsVersion version }
    ensures stays { (base : Summary) (h : List Entry) → StandsFor base centre.old h → StandsFor base centre.new h }
    ensures entries { centre.new.entries ≡ centre.old.entries }
    ensures sum { centre.new.sum ≡ centre.old.sum }
    ensures made { IfOk result (λ found. IfSome found (λ r. r.of ≡ centre.new)) }
    ensures few { IfOk result (λ found. IfSome found (λ _. centre.new.entries < 2 ^ 48)) }
    ensures recorded { IfOk result (λ found. IfSome found (λ r. is_recorded r.reply ≡ true)) }
    ensures spelled { IfOk result (λ found. IfSome found (λ r. HasSpellingIn version r.event r.at
        × (body.now ≡ spelling_in version r.event r.at))) }
    ensures next { IfOk result (λ found. IfSome found (λ r. (base : Summary) (front : List (List ℕ)) (past : List Entry)
        → IsPast version base front past → StandsFor base centre.new past
        → IsPast version base (front ++ body.now ∷ []) (entry_of 0 r ∷ past))) }
    ensures broken { IfOk result (λ found. IfNone found ((base : Summary) (front : List (List ℕ)) (past : List Entry)
        → IsPast version base front past → StandsFor base centre.old past → HasNoNext version base front past body.now)) }

    // Likewise of a history with quiet entries.
    ensures follows { IfOk result (λ found. IfSome found (λ r. (base : Summary) (h : List Entry)
        → StandsFor base centre.new h → IsNext base h (entry_of 0 r))) }
    ensures ends { IfOk result (λ found. IfNone found (centre.old.entries < 2 ^ 48 → (base : Summary) (h : List Entry) (e : Entry)
        → StandsFor base centre.old h → IsNextKept base h e → HasSpellingIn version e.event e.at → body.now ≡ body_in version e → ⊥)) }
{
    if centre.entries() >= 1 << 48 {
        return Ok(None);
    }
    let (event, at) = match decode(alloc, version, body)? {
        Some(spelled) => spelled,
        None => return Ok(None),
    };
    let ready = centre.prepare(alloc, event, at)?;
    if !is_recorded_at(&ready, at) {
        ready.discard();
        return Ok(None);
    }
    Ok(Some(ready))
}

// The entry will be recorded, and at just this moment.
fn is_recorded_at(ready: &Ready, at: u64) -> bool
    ensures { IsTrue result ↔ (is_recorded ready.now.reply ≡ true) × (ready.now.at ≡ at) }
{
    !ready.quiet() && ready.at() == at
}
