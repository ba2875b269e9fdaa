// The journal: it opens the areas of a disk, appends records to the one that counts, reads their bodies again, puts a new summary into the
// other one, and gives the disk back.
ghost use Rattle.std.specs.Prelude.{◌≡◌, ◌⊎◌, ◌≤◌, ◌<◌, ◌+◌, ◌^◌, ◌↔◌, ◌++◌, [], ◌∷◌, ℕ, List, Option, Some, true, false, length, slice_index_or, OnOk, OnErr, IfOk, IfErr, IfSome, MatchResult, vec_len};
ghost use Rattle.arc_io.specs.Crashes.{Becomes, IsQuiet, LeavesOnly};
ghost use Rattle.disk_journal.specs.Records.{MayHave};
ghost use Rattle.disk_journal.specs.Standing.{chosen_part, other_of, GoesOn, IsDistinct, StandsForEither, StandsForTurn};
ghost use Rattle.disk_journal.specs.Turning.{Changes, IsNextTo};
ghost use Rattle.disk_journal.specs.OtherArea.{IsSameIn, SparesOther};
ghost use Rattle.disk_journal.specs.Behind.{SparesBehind};
ghost use Rattle.disk_journal.specs.Faults.{IsShown, IsOfContent, HasCause, IsOver, IsFull, IsDiskFault, HasCountsOf, HasReadCounts, IsFaultOfReading};

use crate::bodies::Bodies;
use crate::fault::{AppendFault, BodyFault, OpenFault};
use crate::open::{WRITTEN, load};
use crate::reading::{find_body, is_of_disk};
use crate::record::{lay, write_record};
use crate::summary::{generation_of, place_behind, records_of};
use crate::turn::{other, write_turn};
use arc_data::Memory;
use arc_io::{Area, Disk, Failed};
use std::alloc::Global;

/// How much a journal may hold: the bytes of one area, and the records behind its summary.
#[derive(Clone, Copy, Debug, PartialEq, Eq)]
pub struct Limits {
    pub bytes: u64,
    pub records: u64,
}

/// The limits that are shipped.
pub const SHIPPED: Limits = Limits {
    bytes: 268_435_456,
    records: 1_000_000,
};

/// The body of a summary, or none, and records, in the area of a disk that counts.
pub struct Journal<D: Disk> {
    pub(crate) disk: D,
    pub(crate) area: Area,
    version: u8,
    generation: u64,
    pub(crate) used: u64,
    pub(crate) records: u64,
    pub(crate) has_failed: bool,
    // The places of the gate of the first record, and of the one behind so many of them, where reading one after another goes on.
    first: u64,
    next: u64,
    place: u64,
    pub(crate) limits: Limits,
    alloc: Global,
    pub(crate) room: Vec<u8>,
}

// Written out: one call wherever one is dropped, where a derived drop is spelled out at each exit.
impl<D: Disk + Drop> Drop for Journal<D> {
    fn drop(self) {
        let Journal {
            disk,
            area: _,
            version: _,
            generation: _,
            used: _,
            records: _,
            has_failed: _,
            first: _,
            next: _,
            place: _,
            limits: _,
            alloc: _,
            room,
        } = self;
        drop(disk);
        drop(room);
    }
}

/// Why the areas were not opened, and their disk.
#[derive(Drop)]
pub struct OpenRefused<D: Disk> {
    pub fault: OpenFault,
    pub disk: D,
}

impl<D: Disk> Journal<D> {
    ghost use Rattle.disk_journal.specs.Journal.{Works, Holds, IsGateBehind, IsPlaced, IsReadOf, IsOpen, room_of, disk_after};

    /// Opens the journal of both areas, and gives the bodies for which they stand, that of the summary first. Where none is live, area A
    /// counts, and with at most 17 bytes it is a new one.
    pub fn open(
        alloc: Global,
        disk: D,
        limits: Limits,
    ) -> Result<(Journal<D>, Bodies), OpenRefused<D>>
        requires few { limits.bytes < 2 ^ 32 }

        // What is given is what the areas stood for, and a refusal shows why they stood for nothing.
        ensures works { IfOk result (λ r. Works D.seen r.0) }
        ensures opened { IfOk result (λ r. IsOpen D.seen disk r.0 r.1) }
        ensures limits { IfOk result (λ r. r.0.limits ≡ limits) }
        ensures room { IfOk result (λ r. room_of r.0 ≡ 0) }
        ensures shown { IfErr result (λ r. IfSome (D.seen disk).told (λ s. IsShown r.fault (chosen_part s))) }
        ensures counts { IfErr result (λ r. HasCause r.fault (D.seen disk).faults (D.seen r.disk).faults) }

        // A crash at any moment of the call leaves what stands for all that an image at its start stood for, and so does a read.
        ensures goes_on { Changes GoesOn (D.seen disk) (D.seen (disk_after result)) }
        ensures spared { SparesOther (D.seen disk) (D.seen (disk_after result)) }

        // Where the bytes of the area are refused, or some body stands there, nothing was written; nor where they are more than 17, or are
        // those of the first version.
        ensures unwritten { IfErr result (λ r. IsOfContent r.fault → IsQuiet (D.seen disk) (D.seen r.disk)) }
        ensures untouched { IfOk result (λ r. (r.1 ≡ [] → ⊥) → IsQuiet (D.seen disk) (D.seen r.0.disk)) }
        ensures first { IfOk result (λ r. r.0.version ≡ 1 → IsQuiet (D.seen disk) (D.seen r.0.disk)) }
        ensures long { IfSome (D.seen disk).told (λ s. 17 < length (chosen_part s)
            → IsQuiet (D.seen disk) (D.seen (disk_after result))) }
        ensures later { (D.seen disk).faults ≤ (D.seen (disk_after result)).faults }

        // An opening that answers Ok met no fault.
        ensures met_none { IfOk result (λ r. (D.seen r.0.disk).faults ≡ (D.seen disk).faults) }
    {
        let mut disk = disk;
        match load(alloc, &mut disk) {
            Ok(loaded) => {
                let generation = generation_of(loaded.found, &loaded.bodies);
                let records = records_of(loaded.found, &loaded.bodies);
                let first = place_behind(loaded.found, &loaded.bodies);
                let journal = Journal {
                    disk,
                    area: loaded.area,
                    version: loaded.version,
                    generation,
                    used: loaded.used,
                    records,
                    has_failed: false,
                    first,
                    next: 0,
                    place: first,
                    limits,
                    alloc,
                    room: Vec::new(alloc),
                };
                Ok((journal, loaded.bodies))
            }
            Err(fault) => Err(OpenRefused { fault, disk }),
        }
    }

    /// Takes the memory that records of so many bytes, gates included, are joined in. Nothing else changes, and
    /// nothing at all where memory is refused.
    pub fn reserve(&mut self, bytes: u64) -> Result<(), Memory>
        ensures room { OnOk result (bytes ≤ room_of self.new) }
        ensures no_less { room_of self.old ≤ room_of self.new }
        ensures same { self.new ≡ record self.old { room = self.new.room } }
        ensures refused { OnErr result (self.new ≡ self.old) }
    {
        let bytes = bytes as usize;
        if self.room.len() < bytes {
            match vec![in self.alloc; 0; bytes] {
                Ok(room) => self.room = room,
                Err(_) => return Err(Memory),
            }
        }
        Ok(())
    }

    /// Adds a record. Once it has answered Ok, every crash leaves it. It takes no memory. After a fault of the disk,
    /// open the areas again.
    pub fn append(&mut self, body: &[u8]) -> Result<(), AppendFault>
        requires works { Works D.seen self.old }
        requires size { MayHave (length body.now) }
        requires room { 5 + length body.now ≤ room_of self.old }

        ensures works { OnOk result (Works D.seen self.new) }

        // A first body that begins as that of a summary would be read as one.
        ensures added { OnOk result ((version : ℕ) (summary : Option (List ℕ)) (bodies : List (List ℕ))
            → Holds D.seen self.old version summary bodies → IsDistinct summary (bodies ++ body.now ∷ [])
            → Holds D.seen self.new version summary (bodies ++ body.now ∷ [])) }

        // A crash at any moment of the call leaves what stood before it, with the new record or without.
        ensures any_moment { (version : ℕ) (summary : Option (List ℕ)) (bodies : List (List ℕ))
            → Holds D.seen self.old version summary bodies → IsDistinct summary (bodies ++ body.now ∷ [])
            → LeavesOnly (D.seen self.old.disk) (D.seen self.new.disk) (StandsForEither version summary bodies body.now) }

        // What a read gives afterwards, too.
        ensures told { (version : ℕ) (summary : Option (List ℕ)) (bodies : List (List ℕ))
            → Holds D.seen self.old version summary bodies → IsDistinct summary (bodies ++ body.now ∷ [])
            → Becomes (D.seen self.old.disk).told (D.seen self.new.disk).told (λ _ t. StandsForEither version summary bodies body.now t) }

        // Nothing but the record and its gates is written: all that stands behind is as it was, and so is the other area.
        ensures spared { (version : ℕ) (summary : Option (List ℕ)) (bodies : List (List ℕ))
            → Holds D.seen self.old version summary bodies
            → SparesOther (D.seen self.old.disk) (D.seen self.new.disk) }
        ensures behind { (version : ℕ) (summary : Option (List ℕ)) (bodies : List (List ℕ))
            → Holds D.seen self.old version summary bodies
            → SparesBehind (self.old.used + 5 + length body.now) (D.seen self.old.disk) (D.seen self.new.disk) }

        // Full comes exactly over a limit, before any device call.
        ensures full { IsOver self.old.used (5 + length body.now) self.old.records self.old.limits.bytes self.old.limits.records
            → (self.new ≡ self.old) × MatchResult result (λ _. ⊥) (IsFull self.old.used (5 + length body.now) self.old.records) }
        ensures cause { IfErr result (HasCountsOf
            (IsOver self.old.used (5 + length body.now) self.old.records self.old.limits.bytes self.old.limits.records)
            (D.seen self.old.disk).faults (D.seen self.new.disk).faults) }
        ensures failed { IfErr result (λ f. IsDiskFault f → self.new.has_failed ≡ true) }
        ensures later { (D.seen self.old.disk).faults ≤ (D.seen self.new.disk).faults }
        ensures met_none { OnOk result ((D.seen self.new.disk).faults ≡ (D.seen self.old.disk).faults) }
        ensures area { self.new.area ≡ self.old.area }
        ensures version { self.new.version ≡ self.old.version }
        ensures limits { self.new.limits ≡ self.old.limits }
        ensures same_room { room_of self.new ≡ room_of self.old }
    {
        let need = 5 + body.len() as u64;
        if self.records >= self.limits.records
            || need > self.limits.bytes
            || self.used > self.limits.bytes - need
        {
            return Err(AppendFault::Full {
                used: self.used,
                need,
                records: self.records,
            });
        }
        let before = self.disk.faults();
        lay(&mut self.room, body, 0);
        let laid = &self.room[..need as usize];
        match write_record(&mut self.disk, self.area, self.used, laid) {
            Ok(()) => {
                self.used += need;
                self.records += 1;
                Ok(())
            }
            Err(Failed) => {
                self.has_failed = true;
                Err(AppendFault::DiskFault {
                    before,
                    now: self.disk.faults(),
                })
            }
        }
    }

    /// Puts the body of a new summary into the other area, which counts from then on, and has no record yet. Once it has answered Ok,
    /// every crash leaves it. It takes no memory. After a fault of the disk, open the areas again.
    pub fn turn(&mut self, body: &[u8]) -> Result<(), AppendFault>
        requires works { Works D.seen self.old }
        requires next { IsNextTo self.old.generation body.now }
        requires short { length body.now ≤ 4_294_967_295 }

        ensures works { OnOk result (Works D.seen self.new) }
        ensures turned { OnOk result ((version : ℕ) (summary : Option (List ℕ)) (bodies : List (List ℕ))
            → Holds D.seen self.old version summary bodies → Holds D.seen self.new 2 (Some body.now) []) }

        // A crash at any moment of the call leaves what stood before it, or the new summary and no records.
        ensures any_moment { (version : ℕ) (summary : Option (List ℕ)) (bodies : List (List ℕ))
            → Holds D.seen self.old version summary bodies
            → LeavesOnly (D.seen self.old.disk) (D.seen self.new.disk) (StandsForTurn version summary bodies body.now) }

        // What a read gives afterwards, too.
        ensures told { (version : ℕ) (summary : Option (List ℕ)) (bodies : List (List ℕ))
            → Holds D.seen self.old version summary bodies
            → Becomes (D.seen self.old.disk).told (D.seen self.new.disk).told (λ _ t. StandsForTurn version summary bodies body.now t) }

        // The area that counted before keeps all its bytes, at any moment and in whatever a crash leaves. Behind Ok the journal's is the other.
        ensures spared { Changes (IsSameIn self.old.area) (D.seen self.old.disk) (D.seen self.new.disk) }
        ensures area { OnOk result (self.new.area ≡ other_of self.old.area) }

        ensures generation { OnOk result (self.new.generation ≡ self.old.generation + 1) }
        ensures version { OnOk result (self.new.version ≡ 2) }

        // A fault of the disk is the one refusal.
        ensures cause { IfErr result (HasCountsOf ⊥ (D.seen self.old.disk).faults (D.seen self.new.disk).faults) }
        ensures failed { OnErr result (self.new.has_failed ≡ true) }
        ensures later { (D.seen self.old.disk).faults ≤ (D.seen self.new.disk).faults }
        ensures met_none { OnOk result ((D.seen self.new.disk).faults ≡ (D.seen self.old.disk).faults) }
        ensures limits { self.new.limits ≡ self.old.limits }
        ensures same_room { room_of self.new ≡ room_of self.old }
    {
        let before = self.disk.faults();
        let next = other(self.area);
        match write_turn(&mut self.disk, next, body) {
            Ok(()) => {
                self.area = next;
                self.version = WRITTEN;
                self.generation += 1;
                self.used = 22 + body.len() as u64;
                self.records = 0;
                self.first = 21 + body.len() as u64;
                self.next = 0;
                self.place = self.first;
                Ok(())
            }
            Err(Failed) => {
                self.has_failed = true;
                Err(AppendFault::DiskFault {
                    before,
                    now: self.disk.faults(),
                })
            }
        }
    }

    // Where a walk to a record begins: behind how many records, and the place of the gate there.
    fn start(&self, i: u64) -> (u64, u64)
        ensures ahead { result.0 ≤ i }
        ensures place { (summary : Option (List ℕ)) (bodies : List (List ℕ)) → IsPlaced D.seen self.now summary bodies
            → IsGateBehind (D.seen self.now.disk).told summary bodies result.0 result.1 }
    {
        if i < self.next {
            (0, self.first)
        } else {
            (self.next, self.place)
        }
    }

    /// Puts the body of the record at a place behind the summary, counted from 0, behind the others in `out`. Records that are asked for one
    /// after another are found without a walk over those before them; another one is walked to, from the last one or from the first. A byte
    /// that the disk does not give counts as 00. `DiskFault` comes where a device call failed; open the areas again then.
    pub fn body(&mut self, i: u64, out: &mut Bodies) -> Result<(), BodyFault>
        requires works { Works D.seen self.old }
        requires below { i < self.old.records }

        ensures given { OnOk result ((version : ℕ) (summary : Option (List ℕ)) (bodies : List (List ℕ))
            → Holds D.seen self.old version summary bodies
            → IfSome (D.seen self.old.disk).told (λ _. out.new ≡ out.old ++ slice_index_or bodies i [] ∷ [])) }
        ensures pushed { OnOk result ((body : List ℕ) × (out.new ≡ out.old ++ body ∷ [])) }
        ensures refused { OnErr result (out.new ≡ out.old) }

        // Nothing is written, and what the journal holds stays.
        ensures same { IsReadOf self.old self.new }
        ensures quiet { IsQuiet (D.seen self.old.disk) (D.seen self.new.disk) }
        ensures works { (self.new.has_failed ≡ true → ⊥) → Works D.seen self.new }
        ensures holds { (self.new.has_failed ≡ true → ⊥) → (version : ℕ) (summary : Option (List ℕ)) (bodies : List (List ℕ))
            → Holds D.seen self.old version summary bodies → Holds D.seen self.new version summary bodies }

        ensures up { OnOk result (self.new.has_failed ≡ false) }
        ensures failed { IfErr result (λ f. (self.new.has_failed ≡ true) ↔ IsFaultOfReading f) }
        ensures counts { IfErr result (HasReadCounts (D.seen self.old.disk).faults (D.seen self.new.disk).faults) }
        ensures later { (D.seen self.old.disk).faults ≤ (D.seen self.new.disk).faults }
        ensures met_none { (self.new.has_failed ≡ true → ⊥) → (D.seen self.new.disk).faults ≡ (D.seen self.old.disk).faults }
    {
        let before = self.disk.faults();
        let (next, place) = self.start(i);
        match find_body(
            self.alloc,
            &mut self.disk,
            before,
            self.area,
            next,
            place,
            i,
        ) {
            Ok((place, body)) => {
                self.next = i + 1;
                self.place = place;
                match out.push_vec(body) {
                    Ok(()) => Ok(()),
                    Err(_) => Err(BodyFault::Memory),
                }
            }
            Err(fault) => {
                self.has_failed = is_of_disk(fault);
                Err(fault)
            }
        }
    }

    /// The place of the closed gate, plus 1.
    pub fn used(&self) -> u64
        ensures { result ≡ self.now.used }
    {
        self.used
    }

    /// The version of the area that counts, by whose table the bodies are spelled.
    pub fn version(&self) -> u8
        ensures { result ≡ self.now.version }
    {
        self.version
    }

    /// The generation of the summary, 0 without one.
    pub fn generation(&self) -> u64
        ensures { result ≡ self.now.generation }
    {
        self.generation
    }

    /// How many records there are behind the summary.
    pub fn records(&self) -> u64
        ensures { result ≡ self.now.records }
    {
        self.records
    }

    /// How much it may hold.
    pub fn limits(&self) -> Limits
        ensures { result ≡ self.now.limits }
    {
        self.limits
    }

    /// The disk.
    pub fn disk(&self) -> &D
        ensures { result.now ≡ self.now.disk }
    {
        &self.disk
    }

    /// Gives the disk back.
    pub fn close(self) -> D
        ensures { result ≡ self.disk }
    {
        let Journal {
            disk,
            area: _,
            version: _,
            generation: _,
            used: _,
            records: _,
            has_failed: _,
            first: _,
            next: _,
            place: _,
            limits: _,
            alloc: _,
            room,
        } = self;
        drop(room);
        disk
    }
}
