// Records that are added together, by one set of device calls.
ghost use Rattle.std.specs.Prelude.{◌≡◌, ◌≤◌, ◌<◌, ◌+◌, ◌++◌, [], ◌∷◌, ℕ, List, Option, true, length, take, OnOk, IfErr, MatchResult};
ghost use Rattle.arc_io.specs.Crashes.{Becomes, LeavesOnly};
ghost use Rattle.disk_journal.specs.Records.{MayHave, MayAllHave, bytes_of, records_of, need_of_all};
ghost use Rattle.disk_journal.specs.Standing.{IsDistinct, StandsForSet};
ghost use Rattle.disk_journal.specs.OtherArea.{SparesOther};
ghost use Rattle.disk_journal.specs.Behind.{SparesBehind};
ghost use Rattle.disk_journal.specs.Faults.{HasCountsOf, IsDiskFault, IsFull, IsOverWithAll};

use crate::bodies::Bodies;
use crate::fault::AppendFault;
use crate::journal::Journal;
use crate::record::{lay, write_record};
use arc_io::{Disk, Failed};

// The bytes that so many records take.
fn need_of(bodies: &Bodies) -> u64
    requires many { length bodies.now ≤ 64 }
    requires sizes { MayAllHave bodies.now }
    ensures { result ≡ need_of_all bodies.now }
{
    let mut need = 0;
    for i in 0..bodies.count() {
        need += 5 + bodies.at(i).len() as u64;
    }
    need
}

// Joins the length, the body and the gate behind it from the place on, and gives the place behind them.
fn lay_at(room: &mut [u8], at: usize, body: &[u8], gate: u8) -> usize
    requires size { MayHave (length body.now) }
    requires room { at + (5 + length body.now) ≤ length room.old }
    ensures place { result ≡ at + (5 + length body.now) }
    ensures laid { take (at + (5 + length body.now)) room.new ≡ take at room.old ++ (bytes_of body.now ++ gate ∷ []) }
    ensures long { length room.new ≡ length room.old }
{
    lay(&mut room[at..], body, gate);
    at + (5 + body.len())
}

// Joins so many records without the first gate, and the open gate of a further one, in the room's front, and gives the place behind.
fn lay_first(room: &mut [u8], bodies: &Bodies, count: usize) -> usize
    requires below { count ≤ length bodies.now }
    requires sizes { MayAllHave bodies.now }
    requires room { need_of_all (take count bodies.now) ≤ length room.old }
    ensures place { result ≡ need_of_all (take count bodies.now) }
    ensures laid { 1 ∷ take (need_of_all (take count bodies.now)) room.new ≡ records_of (take count bodies.now) ++ 1 ∷ [] }
    ensures long { length room.new ≡ length room.old }
{
    let mut place = 0;
    for i in 0..count {
        let body = bodies.at(i);
        place = lay_at(room, place, body, 1);
    }
    place
}

// Joins all records without the first gate, and a closed gate, in the room's front.
fn lay_all(room: &mut [u8], bodies: &Bodies)
    requires some { 1 ≤ length bodies.now }
    requires sizes { MayAllHave bodies.now }
    requires room { need_of_all bodies.now ≤ length room.old }
    ensures { 1 ∷ take (need_of_all bodies.now) room.new ≡ records_of bodies.now ++ 0 ∷ [] }
{
    let count = bodies.count();
    let place = lay_first(room, bodies, count - 1);
    let body = bodies.at(count - 1);
    lay_at(room, place, body, 0);
}

impl<D: Disk> Journal<D> {
    ghost use Rattle.disk_journal.specs.Journal.{Works, Holds, room_of};

    /// Adds a record for each of 1 to 64 bodies, in their order, by the device calls that one record takes. Once it has answered Ok, every
    /// crash leaves them all. It takes no memory. After a fault of the disk, open the areas again.
    pub fn append_all(&mut self, bodies: &Bodies) -> Result<(), AppendFault>
        requires works { Works D.seen self.old }
        requires some { 1 ≤ length bodies.now }
        requires many { length bodies.now ≤ 64 }
        requires sizes { MayAllHave bodies.now }
        requires room { need_of_all bodies.now ≤ room_of self.old }

        ensures works { OnOk result (Works D.seen self.new) }

        // A first body that begins as that of a summary would be read as one.
        ensures added { OnOk result ((version : ℕ) (summary : Option (List ℕ)) (before : List (List ℕ))
            → Holds D.seen self.old version summary before → IsDistinct summary (before ++ bodies.now)
            → Holds D.seen self.new version summary (before ++ bodies.now)) }

        // A crash at any moment of the call leaves what stood before it, with all the new records or with none.
        ensures any_moment { (version : ℕ) (summary : Option (List ℕ)) (before : List (List ℕ))
            → Holds D.seen self.old version summary before → IsDistinct summary (before ++ bodies.now)
            → LeavesOnly (D.seen self.old.disk) (D.seen self.new.disk) (StandsForSet version summary before bodies.now) }

        // What a read gives afterwards, too.
        ensures told { (version : ℕ) (summary : Option (List ℕ)) (before : List (List ℕ))
            → Holds D.seen self.old version summary before → IsDistinct summary (before ++ bodies.now)
            → Becomes (D.seen self.old.disk).told (D.seen self.new.disk).told (λ _ t. StandsForSet version summary before bodies.now t) }

        // Nothing but the records and their gates is written: all that stands behind is as it was, and so is the other area.
        ensures spared { (version : ℕ) (summary : Option (List ℕ)) (before : List (List ℕ))
            → Holds D.seen self.old version summary before
            → SparesOther (D.seen self.old.disk) (D.seen self.new.disk) }
        ensures behind { (version : ℕ) (summary : Option (List ℕ)) (before : List (List ℕ))
            → Holds D.seen self.old version summary before
            → SparesBehind (self.old.used + need_of_all bodies.now) (D.seen self.old.disk) (D.seen self.new.disk) }

        // Full comes exactly over a limit, before any device call.
        ensures full { IsOverWithAll self.old.used (need_of_all bodies.now) self.old.records (length bodies.now)
            self.old.limits.bytes self.old.limits.records
            → (self.new ≡ self.old) × MatchResult result (λ _. ⊥) (IsFull self.old.used (need_of_all bodies.now) self.old.records) }
        ensures cause { IfErr result (HasCountsOf
            (IsOverWithAll self.old.used (need_of_all bodies.now) self.old.records (length bodies.now)
            self.old.limits.bytes self.old.limits.records)
            (D.seen self.old.disk).faults (D.seen self.new.disk).faults) }
        ensures failed { IfErr result (λ f. IsDiskFault f → self.new.has_failed ≡ true) }
        ensures later { (D.seen self.old.disk).faults ≤ (D.seen self.new.disk).faults }
        ensures met_none { OnOk result ((D.seen self.new.disk).faults ≡ (D.seen self.old.disk).faults) }
        ensures area { self.new.area ≡ self.old.area }
        ensures version { self.new.version ≡ self.old.version }
        ensures limits { self.new.limits ≡ self.old.limits }
        ensures same_room { room_of self.new ≡ room_of self.old }
    {
        let count = bodies.count() as u64;
        let need = need_of(bodies);
        if self.limits.records < count
            || self.records > self.limits.records - count
            || need > self.limits.bytes
            || self.used > self.limits.bytes - need
        {
            return Err(AppendFault::Full {
                used: self.used,
                need,
                records: self.records,
            });
        }
        let before = self.disk.faults();
        lay_all(&mut self.room, bodies);
        let laid = &self.room[..need as usize];
        match write_record(&mut self.disk, self.area, self.used, laid) {
            Ok(()) => {
                self.used += need;
                self.records += count;
                Ok(())
            }
            Err(Failed) => {
                self.has_failed = true;
                Err(AppendFault::DiskFault {
                    before,
                    now: self.disk.faults(),
                })
            }
        }
    }
}
