// An area, read record by record from its front on.
ghost use Rattle.std.specs.Prelude.{◌≡◌, ◌≢◌, ◌≤◌, ◌<◌, ◌+◌, ◌^◌, [], ◌∷◌, ◌++◌, ℕ, List, Option, false, length, IfOk, IfSome, IfNone};
ghost use Rattle.std.specs.Int.{to_be_bytes, from_be_bytes, w32};
ghost use Rattle.arc_io.specs.Causes.{Rose};
ghost use Rattle.arc_io.specs.Told.{OnlyReads};
ghost use Rattle.disk_journal.specs.Faults.{IsShown, IsOfFront};
ghost use Rattle.disk_journal.specs.Records.{most_at};
ghost use Rattle.disk_journal.specs.declared.fault.OpenFault.{OpenFault as AnOpenFault};
ghost use Rattle.arc_book.specs.Tapes.{ahead, IsReadTo, IsBodyAhead, IsBrokenAhead};

use crate::intake::Intake;
use arc_data::Memory;
use arc_io::{ReadEnd, Source};
use disk_journal::{OpenFault, check_front};
use std::alloc::Global;

// The most bytes that a body may have, but the first one of a journal where it is that of a summary.
const MOST: u32 = 4_194_400;

/// The first byte of the body of a summary.
pub(crate) const TAG: u8 = 11;

/// Where the first gate of an area stands.
pub(crate) const FIRST: u64 = 16;

// No record is read whose gate stands at this place or behind it.
const LIMIT: u64 = 1 << 40;

/// What the front of an area is.
#[derive(Clone, Copy)]
pub(crate) enum Front {
    /// It has at most 17 bytes, so it has no record.
    Fresh,
    /// It isn't the front of a journal.
    Refused(OpenFault),
    /// That of a journal of this version.
    Journal(u8),
}

/// What stands behind the records that were read.
#[derive(Clone, Copy)]
pub(crate) enum Next {
    /// One record more, which was read.
    Body,
    /// A closed gate.
    Closed,
    /// An open gate without a whole record.
    Broken,
    /// An open gate so far behind that no more is read.
    Spent,
}

/// An area that is read. The gate behind the last record that was read, and its place, are known; the body is that record's.
pub(crate) struct Tape {
    pub intake: Intake,
    pub body: Vec<u8>,
    pub gate: u8,
    pub at: u64,
}

// Written out: one call wherever one is dropped, where a derived drop is spelled out at each exit.
impl Drop for Tape {
    fn drop(self) {
        let Tape {
            intake,
            body,
            gate: _,
            at: _,
        } = self;
        drop(intake);
        drop(body);
    }
}

impl Tape {
    /// An area of which nothing was read. The error is want of memory.
    pub(crate) fn new(alloc: Global) -> Result<Tape, Memory>
        ensures { IfOk result (λ t. t.intake ≡ []) }
    {
        let intake = Intake::new(alloc)?;
        Ok(Tape {
            intake,
            body: Vec::new(alloc),
            gate: 0,
            at: 16,
        })
    }

    /// Reads the front of the area, up to its first gate.
    pub(crate) fn open<S: Source>(&mut self, source: &mut S) -> Result<Front, ReadEnd>
        requires { (S.seen source.old).ended ≡ false }
        ensures fresh { IfOk result (λ f. f ≡ Front.Fresh → IfSome (ahead self.old.intake (S.seen source.old).left) (λ bytes. length bytes ≤ 17)) }
        ensures refused { (fault : AnOpenFault) → result ≡ Ok (Front.Refused fault) → IsOfFront fault
            × IfSome (ahead self.old.intake (S.seen source.old).left) (IsShown fault) }
        ensures journal { (version : ℕ) → result ≡ Ok (Front.Journal version) → ((S.seen source.new).ended ≡ false)
            × IsReadTo version (ahead self.old.intake (S.seen source.old).left) [] self.new.gate self.new.at (ahead self.new.intake (S.seen source.new).left) }
        ensures failed { result ≡ Err ReadEnd.Failed → Rose (S.seen source.old).read_faults (S.seen source.new).read_faults }
        ensures later { (S.seen source.old).read_faults ≤ (S.seen source.new).read_faults }
        ensures others { OnlyReads (S.seen source.old) (S.seen source.new) }
    {
        if !self.intake.fill(source, &mut self.body, 17)? || !self.intake.more(source)? {
            return Ok(Front::Fresh);
        }
        let mut front = [0; 16];
        front.copy_from_slice(&self.body[..16]);
        match check_front(&front) {
            Ok(version) => {
                self.gate = self.body[16];
                self.at = 16;
                Ok(Front::Journal(version))
            }
            Err(fault) => Ok(Front::Refused(fault)),
        }
    }

    /// Reads the record behind the gate, where it is open, and the next gate.
    pub(crate) fn next<S: Source>(&mut self, source: &mut S) -> Result<Next, ReadEnd>
        requires ended { (S.seen source.old).ended ≡ false }
        ensures body { IfOk result (λ n. n ≡ Next.Body → (version : ℕ) (all : Option (List ℕ)) (bodies : List (List ℕ))
            → IsReadTo version all bodies self.old.gate self.old.at (ahead self.old.intake (S.seen source.old).left)
            → IsReadTo version all (bodies ++ self.new.body.items ∷ []) self.new.gate self.new.at (ahead self.new.intake (S.seen source.new).left)) }
        ensures on { IfOk result (λ n. n ≡ Next.Body → ((S.seen source.new).ended ≡ false) × (self.old.at < 2 ^ 40) × (self.old.at < self.new.at)) }
        ensures closed { IfOk result (λ n. n ≡ Next.Closed → self.old.gate ≢ 1) }
        ensures broken { IfOk result (λ n. n ≡ Next.Broken → (self.old.gate ≡ 1)
            × IsBrokenAhead self.old.at (ahead self.old.intake (S.seen source.old).left)) }
        ensures spent { IfOk result (λ n. n ≡ Next.Spent → (self.old.gate ≡ 1) × (2 ^ 40 ≤ self.old.at)) }
        ensures stays { IfOk result (λ n. (n ≡ Next.Body → ⊥) → (self.new.at ≡ self.old.at) × (self.new.gate ≡ self.old.gate)) }
        ensures failed { result ≡ Err ReadEnd.Failed → Rose (S.seen source.old).read_faults (S.seen source.new).read_faults }
        ensures later { (S.seen source.old).read_faults ≤ (S.seen source.new).read_faults }
        ensures others { OnlyReads (S.seen source.old) (S.seen source.new) }
    {
        if self.gate != 1 {
            return Ok(Next::Closed);
        }
        if self.at >= LIMIT {
            return Ok(Next::Spent);
        }
        let Some(gate) = self.next_body(source)? else {
            return Ok(Next::Broken);
        };
        self.at += 5 + self.body.len() as u64;
        self.gate = gate;
        Ok(Next::Body)
    }

    // Reads the length and the body of a record and the gate behind it, which is the answer. None where no whole record stands there.
    fn next_body<S: Source>(&mut self, source: &mut S) -> Result<Option<u8>, ReadEnd>
        requires { (S.seen source.old).ended ≡ false }
        ensures some { IfOk result (λ found. IfSome found (λ gate. IsBodyAhead self.old.at (ahead self.old.intake (S.seen source.old).left) self.new.body.items gate
            (ahead self.new.intake (S.seen source.new).left) × ((S.seen source.new).ended ≡ false))) }
        ensures none { IfOk result (λ found. IfNone found (IsBrokenAhead self.old.at (ahead self.old.intake (S.seen source.old).left))) }
        ensures stays { (self.new.gate ≡ self.old.gate) × (self.new.at ≡ self.old.at) }
        ensures failed { result ≡ Err ReadEnd.Failed → Rose (S.seen source.old).read_faults (S.seen source.new).read_faults }
        ensures later { (S.seen source.old).read_faults ≤ (S.seen source.new).read_faults }
        ensures others { OnlyReads (S.seen source.old) (S.seen source.new) }
    {
        if !self.intake.fill(source, &mut self.body, 4)? {
            return Ok(None);
        }
        let size = number_in(&self.body);
        if !self.intake.more(source)? {
            return Ok(None);
        }
        if size == 0 || size > most(self.at, self.intake.front(1)[0]) {
            return Ok(None);
        }
        if !self.intake.fill(source, &mut self.body, size as usize + 1)? {
            return Ok(None);
        }
        // A source that tells nothing might have shown another byte than it gives.
        let first = self.body[0];
        if size > most(self.at, first) {
            return Ok(None);
        }
        Ok(self.body.pop())
    }
}

// The most bytes that the body behind the gate at this place may have, by its first byte.
fn most(place: u64, byte: u8) -> u32
    ensures { result ≡ most_at place byte }
{
    if place == FIRST && byte == TAG {
        u32::MAX
    } else {
        MOST
    }
}

// The number in four bytes, from which they come back.
fn number_in(prefix: &[u8]) -> u32
    requires { length prefix.now ≡ 4 }
    ensures number { result ≡ from_be_bytes w32 prefix.now }
    ensures back { to_be_bytes w32 result ≡ prefix.now }
{
    u32::from_be_bytes([prefix[0], prefix[1], prefix[2], prefix[3]])
}
