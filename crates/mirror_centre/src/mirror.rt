// A mirror: a store that takes in what another centre recorded.
ghost use Rattle.std.specs.Prelude.{◌≡◌, ◌≤◌, ◌+◌, ℕ, List, Ok, Some, IfOk, IfErr, IfSome, OnOk, MatchOption, drop, length, nat_eq};
ghost use Rattle.arc_io.specs.Crashes.{LeavesOnly};
ghost use Rattle.centre_rules.specs.Summary.{Summary};
ghost use Rattle.centre_rules.specs.History.{Entry};
ghost use Rattle.centre_store.specs.Followings.{EndsWith, TakesIn, ShowsOfReplay, IsFullThenOf};
ghost use Rattle.centre_store.specs.Given.{StandForEither, HasEither, summed_size};
ghost use Rattle.centre_store.specs.Orders.{IsDownWhereFailed, IsWornFirst};
ghost use Rattle.centre_store.specs.StoreHalls.{is_told};
ghost use Rattle.centre_store.specs.Stores.{Stored, HasFailed, StoreStands, StandsOn, LeavesJournal};
ghost use Rattle.centre_store.specs.Writes.{IsWrittenOn};
ghost use Rattle.mirror_centre.specs.Messages.{Answer, Record, ask_text, IsAnswer, IsNoAnswer};
ghost use Rattle.mirror_centre.specs.Sayings.{made_of, took_of};
ghost use Rattle.mirror_centre.specs.Takings.{passed_by, IsNextRecord, IsOfNext, IsPassed, IsTold, Receives};

use crate::messages::{Said, ask_of, read_answer};
use arc_io::Disk;
use centre_core::Stop;
use centre_store::Store;
use std::alloc::Global;
use std::marker::Model;

/// What a mirror made of a message.
#[derive(Clone, Copy, Debug, PartialEq, Eq)]
pub enum Took {
    /// It was the record of the next entry, which is recorded now.
    Added,
    /// It was the record of another entry than the next one, or told that so many are summed up of which the mirror has all. Nothing
    /// changed.
    Old,
    /// It told that there is no further record yet.
    Idle,
    /// It told that so many entries are summed up, and the mirror has fewer: it has to begin from a copy of the areas.
    Behind { have: u64, count: u64 },
    /// The bytes are no answer, or no event goes on with the body of the next record. Nothing changed.
    Strange,
}

/// A store that follows another one: nothing is submitted to it, and what the other one recorded is taken in, one entry after another.
pub struct Mirror<D: Disk> {
    store: Store<D>,
}

// Written out: one call wherever one is dropped, where a derived drop is spelled out at each exit.
impl<D: Disk + Drop> Drop for Mirror<D> {
    fn drop(self) {
        let Mirror { store } = self;
        drop(store);
    }
}

impl<D: Disk> Model for Mirror<D> {
    ghost use Rattle.centre_store.specs.Stores.{Stored};

    ghost Value = { Stored D };

    ghost view = { λ m. m.store };
}

impl<D: Disk> Mirror<D> {
    /// A mirror over this store.
    pub fn new(store: Store<D>) -> Mirror<D>
        ensures { result ≡ store }
    {
        Mirror { store }
    }

    /// The ask for the entry behind those that are recorded here, which it confirms.
    pub fn ask(&self) -> [u8; 9]
        ensures { result ≡ ask_text self.now.state.sum.recorded }
    {
        ask_of(self.store.centre().recorded())
    }

    /// Takes in an answer, all of whose bytes these are. The record of the next entry is recorded as `Store::replay` does, with its stops,
    /// in their order; there Down is also the answer where the disk has failed since the opening. Everything else changes nothing, and is
    /// answered at any time.
    pub fn take(&mut self, alloc: Global, message: &[u8]) -> Result<Took, Stop>
        ensures passed { (a : Answer) → IsAnswer message.now a
            → IfSome (passed_by self.old.state.sum.recorded a) (λ took. (result ≡ Ok took) × (self.new ≡ self.old)) }
        ensures told { IfOk result (λ took. IsTold self.old.state.sum.recorded message.now took) }
        ensures garbled { IsNoAnswer message.now → (result ≡ Ok Took.Strange) × (self.new ≡ self.old) }

        // The record of the next entry.
        ensures next { (body : List ℕ) → IsNextRecord self.old.state.sum.recorded message.now body → IsOfNext result }
        ensures added { result ≡ Ok Took.Added → (body : List ℕ) × IsNextRecord self.old.state.sum.recorded message.now body
            × ((b : Summary) (h : List Entry) → StoreStands D.seen b self.old h → TakesIn D.seen b self.new h body) }
        ensures strange { result ≡ Ok Took.Strange → (body : List ℕ) → IsNextRecord self.old.state.sum.recorded message.now body
            → (b : Summary) (h : List Entry) → StoreStands D.seen b self.old h → EndsWith b h body }
        ensures counted { result ≡ Ok Took.Added → self.new.state.sum.recorded ≡ self.old.state.sum.recorded + 1 }
        ensures written { result ≡ Ok Took.Added → (body : List ℕ) → IsNextRecord self.old.state.sum.recorded message.now body
            → (b : Summary) (h : List Entry) → StoreStands D.seen b self.old h
            → IsWrittenOn self.old.journal self.new.journal (summed_size b h) (5 + length body) }

        // Where nothing was added, the mirror stands for what it stood for; without a fault of the disk its areas are as they were.
        ensures still { IfOk result (λ took. (took ≡ Took.Added → ⊥) → self.new.journal ≡ self.old.journal) }
        ensures entries { (result ≡ Ok Took.Added → ⊥) → self.new.state.entries ≡ self.old.state.entries }
        ensures sum { (result ≡ Ok Took.Added → ⊥) → self.new.state.sum ≡ self.old.state.sum }
        ensures stands { (result ≡ Ok Took.Added → ⊥) → StandsOn D.seen self.old self.new }
        ensures unwritten { LeavesJournal self.old.journal self.new.journal result }

        // When each stop comes, want of memory aside.
        ensures cause { IfErr result (λ s. (body : List ℕ) × IsNextRecord self.old.state.sum.recorded message.now body
            × ShowsOfReplay D.seen self.new body s) }
        ensures down { (body : List ℕ) → IsNextRecord self.old.state.sum.recorded message.now body
            → IsDownWhereFailed D.seen self.new result }
        ensures already { HasFailed D.seen self.old → self.new ≡ self.old }
        ensures worn { (body : List ℕ) → IsNextRecord self.old.state.sum.recorded message.now body → IsWornFirst D.seen self.old result }
        ensures full { (body : List ℕ) → IsNextRecord self.old.state.sum.recorded message.now body
            → IsFullThenOf D.seen self.old body result }

        // A crash at any moment of the call leaves the records from before it, or them and this one; and so it is after a fault.
        ensures any_moment { (body : List ℕ) → IsNextRecord self.old.state.sum.recorded message.now body
            → (b : Summary) (h : List Entry) → StoreStands D.seen b self.old h → (HasFailed D.seen self.old → ⊥)
            → LeavesOnly (D.seen self.old.journal.disk) (D.seen self.new.journal.disk) (StandForEither b h body) }
        ensures met { (body : List ℕ) → IsNextRecord self.old.state.sum.recorded message.now body
            → (b : Summary) (h : List Entry) → StoreStands D.seen b self.old h → (HasFailed D.seen self.old → ⊥)
            → HasEither (D.seen self.new.journal.disk) b h body }

        // What the law of a mirror goes by.
        ensures receives { (HasFailed D.seen self.old → ⊥) → Receives D.seen self.old self.new message.now }

        ensures tells { is_told (D.seen self.new.journal.disk).told ≡ is_told (D.seen self.old.journal.disk).told }
        ensures at_open { self.new.at_open ≡ self.old.at_open }
        ensures limits { self.new.journal.limits ≡ self.old.journal.limits }
        ensures later { (D.seen self.old.journal.disk).faults ≤ (D.seen self.new.journal.disk).faults }
        ensures met_none { OnOk result ((D.seen self.new.journal.disk).faults ≡ (D.seen self.old.journal.disk).faults) }
    {
        match passed(self.store.centre().recorded(), message) {
            Some(took) => Ok(took),
            None => outcome(self.store.replay(alloc, &message[13..])),
        }
    }

    /// Gives the store back.
    pub fn close(self) -> Store<D>
        ensures { result ≡ self }
    {
        let Mirror { store } = self;
        store
    }
}

// What a mirror with so many recorded entries makes of a message; None where it is the record of the next one.
fn passed(have: u64, message: &[u8]) -> Option<Took>
    ensures { MatchOption result (IsNextRecord have message.now (drop 13 message.now)) (λ took. IsPassed have message.now took) }
{
    made(have, read_answer(message))
}

// And of what was read of it.
fn made(have: u64, said: Option<Said>) -> Option<Took>
    ensures { result ≡ made_of have said }
{
    match said {
        Some(Said::Record { number }) if is_next(have, number) => None,
        Some(Said::Record { .. }) => Some(Took::Old),
        Some(Said::End) => Some(Took::Idle),
        Some(Said::Summed { count }) if count > have => Some(Took::Behind { have, count }),
        Some(Said::Summed { .. }) => Some(Took::Old),
        None => Some(Took::Strange),
    }
}

// Whether this is the number of the entry behind so many.
fn is_next(have: u64, number: u64) -> bool
    ensures { result ≡ nat_eq number (have + 1) }
{
    number > have && number - have == 1
}

// What is made of the record of the next entry, by what recording it answered.
fn outcome(replayed: Result<bool, Stop>) -> Result<Took, Stop>
    ensures { result ≡ took_of replayed }
{
    match replayed {
        Ok(true) => Ok(Took::Added),
        Ok(false) => Ok(Took::Strange),
        Err(stop) => Err(stop),
    }
}
