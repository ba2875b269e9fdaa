// Events that are submitted together, and what is answered of them.
ghost use Rattle.std.specs.Prelude.{◌≡◌, ◌≤◌, ◌<◌, ◌↔◌, ◌++◌, ◌∷◌, [], length, slice_get, true, false, Some, Ok, IfOk, IfSome, IfNone};
ghost use Rattle.arc_data.specs.WellFormed.{IsWellFormed};
ghost use Rattle.centre_core.specs.Batches.{MayBeSubmitted};
ghost use Rattle.centre_core.specs.Runs.{IsSubmitted};
ghost use Rattle.centre_rules.specs.History.{IsMoment};

use crate::hall::Stop;
use crate::ready::Done;
use arc_data::{Event, Memory};
use std::alloc::Global;
use std::collections::VecDeque;
use std::marker::Model;

// How many events a batch takes at most: a journal adds so many records together.
const MOST: usize = 64;

/// An event that is submitted at a reading of the clock (seconds since 1970).
#[derive(Drop)]
pub struct Submission {
    pub event: Event,
    pub clock: u64,
}

/// Events to be submitted together, at most 64. Contracts see their list, the first one first.
#[derive(Drop)]
pub struct Batch {
    // A store takes the first one off here, and may put it back without memory: its room stays.
    pub calls: VecDeque<Submission>,
}

impl Model for Batch {
    ghost use Rattle.std.specs.Prelude.{List};
    ghost use Rattle.centre_core.specs.declared.batch.Submission.{Submission};
    ghost use Rattle.centre_core.specs.Batches.{IsBatch};

    ghost Value = { List Submission };

    ghost view = { λ b. b.calls.items };

    ghost invariant = { λ b. IsBatch b.calls.items };
}

impl Batch {
    /// No events. It takes no memory.
    pub fn new(alloc: Global) -> Batch
        ensures { result ≡ [] }
    {
        Batch {
            calls: VecDeque::new(alloc),
        }
    }

    /// Puts an event last, to be submitted at this reading of the clock (seconds since 1970). False where there are 64 already. Then, and
    /// where memory is refused, the event is dropped, and nothing changes.
    pub fn push(&mut self, event: Event, clock: u64) -> Result<bool, Memory>
        requires submitted { IsSubmitted event }
        requires formed { IsWellFormed event }
        requires clock { IsMoment clock }

        ensures pushed { IfOk result (λ pushed. pushed ≡ true → self.new ≡ self.old ++ (record { event = event; clock = clock }) ∷ []) }
        ensures full { (64 ≤ length self.old) ↔ (result ≡ Ok false) }
        ensures still { (result ≡ Ok true → ⊥) → self.new ≡ self.old }
    {
        if self.calls.len() >= MOST {
            return Ok(false);
        }
        match self.calls.push_back(Submission { event, clock }) {
            Ok(()) => Ok(true),
            Err(_) => Err(Memory),
        }
    }

    /// Puts one last, or gives it back: where there are 64 already, and where memory is refused.
    pub fn offer(&mut self, call: Submission) -> Option<Submission>
        requires { MayBeSubmitted call }
        ensures taken { IfNone result (self.new ≡ self.old ++ call ∷ []) }
        ensures back { IfSome result (λ back. (back ≡ call) × (self.new ≡ self.old)) }
        ensures full { 64 ≤ length self.old → result ≡ Some call }
    {
        if self.calls.len() >= MOST {
            return Some(call);
        }
        match self.calls.reserve(1) {
            Ok(()) => {
                self.calls.push_back_reserved(call);
                None
            }
            Err(_) => Some(call),
        }
    }

    /// How many there are.
    pub fn count(&self) -> usize
        ensures count { result ≡ length self.now }
        ensures few { result ≤ 64 }
    {
        self.calls.len()
    }
}

/// What the caller is told of events that were submitted together. Contracts see a list, that of the first one first.
#[derive(Debug, Drop)]
pub struct Dones {
    // A store takes the room for what is told of an entry here before it makes the entry.
    pub dones: Vec<Done>,
}

impl Model for Dones {
    ghost use Rattle.std.specs.Prelude.{List};
    ghost use Rattle.centre_core.specs.declared.ready.Done.{Done};

    ghost Value = { List Done };

    ghost view = { λ d. d.dones.items };
}

impl Dones {
    /// Of no events. It takes no memory.
    pub fn new(alloc: Global) -> Dones
        ensures { result ≡ [] }
    {
        Dones {
            dones: Vec::new(alloc),
        }
    }

    /// Of how many events it is told.
    pub fn count(&self) -> usize
        ensures { result ≡ length self.now }
    {
        self.dones.len()
    }

    /// What is told of the one at a place below the count.
    pub fn at(&self, i: usize) -> &Done
        requires { i < length self.now }
        ensures { slice_get self.now i ≡ Some result.now }
    {
        &self.dones[i]
    }
}

/// What is answered to events that were submitted together: what is told of those that were entered, and what stopped the others.
#[derive(Debug, Drop)]
pub struct Grouped {
    pub done: Dones,
    pub stop: Option<Stop>,
}

impl Grouped {
    /// That none was entered. It takes no memory.
    pub fn stopped(alloc: Global, stop: Stop) -> Grouped
        ensures done { result.done ≡ [] }
        ensures stop { result.stop ≡ Some stop }
    {
        Grouped {
            done: Dones::new(alloc),
            stop: Some(stop),
        }
    }
}
