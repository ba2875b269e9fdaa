// Deadlines by place, sorted.
ghost use Rattle.std.specs.Prelude.{◌≡◌, ◌<◌, ◌≤◌, [], length, slice_set, OnOk, OnErr};
ghost use Rattle.supervision.specs.Deadlines.{with_room, due_at, pairs_of, TakesTwice, TakesOneMore};

use crate::pairs::{count_passed, put_in, put_places, take_out};
use crate::places::Places;
use arc_data::Memory;
use arc_text::Steps;
use operator_queue::OrderedPairs;
use std::alloc::Global;
use std::marker::Model;
use std::sync::ledger::Ledger;

/// One deadline or none for each place that has room: the places from 0 up to a number. Contracts see them as a list, in the
/// order of the places. Deadlines are seconds since 1970, GMT.
pub struct Watch {
    deadlines: Vec<Option<u64>>,
    sorted: OrderedPairs,
}

// Written out: one call wherever one is dropped, where a derived drop is spelled out at each exit.
impl Drop for Watch {
    fn drop(self) {
        let Watch { deadlines, sorted } = self;
        drop(deadlines);
        drop(sorted);
    }
}

impl Model for Watch {
    ghost use Rattle.std.specs.Prelude.{ℕ, List, Option};
    ghost use Rattle.supervision.specs.Deadlines.{IsSortedFrom};

    ghost Value = { List (Option ℕ) };

    ghost view = { λ w. w.deadlines.items };

    ghost invariant = { λ w. IsSortedFrom w.deadlines.items w.sorted };
}

impl Watch {
    /// No place has room. Takes no memory.
    pub fn new(alloc: Global) -> Watch
        ensures { result ≡ [] }
    {
        Watch {
            deadlines: Vec::new(alloc),
            sorted: OrderedPairs::new(alloc),
        }
    }

    /// Takes memory for the places below this number. Those that had no room have no deadline; what had room keeps its own. The
    /// error is want of memory, and then nothing changes.
    pub fn reserve(&mut self, places: usize) -> Result<(), Memory>
        ensures reserved { OnOk result (self.new ≡ with_room places self.old) }
        ensures room { OnOk result (places ≤ length self.new) }
        ensures memory { OnErr result (self.new ≡ self.old) }
    {
        if places <= self.deadlines.len() {
            return Ok(());
        }
        let more = places.saturating_sub(self.sorted.count());
        let Ok(()) = self.sorted.reserve(more) else {
            return Err(Memory);
        };
        let Ok(()) = self.deadlines.resize(places, None) else {
            return Err(Memory);
        };
        Ok(())
    }

    /// Gives a place that has room this deadline, or none, in place of its own. Takes no memory. Where it is its own already, nothing
    /// is looked for.
    pub fn set<L: Ledger>(&mut self, place: usize, deadline: Option<u64>, steps: &mut Steps<L>)
        requires { place < length self.old }
        ensures set { self.new ≡ slice_set self.old place deadline }
        ensures cost { TakesTwice (length (pairs_of self.old)) steps.old steps.new }
    {
        let before = self.deadlines[place];
        if before == deadline {
            return;
        }
        take_out(&mut self.sorted, place, before, steps);
        put_in(&mut self.sorted, place, deadline, steps);
        self.deadlines[place] = deadline;
    }

    /// Makes the list that of the places whose deadline is less than the moment, ascending; what stood in it goes. The error is
    /// want of memory, and then the list is empty. Only the deadlines that are passed are looked at, and one more; their places
    /// are then sorted without `order`, and that takes no memory.
    pub fn due<L: Ledger>(
        &self,
        at: u64,
        out: &mut Places,
        steps: &mut Steps<L>,
    ) -> Result<(), Memory>
        ensures due { OnOk result (out.new ≡ due_at at self.now) }
        ensures memory { OnErr result (out.new ≡ []) }
        ensures cost { TakesOneMore (length (due_at at self.now)) steps.old steps.new }
    {
        let count = count_passed(&self.sorted, at, steps);
        let Ok(()) = put_places(&mut out.items, &self.sorted, count) else {
            out.items.clear();
            return Err(Memory);
        };
        Ok(())
    }
}
