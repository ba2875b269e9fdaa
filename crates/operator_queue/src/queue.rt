// The pairs of a queue, in order.
ghost use Rattle.std.specs.Prelude.{◌≡◌, ◌≤◌, ◌<◌, ◌+◌, ◌↔◌, [], ◌∷◌, length, slice_get, false, IsTrue, OnOk};
ghost use Rattle.std.specs.List.{Contains};
ghost use Rattle.std.specs.List.Sorted.{IsPermutation};
ghost use Rattle.arc_text.specs.Comparisons.{TakesFew};
ghost use Rattle.operator_queue.specs.Pairs.{IsOrdered, IsLeast};

use crate::ordered::OrderedPairs;
use arc_data::Memory;
use arc_text::Steps;
use std::alloc::Global;
use std::marker::Model;
use std::sync::ledger::Ledger;

/// Pairs of a priority and a number, in order: 1 is the most urgent priority, and of equal ones the lowest number comes first.
/// Contracts see the list of the pairs, and the room: for how many pairs there is memory, those that stand in it included.
#[derive(Drop)]
pub struct Queue {
    pairs: OrderedPairs,
}

impl Model for Queue {
    ghost use Rattle.operator_queue.specs.Pairs.{PairsValue, ArePriorities};

    ghost Value = { PairsValue };

    ghost view = { λ q. q.pairs };

    ghost invariant = { λ q. ArePriorities q.pairs.pairs };
}

impl Queue {
    /// No pairs. Takes no memory.
    pub fn new(alloc: Global) -> Queue
        ensures { result.pairs ≡ [] }
    {
        Queue {
            pairs: OrderedPairs::new(alloc),
        }
    }

    /// Takes memory for so many pairs more. The error is want of memory.
    pub fn reserve(&mut self, more: usize) -> Result<(), Memory>
        ensures pairs { self.new.pairs ≡ self.old.pairs }
        ensures kept { self.old.room ≤ self.new.room }
        ensures enough { OnOk result (length self.new.pairs + more ≤ self.new.room) }
    {
        self.pairs.reserve(more)
    }

    /// How many pairs there are. It takes no comparison.
    pub fn count(&self) -> usize
        ensures { result ≡ length self.now.pairs }
    {
        self.pairs.count()
    }

    /// The first pair, which no other comes before. It takes no comparison.
    pub fn first(&self) -> Option<(u8, u64)>
        ensures first { result ≡ slice_get self.now.pairs 0 }
        ensures least { IsLeast result self.now.pairs }
    {
        if self.count() == 0 {
            return None;
        }
        let pair = self.pairs.at(0);
        Some((pair.0 as u8, pair.1))
    }

    /// Puts a pair in, also where an equal one stands already. Takes no memory.
    pub fn insert<L: Ledger>(&mut self, priority: u8, number: u64, steps: &mut Steps<L>)
        requires { length self.old.pairs < self.old.room }
        ensures pairs { IsPermutation ((priority, number) ∷ self.old.pairs) self.new.pairs }
        ensures ordered { IsOrdered self.new.pairs }
        ensures room { self.new.room ≡ self.old.room }
        ensures cost { TakesFew (length self.old.pairs) steps.old steps.new }
    {
        self.pairs.insert((u64::from(priority), number), steps);
    }

    /// Takes a pair out, one of several where they are equal. False exactly where it is not there, and then all pairs stay.
    pub fn remove<L: Ledger>(&mut self, priority: u8, number: u64, steps: &mut Steps<L>) -> bool
        ensures found { IsTrue result ↔ Contains self.old.pairs (priority, number) }
        ensures taken { IsTrue result → IsPermutation ((priority, number) ∷ self.new.pairs) self.old.pairs }
        ensures stays { result ≡ false → self.new.pairs ≡ self.old.pairs }
        ensures ordered { IsOrdered self.new.pairs }
        ensures room { self.new.room ≡ self.old.room }
        ensures cost { TakesFew (length self.old.pairs) steps.old steps.new }
    {
        self.pairs.remove((u64::from(priority), number), steps)
    }
}
