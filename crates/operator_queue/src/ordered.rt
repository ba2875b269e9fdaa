// Pairs of numbers, in order.
ghost use Rattle.std.specs.Prelude.{◌≡◌, ◌≤◌, ◌<◌, ◌+◌, ◌↔◌, [], ◌∷◌, length, slice_get, false, Some, IsTrue, OnOk};
ghost use Rattle.std.specs.List.{Contains, insert};
ghost use Rattle.std.specs.List.Sorted.{IsPermutation};
ghost use Rattle.arc_text.specs.Comparisons.{TakesFew};
ghost use Rattle.operator_queue.specs.Pairs.{IsOrdered};

use crate::search::search;
use arc_data::Memory;
use arc_text::Steps;
use std::alloc::Global;
use std::collections::VecDeque;
use std::marker::Model;
use std::sync::ledger::Ledger;

/// Pairs of numbers in order: by the first number of each, and where those are equal, by the second. Contracts see the list of
/// the pairs, and the room: for how many pairs there is memory, those that stand in it included.
///
/// They stand in a ring, so that of the pairs before and those behind a place only the fewer move.
#[derive(Drop)]
pub struct OrderedPairs {
    pairs: VecDeque<(u64, u64)>,
    room: usize,
}

impl Model for OrderedPairs {
    ghost use Rattle.std.specs.Prelude.{◌≤◌};
    ghost use Rattle.std.specs.VecDeque.{deque_capacity};
    ghost use Rattle.operator_queue.specs.Pairs.{PairsValue, IsOrdered};

    ghost Value = { PairsValue };

    ghost view = { λ p. record { pairs = p.pairs.items; room = p.room } };

    ghost invariant = { λ p. IsOrdered p.pairs.items × (p.room ≤ deque_capacity p.pairs) };
}

impl OrderedPairs {
    /// No pairs. Takes no memory.
    pub fn new(alloc: Global) -> OrderedPairs
        ensures { result.pairs ≡ [] }
    {
        OrderedPairs {
            pairs: VecDeque::new(alloc),
            room: 0,
        }
    }

    /// Takes memory for so many pairs more. The error is want of memory.
    pub fn reserve(&mut self, more: usize) -> Result<(), Memory>
        ensures pairs { self.new.pairs ≡ self.old.pairs }
        ensures kept { self.old.room ≤ self.new.room }
        ensures enough { OnOk result (length self.new.pairs + more ≤ self.new.room) }
    {
        let Ok(()) = self.pairs.reserve(more) else {
            return Err(Memory);
        };
        self.room = self.pairs.capacity();
        Ok(())
    }

    /// How many pairs there are. It takes no comparison.
    pub fn count(&self) -> usize
        ensures { result ≡ length self.now.pairs }
    {
        self.pairs.len()
    }

    /// The pair that stands at a place below the count, behind those that come before it. It takes no comparison.
    pub fn at(&self, place: usize) -> (u64, u64)
        requires { place < length self.now.pairs }
        ensures pair { slice_get self.now.pairs place ≡ Some result }
        ensures ordered { IsOrdered self.now.pairs }
    {
        self.pairs[place]
    }

    /// Puts a pair in, also where an equal one stands already. Takes no memory.
    pub fn insert<L: Ledger>(&mut self, pair: (u64, u64), steps: &mut Steps<L>)
        requires { length self.old.pairs < self.old.room }
        ensures pairs { IsPermutation (pair ∷ self.old.pairs) self.new.pairs }
        ensures ordered { IsOrdered self.new.pairs }
        ensures room { self.new.room ≡ self.old.room }
        ensures cost { TakesFew (length self.old.pairs) steps.old steps.new }
    {
        let place = place_for(&self.pairs, pair, steps);
        let _ = self.pairs.insert(place, pair);
    }

    /// Takes a pair out, one of several where they are equal. False exactly where it is not there, and then all pairs stay.
    pub fn remove<L: Ledger>(&mut self, pair: (u64, u64), steps: &mut Steps<L>) -> bool
        ensures found { IsTrue result ↔ Contains self.old.pairs pair }
        ensures taken { IsTrue result → IsPermutation (pair ∷ self.new.pairs) self.old.pairs }
        ensures stays { result ≡ false → self.new.pairs ≡ self.old.pairs }
        ensures ordered { IsOrdered self.new.pairs }
        ensures room { self.new.room ≡ self.old.room }
        ensures cost { TakesFew (length self.old.pairs) steps.old steps.new }
    {
        let Ok(place) = search(&self.pairs, pair, steps) else {
            return false;
        };
        let _ = self.pairs.remove(place);
        true
    }
}

// A place before which no pair comes after this one, and from which on none comes before it.
fn place_for<L: Ledger>(
    pairs: &VecDeque<(u64, u64)>,
    pair: (u64, u64),
    steps: &mut Steps<L>,
) -> usize
    requires { IsOrdered pairs.now.items }
    ensures within { result ≤ length pairs.now.items }
    ensures fits { IsOrdered (insert pairs.now.items result pair) }
    ensures cost { TakesFew (length pairs.now.items) steps.old steps.new }
{
    match search(pairs, pair, steps) {
        Ok(place) => place,
        Err(place) => place,
    }
}
