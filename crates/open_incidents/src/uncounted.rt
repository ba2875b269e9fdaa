// Calls of a queue whose comparisons nobody counts: they go into a ledger that is made for the call, takes no bytes, and is
// dropped unread.
ghost use Rattle.std.specs.Prelude.{◌≡◌, ◌<◌, ◌↔◌, ◌∷◌, length, IsTrue};
ghost use Rattle.std.specs.List.{Contains};
ghost use Rattle.std.specs.List.Sorted.{IsPermutation};

use arc_text::Steps;
use operator_queue::Queue;
use std::marker::Brand;
use std::sync::ledger::{Blank, Ledger};

/// Puts a pair into a queue. Takes no memory.
pub(crate) fn insert(queue: &mut Queue, priority: u8, number: u64)
    requires { length queue.old.pairs < queue.old.room }
    ensures pairs { IsPermutation ((priority, number) ∷ queue.old.pairs) queue.new.pairs }
    ensures room { queue.new.room ≡ queue.old.room }
{
    insert_in::<Brand>(queue, priority, number, Blank::new(1));
}

/// Takes a pair that stands in a queue out of it.
pub(crate) fn remove(queue: &mut Queue, priority: u8, number: u64)
    requires { Contains queue.old.pairs (priority, number) }
    ensures pairs { IsPermutation ((priority, number) ∷ queue.new.pairs) queue.old.pairs }
    ensures room { queue.new.room ≡ queue.old.room }
{
    let _ = remove_in::<Brand>(queue, priority, number, Blank::new(1));
}

fn insert_in<L: Ledger>(queue: &mut Queue, priority: u8, number: u64, blank: Blank)
    requires name { blank.name ≡ L.name }
    requires parts { blank.parts ≡ L.parts }
    requires some { 0 < blank.parts }
    requires room { length queue.old.pairs < queue.old.room }
    ensures pairs { IsPermutation ((priority, number) ∷ queue.old.pairs) queue.new.pairs }
    ensures room { queue.new.room ≡ queue.old.room }
{
    let mut steps = Steps::<L>::new(blank);
    queue.insert(priority, number, &mut steps);
}

fn remove_in<L: Ledger>(queue: &mut Queue, priority: u8, number: u64, blank: Blank) -> bool
    requires name { blank.name ≡ L.name }
    requires parts { blank.parts ≡ L.parts }
    requires some { 0 < blank.parts }
    ensures found { IsTrue result ↔ Contains queue.old.pairs (priority, number) }
    ensures taken { IsTrue result → IsPermutation ((priority, number) ∷ queue.new.pairs) queue.old.pairs }
    ensures room { queue.new.room ≡ queue.old.room }
{
    let mut steps = Steps::<L>::new(blank);
    queue.remove(priority, number, &mut steps)
}
