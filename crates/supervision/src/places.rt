// Lists of places.
ghost use Rattle.std.specs.Prelude.{◌≡◌, ◌<◌, [], length, slice_index};

use std::alloc::Global;
use std::marker::Model;

/// A list of places. Contracts see it as a list of numbers.
#[derive(Drop)]
pub struct Places {
    pub(crate) items: Vec<usize>,
}

impl Model for Places {
    ghost use Rattle.std.specs.Prelude.{ℕ, List};

    ghost Value = { List ℕ };

    ghost view = { λ p. p.items.items };
}

impl Places {
    /// No places. Takes no memory.
    pub fn new(alloc: Global) -> Places
        ensures { result ≡ [] }
    {
        Places {
            items: Vec::new(alloc),
        }
    }

    /// How many places stand in the list.
    pub fn count(&self) -> usize
        ensures { result ≡ length self.now }
    {
        self.items.len()
    }

    /// The place that stands at an index below the count.
    pub fn at(&self, i: usize) -> usize
        requires { i < length self.now }
        ensures { result ≡ slice_index self.now i }
    {
        self.items[i]
    }
}
