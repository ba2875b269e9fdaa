// The recorded steps of an incident.
ghost use Rattle.std.specs.Prelude.{◌≡◌, ◌<◌, ◌≤◌, ◌↔◌, ◌++◌, ◌∷◌, [], length, slice_get, Some, IsTrue, if◌then◌else◌};

use crate::{Acted, Outcome, Step, Txt};
use std::marker::Model;

/// At most 10 recorded steps, in a room of their own, which takes no memory. Contracts see them as a list.
#[derive(Drop)]
pub struct Acts {
    items: [Acted; 10],
    len: usize,
}

impl Model for Acts {
    ghost use Rattle.std.specs.Prelude.{List, take, length, ◌≤◌, ◌≡◌};
    ghost use Rattle.arc_data.specs.declared.step.Acted.{Acted};

    ghost Value = { List Acted };

    ghost view = { λ s. take s.len s.items };

    ghost invariant = { λ s. (s.len ≤ 10) × (length s.items ≡ 10) };
}

impl Acts {
    /// Nothing recorded.
    pub fn new() -> Acts
        ensures { result ≡ [] }
    {
        let unused = Acted {
            step: Step::Note,
            outcome: Outcome::Done,
            at: 0,
            operator: Txt::empty(),
        };
        Acts {
            items: [unused; 10],
            len: 0,
        }
    }

    /// Puts the recorded step last. False exactly where 10 are there, and then nothing changes.
    pub fn push(&mut self, acted: Acted) -> bool
        ensures room { IsTrue result ↔ (length self.old < 10) }
        ensures pushed { self.new ≡ (if result then self.old ++ acted ∷ [] else self.old) }
    {
        if self.len == 10 {
            return false;
        }
        self.items[self.len] = acted;
        self.len += 1;
        true
    }

    /// How many there are.
    pub fn count(&self) -> usize
        ensures count { result ≡ length self.now }
        ensures few { result ≤ 10 }
    {
        self.len
    }

    /// The recorded step at a place below the count.
    pub fn at(&self, i: usize) -> Acted
        requires { i < length self.now }
        ensures { slice_get self.now i ≡ Some result }
    {
        let items = &self.items[..self.len];
        items[i]
    }

    /// All, in order.
    pub fn items(&self) -> &[Acted]
        ensures value { result.now ≡ self.now }
        ensures few { length result.now ≤ 10 }
    {
        &self.items[..self.len]
    }

    /// The same once more.
    pub fn copy(&self) -> Acts
        ensures { result ≡ self.now }
    {
        let mut copy = Acts::new();
        for acted in self.items() {
            let _ = copy.push(*acted);
        }
        copy
    }
}
