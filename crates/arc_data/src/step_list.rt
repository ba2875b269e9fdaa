// The steps of an incident.
ghost use Rattle.std.specs.Prelude.{◌≡◌, ◌<◌, ◌≤◌, ◌↔◌, ◌++◌, ◌∷◌, [], length, slice_get, Some, IsTrue, if◌then◌else◌};

use crate::Step;
use std::marker::Model;

/// At most 10 steps, in a room of their own, which takes no memory. Contracts see them as a list.
#[derive(Drop)]
pub struct StepList {
    items: [Step; 10],
    len: usize,
}

impl Model for StepList {
    ghost use Rattle.std.specs.Prelude.{List, take, length, ◌≤◌, ◌≡◌};
    ghost use Rattle.arc_data.specs.declared.step.Step.{Step};

    ghost Value = { List Step };

    ghost view = { λ s. take s.len s.items };

    ghost invariant = { λ s. (s.len ≤ 10) × (length s.items ≡ 10) };
}

impl StepList {
    /// No steps.
    pub fn new() -> StepList
        ensures { result ≡ [] }
    {
        StepList {
            items: [Step::Note; 10],
            len: 0,
        }
    }

    /// Puts the step last. False exactly where 10 are there, and then nothing changes.
    pub fn push(&mut self, step: Step) -> bool
        ensures room { IsTrue result ↔ (length self.old < 10) }
        ensures pushed { self.new ≡ (if result then self.old ++ step ∷ [] else self.old) }
    {
        if self.len == 10 {
            return false;
        }
        self.items[self.len] = step;
        self.len += 1;
        true
    }

    /// How many steps there are.
    pub fn count(&self) -> usize
        ensures count { result ≡ length self.now }
        ensures few { result ≤ 10 }
    {
        self.len
    }

    /// The step at a place below the count.
    pub fn at(&self, i: usize) -> Step
        requires { i < length self.now }
        ensures { slice_get self.now i ≡ Some result }
    {
        let items = &self.items[..self.len];
        items[i]
    }

    /// All steps, in order.
    pub fn items(&self) -> &[Step]
        ensures value { result.now ≡ self.now }
        ensures few { length result.now ≤ 10 }
    {
        &self.items[..self.len]
    }

    /// The same steps once more.
    pub fn copy(&self) -> StepList
        ensures { result ≡ self.now }
    {
        let items = self.items;
        StepList {
            items,
            len: self.len,
        }
    }
}
