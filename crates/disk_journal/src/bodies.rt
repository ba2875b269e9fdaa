// The bodies of records.
ghost use Rattle.std.specs.Prelude.{◌≡◌, ◌<◌, ◌++◌, ◌∷◌, [], length, slice_index_or, MatchResult, IfSome, IfNone};

use arc_data::Memory;
use std::alloc::Global;
use std::marker::Model;

/// Bodies of records, in order. Contracts see them as a list of lists.
#[derive(Drop)]
pub struct Bodies {
    alloc: Global,
    bodies: Vec<Vec<u8>>,
}

impl Model for Bodies {
    ghost use Rattle.std.specs.Prelude.{ℕ, List, map};

    ghost Value = { List (List ℕ) };

    ghost view = { λ b. map (λ v. v.items) b.bodies.items };
}

impl Bodies {
    /// No bodies. Takes no memory.
    pub fn new(alloc: Global) -> Bodies
        ensures { result ≡ [] }
    {
        Bodies {
            alloc,
            bodies: Vec::new(alloc),
        }
    }

    /// Puts a copy of the body last. Nothing changes where memory is refused.
    pub fn push(&mut self, body: &[u8]) -> Result<(), Memory>
        ensures { MatchResult result (λ _. self.new ≡ self.old ++ body.now ∷ []) (λ _. self.new ≡ self.old) }
    {
        match body.to_vec(self.alloc) {
            Ok(copy) => self.push_vec(copy),
            Err(_) => Err(Memory),
        }
    }

    /// Puts the body last as it is, without a copy. Nothing changes where memory is refused.
    pub fn push_vec(&mut self, body: Vec<u8>) -> Result<(), Memory>
        ensures { MatchResult result (λ _. self.new ≡ self.old ++ body.items ∷ []) (λ _. self.new ≡ self.old) }
    {
        match self.bodies.push(body) {
            Ok(()) => Ok(()),
            Err(_) => Err(Memory),
        }
    }

    /// Takes the last body off. None where there is none.
    pub fn pop(&mut self) -> Option<Vec<u8>>
        ensures last { IfSome result (λ body. self.old ≡ self.new ++ body.items ∷ []) }
        ensures none { IfNone result (self.old ≡ []) }
        ensures still { IfNone result (self.new ≡ []) }
    {
        self.bodies.pop()
    }

    /// How many there are.
    pub fn count(&self) -> usize
        ensures { result ≡ length self.now }
    {
        self.bodies.len()
    }

    /// The body at a place below the count.
    pub fn at(&self, i: usize) -> &[u8]
        requires { i < length self.now }
        ensures { result.now ≡ slice_index_or self.now i [] }
    {
        &self.bodies[i]
    }
}
