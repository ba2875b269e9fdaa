// The numbers of the incidents that have a claimer, and who holds one at a moment. It is found by a walk over them: a centre has at most
// one for each operator, and those that operators left behind when their holds lapsed.
ghost use Rattle.std.specs.Prelude.{◌≡◌, ◌≤◌, ◌<◌, ◌+◌, ℕ, List, [], Some, nat_lt, length, OnOk};
ghost use Rattle.std.specs.List.{position, position_or_len};
ghost use Rattle.std.specs.Option.{option_map};
ghost use Rattle.arc_data.specs.declared.incident.Incident.{Incident as AnIncident};
ghost use Rattle.centre_rules.specs.Desks.{held_by};
ghost use Rattle.centre_rules.specs.Standing.{stands_at, standing_of};
ghost use Rattle.incidents.specs.Tables.{at_number, held};
ghost use Rattle.open_incidents.specs.Holding.{held_numbers, with_number, without_number, IsHeldOf};
ghost use Rattle.open_incidents.specs.Waiting.{WasIn};

use crate::standing::holds;
use arc_data::{Incident, Memory, Txt};
use incidents::{Former, Table};
use std::alloc::Global;
use std::marker::Model;

/// Numbers of incidents, in order. Contracts see the list of the numbers, and the room: for how many numbers there is memory,
/// those that stand in it included.
#[derive(Drop)]
pub(crate) struct Held {
    numbers: Vec<u64>,
}

impl Model for Held {
    ghost use Rattle.std.specs.Vec.{vec_capacity};
    ghost use Rattle.open_incidents.specs.Holding.{HeldValue};

    ghost Value = { HeldValue };

    ghost view = { λ h. record { numbers = h.numbers.items; room = vec_capacity h.numbers } };
}

impl Held {
    /// No numbers. Takes no memory.
    pub(crate) fn new(alloc: Global) -> Held
        ensures { result.numbers ≡ [] }
    {
        Held {
            numbers: Vec::new(alloc),
        }
    }

    /// Takes memory for so many numbers more. The error is want of memory.
    pub(crate) fn reserve(&mut self, more: usize) -> Result<(), Memory>
        ensures numbers { self.new.numbers ≡ self.old.numbers }
        ensures kept { self.old.room ≤ self.new.room }
        ensures enough { OnOk result (length self.new.numbers + more ≤ self.new.room) }
    {
        match self.numbers.reserve(more) {
            Ok(()) => Ok(()),
            Err(_) => Err(Memory),
        }
    }

    /// The numbers, in order.
    pub(crate) fn numbers(&self) -> &[u64]
        ensures { result.now ≡ self.now.numbers }
    {
        self.numbers.as_slice()
    }

    /// Puts a number in at its place. Takes no memory.
    pub(crate) fn insert(&mut self, number: u64)
        requires { length self.old.numbers < self.old.room }
        ensures numbers { self.new.numbers ≡ with_number number self.old.numbers }
        ensures room { self.new.room ≡ self.old.room }
    {
        let place = place_of(&self.numbers, number);
        let _ = self.numbers.insert(place, number);
    }

    /// Takes a number out, where it is there.
    pub(crate) fn remove(&mut self, number: u64)
        ensures numbers { self.new.numbers ≡ without_number number self.old.numbers }
        ensures room { self.new.room ≡ self.old.room }
    {
        self.numbers.retain(|other| *other != number);
    }

    /// Takes all numbers out.
    pub(crate) fn clear(&mut self)
        ensures numbers { self.new.numbers ≡ [] }
        ensures room { self.new.room ≡ self.old.room }
    {
        self.numbers.clear();
    }
}

// The place before the first number that is greater.
fn place_of(numbers: &[u64], number: u64) -> usize
    ensures place { result ≡ position_or_len (nat_lt number) numbers.now }
    ensures within { result ≤ length numbers.now }
{
    match first_above(numbers, number) {
        Some(place) => place,
        None => numbers.len(),
    }
}

fn first_above(numbers: &[u64], number: u64) -> Option<usize>
    ensures { result ≡ position (nat_lt number) numbers.now }
{
    numbers.iter().position(|other| number < *other)
}

/// Puts the number of an incident in, if it had no claimer yet.
pub(crate) fn hold(numbers: &mut Held, former: Option<Former>, number: u64)
    requires { (is : List AnIncident) × WasIn is number former × IsHeldOf is numbers.old }
    ensures numbers { (is : List AnIncident) → WasIn is number former → numbers.old.numbers ≡ held_numbers is
        → (by : List ℕ) (at : ℕ) → numbers.new.numbers ≡ held_numbers (at_number number (held (Some by) at) is) }
    ensures room { numbers.new.room ≡ numbers.old.room }
{
    if let Some(i) = former {
        if !i.is_held {
            numbers.insert(number);
        }
    }
}

/// The incident that an operator holds at a moment, found among those that are claimed: these are their numbers.
pub(crate) fn find_held<'a>(
    table: &'a Table,
    numbers: &[u64],
    operator: &Txt,
    at: u64,
    lapse: Option<u64>,
) -> Option<&'a Incident>
    requires { numbers.now ≡ held_numbers table.now.incidents }
    ensures { option_map (λ i. stands_at lapse at i.now) result ≡ held_by operator.now (standing_of lapse at table.now.incidents) }
{
    let _slots = table.slots();
    for number in numbers {
        if let Some(i) = table.get(*number) {
            if holds(i, operator, at, lapse) {
                return Some(i);
            }
        }
    }
    None
}
