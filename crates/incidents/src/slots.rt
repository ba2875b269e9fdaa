// Places for incidents. One that is closed keeps its place until the closed ones are more than the open ones, so that a closing doesn't
// move all that stand behind it.
ghost use Rattle.std.specs.Prelude.{◌≡◌, ◌<◌, ◌≤◌, ◌^◌, ◌+◌, ◌++◌, ◌∷◌, [], None, length, map, vec_capacity, OnOk, IfSome};
ghost use Rattle.std.specs.Prelude.{is_some, if◌then◌else◌};
ghost use Rattle.std.specs.List.{find, position};
ghost use Rattle.std.specs.List.Sorted.{IsPartitionedBy};
ghost use Rattle.std.specs.Option.{option_map};
ghost use Rattle.arc_data.specs.Incidents.{has_number, Each};
ghost use Rattle.incidents.specs.Tables.{at_number, without, attached, restored, held, acted, former_of};
ghost use Rattle.incidents.specs.Slots.{IsCut, Rise, is_below, has_open, standing, open_of, thinned, released};

use arc_data::{Acted, Class, Incident, Memory, Outcome, Step, Txt};
use std::alloc::Global;
use std::marker::Model;

/// A place of the table: an incident that is open, or one that was closed.
#[derive(Drop)]
pub struct Slot {
    incident: Incident,
    is_open: bool,
}

impl Slot {
    /// The incident that is open here.
    pub fn incident(&self) -> Option<&Incident>
        ensures { option_map (λ i. i.now) result ≡ standing self.now }
    {
        if self.is_open {
            Some(&self.incident)
        } else {
            None
        }
    }

    // Whether the incident of a number is open here.
    fn has_open(&self, number: u64) -> bool
        ensures { result ≡ has_open number self.now }
    {
        self.is_open && self.incident.number == number
    }
}

/// What an incident was before a change: its class, and whether it had a holder.
#[derive(Clone, Copy)]
pub struct Former {
    pub class: Class,
    pub is_held: bool,
}

impl Former {
    /// What an incident is before a change.
    pub(crate) fn of(i: &Incident) -> Former
        ensures { result ≡ former_of i.now }
    {
        Former {
            class: i.class,
            is_held: i.holder.is_some(),
        }
    }
}

/// Open incidents in order of number. Contracts see the list of them, and the room: for how many open incidents there is memory, those
/// that are open included.
pub struct Slots {
    count: usize,
    highest: u64,
    slots: Vec<Slot>,
}

// Written out: one call wherever one is dropped, where a derived drop is spelled out at each exit.
impl Drop for Slots {
    fn drop(self) {
        let Slots {
            count: _,
            highest: _,
            slots,
        } = self;
        drop(slots);
    }
}

impl Model for Slots {
    ghost use Rattle.std.specs.Prelude.{vec_capacity, length};
    ghost use Rattle.incidents.specs.Slots.{SlotsValue, AreSlots, open_of, room_of};

    ghost Value = { SlotsValue };

    ghost view = { λ s. record { incidents = open_of s.slots.items; room = room_of s.slots.items (vec_capacity s.slots) } };

    ghost invariant = { λ s. AreSlots s.count s.highest s.slots.items };
}

impl Slots {
    /// None is open. Takes no memory.
    pub fn new(alloc: Global) -> Slots
        ensures { result ≡ record { incidents = []; room = 0 } }
    {
        Slots {
            count: 0,
            highest: 0,
            slots: Vec::new(alloc),
        }
    }

    /// Takes memory for so many incidents more. The error is want of memory.
    pub fn reserve(&mut self, more: usize) -> Result<(), Memory>
        ensures incidents { self.new.incidents ≡ self.old.incidents }
        ensures room { OnOk result (length self.new.incidents + more ≤ self.new.room) }
        ensures kept { self.old.room ≤ self.new.room }
    {
        match self.slots.reserve(more) {
            Ok(()) => Ok(()),
            Err(_) => Err(Memory),
        }
    }

    /// How many incidents are open.
    pub fn count(&self) -> usize
        ensures { result ≡ length self.now.incidents }
    {
        self.count
    }

    /// For how many open incidents there is memory.
    pub fn room(&self) -> usize
        ensures { result ≡ self.now.room }
    {
        self.count + (self.slots.capacity() - self.slots.len())
    }

    /// The places, in order of number. Those that are closed don't count.
    pub fn slots(&self) -> &[Slot]
        ensures { open_of result.now ≡ self.now.incidents }
    {
        &self.slots
    }

    /// The open incident of a number.
    pub fn get(&self, number: u64) -> Option<&Incident>
        ensures { option_map (λ i. i.now) result ≡ find (has_number number) self.now.incidents }
    {
        match place_of(&self.slots, number) {
            Some(place) => Some(&self.slots[place].incident),
            None => None,
        }
    }

    /// Puts an incident last, whose number is above those of all that are open. Takes no memory.
    pub fn push(&mut self, incident: Incident)
        requires room { length self.old.incidents < self.old.room }
        requires positive { 0 < incident.number }
        requires above { Each (λ i. i.number < incident.number) self.old.incidents }
        ensures incidents { self.new.incidents ≡ self.old.incidents ++ incident ∷ [] }
        ensures room { self.old.room ≤ self.new.room }
    {
        // Where the number isn't above those of all that were closed either, these give up their places.
        drop_closed(&mut self.slots, incident.number <= self.highest);
        self.highest = incident.number;
        self.count += 1;
        self.slots.push_reserved(Slot {
            incident,
            is_open: true,
        });
    }

    /// A New or Again signal more of an open incident: it counts as not restored. Where no incident has the number, nothing
    /// changes; likewise in the next three calls.
    pub fn attach(&mut self, number: u64)
        requires { IfSome (find (has_number number) self.old.incidents) (λ i. i.signals < 2 ^ 62) }
        ensures { self.new ≡ record self.old { incidents = at_number number attached self.old.incidents } }
    {
        if let Some(place) = place_of(&self.slots, number) {
            let item = &mut self.slots[place].incident;
            item.signals += 1;
            item.restored = false;
        }
    }

    /// Marks an open incident restored.
    pub fn mark_restored(&mut self, number: u64)
        ensures { self.new ≡ record self.old { incidents = at_number number restored self.old.incidents } }
    {
        if let Some(place) = place_of(&self.slots, number) {
            let item = &mut self.slots[place].incident;
            item.restored = true;
        }
    }

    /// Gives an open incident a holder at a moment, or takes it from its holder. The answer is what it was before.
    pub fn hold(&mut self, number: u64, holder: Option<Txt>, at: u64) -> Option<Former>
        ensures held { self.new ≡ record self.old { incidents = at_number number (held holder at) self.old.incidents } }
        ensures former { result ≡ option_map former_of (find (has_number number) self.old.incidents) }
    {
        let touched = touched(&holder, at);
        match place_of(&self.slots, number) {
            Some(place) => {
                let item = &mut self.slots[place].incident;
                let former = Former::of(item);
                item.holder = holder;
                item.touched = touched;
                Some(former)
            }
            None => None,
        }
    }

    /// Records a step of an open incident. It has room for 10 of them.
    pub fn act(&mut self, number: u64, step: Step, outcome: Outcome, at: u64, operator: Txt)
        requires { IfSome (find (has_number number) self.old.incidents) (λ i. length i.acts < 10) }
        ensures { self.new ≡ record self.old { incidents = at_number number (acted (record { step = step; outcome = outcome; at = at; operator = operator })) self.old.incidents } }
    {
        if let Some(place) = place_of(&self.slots, number) {
            let item = &mut self.slots[place].incident;
            let _ = item.acts.push(Acted {
                step,
                outcome,
                at,
                operator,
            });
            item.touched = at;
        }
    }

    /// Takes each open incident from its holder.
    pub fn release_all(&mut self)
        ensures { self.new ≡ record self.old { incidents = map (held None 0) self.old.incidents } }
    {
        release(&mut self.slots);
    }

    /// Closes the open incident of a number, if there is one. Where more are closed than open, the closed ones give up their places.
    pub fn remove(&mut self, number: u64)
        ensures incidents { self.new.incidents ≡ without number self.old.incidents }
        ensures room { self.old.room ≤ self.new.room + 1 }
    {
        if let Some(place) = place_of(&self.slots, number) {
            self.slots[place].is_open = false;
            self.count -= 1;
            let closed = self.slots.len() - self.count;
            drop_closed(&mut self.slots, self.count < closed);
        }
    }
}

// Where it is wanted, the closed ones give up their places.
fn drop_closed(slots: &mut Vec<Slot>, wanted: bool)
    ensures slots { slots.new.items ≡ thinned wanted slots.old.items }
    ensures memory { vec_capacity slots.new ≡ vec_capacity slots.old }
{
    if wanted {
        slots.retain(|slot| slot.is_open);
    }
}

// The place of the open incident of a number among places in order of number.
fn place_of(slots: &[Slot], number: u64) -> Option<usize>
    requires { Rise slots.now }
    ensures { result ≡ position (has_open number) slots.now }
{
    let place = first_from(slots, number);
    if place == slots.len() {
        return None;
    }
    if slots[place].has_open(number) {
        Some(place)
    } else {
        None
    }
}

// The place from which on numbers are not below this one.
fn first_from(slots: &[Slot], number: u64) -> usize
    requires { IsPartitionedBy (is_below number) slots.now }
    ensures cut { IsCut number slots.now result }
    ensures within { result ≤ length slots.now }
{
    slots.partition_point(|slot| slot.incident.number < number)
}

// Takes the incident of each of these places from its holder.
fn release(slots: &mut [Slot])
    ensures { slots.new ≡ map released slots.old }
{
    for slot in slots {
        slot.incident.holder = None;
        slot.incident.touched = 0;
    }
}

// The moment since which a holder holds an incident, 0 where there is none.
fn touched(holder: &Option<Txt>, at: u64) -> u64
    ensures { result ≡ (if is_some holder.now then at else 0) }
{
    if holder.is_some() { at } else { 0 }
}
