// The open incidents, in order of number.
ghost use Rattle.std.specs.Prelude.{◌≡◌, ◌<◌, ◌≤◌, ◌^◌, ◌+◌, ◌-◌, ◌++◌, ◌∷◌, [], None, Some, length, map, IfOk, IfSome, IsSome};
ghost use Rattle.std.specs.List.{find};
ghost use Rattle.std.specs.Option.{option_map};
ghost use Rattle.arc_data.specs.Incidents.{has_number, is_of, Ascends, Each};
ghost use Rattle.incidents.specs.Slots.{open_of};
ghost use Rattle.incidents.specs.Tables.{IsSingle, at_number, without, attached, restored, held, acted, raised, number_of, former_of};

use crate::index::Index;
use crate::slots::{Former, Slot, Slots};
use arc_data::{Acts, Class, Incident, Memory, Outcome, Step, StepList, Txt};
use std::alloc::Global;
use std::marker::Model;

/// The open incidents, and how many were opened so far. Numbers begin with 1 and rise; at most one incident of an account and
/// a class is open. Contracts see the number opened, the list of the open incidents in order of number, and the room: for how
/// many open incidents there is memory, those that are open included.
pub struct Table {
    opened: u64,
    room: usize,
    slots: Slots,
    index: Index,
}

// Written out: one call wherever one is dropped, where a derived drop is spelled out at each exit.
impl Drop for Table {
    fn drop(self) {
        let Table {
            opened: _,
            room: _,
            slots,
            index,
        } = self;
        drop(slots);
        drop(index);
    }
}

impl Model for Table {
    ghost use Rattle.incidents.specs.Tables.{TableValue, IsKept};

    ghost Value = { TableValue };

    ghost view = { λ t. record { opened = t.opened; incidents = t.slots.incidents; room = t.room } };

    ghost invariant = { λ t. IsKept t.opened t.slots.incidents t.room t.slots.room t.index };
}

impl Table {
    /// No incident was opened. Takes no memory.
    pub fn new(alloc: Global) -> Table
        ensures { result ≡ record { opened = 0; incidents = []; room = 0 } }
    {
        Table {
            opened: 0,
            room: 0,
            slots: Slots::new(alloc),
            index: Index::new(alloc),
        }
    }

    /// None is open, and so many were opened and closed already. Takes no memory.
    pub fn opened_at(alloc: Global, opened: u64) -> Table
        requires { opened ≤ 2 ^ 62 }
        ensures { result ≡ record { opened = opened; incidents = []; room = 0 } }
    {
        Table {
            opened,
            room: 0,
            slots: Slots::new(alloc),
            index: Index::new(alloc),
        }
    }

    /// Takes memory for so many incidents more. The error is want of memory.
    pub fn reserve(&mut self, more: usize) -> Result<(), Memory>
        ensures opened { self.new.opened ≡ self.old.opened }
        ensures incidents { self.new.incidents ≡ self.old.incidents }
        ensures room { IfOk result (λ _. length self.new.incidents + more ≤ self.new.room) }
        ensures kept { self.old.room ≤ self.new.room }
    {
        self.slots.reserve(more)?;
        self.index.reserve(more)?;
        let wanted = self
            .slots
            .room()
            .min(self.slots.count().saturating_add(more));
        self.room = self.room.max(wanted);
        Ok(())
    }

    /// How many incidents are open.
    pub fn count(&self) -> usize
        ensures { result ≡ length self.now.incidents }
    {
        self.slots.count()
    }

    /// The places of the open incidents, in order of number. Some may be places of incidents that were closed.
    pub fn slots(&self) -> &[Slot]
        ensures value { open_of result.now ≡ self.now.incidents }
        ensures ascends { Ascends 0 self.now.incidents self.now.opened }
        ensures single { IsSingle self.now.incidents }
    {
        self.slots.slots()
    }

    /// How many incidents were opened so far, closed ones included.
    pub fn opened(&self) -> u64
        ensures { result ≡ self.now.opened }
    {
        self.opened
    }

    /// The number of the open incident of an account and a class.
    pub fn find(&self, account: &Txt, class: Class) -> Option<u64>
        ensures { result ≡ number_of (find (is_of account.now class) self.now.incidents) }
    {
        self.index.find(account, class)
    }

    /// The open incident of a number.
    pub fn get(&self, number: u64) -> Option<&Incident>
        ensures { option_map (λ i. i.now) result ≡ find (has_number number) self.now.incidents }
    {
        self.slots.get(number)
    }

    /// Opens an incident with the next number, which is the answer. It has one signal, which came by this line, or by none where
    /// the name is empty. Takes no memory.
    pub fn raise(
        &mut self,
        account: Txt,
        class: Class,
        code: Txt,
        at: u64,
        steps: StepList,
        via: Txt,
    ) -> u64
        requires room { length self.old.incidents < self.old.room }
        requires none { find (is_of account class) self.old.incidents ≡ None }
        requires few { self.old.opened < 2 ^ 62 }
        ensures number { result ≡ self.old.opened + 1 }
        ensures opened { self.new.opened ≡ self.old.opened + 1 }
        ensures incidents { self.new.incidents ≡ self.old.incidents ++ raised (self.old.opened + 1) account class code at steps via ∷ [] }
        ensures room { self.new.room ≡ self.old.room }
    {
        self.opened += 1;
        self.index.put(&account, class, self.opened);
        self.slots.push(Incident {
            number: self.opened,
            account,
            class,
            code,
            at,
            signals: 1,
            restored: false,
            holder: None,
            touched: 0,
            steps,
            acts: Acts::new(),
            via,
        });
        self.opened
    }

    /// Puts an incident last that was opened before, with all that it has. Takes no memory.
    pub fn put(&mut self, incident: Incident)
        requires room { length self.old.incidents < self.old.room }
        requires positive { 0 < incident.number }
        requires above { Each (λ i. i.number < incident.number) self.old.incidents }
        requires opened { incident.number ≤ self.old.opened }
        requires none { find (is_of incident.account incident.class) self.old.incidents ≡ None }
        ensures { self.new ≡ record self.old { incidents = self.old.incidents ++ incident ∷ [] } }
    {
        self.index
            .put(&incident.account, incident.class, incident.number);
        self.slots.push(incident);
    }

    /// A New or Again signal more of an open incident: it counts as not restored. Where no incident has the number, nothing
    /// changes; likewise in the next three calls.
    pub fn attach(&mut self, number: u64)
        requires { IfSome (find (has_number number) self.old.incidents) (λ i. i.signals < 2 ^ 62) }
        ensures ascends { Ascends 0 self.old.incidents self.old.opened }
        ensures single { IsSingle self.old.incidents }
        ensures attached { self.new ≡ record self.old { incidents = at_number number attached self.old.incidents } }
    {
        self.slots.attach(number);
    }

    /// Marks an open incident restored.
    pub fn mark_restored(&mut self, number: u64)
        ensures ascends { Ascends 0 self.old.incidents self.old.opened }
        ensures single { IsSingle self.old.incidents }
        ensures restored { self.new ≡ record self.old { incidents = at_number number restored self.old.incidents } }
    {
        self.slots.mark_restored(number);
    }

    /// Gives an open incident a holder at a moment, or takes it from its holder. The answer is what it was before.
    pub fn hold(&mut self, number: u64, holder: Option<Txt>, at: u64) -> Option<Former>
        ensures held { self.new ≡ record self.old { incidents = at_number number (held holder at) self.old.incidents } }
        ensures former { result ≡ option_map former_of (find (has_number number) self.old.incidents) }
        ensures ascends { Ascends 0 self.old.incidents self.old.opened }
    {
        self.slots.hold(number, holder, at)
    }

    /// Records a step of an open incident. It has room for 10 of them.
    pub fn act(&mut self, number: u64, step: Step, outcome: Outcome, at: u64, operator: Txt)
        requires { IfSome (find (has_number number) self.old.incidents) (λ i. length i.acts < 10) }
        ensures ascends { Ascends 0 self.old.incidents self.old.opened }
        ensures acted { self.new ≡ record self.old { incidents = at_number number (acted (record { step = step; outcome = outcome; at = at; operator = operator })) self.old.incidents } }
    {
        self.slots.act(number, step, outcome, at, operator);
    }

    /// Takes each open incident from its holder.
    pub fn release_all(&mut self)
        ensures { self.new ≡ record self.old { incidents = map (held None 0) self.old.incidents } }
    {
        self.slots.release_all();
    }

    /// Takes an open incident out of the table, and the memory of its place with it. The answer is what it was.
    pub fn remove(&mut self, number: u64) -> Former
        requires { IsSome (find (has_number number) self.old.incidents) }
        ensures former { Some result ≡ option_map former_of (find (has_number number) self.old.incidents) }
        ensures ascends { Ascends 0 self.old.incidents self.old.opened }
        ensures removed { self.new ≡ record self.old { incidents = without number self.old.incidents; room = self.old.room - 1 } }
    {
        let Some(incident) = self.slots.get(number) else {
            unreachable!()
        };
        let former = Former::of(incident);
        self.index.remove(&incident.account, incident.class);
        self.slots.remove(number);
        self.room -= 1;
        former
    }
}
