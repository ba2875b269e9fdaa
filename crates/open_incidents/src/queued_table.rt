// The open incidents, in order of number, those that nobody claimed, in order of priority, and those that are claimed. None of the calls
// that make a mark takes memory.
ghost use Rattle.std.specs.Prelude.{◌≡◌, ◌<◌, ◌≤◌, ◌^◌, ◌+◌, ℕ, List, [], length, IsSome, OnOk};
ghost use Rattle.std.specs.List.{find};
ghost use Rattle.std.specs.Option.{option_map};
ghost use Rattle.arc_data.specs.Incidents.{has_number};
ghost use Rattle.centre_rules.specs.Desks.{best, held_by};
ghost use Rattle.centre_rules.specs.Standing.{stands_at, standing_of};
ghost use Rattle.centre_rules.specs.Marks.{Adopts, Starts, Carries, Claims, Acts, Releases, Closes};
ghost use Rattle.centre_rules.specs.History.{acted_by};
ghost use Rattle.open_incidents.specs.Marked.{marked_table, HasFew, IsFew, HaveActRoom, FitsAct};

use crate::held::{Held, find_held, hold};
use crate::lapsed::{earlier, first_lapsed};
use crate::marks;
use crate::uncounted::insert;
use crate::waiting::{put_back, put_held, take_out};
use arc_data::{Carried, Incident, Memory, Outcome, Step, Txt};
use incidents::Table;
use operator_queue::Queue;
use std::alloc::Global;
use std::marker::Model;

/// The table of open incidents, the queue of those that nobody claimed, and the list of those that are claimed. Contracts see the
/// table; its room is for how many open incidents there is memory in the table, in the queue and in the list.
pub struct QueuedTable {
    pub(crate) table: Table,
    pub(crate) queue: Queue,
    pub(crate) held: Held,
}

// Written out: one call wherever one is dropped, where a derived drop is spelled out at each exit.
impl Drop for QueuedTable {
    fn drop(self) {
        let QueuedTable { table, queue, held } = self;
        drop(table);
        drop(queue);
        drop(held);
    }
}

impl Model for QueuedTable {
    ghost use Rattle.incidents.specs.Tables.{TableValue};
    ghost use Rattle.open_incidents.specs.Waiting.{IsParted, with_queue};

    ghost Value = { TableValue };

    ghost view = { λ q. with_queue q.table q.queue q.held };

    ghost invariant = { λ q. IsParted q.table.incidents q.queue q.held };
}

impl QueuedTable {
    /// No incident was opened. Takes no memory.
    pub fn new(alloc: Global) -> QueuedTable
        ensures { result ≡ record { opened = 0; incidents = []; room = 0 } }
    {
        QueuedTable {
            table: Table::new(alloc),
            queue: Queue::new(alloc),
            held: Held::new(alloc),
        }
    }

    /// Takes memory for so many incidents more, and so that each open one can wait or be claimed. The error is want of memory.
    pub fn reserve(&mut self, more: usize) -> Result<(), Memory>
        ensures opened { self.new.opened ≡ self.old.opened }
        ensures incidents { self.new.incidents ≡ self.old.incidents }
        ensures room { OnOk result (length self.new.incidents + more ≤ self.new.room) }
        ensures kept { self.old.room ≤ self.new.room }
    {
        self.table.reserve(more)?;
        let Some(all) = self.table.count().checked_add(more) else {
            return Err(Memory);
        };
        self.queue.reserve(all - self.queue.count())?;
        self.held.reserve(all - self.held.numbers().len())
    }

    /// The table.
    pub fn table(&self) -> &Table
        ensures opened { result.now.opened ≡ self.now.opened }
        ensures incidents { result.now.incidents ≡ self.now.incidents }
    {
        &self.table
    }

    /// The most urgent incident that nobody holds at a moment, where holds lapse after so many seconds, and of those of one priority that
    /// of the lowest number. It is the first of the queue, or one whose hold has lapsed: only those that are claimed are looked at.
    pub fn first(&self, at: u64, lapse: Option<u64>) -> Option<&Incident>
        ensures { option_map (λ i. stands_at lapse at i.now) result ≡ best (standing_of lapse at self.now.incidents) }
    {
        let _slots = self.table.slots();
        let lapsed = first_lapsed(&self.table, self.held.numbers(), at, lapse);
        earlier(self.first_queued(), lapsed)
    }

    // The first of the queue, found by its number.
    fn first_queued(&self) -> Option<&Incident>
        ensures { option_map (λ i. i.now) result ≡ best self.now.incidents }
    {
        let _slots = self.table.slots();
        match self.queue.first() {
            Some(first) => self.table.get(first.1),
            None => None,
        }
    }

    /// The incident that an operator holds at a moment. Only those that are claimed are looked at.
    pub fn held_by(&self, operator: &Txt, at: u64, lapse: Option<u64>) -> Option<&Incident>
        ensures { option_map (λ i. stands_at lapse at i.now) result ≡ held_by operator.now (standing_of lapse at self.now.incidents) }
    {
        find_held(&self.table, self.held.numbers(), operator, at, lapse)
    }

    /// A setup comes into force: every hold ends, so each incident waits.
    pub fn adopt(&mut self)
        ensures marked { (text : List ℕ) → self.new ≡ marked_table (Adopts text) self.old }
        ensures few { (n : ℕ) → IsFew n self.old.opened self.old.incidents → IsFew n self.new.opened self.new.incidents }
        ensures room { HaveActRoom self.old.incidents → HaveActRoom self.new.incidents }
    {
        self.release_all();
    }

    /// A run starts: every hold ends, so each incident waits.
    pub fn start(&mut self)
        ensures marked { (at : ℕ) → self.new ≡ marked_table (Starts at) self.old }
        ensures few { (n : ℕ) → IsFew n self.old.opened self.old.incidents → IsFew n self.new.opened self.new.incidents }
        ensures room { HaveActRoom self.old.incidents → HaveActRoom self.new.incidents }
    {
        self.release_all();
    }

    // Nobody is a claimer any more.
    fn release_all(&mut self)
        ensures adopted { (text : List ℕ) → self.new ≡ marked_table (Adopts text) self.old }
        ensures started { (at : ℕ) → self.new ≡ marked_table (Starts at) self.old }
        ensures few { (n : ℕ) → IsFew n self.old.opened self.old.incidents → IsFew n self.new.opened self.new.incidents }
        ensures room { HaveActRoom self.old.incidents → HaveActRoom self.new.incidents }
    {
        put_held(&mut self.queue, self.table.slots());
        self.held.clear();
        marks::release_all(&mut self.table);
    }

    /// An operator claims an incident, which then is held and doesn't wait. It may have a claimer already, whose hold has lapsed.
    pub fn claim(&mut self, operator: Txt, number: u64, at: u64)
        ensures marked { self.new ≡ marked_table (Claims operator number at) self.old }
        ensures few { (n : ℕ) → IsFew n self.old.opened self.old.incidents → IsFew n self.new.opened self.new.incidents }
        ensures room { HaveActRoom self.old.incidents → HaveActRoom self.new.incidents }
    {
        let former = marks::claim(&mut self.table, operator, number, at);
        take_out(&mut self.queue, former, number);
        hold(&mut self.held, former, number);
    }

    /// An operator gives an incident back, which waits again.
    pub fn release(&mut self, number: u64)
        ensures marked { self.new ≡ marked_table (Releases number) self.old }
        ensures few { (n : ℕ) → IsFew n self.old.opened self.old.incidents → IsFew n self.new.opened self.new.incidents }
        ensures room { HaveActRoom self.old.incidents → HaveActRoom self.new.incidents }
    {
        let former = marks::release(&mut self.table, number);
        put_back(&mut self.queue, former, number);
        self.held.remove(number);
    }

    /// An operator records a step of an incident that he claimed. Who is a claimer stays.
    pub fn act(&mut self, number: u64, step: Step, outcome: Outcome, at: u64, operator: Txt)
        requires fits { FitsAct number (acted_by operator step outcome at) self.old.incidents }
        requires room { HaveActRoom self.old.incidents }
        ensures marked { self.new ≡ marked_table (Acts number (acted_by operator step outcome at)) self.old }
        ensures few { (n : ℕ) → IsFew n self.old.opened self.old.incidents → IsFew n self.new.opened self.new.incidents }
        ensures room { HaveActRoom self.new.incidents }
    {
        marks::act(&mut self.table, number, step, outcome, at, operator);
    }

    /// An operator closes an open incident, which then neither waits nor is claimed.
    pub fn close(&mut self, number: u64)
        requires { IsSome (find (has_number number) self.old.incidents) }
        ensures opened { self.new.opened ≡ (marked_table (Closes number) self.old).opened }
        ensures incidents { self.new.incidents ≡ (marked_table (Closes number) self.old).incidents }
        ensures few { (n : ℕ) → IsFew n self.old.opened self.old.incidents → IsFew n self.new.opened self.new.incidents }
        ensures room { HaveActRoom self.old.incidents → HaveActRoom self.new.incidents }
    {
        let former = marks::close(&mut self.table, number);
        take_out(&mut self.queue, Some(former), number);
        self.held.remove(number);
    }

    /// An account has a signal. An incident that it opens waits.
    pub fn carry(&mut self, x: &Carried)
        requires few { self.old.opened < 2 ^ 62 }
        requires signals { HasFew self.old.incidents }
        requires room { length self.old.incidents < self.old.room }
        ensures marked { self.new ≡ marked_table (Carries x.now) self.old }
        ensures few { (n : ℕ) → IsFew n self.old.opened self.old.incidents → IsFew (n + 1) self.new.opened self.new.incidents }
        ensures room { HaveActRoom self.old.incidents → HaveActRoom self.new.incidents }
    {
        let opened = self.table.opened();
        marks::carry(&mut self.table, x);
        if self.table.opened() > opened {
            insert(
                &mut self.queue,
                x.signal.class.priority(),
                self.table.opened(),
            );
        }
    }
}
