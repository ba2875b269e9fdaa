// Open incidents that are put as they are, and copied.
ghost use Rattle.std.specs.Prelude.{◌≡◌, ◌<◌, ◌≤◌, ◌^◌, ◌++◌, ◌∷◌, [], List, None, length, IfOk};
ghost use Rattle.std.specs.List.{find};
ghost use Rattle.std.specs.List.Sorted.{IsPermutation};
ghost use Rattle.arc_data.specs.Incidents.{is_of, Each};
ghost use Rattle.arc_data.specs.declared.incident.Incident.{Incident as AnIncident};
ghost use Rattle.open_incidents.specs.Holding.{held_numbers};
ghost use Rattle.open_incidents.specs.Waiting.{waiting};

use crate::held::Held;
use crate::queued_table::QueuedTable;
use crate::uncounted::insert;
use arc_data::{Incident, Memory};
use incidents::Table;
use operator_queue::Queue;
use std::alloc::Global;

impl QueuedTable {
    /// None is open, and so many were opened and closed already. Takes no memory.
    pub fn opened_at(alloc: Global, opened: u64) -> QueuedTable
        requires { opened ≤ 2 ^ 62 }
        ensures opened { result.opened ≡ opened }
        ensures incidents { result.incidents ≡ [] }
    {
        QueuedTable {
            table: Table::opened_at(alloc, opened),
            queue: Queue::new(alloc),
            held: Held::new(alloc),
        }
    }

    /// Puts an incident last that was opened before, with all that it has: it waits, or it has a claimer. Takes no memory.
    pub fn put(&mut self, incident: Incident)
        requires room { length self.old.incidents < self.old.room }
        requires positive { 0 < incident.number }
        requires above { Each (λ i. i.number < incident.number) self.old.incidents }
        requires opened { incident.number ≤ self.old.opened }
        requires none { find (is_of incident.account incident.class) self.old.incidents ≡ None }
        ensures { self.new ≡ record self.old { incidents = self.old.incidents ++ incident ∷ [] } }
    {
        put_aside(&mut self.queue, &mut self.held, &incident);
        self.table.put(incident);
    }

    /// A copy of it. The error is want of memory.
    pub fn copy(&self, alloc: Global) -> Result<QueuedTable, Memory>
        requires { self.now.opened ≤ 2 ^ 62 }
        ensures opened { IfOk result (λ copy. copy.opened ≡ self.now.opened) }
        ensures incidents { IfOk result (λ copy. copy.incidents ≡ self.now.incidents) }
    {
        // Its clauses say that numbers rise, and that no two are of one account and class.
        let slots = self.table.slots();
        let mut copy = QueuedTable::opened_at(alloc, self.table.opened());
        copy.reserve(self.table.count())?;
        for slot in slots {
            if let Some(i) = slot.incident() {
                copy.put(copied(i));
            }
        }
        Ok(copy)
    }
}

// Puts an incident, whose number is above all others, into the queue, or into the list of those that have a claimer.
fn put_aside(queue: &mut Queue, held: &mut Held, i: &Incident)
    requires queue { length queue.old.pairs < queue.old.room }
    requires held { length held.old.numbers < held.old.room }
    ensures pairs { (is : List AnIncident) → IsPermutation (waiting is) queue.old.pairs → IsPermutation (waiting (is ++ i.now ∷ [])) queue.new.pairs }
    ensures numbers { (is : List AnIncident) → Each (λ other. other.number < i.now.number) is → held.old.numbers ≡ held_numbers is
        → held.new.numbers ≡ held_numbers (is ++ i.now ∷ []) }
    ensures queue_room { queue.new.room ≡ queue.old.room }
    ensures held_room { held.new.room ≡ held.old.room }
{
    if i.holder.is_some() {
        held.insert(i.number);
    } else {
        insert(queue, i.class.priority(), i.number);
    }
}

// An incident once more.
fn copied(i: &Incident) -> Incident
    ensures { result ≡ i.now }
{
    Incident {
        number: i.number,
        account: i.account,
        class: i.class,
        code: i.code,
        at: i.at,
        signals: i.signals,
        restored: i.restored,
        holder: i.holder,
        touched: i.touched,
        steps: i.steps.copy(),
        acts: i.acts.copy(),
        via: i.via,
    }
}
