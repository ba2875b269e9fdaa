// Which incidents of a table wait in its queue: those without a claimer.
ghost use Rattle.std.specs.Prelude.{◌≡◌, ◌≤◌, List, None, length, map};
ghost use Rattle.std.specs.List.Sorted.{IsPermutation};
ghost use Rattle.arc_data.specs.declared.incident.Incident.{Incident};
ghost use Rattle.incidents.specs.Slots.{open_of};
ghost use Rattle.incidents.specs.Tables.{at_number, held, without};
ghost use Rattle.open_incidents.specs.Waiting.{pair_of, waiting, IsQueueOf, WasIn};

use crate::uncounted::{insert, remove};
use incidents::{Former, Slot};
use operator_queue::Queue;

/// Puts those of the open incidents that have a claimer into the queue of those without one.
pub(crate) fn put_held(queue: &mut Queue, slots: &[Slot])
    requires same { IsPermutation (waiting (open_of slots.now)) queue.old.pairs }
    requires memory { length (open_of slots.now) ≤ queue.old.room }
    ensures pairs { IsPermutation (map pair_of (open_of slots.now)) queue.new.pairs }
    ensures room { queue.new.room ≡ queue.old.room }
{
    for slot in slots {
        if let Some(i) = slot.incident() {
            if i.holder.is_some() {
                insert(queue, i.class.priority(), i.number);
            }
        }
    }
}

/// Puts the incident of a number into the queue, if it had a claimer.
pub(crate) fn put_back(queue: &mut Queue, former: Option<Former>, number: u64)
    requires { (is : List Incident) × WasIn is number former × IsQueueOf is queue.old }
    ensures pairs { (is : List Incident) → WasIn is number former → IsPermutation (waiting is) queue.old.pairs
        → IsPermutation (waiting (at_number number (held None 0) is)) queue.new.pairs }
    ensures room { queue.new.room ≡ queue.old.room }
{
    if let Some(i) = former {
        if i.is_held {
            insert(queue, i.class.priority(), number);
        }
    }
}

/// Takes the incident of a number out of the queue, if it had no claimer.
pub(crate) fn take_out(queue: &mut Queue, former: Option<Former>, number: u64)
    requires { (is : List Incident) × WasIn is number former × IsPermutation (waiting is) queue.old.pairs }
    ensures pairs { (is : List Incident) → WasIn is number former → IsPermutation (waiting is) queue.old.pairs
        → IsPermutation (waiting (without number is)) queue.new.pairs }
    ensures room { queue.new.room ≡ queue.old.room }
{
    if let Some(i) = former {
        if !i.is_held {
            remove(queue, i.class.priority(), number);
        }
    }
}
