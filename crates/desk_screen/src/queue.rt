// The incidents of the last list.
ghost use Rattle.std.specs.Prelude.{◌≡◌, ◌<◌, ◌≤◌, ◌↔◌, ◌++◌, ◌∷◌, [], length, map, IsTrue, if◌then◌else◌};
ghost use Rattle.desk_screen.specs.Watching.{since_of, waiting_of};

use arc_data::{Class, Row, Txt};
use desk_said::Rows;
use std::marker::Model;

/// An incident of the list, and the second of the sitting since which it stands in each list.
#[derive(Clone, Copy)]
pub struct Waiting {
    pub row: Row,
    pub since: u64,
}

/// The incidents of a list, at most 16. Contracts see them as a list.
#[derive(Drop)]
pub struct Queue {
    items: [Waiting; 16],
    len: usize,
}

impl Model for Queue {
    ghost use Rattle.std.specs.Prelude.{List, take, length, ◌≤◌, ◌≡◌};
    ghost use Rattle.desk_screen.specs.declared.queue.Waiting.{Waiting};

    ghost Value = { List Waiting };

    ghost view = { λ s. take s.len s.items };

    ghost invariant = { λ s. (s.len ≤ 16) × (length s.items ≡ 16) };
}

impl Queue {
    /// No incidents.
    pub fn new() -> Queue
        ensures { result ≡ [] }
    {
        let row = Row {
            number: 0,
            class: Class::Unlisted,
            account: Txt::empty(),
            holder: None,
        };
        Queue {
            items: [Waiting { row, since: 0 }; 16],
            len: 0,
        }
    }

    // Puts an incident last.
    fn push(&mut self, waiting: Waiting)
        requires { length self.old < 16 }
        ensures { self.new ≡ self.old ++ waiting ∷ [] }
    {
        self.items[self.len] = waiting;
        self.len += 1;
    }

    /// The incidents.
    pub fn items(&self) -> &[Waiting]
        ensures value { result.now ≡ self.now }
        ensures most { length result.now ≤ 16 }
    {
        &self.items[..self.len]
    }

    /// The incidents of a new list, after this one, at a second of the sitting.
    pub(crate) fn followed(&self, rows: &Rows, clock: u64) -> Queue
        ensures { result ≡ map (waiting_of self.now clock) rows.now }
    {
        let mut queue = Queue::new();
        for row in rows.items() {
            queue.push(Waiting {
                row: *row,
                since: since(self.items(), clock, row.number),
            });
        }
        queue
    }
}

// Since when an incident stands in each list.
fn since(before: &[Waiting], clock: u64, number: u64) -> u64
    ensures { result ≡ since_of before.now clock number }
{
    match before.iter().find(|waiting| waiting.row.number == number) {
        Some(waiting) => waiting.since,
        None => clock,
    }
}
