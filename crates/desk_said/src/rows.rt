// At most 16 rows of a list.
ghost use Rattle.std.specs.Prelude.{◌≡◌, ◌<◌, ◌≤◌, ◌↔◌, ◌++◌, ◌∷◌, [], length, IsTrue, if◌then◌else◌};

use arc_data::{Class, Row, Txt};
use std::marker::Model;

/// At most 16 incidents of a list, in a room of their own, which takes no memory. Contracts see them as a list.
#[derive(Drop)]
pub struct Rows {
    items: [Row; 16],
    len: usize,
}

impl Model for Rows {
    ghost use Rattle.std.specs.Prelude.{List, take, length, ◌≤◌, ◌≡◌};
    ghost use Rattle.arc_data.specs.declared.listing.Row.{Row};

    ghost Value = { List Row };

    ghost view = { λ s. take s.len s.items };

    ghost invariant = { λ s. (s.len ≤ 16) × (length s.items ≡ 16) };
}

impl Rows {
    /// No rows.
    pub fn new() -> Rows
        ensures { result ≡ [] }
    {
        let unused = Row {
            number: 0,
            class: Class::Unlisted,
            account: Txt::empty(),
            holder: None,
        };
        Rows {
            items: [unused; 16],
            len: 0,
        }
    }

    /// Puts the row last. False exactly where 16 are there, and then nothing changes.
    pub fn push(&mut self, row: Row) -> bool
        ensures room { IsTrue result ↔ (length self.old < 16) }
        ensures pushed { self.new ≡ (if result then self.old ++ row ∷ [] else self.old) }
    {
        if self.len == 16 {
            return false;
        }
        self.items[self.len] = row;
        self.len += 1;
        true
    }

    /// The rows.
    pub fn items(&self) -> &[Row]
        ensures value { result.now ≡ self.now }
        ensures most { length result.now ≤ 16 }
    {
        &self.items[..self.len]
    }
}
