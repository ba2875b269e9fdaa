// What an operator is shown of open incidents.
ghost use Rattle.std.specs.Prelude.{◌≡◌, ◌<◌, ◌≤◌, ◌↔◌, ◌++◌, ◌∷◌, [], length, slice_get, Some, IsTrue, if◌then◌else◌};

use crate::{Class, Step, Txt};
use std::marker::Model;

/// An incident as it is shown. The moment is in seconds since 1970, GMT; the step is the first that is not met; `via` names the line by
/// which the signal came that opened it, and is empty where no panel sent it.
#[derive(Clone, Copy, Debug, PartialEq, Eq)]
pub struct View {
    pub number: u64,
    pub class: Class,
    pub account: Txt,
    pub code: Txt,
    pub at: u64,
    pub signals: u64,
    pub restored: bool,
    pub holder: Option<Txt>,
    pub expected: Option<Step>,
    pub via: Txt,
}

/// An incident in a list.
#[derive(Clone, Copy, Debug)]
pub struct Row {
    pub number: u64,
    pub class: Class,
    pub account: Txt,
    pub holder: Option<Txt>,
}

impl PartialEq for Row {
    ghost use Rattle.arc_data.specs.Listings.{same_row, same_row_equiv};
    ghost use Rattle.std.specs.Cmp.{partial_equiv_from_equiv};

    ghost eq = { same_row };

    ghost laws = { partial_equiv_from_equiv same_row_equiv };

    fn eq(&self, other: &Row) -> bool {
        self.number == other.number
            && (self.class == other.class
                && (self.account == other.account && self.holder == other.holder))
    }
}

impl Eq for Row {
    ghost use Rattle.arc_data.specs.Listings.{same_row_equiv};

    ghost laws = { same_row_equiv };
}

/// At most 16 rows, in a room of their own. Contracts see them as a list.
#[derive(Debug, Drop)]
pub struct Rows {
    items: Vec<Row>,
}

impl Model for Rows {
    ghost use Rattle.std.specs.Prelude.{List, length, ◌≤◌};
    ghost use Rattle.arc_data.specs.declared.listing.Row.{Row};

    ghost Value = { List Row };

    ghost view = { λ s. s.items.items };

    ghost invariant = { λ s. length s.items.items ≤ 16 };
}

impl PartialEq for Rows {
    ghost use Rattle.arc_data.specs.Listings.{same_rows, same_rows_equiv};
    ghost use Rattle.std.specs.Cmp.{partial_equiv_from_equiv};

    ghost eq = { same_rows };

    ghost laws = { partial_equiv_from_equiv same_rows_equiv };

    fn eq(&self, other: &Rows) -> bool {
        self.items() == other.items()
    }
}

impl Eq for Rows {
    ghost use Rattle.arc_data.specs.Listings.{same_rows_equiv};

    ghost laws = { same_rows_equiv };
}

impl Rows {
    fn items(&self) -> &[Row]
        ensures value { result.now ≡ self.now }
        ensures most { length result.now ≤ 16 }
    {
        &self.items
    }
}

/// How many incidents are open, and rows of the first of them, at most 16.
#[derive(Debug, PartialEq, Eq)]
pub struct Listing {
    pub total: u64,
    rows: Rows,
}

// Written out: one call wherever a reply is dropped, where a derived drop is spelled out at each exit.
impl Drop for Listing {
    fn drop(self) {
        let Listing { total: _, rows } = self;
        drop(rows);
    }
}

impl Listing {
    /// A list with these rows.
    pub fn of(total: u64, rows: Vec<Row>) -> Listing
        requires { length rows.items ≤ 16 }
        ensures { result ≡ record { total = total; rows = rows.items } }
    {
        Listing {
            total,
            rows: Rows { items: rows },
        }
    }

    /// How many rows there are.
    pub fn count(&self) -> usize
        ensures count { result ≡ length self.now.rows }
        ensures most { result ≤ 16 }
    {
        self.rows.items().len()
    }

    /// The row at a place below the count.
    pub fn row(&self, i: usize) -> Row
        requires { i < length self.now.rows }
        ensures { slice_get self.now.rows i ≡ Some result }
    {
        self.rows.items()[i]
    }
}
