// What a message says.
ghost use Rattle.std.specs.Prelude.{◌≡◌, ◌<◌, ◌↔◌, ◌++◌, ◌∷◌, [], length, slice_get, Some, IsTrue, if◌then◌else◌};
ghost use Rattle.arc_data.specs.Classes.{class_place, name_of, priority_of};

use crate::Txt;
use std::marker::Model;

/// What a signal is about.
#[derive(Clone, Copy, Debug)]
pub enum Class {
    Fire,
    Medical,
    Panic,
    Gas,
    Burglary,
    Tamper,
    Environment,
    /// The panel or its line is not heard, or the panel reports so.
    CommFail,
    Trouble,
    /// An opening outside the opening hours of the account.
    Irregular,
    /// The account was not closed in time.
    LateClose,
    /// A code that no table lists.
    Unlisted,
    Test,
    OpenClose,
    Bypass,
    Cancel,
    Program,
}

impl PartialEq for Class {
    ghost use Rattle.arc_data.specs.Classes.{same_class, same_class_equiv};
    ghost use Rattle.std.specs.Cmp.{partial_equiv_from_equiv};

    ghost eq = { same_class };

    ghost laws = { partial_equiv_from_equiv same_class_equiv };

    fn eq(&self, other: &Class) -> bool {
        self.place() == other.place()
    }
}

impl Eq for Class {
    ghost use Rattle.arc_data.specs.Classes.{same_class_equiv};

    ghost laws = { same_class_equiv };
}

impl Class {
    // Its place in the list above.
    fn place(self) -> u8
        ensures { result ≡ class_place self }
    {
        self as u8
    }

    /// How urgent an incident of the class is, from 1, the most urgent, to 4. Signals of a class with 0 open no incident.
    pub fn priority(self) -> u8
        ensures { result ≡ priority_of self }
    {
        match self {
            Class::Fire | Class::Medical | Class::Panic => 1,
            Class::Gas | Class::Burglary => 2,
            Class::Tamper | Class::Environment | Class::CommFail => 3,
            Class::Trouble | Class::Irregular | Class::LateClose | Class::Unlisted => 4,
            Class::Test | Class::OpenClose | Class::Bypass | Class::Cancel | Class::Program => 0,
        }
    }

    /// Its name in a setup text and at a desk, in lower case.
    pub fn name(self) -> &'static str
        ensures { result.now ≡ name_of self }
    {
        match self {
            Class::Fire => "fire",
            Class::Medical => "medical",
            Class::Panic => "panic",
            Class::Gas => "gas",
            Class::Burglary => "burglary",
            Class::Tamper => "tamper",
            Class::Environment => "environment",
            Class::CommFail => "commfail",
            Class::Trouble => "trouble",
            Class::Irregular => "irregular",
            Class::LateClose => "lateclose",
            Class::Unlisted => "unlisted",
            Class::Test => "test",
            Class::OpenClose => "openclose",
            Class::Bypass => "bypass",
            Class::Cancel => "cancel",
            Class::Program => "program",
        }
    }
}

/// What a signal does to the incident of its account and class.
#[derive(Clone, Copy, Debug, PartialEq, Eq)]
pub enum Kind {
    /// It opens the incident or is attached to it.
    New,
    /// The cause is still present: as `New`.
    Again,
    /// The cause is gone.
    Restore,
    /// The site is opened.
    Opening,
    /// The site is closed.
    Closing,
    /// Nothing but a sign of life.
    LogOnly,
}

/// One thing that a message reports. The code is as the panel sent it.
#[derive(Clone, Copy, Debug, PartialEq, Eq)]
pub struct Signal {
    pub class: Class,
    pub kind: Kind,
    pub code: Txt,
}

/// The signals of a message, at most 8, in a room of their own, which takes no memory. Contracts see them as a list.
#[derive(Debug, Drop)]
pub struct Signals {
    items: [Signal; 8],
    len: usize,
}

impl Model for Signals {
    ghost use Rattle.std.specs.Prelude.{List, take, length, ◌≤◌, ◌≡◌};
    ghost use Rattle.arc_data.specs.declared.signal.Signal.{Signal};

    ghost Value = { List Signal };

    ghost view = { λ s. take s.len s.items };

    ghost invariant = { λ s. (s.len ≤ 8) × (length s.items ≡ 8) };
}

impl Signals {
    /// No signals.
    pub fn new() -> Signals
        ensures { result ≡ [] }
    {
        let unused = Signal {
            class: Class::Unlisted,
            kind: Kind::LogOnly,
            code: Txt::empty(),
        };
        Signals {
            items: [unused; 8],
            len: 0,
        }
    }

    /// Puts the signal last. False exactly where 8 are there, and then nothing changes.
    pub fn push(&mut self, signal: Signal) -> bool
        ensures room { IsTrue result ↔ (length self.old < 8) }
        ensures pushed { self.new ≡ (if result then self.old ++ signal ∷ [] else self.old) }
    {
        if self.len == 8 {
            return false;
        }
        self.items[self.len] = signal;
        self.len += 1;
        true
    }

    /// How many signals there are.
    pub fn count(&self) -> usize
        ensures { result ≡ length self.now }
    {
        self.len
    }

    /// The signal at a place below the count.
    pub fn at(&self, i: usize) -> Signal
        requires { i < length self.now }
        ensures { slice_get self.now i ≡ Some result }
    {
        let items = &self.items[..self.len];
        items[i]
    }
}
