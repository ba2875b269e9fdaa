// What the seats of a gate's table know, and the kinds of steps that they make.
//
// A gate has one table without slots and with two words. Word 0 counts the entries of the history past the base, word 1 is the
// greatest count of disk faults that a caller was told. The history itself exists in the proofs alone: the rule says that there
// is one, and what each seat's view has to do with it. Nothing here has bytes.
ghost use Rattle.std.specs.Prelude.{◌≡◌, ℕ};

use arc_data::Entry;
use atomic_table::{Join, Play, Seat, Shared, Split, Table, TableRule};
use std::alloc::Global;
use std::collections::LinkedList;
use std::marker::{Brand, PhantomData};

/// What a seat knows. No value of it is made. The lists stand the newest entry first, and have the entries past the base alone.
pub struct View {
    /// Whether it is the one seat that lies under the lock.
    pub book: bool,
    /// The caller's number, which a pass has. A view that is no book and has no number is a note.
    pub number: Option<u64>,
    /// The next number to give, as far as it knows; the book knows it.
    pub count: u64,
    pub seen: LinkedList<Entry>,
    /// The entries that a pass made.
    pub made: LinkedList<Entry>,
    /// The greatest count of disk faults that it was told.
    pub told: u64,
    /// The entries that may follow next, one after another. A view whose list is empty names nothing.
    pub named: LinkedList<Entry>,
    /// What it had seen itself before the last join, until the next load.
    pub had: LinkedList<Entry>,
    /// What the view that it took in last had seen, known and been told, until the next load.
    pub got: LinkedList<Entry>,
    pub got_count: u64,
    pub got_told: u64,
}

/// The rule of the table.
pub struct GateRule;

impl TableRule<(), View, ()> for GateRule {
    ghost use Rattle.line_gate.specs.Views.{first_view};
    ghost use Rattle.line_gate.specs.Rule.{Keeps};

    ghost holds = { λ k s. Keeps s };

    ghost first = { λ k. first_view };
}

pub type Words = Shared<(), View, (), GateRule>;

pub type GateTable = Table<(), View, (), GateRule, Global>;

pub type GateSeat = Seat<(), View>;

/// Cuts off a note that has seen as much.
pub struct Notes;

impl Split<View> for Notes {
    ghost use Rattle.line_gate.specs.Views.{note_of};

    ghost left = { λ v. v };

    ghost right = { note_of };
}

/// Cuts a new pass off the book, under the next number.
pub struct Numbers;

impl Split<View> for Numbers {
    ghost use Rattle.line_gate.specs.Views.{counting, pass_of};

    ghost left = { counting };

    ghost right = { pass_of };
}

/// Names entries, the newest first. Each call picks them.
pub trait Following {
    ghost use Rattle.std.specs.Prelude.{List};
    ghost use Rattle.arc_data.specs.declared.event.Entry.{Entry};

    ghost entries: { List Entry };
}

impl Following for Brand {
    ghost use Rattle.std.specs.Prelude.{[]};

    ghost entries = { [] };
}

/// Cuts a note off the book that names the entries, as the book then does too.
pub struct Naming<E: Following>(PhantomData<E>);

impl<E: Following> Split<View> for Naming<E> {
    ghost use Rattle.line_gate.specs.Views.{naming, named_note};

    ghost left = { naming E.entries };

    ghost right = { named_note E.entries };
}

/// A pass takes in another pass or a note that names nothing.
pub struct Learns;

impl Join<View> for Learns {
    ghost use Rattle.line_gate.specs.Views.{learned, nobody};

    ghost both = { learned };

    ghost spent = { nobody };
}

/// A pass takes in the note that names entries.
pub struct Takes;

impl Join<View> for Takes {
    ghost use Rattle.line_gate.specs.Views.{taking, nobody};

    ghost both = { taking };

    ghost spent = { nobody };
}

/// The book is shown what a note or a pass knows.
pub struct Shows;

impl Join<View> for Shows {
    ghost use Rattle.line_gate.specs.Views.{shown, nobody};

    ghost both = { shown };

    ghost spent = { nobody };
}

/// The book takes the note back that names entries, which are then not named any more.
pub struct Withdraws;

impl Join<View> for Withdraws {
    ghost use Rattle.line_gate.specs.Views.{withdrawn, nobody};

    ghost both = { withdrawn };

    ghost spent = { nobody };
}

/// A pass loads word 0, and learns that what it has seen begins with what each of the two joined views had seen.
pub struct Looks;

impl Play<(), View> for Looks {
    ghost use Rattle.line_gate.specs.Views.{Looked};

    ghost then = { λ s v n w. Looked v.0 w.0 × (w.1 ≡ v.1) };
}

/// The book loads word 0, and learns that it knows all that it was shown.
pub struct Checks;

impl Play<(), View> for Checks {
    ghost use Rattle.line_gate.specs.Views.{Checked};

    ghost then = { λ s v n w. Checked v.0 w.0 × (w.1 ≡ v.1) };
}

/// A pass adds their number to word 0, and so appends the first entries of those that it names.
pub struct Appends;

impl Play<(), View> for Appends {
    ghost use Rattle.line_gate.specs.Views.{Appended};

    ghost then = { λ s v n w. Appended s.first v.0 w.0 × (w.1 ≡ v.1) };
}

/// The book loads word 0 after entries that it names were appended, of which it was shown a note.
pub struct Catches;

impl Play<(), View> for Catches {
    ghost use Rattle.line_gate.specs.Views.{Caught};

    ghost then = { λ s v n w. Caught v.0 w.0 × (w.1 ≡ v.1) };
}

/// The book raises word 1 to a count of disk faults.
pub struct Marks;

impl Play<(), View> for Marks {
    ghost use Rattle.line_gate.specs.Views.{IsTold};

    ghost then = { λ s v n w. IsTold s.first v.0 w.0 × (w.1 ≡ v.1) };
}

/// A pass loads word 1.
pub struct Reads;

impl Play<(), View> for Reads {
    ghost use Rattle.line_gate.specs.Views.{HasRead};

    ghost then = { λ s v n w. HasRead v.0 n w.0 × (w.1 ≡ v.1) };
}
