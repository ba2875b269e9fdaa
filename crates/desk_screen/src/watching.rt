// What becomes of what is watched, and when the bell rings.
ghost use Rattle.std.specs.Prelude.{◌≡◌, ◌==◌, ◌+◌, ℕ, List, Option, is_some, min, if◌then◌else◌, false};
ghost use Rattle.std.specs.List.{list_any};
ghost use Rattle.desk_screen.specs.Bell.{is_left, is_new, is_urgent};
ghost use Rattle.desk_screen.specs.Inputs.{Key, Answer, Second};
ghost use Rattle.desk_screen.specs.Steps.{IsWatch};
ghost use Rattle.desk_screen.specs.declared.reaction.Reaction.{Reaction};
ghost use Rattle.desk_said.specs.declared.said.Said.TheVariants.{Strange};

use crate::queue::Waiting;
use crate::watch::Watch;
use arc_data::{Class, Row};
use desk_said::Said;

/// Whether an incident of the class has priority 1 or 2.
pub(crate) fn is_urgent(class: Class) -> bool
    ensures { result ≡ is_urgent class }
{
    let priority = class.priority();
    1 <= priority && priority <= 2
}

// An urgent one that waits for somebody to take it.
fn is_left(waiting: &Waiting) -> bool
    ensures { result ≡ is_left waiting.now }
{
    is_urgent(waiting.row.class) && waiting.row.holder.is_none()
}

fn has_stood(before: &[Waiting], number: u64) -> bool
    ensures { result ≡ list_any (λ w. w.row.number == number) before.now }
{
    before.iter().any(|waiting| waiting.row.number == number)
}

// An urgent one that the list before did not have.
fn is_new(before: &[Waiting], row: &Row) -> bool
    ensures { result ≡ is_new before.now row.now }
{
    is_urgent(row.class) && !has_stood(before, row.number)
}

fn has_new(before: &[Waiting], rows: &[Row]) -> bool
    ensures { result ≡ list_any (is_new before.now) rows.now }
{
    rows.iter().any(|row| is_new(before, row))
}

fn has_left(queue: &[Waiting]) -> bool
    ensures { result ≡ list_any is_left queue.now }
{
    queue.iter().any(|waiting| is_left(waiting))
}

impl Watch {
    /// A key silences the bell for a minute, where somebody is logged in.
    pub(crate) fn pressed(&mut self, key: u8, is_logged: bool)
        ensures { (r : Reaction) (user : Option (List ℕ)) → r.rung ≡ false → is_some user ≡ is_logged → IsWatch (Key key) Strange r user self.old self.new }
    {
        if is_logged && key == b'm' {
            self.muted = 60;
        }
    }

    /// Takes up an answer, and tells whether the bell rings.
    pub(crate) fn told(&mut self, said: &Said) -> bool
        ensures { (line : List ℕ) (r : Reaction) (user : Option (List ℕ)) → r.rung ≡ result → IsWatch (Answer line) said.now r user self.old self.new }
    {
        let Said::Listed { total, rows } = said else {
            return false;
        };
        let is_rung = has_new(self.queue.items(), rows.items());
        self.queue = self.queue.followed(rows, self.clock);
        self.total = *total;
        if is_rung {
            self.quiet = 0;
        }
        is_rung
    }

    /// A second passes. Tells whether the bell rings.
    pub(crate) fn ticked(&mut self) -> bool
        ensures { (r : Reaction) (user : Option (List ℕ)) → r.rung ≡ result → IsWatch Second Strange r user self.old self.new }
    {
        let is_rung = has_left(self.queue.items()) && (self.quiet >= 19 && self.muted == 0);
        self.clock = self.clock.saturating_add(1);
        self.muted = self.muted.saturating_sub(1);
        self.quiet = quiet_after(is_rung, self.quiet);
        is_rung
    }
}

// For how many seconds the bell has not rung, up to 20, a second later.
fn quiet_after(is_rung: bool, before: u8) -> u8
    ensures { result ≡ (if is_rung then 0 else min (before + 1) 20) }
{
    if is_rung {
        0
    } else if before < 20 {
        before + 1
    } else {
        20
    }
}
