// Laws of desk sessions.
ghost use Rattle.std.specs.Prelude.{◌++◌, ℕ, List, Option};
ghost use Rattle.alarm_rules.specs.Setups.{meaning};
ghost use Rattle.centre_core.specs.Halls.{IsKept};
ghost use Rattle.centre_rules.specs.Summary.{Summary};
ghost use Rattle.centre_rules.specs.History.{Entry};
ghost use Rattle.session_rules.specs.Sessions.{changed, Ending, answered};
ghost use Rattle.desk_session.specs.Events.{acts_over};
ghost use Rattle.desk_session.specs.Sessions.{IsDesk};

use arc_io::Port;
use centre_core::Hall;

/// A session that answered all lines, and then a session over those that follow, which acts for whom the first acted at last, are
/// one session over all of them: so the texts of the calls of a desk's state, joined, are the text of the pieces taken, joined.
pub fn law_sessions_join<H: Hall, P: Port>()
    ensures { (end : Ending) (b : Summary) (operator : Option (List ℕ)) (xs ys : List (List ℕ)) (h : List Entry)
        (first mid last : H) (p q r : P) →
        IsKept (H.seen first) (H.seen mid) →
        IsDesk answered b operator xs h (changed (H.seen first) (H.seen mid) (P.seen p) (P.seen q)) →
        ((x : List Entry) → (H.seen mid).stands b x →
        IsDesk end b (acts_over (meaning (H.seen first).text) operator xs) ys x (changed (H.seen mid) (H.seen last) (P.seen q) (P.seen r))) →
        IsDesk end b operator (xs ++ ys) h (changed (H.seen first) (H.seen last) (P.seen p) (P.seen r)) }
{}
