// Laws of line sessions.
ghost use Rattle.std.specs.Prelude.{◌++◌, ℕ, List};
ghost use Rattle.centre_core.specs.Halls.{IsKept};
ghost use Rattle.centre_rules.specs.Summary.{Summary};
ghost use Rattle.centre_rules.specs.History.{Entry};
ghost use Rattle.session_rules.specs.Sessions.{Ending, answered, changed};
ghost use Rattle.line_session.specs.Sessions.{IsLine};

use arc_io::Port;
use centre_core::Hall;

/// A session that answered all whole pieces, and then one of the same name over those that follow, are one session over all of them: so
/// the texts of the calls of a line's state, joined, are the text of the pieces taken, joined.
pub fn law_sessions_join<H: Hall, P: Port>()
    ensures { (name : List ℕ) (end : Ending) (b : Summary) (xs ys : List (List ℕ)) (h : List Entry) (first mid last : H) (p q r : P) →
        IsKept (H.seen first) (H.seen mid) →
        IsLine name answered b xs h (changed (H.seen first) (H.seen mid) (P.seen p) (P.seen q)) →
        ((x : List Entry) → (H.seen mid).stands b x → IsLine name end b ys x (changed (H.seen mid) (H.seen last) (P.seen q) (P.seen r))) →
        IsLine name end b (xs ++ ys) h (changed (H.seen first) (H.seen last) (P.seen p) (P.seen r)) }
{}
