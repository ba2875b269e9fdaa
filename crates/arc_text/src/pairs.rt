// The order of pairs, and what it costs to ask for it.
ghost use Rattle.std.specs.Prelude.{◌≡◌, ◌+◌};
ghost use Rattle.arc_text.specs.Comparisons.{order_of};

use crate::steps::Steps;
use std::cmp::Ordering;
use std::sync::ledger::Ledger;

/// How a pair of numbers stands to another: by the first number of each, and where those are equal, by the second. It is one
/// step.
pub fn order<L: Ledger>(a: (u64, u64), b: (u64, u64), steps: &mut Steps<L>) -> Ordering
    ensures order { result ≡ order_of a b }
    ensures step { steps.new ≡ steps.old + 1 }
{
    steps.tick();
    a.cmp(&b)
}
