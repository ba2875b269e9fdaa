// The place of a pair among pairs in order, by halves.
ghost use Rattle.std.specs.Prelude.{◌≡◌, length, slice_get, Some, IfOk, IfErr};
ghost use Rattle.arc_text.specs.Comparisons.{TakesFew};
ghost use Rattle.operator_queue.specs.Pairs.{IsOrdered, IsApart};

use arc_text::{Steps, order};
use std::cmp::Ordering;
use std::collections::VecDeque;
use std::sync::ledger::Ledger;

/// A place where the pair stands, or else the place before which all pairs are less and from which on all are greater.
pub(crate) fn search<L: Ledger>(
    pairs: &VecDeque<(u64, u64)>,
    pair: (u64, u64),
    steps: &mut Steps<L>,
) -> Result<usize, usize>
    requires { IsOrdered pairs.now.items }
    ensures found { IfOk result (λ place. slice_get pairs.now.items place ≡ Some pair) }
    ensures apart { IfErr result (IsApart pair pairs.now.items) }
    ensures cost { TakesFew (length pairs.now.items) steps.old steps.new }
{
    let mut low = 0;
    let mut high = pairs.len();
    while low < high {
        let place = low + (high - low) / 2;
        match order(pairs[place], pair, steps) {
            Ordering::Less => low = place + 1,
            Ordering::Equal => return Ok(place),
            Ordering::Greater => high = place,
        }
    }
    Err(low)
}
