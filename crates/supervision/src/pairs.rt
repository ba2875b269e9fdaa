// Deadlines with their places, as sorted pairs.
ghost use Rattle.std.specs.Prelude.{◌≡◌, ◌<◌, ◌≤◌, length, nat_lt, map, take, OnOk};
ghost use Rattle.std.specs.List.{cons_option, filter};
ghost use Rattle.std.specs.List.Sorted.{IsPermutation, IsSorted};
ghost use Rattle.std.specs.Ordering.{nat_cmp};
ghost use Rattle.arc_text.specs.Comparisons.{TakesFew};
ghost use Rattle.supervision.specs.Deadlines.{pair_of, IsWithout, TakesOneMore};

use arc_data::Memory;
use arc_text::{Steps, order};
use operator_queue::OrderedPairs;
use std::sync::ledger::Ledger;

/// Takes the pair of a place's deadline out, if there is a deadline.
pub(crate) fn take_out<L: Ledger>(
    sorted: &mut OrderedPairs,
    place: usize,
    deadline: Option<u64>,
    steps: &mut Steps<L>,
)
    ensures taken { IsWithout (pair_of place deadline) sorted.old.pairs sorted.new.pairs }
    ensures room { sorted.new.room ≡ sorted.old.room }
    ensures cost { TakesFew (length sorted.old.pairs) steps.old steps.new }
{
    if let Some(moment) = deadline {
        sorted.remove((moment, place as u64), steps);
    }
}

/// Puts the pair of a place's deadline in, if there is a deadline. Takes no memory.
pub(crate) fn put_in<L: Ledger>(
    sorted: &mut OrderedPairs,
    place: usize,
    deadline: Option<u64>,
    steps: &mut Steps<L>,
)
    requires { length sorted.old.pairs < sorted.old.room }
    ensures put { IsPermutation (cons_option (pair_of place deadline) sorted.old.pairs) sorted.new.pairs }
    ensures room { sorted.new.room ≡ sorted.old.room }
    ensures cost { TakesFew (length sorted.old.pairs) steps.old steps.new }
{
    if let Some(moment) = deadline {
        sorted.insert((moment, place as u64), steps);
    }
}

/// How many of the sorted pairs have a deadline less than the moment: these are the first so many.
pub(crate) fn count_passed<L: Ledger>(sorted: &OrderedPairs, at: u64, steps: &mut Steps<L>) -> usize
    ensures within { result ≤ length sorted.now.pairs }
    ensures passed { take result sorted.now.pairs ≡ filter (λ p. nat_lt p.0 at) sorted.now.pairs }
    ensures cost { TakesOneMore result steps.old steps.new }
{
    let count = sorted.count();
    for place in 0..count {
        // No pair of this moment comes before that with the place 0.
        if !order(sorted.at(place), (at, 0), steps).is_lt() {
            return place;
        }
    }
    count
}

/// Makes the list that of the places of the first so many pairs, ascending: they are sorted where they stand, without `order`. The
/// error is want of memory.
pub(crate) fn put_places(
    out: &mut Vec<usize>,
    sorted: &OrderedPairs,
    count: usize,
) -> Result<(), Memory>
    requires { count ≤ length sorted.now.pairs }
    ensures places { OnOk result (IsPermutation (map (λ p. p.1) (take count sorted.now.pairs)) out.new.items) }
    ensures ascending { OnOk result (IsSorted nat_cmp out.new.items) }
{
    copy_places(out, sorted, count)?;
    out.sort_unstable();
    Ok(())
}

// Makes the list that of the places of the first so many pairs, in their order. The error is want of memory.
fn copy_places(out: &mut Vec<usize>, sorted: &OrderedPairs, count: usize) -> Result<(), Memory>
    requires { count ≤ length sorted.now.pairs }
    ensures { OnOk result (out.new.items ≡ map (λ p. p.1) (take count sorted.now.pairs)) }
{
    out.clear();
    for place in 0..count {
        let Ok(()) = out.push(sorted.at(place).1 as usize) else {
            return Err(Memory);
        };
    }
    Ok(())
}
