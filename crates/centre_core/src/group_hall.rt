// Where a session submits events together.
ghost use Rattle.std.specs.Prelude.{◌≡◌, ◌≤◌, ℕ, List, [], None, length, take, drop, IfSome};
ghost use Rattle.arc_data.specs.declared.event.Event.{Event};
ghost use Rattle.centre_core.specs.Batches.{IsDownThen};
ghost use Rattle.centre_rules.specs.Summary.{Summary};
ghost use Rattle.centre_rules.specs.History.{Entry};

use crate::batch::{Batch, Grouped};
use crate::hall::Hall;
use std::alloc::Global;

/// A hall that takes events together, too: what it answers is what it would answer one after another.
pub trait GroupHall: Hall {
    ghost use Rattle.centre_core.specs.Halls.{IsKept};
    ghost use Rattle.centre_core.specs.GroupHalls.{GoesOnWith, ShowsLeft};

    /// Submits the events of a batch, in order, as far as one call takes them: at least one of them, unless it stops. What is answered is
    /// off the batch, and stands together at the end of the history. After a Stop the events that are left have no entry; after Down
    /// nothing is answered, and of the batch a part may be gone.
    fn submit_all(&mut self, alloc: Global, batch: &mut Batch) -> Grouped
        requires ready { (Self.seen self.old).ready }
        ensures kept { IsKept (Self.seen self.old) (Self.seen self.new) }
        ensures goes_on { (b : Summary) (h : List Entry) → (Self.seen self.old).stands b h →
            GoesOnWith b (Self.seen self.old) (Self.seen self.new) h (take (length result.done) batch.old) result.done }
        ensures within { length result.done ≤ length batch.old }
        ensures some { result.stop ≡ None → (batch.old ≡ [] → ⊥) → 1 ≤ length result.done }
        ensures off { (IsDownThen result.stop → ⊥) → batch.new ≡ drop (length result.done) batch.old }
        ensures none { IsDownThen result.stop → result.done ≡ [] }
        ensures cause { IfSome result.stop (λ s. ShowsLeft (Self.seen self.new) s batch.new) }
        ensures up { (IsDownThen result.stop → ⊥) → (Self.seen self.new).up };

    /// Its callers are told nothing of what its disk has behind a stop.
    ghost untold: { (hall : Self) (b : Summary) (h : List Entry) (event : Event) (clock : ℕ) → (Self.seen hall).torn b h event clock };
}
