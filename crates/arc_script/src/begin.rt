// How a run of a script begins.
ghost use Rattle.std.specs.Prelude.{◌≡◌, ◌≤◌, List, Some, OnOk, IfErr};
ghost use Rattle.arc_data.specs.Moments.{IsMoment};
ghost use Rattle.centre_rules.specs.History.{Entry};
ghost use Rattle.centre_rules.specs.Summary.{Summary};
ghost use Rattle.centre_store.specs.Begins.{begun_after};
ghost use Rattle.centre_store.specs.Given.{HoldsRecorded};
ghost use Rattle.centre_store.specs.Stores.{HasFailed, StoreStands};
ghost use Rattle.arc_script.specs.Playing.{BeginStops};
ghost use Rattle.arc_script.specs.Standing.{LeavesOn};
ghost use Rattle.centre_store.specs.StoreHalls.{is_told};

use crate::script::Script;
use arc_data::Memory;
use arc_io::Disk;
use centre_core::Stop;
use centre_store::Store;
use std::alloc::Global;

/// Begins a run at a moment, with a copy of the setup.
pub(crate) fn begin<D: Disk>(
    alloc: Global,
    store: &mut Store<D>,
    script: &Script,
    moment: u64,
) -> Result<(), Stop>
    requires { IsMoment moment }
    ensures begun { OnOk result ((base : Summary) (h : List Entry) → StoreStands D.seen base store.old h
        → StoreStands D.seen base store.new (begun_after base h script.now.setup moment)) }
    ensures text { OnOk result (store.new.state.sum.text ≡ Some script.now.setup) }
    ensures stop { IfErr result (λ s. (base : Summary) (h : List Entry) → StoreStands D.seen base store.old h
        → HoldsRecorded D.seen store.old.journal base h → BeginStops D.seen base script.now.setup moment h s store.old store.new) }
    ensures left { OnOk result ((base : Summary) (h : List Entry) → StoreStands D.seen base store.old h
        → LeavesOn D.seen base store.old store.new h (begun_after base h script.now.setup moment)) }
    ensures up { OnOk result (HasFailed D.seen store.new → ⊥) }
    ensures tells { is_told (D.seen store.new.journal.disk).told ≡ is_told (D.seen store.old.journal.disk).told }
    ensures at_open { store.new.at_open ≡ store.old.at_open }
    ensures limits { store.new.journal.limits ≡ store.old.journal.limits }
    ensures later { (D.seen store.old.journal.disk).faults ≤ (D.seen store.new.journal.disk).faults }
{
    match script.setup.copy(alloc) {
        Ok(setup) => store.begin(alloc, setup, moment),
        Err(Memory) => Err(Stop::Memory),
    }
}
