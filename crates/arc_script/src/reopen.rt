// The line `X`: all is made anew over what the journal keeps.
ghost use Rattle.std.specs.Prelude.{◌≡◌, ℕ, List, Some, IfErr, IfOk, OnOk};
ghost use Rattle.std.specs.Io.KnownBytes.{append_known};
ghost use Rattle.arc_data.specs.Moments.{IsMoment};
ghost use Rattle.centre_rules.specs.History.{Entry};
ghost use Rattle.centre_rules.specs.Summary.{Summary};
ghost use Rattle.centre_store.specs.Begins.{begun_after};
ghost use Rattle.centre_store.specs.Given.{HoldsRecorded};
ghost use Rattle.centre_store.specs.Stores.{HasFailed, StoreStands};
ghost use Rattle.script_lines.specs.Lines.{Reopen};
ghost use Rattle.arc_script.specs.Begun.{Begun};
ghost use Rattle.arc_script.specs.Between.{Between, CarriedOut, ShutAt, StoppedAt};
ghost use Rattle.arc_script.specs.Fed.{clock_of};
ghost use Rattle.arc_script.specs.Halting.{closing};
ghost use Rattle.arc_script.specs.PageWords.{page_seen};
ghost use Rattle.arc_script.specs.Pages.{counted_line};
ghost use Rattle.arc_script.specs.Playing.{AgainStops};
ghost use Rattle.arc_script.specs.Standing.{LeavesOn};
ghost use Rattle.arc_script.specs.Steps.{Place};
ghost use Rattle.centre_store.specs.StoreHalls.{is_told};

use crate::begin::begin;
use crate::page::Page;
use crate::replies::{put_count, said};
use crate::script::Script;
use arc_io::Disk;
use centre_core::Stop;
use centre_store::Store;
use disk_journal::OpenRefused;
use std::alloc::Global;

/// Closes the store and opens it again, makes all lines and desks anew, and begins a run at the moment that was set last.
pub(crate) fn reopen<D: Disk>(
    alloc: Global,
    store: Store<D>,
    script: &mut Script,
    moment: u64,
    page: &mut Page,
) -> Result<(Store<D>, Result<(), Stop>), OpenRefused<D>>
    requires clock { IsMoment moment }
    ensures carried { IfOk result (λ r. OnOk r.1 ((b : Begun D) (place : Place) (count number : ℕ) (h : List Entry)
        → Between D.seen b place count h script.old store
        → HoldsRecorded D.seen store.journal place.base h → clock_of place.asked ≡ Some moment
        → CarriedOut D.seen b place count number h Reopen
        script.old.tally script.new r.0 (page_seen page.old) (page_seen page.new))) }
    ensures stop { IfOk result (λ r. IfErr r.1 (λ stop. (b : Begun D) (place : Place) (count : ℕ) (h : List Entry)
        → Between D.seen b place count h script.old store
        → HoldsRecorded D.seen store.journal place.base h → clock_of place.asked ≡ Some moment
        → StoppedAt D.seen b place h Reopen stop script.old.tally script.new.tally r.0)) }
    ensures shut { IfErr result (λ r. (b : Begun D) (place : Place) (count : ℕ) (h : List Entry)
        → Between D.seen b place count h script.old store
        → HoldsRecorded D.seen store.journal place.base h → clock_of place.asked ≡ Some moment
        → ShutAt D.seen b place.base h r.fault r.disk) }
    ensures closed { script.new.tally ≡ closing script.old.tally script.old.opened_before store.state.sum }
    ensures rest { (script.new.setup ≡ script.old.setup) × (script.new.clock ≡ script.old.clock)
        × (script.new.number ≡ script.old.number) × (script.new.opened_before ≡ script.old.opened_before) }
    ensures set { IfOk result (λ r. OnOk r.1 (r.0.state.sum.text ≡ Some script.new.setup)) }
{
    let disk = script.close(store);
    let mut store = Store::open(alloc, disk, script.limits)?;
    script.renew();
    let begun = begin_again(alloc, &mut store, script, moment, page);
    Ok((store, begun))
}

// Begins a run, and tells how many entries are recorded.
fn begin_again<D: Disk>(
    alloc: Global,
    store: &mut Store<D>,
    script: &Script,
    moment: u64,
    page: &mut Page,
) -> Result<(), Stop>
    requires clock { IsMoment moment }
    ensures begun { OnOk result ((base : Summary) (h : List Entry) → StoreStands D.seen base store.old h
        → StoreStands D.seen base store.new (begun_after base h script.now.setup moment)) }
    ensures set { OnOk result (store.new.state.sum.text ≡ Some script.now.setup) }
    ensures text { OnOk result ((page_seen page.new).written
        ≡ append_known (page_seen page.old).written (counted_line store.new.state.sum.recorded)) }
    ensures stop { IfErr result (λ s. (base : Summary) (h : List Entry) → StoreStands D.seen base store.old h
        → HoldsRecorded D.seen store.old.journal base h → AgainStops D.seen base script.now.setup moment h s store.old store.new) }
    ensures left { OnOk result ((base : Summary) (h : List Entry) → StoreStands D.seen base store.old h
        → LeavesOn D.seen base store.old store.new h (begun_after base h script.now.setup moment)) }
    ensures up { OnOk result (HasFailed D.seen store.new → ⊥) }
    ensures tells { is_told (D.seen store.new.journal.disk).told ≡ is_told (D.seen store.old.journal.disk).told }
    ensures at_open { store.new.at_open ≡ store.old.at_open }
    ensures limits { store.new.journal.limits ≡ store.old.journal.limits }
{
    begin(alloc, store, script, moment)?;
    said(put_count(page, store.centre().recorded()))
}
