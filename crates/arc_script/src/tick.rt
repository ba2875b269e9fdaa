// The line `T`: the clock is set, and ticks.
ghost use Rattle.std.specs.Prelude.{◌≡◌, ◌≤◌, ◌++◌, List, Some, Err, IfSome, OnOk, OnErr, IfErr, codes};
ghost use Rattle.std.specs.Io.KnownBytes.{append_known};
ghost use Rattle.arc_data.specs.Moments.{IsMoment};
ghost use Rattle.centre_core.specs.Setting.{IsSetting};
ghost use Rattle.centre_rules.specs.History.{Entry};
ghost use Rattle.centre_rules.specs.Summary.{Summary};
ghost use Rattle.centre_store.specs.Given.{HoldsRecorded};
ghost use Rattle.centre_store.specs.Stores.{StoreStands};
ghost use Rattle.desk_wire.specs.Replies.{line_of};
ghost use Rattle.arc_script.specs.PageWords.{page_seen};
ghost use Rattle.arc_script.specs.Playing.{Ticked, TickStops};
ghost use Rattle.arc_script.specs.Standing.{IsReadable, LeavesOn};
ghost use Rattle.centre_store.specs.StoreHalls.{is_told};
ghost use Rattle.arc_script.specs.Steps.{before_tick, ticked_after};

use crate::begin::begin;
use crate::page::Page;
use crate::replies::said;
use crate::script::Script;
use arc_data::{Event, Reply};
use arc_io::{Disk, put};
use centre_core::Stop;
use centre_store::Store;
use desk_wire::{Line, print_in};
use std::alloc::Global;

/// Sets the clock, and submits a Tick, whose reply is built in the lent line. The first time a run begins before.
pub(crate) fn tick<D: Disk>(
    alloc: Global,
    store: &mut Store<D>,
    script: &mut Script,
    moment: u64,
    line: &mut Line,
    page: &mut Page,
) -> Result<(), Stop>
    requires clock { IsMoment moment }
    requires set { IfSome script.old.clock (λ last. store.old.state.sum.text ≡ Some script.old.setup) }
    ensures ticked { OnOk result ((base : Summary) (h : List Entry) → StoreStands D.seen base store.old h
        → Ticked D.seen base (before_tick script.old.clock base script.old.setup moment h) moment store.new
        (page_seen page.old) (page_seen page.new)) }
    ensures set { OnOk result (store.new.state.sum.text ≡ Some script.old.setup) }
    ensures clock { OnOk result (script.new.clock ≡ Some moment) }
    ensures rest { script.new ≡ record script.old { clock = script.new.clock } }
    ensures stop { IfErr result (λ s. (base : Summary) (h : List Entry) → StoreStands D.seen base store.old h
        → HoldsRecorded D.seen store.old.journal base h → IsReadable base h
        → TickStops D.seen script.old.clock base script.old.setup moment h s store.old store.new) }
    ensures left { OnOk result ((base : Summary) (h : List Entry) → StoreStands D.seen base store.old h
        → LeavesOn D.seen base store.old store.new h (ticked_after script.old.clock base script.old.setup moment h)) }
    ensures tells { is_told (D.seen store.new.journal.disk).told ≡ is_told (D.seen store.old.journal.disk).told }
    ensures at_open { store.new.at_open ≡ store.old.at_open }
    ensures limits { store.new.journal.limits ≡ store.old.journal.limits }
    ensures later { (D.seen store.old.journal.disk).faults ≤ (D.seen store.new.journal.disk).faults }
{
    begin_first(alloc, store, script, moment)?;
    script.clock = Some(moment);
    let done = store.submit(alloc, 0, Event::Tick, moment)?;
    say_tick(line, &done.reply, page)
}

// Puts the letter and the reply.
#[tactic(auto, using(arc_io::proofs::KnownMore::known_both))]
fn say_tick(line: &mut Line, reply: &Reply, page: &mut Page) -> Result<(), Stop>
    ensures text { OnOk result ((page_seen page.new).written ≡ append_known (page_seen page.old).written (codes "T " ++ line_of reply.now)) }
    ensures stop { OnErr result (result ≡ Err Stop.Memory) }
{
    said(put(page, b"T "))?;
    said(print_in(line, reply, page))
}

// Begins the run, where none has begun.
fn begin_first<D: Disk>(
    alloc: Global,
    store: &mut Store<D>,
    script: &Script,
    moment: u64,
) -> Result<(), Stop>
    requires clock { IsMoment moment }
    requires set { IfSome script.now.clock (λ last. store.old.state.sum.text ≡ Some script.now.setup) }
    ensures begun { OnOk result ((base : Summary) (h : List Entry) → StoreStands D.seen base store.old h
        → StoreStands D.seen base store.new (before_tick script.now.clock base script.now.setup moment h)) }
    ensures set { OnOk result (store.new.state.sum.text ≡ Some script.now.setup) }
    ensures ready { OnOk result (IsSetting store.new.state.sum.text) }
    ensures held { OnOk result ((base : Summary) (h : List Entry) → StoreStands D.seen base store.old h
        → HoldsRecorded D.seen store.old.journal base h
        → HoldsRecorded D.seen store.new.journal base (before_tick script.now.clock base script.now.setup moment h)) }
    ensures stop { IfErr result (λ s. (base : Summary) (h : List Entry) → StoreStands D.seen base store.old h
        → HoldsRecorded D.seen store.old.journal base h → IsReadable base h
        → TickStops D.seen script.now.clock base script.now.setup moment h s store.old store.new) }
    ensures left { OnOk result ((base : Summary) (h : List Entry) → StoreStands D.seen base store.old h
        → LeavesOn D.seen base store.old store.new h (before_tick script.now.clock base script.now.setup moment h)) }
    ensures tells { is_told (D.seen store.new.journal.disk).told ≡ is_told (D.seen store.old.journal.disk).told }
    ensures at_open { store.new.at_open ≡ store.old.at_open }
    ensures limits { store.new.journal.limits ≡ store.old.journal.limits }
    ensures later { (D.seen store.old.journal.disk).faults ≤ (D.seen store.new.journal.disk).faults }
{
    match script.clock {
        None => begin(alloc, store, script, moment),
        Some(_) => Ok(()),
    }
}
