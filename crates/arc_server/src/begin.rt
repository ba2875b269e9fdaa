// How a run begins: the setup is read, the journal is opened, and the clock is asked.
ghost use Rattle.std.specs.Prelude.{◌≡◌, ◌≢◌, ◌≤◌, List, false, IsOk, IfOk, IfErr};
ghost use Rattle.alarm_rules.specs.Setups.{setup_of};
ghost use Rattle.arc_io.specs.Seen.{PortSeen};
ghost use Rattle.centre_core.specs.Setting.{IsSetting};
ghost use Rattle.centre_rules.specs.History.{Entry};
ghost use Rattle.centre_rules.specs.Summary.{Summary};
ghost use Rattle.centre_store.specs.Given.{BeginsWith};
ghost use Rattle.centre_store.specs.Stores.{StoreStands};
ghost use Rattle.arc_server.specs.Areas.{shipped};
ghost use Rattle.arc_server.specs.Beginnings.{HasBegun, StopsAtBeginning, StopsBefore};
ghost use Rattle.arc_server.specs.Handed.{Handed};
ghost use Rattle.arc_server.specs.SetupReads.{ReadsText};

use crate::made::{StoppedRun, status_of_stop, status_over, unopened};
use crate::setup::read_setup;
use crate::status::Status;
use arc_io::{Disk, Port, Source};
use centre_core::Setup;
use centre_store::Store;
use disk_journal::SHIPPED;
use std::alloc::Global;

/// Reads the setup, opens the journal with the limits that are shipped, and begins a run at one reading of the clock.
pub(crate) fn begin_run<S: Source, P: Port, D: Disk>(
    alloc: Global,
    source: &mut S,
    port: &mut P,
    disk: D,
) -> Result<Store<D>, StoppedRun<D>>
    requires setup { (S.seen source.old).ended ≡ false }
    ensures begun { IfOk result (λ store.
        (begun : HasBegun D.seen (record { setup = S.seen source.old; port = P.seen port.old; disk = disk }) (S.seen source.new) (P.seen port.new))
        × (begun.first ≡ store)) }
    ensures ready { IfOk result (λ store. IsSetting store.state.sum.text) }
    ensures limits { IfOk result (λ store. store.journal.limits ≡ shipped) }
    ensures port { (P.seen port.new).ended ≡ (P.seen port.old).ended }
    ensures stopped { IfErr result (λ stopped. StopsBefore D.seen stopped.status
        (record { setup = S.seen source.old; port = P.seen port.old; disk = disk })
        (record { setup = S.seen source.new; port = P.seen port.new; disk = stopped.disk })) }
    ensures usage { IfErr result (λ stopped. stopped.status ≢ Status.Usage) }
{
    match read_setup(alloc, source) {
        Ok(setup) => open_under(alloc, setup, port, disk),
        Err(status) => Err(StoppedRun { status, disk }),
    }
}

// Opens the journal, and begins a run under a setup.
fn open_under<P: Port, D: Disk>(
    alloc: Global,
    setup: Setup,
    port: &mut P,
    disk: D,
) -> Result<Store<D>, StoppedRun<D>>
    requires setting { IsOk (setup_of setup) }
    ensures begun { IfOk result (λ store. (q q' : PortSeen) → ReadsText q q' setup
        → (begun : HasBegun D.seen (record { setup = q; port = P.seen port.old; disk = disk }) q' (P.seen port.new)) × (begun.first ≡ store)) }
    ensures ready { IfOk result (λ store. IsSetting store.state.sum.text) }
    ensures limits { IfOk result (λ store. store.journal.limits ≡ shipped) }
    ensures port { (P.seen port.new).ended ≡ (P.seen port.old).ended }
    ensures stopped { IfErr result (λ stopped. (q q' : PortSeen) → ReadsText q q' setup → StopsBefore D.seen stopped.status
        (record { setup = q; port = P.seen port.old; disk = disk })
        (record { setup = q'; port = P.seen port.new; disk = stopped.disk })) }
    ensures usage { IfErr result (λ stopped. stopped.status ≢ Status.Usage) }
{
    let before = disk.faults();
    match Store::open(alloc, disk, SHIPPED) {
        Ok(store) => begin_over(alloc, before, setup, port, store),
        Err(refused) => Err(unopened(before, refused)),
    }
}

// Begins a run over the store, at one reading of the clock.
fn begin_over<P: Port, D: Disk>(
    alloc: Global,
    before: u64,
    setup: Setup,
    port: &mut P,
    store: Store<D>,
) -> Result<Store<D>, StoppedRun<D>>
    requires setting { IsOk (setup_of setup) }
    requires before { before ≤ store.at_open }
    requires limits { store.journal.limits ≡ shipped }
    ensures begun { IfOk result (λ first. (r : Handed D) (q' : PortSeen) (base : Summary) (past : List Entry)
        → r.port ≡ P.seen port.old → before ≡ (D.seen r.disk).faults → ReadsText r.setup q' setup
        → BeginsWith (D.seen r.disk) base past → StoreStands D.seen base store past
        → (begun : HasBegun D.seen r q' (P.seen port.new)) × (begun.first ≡ first)) }
    ensures ready { IfOk result (λ begun. IsSetting begun.state.sum.text) }
    ensures limits { IfOk result (λ begun. begun.journal.limits ≡ shipped) }
    ensures port { (P.seen port.new).ended ≡ (P.seen port.old).ended }
    ensures stopped { IfErr result (λ stopped. (r : Handed D) (q' : PortSeen) (base : Summary) (past : List Entry)
        → r.port ≡ P.seen port.old → before ≡ (D.seen r.disk).faults → ReadsText r.setup q' setup
        → BeginsWith (D.seen r.disk) base past → StoreStands D.seen base store past
        → StopsAtBeginning D.seen stopped.status r (record { setup = q'; port = P.seen port.new; disk = stopped.disk })) }
    ensures usage { IfErr result (λ stopped. stopped.status ≢ Status.Usage) }
{
    let mut store = store;
    let clock = port.now();
    match store.begin(alloc, setup, clock) {
        Ok(()) => Ok(store),
        Err(stop) => {
            let disk = store.close();
            let status = status_over(before, disk.faults(), status_of_stop(stop));
            Err(StoppedRun { status, disk })
        }
    }
}
