// A run that reports what the journal has.
ghost use Rattle.std.specs.Prelude.{◌≡◌, ◌≢◌, ◌≤◌, List};
ghost use Rattle.arc_io.specs.Seen.{PortSeen};
ghost use Rattle.centre_rules.specs.History.{Entry};
ghost use Rattle.centre_rules.specs.Summary.{Summary};
ghost use Rattle.centre_store.specs.Given.{BeginsWith};
ghost use Rattle.centre_store.specs.Stores.{StoreStands};
ghost use Rattle.arc_server.specs.Beginnings.{StopsAtOpening};
ghost use Rattle.arc_server.specs.Handed.{Either};
ghost use Rattle.arc_server.specs.Reports.{ReportsPast, StandsOn};

use crate::made::{StoppedRun, status_of_text, status_over, unopened};
use crate::status::Status;
use arc_io::{Disk, Port};
use arc_report::report;
use centre_store::Store;
use disk_journal::SHIPPED;
use std::alloc::Global;

/// Opens the journal with the limits that are shipped, submits nothing, and writes the report of the centre.
pub(crate) fn run_report<P: Port, D: Disk>(alloc: Global, port: &mut P, disk: D) -> (Status, D)
    ensures usage { result.0 ≢ Status.Usage }
    ensures ran { (q : PortSeen) → Either (StopsAtOpening D.seen result.0) (ReportsPast D.seen result.0)
        (record { setup = q; port = P.seen port.old; disk = disk }) (record { setup = q; port = P.seen port.new; disk = result.1 }) }
{
    let before = disk.faults();
    match Store::open(alloc, disk, SHIPPED) {
        Ok(store) => write_report(before, port, store),
        Err(refused) => {
            let StoppedRun { status, disk } = unopened(before, refused);
            (status, disk)
        }
    }
}

// Writes the report of a store, and lets the store go.
fn write_report<P: Port, D: Disk>(before: u64, port: &mut P, store: Store<D>) -> (Status, D)
    requires before { before ≤ store.at_open }
    ensures usage { result.0 ≢ Status.Usage }
    ensures reported { (q : PortSeen) (disk : D) (base : Summary) (past : List Entry) → before ≡ (D.seen disk).faults
        → StoreStands D.seen base store past → BeginsWith (D.seen disk) base past → StandsOn (D.seen disk) (D.seen store.journal.disk)
        → ReportsPast D.seen result.0
        (record { setup = q; port = P.seen port.old; disk = disk }) (record { setup = q; port = P.seen port.new; disk = result.1 }) }
{
    let writes = port.write_faults();
    let written = report(store.centre(), port);
    let disk = store.close();
    let status = status_of_text(written, writes, port);
    (status_over(before, disk.faults(), status), disk)
}
