// A run that answers a centre which follows this one.
ghost use Rattle.std.specs.Prelude.{◌≡◌, ◌≢◌, ◌≤◌, List, false};
ghost use Rattle.arc_io.specs.Seen.{PortSeen};
ghost use Rattle.centre_rules.specs.History.{Entry};
ghost use Rattle.centre_rules.specs.Summary.{Summary};
ghost use Rattle.centre_store.specs.Given.{BeginsWith, HoldsRecorded};
ghost use Rattle.centre_store.specs.Stores.{StoreStands};
ghost use Rattle.arc_server.specs.Areas.{shipped};
ghost use Rattle.arc_server.specs.Beginnings.{StopsAtOpening};
ghost use Rattle.arc_server.specs.FeedRuns.{FeedsPast, OpensQuiet};
ghost use Rattle.arc_server.specs.Handed.{Either};
ghost use Rattle.arc_server.specs.Reports.{StandsOn};

use crate::made::{StoppedRun, status_of_feed, status_over, unopened};
use crate::status::Status;
use arc_io::{Disk, Port};
use centre_store::Store;
use disk_journal::SHIPPED;
use mirror_centre::serve_feed;
use std::alloc::Global;

/// Opens the journal with the limits that are shipped, begins no run, and answers the asks on the port.
pub(crate) fn run_feed<P: Port, D: Disk>(alloc: Global, port: &mut P, disk: D) -> (Status, D)
    requires port { (P.seen port.old).ended ≡ false }
    ensures usage { result.0 ≢ Status.Usage }
    ensures ran { (q : PortSeen) → Either (StopsAtOpening D.seen result.0) (FeedsPast D.seen result.0)
        (record { setup = q; port = P.seen port.old; disk = disk }) (record { setup = q; port = P.seen port.new; disk = result.1 }) }
{
    let before = disk.faults();
    match Store::open(alloc, disk, SHIPPED) {
        Ok(store) => feed_from(alloc, before, port, store),
        Err(refused) => {
            let StoppedRun { status, disk } = unopened(before, refused);
            (status, disk)
        }
    }
}

// Answers the asks by what a store has recorded, and lets the store go.
fn feed_from<P: Port, D: Disk>(
    alloc: Global,
    before: u64,
    port: &mut P,
    store: Store<D>,
) -> (Status, D)
    requires port { (P.seen port.old).ended ≡ false }
    requires before { before ≤ store.at_open }
    ensures usage { result.0 ≢ Status.Usage }
    ensures fed { (q : PortSeen) (disk : D) (base : Summary) (past : List Entry) → before ≡ (D.seen disk).faults
        → StoreStands D.seen base store past → HoldsRecorded D.seen store.journal base past → BeginsWith (D.seen disk) base past
        → StandsOn (D.seen disk) (D.seen store.journal.disk) → OpensQuiet (D.seen disk) (D.seen store.journal.disk)
        → store.journal.limits ≡ shipped → FeedsPast D.seen result.0
        (record { setup = q; port = P.seen port.old; disk = disk }) (record { setup = q; port = P.seen port.new; disk = result.1 }) }
{
    let reads = port.read_faults();
    let writes = port.write_faults();
    let mut store = store;
    let end = serve_feed(alloc, &mut store, port);
    let disk = store.close();
    let status = status_of_feed(end, reads, writes, port);
    (status_over(before, disk.faults(), status), disk)
}
