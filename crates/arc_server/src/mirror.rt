// A run that follows another centre.
ghost use Rattle.std.specs.Prelude.{◌≡◌, ◌≢◌, ◌≤◌, List, false};
ghost use Rattle.arc_io.specs.Seen.{PortSeen};
ghost use Rattle.centre_rules.specs.History.{Entry};
ghost use Rattle.centre_rules.specs.Summary.{Summary};
ghost use Rattle.centre_store.specs.Given.{BeginsWith};
ghost use Rattle.centre_store.specs.Stores.{StoreStands};
ghost use Rattle.arc_server.specs.Areas.{shipped};
ghost use Rattle.arc_server.specs.Beginnings.{StopsAtOpening};
ghost use Rattle.arc_server.specs.Handed.{Either};
ghost use Rattle.arc_server.specs.MirrorRuns.{FollowsOn};

use crate::made::{StoppedRun, status_of_follow, status_over, unopened};
use crate::status::Status;
use arc_io::{Disk, Port};
use centre_store::Store;
use disk_journal::SHIPPED;
use mirror_centre::{Mirror, follow};
use std::alloc::Global;

/// Opens the journal with the limits that are shipped, begins no run, and follows the centre that answers on the port.
pub(crate) fn run_mirror<P: Port, D: Disk>(alloc: Global, port: &mut P, disk: D) -> (Status, D)
    requires port { (P.seen port.old).ended ≡ false }
    ensures usage { result.0 ≢ Status.Usage }
    ensures ran { (q : PortSeen) → Either (StopsAtOpening D.seen result.0) (FollowsOn D.seen result.0)
        (record { setup = q; port = P.seen port.old; disk = disk }) (record { setup = q; port = P.seen port.new; disk = result.1 }) }
{
    let before = disk.faults();
    match Store::open(alloc, disk, SHIPPED) {
        Ok(store) => follow_by(alloc, before, port, store),
        Err(refused) => {
            let StoppedRun { status, disk } = unopened(before, refused);
            (status, disk)
        }
    }
}

// Follows with a store, and lets it go.
fn follow_by<P: Port, D: Disk>(
    alloc: Global,
    before: u64,
    port: &mut P,
    store: Store<D>,
) -> (Status, D)
    requires port { (P.seen port.old).ended ≡ false }
    requires before { before ≤ store.at_open }
    requires limits { store.journal.limits ≡ shipped }
    ensures usage { result.0 ≢ Status.Usage }
    ensures followed { (q : PortSeen) (disk : D) (base : Summary) (past : List Entry) → before ≡ (D.seen disk).faults
        → StoreStands D.seen base store past → BeginsWith (D.seen disk) base past
        → FollowsOn D.seen result.0
        (record { setup = q; port = P.seen port.old; disk = disk }) (record { setup = q; port = P.seen port.new; disk = result.1 }) }
{
    let reads = port.read_faults();
    let writes = port.write_faults();
    let mut mirror = Mirror::new(store);
    let end = follow(alloc, &mut mirror, port);
    let disk = mirror.close().close();
    let status = status_of_follow(end, reads, writes, port);
    (status_over(before, disk.faults(), status), disk)
}
