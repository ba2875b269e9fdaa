// A run that serves one session, of a line or of a desk.
ghost use Rattle.std.specs.Prelude.{◌≡◌, ◌≢◌, false};
ghost use Rattle.arc_io.specs.Seen.{PortSeen};
ghost use Rattle.centre_core.specs.Setting.{IsSetting};
ghost use Rattle.arc_server.specs.Areas.{shipped};
ghost use Rattle.arc_server.specs.Beginnings.{HasBegun, StopsBefore};
ghost use Rattle.arc_server.specs.Handed.{Handed, Either};
ghost use Rattle.arc_server.specs.SessionRuns.{line_name, ServesRun};

use crate::begin::begin_run;
use crate::made::{StoppedRun, status_of_session, status_over};
use crate::status::Status;
use arc_data::Txt;
use arc_io::{Disk, Port, Source};
use arc_serving::{Side, serve};
use centre_store::Store;
use std::alloc::Global;

/// Begins a run, and serves one session of this kind.
pub(crate) fn run_session<S: Source, P: Port, D: Disk>(
    side: Side,
    alloc: Global,
    source: &mut S,
    port: &mut P,
    disk: D,
) -> (Status, D)
    requires setup { (S.seen source.old).ended ≡ false }
    requires port { (P.seen port.old).ended ≡ false }
    ensures usage { result.0 ≢ Status.Usage }
    ensures ran { Either (StopsBefore D.seen result.0) (ServesRun D.seen side result.0)
        (record { setup = S.seen source.old; port = P.seen port.old; disk = disk })
        (record { setup = S.seen source.new; port = P.seen port.new; disk = result.1 }) }
{
    let before = disk.faults();
    match begin_run(alloc, source, port, disk) {
        Ok(store) => serve_store(side, alloc, before, port, store),
        Err(StoppedRun { status, disk }) => (status, disk),
    }
}

// Serves the session of a run that has begun, and lets the store go.
fn serve_store<P: Port, D: Disk>(
    side: Side,
    alloc: Global,
    before: u64,
    port: &mut P,
    store: Store<D>,
) -> (Status, D)
    requires ready { IsSetting store.state.sum.text }
    requires port { (P.seen port.old).ended ≡ false }
    requires limits { store.journal.limits ≡ shipped }
    ensures usage { result.0 ≢ Status.Usage }
    ensures served { (r : Handed D) (q' : PortSeen) → before ≡ (D.seen r.disk).faults
        → (begun : HasBegun D.seen r q' (P.seen port.old)) → begun.first ≡ store
        → ServesRun D.seen side result.0 r (record { setup = q'; port = P.seen port.new; disk = result.1 }) }
{
    let reads = port.read_faults();
    let writes = port.write_faults();
    let mut store = store;
    let name = line();
    let end = serve(side, &name, alloc, &mut store, port);
    let disk = store.close();
    let status = status_of_session(end, reads, writes, port);
    (status_over(before, disk.faults(), status), disk)
}

// The name of the one line of a run.
fn line() -> Txt
    ensures { result ≡ line_name }
{
    match Txt::of(b"line") {
        Some(name) => name,
        None => unreachable!(),
    }
}
