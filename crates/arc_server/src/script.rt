// A run of the script on the port.
ghost use Rattle.std.specs.Prelude.{◌≡◌, ◌≢◌, false, IsOk};
ghost use Rattle.alarm_rules.specs.Setups.{setup_of};
ghost use Rattle.arc_io.specs.Seen.{PortSeen};
ghost use Rattle.arc_server.specs.Beginnings.{StopsAtSetup};
ghost use Rattle.arc_server.specs.Handed.{Either};
ghost use Rattle.arc_server.specs.Made.{status_of_script};
ghost use Rattle.arc_server.specs.ScriptRuns.{Scripts};
ghost use Rattle.arc_server.specs.SetupReads.{ReadsText};

use crate::made::{read_fault, status_of_fault, status_of_stop, status_over, write_fault};
use crate::setup::read_setup;
use crate::status::Status;
use arc_io::{Disk, Port, Source};
use arc_script::{ScriptEnd, ScriptEnded, run_script};
use centre_core::Setup;
use disk_journal::SHIPPED;
use std::alloc::Global;

/// Reads the setup, and runs the script on the port's source over the disk, with the limits that are shipped.
pub(crate) fn run_scripted<S: Source, P: Port, D: Disk>(
    alloc: Global,
    source: &mut S,
    port: &mut P,
    disk: D,
) -> (Status, D)
    requires setup { (S.seen source.old).ended ≡ false }
    requires port { (P.seen port.old).ended ≡ false }
    ensures usage { result.0 ≢ Status.Usage }
    ensures ran { Either (StopsAtSetup result.0) (Scripts D.seen result.0)
        (record { setup = S.seen source.old; port = P.seen port.old; disk = disk })
        (record { setup = S.seen source.new; port = P.seen port.new; disk = result.1 }) }
{
    match read_setup(alloc, source) {
        Ok(setup) => script_under(alloc, setup, port, disk),
        Err(status) => (status, disk),
    }
}

// Runs the script under a setup.
fn script_under<P: Port, D: Disk>(alloc: Global, setup: Setup, port: &mut P, disk: D) -> (Status, D)
    requires setting { IsOk (setup_of setup) }
    requires port { (P.seen port.old).ended ≡ false }
    ensures usage { result.0 ≢ Status.Usage }
    ensures ran { (q q' : PortSeen) → ReadsText q q' setup → Scripts D.seen result.0
        (record { setup = q; port = P.seen port.old; disk = disk }) (record { setup = q'; port = P.seen port.new; disk = result.1 }) }
{
    let before = disk.faults();
    let reads = port.read_faults();
    let writes = port.write_faults();
    let ScriptEnded { end, disk, .. } = run_script(alloc, disk, setup, port, SHIPPED);
    let status = status_of_script(end, reads, writes, port);
    (status_over(before, disk.faults(), status), disk)
}

// The status that a script's end makes, over a port that told these counts of faults before.
fn status_of_script<P: Port>(end: ScriptEnd, reads: u64, writes: u64, port: &P) -> Status
    ensures usage { result ≢ Status.Usage }
    ensures made { (p : PortSeen) → reads ≡ p.read_faults → writes ≡ p.write_faults → result ≡ status_of_script end p (P.seen port.now) }
{
    match end {
        ScriptEnd::Done => Status::Done,
        ScriptEnd::ReadFault => read_fault(reads, port),
        ScriptEnd::WriteFault => write_fault(writes, port),
        ScriptEnd::Spent => Status::Spent,
        ScriptEnd::BadScript { line } => Status::BadScript { line },
        ScriptEnd::Refused(fault) => status_of_fault(fault),
        ScriptEnd::Stopped(stop) => status_of_stop(stop),
    }
}
