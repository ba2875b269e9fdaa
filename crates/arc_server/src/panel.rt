// A run of a panel: its lines on the port, played over a new panel.
ghost use Rattle.std.specs.Prelude.{◌≡◌, ◌≢◌, true, false};
ghost use Rattle.arc_data.specs.Digits.{is_capital_hex, is_run};
ghost use Rattle.arc_io.specs.Seen.{PortSeen};
ghost use Rattle.arc_server.specs.Made.{status_of_panel};
ghost use Rattle.arc_server.specs.PanelRuns.{IsPanelRun};

use crate::made::{read_fault, write_fault};
use crate::status::Status;
use arc_data::Txt;
use arc_io::Port;
use arc_panel::{PanelEnd, run_panel};
use std::alloc::Global;

/// Plays the lines on the port's source over a panel of this account, and writes what it does.
pub(crate) fn run_panelled<P: Port>(alloc: Global, account: Txt, port: &mut P) -> Status
    requires account { is_run is_capital_hex 3 16 account ≡ true }
    requires port { (P.seen port.old).ended ≡ false }
    ensures usage { result ≢ Status.Usage }
    ensures ran { IsPanelRun account result (P.seen port.old) (P.seen port.new) }
{
    let reads = port.read_faults();
    let writes = port.write_faults();
    let end = run_panel(alloc, account, port);
    status_of_panel(end, reads, writes, port)
}

// The status that an end makes, over a port that told these counts of faults before.
fn status_of_panel<P: Port>(end: PanelEnd, reads: u64, writes: u64, port: &P) -> Status
    ensures usage { result ≢ Status.Usage }
    ensures made { (p : PortSeen) → reads ≡ p.read_faults → writes ≡ p.write_faults → result ≡ status_of_panel end p (P.seen port.now) }
{
    match end {
        PanelEnd::Done => Status::Done,
        PanelEnd::ReadFault => read_fault(reads, port),
        PanelEnd::WriteFault => write_fault(writes, port),
        PanelEnd::Spent => Status::Spent,
        PanelEnd::BadLine { line } => Status::BadScript { line },
        PanelEnd::Memory => Status::Memory,
    }
}
