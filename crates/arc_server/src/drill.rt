// A run of a drill: its script over a disk in memory, and the line that tells what was counted.
ghost use Rattle.std.specs.Prelude.{◌≡◌, ◌≢◌, ◌≤◌, ℕ, IfSome, IfOk, string_bytes};
ghost use Rattle.arc_server.specs.DrillRuns.{IsDrillRun, IsDrilled, drill_line};

use crate::made::status_of_text;
use crate::status::Status;
use arc_drill::Drill;
use arc_io::{MemDisk, Port, put};
use arc_script::{ScriptEnd, Tally, run_script};
use centre_core::Setup;
use disk_journal::SHIPPED;
use std::alloc::{AllocError, Global};

/// Runs the script of so many messages over an empty disk in memory, and writes one line of what was counted.
pub(crate) fn run_drill<P: Port>(alloc: Global, messages: u32, port: &mut P) -> Status
    requires some { 1 ≤ messages }
    requires few { messages ≤ 100_000 }
    ensures usage { result ≢ Status.Usage }
    ensures ran { IsDrillRun messages result (P.seen port.old) (P.seen port.new) }
{
    let Some(tally) = drilled(alloc, messages) else {
        return Status::Memory;
    };
    match line_of(alloc, messages, &tally) {
        Ok(line) => tell(port, line.as_bytes()),
        Err(_) => Status::Memory,
    }
}

// Writes the line.
fn tell<P: Port>(port: &mut P, line: &[u8]) -> Status
    ensures usage { result ≢ Status.Usage }
    ensures told { (n : ℕ) (tally : Tally) → IsDrilled n tally → line.now ≡ drill_line n tally
        → IsDrillRun n result (P.seen port.old) (P.seen port.new) }
{
    let writes = port.write_faults();
    let written = put(port, line);
    status_of_text(written, writes, port)
}

// What is counted over the script. Neither its port nor its disk fails unless memory is wanted, and so nothing else can end it early.
fn drilled(alloc: Global, messages: u32) -> Option<Tally>
    requires some { 1 ≤ messages }
    requires few { messages ≤ 100_000 }
    ensures { IfSome result (λ tally. IsDrilled messages tally) }
{
    let Ok(setup) = Setup::read(alloc, Drill::setup_text()) else {
        return None;
    };
    let disk = MemDisk::new(alloc, Vec::new(alloc));
    let ended = run_script(alloc, disk, setup, &mut Drill::new(messages), SHIPPED);
    match ended.end {
        ScriptEnd::Done => Some(ended.tally),
        _ => None,
    }
}

// The line that a drill tells.
fn line_of(alloc: Global, messages: u32, tally: &Tally) -> Result<String, AllocError>
    ensures { IfOk result (λ line. string_bytes line ≡ drill_line messages tally.now) }
{
    let Tally {
        sent,
        repeats,
        recorded,
        opened,
        closed,
        total,
    } = *tally;
    format!(in alloc;
        "drill {messages}: sent {sent}, repeats {repeats}, recorded {recorded}, opened {opened}, closed {closed}, open {total}\n"
    )
}
