// Reporting an event to a hall.
ghost use Rattle.std.specs.Prelude.{◌≡◌, Err, List};
ghost use Rattle.arc_io.specs.Added.{Answers};
ghost use Rattle.alarm_rules.specs.Setups.{meaning};
ghost use Rattle.centre_core.specs.Halls.{IsKept};
ghost use Rattle.centre_rules.specs.Summary.{Summary};
ghost use Rattle.centre_rules.specs.History.{Entry};
ghost use Rattle.session_rules.specs.Sessions.{HasShown};
ghost use Rattle.line_session.specs.Replies.{IsReport, Reports};
ghost use Rattle.line_session.specs.Sessions.{IsCutShort, ending_of};

use crate::line_end::LineEnd;
use crate::reply::acknowledge;
use arc_data::Event;
use arc_io::Port;
use centre_core::Hall;
use dc09_frame::{FrameBuf, Header};
use std::alloc::Global;

/// What a frame reports: its event, the header of which it is acknowledged, and the reading of the clock.
#[derive(Drop)]
pub(crate) struct Report {
    pub(crate) event: Event,
    pub(crate) header: Header,
    pub(crate) reading: u64,
}

/// Submits the event to the hall, and acknowledges it once the hall has taken it.
pub(crate) fn submit_and_acknowledge<H: Hall, P: Port>(
    alloc: Global,
    hall: &mut H,
    port: &mut P,
    report: Report,
    reply: &mut FrameBuf,
) -> Result<(), LineEnd>
    requires ready { (H.seen hall.old).ready }
    requires report { IsReport (meaning (H.seen hall.old).text) report }
    ensures kept { IsKept (H.seen hall.old) (H.seen hall.new) }
    ensures reported { (b : Summary) (h : List Entry) → (H.seen hall.old).stands b h →
        Reports result b h (H.seen hall.old) (H.seen hall.new) report (P.seen port.old) (P.seen port.new) }
    ensures ends { IsCutShort result }
    ensures stop { HasShown (H.seen hall.new) (ending_of result) }
    ensures port { Answers (result ≡ Err LineEnd.WriteFault) (P.seen port.old) (P.seen port.new) }
{
    let Report {
        event,
        header,
        reading,
    } = report;
    match hall.submit(alloc, event, reading) {
        Ok(done) => {
            drop(done);
            acknowledge(hall, port, &header, reading, reply)
        }
        Err(stop) => Err(LineEnd::Stopped(stop)),
    }
}
