// Asking a hall.
ghost use Rattle.std.specs.Prelude.{◌≡◌, Err, List};
ghost use Rattle.arc_data.specs.WellFormed.{IsWellFormed};
ghost use Rattle.arc_io.specs.Added.{Answers};
ghost use Rattle.centre_core.specs.Halls.{IsKept};
ghost use Rattle.centre_core.specs.Runs.{IsSubmitted};
ghost use Rattle.centre_rules.specs.Summary.{Summary};
ghost use Rattle.centre_rules.specs.History.{Entry};
ghost use Rattle.session_rules.specs.Sessions.{HasShown};
ghost use Rattle.desk_session.specs.Asking.{Asks, IsAsked};
ghost use Rattle.desk_session.specs.Sessions.{ending_of};

use crate::desk_end::DeskEnd;
use arc_data::Event;
use arc_io::{Failed, Port};
use centre_core::Hall;
use desk_wire::print;
use std::alloc::Global;

/// Submits an event to the hall at one reading of the clock, and prints the line of its reply.
pub(crate) fn ask<H: Hall, P: Port>(
    alloc: Global,
    hall: &mut H,
    port: &mut P,
    event: Event,
) -> Result<(), DeskEnd>
    requires ready { (H.seen hall.old).ready }
    requires formed { IsWellFormed event }
    requires submitted { IsSubmitted event }
    ensures kept { IsKept (H.seen hall.old) (H.seen hall.new) }
    ensures asked { (b : Summary) (h : List Entry) → (H.seen hall.old).stands b h →
        Asks result b h (H.seen hall.old) (H.seen hall.new) event (P.seen port.old) (P.seen port.new) }
    ensures how { IsAsked result }
    ensures stop { HasShown (H.seen hall.new) (ending_of result) }
    ensures port { Answers (result ≡ Err DeskEnd.WriteFault) (P.seen port.old) (P.seen port.new) }
{
    let reading = port.now();
    match hall.submit(alloc, event, reading) {
        Ok(done) => match print(&done.reply, port) {
            Ok(()) => {
                drop(done);
                Ok(())
            }
            Err(Failed) => {
                drop(done);
                Err(DeskEnd::WriteFault)
            }
        },
        Err(stop) => Err(DeskEnd::Stopped(stop)),
    }
}
