// Answering one line.
ghost use Rattle.std.specs.Prelude.{◌≡◌, ◌∷◌, [], true, false, ℕ, List, Ok, Err, IfSome};
ghost use Rattle.alarm_rules.specs.Setups.{meaning};
ghost use Rattle.arc_io.specs.Added.{Answers};
ghost use Rattle.centre_core.specs.Halls.{IsKept};
ghost use Rattle.centre_rules.specs.Summary.{Summary};
ghost use Rattle.centre_rules.specs.History.{Entry};
ghost use Rattle.desk_wire.specs.Laws.{IsCommand};
ghost use Rattle.session_rules.specs.Sessions.{changed, HasShown};
ghost use Rattle.desk_session.specs.Events.{acts_after, command_in, ends, is_known, is_named};
ghost use Rattle.desk_session.specs.Sessions.{IsCutShort, IsDesk, ending_of};

use crate::ask::ask;
use crate::desk_end::DeskEnd;
use crate::event::event_of;
use crate::say::say;
use arc_data::Txt;
use arc_io::Port;
use centre_core::Hall;
use desk_wire::Command;
use std::alloc::Global;

/// Answers a line, of which this is the command, of a session that acts for this operator.
pub(crate) fn answer<H: Hall, P: Port>(
    alloc: Global,
    hall: &mut H,
    port: &mut P,
    operator: &mut Option<Txt>,
    command: Option<Command>,
) -> Result<(), DeskEnd>
    requires ready { (H.seen hall.old).ready }
    requires named { is_named operator.old ≡ true }
    requires ranges { IfSome command IsCommand }
    ensures kept { IsKept (H.seen hall.old) (H.seen hall.new) }
    ensures named { is_named operator.new ≡ true }
    ensures acts { operator.new ≡ acts_after (meaning (H.seen hall.old).text) operator.old command }
    ensures session { (line : List ℕ) (b : Summary) (h : List Entry) → command ≡ command_in line →
        is_known (meaning (H.seen hall.old).text) operator.old ≡ true → (H.seen hall.old).stands b h →
        IsDesk (ending_of result) b operator.old (line ∷ []) h (changed (H.seen hall.old) (H.seen hall.new) (P.seen port.old) (P.seen port.new)) }
    ensures short { IsCutShort result }
    ensures quit { result ≡ Err DeskEnd.Quit → ends command ≡ true }
    ensures goes_on { result ≡ Ok tt → ends command ≡ false }
    ensures stop { HasShown (H.seen hall.new) (ending_of result) }
    ensures port { Answers (result ≡ Err DeskEnd.WriteFault) (P.seen port.old) (P.seen port.new) }
{
    match event_of(operator, &command) {
        Some(event) => ask(alloc, hall, port, event),
        None => say(hall, port, operator, &command),
    }
}
