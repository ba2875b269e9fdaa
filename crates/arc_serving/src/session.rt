// One session over a hall, of either kind.
ghost use Rattle.std.specs.Prelude.{◌≡◌, true, false, Some, List, ℕ};
ghost use Rattle.arc_data.specs.Digits.{is_name};
ghost use Rattle.arc_io.specs.Causes.{Rose};
ghost use Rattle.centre_core.specs.Halls.{IsKept};
ghost use Rattle.centre_rules.specs.Summary.{Summary};
ghost use Rattle.centre_rules.specs.History.{Entry};
ghost use Rattle.session_rules.specs.Sessions.{changed, Goes};
ghost use Rattle.arc_serving.specs.Sessions.{Reads, Serves, ShowsEnd, line_end, desk_end};

use crate::side::Side;
use arc_data::Txt;
use arc_io::Port;
use centre_core::{Hall, Stop};
use desk_session::{DeskEnd, serve_desk};
use line_session::{LineEnd, serve_line};
use std::alloc::Global;

/// How a session ended, of a line or of a desk.
#[derive(Clone, Copy, Debug, PartialEq, Eq)]
pub enum SessionEnd {
    /// The operator ended it by `quit`. A line has no such end.
    Quit,
    /// The input was read to its end, and each part of it has its answer.
    InputEnded,
    /// A read failed.
    ReadFault,
    /// A write failed within the last answer.
    WriteFault,
    /// 1,099,511,627,776 bytes (2^40) were read.
    Spent,
    /// The hall did not take an event, or memory was wanted for a message.
    Stopped(Stop),
}

/// Serves one session of this kind over the port, to its end. The name, of 1 to 16 bytes as an operator's, is that of a line; a desk has
/// none.
pub fn serve<H: Hall, P: Port>(
    side: Side,
    name: &Txt,
    alloc: Global,
    hall: &mut H,
    port: &mut P,
) -> SessionEnd
    requires ready { (H.seen hall.old).ready }
    requires name { is_name name.now ≡ true }
    requires not_ended { (P.seen port.old).ended ≡ false }
    ensures serves { (read : List ℕ) × Reads side result read (P.seen port.old) (P.seen port.new)
        × ((b : Summary) (h : List Entry) → (H.seen hall.old).stands b h →
        Goes h (λ w. Serves side name.now result read b w (changed (H.seen hall.old) (H.seen hall.new) (P.seen port.old) (P.seen port.new)))) }
    ensures stop { ShowsEnd result (H.seen hall.new) }
    ensures read { result ≡ SessionEnd.ReadFault → Rose (P.seen port.old).read_faults (P.seen port.new).read_faults }
    ensures write { result ≡ SessionEnd.WriteFault → Rose (P.seen port.old).write_faults (P.seen port.new).write_faults }
    ensures kept { IsKept (H.seen hall.old) (H.seen hall.new) }
{
    match side {
        Side::Lines => end_of_line(serve_line(alloc, hall, port, name)),
        Side::Desks => end_of_desk(serve_desk(alloc, hall, port)),
    }
}

/// The end of a line as that of a session.
pub(crate) fn end_of_line(end: LineEnd) -> SessionEnd
    ensures { line_end result ≡ Some end }
{
    match end {
        LineEnd::InputEnded => SessionEnd::InputEnded,
        LineEnd::ReadFault => SessionEnd::ReadFault,
        LineEnd::WriteFault => SessionEnd::WriteFault,
        LineEnd::Spent => SessionEnd::Spent,
        LineEnd::Stopped(stop) => SessionEnd::Stopped(stop),
    }
}

// The end of a desk as that of a session.
fn end_of_desk(end: DeskEnd) -> SessionEnd
    ensures { desk_end result ≡ end }
{
    match end {
        DeskEnd::Quit => SessionEnd::Quit,
        DeskEnd::InputEnded => SessionEnd::InputEnded,
        DeskEnd::ReadFault => SessionEnd::ReadFault,
        DeskEnd::WriteFault => SessionEnd::WriteFault,
        DeskEnd::Spent => SessionEnd::Spent,
        DeskEnd::Stopped(stop) => SessionEnd::Stopped(stop),
    }
}
