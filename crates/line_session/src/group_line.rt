// A line session over a port, whose frames are taken together.
ghost use Rattle.std.specs.Prelude.{◌≡◌, ◌≤◌, List, ℕ, true, false, Err};
ghost use Rattle.arc_data.specs.Digits.{is_name};
ghost use Rattle.arc_io.specs.Causes.{Rose};
ghost use Rattle.centre_core.specs.Halls.{IsKept};
ghost use Rattle.centre_rules.specs.Summary.{Summary};
ghost use Rattle.centre_rules.specs.History.{Entry};
ghost use Rattle.session_rules.specs.Sessions.{HasShown, Goes, changed};
ghost use Rattle.line_session.specs.Sessions.{ending_of};
ghost use Rattle.line_session.specs.Lines.{ReadsLine};
ghost use Rattle.line_session.specs.Groups.{ServesGroup};

use crate::line_end::LineEnd;
use crate::line_state::LineState;
use arc_data::Txt;
use arc_io::{Failed, Port};
use centre_core::GroupHall;
use session_rules::{PIECE, read_piece};
use std::alloc::Global;

/// Serves one line over a port as `serve_line` does, but for one thing: the frames that stand complete in one piece that was read, of at
/// most 4,096 bytes, are submitted together. A batch holds the events of one piece; a piece with more than 64 is answered in several
/// batches. The text under `Stopped` is that before the first frame that was not answered.
pub fn serve_group<H: GroupHall, P: Port>(
    alloc: Global,
    hall: &mut H,
    port: &mut P,
    name: &Txt,
) -> LineEnd
    requires ready { (H.seen hall.old).ready }
    requires name { is_name name.now ≡ true }
    requires not_ended { (P.seen port.old).ended ≡ false }
    ensures line { (read : List ℕ) × ReadsLine result read (P.seen port.old) (P.seen port.new)
        × ((b : Summary) (h : List Entry) → (H.seen hall.old).stands b h →
        Goes h (λ w. ServesGroup name.now result read b w (changed (H.seen hall.old) (H.seen hall.new) (P.seen port.old) (P.seen port.new)))) }
    ensures stop { HasShown (H.seen hall.new) (ending_of (Err result)) }
    ensures read { result ≡ LineEnd.ReadFault → Rose (P.seen port.old).read_faults (P.seen port.new).read_faults }
    ensures write { result ≡ LineEnd.WriteFault → Rose (P.seen port.old).write_faults (P.seen port.new).write_faults }

    ensures kept { IsKept (H.seen hall.old) (H.seen hall.new) }
    ensures reads { (P.seen port.old).read_faults ≤ (P.seen port.new).read_faults }
    ensures writes { (P.seen port.old).write_faults ≤ (P.seen port.new).write_faults }
{
    let mut state = LineState::new(*name);
    let mut buffer = [0; PIECE];
    'pieces: loop {
        let most = (PIECE as u64).min(state.room()) as usize;
        match read_piece(port, &mut buffer, most) {
            Err(Failed) => return LineEnd::ReadFault,
            Ok(0) => return LineEnd::InputEnded,
            Ok(count) => {
                if let Err(end) = state.take_together(alloc, hall, port, &buffer[..count]) {
                    return end;
                }
            }
        }
    }
}
