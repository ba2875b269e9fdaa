// A desk session over a port.
ghost use Rattle.std.specs.Prelude.{◌≡◌, ◌≤◌, List, ℕ, false, Err};
ghost use Rattle.arc_io.specs.Causes.{Rose};
ghost use Rattle.centre_core.specs.Halls.{IsKept};
ghost use Rattle.centre_rules.specs.Summary.{Summary};
ghost use Rattle.centre_rules.specs.History.{Entry};
ghost use Rattle.session_rules.specs.Sessions.{HasShown, Goes};
ghost use Rattle.desk_session.specs.Desks.{ReadsDesk, ServesDesk};
ghost use Rattle.desk_session.specs.Sessions.{ending_of};

use crate::desk_end::DeskEnd;
use crate::desk_state::DeskState;
use arc_io::{Failed, Port};
use centre_core::Hall;
use session_rules::{PIECE, read_piece};
use std::alloc::Global;

/// Serves one desk over a port: reads it piece by piece, each of at most 4,096 bytes, and answers the lines of a piece before it
/// reads the next. `InputEnded` comes at the input's end, where what stands behind the last line feed is answered, too; `ReadFault`
/// where a read failed, `Spent` after 2^40 bytes, and the others as of `DeskState::take`.
pub fn serve_desk<H: Hall, P: Port>(alloc: Global, hall: &mut H, port: &mut P) -> DeskEnd
    requires ready { (H.seen hall.old).ready }
    requires not_ended { (P.seen port.old).ended ≡ false }
    ensures desk { (read : List ℕ) × ReadsDesk result read (P.seen port.old) (P.seen port.new)
        × ((b : Summary) (h : List Entry) → (H.seen hall.old).stands b h →
        Goes h (λ w. ServesDesk result read b w (H.seen hall.old) (H.seen hall.new) (P.seen port.old) (P.seen port.new))) }
    ensures stop { HasShown (H.seen hall.new) (ending_of (Err result)) }
    ensures read { result ≡ DeskEnd.ReadFault → Rose (P.seen port.old).read_faults (P.seen port.new).read_faults }
    ensures write { result ≡ DeskEnd.WriteFault → Rose (P.seen port.old).write_faults (P.seen port.new).write_faults }

    ensures kept { IsKept (H.seen hall.old) (H.seen hall.new) }
    ensures reads { (P.seen port.old).read_faults ≤ (P.seen port.new).read_faults }
    ensures writes { (P.seen port.old).write_faults ≤ (P.seen port.new).write_faults }
{
    let mut state = DeskState::new();
    let mut buffer = [0; PIECE];
    'pieces: loop {
        let most = (PIECE as u64).min(state.room()) as usize;
        match read_piece(port, &mut buffer, most) {
            Err(Failed) => return DeskEnd::ReadFault,
            Ok(0) => return state.finish(alloc, hall, port),
            Ok(count) => {
                if let Err(end) = state.take(alloc, hall, port, &buffer[..count]) {
                    return end;
                }
            }
        }
    }
}
