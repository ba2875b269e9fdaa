// A desk whose bytes are handed in.
ghost use Rattle.std.specs.Prelude.{◌≡◌, ◌-◌, [], Err, List, ℕ};
ghost use Rattle.std.specs.Str.Lines.{lines};
ghost use Rattle.alarm_rules.specs.Setups.{Setup, meaning};
ghost use Rattle.arc_io.specs.Added.{Answers};
ghost use Rattle.arc_text.specs.Lines.{ended_lines};
ghost use Rattle.centre_core.specs.Halls.{IsKept};
ghost use Rattle.centre_rules.specs.Summary.{Summary};
ghost use Rattle.centre_rules.specs.History.{Entry};
ghost use Rattle.session_rules.specs.Inputs.{input_limit, in_limit};
ghost use Rattle.session_rules.specs.Sessions.{HasShown};
ghost use Rattle.desk_session.specs.Desks.{TookStream, IsTaken, IsFinished, ServesBytes, ServesLines};
ghost use Rattle.desk_session.specs.Sessions.{ReadsNothing, IsOver, ending_of};

use crate::desk_end::DeskEnd;
use crate::lines::Lines;
use arc_io::Port;
use centre_core::Hall;
use session_rules::{room_behind, up_to};
use std::alloc::Global;
use std::marker::Model;

/// The state of a desk between two pieces of its bytes: what is open of a line, for whom it acts, and how many bytes were taken. It
/// takes no memory, and has room for the longest line.
#[derive(Drop)]
pub struct DeskState {
    lines: Lines,
    count: u64,
}

impl Model for DeskState {
    ghost use Rattle.session_rules.specs.Inputs.{input_limit};
    ghost use Rattle.desk_session.specs.Desks.{DeskValue};
    ghost use Rattle.desk_session.specs.Holding.{IsHeld};

    ghost Value = { DeskValue };

    ghost view = { λ s. record { cutter = s.lines.cutter; operator = s.lines.operator; count = s.count } };

    ghost invariant = { λ s. IsHeld s.lines.cutter s.lines.operator s.count };
}

impl DeskState {
    /// A desk of which no byte was taken, and that acts for nobody.
    pub fn new() -> DeskState
        ensures { (setup : Setup) → TookStream setup [] result }
    {
        DeskState {
            lines: Lines::new(),
            count: 0,
        }
    }

    /// How many bytes are taken yet, until the limit of 2^40.
    pub(crate) fn room(&self) -> u64
        ensures { result ≡ input_limit - self.now.count }
    {
        room_behind(self.count)
    }

    /// Takes the next piece of the desk's bytes, and answers each line that ends in it, up to a `quit`. It reads nothing of the
    /// port's source. Once it has answered an end the state is of no more use. `Quit` comes where a `quit` was answered, `WriteFault`
    /// where a write failed, `Stopped` where the hall stopped, and `Spent` where the bytes taken come to 2^40.
    pub fn take<H: Hall, P: Port>(
        &mut self,
        alloc: Global,
        hall: &mut H,
        port: &mut P,
        piece: &[u8],
    ) -> Result<(), DeskEnd>
        requires { (H.seen hall.old).ready }
        ensures taken { (stream : List ℕ) → TookStream (meaning (H.seen hall.old).text) stream self.old →
            IsTaken result (meaning (H.seen hall.old).text) stream piece.now self.new }
        ensures kept { IsKept (H.seen hall.old) (H.seen hall.new) }
        ensures served { (stream : List ℕ) (b : Summary) (h : List Entry) →
            TookStream (meaning (H.seen hall.old).text) stream self.old → (H.seen hall.old).stands b h →
            ServesBytes result stream (in_limit stream piece.now) b h (H.seen hall.old) (H.seen hall.new) (P.seen port.old) (P.seen port.new) }
        ensures ends { ReadsNothing result }
        ensures stop { HasShown (H.seen hall.new) (ending_of result) }
        ensures port { Answers (result ≡ Err DeskEnd.WriteFault) (P.seen port.old) (P.seen port.new) }
    {
        let bytes = up_to(piece, room_behind(self.count));
        self.count += bytes.len() as u64;
        self.lines.answer_ended(alloc, hall, port, bytes)?;
        if room_behind(self.count) == 0 {
            return Err(DeskEnd::Spent);
        }
        Ok(())
    }

    /// Answers what is open as a line, where it is not empty, and says how the session ended: the input has.
    pub(crate) fn finish<H: Hall, P: Port>(
        &mut self,
        alloc: Global,
        hall: &mut H,
        port: &mut P,
    ) -> DeskEnd
        requires { (H.seen hall.old).ready }
        ensures kept { IsKept (H.seen hall.old) (H.seen hall.new) }
        ensures ended { (stream : List ℕ) → TookStream (meaning (H.seen hall.old).text) stream self.old → IsFinished result stream }
        ensures served { (stream : List ℕ) (b : Summary) (h : List Entry) →
            TookStream (meaning (H.seen hall.old).text) stream self.old → (H.seen hall.old).stands b h →
            ServesLines (Err result) (ended_lines stream) (lines stream) b h
            (H.seen hall.old) (H.seen hall.new) (P.seen port.old) (P.seen port.new) }
        ensures over { IsOver result }
        ensures stop { HasShown (H.seen hall.new) (ending_of (Err result)) }
        ensures port { Answers (result ≡ DeskEnd.WriteFault) (P.seen port.old) (P.seen port.new) }
    {
        self.lines.answer_last(alloc, hall, port)
    }
}
