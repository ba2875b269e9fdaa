// A line whose bytes are handed in.
ghost use Rattle.std.specs.Prelude.{◌≡◌, ◌-◌, [], true, Err, List, ℕ};
ghost use Rattle.arc_data.specs.Digits.{is_name};
ghost use Rattle.arc_io.specs.Added.{Answers};
ghost use Rattle.centre_core.specs.Halls.{IsKept};
ghost use Rattle.centre_rules.specs.Summary.{Summary};
ghost use Rattle.centre_rules.specs.History.{Entry};
ghost use Rattle.session_rules.specs.Inputs.{in_limit, input_limit};
ghost use Rattle.session_rules.specs.Sessions.{HasShown, changed};
ghost use Rattle.line_session.specs.Sessions.{ReadsNothing, ending_of};
ghost use Rattle.line_session.specs.Groups.{ServesGroupBytes};
ghost use Rattle.line_session.specs.Lines.{TookStream, IsTaken, ServesBytes};

use crate::line_end::LineEnd;
use crate::pieces::Pieces;
use arc_data::Txt;
use arc_io::Port;
use centre_core::{GroupHall, Hall};
use session_rules::{room_behind, up_to};
use std::alloc::Global;
use std::marker::Model;

/// The state of a line between two pieces of its bytes: its name, what is open of a frame, and how many bytes were taken. It takes no
/// memory, and has room for the longest frame.
#[derive(Drop)]
pub struct LineState {
    name: Txt,
    pieces: Pieces,
    count: u64,
}

impl Model for LineState {
    ghost use Rattle.std.specs.Prelude.{◌≡◌, ◌≤◌, true};
    ghost use Rattle.arc_data.specs.Digits.{is_name};
    ghost use Rattle.session_rules.specs.Inputs.{input_limit};
    ghost use Rattle.line_session.specs.Lines.{LineValue};

    ghost Value = { LineValue };

    ghost view = { λ s. record { name = s.name; cutter = s.pieces.cutter; count = s.count } };

    ghost invariant = { λ s. (s.count ≤ input_limit) × (is_name s.name ≡ true) };
}

impl LineState {
    /// A line of this name, of which no byte was taken. The name has 1 to 16 bytes, as an operator's.
    pub fn new(name: Txt) -> LineState
        requires { is_name name ≡ true }
        ensures { TookStream name [] result }
    {
        LineState {
            name,
            pieces: Pieces::new(),
            count: 0,
        }
    }

    /// The line is made anew, as `new` makes one, in the room that it has.
    pub fn renew(&mut self, name: Txt)
        requires { is_name name ≡ true }
        ensures { TookStream name [] self.new }
    {
        self.name = name;
        self.pieces.restart();
        self.count = 0;
    }

    /// How many bytes are taken yet, until the limit of 2^40.
    pub(crate) fn room(&self) -> u64
        ensures { result ≡ input_limit - self.now.count }
    {
        room_behind(self.count)
    }

    /// Takes the next piece of the line's bytes, and answers each whole frame that ends in it. It reads nothing of the port's
    /// source. Once it has answered an end the state is of no more use. `WriteFault` comes where a write failed, `Stopped`
    /// where the hall stopped or memory was wanted, and `Spent` where the bytes taken come to 2^40.
    pub fn take<H: Hall, P: Port>(
        &mut self,
        alloc: Global,
        hall: &mut H,
        port: &mut P,
        piece: &[u8],
    ) -> Result<(), LineEnd>
        requires { (H.seen hall.old).ready }
        ensures taken { (name stream : List ℕ) → TookStream name stream self.old → IsTaken name result stream piece.now self.new }
        ensures kept { IsKept (H.seen hall.old) (H.seen hall.new) }
        ensures served { (name stream : List ℕ) (b : Summary) (h : List Entry) → TookStream name stream self.old → (H.seen hall.old).stands b h →
            ServesBytes name result stream (in_limit stream piece.now) b h (changed (H.seen hall.old) (H.seen hall.new) (P.seen port.old) (P.seen port.new)) }
        ensures ends { ReadsNothing result }
        ensures stop { HasShown (H.seen hall.new) (ending_of result) }
        ensures port { Answers (result ≡ Err LineEnd.WriteFault) (P.seen port.old) (P.seen port.new) }
    {
        let bytes = up_to(piece, room_behind(self.count));
        self.count += bytes.len() as u64;
        self.pieces
            .answer_whole(alloc, hall, port, &self.name, bytes)?;
        if room_behind(self.count) == 0 {
            return Err(LineEnd::Spent);
        }
        Ok(())
    }

    /// Takes the next piece of the line's bytes, as `take` does, but for one thing: the whole frames that end in it take their readings one
    /// after another, and then their events are submitted together, at most 64 at a time. Each is acknowledged behind its entry, and all
    /// replies stand in the order of the frames.
    pub fn take_together<H: GroupHall, P: Port>(
        &mut self,
        alloc: Global,
        hall: &mut H,
        port: &mut P,
        piece: &[u8],
    ) -> Result<(), LineEnd>
        requires { (H.seen hall.old).ready }
        ensures taken { (name stream : List ℕ) → TookStream name stream self.old → IsTaken name result stream piece.now self.new }
        ensures kept { IsKept (H.seen hall.old) (H.seen hall.new) }
        ensures served { (name stream : List ℕ) (b : Summary) (h : List Entry) → TookStream name stream self.old → (H.seen hall.old).stands b h →
            ServesGroupBytes name result stream (in_limit stream piece.now) b h
            (changed (H.seen hall.old) (H.seen hall.new) (P.seen port.old) (P.seen port.new)) }
        ensures ends { ReadsNothing result }
        ensures stop { HasShown (H.seen hall.new) (ending_of result) }
        ensures port { Answers (result ≡ Err LineEnd.WriteFault) (P.seen port.old) (P.seen port.new) }
    {
        let bytes = up_to(piece, room_behind(self.count));
        self.count += bytes.len() as u64;
        self.pieces
            .answer_together(alloc, hall, port, &self.name, bytes)?;
        if room_behind(self.count) == 0 {
            return Err(LineEnd::Spent);
        }
        Ok(())
    }
}
