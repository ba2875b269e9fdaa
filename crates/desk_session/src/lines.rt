// The lines of a desk: they are cut, and each is answered.
ghost use Rattle.std.specs.Prelude.{◌≡◌, ◌++◌, [], true, Err, None, IfSome, List, ℕ};
ghost use Rattle.std.specs.Str.Lines.{lines};
ghost use Rattle.alarm_rules.specs.Setups.{meaning};
ghost use Rattle.arc_io.specs.Added.{Answers};
ghost use Rattle.arc_text.specs.LineCutting.{WasFed, cut_of, line_of};
ghost use Rattle.arc_text.specs.Lines.{ended_lines};
ghost use Rattle.centre_core.specs.Halls.{IsKept};
ghost use Rattle.centre_rules.specs.Summary.{Summary};
ghost use Rattle.centre_rules.specs.History.{Entry};
ghost use Rattle.desk_wire.specs.Laws.{IsCommand};
ghost use Rattle.session_rules.specs.Sessions.{HasShown};
ghost use Rattle.desk_session.specs.Desks.{HasTaken, IsFed, IsFinished, ServesBytes, ServesLines};
ghost use Rattle.desk_session.specs.Events.{command_in, is_named, line_limit};
ghost use Rattle.desk_session.specs.Sessions.{IsCutShort, IsOver, ending_of};

use crate::answer::answer;
use crate::desk_end::DeskEnd;
use arc_data::Txt;
use arc_io::Port;
use arc_text::{LineCut, LineCutter};
use centre_core::Hall;
use desk_wire::Command;
use std::alloc::Global;

// How many bytes a line has at most.
const LINE_LIMIT: usize = 1024;

/// What is open of a line, and for whom the desk acts, or nobody.
#[derive(Drop)]
pub(crate) struct Lines {
    pub(crate) cutter: LineCutter,
    pub(crate) operator: Option<Txt>,
}

impl Lines {
    /// Nothing is open, and the desk acts for nobody.
    pub(crate) fn new() -> Lines
        ensures fed { WasFed [] result.cutter }
        ensures limit { result.cutter.limit ≡ line_limit }
        ensures operator { result.operator ≡ None }
    {
        Lines {
            cutter: LineCutter::new(LINE_LIMIT),
            operator: None,
        }
    }

    /// Answers each line that ends in these bytes, behind those that were taken before. Behind a `quit` nothing is answered.
    pub(crate) fn answer_ended<H: Hall, P: Port>(
        &mut self,
        alloc: Global,
        hall: &mut H,
        port: &mut P,
        bytes: &[u8],
    ) -> Result<(), DeskEnd>
        requires ready { (H.seen hall.old).ready }
        requires limit { self.old.cutter.limit ≡ line_limit }
        requires named { is_named self.old.operator ≡ true }
        ensures limit { self.new.cutter.limit ≡ line_limit }
        ensures named { is_named self.new.operator ≡ true }
        ensures kept { IsKept (H.seen hall.old) (H.seen hall.new) }
        ensures fed { (stream : List ℕ) → HasTaken (meaning (H.seen hall.old).text) stream self.old.cutter self.old.operator →
            IsFed result (meaning (H.seen hall.old).text) (stream ++ bytes.now) self.new.cutter self.new.operator }
        ensures served { (stream : List ℕ) (b : Summary) (h : List Entry) →
            HasTaken (meaning (H.seen hall.old).text) stream self.old.cutter self.old.operator → (H.seen hall.old).stands b h →
            ServesBytes result stream bytes.now b h (H.seen hall.old) (H.seen hall.new) (P.seen port.old) (P.seen port.new) }
        ensures short { IsCutShort result }
        ensures stop { HasShown (H.seen hall.new) (ending_of result) }
        ensures port { Answers (result ≡ Err DeskEnd.WriteFault) (P.seen port.old) (P.seen port.new) }
    {
        let mut at = 0;
        while at < bytes.len() {
            let (count, cut) = self.cutter.feed(&bytes[at..]);
            at += count;
            if let Some(cut) = cut {
                let command = command_in(cut, self.cutter.line());
                answer(alloc, hall, port, &mut self.operator, command)?;
            }
        }
        Ok(())
    }

    /// Answers what is open as a line, where it is not empty: the input has ended.
    pub(crate) fn answer_last<H: Hall, P: Port>(
        &mut self,
        alloc: Global,
        hall: &mut H,
        port: &mut P,
    ) -> DeskEnd
        requires ready { (H.seen hall.old).ready }
        requires limit { self.old.cutter.limit ≡ line_limit }
        requires named { is_named self.old.operator ≡ true }
        ensures limit { self.new.cutter.limit ≡ line_limit }
        ensures named { is_named self.new.operator ≡ true }
        ensures kept { IsKept (H.seen hall.old) (H.seen hall.new) }
        ensures ended { (stream : List ℕ) → HasTaken (meaning (H.seen hall.old).text) stream self.old.cutter self.old.operator →
            IsFinished result stream }
        ensures served { (stream : List ℕ) (b : Summary) (h : List Entry) →
            HasTaken (meaning (H.seen hall.old).text) stream self.old.cutter self.old.operator → (H.seen hall.old).stands b h →
            ServesLines (Err result) (ended_lines stream) (lines stream) b h
            (H.seen hall.old) (H.seen hall.new) (P.seen port.old) (P.seen port.new) }
        ensures over { IsOver result }
        ensures stop { HasShown (H.seen hall.new) (ending_of (Err result)) }
        ensures port { Answers (result ≡ DeskEnd.WriteFault) (P.seen port.old) (P.seen port.new) }
    {
        let Some(cut) = self.cutter.finish() else {
            return DeskEnd::InputEnded;
        };
        let command = command_in(cut, self.cutter.line());
        match answer(alloc, hall, port, &mut self.operator, command) {
            Ok(()) => DeskEnd::InputEnded,
            Err(end) => end,
        }
    }
}

// The command of a line that was cut so.
fn command_in(cut: LineCut, line: &[u8]) -> Option<Command>
    ensures value { (typed : List ℕ) → cut ≡ cut_of line_limit typed → line.now ≡ line_of cut typed → result ≡ command_in typed }
    ensures ranges { IfSome result IsCommand }
{
    match cut {
        LineCut::Whole => Command::read(line),
        LineCut::TooLong => None,
    }
}
