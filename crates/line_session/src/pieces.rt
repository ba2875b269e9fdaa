// The pieces of a stream: they are cut, and each whole one is answered.
ghost use Rattle.std.specs.Prelude.{◌≡◌, ◌↔◌, ◌++◌, [], true, Err, Some, List, ℕ, IsTrue, OnOk};
ghost use Rattle.arc_data.specs.Digits.{is_name};
ghost use Rattle.arc_io.specs.Added.{Answers};
ghost use Rattle.centre_core.specs.Halls.{IsKept};
ghost use Rattle.centre_rules.specs.Summary.{Summary};
ghost use Rattle.centre_rules.specs.History.{Entry};
ghost use Rattle.dc09_frame.specs.Cutting.{WasFed};
ghost use Rattle.session_rules.specs.Sessions.{HasShown, changed};
ghost use Rattle.line_session.specs.Groups.{ServesGroupBytes};
ghost use Rattle.line_session.specs.Lines.{ServesBytes};
ghost use Rattle.line_session.specs.Sessions.{IsCutShort, ending_of};

use crate::answer::answer;
use crate::buffers::Buffers;
use crate::line_end::LineEnd;
use crate::waiting::Waiting;
use arc_data::Txt;
use arc_io::Port;
use centre_core::{GroupHall, Hall};
use dc09_frame::{Cut, Cutter, FrameBuf};
use std::alloc::Global;

/// What is open of a piece, and room to answer it.
#[derive(Drop)]
pub(crate) struct Pieces {
    cutter: Cutter,
    buffers: Buffers,
}

impl Pieces {
    /// Nothing is open.
    pub(crate) fn new() -> Pieces
        ensures { WasFed [] result.cutter }
    {
        Pieces {
            cutter: Cutter::new(),
            buffers: Buffers {
                text: FrameBuf::new(),
                reply: FrameBuf::new(),
            },
        }
    }

    /// Nothing is open any more.
    pub(crate) fn restart(&mut self)
        ensures { WasFed [] self.new.cutter }
    {
        self.cutter.restart();
    }

    /// Answers each whole piece that ends in these bytes, behind those that were taken before, on a line of this name.
    pub(crate) fn answer_whole<H: Hall, P: Port>(
        &mut self,
        alloc: Global,
        hall: &mut H,
        port: &mut P,
        name: &Txt,
        bytes: &[u8],
    ) -> Result<(), LineEnd>
        requires ready { (H.seen hall.old).ready }
        requires name { is_name name.now ≡ true }
        ensures fed { OnOk result ((stream : List ℕ) → WasFed stream self.old.cutter → WasFed (stream ++ bytes.now) self.new.cutter) }
        ensures kept { IsKept (H.seen hall.old) (H.seen hall.new) }
        ensures served { (stream : List ℕ) (b : Summary) (h : List Entry) → WasFed stream self.old.cutter → (H.seen hall.old).stands b h →
            ServesBytes name.now result stream bytes.now b h (changed (H.seen hall.old) (H.seen hall.new) (P.seen port.old) (P.seen port.new)) }
        ensures ends { IsCutShort result }
        ensures stop { HasShown (H.seen hall.new) (ending_of result) }
        ensures port { Answers (result ≡ Err LineEnd.WriteFault) (P.seen port.old) (P.seen port.new) }
    {
        let mut at = 0;
        while at < bytes.len() {
            let (count, cut) = self.cutter.feed(&bytes[at..]);
            at += count;
            if is_whole(cut) {
                answer(
                    alloc,
                    hall,
                    port,
                    name,
                    self.cutter.body(),
                    &mut self.buffers,
                )?;
            }
        }
        Ok(())
    }

    /// The same, of pieces whose events are submitted together.
    pub(crate) fn answer_together<H: GroupHall, P: Port>(
        &mut self,
        alloc: Global,
        hall: &mut H,
        port: &mut P,
        name: &Txt,
        bytes: &[u8],
    ) -> Result<(), LineEnd>
        requires ready { (H.seen hall.old).ready }
        requires name { is_name name.now ≡ true }
        ensures fed { OnOk result ((stream : List ℕ) → WasFed stream self.old.cutter → WasFed (stream ++ bytes.now) self.new.cutter) }
        ensures kept { IsKept (H.seen hall.old) (H.seen hall.new) }
        ensures served { (stream : List ℕ) (b : Summary) (h : List Entry) → WasFed stream self.old.cutter → (H.seen hall.old).stands b h →
            ServesGroupBytes name.now result stream bytes.now b h
            (changed (H.seen hall.old) (H.seen hall.new) (P.seen port.old) (P.seen port.new)) }
        ensures ends { IsCutShort result }
        ensures stop { HasShown (H.seen hall.new) (ending_of result) }
        ensures port { Answers (result ≡ Err LineEnd.WriteFault) (P.seen port.old) (P.seen port.new) }
    {
        let mut waiting = Waiting::new(alloc);
        let mut at = 0;
        while at < bytes.len() {
            let (count, cut) = self.cutter.feed(&bytes[at..]);
            at += count;
            if is_whole(cut) {
                waiting.take(
                    alloc,
                    hall,
                    port,
                    name,
                    self.cutter.body(),
                    &mut self.buffers,
                )?;
            }
        }
        waiting.answer(alloc, hall, port, &mut self.buffers.reply)
    }
}

// Whether a whole piece was cut.
fn is_whole(cut: Option<Cut>) -> bool
    ensures { IsTrue result ↔ (cut ≡ Some Cut.Whole) }
{
    matches!(cut, Some(Cut::Whole))
}
